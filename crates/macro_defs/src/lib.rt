//! Macro definitions, and tables of them (ISO C 6.10.3).
#![tactic(auto)]

mod body;
mod copies;
mod definition;
mod key;
mod marks;
mod numbers;
mod params;
mod reading;
mod replacement;
mod run;
mod sameness;
mod shared_function;
mod table;

pub use definition::{DefineError, Definition, Shape};
pub use reading::{names_macro, read_define, read_shared};
pub use run::Run;
pub use table::MacroTable;
