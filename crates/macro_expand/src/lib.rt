//! Macro expansion (ISO C 6.10.3).
#![tactic(auto)]

mod answers;
mod builtin;
mod call;
mod expansion;
mod hide_set;
mod laws;
mod lent;
mod marked;
mod name;
mod operand;
mod outcome;
mod paste;
mod pending;
mod pieces;
mod placing;
mod replace;
mod run;
mod stream;
mod stringize;
mod token_parts;

pub use answers::{Answers, Presumed, TablePlace};
pub use expansion::expand_for;
pub use laws::{choice_fact, expansion_is_frugal, expansion_unfolds};
pub use lent::Lent;
pub use outcome::{ExpandError, Mode, RunError, Spelling, Work};
pub use stream::{Expander, Standing, expand};
