//! Expansion under sets of definitions: the headers that computed tokens may name (ISO C 6.10.2 paragraph 4).
#![tactic(auto)]

mod choices;
mod found;
mod laws;
mod next;
mod outcome;
mod run;
mod search;
mod sets;
mod texts;

pub use laws::{more_definitions, support_decides};
pub use outcome::{Names, SymError};
pub use search::names;
pub use sets::DefSets;
