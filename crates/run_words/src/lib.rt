//! The words of the top call, and what they ask for.
#![tactic(auto)]

mod asked;
mod flags;
mod numbers;
mod order;

pub use asked::{Asked, asked_in};
