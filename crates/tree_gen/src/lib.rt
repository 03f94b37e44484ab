//! A tree of headers and sources of any size up to 5,000 sources, and the list of the jobs that compile them, made
//! from a number alone.
#![tactic(auto)]

mod generated;
mod numbered;
#[cfg(test)]
mod tests;
mod texts;

pub use generated::generate;
