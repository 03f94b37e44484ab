//! Whole runs of `pump` over trees in memory, and tests of the steps of one job at its client.
//!
//! A run of one client is `run_named`, whose type names the run's tree. Its contract says in plain words what the clause on
//! `pump` gives there: the text that was put, or the diagnostic that was told, is the one of preprocessing over that whole tree. The
//! program `run_examples` goes through it. Runs of several jobs go through `run_at_ends`, whose contract says the same of each job's
//! text, whichever client did it.
#![tactic(auto)]

#[cfg(test)]
mod clients;
#[cfg(test)]
mod example;
#[cfg(test)]
mod header;
mod named_run;
#[cfg(test)]
mod several;
mod several_ends;

pub use named_run::{Ended, NoRun, Objects, run_named};
pub use several_ends::{AllEnded, run_at_ends};
