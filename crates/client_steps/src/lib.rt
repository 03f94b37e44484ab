//! Clients that stop at each step that others see: a draw, a look, a publication, and a slot's lease and its end.
#![tactic(auto)]

mod analysing;
mod client;
mod ending;
mod need;
mod phase;
mod step;

pub use client::Client;
pub use need::{Need, Reply};
