//! Clients that take turns on one thread: runs by any order of turns, and what every run keeps.
#![tactic(auto)]

mod bounds;
mod merging;
mod order;
mod outcomes;
mod progress;
mod starting;
mod totals;
mod turns;

pub use bounds::runs_are_bounded;
pub use order::{run_order, run_order_watched};
pub use progress::{Progress, Unwatched};
pub use totals::Totals;
