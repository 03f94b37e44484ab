//! The numbers of jobs, which threads draw: each number once.
#![tactic(auto)]

mod tickets;
mod view;

pub use tickets::{Seat, Tickets};
pub use view::View;
