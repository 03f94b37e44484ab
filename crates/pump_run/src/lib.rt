//! The top call: words and a compile list in, outputs, a report and a status out.
#![tactic(auto)]

mod clients;
mod ending;
mod laws;
mod report;
mod top;

pub use build_clients::{Done, End, Progress, Unwatched, Way};
pub use laws::served_by_daemon;
pub use top::{pump, pump_watched};
