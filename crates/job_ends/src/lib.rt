//! The ends of clients, and what a client does with one job at its end: it is analysed, sent to a host and answered there,
//! or done locally, and what came of it is recorded.
#![tactic(auto)]

mod asking;
mod laws;
mod one_job;
mod record;
mod steps;
mod talking;

pub use asking::{Replied, ask_host, ask_wire};
pub use laws::records_agree;
pub use one_job::do_job;
pub use record::{Cause, Done, End, JobOutcome, Way};
pub use steps::{Prepared, conclude, do_locally, prepare, put_text};
pub use talking::{Reply, exchange};
