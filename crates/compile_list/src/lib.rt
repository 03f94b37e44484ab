//! The compile list: the jobs that its bytes ask for, also of a list that is read from any source.
#![tactic(auto)]

mod bytes;
mod jobs;
mod line;
mod listed;
mod lists;
mod refused;

pub use line::words_of_line;
pub use listed::{NoJobs, listed_jobs};
pub use lists::read_list;
pub use refused::{ListError, ListWhy};
