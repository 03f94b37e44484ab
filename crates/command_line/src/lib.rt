//! What the programs have in common: their words, what they answer to `--help`, to wrong words and to failures of the host,
//! the files that they read, and memory that is kept for the next block.
#![tactic(auto)]

mod body;
mod ending;
mod room;
mod words;

pub use body::{FileBody, read_body, read_file, read_seen};
pub use ending::{ended, failure_status, tell, tell_failure, wrong_words};
pub use room::keep_blocks;
pub use words::{refuse, show, words_of};
