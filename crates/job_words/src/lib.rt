//! Jobs: what is read from a working directory and compile words.
#![tactic(auto)]

mod given;
mod job;
mod laws;
mod macro_word;
mod macros;
mod reading;
mod word;

pub use job::Job;
pub use laws::{equal_jobs_are_same, first_words_decide, jobs_are_short, jobs_keep_words};
pub use macro_word::MacroWord;
pub use reading::{WordError, read_words, read_words_of};
