//! Preprocessing a job over a tree of files.
#![tactic(auto)]

mod condition;
mod controlling;
mod cpp;
mod define;
mod defined;
mod diagnostic;
mod file_text;
mod header;
mod kept;
mod lexed_files;
mod line;
mod numbering;
mod once;
mod opening;
mod outcome;
mod pieces;
mod section;
mod stop;
mod text;
mod tree;

pub use cpp::{preprocess, preprocess_last};
pub use outcome::{CppError, Outcome};
