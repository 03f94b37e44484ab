//! The text of preprocessed output: tokens on lines that stand for the lines of their files, and line markers in
//! the form of GNU cpp.
#![tactic(auto)]

mod last;
mod law;
mod layout;
mod text;

pub use last::Last;
pub use law::layout_law;
pub use layout::{LayError, Layout};
