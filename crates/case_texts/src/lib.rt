//! Cases of test programs, written as text: a tree of files in lines, texts of C, what is asked of them, and the lines of answers;
//! and what such a program does by its words.
#![tactic(auto)]

mod answers;
mod cases;
mod entries;
mod nodes;
mod program;
mod spelling;
mod texts;
mod words;
mod wrong;

pub use answers::{push_bytes, say, say_lines, say_value, say_word};
pub use cases::{Lines, answer_cases, end_cases, read_cases};
pub use entries::{Stands, add_node};
pub use nodes::{Nodes, is_of_tree, path_of};
pub use program::run_program;
pub use spelling::{bytes_of, number_of};
pub use texts::{TextLines, Texts, is_heading, spelled};
pub use words::{Cases, Line, WordLines, cut, read_line};
pub use wrong::Wrong;
