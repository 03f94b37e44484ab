//! The host's files as a tree.
#![tactic(auto)]

mod bodies;
mod folder;

pub use folder::Folder;
