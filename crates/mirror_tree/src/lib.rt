//! The tree of a request's entries: it tells its content and has no faults.
#![tactic(auto)]

mod mirror;

pub use mirror::Mirror;
