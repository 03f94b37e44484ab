//! A memo of values that are right for their keys. Its history says which client looked for which key and which published a
//! value, and what came of it.
#![tactic(auto)]

mod memoised;
mod shared;
mod state;
mod step;

pub use memoised::Memoised;
pub use shared::{Share, Shared};
pub use state::MemoState;
pub use step::{Kept, MemoCall, What};
