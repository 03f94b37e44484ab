//! What every crate stands on: a list of bytes and a list of any type, which contracts see as plain lists; a value in memory of
//! its own; the calls of objects in memory that fail where a list says so; the limits of a run; and the definitions that all
//! contracts cite (causes of faults, told contents, membership, names for bytes).
#![tactic(auto)]

mod boxed;
mod bytes;
mod calls;
mod failing;
pub mod limits;
mod list;

pub use boxed::Boxed;
pub use bytes::Bytes;
pub use calls::{Calls, Counted};
pub use failing::Failing;
pub use list::List;
