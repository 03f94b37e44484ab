//! The hosts of a build, read from a text, and their slots: each client leases one before it dials, and gives it back.
#![tactic(auto)]

mod hosts;
mod number;
mod slots;
mod state;
mod word;

pub use hosts::{HostError, read_hosts};
pub use slots::Slots;
pub use state::{Lease, SlotState};
