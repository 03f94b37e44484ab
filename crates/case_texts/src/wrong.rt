// What is wrong with a line.
use std::alloc::{AllocError, AllocFailed};

/// Why a line isn't done.
#[derive(Drop)]
pub enum Wrong {
    /// It is out of form.
    Form(&'static str),
    Memory,
}

impl From<AllocError> for Wrong {
    fn from(_error: AllocError) -> Wrong {
        Wrong::Memory
    }
}

impl<X: Drop> From<AllocFailed<X>> for Wrong {
    fn from(_error: AllocFailed<X>) -> Wrong {
        Wrong::Memory
    }
}
