// What preprocessing gives.
ghost use Rattle.std.specs.Prelude.{◌≡◌};
ghost use Rattle.daemon_cpp.specs.declared.outcome.CppError.TheVariants.{Memory};

use base_types::Bytes;
use std::alloc::AllocError;

/// What preprocessing a job gives: its text, of at most 67,108,864 bytes, or its first diagnostic, of 1 to 65,536
/// bytes in the form `PLACE:LINE: error: WORDS`.
#[derive(Debug, Drop)]
pub enum Outcome {
    Text(Bytes),
    Diag(Bytes),
}

/// Why preprocessing gave nothing. `Fault`: the tree failed, and its count of faults rose in this call. `Memory`: no
/// memory was found.
#[derive(Clone, Copy, Debug, PartialEq, Eq, Drop)]
pub enum CppError {
    Fault,
    Memory,
}

impl From<AllocError> for CppError {
    ghost from_gives = { λ _ e. e ≡ Memory };

    fn from(_error: AllocError) -> CppError {
        CppError::Memory
    }
}
