// Why preprocessing doesn't go on.
ghost use Rattle.std.specs.Prelude.{◌≡◌};
ghost use Rattle.tree_model.specs.Paths.{spelled};
ghost use Rattle.daemon_cpp.specs.parts.Problems.{complaint_of};
ghost use Rattle.daemon_cpp.specs.parts.Showing.{Refuses};
ghost use Rattle.daemon_cpp.specs.declared.stop.Stop.TheVariants.{Memory};

use crate::diagnostic::{Diagnostic, Problem};
use std::alloc::{AllocError, Global};
use tree_model::CanonPath;

/// Why preprocessing doesn't go on: the first diagnostic, which is its outcome; or the tree failed, or no memory was found.
#[derive(Drop)]
pub enum Stop {
    Ended(Diagnostic),
    Fault,
    Memory,
}

impl From<AllocError> for Stop {
    ghost from_gives = { λ _ e. e ≡ Memory };

    fn from(_error: AllocError) -> Stop {
        Stop::Memory
    }
}

/// A diagnostic at a physical line of the file at a place, 0 where it is the file as a whole.
pub fn refused(alloc: Global, place: &CanonPath, line: u32, problem: Problem<'_>) -> Stop
    ensures { Refuses (record { place = spelled place.now; at = line; complaint = complaint_of problem.entry }) result }
{
    match Diagnostic::new(alloc, place.bytes(), line, problem) {
        Ok(diagnostic) => Stop::Ended(diagnostic),
        Err(_) => Stop::Memory,
    }
}
