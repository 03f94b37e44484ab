// What is searched, and how a file was found.
ghost use Rattle.std.specs.Prelude.{◌≡◌, IfOk};

use base_types::Bytes;
use std::alloc::{AllocError, Global};
use tree_model::CanonPath;

/// How a file was found: as the source, by a name that begins with `/`, beside the file that asks (a forced file:
/// in the working directory), or in the chain's directory of this number, from 0.
#[derive(Clone, Copy, Debug, PartialEq, Eq, Hash, Drop)]
pub enum Found {
    Primary,
    Absolute,
    Here,
    Chain(u32),
}

/// A file by its place, and how it was found. `#include_next` goes on behind that.
#[derive(PartialEq, Eq, Hash, Drop)]
pub struct Visit {
    pub place: CanonPath,
    pub found: Found,
}

impl Visit {
    /// A copy.
    pub fn copy(&self, alloc: Global) -> Result<Visit, AllocError>
        ensures { IfOk result (λ copy. copy ≡ self.now) }
    {
        Ok(Visit {
            place: self.place.copy(alloc)?,
            found: self.found,
        })
    }
}

/// The form of asking: for the source, for a file of `-include`, by `#include` or `#include_next` (ISO C 6.10.2; the
/// latter is GNU's), with the name in quotes or in angles.
#[derive(Clone, Copy, Debug, PartialEq, Eq, Drop)]
pub enum Form {
    Source,
    Forced,
    Quote,
    Angle,
    NextQuote,
    NextAngle,
}

/// A file that is asked for. `from` is the file that asks, which the last four forms have.
#[derive(Drop)]
pub struct Ask {
    pub form: Form,
    pub from: Option<Visit>,
    pub name: Bytes,
}
