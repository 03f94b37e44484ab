// What the search for headers answers.
use base_types::{Bytes, List};
use directive_scan::HeaderName;
use std::alloc::AllocError;
use thiserror::Error;

/// What computed tokens may name (ISO C 6.10.2 paragraph 4). `headers`: the header names, each once, those in quote form before
/// those in angle form, each form in the order of the names' bytes. `support`: the identifiers that the answer rests on, each once and
/// in the order of their bytes: those that some complete run meets outside their own hide sets, whether or not they have definitions.
#[derive(Drop)]
pub struct Names {
    pub headers: List<HeaderName>,
    pub support: List<Bytes>,
}

/// Why the headers that computed tokens may name aren't known. `Budget`: there are more complete lists of choices than the
/// budget. `Long`: a run needs more than 100,000 units of work. `Presumed`: a run replaces `__LINE__`, or replaces `__FILE__` where the
/// file has a `#line` (ISO C 6.10.4, 6.10.8.1). `Memory`: no memory was found.
#[derive(Clone, Copy, Debug, PartialEq, Eq, Drop, Error)]
pub enum SymError {
    #[error("Budget")]
    Budget,
    #[error("Long")]
    Long,
    #[error("Presumed")]
    Presumed,
    #[error("Memory")]
    Memory,
}

impl From<AllocError> for SymError {
    ghost use Rattle.std.specs.Prelude.{◌≡◌};
    ghost use Rattle.symbolic_expand.specs.declared.outcome.SymError.TheVariants.{Memory};

    ghost from_gives = { λ _ e. e ≡ Memory };

    fn from(_e: AllocError) -> SymError {
        SymError::Memory
    }
}
