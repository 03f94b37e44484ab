// The other side of a wire in memory.
ghost use Rattle.std.specs.Prelude.{ℕ, List, IfOk};

use base_types::Bytes;
use std::alloc::{AllocError, Global};

/// The other side of a wire in memory: it answers whole requests.
pub trait Answerer {
    /// Which answers it may give to the bytes sent. One that isn't told may give any.
    ghost may: { List ℕ → List ℕ → Type 0 };

    /// Answers the bytes that were sent.
    fn answer(&mut self, alloc: Global, sent: &[u8]) -> Result<Bytes, AllocError>
        ensures { IfOk result (λ answer. may sent.now answer) };
}
