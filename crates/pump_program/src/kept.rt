// A list of which a copy is kept, so that a line on standard error can say what is wrong with it.
ghost use Rattle.std.specs.Prelude.{◌≡◌};

use base_types::Bytes;
use io_edges::{ReadFault, Source};
use std::alloc::Global;

/// A source that keeps a copy of what is taken from it.
#[derive(Drop)]
pub struct Kept<S: Source> {
    source: S,
    bytes: Bytes,
    is_whole: bool,
}

impl<S: Source> Kept<S> {
    /// A source over this one, from which nothing was taken yet.
    pub fn over(alloc: Global, source: S) -> Kept<S>
        ensures left { ⟦<Kept<S> as Source>⟧.left result ≡ S.left source }
        ensures faults { ⟦<Kept<S> as Source>⟧.faults result ≡ S.faults source }
    {
        Kept {
            source,
            bytes: Bytes::new(alloc),
            is_whole: true,
        }
    }

    /// What was taken; None where there was no memory for a copy.
    pub fn bytes(&self) -> Option<&[u8]> {
        if self.is_whole {
            Some(self.bytes.as_slice())
        } else {
            None
        }
    }

    /// The source within.
    pub fn source(&self) -> &S {
        &self.source
    }
}

impl<S: Source> Source for Kept<S> {
    ghost left = { λ k. S.left k.source };

    ghost faults = { λ k. S.faults k.source };

    fn take(&mut self, room: &mut [u8]) -> Result<usize, ReadFault> {
        let n = self.source.take(room)?;
        if self.bytes.extend(&room[..n]).is_err() {
            self.is_whole = false;
        }
        Ok(n)
    }
}
