// Borrowed bytes that are read in pieces.
ghost use Rattle.std.specs.Prelude.{◌≡◌, ◌≤◌, ◌<◌, length, take, drop, All, IfOk, Some};
ghost use Rattle.std.specs.Io.{ReadsAtMost};
ghost use Rattle.std.specs.Io.KnownBytes.{IsAtEnd};
ghost use Rattle.base_types.specs.Causes.{HasCause};
ghost use Rattle.io_edges.specs.Edges.{TakesFront};

use crate::pieces::Pieces;
use io_edges::{ReadFault, Source};

/// Borrowed bytes, read in pieces: no call fails.
#[derive(Drop)]
pub struct PieceSource<'a> {
    // What is left of the bytes.
    rest: &'a [u8],
    pieces: Pieces,
}

impl<'a> PieceSource<'a> {
    /// A source of these bytes. `pieces` are the greatest lengths, in bytes, of what `take` gives, used in a circle; none
    /// sets no bound.
    pub fn new(bytes: &'a [u8], pieces: Vec<u32>) -> PieceSource<'a>
        requires { All (λ n. 0 < n) pieces.items }
        ensures told { ⟦<PieceSource<'a> as Source>⟧.left result ≡ Some bytes.now }
        ensures fresh { ⟦<PieceSource<'a> as Source>⟧.faults result ≡ 0 }
    {
        PieceSource {
            rest: bytes,
            pieces: Pieces::new(pieces),
        }
    }
}

impl<'a> Source for PieceSource<'a> {
    ghost left = { λ s. Some s.rest.now };

    ghost faults = { λ _. 0 };

    fn take(&mut self, room: &mut [u8]) -> Result<usize, ReadFault>
        requires { 0 < length room.old }
        ensures bound { ReadsAtMost result room.new }
        ensures bytes { TakesFront (⟦<PieceSource<'a> as Source>⟧.left self.old) (⟦<PieceSource<'a> as Source>⟧.left self.new) result room.new }
        ensures end { IfOk result (λ n. n ≡ 0 → IsAtEnd (⟦<PieceSource<'a> as Source>⟧.left self.new)) }
        ensures cause { HasCause ReadFault.Fault (⟦<PieceSource<'a> as Source>⟧.faults self.old) (⟦<PieceSource<'a> as Source>⟧.faults self.new) result }
    {
        let n = self
            .rest
            .len()
            .min(room.len())
            .min(self.pieces.next_bound());
        let (front, rest) = self.rest.split_at(n);
        room[..n].copy_from_slice(front);
        self.rest = rest;
        Ok(n)
    }
}
