// Bytes that are written, and the same in memory.
ghost use Rattle.std.specs.Prelude.{◌≡◌, ◌≤◌, ℕ, List, [], length, Some, None, Option, IsErrOf};
ghost use Rattle.base_types.specs.Calls.{FailsAsListed};
ghost use Rattle.base_types.specs.Causes.{HasCause, raised};
ghost use Rattle.io_edges.specs.Edges.{PutsPiece};

use base_types::{Bytes, Calls, Counted};
use std::alloc::Global;

#[derive(Clone, Copy, Debug, PartialEq, Eq, Drop)]
pub enum WriteFault {
    /// The host failed to write.
    Fault,
    /// There was no memory for the piece.
    Memory,
}

/// Where bytes are written to.
pub trait Sink {
    /// The bytes that were put, or None where the sink doesn't tell them.
    ghost held: { Self → Option (List ℕ) };

    /// How often a call failed.
    ghost faults: { Self → ℕ };

    /// Appends a piece. A refused one may have been put in part.
    fn put(&mut self, piece: &[u8]) -> Result<(), WriteFault>
        ensures bytes { PutsPiece (held self.old) (held self.new) result piece.now }
        ensures cause { HasCause WriteFault.Fault (faults self.old) (faults self.new) result };
}

/// Bytes in memory. A call of `put` whose number, from 1, is on the list of `fails` answers a fault.
#[derive(Drop)]
pub struct MemSink {
    bytes: Bytes,
    calls: Calls,
}

impl MemSink {
    /// A sink that holds nothing, at which no call was made.
    pub fn new(alloc: Global, fails: Vec<u64>) -> MemSink
        ensures told { ⟦<MemSink as Sink>⟧.held result ≡ Some [] }
        ensures fresh { ⟦<MemSink as Sink>⟧.faults result ≡ 0 }
        ensures calls { ⟦<MemSink as Counted>⟧.calls result ≡ 0 }
        ensures fails { ⟦<MemSink as Counted>⟧.fails result ≡ fails.items }
    {
        MemSink {
            bytes: Bytes::new(alloc),
            calls: Calls::new(fails),
        }
    }

    /// The bytes that were put.
    pub fn bytes(&self) -> &[u8]
        ensures { ⟦<MemSink as Sink>⟧.held self.now ≡ Some result.now }
    {
        self.bytes.as_slice()
    }
}

impl Counted for MemSink {
    ghost calls = { λ s. s.calls.made };

    ghost fails = { λ s. s.calls.fails };
}

impl Sink for MemSink {
    ghost held = { λ s. Some s.bytes };

    ghost faults = { λ s. s.calls.faults };

    fn put(&mut self, piece: &[u8]) -> Result<(), WriteFault>
        ensures bytes { PutsPiece (⟦<MemSink as Sink>⟧.held self.old) (⟦<MemSink as Sink>⟧.held self.new) result piece.now }
        ensures cause { HasCause WriteFault.Fault (⟦<MemSink as Sink>⟧.faults self.old) (⟦<MemSink as Sink>⟧.faults self.new) result }
        ensures no_fault { (IsErrOf result WriteFault.Fault → ⊥) → ⟦<MemSink as Sink>⟧.faults self.new ≡ ⟦<MemSink as Sink>⟧.faults self.old }
        ensures counted { ⟦<MemSink as Counted>⟧.calls self.new ≡ raised (⟦<MemSink as Counted>⟧.calls self.old) }
        ensures listed { FailsAsListed WriteFault.Fault (⟦<MemSink as Counted>⟧.fails self.old) (⟦<MemSink as Counted>⟧.calls self.new) result }
        ensures same_list { ⟦<MemSink as Counted>⟧.fails self.new ≡ ⟦<MemSink as Counted>⟧.fails self.old }
    {
        if self.calls.next_fails() {
            return Err(WriteFault::Fault);
        }
        self.bytes.extend(piece).map_err(|_| WriteFault::Memory)
    }
}
