// Bytes that are put into a buffer.
ghost use Rattle.std.specs.Prelude.{◌≡◌, [], Some};
ghost use Rattle.base_types.specs.Causes.{HasCause};
ghost use Rattle.io_edges.specs.Edges.{PutsPiece};

use base_types::Bytes;
use io_edges::{Sink, WriteFault};
use std::alloc::Global;

// A buffer, at which only memory may be wanting.
#[derive(Drop)]
pub(crate) struct BufferSink {
    bytes: Bytes,
}

impl BufferSink {
    pub(crate) fn new(alloc: Global) -> BufferSink
        ensures { ⟦<BufferSink as Sink>⟧.held result ≡ Some [] }
    {
        BufferSink {
            bytes: Bytes::new(alloc),
        }
    }

    // The bytes that were put.
    pub(crate) fn into_bytes(self) -> Bytes
        ensures { ⟦<BufferSink as Sink>⟧.held self ≡ Some result }
    {
        self.bytes
    }
}

impl Sink for BufferSink {
    ghost held = { λ s. Some s.bytes };

    ghost faults = { λ _. 0 };

    fn put(&mut self, piece: &[u8]) -> Result<(), WriteFault>
        ensures bytes { PutsPiece (⟦<BufferSink as Sink>⟧.held self.old) (⟦<BufferSink as Sink>⟧.held self.new) result piece.now }
        ensures cause { HasCause WriteFault.Fault (⟦<BufferSink as Sink>⟧.faults self.old) (⟦<BufferSink as Sink>⟧.faults self.new) result }
    {
        self.bytes.extend(piece).map_err(|_| WriteFault::Memory)
    }
}
