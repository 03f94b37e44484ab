// Bytes that are written to the runtime's output.
ghost use Rattle.std.specs.Prelude.{◌≡◌, None, IsErrOf};
ghost use Rattle.base_types.specs.Causes.{HasCause};
ghost use Rattle.io_edges.specs.Edges.{PutsPiece};

use crate::sink::{Sink, WriteFault};
use std::io::{self, Print, Write};

/// The runtime's output, as standard output. It doesn't tell its bytes, and holds none back.
#[derive(Drop)]
pub struct StdSink<R: Print> {
    rt: R,
    faults: u64,
    last: Option<io::Error>,
}

impl<R: Print> StdSink<R> {
    /// The output from here on.
    pub fn new(rt: R) -> StdSink<R>
        ensures fresh { ⟦<StdSink<R> as Sink>⟧.faults result ≡ 0 }
    {
        StdSink {
            rt,
            faults: 0,
            last: None,
        }
    }

    /// Why the host failed last.
    pub fn last_error(&self) -> Option<io::Error> {
        self.last
    }
}

impl<R: Print> Sink for StdSink<R> {
    ghost held = { λ _. None };

    ghost faults = { λ s. s.faults };

    fn put(&mut self, piece: &[u8]) -> Result<(), WriteFault>
        ensures bytes { PutsPiece (⟦<StdSink<R> as Sink>⟧.held self.old) (⟦<StdSink<R> as Sink>⟧.held self.new) result piece.now }
        ensures cause { HasCause WriteFault.Fault (⟦<StdSink<R> as Sink>⟧.faults self.old) (⟦<StdSink<R> as Sink>⟧.faults self.new) result }
        ensures no_memory { IsErrOf result WriteFault.Memory → ⊥ }
    {
        match write_through(&self.rt, piece) {
            Ok(()) => Ok(()),
            Err(error) => {
                self.faults = self.faults.saturating_add(1);
                self.last = Some(error);
                Err(WriteFault::Fault)
            }
        }
    }
}

// Writes the whole piece, so that none of it stays in a buffer.
fn write_through<R: Print>(rt: &R, piece: &[u8]) -> io::Result<()> {
    let mut writer = io::writer(rt);
    writer.write_all(piece)?;
    writer.flush()
}
