// Bytes that are read from the runtime's input.
ghost use Rattle.std.specs.Prelude.{◌≡◌, ◌<◌, length, None};
ghost use Rattle.std.specs.Io.{ReadsAtMost};

use crate::source::{ReadFault, Source};
use std::io::{self, ErrorKind, Input, Read};

/// The runtime's input, as standard input. It doesn't tell its bytes.
#[derive(Drop)]
pub struct StdSource<R: Input> {
    reader: R::Reader,
    faults: u64,
    last: Option<io::Error>,
}

impl<R: Input> StdSource<R> {
    /// The input from here on.
    pub fn new(rt: &R) -> StdSource<R>
        ensures fresh { ⟦<StdSource<R> as Source>⟧.faults result ≡ 0 }
    {
        StdSource {
            reader: rt.reader(),
            faults: 0,
            last: None,
        }
    }

    /// Why the host failed last.
    pub fn last_error(&self) -> Option<io::Error> {
        self.last
    }
}

impl<R: Input> Source for StdSource<R> {
    ghost left = { λ _. None };

    ghost faults = { λ s. s.faults };

    fn take(&mut self, room: &mut [u8]) -> Result<usize, ReadFault> {
        match read_once(&mut self.reader, room) {
            Ok(n) => Ok(n),
            Err(error) => {
                self.faults = self.faults.saturating_add(1);
                self.last = Some(error);
                Err(ReadFault::Fault)
            }
        }
    }
}

// One read, tried again where a signal interrupts it.
fn read_once<S: Read>(reader: &mut S, room: &mut [u8]) -> io::Result<usize>
    ensures { ReadsAtMost result room.new }
{
    for _ in 0..u64::MAX {
        match reader.read(room) {
            Err(e) if e.kind() == ErrorKind::Interrupted => {}
            done => return done,
        }
    }
    Err(io::Error::from(ErrorKind::Interrupted))
}
