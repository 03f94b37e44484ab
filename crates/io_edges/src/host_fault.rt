// What the host failed at, for the lines that a program writes to standard error.
use base_types::Bytes;
use std::alloc::Global;
use std::fmt::{self, Display, Formatter};
use std::io;

/// A path, or another name of what the host failed at, and why.
#[derive(Drop)]
pub struct HostFault {
    place: Bytes,
    error: io::Error,
}

impl HostFault {
    /// Why the host failed at a place. The place has no bytes where there was no memory for them.
    pub fn new(place: Bytes, error: io::Error) -> HostFault {
        HostFault { place, error }
    }

    /// Why the host failed at a place, of which a copy is kept where there is memory for it.
    pub fn at(alloc: Global, place: &[u8], error: io::Error) -> HostFault {
        match Bytes::copy_of(alloc, place) {
            Ok(place) => HostFault { place, error },
            Err(_) => HostFault {
                place: Bytes::new(alloc),
                error,
            },
        }
    }
}

// A byte that isn't printable ASCII is escaped, so that a terminal takes no orders from a name.
impl Display for HostFault {
    fn fmt<W: fmt::Write>(&self, f: &mut Formatter<W>) -> fmt::Result {
        let place = self.place.as_slice().escape_ascii();
        let error = self.error;
        write!(f, "{place}: {error}")
    }
}
