// The bytes of a source, read to its end or past the limit of a list.
ghost use Rattle.std.specs.Prelude.{◌≡◌, ◌<◌, length, IfOk, true, false};
ghost use Rattle.std.specs.Io.KnownBytes.{Consumes, IsAtEnd};
ghost use Rattle.base_types.specs.Causes.{HasCause};
ghost use Rattle.base_types.specs.Limits.{list_limit};

use base_types::Bytes;
use base_types::limits::LIST_LIMIT;
use io_edges::{ReadFault, Source};
use std::alloc::Global;

// How many bytes are taken at a time.
const ROOM: usize = 16_384;

/// Why a list wasn't read.
#[derive(Clone, Copy, Debug, PartialEq, Eq, Drop)]
pub enum ListStop {
    Fault,
    Memory,
}

/// What was read of a list, and whether that was all of it.
#[derive(Debug, Drop)]
pub struct ListBytes {
    pub bytes: Bytes,
    pub ended: bool,
}

/// Reads a list to its end, or until more than 16,777,216 bytes were read.
pub fn read_all<S: Source>(alloc: Global, source: &mut S) -> Result<ListBytes, ListStop>
    ensures taken { IfOk result (λ list. Consumes (S.left source.old) (S.left source.new) list.bytes) }
    ensures end { IfOk result (λ list. list.ended ≡ true → IsAtEnd (S.left source.new)) }
    ensures long { IfOk result (λ list. list.ended ≡ false → list_limit < length list.bytes) }
    ensures cause { HasCause ListStop.Fault (S.faults source.old) (S.faults source.new) result }
{
    let mut bytes = Bytes::new(alloc);
    let mut room = [0u8; ROOM];
    while bytes.len() <= LIST_LIMIT {
        let n = match source.take(&mut room) {
            Ok(n) => n,
            Err(ReadFault::Fault) => return Err(ListStop::Fault),
        };
        if n == 0 {
            return Ok(ListBytes { bytes, ended: true });
        }
        if let Err(_) = bytes.extend(&room[..n]) {
            return Err(ListStop::Memory);
        }
    }
    Ok(ListBytes {
        bytes,
        ended: false,
    })
}
