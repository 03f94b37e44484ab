// The bodies of files that were read before.
ghost use Rattle.std.specs.Prelude.{◌≤◌, length, IfSome};
ghost use Rattle.base_types.specs.Limits.{body_limit};

use base_types::Bytes;
use base_types::limits::BODY_LIMIT;
use std::alloc::{AllocError, Global};
use std::collections::HashMap;
use tree_model::CanonPath;

// The most bytes that are remembered, so that a tree for each of 64 clients stays small.
const ROOM: usize = 2_097_152;

/// The bodies of files, by their paths, 2 MiB together at most: where one more has no room, all are forgotten. A job's analysis and
/// its request read the same files, and so do jobs that share headers.
#[derive(Drop)]
pub struct Bodies {
    alloc: Global,
    known: HashMap<CanonPath, Bytes>,
    room: usize,
}

impl Bodies {
    /// No bodies.
    pub fn new(alloc: Global) -> Bodies {
        Bodies {
            alloc,
            known: HashMap::new(alloc),
            room: ROOM,
        }
    }

    /// A copy of the body that is remembered of a path, where there is one and memory for the copy.
    pub fn recall(&self, path: &CanonPath) -> Option<Bytes>
        ensures { IfSome result (λ body. length body ≤ body_limit) }
    {
        let body = self.known.get(path)?;
        if body.len() > BODY_LIMIT {
            return None;
        }
        Bytes::copy_of(self.alloc, body.as_slice()).ok()
    }

    /// Remembers the body of a path, where it has room; without memory for that, nothing more is remembered.
    pub fn remember(&mut self, path: &CanonPath, body: &[u8]) {
        if body.len() > ROOM {
            return;
        }
        if body.len() > self.room {
            self.known = HashMap::new(self.alloc);
            self.room = ROOM;
        }
        if self.add(path, body).is_ok() {
            self.room = self.room.saturating_sub(body.len());
        }
    }

    fn add(&mut self, path: &CanonPath, body: &[u8]) -> Result<(), AllocError> {
        let path = path.copy(self.alloc)?;
        let body = Bytes::copy_of(self.alloc, body)?;
        self.known.insert(path, body)?;
        Ok(())
    }
}
