// The bytes of a file that was read.
use base_types::Bytes;
use std::alloc::{AllocError, Global};
use std::marker::Model;
use std::sync::Arc;

/// The bytes of a file that was read, which a sheet and what is sent share.
#[derive(Drop)]
pub struct FileBody {
    bytes: Arc<Bytes, Global>,
}

impl Model for FileBody {
    ghost use Rattle.std.specs.Arc.{arc_value};
    ghost use Rattle.tree_model.specs.Paths.{Text};

    ghost Value = { Text };

    ghost view = { λ b. arc_value b.bytes };
}

impl FileBody {
    ghost use Rattle.std.specs.Prelude.{◌≡◌, IfOk};

    // These bytes.
    pub(crate) fn of(alloc: Global, bytes: Bytes) -> Result<FileBody, AllocError>
        ensures { IfOk result (λ body. body ≡ bytes) }
    {
        Ok(FileBody {
            bytes: Arc::new(alloc, bytes)?,
        })
    }

    // The same, shared once more. It takes no memory, and is refused only where they are shared 2^63 times.
    pub(crate) fn share(&self) -> Result<FileBody, AllocError>
        ensures { IfOk result (λ body. body ≡ self.now) }
    {
        Ok(FileBody {
            bytes: Arc::try_clone(&self.bytes)?,
        })
    }

    /// These bytes, borrowed.
    pub fn as_slice(&self) -> &[u8]
        ensures { result.now ≡ self.now }
    {
        self.bytes.as_slice()
    }

    /// The bytes themselves, with no copy where nothing shares them any more. The only error is want of memory.
    pub fn into_bytes(self, alloc: Global) -> Result<Bytes, AllocError>
        ensures { IfOk result (λ bytes. bytes ≡ self) }
    {
        match Arc::try_unwrap(self.bytes) {
            Ok(bytes) => Ok(bytes),
            Err(shared) => Bytes::copy_of(alloc, shared.as_slice()),
        }
    }
}
