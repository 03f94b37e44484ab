// The keys of sheets.
ghost use Rattle.std.specs.Prelude.{◌≡◌, IfOk};

use search_path::{Setup, Visit};
use std::alloc::{AllocError, Global};

/// What a sheet depends on beside the tree: what the job's words say of searches, and the visit.
#[derive(PartialEq, Eq, Hash, Drop)]
pub struct SheetKey {
    pub setup: Setup,
    pub visit: Visit,
}

impl SheetKey {
    /// A copy, which shares the setup.
    pub fn copy(&self, alloc: Global) -> Result<SheetKey, AllocError>
        ensures { IfOk result (λ copy. copy ≡ self.now) }
    {
        Ok(SheetKey {
            setup: self.setup.copy()?,
            visit: self.visit.copy(alloc)?,
        })
    }
}
