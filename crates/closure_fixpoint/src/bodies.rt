// The bytes of the files that an analysis read for its sheets, by the files' paths.
ghost use Rattle.std.specs.Prelude.{◌≡◌, ◌≤◌, length, Option, None, Some, IfSome};
ghost use Rattle.std.specs.Option.{ForSome};
ghost use Rattle.base_types.specs.Limits.{body_limit};
ghost use Rattle.tree_model.specs.Paths.{Path};
ghost use Rattle.tree_model.specs.Bodies.{body_at_path};
ghost use Rattle.tree_model.specs.Trees.{FileTree};
ghost use Rattle.closure_fixpoint.specs.parts.Bodies.{bodies_known, AreBodiesOf, TakesAt};

use sheet_build::FileBody;
use std::alloc::{AllocError, Global};
use std::collections::HashMap;
use tree_model::CanonPath;

/// The bytes of files, each by its path. To look for one takes constant time on average.
#[derive(Drop)]
pub struct Bodies {
    known: HashMap<CanonPath, FileBody>,
}

impl Bodies {
    // None.
    pub fn new(alloc: Global) -> Bodies
        ensures { (told : Option FileTree) → AreBodiesOf told (bodies_known result) }
    {
        Bodies {
            known: HashMap::new(alloc),
        }
    }

    // Adds the bytes of a file, if there is one.
    pub fn put(&mut self, file: Option<(CanonPath, FileBody)>) -> Result<(), AllocError>
        requires small { IfSome file (λ f. length f.1 ≤ body_limit) }
        ensures { (told : Option FileTree) → AreBodiesOf told (bodies_known self.old) → ForSome told (λ tree. IfSome file (λ f. f.1 ≡ body_at_path tree f.0)) → AreBodiesOf told (bodies_known self.new) }
    {
        if let Some((path, body)) = file {
            self.known.insert(path, body)?;
        }
        Ok(())
    }

    // The bytes of a file, if they are there. From then on they aren't.
    pub fn take(&mut self, path: &CanonPath) -> Option<FileBody>
        ensures value { result ≡ bodies_known self.old path.now }
        ensures takes { TakesAt path.now (bodies_known self.old) (bodies_known self.new) }
    {
        self.known.remove(path)
    }
}
