// The bytes of files.
ghost use Rattle.std.specs.Prelude.{◌≡◌, ◌≤◌, length, IfOk, IfSome, IsErrOf};
ghost use Rattle.std.specs.Option.{ForSome};
ghost use Rattle.base_types.specs.Causes.{HasCause, raised};
ghost use Rattle.base_types.specs.Limits.{body_limit};
ghost use Rattle.tree_model.specs.Bodies.{body_at_path, body_within};

use crate::{CanonPath, Tree, TreeError};
use base_types::Bytes;
use std::alloc::Global;

/// The bytes of a file; None where they are more than 16,777,216. Where no file is, there are none.
pub fn read_body<T: Tree>(
    alloc: Global,
    tree: &mut T,
    path: &CanonPath,
) -> Result<Option<Bytes>, TreeError>
    ensures same { T.told tree.new ≡ T.told tree.old }
    ensures body { ForSome (T.told tree.old) (λ told. IfOk result (λ body. body ≡ body_within (body_at_path told path.now))) }
    ensures within { IfOk result (λ body. IfSome body (λ bytes. length bytes ≤ body_limit)) }
    ensures never_large { IsErrOf result TreeError.Large → ⊥ }
    ensures cause { HasCause TreeError.Fault (T.faults tree.old) (T.faults tree.new) result }
    ensures one_read { T.reads tree.new ≡ raised (T.reads tree.old) }
{
    match tree.read(path) {
        Ok(Some(body)) => Ok(Some(body)),
        Ok(None) => Ok(Some(Bytes::new(alloc))),
        Err(TreeError::Large) => Ok(None),
        Err(error) => Err(error),
    }
}
