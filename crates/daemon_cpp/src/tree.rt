// Files of a tree.
ghost use Rattle.std.specs.Prelude.{◌≡◌, ◌≢◌, ◌≤◌, length, IfOk, IfErr, IfSome};
ghost use Rattle.std.specs.Option.{ForSome};
ghost use Rattle.base_types.specs.Causes.{HasCause};
ghost use Rattle.base_types.specs.Limits.{body_limit};
ghost use Rattle.tree_model.specs.Bodies.{body_at_path, body_within};
ghost use Rattle.search_path.specs.Search.{NeedsFrom};
ghost use Rattle.search_path.specs.SetupOf as setups;
ghost use Rattle.daemon_cpp.specs.Prep.{world_of};
ghost use Rattle.daemon_cpp.specs.parts.Showing.{TellsNothing};

use crate::stop::Stop;
use base_types::Bytes;
use search_path::{Ask, Setup, Visit, search};
use std::alloc::{AllocError, Global};
use tree_model::{CanonPath, Located, Tree, TreeError};

/// Why a tree gave no answer, where that is not that a body is too large.
pub fn cause_of(error: TreeError) -> Stop
    requires { error ≢ TreeError.Large }
    ensures fault { result ≡ Stop.Fault → error ≡ TreeError.Fault }
    ensures silent { TellsNothing result }
{
    match error {
        TreeError::Fault => Stop::Fault,
        TreeError::Memory => Stop::Memory,
        TreeError::Large => unreachable!(),
    }
}

/// The file that is asked for; None exactly where no candidate locates one.
pub fn find_file<T: Tree>(
    alloc: Global,
    tree: &mut T,
    setup: &Setup,
    ask: Ask,
) -> Result<Option<(Visit, Located)>, Stop>
    requires { NeedsFrom ask.form ask.from }
    ensures same { T.told tree.new ≡ T.told tree.old }
    ensures found { ForSome (T.told tree.old) (λ told. IfOk result (λ found. (world_of told setup.now).find ask ≡ found)) }
    ensures silent { IfErr result TellsNothing }
    ensures cause { HasCause Stop.Fault (T.faults tree.old) (T.faults tree.new) result }
{
    match search(alloc, tree, setup, &ask) {
        Ok(found) => Ok(found),
        Err(error) => Err(cause_of(error)),
    }
}

/// A text below the working directory, or itself where it begins with `/`.
pub fn absolute_text(alloc: Global, cwd: &[u8], text: &[u8]) -> Result<Vec<u8>, AllocError>
    ensures { IfOk result (λ whole. whole.items ≡ setups.absolute cwd.now text.now) }
{
    if text.first() == Some(&b'/') {
        return text.to_vec(alloc);
    }
    let mut whole = cwd.to_vec(alloc)?;
    whole.push(b'/')?;
    whole.extend_from_slice(text)?;
    Ok(whole)
}

/// The bytes of a file; None where they are more than 16,777,216. Where no file is, there are none.
pub fn read_body<T: Tree>(
    alloc: Global,
    tree: &mut T,
    path: &CanonPath,
) -> Result<Option<Bytes>, Stop>
    ensures same { T.told tree.new ≡ T.told tree.old }
    ensures body { ForSome (T.told tree.old) (λ told. IfOk result (λ body. body ≡ body_within (body_at_path told path.now))) }
    ensures within { IfOk result (λ body. IfSome body (λ bytes. length bytes ≤ body_limit)) }
    ensures silent { IfErr result TellsNothing }
    ensures cause { HasCause Stop.Fault (T.faults tree.old) (T.faults tree.new) result }
{
    match tree_model::read_body(alloc, tree, path) {
        Ok(body) => Ok(body),
        Err(error) => Err(cause_of(error)),
    }
}
