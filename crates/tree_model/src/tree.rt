// The trait of an object that shows a tree of files.
ghost use Rattle.std.specs.Prelude.{◌≡◌, ◌≤◌, ℕ, length, IfOk, IfSome, IsErrOf, Option, None, Some};
ghost use Rattle.base_types.specs.Causes.{HasCause, raised};
ghost use Rattle.tree_model.specs.declared.tree.TreeError.TheVariants.{Memory};

use crate::{CanonPath, Node, Reached};
use base_types::Bytes;
use std::alloc::{AllocError, AllocFailed};
use std::marker::Brand;

/// Why a call of `Tree` has no answer. `Fault`: the outside failed, and the count of faults rose in this call.
/// `Large`: the file has more than 16,777,216 bytes. `Memory`: no memory was found.
#[derive(Clone, Copy, Debug, PartialEq, Eq, Drop)]
pub enum TreeError {
    Fault,
    Large,
    Memory,
}

impl From<AllocError> for TreeError {
    ghost from_gives = { λ _ e. e ≡ Memory };

    fn from(_error: AllocError) -> TreeError {
        TreeError::Memory
    }
}

impl<X: Drop> From<AllocFailed<X>> for TreeError {
    ghost from_gives = { λ _ e. e ≡ Memory };

    fn from(_error: AllocFailed<X>) -> TreeError {
        TreeError::Memory
    }
}

/// A type without use of its values that names one tree, or nothing.
pub trait Frozen {
    ghost use Rattle.tree_model.specs.Trees.{FileTree};

    ghost named: { Option FileTree };
}

/// A `Frozen` that names nothing.
pub struct Unnamed;

impl Frozen for Unnamed {
    ghost named = { None };
}

// A caller over `Brand` picks the tree that it names.
impl Frozen for Brand {
    ghost named = { None };
}

/// An object that shows a tree of files. It may tell its tree, which no call changes: `told` is then Some.
pub trait Tree {
    type Of: Frozen;

    ghost use Rattle.tree_model.specs.Reached.{reached};
    ghost use Rattle.tree_model.specs.Trees.{FileTree, IsTree, node_at, body_at, IsNode, IsBody, IsTooLarge};

    /// The tree that the object tells, or None where it doesn't tell.
    ghost told: { Self → Option FileTree };

    /// The count of faults, which never falls.
    ghost faults: { Self → ℕ };

    /// The count of calls of `read`.
    ghost reads: { Self → ℕ };

    /// The node at a path, without a file's bytes, or None where there is none.
    fn node(&mut self, path: &CanonPath) -> Result<Option<Node>, TreeError>
        ensures same { told self.new ≡ told self.old }
        ensures answer { IfSome (told self.old) (λ tree. IfOk result (λ got. got ≡ node_at tree path.now)) }
        ensures form { IfOk result IsNode }
        ensures never_large { IsErrOf result TreeError.Large → ⊥ }
        ensures cause { HasCause TreeError.Fault (faults self.old) (faults self.new) result }
        ensures no_read { reads self.new ≡ reads self.old };

    /// The bytes of the file at a path, or None where no file is there.
    fn read(&mut self, path: &CanonPath) -> Result<Option<Bytes>, TreeError>
        ensures same { told self.new ≡ told self.old }
        ensures answer { IfSome (told self.old) (λ tree. IfOk result (λ got. got ≡ body_at tree path.now)) }
        ensures form { IfOk result IsBody }
        ensures large { IfSome (told self.old) (λ tree. IsErrOf result TreeError.Large → IsTooLarge tree path.now) }
        ensures cause { HasCause TreeError.Fault (faults self.old) (faults self.new) result }
        ensures one_read { reads self.new ≡ raised (reads self.old) };

    /// What is remembered of the walk of a text from the root; None where nothing is.
    fn recall(&self, text: &[u8]) -> Option<&Reached>
        ensures { IfSome (told self.now) (λ tree. IfSome result (λ it. it.now ≡ reached tree text.now)) };

    /// Remembers what the walk of a text from the root reached, if the object remembers walks and there is memory for it.
    fn remember(&mut self, text: Bytes, it: Reached)
        requires { IfSome (told self.old) (λ tree. it ≡ reached tree text) }
        ensures same { told self.new ≡ told self.old }
        ensures no_fault { faults self.new ≡ faults self.old }
        ensures no_read { reads self.new ≡ reads self.old };

    /// Where `Of` names a tree, the object tells that tree.
    ghost tells: { (object : Self) (tree : FileTree) → Self.Of.named ≡ Some tree → told object ≡ Some tree };

    /// What an object tells is a tree.
    ghost whole: { (object : Self) (tree : FileTree) → told object ≡ Some tree → IsTree tree };
}
