// What a memo is told of the values that it keeps.
ghost use Rattle.std.specs.Prelude.{◌≡◌, ℕ, true, IfOk};

use std::alloc::{AllocError, Global};
use std::hash::Hash;
use tree_model::Frozen;

/// A kind of values that are kept under keys. A value is right for a key over the tree that `Of` names.
pub trait Memoised {
    type Of: Frozen;

    type Key: Eq + Hash + Drop;

    type Value: Drop;

    ghost use Rattle.tree_model.specs.Trees.{FileTree};

    /// Over this tree the value is right for the key.
    ghost right: { FileTree → Self.Key → Self.Value → Type 0 };

    ghost weigh: { Self.Value → ℕ };

    /// What a value counts against the limit of its memo.
    fn weight(value: &Self::Value) -> u64
        ensures { result ≡ weigh value.now };

    /// A copy of a key. A memo makes one of each key that a look sees first.
    fn copy_key(alloc: Global, key: &Self::Key) -> Result<Self::Key, AllocError>
        ensures { IfOk result (λ copy. copy ≡ key.now) };

    /// A copy of a value. A memo makes one at each look that finds it, so a large value is to be shared, as behind an `Arc`.
    fn copy(alloc: Global, value: &Self::Value) -> Result<Self::Value, AllocError>
        ensures { IfOk result (λ copy. copy ≡ value.now) };

    /// Equal keys are the same.
    ghost exact: { (a b : Self.Key) → Self.Key.eq a b ≡ true → a ≡ b };
}
