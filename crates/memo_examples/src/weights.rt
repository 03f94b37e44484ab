// Numbers kept under numbers, each of the weight 3,000,000: a memo has room for one.
ghost use Rattle.std.specs.Prelude.{◌≡◌, true, IfOk};
ghost use Rattle.std.specs.Cmp.{unsigned_Decides};

use closure_memo::Memoised;
use std::alloc::{AllocError, Global};
use tree_model::Unnamed;

pub struct Heavy;

impl Memoised for Heavy {
    type Of = Unnamed;

    type Key = u32;

    type Value = u32;

    // A key's value is the key.
    ghost right = { λ tree key value. value ≡ key };

    ghost weigh = { λ value. 3000000 };

    fn weight(_value: &u32) -> u64 {
        3_000_000
    }

    fn copy_key(_alloc: Global, key: &u32) -> Result<u32, AllocError> {
        Ok(*key)
    }

    fn copy(_alloc: Global, value: &u32) -> Result<u32, AllocError> {
        Ok(*value)
    }

    ghost exact = { λ a b same. (unsigned_Decides a b).0 same };
}
