// The memo of sheets.
ghost use Rattle.sheet_build.specs.Keys.{IsRightFor, exact_keys};
ghost use Rattle.sheet_build.specs.Weights.{sheet_weight};

use crate::{Sheet, SheetKey};
use closure_memo::Memoised;
use std::alloc::{AllocError, Global};
use std::marker::PhantomData;
use tree_model::Frozen;

/// The memo of sheets over the tree that F names. Its values are shared: a look that finds a sheet copies none.
pub struct SheetMemo<F: Frozen> {
    of: PhantomData<F>,
}

impl<F: Frozen> Memoised for SheetMemo<F> {
    type Of = F;

    type Key = SheetKey;

    type Value = Sheet;

    ghost right = { IsRightFor };

    ghost weigh = { sheet_weight };

    fn weight(value: &Sheet) -> u64 {
        value.weight()
    }

    fn copy_key(alloc: Global, key: &SheetKey) -> Result<SheetKey, AllocError> {
        key.copy(alloc)
    }

    fn copy(_alloc: Global, value: &Sheet) -> Result<Sheet, AllocError> {
        value.copy()
    }

    ghost exact = { exact_keys };
}
