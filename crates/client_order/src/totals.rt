// What the memo of sheets did for a run.
ghost use Rattle.std.specs.Prelude.{◌≡◌, ◌+◌, ◌<◌, ◌^◌, [], ◌∷◌, cond};
ghost use Rattle.closure_memo.specs.History.{is_look, is_hit, is_new, is_already, is_full};
ghost use Rattle.client_order.specs.Ran.{IsLegalMemo, counted};
ghost use Rattle.client_order.specs.parts.World.{seen_memo};
ghost use Rattle.client_order.specs.parts.Merged.{totals_of};

use closure_memo::{MemoCall, MemoState, What};
use sheet_build::SheetMemo;
use tree_model::Frozen;

/// How often clients looked into the memo and found a sheet there, and what came of publications.
#[derive(Clone, Copy, Debug, PartialEq, Eq, Drop)]
pub struct Totals {
    pub looks: u64,
    pub hits: u64,
    pub kept: u64,
    pub already: u64,
    pub full: u64,
}

/// What the history of a memo counts.
pub fn count<F: Frozen>(memo: &MemoState<SheetMemo<F>>) -> Totals
    ensures totals { result ≡ counted (seen_memo memo.now ∷ []) }
    ensures legal { IsLegalMemo (seen_memo memo.now) }
{
    let _keys = memo.keys();
    count_steps(memo.steps())
}

fn count_steps(steps: &[MemoCall]) -> Totals
    ensures { result ≡ totals_of steps.now }
{
    let mut looks: u64 = 0;
    let mut hits: u64 = 0;
    let mut kept: u64 = 0;
    let mut already: u64 = 0;
    let mut full: u64 = 0;
    for step in steps {
        match step.what {
            What::Hit => {
                looks += 1;
                hits += 1;
            }
            What::Miss => looks += 1,
            What::New => kept += 1,
            What::Already => already += 1,
            What::Full => full += 1,
        }
    }
    Totals {
        looks,
        hits,
        kept,
        already,
        full,
    }
}
