// The list of numbers of the next run.
ghost use Rattle.std.specs.Prelude.{◌≡◌, ℕ, ◌+◌, ◌<◌, ◌≤◌, ◌++◌, ◌∷◌, [], map, IfOk, OnOk, IsTrue, IsFalse};
ghost use Rattle.symbolic_expand.specs.parts.Enumeration.{next_numbers};
ghost use Rattle.symbolic_expand.specs.parts.Search.{KeepsNext};

use std::alloc::{AllocError, Global};
use std::collections::VecDeque;

/// The list of numbers behind the one that took these: the last that can rise rises, and what follows it is cut off. None
/// where none can.
pub(crate) fn next_list(
    alloc: Global,
    mut taken: Vec<(usize, usize)>,
) -> Result<Option<VecDeque<usize>>, AllocError>
    ensures { IfOk result (λ o. KeepsNext o (next_numbers taken.items)) }
{
    while let Some(last) = taken.pop() {
        if can_rise(last.0, last.1) {
            let list = raised(alloc, taken.as_slice(), last.0 + 1)?;
            return Ok(Some(list));
        }
    }
    Ok(None)
}

fn can_rise(k: usize, count: usize) -> bool
    ensures rises { IsTrue result → k + 1 < count }
    ensures stays { IsFalse result → count ≤ k + 1 }
{
    count > k && count - k > 1
}

// These numbers, and then one more.
fn raised(
    alloc: Global,
    taken: &[(usize, usize)],
    last: usize,
) -> Result<VecDeque<usize>, AllocError>
    ensures { IfOk result (λ q. q.items ≡ map (λ (n : ℕ × ℕ). n.0) taken.now ++ last ∷ []) }
{
    let mut list = VecDeque::new(alloc);
    for n in taken {
        list.push_back(n.0)?;
    }
    list.push_back(last)?;
    Ok(list)
}
