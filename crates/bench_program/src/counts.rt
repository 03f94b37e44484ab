// Tokens of text, what they became, and the work that it took.
ghost use Rattle.std.specs.Prelude.{◌≡◌, length, map, IfOk, IfErr};
ghost use Rattle.pp_tokens.specs.Tokens.{rest_of};
ghost use Rattle.macro_defs.specs.Table.{lookup};
ghost use Rattle.macro_expand.specs.declared.outcome.Mode.TheVariants.{Text};
ghost use Rattle.macro_expand.specs.Replacement.{unmarked};
ghost use Rattle.macro_expand.specs.Expansion.{expanded_by};
ghost use Rattle.macro_expand.specs.Seen.{ReportsResult, place_of};
ghost use Rattle.macro_expand.specs.Stream.{given};
ghost use Rattle.bench_program.specs.Counting.{Counted};

use crate::unit::{UNITS, Unit};
use macro_expand::{ExpandError, Work};
use pp_tokens::Tokens;
use std::alloc::Global;

/// How many tokens a text has, how many they became, and the units of work that it took.
#[derive(Clone, Copy, Drop)]
pub struct Counts {
    pub tokens: u128,
    pub expanded: u128,
    pub work: u128,
}

impl Counts {
    pub fn none() -> Counts {
        Counts {
            tokens: 0,
            expanded: 0,
            work: 0,
        }
    }

    pub fn and(self, more: Counts) -> Counts {
        Counts {
            tokens: self.tokens.saturating_add(more.tokens),
            expanded: self.expanded.saturating_add(more.expanded),
            work: self.work.saturating_add(more.work),
        }
    }
}

/// The counts of a run, or its first error.
pub fn counts_of(alloc: Global, unit: &Unit, run: Tokens<'_>) -> Result<Counts, ExpandError>
    ensures ok { IfOk result (λ c. Counted 20000000 (rest_of run.entry)
        (given (expanded_by (lookup unit.now.table) (place_of unit.now.here) Text 0 20000000 (map unmarked (rest_of run.entry)))) c) }
    ensures err { IfErr result (λ e. ReportsResult e
        (expanded_by (lookup unit.now.table) (place_of unit.now.here) Text 0 20000000 (map unmarked (rest_of run.entry)))) }
{
    let mut stream = unit.expansion(alloc, run);
    let mut work = Work { left: UNITS };
    let mut expanded = 0u128;
    while let Some(_) = stream.next(&mut work)? {
        expanded += 1;
    }
    Ok(Counts {
        tokens: length_of(run),
        expanded,
        work: (UNITS - work.left) as u128,
    })
}

// How many tokens are still to come.
fn length_of(run: Tokens<'_>) -> u128
    ensures { result ≡ length (rest_of run.entry) }
{
    let mut length = 0u128;
    for _ in run {
        length += 1;
    }
    length
}
