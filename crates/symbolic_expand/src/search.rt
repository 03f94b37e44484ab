// All runs, one after the other.
ghost use Rattle.std.specs.Prelude.{◌≡◌, IfOk, IfErr};
ghost use Rattle.std.specs.Option.{option_copied};
ghost use Rattle.macro_expand.specs.Choice.{IsDistinct};
ghost use Rattle.symbolic_expand.specs.Defined.{sets_of};
ghost use Rattle.symbolic_expand.specs.Found.{NamesExactly, NothingRefuses, RefusalHolds, name_unless_changed};
ghost use Rattle.symbolic_expand.specs.parts.Search.{FoundAll};

use crate::found::{Found, headers_in_order, put_header, texts_in_order};
use crate::next::next_list;
use crate::outcome::{Names, SymError};
use crate::run::one_run;
use crate::sets::DefSets;
use crate::texts::TextSet;
use pp_tokens::Token;
use std::alloc::Global;
use std::collections::VecDeque;

// What all runs found: headers, and the names met.
#[derive(Drop)]
struct FoundMet {
    found: Found,
    met: TextSet,
}

/// What computed tokens may name under these sets (ISO C 6.10.2 paragraph 4). In a run each identifier that has definitions, and stands
/// outside its own hide set, is left as it is or replaced by one of them, as a list of choices says; a list is complete where
/// the run uses it up exactly. A run that ends in an error of C names no header. `file` is the presumed name of the file in the form
/// that is shown, which `__FILE__` stands for where no `#line` is in the file (`has_line`).
///
/// `Budget` comes only where there are more complete lists than `budget`, `Long` and `Presumed` only where one of them is such a run; where
/// several hold, the first that is met in the order of the lists. Each complete list costs one expansion of all the tokens, of at most
/// 100,000 units of work, and runs share nothing: a name with `k` definitions multiplies the cost by `k + 1` each time that it is met. There
/// are never more than `budget` expansions. Memory is taken for one run, the headers and the names met.
pub fn names(
    alloc: Global,
    sets: &DefSets,
    tokens: &[Token],
    file: &[u8],
    has_line: bool,
    budget: u32,
) -> Result<Names, SymError>
    ensures ok { IfOk result (λ n. NamesExactly (sets_of sets.now) (name_unless_changed file.now has_line) tokens.now n.headers n.support) }
    ensures only { IfOk result (λ n. NothingRefuses budget (sets_of sets.now) (name_unless_changed file.now has_line) tokens.now) }
    ensures err { IfErr result (λ e. RefusalHolds e budget (sets_of sets.now) (name_unless_changed file.now has_line) tokens.now) }
    ensures distinct { IsDistinct (sets_of sets.now) }
{
    sets.see_distinct();
    let all = find_all(alloc, sets, tokens, known_name(file, has_line), budget)?;
    let support = texts_in_order(alloc, all.met)?;
    let headers = headers_in_order(alloc, all.found)?;
    Ok(Names { headers, support })
}

fn known_name<'f>(file: &'f [u8], has_line: bool) -> Option<&'f [u8]>
    ensures { option_copied result ≡ name_unless_changed file.now has_line }
{
    if has_line { None } else { Some(file) }
}

// What all complete runs name and meet; `file` is the presumed name, where it is known.
fn find_all(
    alloc: Global,
    sets: &DefSets,
    tokens: &[Token],
    file: Option<&[u8]>,
    budget: u32,
) -> Result<FoundMet, SymError>
    ensures ok { IfOk result (λ f. FoundAll budget (sets_of sets.now) (option_copied file.entry) tokens.now f.found.quoted f.found.angled f.met) }
    ensures err { IfErr result (λ e. RefusalHolds e budget (sets_of sets.now) (option_copied file.entry) tokens.now) }
{
    let mut found = Found {
        quoted: TextSet::new(alloc),
        angled: TextSet::new(alloc),
    };
    let mut met = TextSet::new(alloc);
    let mut ahead = VecDeque::new(alloc);
    let mut count = 0u32;
    while count < budget {
        let end = one_run(alloc, sets, tokens, file, ahead, met)?;
        count += 1;
        put_header(&mut found, end.header)?;
        met = end.met;
        match next_list(alloc, end.taken)? {
            None => return Ok(FoundMet { found, met }),
            Some(list) => ahead = list,
        }
    }
    Err(SymError::Budget)
}
