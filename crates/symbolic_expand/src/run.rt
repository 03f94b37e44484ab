// One run, by a list of numbers.
ghost use Rattle.std.specs.Prelude.{◌≡◌, IfOk, IfErr};
ghost use Rattle.std.specs.Option.{option_copied};
ghost use Rattle.symbolic_expand.specs.Defined.{sets_of};
ghost use Rattle.symbolic_expand.specs.parts.Enumeration.{run_at};
ghost use Rattle.symbolic_expand.specs.parts.Search.{computed, EndsWith, RefusesRun, refusal_of};

use crate::choices::Choices;
use crate::outcome::SymError;
use crate::sets::DefSets;
use crate::texts::TextSet;
use base_types::limits::CHOICE_WORK_LIMIT;
use directive_scan::{HeaderName, header_of};
use macro_expand::{Mode, RunError, Work, expand_for};
use pp_tokens::Token;
use std::alloc::Global;
use std::collections::VecDeque;

/// How a run ended: the header that it names, the numbers that it took, each with how many there were, and the names that were met
/// so far.
#[derive(Drop)]
pub(crate) struct RunEnd {
    pub header: Option<HeaderName>,
    pub taken: Vec<(usize, usize)>,
    pub met: TextSet,
}

/// The run of a list of numbers. `met` has the names met in the runs before.
pub(crate) fn one_run(
    alloc: Global,
    sets: &DefSets,
    tokens: &[Token],
    file: Option<&[u8]>,
    ahead: VecDeque<usize>,
    met: TextSet,
) -> Result<RunEnd, SymError>
    ensures ok { IfOk result (λ e. EndsWith (run_at (sets_of sets.now) (option_copied file.entry) (computed tokens.now) ahead.items) e.header e.taken.items met e.met) }
    ensures err { IfErr result (λ e. RefusesRun e (run_at (sets_of sets.now) (option_copied file.entry) (computed tokens.now) ahead.items)) }
{
    let mut choices = Choices::new(alloc, ahead, file, met);
    let mut work = Work {
        left: CHOICE_WORK_LIMIT,
    };
    match expand_for(alloc, sets, &mut choices, Mode::Text, tokens, &mut work) {
        Ok(list) => {
            let header = header_of(alloc, list.as_slice())?;
            Ok(choices.end(header))
        }
        Err(e) => match refusal(e) {
            None => Ok(choices.end(None)),
            Some(why) => Err(why),
        },
    }
}

// What an error of expansion says of a run: nothing, where the run only names no header.
fn refusal(e: RunError) -> Option<SymError>
    ensures { result ≡ refusal_of e }
{
    match e {
        RunError::Count { name: _, line: _ } => None,
        RunError::Unclosed { name: _, line: _ } => None,
        RunError::Paste {
            left: _,
            right: _,
            line: _,
        } => None,
        RunError::Deep { line: _ } => None,
        RunError::Work => Some(SymError::Long),
        RunError::Presumed => Some(SymError::Presumed),
        RunError::Memory => Some(SymError::Memory),
    }
}
