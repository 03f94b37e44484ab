// The operand of `defined` in a condition (ISO C 6.10.1).
ghost use Rattle.std.specs.Prelude.{◌≡◌, ℕ, ◌+◌, ◌≤◌, ◌++◌, ◌∷◌, [], List, map, length, take, drop, true, codes, IfOk, IfErr, IfSome, OnOk};
ghost use Rattle.macro_expand.specs.declared.marked.Role.TheVariants.{Defined};
ghost use Rattle.pp_tokens.specs.declared.token.Token.{Token};
ghost use Rattle.pp_tokens.specs.Marks.{is_identifier, is_mark, is_close, is_word};
ghost use Rattle.pp_tokens.specs.Tokens.{token_seen};
ghost use Rattle.macro_expand.specs.Stream.{IsOperand};
ghost use Rattle.macro_defs.specs.Runs.{run_tokens};
ghost use Rattle.macro_expand.specs.parts.Reading.{holds_at, begins_with_name_in_parentheses};
ghost use Rattle.macro_expand.specs.Expansion as spec;
ghost use Rattle.macro_expand.specs.Expansion.{head_role, operand_of_defined};
ghost use Rattle.macro_expand.specs.Answered.{expanded_for};
ghost use Rattle.macro_expand.specs.Seen.{marked_of, StepKeepsResult, Stops};
ghost use Rattle.macro_expand.specs.parts.Stamps.{Stamps, Stamped, AllStamped};

use crate::answers::Answers;
use crate::expansion::put;
use crate::marked::Marked;
use crate::outcome::{Mode, RunError, Work};
use crate::pending::Pending;
use macro_defs::Run;
use pp_tokens::TokenRef;

// Takes a `defined` and its operand from the front of a run, and answers the name; where they don't stand there, the run isn't told.
pub(crate) fn defined_name<'a>(run: &mut Run<'a>) -> Option<TokenRef<'a>>
    ensures { IfSome result (λ name. (word : Token) × ((operand : List Token) × (((is_word (codes "defined") word ≡ true) × IsOperand (token_seen name) operand)
        × (run_tokens run.old ≡ word ∷ operand ++ run_tokens run.new)))) }
{
    let word = run.next()?;
    if !is_defined(&word) {
        return None;
    }
    operand_name(run)
}

fn is_defined(token: &TokenRef) -> bool
    ensures { result ≡ is_word (codes "defined") (token_seen token.now) }
{
    token.is_identifier() && token.text == b"defined".as_slice()
}

// The same for the operand alone.
fn operand_name<'a>(run: &mut Run<'a>) -> Option<TokenRef<'a>>
    ensures { IfSome result (λ name. (operand : List Token) × (IsOperand (token_seen name) operand × (run_tokens run.old ≡ operand ++ run_tokens run.new))) }
{
    let first = run.next()?;
    if first.is_identifier() {
        return Some(first);
    }
    if !first.is_mark(b"(") {
        return None;
    }
    name_before_close(run)
}

// The same for a name and the `)` behind it.
fn name_before_close<'a>(run: &mut Run<'a>) -> Option<TokenRef<'a>>
    ensures { IfSome result (λ name. (is_identifier (token_seen name) ≡ true) × ((close : Token) × ((is_close close ≡ true)
        × (run_tokens run.old ≡ token_seen name ∷ close ∷ run_tokens run.new)))) }
{
    let name = run.next()?;
    let close = run.next()?;
    if name.is_identifier() && close.is_mark(b")") {
        Some(name)
    } else {
        None
    }
}

// Whether an operand of `defined` stands first.
pub(crate) fn has_operand(rest: &Pending) -> bool
    ensures { result ≡ spec.has_operand (map marked_of rest.now) }
{
    operand_length(rest) > 0
}

// Of how many tokens the operand of `defined` is that stands first: a name, a name in parentheses, or none.
fn operand_length(rest: &Pending) -> usize
    ensures { result ≡ length (operand_of_defined (map marked_of rest.now)).0 }
{
    if is_name_at(rest, 0) {
        return 1;
    }
    if is_name_in_parentheses(rest) {
        return 3;
    }
    0
}

// Whether a name in parentheses stands first.
fn is_name_in_parentheses(rest: &Pending) -> bool
    ensures { result ≡ begins_with_name_in_parentheses (map marked_of rest.now) }
{
    is_mark_at(rest, 0, b"(".as_slice())
        && is_name_at(rest, 1)
        && is_mark_at(rest, 2, b")".as_slice())
}

// Whether the pending token at a place is an identifier.
fn is_name_at(rest: &Pending, place: usize) -> bool
    ensures { result ≡ holds_at is_identifier place (map marked_of rest.now) }
{
    match rest.get(place) {
        None => false,
        Some(t) => t.is_identifier(),
    }
}

// Whether the pending token at a place is the punctuator with this spelling.
fn is_mark_at(rest: &Pending, place: usize, spelling: &[u8]) -> bool
    ensures { result ≡ holds_at (is_mark spelling.now) place (map marked_of rest.now) }
{
    match rest.get(place) {
        None => false,
        Some(t) => t.is_mark(spelling),
    }
}

// One step: `defined` in a condition, put out with its operand (6.10.1).
pub(crate) fn expand_defined<'s, S, A: Answers<S>>(
    source: &S,
    answers: &mut A,
    mode: Mode,
    depth: u32,
    t: Marked<'s>,
    out: &mut Vec<Marked<'s>>,
    pending: &mut Pending<'s>,
    work: &mut Work,
) -> Result<(), RunError>
    requires role { head_role mode (marked_of t) (map marked_of pending.old) ≡ Defined }
    ensures ok { OnOk result (StepKeepsResult (A.answerer source.now) mode depth answers.old work.old.left out.old.items t.entry pending.old
        answers.new work.new.left out.new.items pending.new) }
    ensures spends { work.new.left ≤ work.old.left }
    ensures shorter { OnOk result (work.new.left + length pending.new ≤ work.old.left + length pending.old) }
    ensures grows { OnOk result (length out.new.items + length pending.new + work.new.left ≤ length out.old.items + length pending.old + 1 + work.old.left) }
    ensures stamped { (sets : Stamps) (next : ℕ) → Stamped sets next t.entry → AllStamped sets next pending.old → AllStamped sets next out.old.items
        → OnOk result (AllStamped sets next pending.new × AllStamped sets next out.new.items) }
    ensures err { IfErr result (λ e. Stops e answers.new (expanded_for (A.answerer source.now) answers.old mode depth work.old.left
        (marked_of t.entry ∷ map marked_of pending.old))) }
{
    put(out, t)?;
    put_operand_of_defined(out, pending)
}

// Puts out what `defined` takes along.
fn put_operand_of_defined<'s>(
    out: &mut Vec<Marked<'s>>,
    pending: &mut Pending<'s>,
) -> Result<(), RunError>
    ensures ok { OnOk result ((map marked_of out.new.items ≡ map marked_of out.old.items ++ (operand_of_defined (map marked_of pending.old)).0)
        × (map marked_of pending.new ≡ (operand_of_defined (map marked_of pending.old)).1)) }
    ensures shorter { length pending.new ≤ length pending.old }
    ensures grows { OnOk result (length out.new.items + length pending.new ≤ length out.old.items + length pending.old) }
    ensures stamped { (sets : Stamps) (next : ℕ) → AllStamped sets next pending.old → AllStamped sets next out.old.items
        → OnOk result (AllStamped sets next pending.new × AllStamped sets next out.new.items) }
    ensures err { IfErr result (λ e. e ≡ RunError.Memory) }
{
    for _token in 0..operand_length(pending) {
        put_first(out, pending)?;
    }
    Ok(())
}

// Puts out the first pending token, where there is one.
fn put_first<'s>(out: &mut Vec<Marked<'s>>, pending: &mut Pending<'s>) -> Result<(), RunError>
    ensures ok { OnOk result ((out.new.items ≡ out.old.items ++ take 1 pending.old) × (pending.new ≡ drop 1 pending.old)) }
    ensures shorter { length pending.new ≤ length pending.old }
    ensures err { IfErr result (λ e. e ≡ RunError.Memory) }
{
    match pending.pop() {
        None => Ok(()),
        Some(t) => {
            put(out, t)?;
            Ok(())
        }
    }
}
