// `__FILE__` and `__LINE__` (ISO C 6.10.8.1).
ghost use Rattle.std.specs.Prelude.{◌≡◌, ◌⊎◌, ℕ, ◌+◌, ◌≤◌, ◌++◌, ◌∷◌, [], map, length, Some, None, IfOk, IfErr, OnOk};
ghost use Rattle.std.specs.Option.{option_map};
ghost use Rattle.macro_expand.specs.declared.marked.Role.TheVariants.{FileName, LineNumber};
ghost use Rattle.macro_expand.specs.Expansion.{head_role, replaced_token, in_quotes};
ghost use Rattle.macro_expand.specs.Answered.{expanded_for};
ghost use Rattle.macro_expand.specs.Seen.{marked_of, StepKeepsResult, Stops};
ghost use Rattle.macro_expand.specs.parts.Stamps.{Stamps, Stamped, AllStamped};

use crate::answers::Answers;
use crate::expansion::{charge, put};
use crate::marked::Marked;
use crate::outcome::{Mode, RunError, Work};
use crate::pending::Pending;
use base_types::Bytes;
use pp_tokens::{Kind, Token, TokenCow};
use std::alloc::{AllocError, Global};

// One step: `__FILE__`, replaced by the presumed name (6.10.8.1).
pub(crate) fn expand_file_name<'s, S, A: Answers<S>>(
    alloc: Global,
    source: &S,
    answers: &mut A,
    mode: Mode,
    depth: u32,
    t: Marked<'s>,
    out: &mut Vec<Marked<'s>>,
    pending: &mut Pending<'s>,
    work: &mut Work,
) -> Result<(), RunError>
    requires role { head_role mode (marked_of t) (map marked_of pending.old) ≡ FileName }
    ensures ok { OnOk result (StepKeepsResult (A.answerer source.now) mode depth answers.old work.old.left out.old.items t.entry pending.old
        answers.new work.new.left out.new.items pending.new) }
    ensures stamped { (sets : Stamps) (next : ℕ) → Stamped sets next t.entry → AllStamped sets next out.old.items → OnOk result (AllStamped sets next out.new.items) }
    ensures pending { pending.new ≡ pending.old }
    ensures spends { work.new.left ≤ work.old.left }
    ensures shorter { OnOk result (work.new.left + length pending.new ≤ work.old.left + length pending.old) }
    ensures grows { OnOk result (length out.new.items + length pending.new + work.new.left ≤ length out.old.items + length pending.old + 1 + work.old.left) }
    ensures err { IfErr result (λ e. Stops e answers.new (expanded_for (A.answerer source.now) answers.old mode depth work.old.left
        (marked_of t.entry ∷ map marked_of pending.old))) }
{
    let text = file_name_text(alloc, source, answers)?;
    put_in_place(alloc, out, work, t, Kind::Str, text)
}

// One step: `__LINE__`, replaced by the presumed line (6.10.8.1).
pub(crate) fn expand_line_number<'s, S, A: Answers<S>>(
    alloc: Global,
    source: &S,
    answers: &mut A,
    mode: Mode,
    depth: u32,
    t: Marked<'s>,
    out: &mut Vec<Marked<'s>>,
    pending: &mut Pending<'s>,
    work: &mut Work,
) -> Result<(), RunError>
    requires role { head_role mode (marked_of t) (map marked_of pending.old) ≡ LineNumber }
    ensures ok { OnOk result (StepKeepsResult (A.answerer source.now) mode depth answers.old work.old.left out.old.items t.entry pending.old
        answers.new work.new.left out.new.items pending.new) }
    ensures stamped { (sets : Stamps) (next : ℕ) → Stamped sets next t.entry → AllStamped sets next out.old.items → OnOk result (AllStamped sets next out.new.items) }
    ensures pending { pending.new ≡ pending.old }
    ensures spends { work.new.left ≤ work.old.left }
    ensures shorter { OnOk result (work.new.left + length pending.new ≤ work.old.left + length pending.old) }
    ensures grows { OnOk result (length out.new.items + length pending.new + work.new.left ≤ length out.old.items + length pending.old + 1 + work.old.left) }
    ensures err { IfErr result (λ e. Stops e answers.new (expanded_for (A.answerer source.now) answers.old mode depth work.old.left
        (marked_of t.entry ∷ map marked_of pending.old))) }
{
    let text = line_number_text(alloc, source, answers, t.token.line())?;
    put_in_place(alloc, out, work, t, Kind::Number, text)
}

// What `__FILE__` stands for: the presumed name between quotes.
fn file_name_text<S, A: Answers<S>>(
    alloc: Global,
    source: &S,
    answers: &mut A,
) -> Result<Bytes, RunError>
    ensures ok { IfOk result (λ text. option_map in_quotes ((A.answerer source.now).file answers.old).answer ≡ Some text) }
    ensures state { IfOk result (λ text. answers.new ≡ ((A.answerer source.now).file answers.old).state) }
    ensures err { IfErr result (λ e. (e ≡ RunError.Memory) ⊎ ((e ≡ RunError.Presumed)
        × ((((A.answerer source.now).file answers.old).answer ≡ None) × (answers.new ≡ ((A.answerer source.now).file answers.old).state)))) }
{
    match answers.file(alloc, source)? {
        Some(name) => Ok(quoted(alloc, &name)?),
        None => Err(RunError::Presumed),
    }
}

// What `__LINE__` on this line stands for: the presumed number.
fn line_number_text<S, A: Answers<S>>(
    alloc: Global,
    source: &S,
    answers: &mut A,
    line: u32,
) -> Result<Bytes, RunError>
    ensures ok { IfOk result (λ text. ((A.answerer source.now).line answers.old line).answer ≡ Some text) }
    ensures state { IfOk result (λ text. answers.new ≡ ((A.answerer source.now).line answers.old line).state) }
    ensures err { IfErr result (λ e. (e ≡ RunError.Memory) ⊎ ((e ≡ RunError.Presumed)
        × ((((A.answerer source.now).line answers.old line).answer ≡ None) × (answers.new ≡ ((A.answerer source.now).line answers.old line).state)))) }
{
    match answers.line(alloc, source, line)? {
        Some(text) => Ok(text),
        None => Err(RunError::Presumed),
    }
}

// Puts out a token with this text in the place of another, where the work for it can be paid.
fn put_in_place<'s>(
    alloc: Global,
    out: &mut Vec<Marked<'s>>,
    work: &mut Work,
    t: Marked<'s>,
    kind: Kind,
    text: Bytes,
) -> Result<(), RunError>
    ensures ok { OnOk result (map marked_of out.new.items ≡ map marked_of out.old.items ++ replaced_token (marked_of t.entry) kind text ∷ []) }
    ensures paid { OnOk result (work.new.left + 2 ≡ work.old.left) }
    ensures spends { work.new.left ≤ work.old.left }
    ensures longer { OnOk result (length out.new.items ≡ length out.old.items + 1) }
    ensures stamped { (sets : Stamps) (next : ℕ) → Stamped sets next t.entry → AllStamped sets next out.old.items → OnOk result (AllStamped sets next out.new.items) }
    ensures err { IfErr result (λ e. (e ≡ RunError.Memory) ⊎ ((e ≡ RunError.Work) × (work.old.left ≤ 1))) }
{
    charge(work, 1)?;
    put(out, in_place_of(alloc, t, kind, text)?)
}

// A token in the place of another: its line, its space and its hide set.
fn in_place_of<'s>(
    alloc: Global,
    t: Marked<'s>,
    kind: Kind,
    text: Bytes,
) -> Result<Marked<'s>, AllocError>
    ensures made { IfOk result (λ m. marked_of m ≡ replaced_token (marked_of t.entry) kind text) }
    ensures stamped { (sets : Stamps) (next : ℕ) → Stamped sets next t.entry → IfOk result (λ m. Stamped sets next m) }
{
    let Marked {
        token,
        hidden,
        stamp,
    } = t;
    let token = TokenCow::owned(
        alloc,
        Token {
            kind,
            text,
            line: token.line(),
            space: token.space(),
        },
    )?;
    Ok(Marked {
        token,
        hidden,
        stamp,
    })
}

// The text between quotes.
fn quoted(alloc: Global, name: &Bytes) -> Result<Bytes, AllocError>
    ensures { IfOk result (λ t. t ≡ in_quotes name.now) }
{
    let mut text = Vec::new(alloc);
    text.push(34u8)?;
    text.extend_from_slice(name.as_slice())?;
    text.push(34u8)?;
    Ok(Bytes::of(text))
}
