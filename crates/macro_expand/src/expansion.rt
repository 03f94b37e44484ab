// Expansion of a list of tokens (ISO C 6.10.3; `expansion` in specs/Expansion.antt).
//
// Prosser's algorithm: each token has a hide set, the names that don't replace it any more (6.10.3.4). The token at the head of those pending is
// put out, or it is a name or a call that is replaced; the replacement is put in front of what is pending, and read again together with
// it. A call's arguments are expanded before that, each by itself, by a recursion of depth 400 at most. Who answers which definition a name
// has is a parameter (`Answers`), so that a table of macros and a choice among definitions share one loop. It ends, since each
// replacement is paid for from `work`.
ghost use Rattle.std.specs.Prelude.{◌≡◌, ◌⊎◌, ◌+◌, ◌<◌, ◌≤◌, ◌++◌, ◌∷◌, [], map, length, take, drop, Ok, IfOk, IfErr, IsTrue, OnOk};
ghost use Rattle.macro_expand.specs.declared.marked.Role.TheVariants.{Name};
ghost use Rattle.macro_expand.specs.Replacement.{unmarked};
ghost use Rattle.macro_expand.specs.Expansion.{head_role};
ghost use Rattle.macro_expand.specs.Answered.{argument_for, arguments_for, expanded_for};
ghost use Rattle.base_types.specs.Limits.{argument_depth_limit};
ghost use Rattle.macro_expand.specs.parts.Naming.{StandAlone, called_for};
ghost use Rattle.macro_expand.specs.parts.Steps.{StaysFor, EachStaysFor};
ghost use Rattle.macro_defs.specs.Runs.{run_tokens};
ghost use Rattle.macro_expand.specs.parts.Placing.{lent_in};
ghost use Rattle.macro_expand.specs.parts.Stamps.{Stamps, Stamped, AllStamped, EachStamped, KeepsStamps, StampsAfter, ArePutIn, stamp_of};
ghost use Rattle.macro_expand.specs.Seen.{marked_of, kept_token, lists_of, StepKeepsResult, Stops, public_of, HasTokens};
ghost use Rattle.macro_expand.specs.parts.Parts.{parts_told};

use crate::answers::Answers;
use crate::builtin::{expand_file_name, expand_line_number};
use crate::hide_set::HideSet;
use crate::marked::{Marked, Role};
use crate::name::{MacroCall, ReadName, read_name};
use crate::operand::{expand_defined, has_operand};
use crate::outcome::{ExpandError, Mode, RunError, Work};
use crate::pending::{Pending, is_place};
use crate::replace::call_tokens;
use base_types::List;
use base_types::limits::ARGUMENT_DEPTH_LIMIT;
use macro_defs::Run;
use pp_tokens::{Token, TokenCow};
use std::alloc::{AllocError, Global};
use std::mem::replace;

#[tactic(auto, unfolding(crate::specs::Expansion::head_role))]
#[inline(always)]
pub(crate) fn role(mode: Mode, t: &Marked, rest: &Pending) -> Role
    ensures { result ≡ head_role mode (marked_of t.now) (map marked_of rest.now) }
{
    if !t.token.is_identifier() {
        return Role::Ordinary;
    }
    if matches!(mode, Mode::Condition)
        && t.token.text() == b"defined".as_slice()
        && has_operand(rest)
    {
        return Role::Defined;
    }
    if t.hidden.hides(t.token.text()) {
        return Role::Ordinary;
    }
    if t.token.text() == b"__FILE__".as_slice() {
        return Role::FileName;
    }
    if t.token.text() == b"__LINE__".as_slice() {
        return Role::LineNumber;
    }
    Role::Name
}

#[inline(always)]
pub(crate) fn put<'s>(out: &mut Vec<Marked<'s>>, t: Marked<'s>) -> Result<(), RunError>
    ensures ok { OnOk result (out.new.items ≡ out.old.items ++ t.entry ∷ []) }
    ensures err { IfErr result (λ e. e ≡ RunError.Memory) }
{
    match out.push(t) {
        Ok(()) => Ok(()),
        Err(_) => Err(RunError::Memory),
    }
}

// Charges a replacement that puts in so many tokens.
pub(crate) fn charge(work: &mut Work, tokens: usize) -> Result<(), RunError>
    ensures ok { OnOk result (work.new.left + tokens + 1 ≡ work.old.left) }
    ensures spends { work.new.left ≤ work.old.left }
    ensures err { IfErr result (λ e. (e ≡ RunError.Work) × (work.old.left ≤ tokens)) }
{
    let cost = tokens as u64;
    if work.left <= cost {
        return Err(RunError::Work);
    }
    work.left = work.left - cost - 1;
    Ok(())
}

// Whether a token is put out as it is, whatever stands behind it and whoever was asked before.
#[tactic(auto, unfolding(crate::specs::Expansion::head_role))]
fn stays<S, A: Answers<S>>(source: &S, answers: &A, mode: Mode, t: &Marked) -> bool
    ensures { IsTrue result → StaysFor (A.answerer source.now) mode (marked_of t.now) }
{
    if !t.token.is_identifier() {
        return true;
    }
    let name = t.token.text();
    if name == b"defined".as_slice() && matches!(mode, Mode::Condition) {
        return false;
    }
    !is_place(name) && answers.lacks(source, name)
}

// Whether tokens are known to be put out as they are.
fn stay<S, A: Answers<S>>(source: &S, answers: &A, mode: Mode, tokens: &[Marked]) -> bool
    ensures { IsTrue result → EachStaysFor (A.answerer source.now) mode (map marked_of tokens.now) }
{
    for t in tokens {
        if !stays(source, answers, mode, t) {
            return false;
        }
    }
    true
}

// The tokens of a call's argument: expanded by itself where its parameter stands `alone` (6.10.3.1), else none.
#[cycle(expanding)]
fn expand_argument<'s, S, A: Answers<S>>(
    alloc: Global,
    source: &'s S,
    answers: &mut A,
    mode: Mode,
    depth: u32,
    t: &Marked,
    alone: bool,
    argument: Vec<Marked<'s>>,
    stamps: &mut u32,
    work: &mut Work,
) -> Result<Vec<Marked<'s>>, RunError>
    requires shallow { depth ≤ argument_depth_limit }
    requires stamped { (sets : Stamps) × AllStamped sets stamps.old argument.items }
    ensures stamps { stamps.old ≤ stamps.new }
    ensures stamped { (sets : Stamps) → AllStamped sets stamps.old argument.entry.items → IfOk result (λ out. StampsAfter sets stamps.old stamps.new [] out.items) }
    ensures ok { IfOk result (λ out. argument_for (A.answerer source.now) answers.old mode depth t.now.token alone work.old.left (map marked_of argument.entry.items)
        ≡ record { result = Ok (record { tokens = map marked_of out.items; units = work.new.left }); state = answers.new }) }
    ensures spends { work.new.left ≤ work.old.left }
    ensures err { IfErr result (λ e. Stops e answers.new
        (argument_for (A.answerer source.now) answers.old mode depth t.now.token alone work.old.left (map marked_of argument.entry.items))) }
{
    if !alone {
        return Ok(Vec::new(alloc));
    }
    if depth >= ARGUMENT_DEPTH_LIMIT {
        return Err(RunError::Deep {
            line: t.token.line(),
        });
    }
    // what no macro touches stands for itself
    if stay(source, answers, mode, &argument) {
        return Ok(argument);
    }
    expand_list(
        alloc,
        source,
        answers,
        mode,
        depth + 1,
        argument,
        stamps,
        work,
    )
}

// Takes an argument from its place, where nothing stays.
#[inline(always)]
fn take_argument<'s>(alloc: Global, lists: &mut Vec<Vec<Marked<'s>>>, i: usize) -> Vec<Marked<'s>>
    requires { i < length lists.old.items }
    ensures taken { drop i lists.old.items ≡ result ∷ drop (i + 1) lists.new.items }
    ensures front { take i lists.new.items ≡ take i lists.old.items }
    ensures same { length lists.new.items ≡ length lists.old.items }
{
    replace(&mut lists[i], Vec::new(alloc))
}

// Puts what an argument became in its place.
#[inline(always)]
fn put_argument<'s>(lists: &mut Vec<Vec<Marked<'s>>>, i: usize, expanded: Vec<Marked<'s>>)
    requires { i < length lists.old.items }
    ensures front { take (i + 1) lists.new.items ≡ take i lists.old.items ++ expanded.entry ∷ [] }
    ensures behind { drop (i + 1) lists.new.items ≡ drop (i + 1) lists.old.items }
    ensures same { length lists.new.items ≡ length lists.old.items }
{
    lists[i] = expanded;
}

// The arguments of a call of `t`, expanded by themselves where their parameters stand alone; for the others no tokens.
#[cycle(expanding)]
fn expand_arguments<'s, S, A: Answers<S>>(
    alloc: Global,
    source: &'s S,
    answers: &mut A,
    mode: Mode,
    depth: u32,
    t: &Marked,
    call: &MacroCall<'s>,
    written: Vec<Vec<Marked<'s>>>,
    stamps: &mut u32,
    work: &mut Work,
) -> Result<Vec<Vec<Marked<'s>>>, RunError>
    requires stamped { (sets : Stamps) × EachStamped sets stamps.old written.items }
    requires shallow { depth ≤ argument_depth_limit }
    requires alone { StandAlone call.now.alone.items (length written.items) (parts_told call.now.parts) }
    ensures ok { IfOk result (λ out. arguments_for (A.answerer source.now) answers.old mode depth t.now.token
        (parts_told call.now.parts) 0 work.old.left (lists_of written.entry.items)
        ≡ record { result = Ok (record { lists = lists_of out.items; units = work.new.left }); state = answers.new }) }
    ensures spends { work.new.left ≤ work.old.left }
    ensures stamps { stamps.old ≤ stamps.new }
    ensures stamped { (sets : Stamps) → EachStamped sets stamps.old written.entry.items
        → IfOk result (λ out. (after : Stamps) × (KeepsStamps sets stamps.old after × EachStamped after stamps.new out.items)) }
    ensures err { IfErr result (λ e. Stops e answers.new (arguments_for (A.answerer source.now) answers.old mode depth t.now.token
        (parts_told call.now.parts) 0 work.old.left (lists_of written.entry.items))) }
{
    let mut lists = written;
    for i in 0..lists.len() {
        let alone = call.alone[i];
        let argument = take_argument(alloc, &mut lists, i);
        let expanded = expand_argument(
            alloc, source, answers, mode, depth, t, alone, argument, stamps, work,
        )?;
        put_argument(&mut lists, i, expanded);
    }
    Ok(lists)
}

// Puts in what a name is replaced by, before the tokens that are pending, where the work for it can be paid.
#[inline(always)]
fn put_in<'s>(
    pending: &mut Pending<'s>,
    stamps: &mut u32,
    work: &mut Work,
    made: Vec<Marked<'s>>,
) -> Result<(), RunError>
    ensures stamps { stamps.old ≤ stamps.new }
    ensures stamped { (sets : Stamps) → ArePutIn (stamp_of stamps.old) made.entry.items → AllStamped sets stamps.old pending.old
        → OnOk result ((after : Stamps) × (KeepsStamps sets stamps.old after × AllStamped after stamps.new pending.new)) }
    ensures ok { OnOk result (pending.new ≡ made.entry.items ++ pending.old) }
    ensures paid { OnOk result (work.new.left + length made.entry.items + 1 ≡ work.old.left) }
    ensures spends { work.new.left ≤ work.old.left }
    ensures shorter { OnOk result (work.new.left + length pending.new ≤ work.old.left + length pending.old) }
    ensures err { IfErr result (λ e. (e ≡ RunError.Memory) ⊎ ((e ≡ RunError.Work) × (work.old.left ≤ length made.entry.items))) }
{
    charge(work, made.len())?;
    *stamps = stamps.saturating_add(1);
    pending.put_back(made)
}

// The same of the tokens of a replacement list, lent, for the name `t`.
#[inline(always)]
fn put_in_lent<'s>(
    pending: &mut Pending<'s>,
    stamps: &mut u32,
    work: &mut Work,
    t: &TokenCow,
    hidden: &HideSet,
    body: Run<'s>,
) -> Result<(), RunError>
    ensures stamps { stamps.old ≤ stamps.new }
    ensures stamped { (sets : Stamps) → AllStamped sets stamps.old pending.old
        → OnOk result ((after : Stamps) × (KeepsStamps sets stamps.old after × AllStamped after stamps.new pending.new)) }
    ensures ok { OnOk result (pending.new ≡ lent_in t.now hidden.now (stamp_of stamps.old) (run_tokens body.entry) ++ pending.old) }
    ensures paid { OnOk result (work.new.left + length (lent_in t.now hidden.now (stamp_of stamps.old) (run_tokens body.entry)) + 1 ≡ work.old.left) }
    ensures spends { work.new.left ≤ work.old.left }
    ensures shorter { OnOk result (work.new.left + length pending.new ≤ work.old.left + length pending.old) }
    ensures err { IfErr result (λ e. (e ≡ RunError.Memory) ⊎ ((e ≡ RunError.Work)
        × (work.old.left ≤ length (lent_in t.now hidden.now (stamp_of stamps.old) (run_tokens body.entry))))) }
{
    charge(work, body.len())?;
    let given = *stamps;
    *stamps = given.saturating_add(1);
    pending.put_lent(t, hidden, stamp_of(given), body)
}

// The stamp that a replacement gets where so many were given: none where there is no greater number.
fn stamp_of(stamps: u32) -> u32
    ensures { result ≡ stamp_of stamps }
{
    if stamps == u32::MAX { 0 } else { stamps }
}

// A call of `t`, replaced by what its arguments make.
#[cycle(expanding)]
fn expand_call<'s, S, A: Answers<S>>(
    alloc: Global,
    source: &'s S,
    answers: &mut A,
    mode: Mode,
    depth: u32,
    t: &Marked,
    call: &MacroCall<'s>,
    written: Vec<Vec<Marked<'s>>>,
    pending: &mut Pending<'s>,
    stamps: &mut u32,
    work: &mut Work,
) -> Result<(), RunError>
    requires stamped { (sets : Stamps) × (Stamped sets stamps.old t.now × (EachStamped sets stamps.old written.items × Stamped sets stamps.old call.now.read.close)) }
    requires shallow { depth ≤ argument_depth_limit }
    requires alone { StandAlone call.now.alone.items (length written.items) (parts_told call.now.parts) }
    ensures stamps { stamps.old ≤ stamps.new }
    ensures stamped { (sets : Stamps) → Stamped sets stamps.old t.now → EachStamped sets stamps.old written.entry.items → Stamped sets stamps.old call.now.read.close
        → AllStamped sets stamps.old pending.old → OnOk result ((after : Stamps) × (KeepsStamps sets stamps.old after × AllStamped after stamps.new pending.new)) }
    ensures ok { OnOk result (called_for (A.answerer source.now) answers.old mode depth work.old.left t.now call.now (lists_of written.entry.items) (map marked_of pending.old)
        ≡ expanded_for (A.answerer source.now) answers.new mode depth work.new.left (map marked_of pending.new)) }
    ensures spends { work.new.left ≤ work.old.left }
    ensures shorter { OnOk result (work.new.left + length pending.new ≤ work.old.left + length pending.old) }
    ensures err { IfErr result (λ e. Stops e answers.new
        (called_for (A.answerer source.now) answers.old mode depth work.old.left t.now call.now (lists_of written.entry.items) (map marked_of pending.old))) }
{
    let expanded = expand_arguments(
        alloc, source, answers, mode, depth, t, call, written, stamps, work,
    )?;
    let made = call_tokens(
        alloc,
        t,
        &call.parts,
        call.variable,
        &call.read,
        expanded.as_slice(),
        stamp_of(*stamps),
    )?;
    put_in(pending, stamps, work, made)
}

// One step: a name that isn't hidden from itself, and what it is replaced by.
#[cycle(expanding)]
fn expand_name<'s, S, A: Answers<S>>(
    alloc: Global,
    source: &'s S,
    answers: &mut A,
    mode: Mode,
    depth: u32,
    t: Marked<'s>,
    out: &mut Vec<Marked<'s>>,
    pending: &mut Pending<'s>,
    stamps: &mut u32,
    work: &mut Work,
) -> Result<(), RunError>
    requires shallow { depth ≤ argument_depth_limit }
    requires role { head_role mode (marked_of t) (map marked_of pending.old) ≡ Name }
    requires stamped { (sets : Stamps) × (Stamped sets stamps.old t × AllStamped sets stamps.old pending.old) }
    ensures stamps { stamps.old ≤ stamps.new }
    ensures stamped { (sets : Stamps) → Stamped sets stamps.old t.entry → AllStamped sets stamps.old pending.old → AllStamped sets stamps.old out.old.items
        → OnOk result (StampsAfter sets stamps.old stamps.new pending.new out.new.items) }
    ensures ok { OnOk result (StepKeepsResult (A.answerer source.now) mode depth answers.old work.old.left out.old.items t.entry pending.old
        answers.new work.new.left out.new.items pending.new) }
    ensures spends { work.new.left ≤ work.old.left }
    ensures shorter { OnOk result (work.new.left + length pending.new ≤ work.old.left + length pending.old) }
    ensures grows { OnOk result (length out.new.items + length pending.new + work.new.left ≤ length out.old.items + length pending.old + 1 + work.old.left) }
    ensures err { IfErr result (λ e. Stops e answers.new (expanded_for (A.answerer source.now) answers.old mode depth work.old.left
        (marked_of t.entry ∷ map marked_of pending.old))) }
{
    match read_name(alloc, source, answers, &t, stamp_of(*stamps), pending)? {
        ReadName::Itself => put(out, t),
        ReadName::Object(made) => put_in(pending, stamps, work, made),
        ReadName::Lent(hidden, body) => put_in_lent(pending, stamps, work, &t.token, &hidden, body),
        ReadName::Call(written, call) => expand_call(
            alloc, source, answers, mode, depth, &t, &call, written, pending, stamps, work,
        ),
    }
}

// One step: the token at the head, and what becomes of it.
#[cycle(expanding)]
pub(crate) fn expand_head<'s, S, A: Answers<S>>(
    alloc: Global,
    source: &'s S,
    answers: &mut A,
    mode: Mode,
    depth: u32,
    t: Marked<'s>,
    out: &mut Vec<Marked<'s>>,
    pending: &mut Pending<'s>,
    stamps: &mut u32,
    work: &mut Work,
) -> Result<(), RunError>
    requires shallow { depth ≤ argument_depth_limit }
    requires stamped { (sets : Stamps) × (Stamped sets stamps.old t × AllStamped sets stamps.old pending.old) }
    ensures stamps { stamps.old ≤ stamps.new }
    ensures stamped { (sets : Stamps) → Stamped sets stamps.old t.entry → AllStamped sets stamps.old pending.old → AllStamped sets stamps.old out.old.items
        → OnOk result (StampsAfter sets stamps.old stamps.new pending.new out.new.items) }
    ensures ok { OnOk result (StepKeepsResult (A.answerer source.now) mode depth answers.old work.old.left out.old.items t.entry pending.old
        answers.new work.new.left out.new.items pending.new) }
    ensures spends { work.new.left ≤ work.old.left }
    ensures shorter { OnOk result (work.new.left + length pending.new ≤ work.old.left + length pending.old) }
    ensures grows { OnOk result (length out.new.items + length pending.new + work.new.left ≤ length out.old.items + length pending.old + 1 + work.old.left) }
    ensures err { IfErr result (λ e. Stops e answers.new (expanded_for (A.answerer source.now) answers.old mode depth work.old.left
        (marked_of t.entry ∷ map marked_of pending.old))) }
{
    match role(mode, &t, pending) {
        Role::Ordinary => put(out, t),
        Role::Defined => expand_defined(source, answers, mode, depth, t, out, pending, work),
        Role::FileName => expand_file_name(
            alloc, source, answers, mode, depth, t, out, pending, work,
        ),
        Role::LineNumber => expand_line_number(
            alloc, source, answers, mode, depth, t, out, pending, work,
        ),
        Role::Name => expand_name(
            alloc, source, answers, mode, depth, t, out, pending, stamps, work,
        ),
    }
}

// The expansion of a list of tokens, rescanned together with the tokens behind each replacement (6.10.3.4). `depth` says how many
// calls' arguments stand around the list, at most 400.
#[cycle(expanding)]
fn expand_list<'s, S, A: Answers<S>>(
    alloc: Global,
    source: &'s S,
    answers: &mut A,
    mode: Mode,
    depth: u32,
    given: Vec<Marked<'s>>,
    stamps: &mut u32,
    work: &mut Work,
) -> Result<Vec<Marked<'s>>, RunError>
    requires shallow { depth ≤ argument_depth_limit }
    requires stamped { (sets : Stamps) × AllStamped sets stamps.old given.items }
    ensures stamps { stamps.old ≤ stamps.new }
    ensures stamped { (sets : Stamps) → AllStamped sets stamps.old given.entry.items → IfOk result (λ out. StampsAfter sets stamps.old stamps.new [] out.items) }
    ensures ok { IfOk result (λ out. expanded_for (A.answerer source.now) answers.old mode depth work.old.left (map marked_of given.entry.items)
        ≡ record { result = Ok (record { tokens = map marked_of out.items; units = work.new.left }); state = answers.new }) }
    ensures spends { work.new.left ≤ work.old.left }
    ensures err { IfErr result (λ e. Stops e answers.new
        (expanded_for (A.answerer source.now) answers.old mode depth work.old.left (map marked_of given.entry.items))) }
{
    let mut out = Vec::with_capacity(alloc, given.len())?;
    let mut pending = Pending::of(given);
    while let Some(t) = pending.pop() {
        expand_head(
            alloc,
            source,
            answers,
            mode,
            depth,
            t,
            &mut out,
            &mut pending,
            stamps,
            work,
        )?;
    }
    Ok(out)
}

// Moves a token behind others, without its hide set.
fn keep_token(alloc: Global, out: &mut Vec<Token>, m: Marked) -> Result<(), AllocError>
    ensures { OnOk result (out.new.items ≡ out.old.items ++ kept_token m.entry ∷ []) }
{
    let token = m.token.to_token(alloc)?;
    out.push(token)?;
    Ok(())
}

// Moves tokens behind others, without their hide sets.
fn keep_tokens(alloc: Global, out: &mut Vec<Token>, list: &mut Vec<Marked>) -> Result<(), RunError>
    ensures ok { OnOk result (out.new.items ≡ out.old.items ++ map kept_token list.old.items) }
    ensures emptied { OnOk result (list.new.items ≡ []) }
    ensures err { IfErr result (λ e. e ≡ RunError.Memory) }
{
    list.reverse();
    while let Some(m) = list.pop() {
        match keep_token(alloc, out, m) {
            Ok(()) => {}
            Err(_) => return Err(RunError::Memory),
        }
    }
    Ok(())
}

/// The tokens that a list of tokens becomes (ISO C 6.10.3), whoever answers what definition a name has and what `__FILE__` and
/// `__LINE__` stand for (6.10.8.1), each with the white space of what it stands for. The list is rescanned together with the tokens
/// behind each replacement (6.10.3.4), and stands in no argument. `mode` says whether a `defined` keeps its operand. Each replacement
/// takes its units from `work`: one, and one for each token that it puts in; `work` has what is left afterwards, behind an error no
/// more than before. The errors are those of `RunError`, the first that is met from left to right: but for `Memory` each exactly where it
/// says, with the answerer in the state of that place.
pub fn expand_for<S, A: Answers<S>>(
    alloc: Global,
    source: &S,
    answers: &mut A,
    mode: Mode,
    run: &[Token],
    work: &mut Work,
) -> Result<List<Token>, RunError>
    ensures ok { IfOk result (λ out. HasTokens (expanded_for (A.answerer source.now) answers.old mode 0 work.old.left (map unmarked run.now))
        out work.new.left answers.new) }
    ensures spends { work.new.left ≤ work.old.left }
    ensures err { IfErr result (λ e. Stops e answers.new
        (expanded_for (A.answerer source.now) answers.old mode 0 work.old.left (map unmarked run.now))) }
{
    // What a step puts out is kept without its hide sets, so that those of the pending tokens alone take memory.
    let mut pending = Pending::over(alloc, Run::Listed(run));
    let mut out = Vec::new(alloc);
    let mut step = Vec::new(alloc);
    let mut stamps = 1u32;
    while let Some(t) = pending.pop() {
        expand_head(
            alloc,
            source,
            answers,
            mode,
            0,
            t,
            &mut step,
            &mut pending,
            &mut stamps,
            work,
        )?;
        keep_tokens(alloc, &mut out, &mut step)?;
    }
    Ok(List::of(out))
}

// The public name of an error.
pub(crate) fn public_error(e: RunError) -> ExpandError
    ensures { result ≡ public_of e }
{
    match e {
        RunError::Count { name, line } => ExpandError::Count { name, line },
        RunError::Unclosed { name, line } => ExpandError::Unclosed { name, line },
        RunError::Paste { left, right, line } => ExpandError::Paste { left, right, line },
        RunError::Deep { line } => ExpandError::Deep { line },
        RunError::Work => ExpandError::Work,
        RunError::Presumed => ExpandError::Memory,
        RunError::Memory => ExpandError::Memory,
    }
}
