// Calls of function-like macros (ISO C 6.10.3 paragraphs 10 and 11).
ghost use Rattle.std.specs.Prelude.{◌≡◌, ◌⊎◌, ℕ, IfSome, ◌+◌, ◌-◌, ◌^◌, ◌<◌, ◌≤◌, ◌++◌, ◌∷◌, [], if◌then◌else◌, List, true, false, Some, None, map, length, IfOk, IfErr, OnOk, IsTrue, IsFalse};
ghost use Rattle.macro_expand.specs.Replacement.{Marked as MarkedToken};
ghost use Rattle.macro_expand.specs.parts.Reading as reading;
ghost use Rattle.macro_expand.specs.parts.Reading.{CutsCall, arguments_cut, call_mark, cut_from, cuts_for, ends_call, is_cut, nesting_after, read_arguments};
ghost use Rattle.std.specs.List.{list_any};
ghost use Rattle.macro_expand.specs.parts.Parts.{takes_written, parts_told};
ghost use Rattle.macro_expand.specs.Seen.{marked_of, lists_of, part_seen, parts_seen, ReadsCall, RefusesCall, KeepsWritten, SameWhereAlone};
ghost use Rattle.macro_expand.specs.parts.Stamps.{Stamps, Stamped, AllStamped, EachStamped, CutStamped, CallStamped};

use crate::marked::Marked;
use crate::outcome::{RunError, Spelling};
use crate::pending::Pending;
use crate::replace::{Part, Parts};
use base_types::Bytes;
use pp_tokens::{Kind, TokenCow};
use std::alloc::{AllocError, Global};
use std::mem::replace;

// The pieces that its commas cut a call into, as written, and its `)`. Where their number is right, they are its arguments.
#[derive(Drop)]
pub(crate) struct ReadCall<'a> {
    pub(crate) written: Vec<Vec<Marked<'a>>>,
    pub(crate) close: Marked<'a>,
}

// The call that the pending tokens begin after their `(`, with its arguments.
pub(crate) fn read_call<'a>(
    alloc: Global,
    t: &Marked,
    params: &[Bytes],
    variadic: bool,
    pending: &mut Pending<'a>,
) -> Result<ReadCall<'a>, RunError>
    ensures ok { IfOk result (λ r. ReadsCall (length params.now) variadic (map marked_of pending.old)
        (lists_of r.written.items) (marked_of r.close) (map marked_of pending.new)) }
    ensures shorter { length pending.new ≤ length pending.old }
    ensures stamped { (sets : Stamps) (next : ℕ) → AllStamped sets next pending.old → IfOk result (λ r. AllStamped sets next pending.new × CallStamped sets next r) }
    ensures err { IfErr result (λ e. RefusesCall e t.now (length params.now) variadic (map marked_of pending.old)) }
{
    let count = params.len();
    match cut_call(alloc, cuts_for(count, variadic), pending)? {
        Some(call) => with_arguments(alloc, t, count, variadic, call),
        None => Err(unclosed(alloc, t)),
    }
}

// A call of a macro with `count` parameters, its pieces taken for its arguments.
fn with_arguments<'a>(
    alloc: Global,
    t: &Marked,
    count: usize,
    variadic: bool,
    call: ReadCall<'a>,
) -> Result<ReadCall<'a>, RunError>
    ensures ok { IfOk result (λ r. arguments_cut count variadic (lists_of call.entry.written.items) ≡ Some (lists_of r.written.items)) }
    ensures close { IfOk result (λ r. r.close ≡ call.entry.close) }
    ensures stamped { (sets : Stamps) (next : ℕ) → EachStamped sets next call.entry.written.items → IfOk result (λ r. EachStamped sets next r.written.items) }
    ensures err { IfErr result (λ e. (e ≡ RunError.Memory) ⊎ ((e ≡ RunError.Count t.now.token.text t.now.token.line)
        × (arguments_cut count variadic (lists_of call.entry.written.items) ≡ None))) }
{
    let ReadCall { written, close } = call;
    match arguments(alloc, count, variadic, written)? {
        Some(written) => Ok(ReadCall { written, close }),
        None => Err(miscounted(alloc, t)),
    }
}

// Whether a part takes an argument as it is written, or may do so to the part beside it (6.10.3.2, 6.10.3.3).
fn takes_written(p: &Part) -> bool
    ensures { result ≡ takes_written (part_seen p.now) }
{
    matches!(p, Part::Spelling(_, _) | Part::Join)
}

pub(crate) fn take_written(parts: &[Part]) -> bool
    ensures { result ≡ list_any takes_written (parts_seen parts.now) }
{
    for p in parts {
        if takes_written(p) {
            return true;
        }
    }
    false
}

// A copy of the tokens.
fn copied<'a>(alloc: Global, ts: &[Marked<'a>]) -> Result<Vec<Marked<'a>>, AllocError>
    ensures { IfOk result (λ copy. copy.items ≡ ts.now) }
{
    let mut copy = Vec::with_capacity(alloc, ts.len())?;
    for t in ts {
        copy.push(t.copy()?)?;
    }
    Ok(copy)
}

// A copy of the tokens of an argument that stands `alone`, else no tokens.
fn copied_alone<'a>(
    alloc: Global,
    alone: bool,
    ts: &[Marked<'a>],
) -> Result<Vec<Marked<'a>>, AllocError>
    ensures { IfOk result (λ copy. copy.items ≡ (if alone then ts.now else [])) }
{
    if alone {
        copied(alloc, ts)
    } else {
        Ok(Vec::new(alloc))
    }
}

// Copies of the arguments that stand `alone`, and no tokens in place of the others.
fn each_copied_alone<'a>(
    alloc: Global,
    alone: &[bool],
    lists: &[Vec<Marked<'a>>],
) -> Result<Vec<Vec<Marked<'a>>>, AllocError>
    requires { length alone.now ≡ length lists.now }
    ensures same { IfOk result (λ copies. SameWhereAlone alone.now (lists_of lists.now) (lists_of copies.items)) }
    ensures stamped { (sets : Stamps) (next : ℕ) → EachStamped sets next lists.now → IfOk result (λ copies. EachStamped sets next copies.items) }
{
    let mut copies = Vec::with_capacity(alloc, lists.len())?;
    for i in 0..lists.len() {
        let list = &lists[i];
        let copy = copied_alone(alloc, alone[i], list.as_slice())?;
        copies.push(copy)?;
    }
    Ok(copies)
}

// The arguments of a call, to be expanded where they stand `alone`, and the call with what its replacement needs of them as
// written: nothing where there is no `#` and no `##`, so that they are moved.
pub(crate) fn with_kept<'a>(
    alloc: Global,
    parts: &Parts,
    alone: &[bool],
    call: ReadCall<'a>,
) -> Result<(Vec<Vec<Marked<'a>>>, ReadCall<'a>), AllocError>
    requires { length alone.now ≡ length call.written.items }
    ensures given { IfOk result (λ r. SameWhereAlone alone.now (lists_of call.entry.written.items) (lists_of r.0.items)) }
    ensures stamped { (sets : Stamps) (next : ℕ) → EachStamped sets next call.entry.written.items → IfOk result (λ r. EachStamped sets next r.0.items) }
    ensures close { IfOk result (λ r. r.1.close ≡ call.entry.close) }
    ensures kept { IfOk result (λ r. KeepsWritten (parts_told parts.now) (lists_of call.entry.written.items) (lists_of r.1.written.items)) }
{
    let ReadCall { written, close } = call;
    if !parts.take_written() {
        let kept = Vec::new(alloc);
        return Ok((
            written,
            ReadCall {
                written: kept,
                close,
            },
        ));
    }
    let given = each_copied_alone(alloc, alone, written.as_slice())?;
    Ok((given, ReadCall { written, close }))
}

fn unclosed(alloc: Global, t: &Marked) -> RunError
    ensures { (result ≡ RunError.Memory) ⊎ (result ≡ RunError.Unclosed t.now.token.text t.now.token.line) }
{
    match Spelling::copy_of(alloc, t.token.text()) {
        Ok(name) => RunError::Unclosed {
            name,
            line: t.token.line(),
        },
        Err(_) => RunError::Memory,
    }
}

fn miscounted(alloc: Global, t: &Marked) -> RunError
    ensures { (result ≡ RunError.Memory) ⊎ (result ≡ RunError.Count t.now.token.text t.now.token.line) }
{
    match Spelling::copy_of(alloc, t.token.text()) {
        Ok(name) => RunError::Count {
            name,
            line: t.token.line(),
        },
        Err(_) => RunError::Memory,
    }
}

// What a token does in a call: it opens or closes a parenthesis, parts arguments, or none of these.
#[derive(Clone, Copy, Drop)]
enum CallMark {
    Opens,
    Closes,
    Parts,
    Plain,
}

// What a token does in a call. One look at it tells.
#[tactic(auto, unfolding(pp_tokens::specs::Marks::mark_of))]
#[inline(always)]
fn mark_of(t: &TokenCow) -> CallMark
    ensures { result ≡ call_mark t.now }
{
    if t.kind() != Kind::Punct {
        return CallMark::Plain;
    }
    match t.text() {
        b"(" => CallMark::Opens,
        b")" => CallMark::Closes,
        b"," => CallMark::Parts,
        _ => CallMark::Plain,
    }
}

// How many parentheses deep the tokens stand that follow such a token.
#[inline(always)]
fn nesting_after(nesting: usize, mark: CallMark) -> usize
    requires { nesting < 2 ^ 63 }
    ensures value { result ≡ reading.nesting_after nesting mark }
    ensures deep { result ≤ nesting + 1 }
{
    match mark {
        CallMark::Opens => nesting + 1,
        CallMark::Closes => nesting.saturating_sub(1),
        CallMark::Parts | CallMark::Plain => nesting,
    }
}

// A call that is being cut at its commas: the pieces that are whole, the piece that grows, how many cuts may still be made, and how
// many parentheses deep the next token stands.
#[derive(Drop)]
struct Cutting<'a> {
    pieces: Vec<Vec<Marked<'a>>>,
    piece: Vec<Marked<'a>>,
    cuts: usize,
    nesting: usize,
}

impl<'a> Cutting<'a> {
    // Whether a token with this mark is the `)` that ends the call.
    #[inline(always)]
    fn is_end(&self, mark: CallMark) -> bool
        ensures { result ≡ ends_call self.now.nesting mark }
    {
        self.nesting == 0 && matches!(mark, CallMark::Closes)
    }

    // Whether a token with this mark is a comma to cut at.
    #[inline(always)]
    fn is_cut(&self, mark: CallMark) -> bool
        ensures { result ≡ is_cut self.now.cuts self.now.nesting mark }
    {
        self.cuts > 0 && self.nesting == 0 && matches!(mark, CallMark::Parts)
    }

    // Ends the piece at a comma, or puts the token into it.
    #[inline(always)]
    fn take(&mut self, alloc: Global, mark: CallMark, t: Marked<'a>) -> Result<(), AllocError>
        requires deep { self.old.nesting ≤ length self.old.piece.items }
        requires mark { mark ≡ call_mark t.token }
        ensures ok { OnOk result ((ts : List MarkedToken) → cut_from self.old (marked_of t.entry ∷ ts) ≡ cut_from self.new ts) }
        ensures nesting { OnOk result (self.new.nesting ≡ nesting_after self.old.nesting mark) }
        ensures deep { OnOk result (self.new.nesting ≤ length self.new.piece.items) }
        ensures stamped { (sets : Stamps) (next : ℕ) → CutStamped sets next self.old → Stamped sets next t.entry → OnOk result (CutStamped sets next self.new) }
    {
        if self.is_cut(mark) {
            return self.cut(alloc);
        }
        self.nesting = nesting_after(self.nesting, mark);
        self.piece.push(t)?;
        Ok(())
    }

    // Ends the piece.
    #[inline(always)]
    fn cut(&mut self, alloc: Global) -> Result<(), AllocError>
        requires { 0 < self.old.cuts }
        ensures pieces { OnOk result (self.new.pieces.items ≡ self.old.pieces.items ++ self.old.piece ∷ []) }
        ensures piece { OnOk result (self.new.piece.items ≡ []) }
        ensures cuts { OnOk result (self.new.cuts ≡ self.old.cuts - 1) }
        ensures same { self.new.nesting ≡ self.old.nesting }
    {
        let piece = replace(&mut self.piece, Vec::new(alloc));
        self.pieces.push(piece)?;
        self.cuts -= 1;
        Ok(())
    }

    // The call that ends with this `)`, its last piece the one that grew.
    #[inline(always)]
    fn ended(self, close: Marked<'a>) -> Result<ReadCall<'a>, AllocError>
        ensures pieces { IfOk result (λ call. lists_of call.written.items ≡ cut_from self.entry []) }
        ensures stamped { (sets : Stamps) (next : ℕ) → CutStamped sets next self.entry → IfOk result (λ call. EachStamped sets next call.written.items) }
        ensures close { IfOk result (λ call. call.close ≡ close.entry) }
    {
        let Cutting {
            mut pieces,
            piece,
            ..
        } = self;
        pieces.push(piece)?;
        Ok(ReadCall {
            written: pieces,
            close,
        })
    }
}

// What stands before the `)` that matches the `(` before the pending tokens, cut at the first `cuts` commas that stand outside
// parentheses; none where the `)` is missing.
fn cut_call<'a>(
    alloc: Global,
    cuts: usize,
    pending: &mut Pending<'a>,
) -> Result<Option<ReadCall<'a>>, AllocError>
    ensures ok { IfOk result (λ call. CutsCall cuts (map marked_of pending.old) call (map marked_of pending.new)) }
    ensures stamped { (sets : Stamps) (next : ℕ) → AllStamped sets next pending.old
        → IfOk result (λ o. IfSome o (λ call. AllStamped sets next pending.new × CallStamped sets next call)) }
    ensures shorter { length pending.new ≤ length pending.old }
{
    let mut cutting = Cutting {
        pieces: Vec::with_capacity(alloc, cuts.saturating_add(1))?,
        piece: Vec::new(alloc),
        cuts,
        nesting: 0,
    };
    while let Some(t) = pending.pop() {
        let mark = mark_of(&t.token);
        if cutting.is_end(mark) {
            return Ok(Some(cutting.ended(t)?));
        }
        cutting.take(alloc, mark, t)?;
    }
    Ok(None)
}

// At how many commas a call of a macro with `count` parameters is cut, at most. Where no argument takes the commas behind the
// others, it is one more than a right call has, so that too many show.
fn cuts_for(count: usize, variadic: bool) -> usize
    ensures { result ≡ cuts_for count variadic }
{
    if variadic {
        count.saturating_sub(1)
    } else {
        count
    }
}

// The arguments of a macro with `count` parameters, the variable one last, by the pieces of its call; none where their number is
// wrong.
fn arguments<'a>(
    alloc: Global,
    count: usize,
    variadic: bool,
    pieces: Vec<Vec<Marked<'a>>>,
) -> Result<Option<Vec<Vec<Marked<'a>>>>, AllocError>
    ensures cut { IfOk result (λ o. read_arguments o ≡ arguments_cut count variadic (lists_of pieces.entry.items)) }
    ensures stamped { (sets : Stamps) (next : ℕ) → EachStamped sets next pieces.entry.items → IfOk result (λ o. IfSome o (λ args. EachStamped sets next args.items)) }
{
    if variadic {
        return variable_arguments(alloc, count, pieces);
    }
    if count == 0 {
        return Ok(no_arguments(alloc, pieces));
    }
    Ok(counted_arguments(count, pieces))
}

// The arguments where the last is all that follows the others, or is left out.
fn variable_arguments<'a>(
    alloc: Global,
    count: usize,
    mut pieces: Vec<Vec<Marked<'a>>>,
) -> Result<Option<Vec<Vec<Marked<'a>>>>, AllocError>
    ensures cut { IfOk result (λ o. read_arguments o ≡ arguments_cut count true (lists_of pieces.entry.items)) }
    ensures stamped { (sets : Stamps) (next : ℕ) → EachStamped sets next pieces.entry.items → IfOk result (λ o. IfSome o (λ args. EachStamped sets next args.items)) }
{
    if pieces.len() == count {
        return Ok(Some(pieces));
    }
    if pieces.len() + 1 == count {
        pieces.push(Vec::new(alloc))?;
        return Ok(Some(pieces));
    }
    Ok(None)
}

// No arguments, where nothing stands within.
fn no_arguments<'a>(alloc: Global, pieces: Vec<Vec<Marked<'a>>>) -> Option<Vec<Vec<Marked<'a>>>>
    ensures cut { read_arguments result ≡ arguments_cut 0 false (lists_of pieces.entry.items) }
    ensures stamped { (sets : Stamps) (next : ℕ) → IfSome result (λ args. EachStamped sets next args.items) }
{
    if pieces.is_empty() || pieces[0].is_empty() {
        return Some(Vec::new(alloc));
    }
    None
}

// The arguments between all commas.
fn counted_arguments<'a>(count: usize, pieces: Vec<Vec<Marked<'a>>>) -> Option<Vec<Vec<Marked<'a>>>>
    requires { 0 < count }
    ensures cut { read_arguments result ≡ arguments_cut count false (lists_of pieces.entry.items) }
    ensures stamped { (sets : Stamps) (next : ℕ) → EachStamped sets next pieces.entry.items → IfSome result (λ args. EachStamped sets next args.items) }
{
    if pieces.len() == count {
        return Some(pieces);
    }
    None
}
