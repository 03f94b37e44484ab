// The tokens of a replacement as they are put in for a name (ISO C 6.10.3 paragraphs 9 and 10, 6.10.3.4).
ghost use Rattle.std.specs.Prelude.{◌≡◌, ◌++◌, ◌∷◌, [], ℕ, List, true, map, length, reverse, IfOk, IfSome, OnOk, MatchOption};
ghost use Rattle.macro_expand.specs.Sets.{names_in};
ghost use Rattle.macro_expand.specs.Replacement.{with_space, put_in_for};
ghost use Rattle.pp_tokens.specs.Tokens.{token_seen};
ghost use Rattle.macro_defs.specs.Runs.{run_tokens};
ghost use Rattle.macro_expand.specs.Seen.{marked_of};
ghost use Rattle.macro_expand.specs.parts.Placing.{placed, lent_at, with_space_of, lent_in, HasNamesOfBoth, KnowsUnion};
ghost use Rattle.macro_expand.specs.parts.Stamps.{Fresh, AllFresh, Within, AllWithin};

use crate::hide_set::HideSet;
use crate::marked::Marked;
use macro_defs::Run;
use pp_tokens::{TokenCow, TokenRef};
use std::alloc::{AllocError, Global};

// How many tokens wait at a time for most text.
const FEW: usize = 8;

// The stamp of the macro's name where that is known to hide nothing that the replacement doesn't, else 0, and the stamp of what the
// replacement hides.
#[derive(Clone, Copy, Drop)]
pub(crate) struct Stamping {
    pub(crate) head: u32,
    pub(crate) made: u32,
}

// The names of a token, and the same with those that a replacement hides.
#[derive(Drop)]
struct United {
    own: HideSet,
    all: HideSet,
}

// What is kept of the names of the last token, where these are the same. Tokens that stand together mostly have one hide set.
fn kept_union(
    last: &Option<United>,
    own: &HideSet,
    hidden: &HideSet,
) -> Result<Option<HideSet>, AllocError>
    requires { KnowsUnion hidden.now last.now }
    ensures { IfOk result (λ kept. IfSome kept (λ all. HasNamesOfBoth all own.now hidden.now)) }
{
    let Some(united) = last else {
        return Ok(None);
    };
    if !united.own.is_same(own) {
        return Ok(None);
    }
    Ok(Some(united.all.copy()?))
}

// The names of a token and those that the replacement hides, kept for the next one.
fn unite(
    alloc: Global,
    last: &mut Option<United>,
    own: &HideSet,
    hidden: &HideSet,
) -> Result<HideSet, AllocError>
    ensures ok { IfOk result (λ all. HasNamesOfBoth all own.now hidden.now) }
    ensures known { OnOk result (KnowsUnion hidden.now last.new) }
{
    let all = own.all(alloc, hidden)?;
    *last = Some(United {
        own: own.copy()?,
        all: all.copy()?,
    });
    Ok(all)
}

// The names of a token and those that the replacement hides.
fn union_with(
    alloc: Global,
    last: &mut Option<United>,
    own: &HideSet,
    hidden: &HideSet,
) -> Result<HideSet, AllocError>
    requires { KnowsUnion hidden.now last.old }
    ensures ok { IfOk result (λ all. HasNamesOfBoth all own.now hidden.now) }
    ensures known { OnOk result (KnowsUnion hidden.now last.new) }
{
    match kept_union(last, own, hidden)? {
        Some(all) => Ok(all),
        None => unite(alloc, last, own, hidden),
    }
}

// Puts a token on the line of the name, and adds the names that the replacement hides.
fn place(
    alloc: Global,
    line: u32,
    hidden: &HideSet,
    stamping: Stamping,
    last: &mut Option<United>,
    m: &mut Marked,
) -> Result<(), AllocError>
    requires known { KnowsUnion hidden.now last.old }
    requires within { Within stamping.head hidden.now m.old }
    ensures placed { OnOk result (marked_of m.new ≡ placed line (names_in hidden.now) (marked_of m.old)) }
    ensures known { OnOk result (KnowsUnion hidden.now last.new) }
    ensures fresh { OnOk result (Fresh stamping.made hidden.now m.new) }
{
    m.token.set_line(line);
    if hides_all(stamping.head, m) {
        m.hidden = hidden.copy()?;
        m.stamp = stamping.made;
        return Ok(());
    }
    let all = union_with(alloc, last, &m.hidden, hidden)?;
    m.hidden = all;
    m.stamp = 0;
    Ok(())
}

// Whether a token is known to hide nothing that the replacement doesn't hide: it has no names, or the stamp of the macro's name.
#[inline(always)]
fn hides_all(head: u32, m: &Marked) -> bool
    ensures { result ≡ true → (hidden : List (List ℕ)) → Within head hidden m.now → (n : List ℕ) → names_in m.now.hidden n ≡ true → names_in hidden n ≡ true }
{
    m.hidden.is_none() || (head != 0 && m.stamp == head)
}

// The tokens with this space on the first.
fn spaced<'t>(mut made: Vec<Marked<'t>>, space: bool) -> Vec<Marked<'t>>
    ensures spaced { map marked_of result.items ≡ with_space space (map marked_of made.entry.items) }
    ensures fresh { (stamp : ℕ) (hidden : List (List ℕ)) → AllFresh stamp hidden made.entry.items → AllFresh stamp hidden result.items }
{
    if !made.is_empty() {
        made[0].token.set_space(space);
    }
    made
}

// The tokens as they are put in for `t`: on its line, the first with its space, and with the names that the replacement
// hides beside their own.
pub(crate) fn put_in_for<'t>(
    alloc: Global,
    t: &TokenCow,
    hidden: &HideSet,
    stamping: Stamping,
    mut made: Vec<Marked<'t>>,
) -> Result<Vec<Marked<'t>>, AllocError>
    requires { AllWithin stamping.head hidden.now made.items }
    ensures placed { IfOk result (λ ts. map marked_of ts.items ≡ put_in_for t.now (names_in hidden.now) (map marked_of made.entry.items)) }
    ensures fresh { IfOk result (λ ts. AllFresh stamping.made hidden.now ts.items) }
{
    let line = t.line();
    let mut last = None;
    for m in made.iter_mut() {
        place(alloc, line, hidden, stamping, &mut last, m)?;
    }
    Ok(spaced(made, t.space()))
}

// A token of a replacement list, as it is put in on this line.
fn lent_at<'t>(
    line: u32,
    hidden: &HideSet,
    stamp: u32,
    u: TokenRef<'t>,
) -> Result<Marked<'t>, AllocError>
    ensures { IfOk result (λ m. m ≡ lent_at line hidden.now stamp (token_seen u.entry)) }
{
    let mut token = TokenCow::lent(u);
    token.set_line(line);
    Ok(Marked {
        token,
        hidden: hidden.copy()?,
        stamp,
    })
}

// The same, with the space of the name.
fn lent_first<'t>(
    t: &TokenCow,
    hidden: &HideSet,
    stamp: u32,
    u: TokenRef<'t>,
) -> Result<Marked<'t>, AllocError>
    ensures { IfOk result (λ m. m ≡ with_space_of t.now.space (lent_at t.now.line hidden.now stamp (token_seen u.entry))) }
{
    let mut first = lent_at(t.line(), hidden, stamp, u)?;
    first.token.set_space(t.space());
    Ok(first)
}

// The last token of a run, and the run before it. It costs the same however many there are.
#[inline(always)]
fn last_of<'t>(run: Run<'t>) -> Option<(Run<'t>, TokenRef<'t>)>
    ensures { MatchOption result (run_tokens run.entry ≡ []) (λ p. run_tokens run.entry ≡ run_tokens p.0 ++ token_seen p.1 ∷ []) }
{
    match run {
        Run::Listed(tokens) => {
            let [front @ .., last] = tokens else {
                return None;
            };
            Some((Run::Listed(front), last.as_ref()))
        }
        Run::Lexed(tokens) => {
            let (front, mut behind) = tokens.split_at(tokens.len().saturating_sub(1));
            match behind.next() {
                Some(last) => Some((Run::Lexed(front), last)),
                None => None,
            }
        }
    }
}

// Puts tokens of a replacement list that stand for themselves before others, whose first stands last, as they are put in on this line.
fn lend_each<'t>(
    pending: &mut Vec<Marked<'t>>,
    line: u32,
    hidden: &HideSet,
    stamp: u32,
    mut body: Run<'t>,
) -> Result<(), AllocError>
    ensures { OnOk result (reverse pending.new.items ≡ map (lent_at line hidden.now stamp) (run_tokens body.entry) ++ reverse pending.old.items) }
{
    while let Some((front, u)) = last_of(body) {
        pending.push(lent_at(line, hidden, stamp, u)?)?;
        body = front;
    }
    Ok(())
}

// Takes room for a few tokens where there is none yet: by itself a list has room for 4, and grows where a replacement has more.
fn make_room(pending: &mut Vec<Marked>) -> Result<(), AllocError>
    ensures { OnOk result (pending.new.items ≡ pending.old.items) }
{
    if pending.capacity() == 0 {
        pending.reserve(FEW)?;
    }
    Ok(())
}

// The same of a whole list, with the space of the name `t`.
pub(crate) fn lend_before<'t>(
    pending: &mut Vec<Marked<'t>>,
    t: &TokenCow,
    hidden: &HideSet,
    stamp: u32,
    mut body: Run<'t>,
) -> Result<(), AllocError>
    ensures { OnOk result (reverse pending.new.items ≡ lent_in t.now hidden.now stamp (run_tokens body.entry) ++ reverse pending.old.items) }
{
    let Some(first) = body.next() else {
        return Ok(());
    };
    make_room(pending)?;
    lend_each(pending, t.line(), hidden, stamp, body)?;
    pending.push(lent_first(t, hidden, stamp, first)?)?;
    Ok(())
}
