// Expansion that gives its tokens one after another.
ghost use Rattle.std.specs.Prelude.{◌≡◌, ◌+◌, ◌<◌, ◌≤◌, ◌++◌, ◌∷◌, [], List, map, length, reverse, IfOk, IfErr, IfSome, IsNone, IsTrue, MatchOption, OnOk};
ghost use Rattle.pp_tokens.specs.Tokens.{token_seen};
ghost use Rattle.macro_defs.specs.Table.{lookup};
ghost use Rattle.macro_expand.specs.Replacement.{unmarked};
ghost use Rattle.macro_expand.specs.Expansion.{Table, expanded_by};
ghost use Rattle.macro_expand.specs.Answered.{expanded_for, table_answerer};
ghost use Rattle.macro_expand.specs.declared.marked.Marked.{Marked as Kept};
ghost use Rattle.macro_expand.specs.Seen.{marked_of, kept_plain, place_of, GivesTokens, Stops, ReportsResult};
ghost use Rattle.macro_defs.specs.Runs.{run_tokens};
ghost use Rattle.macro_expand.specs.Stream.{to_come, at_hand, lent_tokens, FrontReady, DefinedReady, GivesNext, StandsAfter, StandsAfterAnswer};
ghost use Rattle.macro_expand.specs.parts.Steps.{StaysAsItIs, Becomes};
ghost use Rattle.macro_expand.specs.parts.Stamps.{Stamps, AllStamped};

use crate::answers::{Presumed, TablePlace};
use crate::expansion::{expand_head, public_error};
use crate::lent::Lent;
use crate::marked::Marked;
use crate::outcome::{ExpandError, Mode, RunError, Spelling, Work};
use crate::pending::Pending;
use base_types::List;
use macro_defs::{MacroTable, Run};
use pp_tokens::{Token, TokenCow, TokenRef};
use std::alloc::{AllocError, Global};
use std::marker::Model;

/// How an expansion stands: it goes on, it gave its last token, or it has an error, which for want of memory isn't copied.
#[derive(Debug, Drop)]
pub enum Standing {
    Going,
    Ended,
    Refused(ExpandError),
    NoMemory,
}

/// The expansion of a run of text under a table of macros (ISO C 6.10.3), which gives its tokens one after another, as [`expand`](crate::expand) does
/// all of them. The run is read where it stands, and what no macro touches is lent from there; a replacement's tokens are lent from the
/// macro's definition. So it takes memory for what macros put in, and for the arguments of the call that it reads.
#[derive(Drop)]
pub struct Expander<'a> {
    alloc: Global,
    table: &'a MacroTable,
    answers: TablePlace<'a>,
    mode: Mode,
    // The tokens that one step put out, the last first.
    ready: Vec<Marked<'a>>,
    pending: Pending<'a>,
    // The next stamp.
    stamps: u32,
    standing: Standing,
}

impl<'a> Model for Expander<'a> {
    ghost use Rattle.std.specs.Prelude.{reverse};
    ghost use Rattle.macro_expand.specs.Stream.{Stream};

    ghost Value = { Stream };

    ghost view = { λ e. record {
      table = e.table.now;
      here = e.answers.here.now;
      mode = e.mode;
      ready = reverse e.ready.items;
      pending = e.pending;
      standing = e.standing;
    } };

    ghost use Rattle.macro_expand.specs.parts.Stamps.{Stamps, AllStamped};
    ghost use Rattle.std.specs.Prelude.{◌≡◌};
    ghost use Rattle.macro_expand.specs.declared.stream.Standing.TheVariants.{Going};

    ghost invariant = { λ e. e.standing ≡ Going → (sets : Stamps) × AllStamped sets e.stamps e.pending };
}

impl<'a> Expander<'a> {
    /// The expansion of a run, before its first token. `here` says what `__FILE__` and `__LINE__` stand for (6.10.8.1); in
    /// `Mode::Condition` a `defined` and its operand are given as they are (6.10.1 paragraph 4).
    pub fn over(
        alloc: Global,
        table: &'a MacroTable,
        run: Run<'a>,
        here: &'a Presumed,
        mode: Mode,
    ) -> Expander<'a>
        ensures { result ≡ record {
          table = table.now;
          here = here.now;
          mode = mode;
          ready = [];
          pending = map kept_plain (run_tokens run.entry);
          standing = Standing.Going;
        } }
    {
        Expander {
            alloc,
            table,
            answers: TablePlace { here },
            mode,
            ready: Vec::new(alloc),
            pending: Pending::over(alloc, run),
            stamps: 1,
            standing: Standing::Going,
        }
    }

    /// The next token; `None` behind the last. A call asks for the units of work that the call before it left, and the tokens and the
    /// error are those of the expansion of the whole run with the units of the first call: those given are a prefix of its
    /// tokens, `None` comes exactly behind them, with the units that it leaves, and an error but `Memory` exactly where it has that
    /// error. `None` and `Memory` stay; another error stays or turns into `Memory`. There are never more tokens than those of the
    /// run and the units spent. How far ahead it reads is not told: to the end of a call's arguments.
    pub fn next(&mut self, work: &mut Work) -> Result<Option<TokenCow<'a>>, ExpandError>
        ensures gives { self.old.standing ≡ Standing.Going → IfOk result (λ o. GivesNext o self.old work.old.left self.new work.new.left) }
        ensures err { self.old.standing ≡ Standing.Going → IfErr result (λ e. ReportsResult e (to_come self.old work.old.left)) }
        ensures stands { StandsAfterAnswer self.old.standing result self.new.standing }
        ensures spends { work.new.left ≤ work.old.left }
        ensures few { IfOk result (λ o. IfSome o (λ t. at_hand self.new + work.new.left < at_hand self.old + work.old.left)) }
    {
        match self.lend() {
            Some(t) => Ok(Some(TokenCow::lent(t))),
            None => self.expand_next(work),
        }
    }

    /// The same, but a token that no macro touches isn't lent by a shorter way: for where [`lend`](Self::lend) just gave none.
    pub fn expand_next(&mut self, work: &mut Work) -> Result<Option<TokenCow<'a>>, ExpandError>
        ensures gives { self.old.standing ≡ Standing.Going → IfOk result (λ o. GivesNext o self.old work.old.left self.new work.new.left) }
        ensures err { self.old.standing ≡ Standing.Going → IfErr result (λ e. ReportsResult e (to_come self.old work.old.left)) }
        ensures stands { StandsAfterAnswer self.old.standing result self.new.standing }
        ensures spends { work.new.left ≤ work.old.left }
        ensures few { IfOk result (λ o. IfSome o (λ t. at_hand self.new + work.new.left < at_hand self.old + work.old.left)) }
    {
        match &self.standing {
            Standing::Going => self.go_on(work),
            Standing::Ended => Ok(None),
            Standing::NoMemory => Err(ExpandError::Memory),
            Standing::Refused(e) => match copied(self.alloc, e) {
                Ok(again) => Err(again),
                Err(_) => {
                    self.standing = Standing::NoMemory;
                    Err(ExpandError::Memory)
                }
            },
        }
    }

    /// The next token, where its spelling is lent and no macro touches it: `next` would give the same one, and leave the same. It takes no
    /// memory and no unit of work. `None` leaves everything as it is, and doesn't tell whether a token is to come.
    #[inline(always)]
    pub fn lend(&mut self) -> Option<TokenRef<'a>>
        ensures lends { IfSome result (λ t. FrontReady (token_seen t ∷ []) self.old self.new) }
        ensures none { IsNone result → self.new ≡ self.old }
        ensures same { self.new.standing ≡ self.old.standing }
        ensures going { IfSome result (λ t. self.old.standing ≡ Standing.Going) }
    {
        if !self.has_none_ready() {
            return None;
        }
        self.pending.take_untouched(self.table, self.mode)
    }

    /// The same for all tokens that are lent at once: `next` would give them one after another, and leave the same behind the last.
    #[inline(always)]
    pub fn lend_more(&mut self) -> Option<Lent<'a>>
        ensures lends { IfSome result (λ l. FrontReady (lent_tokens l) self.old self.new) }
        ensures none { IsNone result → self.new ≡ self.old }
        ensures same { self.new.standing ≡ self.old.standing }
        ensures going { IfSome result (λ l. self.old.standing ≡ Standing.Going) }
    {
        if !self.has_none_ready() {
            return None;
        }
        self.pending.lend(self.table, self.mode)
    }

    /// The name of a `defined` in a condition, where it and its operand are lent next: `next` would give their tokens one after another, and
    /// leave the same behind them (6.10.1 paragraph 4). `None` leaves everything as it is, and doesn't tell what is to come.
    pub fn lend_defined(&mut self) -> Option<TokenRef<'a>>
        ensures lends { IfSome result (λ name. DefinedReady (token_seen name) self.old self.new) }
        ensures none { IsNone result → self.new ≡ self.old }
        ensures same { self.new.standing ≡ self.old.standing }
        ensures going { IfSome result (λ name. self.old.standing ≡ Standing.Going) }
    {
        if !self.has_none_ready() || !is_condition(self.mode) {
            return None;
        }
        self.pending.take_defined()
    }

    // Whether the expansion goes on, and nothing that was put out is still to be given.
    #[inline(always)]
    fn has_none_ready(&self) -> bool
        ensures { IsTrue result → (self.now.standing ≡ Standing.Going) × (self.now.ready ≡ []) }
    {
        matches!(self.standing, Standing::Going) && self.ready.is_empty()
    }

    // The next token of an expansion that goes on.
    fn go_on(&mut self, work: &mut Work) -> Result<Option<TokenCow<'a>>, ExpandError>
        requires { self.old.standing ≡ Standing.Going }
        ensures gives { IfOk result (λ o. GivesNext o self.old work.old.left self.new work.new.left) }
        ensures err { IfErr result (λ e. ReportsResult e (to_come self.old work.old.left)) }
        ensures stands { StandsAfterAnswer Standing.Going result self.new.standing }
        ensures spends { work.new.left ≤ work.old.left }
        ensures few { IfOk result (λ o. IfSome o (λ t. at_hand self.new + work.new.left < at_hand self.old + work.old.left)) }
    {
        match self.ready.pop() {
            Some(m) => Ok(Some(m.bare())),
            None => self.step(work),
        }
    }

    // Takes steps until one puts out tokens, and gives the first of them.
    #[inline(always)]
    fn step(&mut self, work: &mut Work) -> Result<Option<TokenCow<'a>>, ExpandError>
        requires going { self.old.standing ≡ Standing.Going }
        requires empty { self.old.ready ≡ [] }
        ensures gives { IfOk result (λ o. GivesNext o self.old work.old.left self.new work.new.left) }
        ensures err { IfErr result (λ e. ReportsResult e (to_come self.old work.old.left)) }
        ensures stands { StandsAfterAnswer Standing.Going result self.new.standing }
        ensures spends { work.new.left ≤ work.old.left }
        ensures few { IfOk result (λ o. IfSome o (λ t. at_hand self.new + work.new.left < at_hand self.old + work.old.left)) }
    {
        match advance(
            self.alloc,
            self.table,
            &mut self.answers,
            self.mode,
            &mut self.ready,
            &mut self.pending,
            &mut self.stamps,
            work,
        ) {
            Ok(Some(m)) => Ok(Some(m.bare())),
            Ok(None) => {
                self.standing = Standing::Ended;
                Ok(None)
            }
            Err(e) => {
                let e = public_error(e);
                self.standing = standing_after(self.alloc, &e);
                Err(e)
            }
        }
    }
}

fn is_condition(mode: Mode) -> bool
    ensures { IsTrue result → mode ≡ Mode.Condition }
{
    matches!(mode, Mode::Condition)
}

// Whether a token is put out as it is, whatever its table: it is no identifier.
#[tactic(auto, unfolding(crate::specs::Expansion::head_role))]
#[inline(always)]
fn stays(t: &Marked) -> bool
    ensures { IsTrue result → (table : Table) (mode : Mode) (rest : List Kept) → StaysAsItIs table mode t.now rest }
{
    !t.token.is_identifier()
}

// Takes the first of the tokens that a step put out, and turns the others round.
fn first_of<'s>(out: &mut Vec<Marked<'s>>) -> Option<Marked<'s>>
    ensures { MatchOption result ((out.old.items ≡ []) × (out.new.items ≡ [])) (λ t. out.old.items ≡ t ∷ reverse out.new.items) }
{
    out.reverse();
    out.pop()
}

// Steps, until one puts out tokens: the first of them; the others are in `out`, the last first. Most tokens of a text are
// put out as they are, so they take the short way.
fn advance<'s>(
    alloc: Global,
    table: &'s MacroTable,
    answers: &mut TablePlace<'s>,
    mode: Mode,
    out: &mut Vec<Marked<'s>>,
    pending: &mut Pending<'s>,
    stamps: &mut u32,
    work: &mut Work,
) -> Result<Option<Marked<'s>>, RunError>
    requires empty { out.old.items ≡ [] }
    requires stamped { (sets : Stamps) × AllStamped sets stamps.old pending.old }
    ensures stamped { IfOk result (λ o. (sets : Stamps) × AllStamped sets stamps.new pending.new) }
    ensures some { IfOk result (λ o. IfSome o (λ t. Becomes (lookup table.now) answers.old mode work.old.left pending.old
        (t ∷ reverse out.new.items) answers.new work.new.left pending.new)) }
    ensures none { IfOk result (λ o. IsNone o → Becomes (lookup table.now) answers.old mode work.old.left pending.old [] answers.new work.new.left []) }
    ensures few { IfOk result (λ o. IfSome o (λ t. length out.new.items + length pending.new + work.new.left < length pending.old + work.old.left)) }
    ensures spends { work.new.left ≤ work.old.left }
    ensures err { IfErr result (λ e. Stops e answers.new
        (expanded_for (table_answerer (λ s. lookup table.now) (λ s. place_of s.here.now)) answers.old mode 0 work.old.left (map marked_of pending.old))) }
{
    while let Some(t) = pending.pop() {
        if stays(&t) {
            return Ok(Some(t));
        }
        expand_head(
            alloc, table, answers, mode, 0, t, out, pending, stamps, work,
        )?;
        if let Some(first) = first_of(out) {
            return Ok(Some(first));
        }
    }
    Ok(None)
}

// A copy of an error that has one; want of memory has none.
fn copied(alloc: Global, e: &ExpandError) -> Result<ExpandError, AllocError>
    ensures { IfOk result (λ c. (c ≡ e.now) × ((e.now ≡ ExpandError.Memory) → ⊥)) }
{
    Ok(match e {
        ExpandError::Count { name, line } => ExpandError::Count {
            name: Spelling::copy_of(alloc, name.as_slice())?,
            line: *line,
        },
        ExpandError::Unclosed { name, line } => ExpandError::Unclosed {
            name: Spelling::copy_of(alloc, name.as_slice())?,
            line: *line,
        },
        ExpandError::Paste { left, right, line } => ExpandError::Paste {
            left: Spelling::copy_of(alloc, left.as_slice())?,
            right: Spelling::copy_of(alloc, right.as_slice())?,
            line: *line,
        },
        ExpandError::Deep { line } => ExpandError::Deep { line: *line },
        ExpandError::Work => ExpandError::Work,
        ExpandError::Memory => return Err(AllocError),
    })
}

// How an expansion stands after an error.
fn standing_after(alloc: Global, e: &ExpandError) -> Standing
    ensures { StandsAfter e.now result }
{
    match copied(alloc, e) {
        Ok(kept) => Standing::Refused(kept),
        Err(_) => Standing::NoMemory,
    }
}

/// The tokens that a list of tokens becomes under a table of macros (ISO C 6.10.3), each with the white space of what it
/// stands for. `here` says what `__FILE__` and `__LINE__` stand for (6.10.8.1); in `Mode::Condition` a `defined` and its operand are put
/// out as they are (6.10.1 paragraph 4). Each replacement takes its units from `work`: one, and one for each token that it puts in.
/// Reading a call, its arguments from left to right, its pastes and then its own units come in this order, and the first error ends
/// the expansion: `Unclosed`, `Count`, `Deep`, `Paste` or `Work`, each exactly where `ExpandError` says, or `Memory`.
pub fn expand(
    alloc: Global,
    table: &MacroTable,
    run: &[Token],
    here: &Presumed,
    mode: Mode,
    work: &mut Work,
) -> Result<List<Token>, ExpandError>
    ensures ok { IfOk result (λ out. GivesTokens (expanded_by (lookup table.now) (place_of here.now) mode 0 work.old.left (map unmarked run.now))
        out work.new.left) }
    ensures spends { work.new.left ≤ work.old.left }
    ensures err { IfErr result (λ e. ReportsResult e
        (expanded_by (lookup table.now) (place_of here.now) mode 0 work.old.left (map unmarked run.now))) }
{
    let mut stream = Expander::over(alloc, table, Run::Listed(run), here, mode);
    let mut out = Vec::new(alloc);
    while let Some(t) = stream.next(work)? {
        keep(alloc, &mut out, t)?;
    }
    Ok(List::of(out))
}

// Puts a token behind others, with a spelling of its own.
fn keep(alloc: Global, out: &mut Vec<Token>, t: TokenCow) -> Result<(), ExpandError>
    ensures ok { OnOk result (out.new.items ≡ out.old.items ++ t.entry ∷ []) }
    ensures err { IfErr result (λ e. e ≡ ExpandError.Memory) }
{
    match owned(alloc, out, t) {
        Ok(()) => Ok(()),
        Err(_) => Err(ExpandError::Memory),
    }
}

fn owned(alloc: Global, out: &mut Vec<Token>, t: TokenCow) -> Result<(), AllocError>
    ensures { OnOk result (out.new.items ≡ out.old.items ++ t.entry ∷ []) }
{
    let token = t.to_token(alloc)?;
    out.push(token)?;
    Ok(())
}
