// The tokens that are still to be expanded.
ghost use Rattle.std.specs.Prelude.{◌≡◌, ℕ, ◌+◌, ◌<◌, ◌≤◌, ◌++◌, ◌∷◌, [], List, map, take, length, reverse, slice_get, Some, None, bytes_eq, codes, false, OnOk, IfErr, IsTrue, IsFalse, IsNone, IfSome, MatchOption};
ghost use Rattle.std.specs.Option.{option_map};
ghost use Rattle.pp_tokens.specs.Tokens.{token_seen, rest_of};
ghost use Rattle.macro_defs.specs.Table.{lookup};
ghost use Rattle.macro_expand.specs.declared.marked.Marked.{Marked as Kept};
ghost use Rattle.macro_expand.specs.Replacement.{after_open};
ghost use Rattle.macro_expand.specs.Stream.{lent_tokens};
ghost use Rattle.macro_expand.specs.parts.Steps.{IsUntouched, EachUntouched, TakesUntouched, TakesEach, TakesDefined};
ghost use Rattle.macro_defs.specs.Runs.{run_tokens};
ghost use Rattle.macro_expand.specs.Seen.{marked_of, kept_plain, kept_token};
ghost use Rattle.macro_expand.specs.parts.Placing.{lent_in};
ghost use Rattle.macro_expand.specs.parts.Stamps.{Stamps, AllStamped};

use crate::hide_set::HideSet;
use crate::lent::Lent;
use crate::marked::Marked;
use crate::operand::defined_name;
use crate::outcome::{Mode, RunError};
use crate::placing::lend_before;
use crate::run;
use macro_defs::{MacroTable, Run};
use pp_tokens::{TokenCow, TokenRef, Tokens};
use std::alloc::Global;
use std::marker::Model;

// What was put in, the last token first, and what is left of the run behind it, which is read where it stands.
#[derive(Drop)]
pub(crate) struct Pending<'a> {
    made: Vec<Marked<'a>>,
    run: Run<'a>,
}

impl<'a> Model for Pending<'a> {
    ghost use Rattle.std.specs.Prelude.{List, map, reverse, ◌++◌};
    ghost use Rattle.macro_expand.specs.declared.marked.Marked.{Marked};
    ghost use Rattle.macro_defs.specs.Runs.{run_tokens};
    ghost use Rattle.macro_expand.specs.Seen.{kept_plain};

    ghost Value = { List Marked };

    ghost view = { λ p. reverse p.made.items ++ map kept_plain (run_tokens p.run) };
}

impl<'a> Pending<'a> {
    // The tokens of a run, none of them with a hidden name.
    pub(crate) fn over(alloc: Global, run: Run<'a>) -> Pending<'a>
        ensures { result ≡ map kept_plain (run_tokens run.entry) }
    {
        Pending {
            made: Vec::new(alloc),
            run,
        }
    }

    pub(crate) fn of(mut made: Vec<Marked<'a>>) -> Pending<'a>
        ensures { result ≡ made.entry.items }
    {
        made.reverse();
        Pending {
            made,
            run: Run::Listed(&[]),
        }
    }

    // Takes the first token.
    #[inline(always)]
    pub(crate) fn pop(&mut self) -> Option<Marked<'a>>
        ensures first { MatchOption result ((self.old ≡ []) × (self.new ≡ [])) (λ t. self.old ≡ t ∷ self.new) }
        ensures len { IfSome result (λ t. length self.new + 1 ≡ length self.old) }
    {
        if let Some(t) = pop_first(&mut self.made) {
            return Some(t);
        }
        let token = self.run.next()?;
        Some(Marked::plain(TokenCow::lent(token)))
    }

    // Takes the first token where its spelling is lent and no macro touches it; else nothing changes.
    #[inline(always)]
    pub(crate) fn take_untouched(&mut self, table: &MacroTable, mode: Mode) -> Option<TokenRef<'a>>
        ensures taken { IfSome result (λ t. TakesUntouched (lookup table.now) mode (token_seen t) self.old self.new) }
        ensures none { IsNone result → self.new ≡ self.old }
    {
        if !has_none(&self.made) {
            return take_made(&mut self.made, table, mode);
        }
        let mut behind = self.run;
        let token = behind.next()?;
        if !is_untouched(table, mode, &token) {
            return None;
        }
        self.run = behind;
        Some(token)
    }

    // Takes what no macro touches at the front and is lent at once; else nothing changes.
    #[inline(always)]
    pub(crate) fn lend(&mut self, table: &MacroTable, mode: Mode) -> Option<Lent<'a>>
        ensures taken { IfSome result (λ l. TakesEach (lookup table.now) mode (lent_tokens l) self.old self.new × (0 < length (lent_tokens l))) }
        ensures none { IsNone result → self.new ≡ self.old }
    {
        if !has_none(&self.made) {
            let token = take_made(&mut self.made, table, mode)?;
            return Some(Lent::Token(token));
        }
        let tokens = take_stretch(&mut self.run, table, mode)?;
        Some(Lent::Stretch(tokens))
    }

    // Takes a `defined` and its operand, where they stand first in the run, and answers the name; else nothing changes.
    pub(crate) fn take_defined(&mut self) -> Option<TokenRef<'a>>
        ensures taken { IfSome result (λ name. TakesDefined (token_seen name) self.old self.new) }
        ensures none { IsNone result → self.new ≡ self.old }
    {
        if !has_none(&self.made) {
            return None;
        }
        let mut behind = self.run;
        let name = defined_name(&mut behind)?;
        self.run = behind;
        Some(name)
    }

    // The token at a place; none behind the last.
    pub(crate) fn get(&self, place: usize) -> Option<TokenRef<'_>>
        ensures { option_map token_seen result ≡ option_map kept_token (slice_get self.now place) }
    {
        let count = self.made.len();
        if place < count {
            return Some(self.made[count - 1 - place].token.as_ref());
        }
        run::get(self.run, place - count)
    }

    // Takes the `(` that the tokens begin with.
    pub(crate) fn take_open(&mut self) -> bool
        ensures opened { IsTrue result → after_open (map marked_of self.old) ≡ Some (map marked_of self.new) }
        ensures shorter { length self.new ≤ length self.old }
        ensures stamped { (sets : Stamps) (next : ℕ) → AllStamped sets next self.old → AllStamped sets next self.new }
        ensures not_opened { IsFalse result → (after_open (map marked_of self.old) ≡ None) × (self.new ≡ self.old) }
    {
        match self.get(0) {
            None => return false,
            Some(t) => {
                if !t.is_mark(b"(".as_slice()) {
                    return false;
                }
            }
        }
        self.pop();
        true
    }

    // Puts the tokens of a replacement list before the others, lent, as they are put in for `t`.
    pub(crate) fn put_lent(
        &mut self,
        t: &TokenCow,
        hidden: &HideSet,
        stamp: u32,
        body: Run<'a>,
    ) -> Result<(), RunError>
        ensures ok { OnOk result (self.new ≡ lent_in t.now hidden.now stamp (run_tokens body.entry) ++ self.old) }
        ensures err { IfErr result (λ e. e ≡ RunError.Memory) }
    {
        match lend_before(&mut self.made, t, hidden, stamp, body) {
            Ok(()) => Ok(()),
            Err(_) => Err(RunError::Memory),
        }
    }

    // Puts tokens before the others.
    #[inline(always)]
    pub(crate) fn put_back(&mut self, made: Vec<Marked<'a>>) -> Result<(), RunError>
        ensures ok { OnOk result (self.new ≡ made.entry.items ++ self.old) }
        ensures err { IfErr result (λ e. e ≡ RunError.Memory) }
    {
        put_before(&mut self.made, made)
    }
}

// Whether a name is `__FILE__` or `__LINE__`; their length alone tells most others.
#[inline(always)]
pub(crate) fn is_place(name: &[u8]) -> bool
    ensures { IsFalse result → (bytes_eq name.now (codes "__FILE__") ≡ false) × (bytes_eq name.now (codes "__LINE__") ≡ false) }
{
    if name.len() != 8 {
        return false;
    }
    name == b"__FILE__".as_slice() || name == b"__LINE__".as_slice()
}

// Whether a token is put out as it is under a table, whatever its hide set and what stands behind it. It isn't known of `defined`
// in a condition.
#[tactic(auto, unfolding(crate::specs::Expansion::head_role))]
#[inline(always)]
fn is_untouched(table: &MacroTable, mode: Mode, t: &TokenRef) -> bool
    ensures { IsTrue result → IsUntouched (lookup table.now) mode (token_seen t.now) }
{
    if !t.is_identifier() {
        return true;
    }
    if matches!(mode, Mode::Condition) && t.text == b"defined".as_slice() {
        return false;
    }
    if is_place(t.text) {
        return false;
    }
    table.get(t.text).is_none()
}

// How many tokens at the front no macro touches.
fn count_untouched(table: &MacroTable, mode: Mode, tokens: Tokens<'_>) -> usize
    ensures untouched { EachUntouched (lookup table.now) mode (take result (rest_of tokens.entry)) }
    ensures within { result ≤ length (rest_of tokens.entry) }
{
    let mut count = 0usize;
    for token in tokens {
        if !is_untouched(table, mode, &token) {
            return count;
        }
        count += 1;
    }
    count
}

// Takes the tokens that no macro touches at the front of a run, where it lies in a file and has any; else nothing changes.
#[inline(always)]
fn take_stretch<'a>(run: &mut Run<'a>, table: &MacroTable, mode: Mode) -> Option<Tokens<'a>>
    ensures taken { IfSome result (λ ts. (run_tokens run.old ≡ rest_of ts ++ run_tokens run.new) × EachUntouched (lookup table.now) mode (rest_of ts)) }
    ensures some { IfSome result (λ ts. 0 < length (rest_of ts)) }
    ensures none { IsNone result → run.new ≡ run.old }
{
    match run {
        Run::Listed(_) => None,
        Run::Lexed(tokens) => {
            let count = count_untouched(table, mode, *tokens);
            if count == 0 {
                return None;
            }
            let (front, behind) = tokens.split_at(count);
            *tokens = behind;
            Some(front)
        }
    }
}

// Whether no token that was put in is left.
#[inline(always)]
fn has_none(made: &Vec<Marked>) -> bool
    ensures { IsTrue result → made.now.items ≡ [] }
{
    made.is_empty()
}

// Takes the first of the tokens that were put in where its spelling is lent and no macro touches it; else nothing changes.
#[inline(always)]
fn take_made<'a>(made: &mut Vec<Marked<'a>>, table: &MacroTable, mode: Mode) -> Option<TokenRef<'a>>
    ensures taken { IfSome result (λ t. (rest : List Kept) → TakesUntouched (lookup table.now) mode (token_seen t) (reverse made.old.items ++ rest) (reverse made.new.items ++ rest)) }
    ensures none { IsNone result → made.new.items ≡ made.old.items }
{
    let token = made.last()?.token.as_lent()?;
    if !is_untouched(table, mode, &token) {
        return None;
    }
    made.pop();
    Some(token)
}

// Takes the first of the tokens that were put in.
#[inline(always)]
fn pop_first<'a>(made: &mut Vec<Marked<'a>>) -> Option<Marked<'a>>
    ensures { MatchOption result ((made.old.items ≡ []) × (made.new.items ≡ [])) (λ t. reverse made.old.items ≡ t ∷ reverse made.new.items) }
{
    made.pop()
}

// Puts tokens before others.
#[inline(always)]
fn put_before<'a>(pending: &mut Vec<Marked<'a>>, mut made: Vec<Marked<'a>>) -> Result<(), RunError>
    ensures ok { OnOk result (reverse pending.new.items ≡ made.entry.items ++ reverse pending.old.items) }
    ensures err { IfErr result (λ e. e ≡ RunError.Memory) }
{
    made.reverse();
    if pending.is_empty() {
        *pending = made;
        return Ok(());
    }
    match pending.append(&mut made) {
        Ok(()) => Ok(()),
        Err(_) => Err(RunError::Memory),
    }
}
