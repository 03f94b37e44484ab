// The replacement of one macro call (ISO C 6.10.3.1 to 6.10.3.3).
ghost use Rattle.std.specs.Prelude.{◌≡◌, ◌≤◌, ◌<◌, ℕ, List, true, Some, None, Ok, Err, map, length, get_or, false, ◌++◌, ◌∷◌, [], ◌&&◌, if◌then◌else◌, IfOk, IfErr, OnOk, MatchOption};
ghost use Rattle.macro_defs.specs.MacroDefinition.{without_line, has_operators};
ghost use Rattle.macro_defs.specs.declared.definition.Shape.TheVariants.{Object};
ghost use Rattle.macro_defs.specs.Arguments.{parameters_in};
ghost use Rattle.pp_tokens.specs.Marks.{is_pasting};
ghost use Rattle.macro_expand.specs.Replacement.{parts_after, body_parts, one_joins, stands_alone, object_parts, is_join, first_body_part, with_name, common_names, replacement, pieces_of, joins_made};
ghost use Rattle.macro_expand.specs.parts.Parts.{operand_part, body_part, begins_spelling, object_part, joins, Marks, parts_told};
ghost use Rattle.std.specs.List.{list_any};
ghost use Rattle.macro_expand.specs.parts.Pieces.{arguments_seen};
ghost use Rattle.macro_expand.specs.Sets.{names_in};
ghost use Rattle.macro_expand.specs.Expansion.{object_replacement, variable_of};
ghost use Rattle.macro_expand.specs.Seen.{marked_of, lists_of, part_seen, parts_seen, Reports, ReportsPaste, call_replaced_by};
ghost use Rattle.macro_expand.specs.parts.Stamps.{Alike, AllAlike, EachAlike, AllFresh, ArePutIn};

use crate::call::{ReadCall, take_written};
use crate::hide_set::HideSet;
use crate::marked::Marked;
use crate::outcome::RunError;
use crate::paste::join_pieces;
use crate::pieces::{Arguments, read_pieces, read_tokens};
use crate::placing::{Stamping, put_in_for};
use crate::token_parts::TokenParts;
use base_types::Bytes;
use macro_defs::{Definition, Run};
use pp_tokens::Token;
use std::alloc::{AllocError, Global};

// What a token of a replacement list stands for: itself, the argument of a number with the space of its parameter, the
// spelling of one (`#`), or a join (`##`).
#[derive(Clone, Copy, Drop)]
pub(crate) enum Part<'d> {
    Plain(&'d Token),
    Argument(usize, bool),
    Spelling(usize, bool),
    Join,
}

// The parts of a function-like macro's replacement list: a list of them where it has a `#` or a `##`, else its tokens.
#[derive(Drop)]
pub(crate) enum Parts<'d> {
    Listed(Vec<Part<'d>>),
    Tokens(TokenParts<'d>),
}

impl<'d> Parts<'d> {
    ghost use Rattle.std.specs.Prelude.{◌≡◌, ◌<◌, [], ℕ, true, false, None, length, get_or, IfOk};
    ghost use Rattle.std.specs.List.{list_any};
    ghost use Rattle.macro_defs.specs.declared.definition.Shape.TheVariants.{Object};
    ghost use Rattle.macro_defs.specs.Arguments.{parameters_in};
    ghost use Rattle.macro_expand.specs.Replacement.{body_parts, stands_alone};
    ghost use Rattle.macro_expand.specs.parts.Parts.{parts_told, takes_written, joins};

    pub(crate) fn of(alloc: Global, d: &'d Definition) -> Result<Parts<'d>, AllocError>
        requires { d.now.shape ≡ Object → ⊥ }
        ensures { IfOk result (λ parts. parts_told parts ≡ body_parts (parameters_in d.now.shape) d.now.body) }
    {
        if d.has_operators() {
            return Ok(Parts::Listed(read_parts(alloc, d)?));
        }
        Ok(Parts::Tokens(TokenParts::of(d)))
    }

    // For each argument, whether it stands somewhere beside no `##`, so that it is expanded by itself (6.10.3.1).
    pub(crate) fn standing_alone(
        &self,
        alloc: Global,
        count: usize,
    ) -> Result<Vec<bool>, AllocError>
        ensures length { IfOk result (λ alone. length alone.items ≡ count) }
        ensures each { IfOk result (λ alone. (i : ℕ) → i < count → get_or alone.items i false ≡ stands_alone i None (parts_told self.now)) }
    {
        match self {
            Parts::Listed(parts) => standing_alone(alloc, parts.as_slice(), count),
            Parts::Tokens(parts) => parts.standing_alone(alloc, count),
        }
    }

    // Whether the list is empty.
    fn are_none(&self) -> bool
        ensures { result ≡ true → parts_told self.now ≡ [] }
    {
        match self {
            Parts::Listed(parts) => parts.is_empty(),
            Parts::Tokens(parts) => parts.are_none(),
        }
    }

    // Whether an argument is needed as it is written.
    pub(crate) fn take_written(&self) -> bool
        ensures { result ≡ list_any takes_written (parts_told self.now) }
    {
        match self {
            Parts::Listed(parts) => take_written(parts.as_slice()),
            Parts::Tokens(_) => false,
        }
    }

    // Whether there is a `##`.
    fn have_join(&self) -> bool
        ensures { result ≡ list_any joins (parts_told self.now) }
    {
        match self {
            Parts::Listed(parts) => have_join(parts.as_slice()),
            Parts::Tokens(_) => false,
        }
    }
}

// What a token that is no join stands for, by the parameter that it names.
fn operand_at<'d>(hash: Option<bool>, t: &'d Token, parameter: Option<usize>) -> Part<'d>
    ensures { part_seen result ≡ operand_part hash (without_line t.now) parameter }
{
    let Some(i) = parameter else {
        return Part::Plain(t);
    };
    match hash {
        Some(space) => Part::Spelling(i, space),
        None => Part::Argument(i, t.space),
    }
}

// What a token stands for that no `#` stands before.
fn unhashed_part<'d>(t: &'d Token, parameter: Option<usize>) -> Part<'d>
    ensures { part_seen result ≡ body_part None (without_line t.now) parameter }
{
    if t.is_pasting() {
        return Part::Join;
    }
    operand_at(None, t, parameter)
}

// What a token of a function-like macro's replacement list stands for, by the parameter that it names; `hash` is the space of
// a `#` right before it.
fn part_at<'d>(hash: Option<bool>, t: &'d Token, parameter: Option<usize>) -> Part<'d>
    ensures { part_seen result ≡ body_part hash (without_line t.now) parameter }
{
    match hash {
        None => unhashed_part(t, parameter),
        Some(space) => operand_at(Some(space), t, parameter),
    }
}

// Whether a token is a `#` that no other stands right before.
fn begins_spelling(hash: Option<bool>, t: &Token) -> bool
    ensures { result ≡ begins_spelling hash t.now }
{
    match hash {
        None => t.is_hash(),
        Some(_) => false,
    }
}

// The parts of a function-like macro's replacement list, with `##` several times in a row as one.
fn read_parts<'d>(alloc: Global, d: &'d Definition) -> Result<Vec<Part<'d>>, AllocError>
    requires { has_operators d.now.shape d.now.body ≡ true }
    ensures { IfOk result (λ parts. parts_seen parts.items ≡ body_parts (parameters_in d.now.shape) d.now.body) }
{
    let Run::Listed(body) = d.body() else {
        unreachable!()
    };
    let mut parts = Vec::with_capacity(alloc, body.len())?;
    let mut hash = None;
    let mut joined = false;
    for (place, t) in body.iter().enumerate() {
        if begins_spelling(hash, t) {
            hash = Some(t.space);
        } else {
            let p = part_at(hash, t, d.parameter_at(place));
            put_part(&mut parts, joined, p)?;
            joined = is_join(&p);
            hash = None;
        }
    }
    Ok(parts)
}

// Adds a part, unless it is a join right behind another.
fn put_part<'d>(parts: &mut Vec<Part<'d>>, joined: bool, p: Part<'d>) -> Result<(), AllocError>
    ensures { OnOk result (parts_seen parts.new.items ≡ parts_seen parts.old.items ++ (if (joined && is_join (Some (part_seen p.entry))) then [] else (part_seen p.entry ∷ []))) }
{
    let again = joined && is_join(&p);
    if again {
        return Ok(());
    }
    parts.push(p)?;
    Ok(())
}

// What a token of an object-like macro's replacement list stands for.
fn object_part(t: &Token) -> Part
    ensures { part_seen result ≡ object_part (without_line t.now) }
{
    if t.is_pasting() {
        Part::Join
    } else {
        Part::Plain(t)
    }
}

// The parts of an object-like macro's replacement list.
fn read_object_parts<'d>(alloc: Global, body: &'d [Token]) -> Result<Vec<Part<'d>>, AllocError>
    ensures { IfOk result (λ parts. parts_seen parts.items ≡ object_parts (map without_line body.now)) }
{
    let mut parts = Vec::with_capacity(alloc, body.len())?;
    for t in body {
        parts.push(object_part(t))?;
    }
    Ok(parts)
}

// Whether a part is a `##`.
fn is_join(p: &Part) -> bool
    ensures { result ≡ is_join (Some (part_seen p.now)) }
{
    matches!(p, Part::Join)
}

// Whether `##` stands first.
pub(crate) fn begins_with_join(parts: &[Part]) -> bool
    ensures { result ≡ is_join (first_body_part (parts_seen parts.now)) }
{
    matches!(parts, [Part::Join, ..])
}

// Marks the argument that a part is, where it stands beside no `##`; `joined` says that one stands before it.
fn mark_alone(alone: &mut Vec<bool>, joined: bool, p: &Part, rest: &[Part])
    ensures { Marks alone.old.items alone.new.items joined (part_seen p.now) (parts_seen rest.now) }
{
    if let Part::Argument(i, _) = p
        && !joined
        && !begins_with_join(rest)
        && *i < alone.len()
    {
        alone[*i] = true;
    }
}

// For each argument, whether it stands somewhere beside no `##`, so that it is expanded by itself (6.10.3.1).
fn standing_alone(alloc: Global, parts: &[Part], count: usize) -> Result<Vec<bool>, AllocError>
    ensures length { IfOk result (λ alone. length alone.items ≡ count) }
    ensures each { IfOk result (λ alone. (i : ℕ) → i < count → get_or alone.items i false ≡ stands_alone i None (parts_seen parts.now)) }
{
    let mut alone = vec![in alloc; false; count]?;
    let mut joined = false;
    for (k, p) in parts.iter().enumerate() {
        let (_, rest) = parts.split_at(k + 1);
        mark_alone(&mut alone, joined, p, rest);
        joined = is_join(p);
    }
    Ok(alone)
}

// The number of the variable argument, where the macro has one.
pub(crate) fn variable_number(params: &[Bytes], variadic: bool) -> Option<usize>
    ensures { result ≡ variable_of params.now variadic }
{
    if variadic {
        Some(params.len().saturating_sub(1))
    } else {
        None
    }
}

// Whether there is a `##` among the parts.
fn have_join(parts: &[Part]) -> bool
    ensures { result ≡ list_any joins (parts_seen parts.now) }
{
    for p in parts {
        if is_join(p) {
            return true;
        }
    }
    false
}

// What the parts of a replacement list make of the arguments.
fn made_of<'d>(
    alloc: Global,
    t: &Marked,
    parts: &Parts<'d>,
    joined: bool,
    arguments: &Arguments<'_, 'd>,
) -> Result<Vec<Marked<'d>>, RunError>
    requires { joined ≡ list_any joins (parts_told parts.now) }
    ensures alike { joined ≡ false → EachAlike t.now arguments.now.expanded.now → IfOk result (λ ts. AllAlike t.now ts.items) }
    ensures ok { IfOk result (λ ts. joins_made None false (pieces_of (arguments_seen arguments.now) None (parts_told parts.now)) ≡ Ok (map marked_of ts.items)) }
    ensures err { IfErr result (λ e. ReportsPaste e t.now.token.line
        (joins_made None false (pieces_of (arguments_seen arguments.now) None (parts_told parts.now)))) }
{
    match parts {
        Parts::Listed(parts) => made_of_list(alloc, t, parts.as_slice(), joined, arguments),
        Parts::Tokens(parts) => {
            let made = parts.made(alloc, arguments)?;
            Ok(made)
        }
    }
}

// What a list of parts makes of the arguments: its tokens, or where there is a `##`, its pieces joined.
fn made_of_list<'d>(
    alloc: Global,
    t: &Marked,
    parts: &[Part<'d>],
    joined: bool,
    arguments: &Arguments<'_, 'd>,
) -> Result<Vec<Marked<'d>>, RunError>
    requires { joined ≡ list_any joins (parts_seen parts.now) }
    ensures alike { joined ≡ false → EachAlike t.now arguments.now.expanded.now → IfOk result (λ ts. AllAlike t.now ts.items) }
    ensures ok { IfOk result (λ ts. joins_made None false (pieces_of (arguments_seen arguments.now) None (parts_seen parts.now)) ≡ Ok (map marked_of ts.items)) }
    ensures err { IfErr result (λ e. ReportsPaste e t.now.token.line
        (joins_made None false (pieces_of (arguments_seen arguments.now) None (parts_seen parts.now)))) }
{
    if joined {
        let pieces = read_pieces(alloc, parts, arguments)?;
        return join_pieces(alloc, t, pieces);
    }
    let made = read_tokens(alloc, parts, arguments)?;
    Ok(made)
}

// What a name is replaced by, over the parts of its replacement list and its arguments: what they make, put in.
fn replaced<'d>(
    alloc: Global,
    t: &Marked,
    hidden: &HideSet,
    stamping: Stamping,
    parts: &Parts<'d>,
    arguments: &Arguments<'_, 'd>,
) -> Result<Vec<Marked<'d>>, RunError>
    requires head { (stamping.head ≡ 0 → ⊥) → (stamping.head ≡ t.now.stamp) × ((n : List ℕ) → names_in t.now.hidden n ≡ true → names_in hidden.now n ≡ true) }
    requires alike { EachAlike t.now arguments.now.expanded.now }
    ensures fresh { IfOk result (λ ts. AllFresh stamping.made hidden.now ts.items) }
    ensures ok { IfOk result (λ ts. replacement t.now.token (names_in hidden.now) (parts_told parts.now) (arguments_seen arguments.now)
        ≡ Ok (map marked_of ts.items)) }
    ensures err { IfErr result (λ e. Reports e
        (replacement t.now.token (names_in hidden.now) (parts_told parts.now) (arguments_seen arguments.now))) }
{
    let joined = parts.have_join();
    let made = made_of(alloc, t, parts, joined, arguments)?;
    // What is known of the stamps of arguments isn't kept where tokens are joined.
    let stamping = Stamping {
        head: if joined { 0 } else { stamping.head },
        made: stamping.made,
    };
    let out = put_in_for(alloc, &t.token, hidden, stamping, made)?;
    Ok(out)
}

// The names that an object-like macro's replacement hides: those of its name, and itself (6.10.3.4).
pub(crate) fn hidden_by_name(alloc: Global, t: &Marked) -> Result<HideSet, AllocError>
    ensures { IfOk result (λ h. (n : List ℕ) → names_in h n ≡ with_name t.now.token.text (names_in t.now.hidden) n) }
{
    t.hidden.with(alloc, t.token.text())
}

// The names that a call's replacement hides: those that its name and its `)` both hide, and itself (6.10.3.4).
fn hidden_by_call(alloc: Global, t: &Marked, close: &Marked) -> Result<HideSet, AllocError>
    requires { Alike t.now close.now }
    ensures { IfOk result (λ h. (n : List ℕ) → names_in h n
        ≡ with_name t.now.token.text (common_names (names_in t.now.hidden) (names_in close.now.hidden)) n) }
{
    // Mostly both were put in by one replacement.
    if t.stamp != 0 && close.stamp == t.stamp {
        return t.hidden.with(alloc, t.token.text());
    }
    let common = t.hidden.common(alloc, &close.hidden)?;
    common.with(alloc, t.token.text())
}

// Whether there is a `##` in a body.
fn has_pasting(body: &[Token]) -> bool
    ensures { result ≡ list_any is_pasting (map without_line body.now) }
{
    for t in body {
        if t.is_pasting() {
            return true;
        }
    }
    false
}

// The replacement list, where it has a `##`.
#[inline(always)]
pub(crate) fn with_pasting<'d>(d: &'d Definition) -> Option<&'d [Token]>
    ensures { MatchOption result (list_any is_pasting d.now.body ≡ false) (λ body. map without_line body.now ≡ d.now.body) }
{
    match d.body() {
        Run::Listed(body) => { if has_pasting(body) { Some(body) } else { None } }
        Run::Lexed(_) => None,
    }
}

// What the name of an object-like macro is replaced by that has a `##`.
pub(crate) fn joined_tokens<'d>(
    alloc: Global,
    t: &Marked,
    hidden: &HideSet,
    stamp: u32,
    body: &'d [Token],
) -> Result<Vec<Marked<'d>>, RunError>
    ensures fresh { IfOk result (λ ts. AllFresh stamp hidden.now ts.items) }
    ensures ok { IfOk result (λ ts. replacement t.now.token (names_in hidden.now) (object_parts (map without_line body.now))
        (record { written = []; expanded = []; variable = None }) ≡ Ok (map marked_of ts.items)) }
    ensures err { IfErr result (λ e. Reports e (replacement t.now.token (names_in hidden.now) (object_parts (map without_line body.now))
        (record { written = []; expanded = []; variable = None }))) }
{
    let parts = Parts::Listed(read_object_parts(alloc, body)?);
    let arguments = Arguments {
        written: &[],
        expanded: &[],
        variable: None,
    };
    let stamping = Stamping {
        head: 0,
        made: stamp,
    };
    replaced(alloc, t, hidden, stamping, &parts, &arguments)
}

// What a call is replaced by.
pub(crate) fn call_tokens<'d>(
    alloc: Global,
    t: &Marked,
    parts: &Parts<'d>,
    variable: Option<usize>,
    call: &ReadCall<'d>,
    expanded: &[Vec<Marked<'d>>],
    stamp: u32,
) -> Result<Vec<Marked<'d>>, RunError>
    requires close { Alike t.now call.now.close }
    requires alike { EachAlike t.now expanded.now }
    ensures fresh { IfOk result (λ ts. ArePutIn stamp ts.items) }
    ensures ok { IfOk result (λ ts. call_replaced_by t.now (parts_told parts.now) variable (lists_of call.now.written.items)
        (marked_of call.now.close) (lists_of expanded.now) ≡ Ok (map marked_of ts.items)) }
    ensures err { IfErr result (λ e. Reports e (call_replaced_by t.now (parts_told parts.now) variable
        (lists_of call.now.written.items) (marked_of call.now.close) (lists_of expanded.now))) }
{
    // As in `read_object`.
    if parts.are_none() {
        return Ok(Vec::new(alloc));
    }
    let hidden = hidden_by_call(alloc, t, &call.close)?;
    let arguments = Arguments {
        written: &call.written,
        expanded,
        variable,
    };
    let stamping = Stamping {
        head: if call.close.stamp == t.stamp {
            t.stamp
        } else {
            0
        },
        made: stamp,
    };
    replaced(alloc, t, &hidden, stamping, parts, &arguments)
}
