// The pieces that a replacement list gives with a call's arguments put in (ISO C 6.10.3.1 to 6.10.3.3).
ghost use Rattle.std.specs.Prelude.{◌≡◌, ◌++◌, ◌∷◌, [], ◌&&◌, ◌||◌, map, length, ℕ, None, Some, IfOk, OnOk, if◌then◌else◌};
ghost use Rattle.std.specs.Option.{option_map, option_copied};
ghost use Rattle.pp_tokens.specs.Tokens.{token_seen};
ghost use Rattle.macro_defs.specs.MacroDefinition.{without_line};
ghost use Rattle.pp_tokens.specs.Marks.{is_comma};
ghost use Rattle.macro_expand.specs.Replacement as spec;
ghost use Rattle.macro_expand.specs.Replacement.{unmarked, with_space, as_pieces, argument_at, is_variable, is_comma_part, is_join, first_body_part, rest_parts, is_empty_argument, pieces_of_part, pieces_of, Real};
ghost use Rattle.macro_expand.specs.parts.Pieces.{arguments_seen, spaced_at, tokens_of_part, tokens_of_parts};
ghost use Rattle.macro_expand.specs.Seen.{marked_of, piece_of, part_seen, parts_seen, lists_of};
ghost use Rattle.macro_expand.specs.declared.marked.Marked.{Marked as Kept};
ghost use Rattle.macro_expand.specs.parts.Stamps.{Alike, AllAlike, EachAlike};

use crate::marked::{Marked, Piece};
use crate::replace::{Part, begins_with_join};
use crate::stringize::stringized;
use pp_tokens::{Token, TokenCow, TokenRef};
use std::alloc::{AllocError, Global};

// The arguments of a call: as written, expanded by themselves where a parameter stands alone, and the number of the
// variable one.
#[derive(Clone, Copy, Drop)]
pub(crate) struct Arguments<'a, 't> {
    pub(crate) written: &'a [Vec<Marked<'t>>],
    pub(crate) expanded: &'a [Vec<Marked<'t>>],
    pub(crate) variable: Option<usize>,
}

// The tokens of the argument of a number.
pub(crate) fn argument_at<'a, 't>(arguments: &'a [Vec<Marked<'t>>], i: usize) -> &'a [Marked<'t>]
    ensures tokens { map marked_of result.now ≡ argument_at i (lists_of arguments.now) }
    ensures alike { (t : Kept) → EachAlike t arguments.now → AllAlike t result.now }
{
    if i < arguments.len() {
        &arguments[i]
    } else {
        &[]
    }
}

// Whether a part is the variable argument, beside no `#`.
fn is_variable(arguments: &Arguments, p: &Part) -> bool
    ensures { result ≡ is_variable (arguments_seen arguments.now) (Some (part_seen p.now)) }
{
    match (p, arguments.variable) {
        (Part::Argument(i, _), Some(v)) => *i == v,
        _ => false,
    }
}

// Whether the variable argument stands first.
fn begins_with_variable(arguments: &Arguments, parts: &[Part]) -> bool
    ensures { result ≡ is_variable (arguments_seen arguments.now) (first_body_part (parts_seen parts.now)) }
{
    if parts.is_empty() {
        return false;
    }
    is_variable(arguments, &parts[0])
}

// Whether the variable argument stands second.
fn second_is_variable(arguments: &Arguments, parts: &[Part]) -> bool
    ensures { result ≡ is_variable (arguments_seen arguments.now) (first_body_part (rest_parts (parts_seen parts.now))) }
{
    if parts.len() < 2 {
        return false;
    }
    is_variable(arguments, &parts[1])
}

// Whether there is a variable argument, and it has no tokens.
fn has_empty_variable(arguments: &Arguments) -> bool
    ensures { result ≡ is_empty_argument (arguments_seen arguments.now) }
{
    match arguments.variable {
        None => false,
        Some(v) => argument_at(arguments.written, v).is_empty(),
    }
}

// Whether a comma is dropped: `##` and an empty variable argument follow it (GNU).
fn drops_comma(arguments: &Arguments, t: &Token, rest: &[Part]) -> bool
    ensures { result ≡ (is_comma t.now && is_join (first_body_part (parts_seen rest.now))
        && is_variable (arguments_seen arguments.now) (first_body_part (rest_parts (parts_seen rest.now)))
        && is_empty_argument (arguments_seen arguments.now)) }
{
    t.is_mark(b",".as_slice())
        && begins_with_join(rest)
        && second_is_variable(arguments, rest)
        && has_empty_variable(arguments)
}

// A token of a replacement list, with no hidden name.
pub(crate) fn plain(t: &Token) -> Marked<'_>
    ensures unmarked { marked_of result ≡ unmarked (without_line t.now) }
    ensures unstamped { result.stamp ≡ 0 }
{
    lent_plain(t.as_ref())
}

// The same of a token that is lent.
pub(crate) fn lent_plain(t: TokenRef<'_>) -> Marked<'_>
    ensures unmarked { marked_of result ≡ unmarked (without_line (token_seen t.entry)) }
    ensures unstamped { result.stamp ≡ 0 }
{
    let mut token = TokenCow::lent(t);
    token.set_line(0);
    Marked::plain(token)
}

// A copy of a token of an argument.
fn copy_at<'t>(first: bool, space: bool, t: &Marked<'t>) -> Result<Marked<'t>, AllocError>
    ensures spaced { IfOk result (λ m. marked_of m ≡ spaced_at first space (marked_of t.now)) }
    ensures alike { IfOk result (λ m. (m.stamp ≡ t.now.stamp) × (m.hidden ≡ t.now.hidden)) }
{
    let mut m = t.copy()?;
    if first {
        m.token.set_space(space);
    }
    Ok(m)
}

#[inline(always)]
fn put<'t>(out: &mut Vec<Piece<'t>>, p: Piece<'t>) -> Result<(), AllocError>
    ensures { OnOk result (map piece_of out.new.items ≡ map piece_of out.old.items ++ piece_of p.entry ∷ []) }
{
    out.push(p)?;
    Ok(())
}

// Puts in a token, as it is.
#[inline(always)]
pub(crate) fn put_marked<'t>(out: &mut Vec<Marked<'t>>, m: Marked<'t>) -> Result<(), AllocError>
    ensures put { OnOk result (map marked_of out.new.items ≡ map marked_of out.old.items ++ marked_of m.entry ∷ []) }
    ensures alike { (t : Kept) → AllAlike t out.old.items → Alike t m.entry → OnOk result (AllAlike t out.new.items) }
{
    out.push(m)?;
    Ok(())
}

// Puts in copies of the tokens of an argument, the first with the parameter's space.
#[inline(always)]
pub(crate) fn put_copies<'t>(
    out: &mut Vec<Marked<'t>>,
    space: bool,
    tokens: &[Marked<'t>],
) -> Result<(), AllocError>
    ensures put { OnOk result (map marked_of out.new.items
        ≡ map marked_of out.old.items ++ with_space space (map marked_of tokens.now)) }
    ensures alike { (t : Kept) → AllAlike t out.old.items → AllAlike t tokens.now → OnOk result (AllAlike t out.new.items) }
{
    let mut first = true;
    for t in tokens {
        put_marked(out, copy_at(first, space, t)?)?;
        first = false;
    }
    Ok(())
}

// Puts in copies of the tokens of an argument as pieces, the first with the parameter's space.
fn put_tokens<'t>(
    out: &mut Vec<Piece<'t>>,
    space: bool,
    tokens: &[Marked<'t>],
) -> Result<(), AllocError>
    ensures { OnOk result (map piece_of out.new.items
        ≡ map piece_of out.old.items ++ map Real (with_space space (map marked_of tokens.now))) }
{
    let mut first = true;
    for t in tokens {
        put(out, Piece::Real(copy_at(first, space, t)?))?;
        first = false;
    }
    Ok(())
}

// Puts in an argument that stands beside `##`: where it has no tokens, a placemarker.
fn put_operand<'t>(
    out: &mut Vec<Piece<'t>>,
    space: bool,
    tokens: &[Marked<'t>],
) -> Result<(), AllocError>
    ensures { OnOk result (map piece_of out.new.items
        ≡ map piece_of out.old.items ++ as_pieces (with_space space (map marked_of tokens.now))) }
{
    if tokens.is_empty() {
        return put(out, Piece::Placemarker);
    }
    put_tokens(out, space, tokens)
}

// Puts in a token of the list. A comma is dropped before `##` and an empty variable argument.
fn put_plain<'t>(
    out: &mut Vec<Piece<'t>>,
    arguments: &Arguments<'_, 't>,
    t: &'t Token,
    rest: &[Part],
) -> Result<(), AllocError>
    ensures { OnOk result (map piece_of out.new.items ≡ map piece_of out.old.items
        ++ pieces_of_part (arguments_seen arguments.now) None (spec.Plain (without_line t.now)) (parts_seen rest.now)) }
{
    if drops_comma(arguments, t, rest) {
        return Ok(());
    }
    put(out, Piece::Real(plain(t)))
}

// Whether a part that stands before another is a `##`.
fn is_behind_join(before: Option<&Part>) -> bool
    ensures { result ≡ is_join (option_map part_seen (option_copied before.entry)) }
{
    matches!(before, Some(Part::Join))
}

// Whether a part that stands before another is a comma.
fn is_behind_comma(before: Option<&Part>) -> bool
    ensures { result ≡ is_comma_part (option_map part_seen (option_copied before.entry)) }
{
    match before {
        Some(Part::Plain(t)) => t.is_mark(b",".as_slice()),
        _ => false,
    }
}

// Puts in the argument that a parameter stands for.
fn put_argument<'t>(
    out: &mut Vec<Piece<'t>>,
    arguments: &Arguments<'_, 't>,
    before: Option<&Part>,
    i: usize,
    space: bool,
    rest: &[Part],
) -> Result<(), AllocError>
    ensures { OnOk result (map piece_of out.new.items ≡ map piece_of out.old.items
        ++ pieces_of_part (arguments_seen arguments.now) (option_map part_seen (option_copied before.entry)) (spec.Argument i space) (parts_seen rest.now)) }
{
    if is_behind_join(before) || begins_with_join(rest) {
        return put_operand(out, space, argument_at(arguments.written, i));
    }
    put_tokens(out, space, argument_at(arguments.expanded, i))
}

// Puts in a `##`, which joins nothing between a comma and the variable argument (GNU).
fn put_join<'t>(
    out: &mut Vec<Piece<'t>>,
    arguments: &Arguments,
    before: Option<&Part>,
    rest: &[Part],
) -> Result<(), AllocError>
    ensures { OnOk result (map piece_of out.new.items ≡ map piece_of out.old.items
        ++ pieces_of_part (arguments_seen arguments.now) (option_map part_seen (option_copied before.entry)) spec.Join (parts_seen rest.now)) }
{
    if is_behind_comma(before) && begins_with_variable(arguments, rest) {
        return Ok(());
    }
    put(out, Piece::Joining)
}

// Puts in what a part stands for, between the part before it and those behind it.
fn put_part<'t>(
    alloc: Global,
    out: &mut Vec<Piece<'t>>,
    arguments: &Arguments<'_, 't>,
    before: Option<&Part>,
    p: &Part<'t>,
    rest: &[Part],
) -> Result<(), AllocError>
    ensures { OnOk result (map piece_of out.new.items ≡ map piece_of out.old.items
        ++ pieces_of_part (arguments_seen arguments.now) (option_map part_seen (option_copied before.entry)) (part_seen p.now) (parts_seen rest.now)) }
{
    match p {
        Part::Plain(t) => put_plain(out, arguments, t, rest),
        Part::Argument(i, space) => put_argument(out, arguments, before, *i, *space, rest),
        Part::Spelling(i, space) => put_spelling(alloc, out, arguments, *i, *space),
        Part::Join => put_join(out, arguments, before, rest),
    }
}

// Puts in the string literal that `#` makes of an argument.
fn put_spelling<'t>(
    alloc: Global,
    out: &mut Vec<Piece<'t>>,
    arguments: &Arguments,
    i: usize,
    space: bool,
) -> Result<(), AllocError>
    ensures { OnOk result (map piece_of out.new.items ≡ map piece_of out.old.items
        ++ pieces_of_part (arguments_seen arguments.now) None (spec.Spelling i space) []) }
{
    put(
        out,
        Piece::Real(stringized(alloc, space, argument_at(arguments.written, i))?),
    )
}

// The pieces of a replacement list. They cost its tokens, and those of the arguments that it puts in.
pub(crate) fn read_pieces<'t>(
    alloc: Global,
    parts: &[Part<'t>],
    arguments: &Arguments<'_, 't>,
) -> Result<Vec<Piece<'t>>, AllocError>
    ensures { IfOk result (λ out. map piece_of out.items ≡ pieces_of (arguments_seen arguments.now) None (parts_seen parts.now)) }
{
    let mut out = Vec::with_capacity(alloc, parts.len())?;
    let mut before = None;
    for (k, p) in parts.iter().enumerate() {
        let (_, rest) = parts.split_at(k + 1);
        put_part(alloc, &mut out, arguments, before, p, rest)?;
        before = Some(p);
    }
    Ok(out)
}

// Puts in the tokens of a part of a list without `##`.
fn put_tokens_of<'t>(
    alloc: Global,
    out: &mut Vec<Marked<'t>>,
    arguments: &Arguments<'_, 't>,
    p: &Part<'t>,
) -> Result<(), AllocError>
    ensures put { OnOk result (map marked_of out.new.items
        ≡ map marked_of out.old.items ++ tokens_of_part (arguments_seen arguments.now) (part_seen p.now)) }
    ensures alike { (t : Kept) → AllAlike t out.old.items → EachAlike t arguments.now.expanded.now → OnOk result (AllAlike t out.new.items) }
{
    match p {
        Part::Plain(t) => put_marked(out, plain(t)),
        Part::Argument(i, space) => put_copies(out, *space, argument_at(arguments.expanded, *i)),
        Part::Spelling(i, space) => {
            put_marked(
                out,
                stringized(alloc, *space, argument_at(arguments.written, *i))?,
            )
        }
        Part::Join => Ok(()),
    }
}

// How many tokens a part of a list without `##` gives.
fn token_count(arguments: &Arguments, p: &Part) -> usize
    ensures { result ≡ length (tokens_of_part (arguments_seen arguments.now) (part_seen p.now)) }
{
    match p {
        Part::Argument(i, _) => argument_at(arguments.expanded, *i).len(),
        Part::Plain(_) | Part::Spelling(_, _) => 1,
        Part::Join => 0,
    }
}

// For how many tokens a list without `##` takes room: all that it gives.
fn room_for(arguments: &Arguments, parts: &[Part]) -> usize {
    let mut room: usize = 0;
    for p in parts {
        room = room.saturating_add(token_count(arguments, p));
    }
    room
}

// The tokens of a replacement list without `##`, as nearly all are: no list of pieces is made.
pub(crate) fn read_tokens<'t>(
    alloc: Global,
    parts: &[Part<'t>],
    arguments: &Arguments<'_, 't>,
) -> Result<Vec<Marked<'t>>, AllocError>
    ensures tokens { IfOk result (λ out. map marked_of out.items ≡ tokens_of_parts (arguments_seen arguments.now) (parts_seen parts.now)) }
    ensures alike { (t : Kept) → EachAlike t arguments.now.expanded.now → IfOk result (λ out. AllAlike t out.items) }
{
    let mut out = Vec::with_capacity(alloc, room_for(arguments, parts))?;
    for p in parts {
        put_tokens_of(alloc, &mut out, arguments, p)?;
    }
    Ok(out)
}
