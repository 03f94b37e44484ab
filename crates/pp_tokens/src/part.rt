// What stands first in a text (ISO C 6.4), and how long it is.
ghost use Rattle.std.specs.Prelude.{◌≡◌, ◌≤◌, ◌<◌, ℕ, false, None, IfSome, drop, get_or, length, take_while, ◌==◌};
ghost use Rattle.pp_tokens.specs.declared.token.Kind.TheVariants.{Header};
ghost use Rattle.pp_tokens.specs.Grammar.{is_identifier_byte, is_identifier_start, is_white};
ghost use Rattle.pp_tokens.specs.Lines.{Part, token, first_part};
ghost use Rattle.pp_tokens.specs.parts.Text.{part_told, is_quote, opens_header, begins_number};
ghost use Rattle.pp_tokens.specs.parts.Unpaired.{KnowsUnpaired};

use crate::class::{is_digit, is_identifier_start, is_text_mark, is_white};
use crate::comment::slash_part;
use crate::marks::{byte_at, mark_part, number_part};
use crate::quoted::{header_at, quoted_at, word_at};
use crate::run::{LANES, Word, near_length, short_length};
use crate::token::Kind;
use crate::unpaired::Unpaired;

/// What a stretch of a text is.
#[derive(Clone, Copy, Debug, PartialEq, Eq, Drop)]
pub enum What {
    Newline,
    White,
    Comment,
    OpenComment,
    Token(Kind),
}

/// How many bytes at the front go on with an identifier. It is compiled by itself, where it has registers enough. Nearly all words end in the
/// first 16 bytes.
#[inline(never)]
pub fn word_length(bytes: &[u8]) -> usize
    ensures run { result ≡ length (take_while is_identifier_byte bytes.now) }
    ensures within { result ≤ length bytes.now }
{
    if bytes.len() < LANES {
        return short_length::<Word>(bytes);
    }
    let near = near_length::<Word>(bytes);
    if near < LANES {
        return near;
    }
    let (_, rest) = bytes.split_at(LANES);
    LANES + short_length::<Word>(rest)
}

fn is_quote(b: u8) -> bool
    ensures { result ≡ is_quote b }
{
    b == b'"' || b == b'\''
}

// Whether a byte is the first delimiter of header names.
fn opens_header(b: u8) -> bool
    ensures { result ≡ opens_header b }
{
    b == b'<' || b == b'"'
}

// Whether two bytes begin a number.
fn begins_number(a: u8, b: u8) -> bool
    ensures { result ≡ begins_number a b }
{
    is_digit(a) || (a == b'.' && is_digit(b))
}

// What begins with no quote and no identifier's byte.
#[inline(always)]
fn unquoted_part(rest: &[u8]) -> (What, usize)
    requires some { 0 < length rest.now }
    requires word { is_identifier_start (get_or rest.now 0 0) ≡ false }
    requires quote { is_quote (get_or rest.now 0 0) ≡ false }
    ensures { (part_told result.0, result.1) ≡ first_part false rest.now }
{
    let first = rest[0];
    if is_white(first) {
        (What::White, 1)
    } else if first == b'\n' {
        (What::Newline, 1)
    } else if first == b'/' {
        slash_part(rest)
    } else if begins_number(first, byte_at(rest, 1)) {
        number_part(rest)
    } else {
        mark_part(rest)
    }
}

// What stands first from a place on where no header name is due.
#[inline(always)]
fn other_part(text: &[u8], at: usize, unpaired: &mut Unpaired) -> (What, usize)
    requires at { at < length text.now }
    requires known { KnowsUnpaired unpaired.old text.now at }
    ensures part { (part_told result.0, result.1) ≡ first_part false (drop at text.now) }
    ensures known { KnowsUnpaired unpaired.new text.now at }
{
    if is_identifier_start(text[at]) {
        word_at(text, at, unpaired)
    } else if is_text_mark(text[at]) {
        (What::Token(Kind::Punct), 1)
    } else if is_quote(text[at]) {
        quoted_at(text, at, unpaired)
    } else {
        let (_, rest) = text.split_at(at);
        unquoted_part(rest)
    }
}

// The length of the header name that stands first from a place on; None where none is due or begins there.
#[inline(always)]
fn header_length(text: &[u8], at: usize, due: bool, unpaired: &mut Unpaired) -> Option<usize>
    requires at { at < length text.now }
    requires known { KnowsUnpaired unpaired.old text.now at }
    ensures header { IfSome result (λ n. ◌≡◌ {A = Part × ℕ} (first_part due (drop at text.now)) (token Header, n)) }
    ensures other { result ≡ None → first_part due (drop at text.now) ≡ first_part false (drop at text.now) }
    ensures known { KnowsUnpaired unpaired.new text.now at }
{
    if due && opens_header(text[at]) {
        header_at(text, at, unpaired)
    } else {
        None
    }
}

/// What stands first in a text from a place on, and how long it is. A header name is read only where one is due.
#[inline(always)]
pub fn next_part(text: &[u8], at: usize, due: bool, unpaired: &mut Unpaired) -> (What, usize)
    requires at { at < length text.now }
    requires known { KnowsUnpaired unpaired.old text.now at }
    ensures part { (part_told result.0, result.1) ≡ first_part due (drop at text.now) }
    ensures known { KnowsUnpaired unpaired.new text.now at }
{
    match header_length(text, at, due, unpaired) {
        Some(length) => (What::Token(Kind::Header), length),
        None => other_part(text, at, unpaired),
    }
}
