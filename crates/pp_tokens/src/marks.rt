// Numbers, punctuators and other bytes that stand first in a text (ISO C 6.4.6, 6.4.8).
ghost use Rattle.std.specs.Prelude.{◌≡◌, ◌≤◌, ◌<◌, [], ◌∷◌, true, false, ◌&&◌, ◌||◌, ◌==◌, length, get_or};
ghost use Rattle.pp_tokens.specs.Grammar.{is_identifier_start, is_white, is_newline, continues_number, number_goes_on, number_length};
ghost use Rattle.pp_tokens.specs.Lines.{first_part};
ghost use Rattle.pp_tokens.specs.parts.Text.{part_told, is_quote, begins_number, begins_comment, takes_equals, is_doubled, is_mixed, is_pair, is_triple, is_quadruple, mark_length};

use crate::class::{is_identifier_byte, is_second, is_single};
use crate::part::What;
use crate::token::Kind;

/// The byte at a place, 0 past the end of the text.
pub fn byte_at(text: &[u8], at: usize) -> u8
    ensures { result ≡ get_or text.now at 0 }
{
    if at < text.len() { text[at] } else { 0 }
}

// Whether a byte may stand in a number behind another.
fn continues_number(last: u8, b: u8) -> bool
    ensures { result ≡ continues_number last b }
{
    let exponent = last == b'e' || last == b'E' || last == b'p' || last == b'P';
    is_identifier_byte(b) || b == b'.' || ((b == b'+' || b == b'-') && exponent)
}

// How many bytes at the front go on with a number, behind a byte of it.
pub fn number_length(first: u8, bytes: &[u8]) -> usize
    ensures run { result ≡ number_length first bytes.now }
    ensures within { result ≤ length bytes.now }
{
    let mut last = first;
    for (i, b) in bytes.iter().enumerate() {
        if !continues_number(last, *b) {
            return i;
        }
        last = *b;
    }
    bytes.len()
}

/// Whether bytes go on with a number, behind a byte of it.
pub fn number_goes_on(last: u8, bytes: &[u8]) -> bool
    ensures { result ≡ number_goes_on last bytes.now }
{
    number_length(last, bytes) == bytes.len()
}

/// What begins with a digit, or with a `.` and a digit: a number.
#[inline(always)]
pub fn number_part(rest: &[u8]) -> (What, usize)
    requires some { 0 < length rest.now }
    requires number { begins_number (get_or rest.now 0 0) (get_or rest.now 1 0) ≡ true }
    ensures { (part_told result.0, result.1) ≡ first_part false rest.now }
{
    let (_, behind) = rest.split_at(1);
    (
        What::Token(Kind::Number),
        number_length(rest[0], behind) + 1,
    )
}

// Whether a byte is a punctuator, and one with `=` too.
fn takes_equals(a: u8) -> bool
    ensures { result ≡ takes_equals a }
{
    is_doubled(a) || a == b'*' || a == b'/' || a == b'%' || a == b'^' || a == b'!' || a == b'='
}

// Whether a byte is a punctuator, and one twice and with `=` too.
fn is_doubled(a: u8) -> bool
    ensures { result ≡ is_doubled a }
{
    a == b'<' || a == b'>' || a == b'&' || a == b'|' || a == b'+' || a == b'-'
}

// Whether two bytes are `->`, `##` or a digraph.
fn is_mixed(a: u8, b: u8) -> bool
    ensures { result ≡ is_mixed a b }
{
    (a == b'-' && b == b'>')
        || (a == b'#' && b == b'#')
        || (a == b'<' && (b == b':' || b == b'%'))
        || (a == b'%' && (b == b':' || b == b'>'))
        || (a == b':' && b == b'>')
}

// Whether two bytes are a punctuator.
fn is_pair(a: u8, b: u8) -> bool
    ensures { result ≡ is_pair a b }
{
    (b == b'=' && takes_equals(a)) || (b == a && is_doubled(a)) || is_mixed(a, b)
}

// Whether three bytes are a punctuator.
fn is_triple(a: u8, b: u8, c: u8) -> bool
    ensures { result ≡ is_triple a b c }
{
    (a == b'<' && b == b'<' && c == b'=')
        || (a == b'>' && b == b'>' && c == b'=')
        || (a == b'.' && b == b'.' && c == b'.')
}

// Whether four bytes are a punctuator.
fn is_quadruple(a: u8, b: u8, c: u8, d: u8) -> bool
    ensures { result ≡ is_quadruple a b c d }
{
    a == b'%' && b == b':' && c == b'%' && d == b':'
}

// How many bytes the longest punctuator at the front has; 1 where none has more.
fn longest_mark(rest: &[u8]) -> usize
    requires { 0 < length rest.now }
    ensures { result ≡ mark_length (get_or rest.now 0 0) (get_or rest.now 1 0) (get_or rest.now 2 0) (get_or rest.now 3 0) }
{
    let a = rest[0];
    let b = byte_at(rest, 1);
    let c = byte_at(rest, 2);
    if is_quadruple(a, b, c, byte_at(rest, 3)) {
        4
    } else if is_triple(a, b, c) {
        3
    } else if is_pair(a, b) {
        2
    } else {
        1
    }
}

// The same, where the byte behind the first mostly ends it.
#[inline(always)]
fn mark_length(rest: &[u8]) -> usize
    requires { 0 < length rest.now }
    ensures { result ≡ mark_length (get_or rest.now 0 0) (get_or rest.now 1 0) (get_or rest.now 2 0) (get_or rest.now 3 0) }
{
    if is_second(byte_at(rest, 1)) {
        longest_mark(rest)
    } else {
        1
    }
}

/// What begins with a byte that is no white space and no newline, and begins no identifier, literal, number or
/// comment: the longest punctuator, or where the byte is none, that alone.
#[inline(always)]
pub fn mark_part(rest: &[u8]) -> (What, usize)
    requires some { 0 < length rest.now }
    requires white { is_white (get_or rest.now 0 0) ≡ false }
    requires newline { is_newline (get_or rest.now 0 0) ≡ false }
    requires word { is_identifier_start (get_or rest.now 0 0) ≡ false }
    requires quote { is_quote (get_or rest.now 0 0) ≡ false }
    requires number { begins_number (get_or rest.now 0 0) (get_or rest.now 1 0) ≡ false }
    requires comment { begins_comment (get_or rest.now 0 0) (get_or rest.now 1 0) ≡ false }
    ensures { (part_told result.0, result.1) ≡ first_part false rest.now }
{
    if is_single(rest[0]) {
        (What::Token(Kind::Punct), mark_length(rest))
    } else {
        (What::Token(Kind::Other), 1)
    }
}
