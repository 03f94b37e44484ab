// Literals, header names and identifiers: what is read up to a closing quote or delimiter, and what may be the prefix of
// a literal (ISO C 6.4.2, 6.4.4.4, 6.4.5, 6.4.7).
ghost use Rattle.std.specs.Prelude.{◌≡◌, ◌≤◌, ◌<◌, ◌+◌, ℕ, ◌⊎◌, true, false, None, IfSome, length, drop, get_or, take_while, not, ◌&&◌, ◌==◌};
ghost use Rattle.base_types.specs.Ascii as ascii;
ghost use Rattle.pp_tokens.specs.declared.token.Kind.TheVariants.{Header, Ident};
ghost use Rattle.pp_tokens.specs.Grammar.{is_identifier_start};
ghost use Rattle.pp_tokens.specs.Lines.{Part, token, first_part};
ghost use Rattle.pp_tokens.specs.parts.Text.{part_told, is_quote};
ghost use Rattle.pp_tokens.specs.parts.Literals.{opens_character, opens_string, opens_literal, literal_kind, closing_delimiter};
ghost use Rattle.pp_tokens.specs.parts.Unpaired.{closing_length, delimiter_length, NonePairs, KnowsUnpaired};

use crate::class::is_identifier_start;
use crate::comment::line_length;
use crate::part::{What, word_length};
use crate::token::Kind;
use crate::unpaired::Unpaired;

// Whether a byte is the wanted one and no `\` takes it along.
fn stands_free(escaped: bool, byte: u8, wanted: u8) -> bool
    ensures { result ≡ (not escaped && (byte == wanted)) }
{
    !escaped && byte == wanted
}

// How many bytes lead up to the closing quote, it included, behind an opening one. A `\` takes the next byte along.
fn closing_length(quote: u8, bytes: &[u8]) -> Option<usize>
    ensures { result ≡ closing_length quote false bytes.now }
{
    let mut escaped = false;
    for (i, b) in bytes.iter().enumerate() {
        if stands_free(escaped, *b, quote) {
            return Some(i + 1);
        }
        if *b == b'\n' {
            return None;
        }
        escaped = stands_free(escaped, *b, b'\\');
    }
    None
}

// The same behind the first delimiter of a header name, where a `\` is a byte as any other.
fn delimiter_length(delimiter: u8, bytes: &[u8]) -> Option<usize>
    ensures { result ≡ delimiter_length delimiter bytes.now }
{
    for (i, b) in bytes.iter().enumerate() {
        if *b == delimiter {
            return Some(i + 1);
        }
        if *b == b'\n' {
            return None;
        }
    }
    None
}

// The same behind the quote at a place. Where it has no partner, the bound goes up to the end of the line.
fn find_closing(text: &[u8], at: usize, bound: &mut usize) -> Option<usize>
    requires at { at < length text.now }
    requires known { NonePairs (closing_length (get_or text.now at 0) false) (get_or text.now at 0) text.now at bound.old }
    ensures partner { result ≡ closing_length (get_or text.now at 0) false (drop (at + 1) text.now) }
    ensures within { IfSome result (λ n. at + 1 + n ≤ length text.now) }
    ensures known { NonePairs (closing_length (get_or text.now at 0) false) (get_or text.now at 0) text.now at bound.new }
{
    let (_, behind) = text.split_at(at + 1);
    if let Some(length) = closing_length(text[at], behind) {
        return Some(length);
    }
    *bound = at + 1 + line_length(behind);
    None
}

// The same, without a search where the quote is known to have no partner.
#[inline(always)]
fn closing_at(text: &[u8], at: usize, bound: &mut usize) -> Option<usize>
    requires at { at < length text.now }
    requires known { NonePairs (closing_length (get_or text.now at 0) false) (get_or text.now at 0) text.now at bound.old }
    ensures partner { result ≡ closing_length (get_or text.now at 0) false (drop (at + 1) text.now) }
    ensures within { IfSome result (λ n. at + 1 + n ≤ length text.now) }
    ensures known { NonePairs (closing_length (get_or text.now at 0) false) (get_or text.now at 0) text.now at bound.new }
{
    if at < *bound {
        None
    } else {
        find_closing(text, at, bound)
    }
}

// The same behind the delimiter at a place.
fn delimiter_at(delimiter: u8, text: &[u8], at: usize, bound: &mut usize) -> Option<usize>
    requires at { at < length text.now }
    requires known { NonePairs (delimiter_length delimiter) (get_or text.now at 0) text.now at bound.old }
    ensures partner { result ≡ delimiter_length delimiter (drop (at + 1) text.now) }
    ensures within { IfSome result (λ n. at + 1 + n ≤ length text.now) }
    ensures known { NonePairs (delimiter_length delimiter) (get_or text.now at 0) text.now at bound.new }
{
    if at < *bound {
        return None;
    }
    let (_, behind) = text.split_at(at + 1);
    if let Some(length) = delimiter_length(delimiter, behind) {
        return Some(length);
    }
    *bound = at + 1 + line_length(behind);
    None
}

// What closes the quote at a place, with the bound of its kind.
#[inline(always)]
fn partner_at(text: &[u8], at: usize, unpaired: &mut Unpaired) -> Option<usize>
    requires at { at < length text.now }
    requires quote { is_quote (get_or text.now at 0) ≡ true }
    requires known { KnowsUnpaired unpaired.old text.now at }
    ensures partner { result ≡ closing_length (get_or text.now at 0) false (drop (at + 1) text.now) }
    ensures within { IfSome result (λ n. at + 1 + n ≤ length text.now) }
    ensures known { KnowsUnpaired unpaired.new text.now at }
{
    if text[at] == b'"' {
        return closing_at(text, at, &mut unpaired.strings);
    }
    closing_at(text, at, &mut unpaired.characters)
}

// The kind of a literal between two of these quotes.
fn literal_kind(quote: u8) -> Kind
    ensures { result ≡ literal_kind quote }
{
    if quote == b'"' { Kind::Str } else { Kind::Char }
}

// What closes a header name behind the delimiter at a place, with the bound of its kind.
fn delimiter_partner_at(text: &[u8], at: usize, unpaired: &mut Unpaired) -> Option<usize>
    requires at { at < length text.now }
    requires known { KnowsUnpaired unpaired.old text.now at }
    requires delimiter { (get_or text.now at 0 ≡ ascii.less) ⊎ (get_or text.now at 0 ≡ ascii.quote) }
    ensures partner { result ≡ delimiter_length (closing_delimiter (get_or text.now at 0)) (drop (at + 1) text.now) }
    ensures within { IfSome result (λ n. at + 1 + n ≤ length text.now) }
    ensures known { KnowsUnpaired unpaired.new text.now at }
{
    if text[at] == b'<' {
        return delimiter_at(b'>', text, at, &mut unpaired.angles);
    }
    delimiter_at(b'"', text, at, &mut unpaired.quotes)
}

/// A header name at a place where one is due and `<` or `"` stands; None where none begins there.
pub fn header_at(text: &[u8], at: usize, unpaired: &mut Unpaired) -> Option<usize>
    requires at { at < length text.now }
    requires known { KnowsUnpaired unpaired.old text.now at }
    requires delimiter { (get_or text.now at 0 ≡ ascii.less) ⊎ (get_or text.now at 0 ≡ ascii.quote) }
    ensures header { IfSome result (λ n. ◌≡◌ {A = Part × ℕ} (first_part true (drop at text.now)) (token Header, n)) }
    ensures other { result ≡ None → first_part true (drop at text.now) ≡ first_part false (drop at text.now) }
    ensures known { KnowsUnpaired unpaired.new text.now at }
{
    let length = delimiter_partner_at(text, at, unpaired)?;
    if length == 1 {
        return None;
    }
    Some(length + 1)
}

/// What begins with a quote: a literal, or where it has no partner the quote alone, of kind Other.
pub fn quoted_at(text: &[u8], at: usize, unpaired: &mut Unpaired) -> (What, usize)
    requires at { at < length text.now }
    requires known { KnowsUnpaired unpaired.old text.now at }
    requires quote { is_quote (get_or text.now at 0) ≡ true }
    ensures part { (part_told result.0, result.1) ≡ first_part false (drop at text.now) }
    ensures known { KnowsUnpaired unpaired.new text.now at }
{
    match partner_at(text, at, unpaired) {
        Some(length) => (What::Token(literal_kind(text[at])), length + 1),
        None => (What::Token(Kind::Other), 1),
    }
}

// Whether an identifier is a prefix of character constants.
#[cold]
fn opens_character(word: &[u8]) -> bool
    ensures { result ≡ opens_character word.now }
{
    word == b"u".as_slice() || word == b"U".as_slice() || word == b"L".as_slice()
}

// Whether an identifier is a prefix of string literals.
#[cold]
fn opens_string(word: &[u8]) -> bool
    ensures { result ≡ opens_string word.now }
{
    word == b"u8".as_slice() || opens_character(word)
}

// Whether an identifier right before this byte is a prefix of the literals that the byte opens.
#[inline(always)]
fn opens_literal(word: &[u8], quote: u8) -> bool
    ensures { result ≡ opens_literal word.now quote }
{
    (quote == b'"' && opens_string(word)) || (quote == b'\'' && opens_character(word))
}

/// How many bytes an identifier at a place has that no quote stands behind which may begin a literal; 0 where none stands there.
#[inline(always)]
pub fn plain_word(text: &[u8], at: usize) -> usize
    requires { at ≤ length text.now }
    ensures part { 0 < result → ◌≡◌ {A = Part × ℕ} (first_part false (drop at text.now)) (token Ident, result) }
    ensures within { at + result ≤ length text.now }
{
    if at >= text.len() || !is_identifier_start(text[at]) {
        return 0;
    }
    let (_, rest) = text.split_at(at);
    let length = word_length(rest);
    let (word, behind) = rest.split_at(length);
    if behind.is_empty() {
        return length;
    }
    if opens_literal(word, behind[0]) {
        0
    } else {
        length
    }
}

/// What begins with an identifier's byte: a literal with a prefix (`u8`, `u`, `U` or `L` before `"`, and `u`, `U` or `L`
/// before `'`), or an identifier. A prefix of a quote without a partner is an identifier.
#[inline(always)]
pub fn word_at(text: &[u8], at: usize, unpaired: &mut Unpaired) -> (What, usize)
    requires at { at < length text.now }
    requires known { KnowsUnpaired unpaired.old text.now at }
    requires word { is_identifier_start (get_or text.now at 0) ≡ true }
    ensures part { (part_told result.0, result.1) ≡ first_part false (drop at text.now) }
    ensures known { KnowsUnpaired unpaired.new text.now at }
{
    let (_, rest) = text.split_at(at);
    let length = word_length(rest);
    let (word, behind) = rest.split_at(length);
    if behind.is_empty() {
        return (What::Token(Kind::Ident), length);
    }
    if !opens_literal(word, behind[0]) {
        return (What::Token(Kind::Ident), length);
    }
    match partner_at(text, at + length, unpaired) {
        Some(closing) => (What::Token(literal_kind(behind[0])), length + 1 + closing),
        None => (What::Token(Kind::Ident), length),
    }
}
