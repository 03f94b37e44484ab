// Character constants (ISO C 6.4.4.4).
ghost use Rattle.std.specs.Prelude.{◌≡◌, ◌-◌, ◌==◌, ◌≤◌, not, length, take, drop, Some, ◌<◌, [], ◌∷◌};
ghost use Rattle.std.specs.List.{take_while, list_all};
ghost use Rattle.base_types.specs.Ascii as ascii;
ghost use Rattle.cond_eval.specs.Constants.{between_quotes, simple_escape, octal_escape, hexadecimal_escape, escape, character, character_coded, character_value, is_digit_in, value_behind};

use crate::number::{is_digit_in, value_of_digits};
use crate::{CondError, Num};

// What stands between the quotes.
fn between_quotes(text: &[u8]) -> &[u8]
    ensures { result.now ≡ between_quotes text.now }
{
    let (_, quoted) = text.split_at(before_quote(text));
    between(quoted)
}

// How many bytes stand before the first quote.
fn before_quote(text: &[u8]) -> usize
    ensures count { result ≡ length (take_while (λ b. not (b == ascii.apostrophe)) text.now) }
    ensures within { result ≤ length text.now }
{
    text.iter().take_while(|b| **b != b'\'').count()
}

// What stands between the first byte and the last one.
fn between(text: &[u8]) -> &[u8]
    ensures { result.now ≡ take (length text.now - 2) (drop 1 text.now) }
{
    match text {
        [_, inside @ .., _] => inside,
        _ => &[],
    }
}

// A character of this code.
fn coded(code: u64) -> Result<Num, CondError>
    ensures { result ≡ character_coded (Some code) }
{
    if code <= 127 {
        Ok(Num {
            bits: code,
            unsigned: false,
        })
    } else {
        Err(CondError::NotInteger)
    }
}

// The character that a letter behind a `\` alone stands for.
fn simple_escape(letter: u8) -> Option<u8>
    ensures { result ≡ simple_escape letter }
{
    match letter {
        b'\'' | b'"' | b'?' | b'\\' => Some(letter),
        b'a' => Some(7),
        b'b' => Some(8),
        b'f' => Some(12),
        b'n' => Some(b'\n'),
        b'r' => Some(b'\r'),
        b't' => Some(b'\t'),
        b'v' => Some(11),
        _ => None,
    }
}

// Whether all bytes are digits of a base.
fn are_digits(base: u8, digits: &[u8]) -> bool
    ensures { result ≡ list_all (is_digit_in base) digits.now }
{
    digits.iter().all(|b| is_digit_in(base, *b))
}

// The character of an octal escape, of one to three digits.
fn octal(digits: &[u8]) -> Result<Num, CondError>
    ensures { result ≡ character_coded (octal_escape digits.now) }
{
    if 0 < digits.len() && digits.len() <= 3 && are_digits(8, digits) {
        number(8, digits)
    } else {
        Err(CondError::NotInteger)
    }
}

// The character of a hexadecimal escape, of at least one digit.
fn hexadecimal(digits: &[u8]) -> Result<Num, CondError>
    ensures { result ≡ character_coded (hexadecimal_escape digits.now) }
{
    if 0 < digits.len() && are_digits(16, digits) {
        number(16, digits)
    } else {
        Err(CondError::NotInteger)
    }
}

// A character whose code these digits are.
fn number(base: u8, digits: &[u8]) -> Result<Num, CondError>
    requires { 0 < base }
    ensures { result ≡ character_coded (Some (value_behind base 0 digits.now)) }
{
    match value_of_digits(base, digits) {
        Some(code) => coded(code),
        None => Err(CondError::NotInteger),
    }
}

// One letter behind a `\`.
fn short_escape(letter: u8, behind: &[u8]) -> Result<Num, CondError>
    requires { behind.now ≡ letter ∷ [] }
    ensures { result ≡ character_coded (escape behind.now) }
{
    match simple_escape(letter) {
        Some(code) => coded(u64::from(code)),
        None => octal(behind),
    }
}

// What stands behind a `\`.
fn escape(behind: &[u8]) -> Result<Num, CondError>
    ensures { result ≡ character_coded (escape behind.now) }
{
    match behind {
        [] => Err(CondError::NotInteger),
        [letter] => short_escape(*letter, behind),
        [b'x', digits @ ..] => hexadecimal(digits),
        _ => octal(behind),
    }
}

// The character that stands between the quotes.
fn character(inside: &[u8]) -> Result<Num, CondError>
    ensures { result ≡ character_coded (character inside.now) }
{
    match inside {
        [] => Err(CondError::NotInteger),
        [b'\\'] => Err(CondError::NotInteger),
        [byte] => coded(u64::from(*byte)),
        [b'\\', behind @ ..] => escape(behind),
        _ => Err(CondError::NotInteger),
    }
}

/// The value of a character constant's spelling, or what is wrong with it.
#[tactic(auto, unfolding(crate::specs::Constants::character_value))]
pub fn character_value(text: &[u8]) -> Result<Num, CondError>
    ensures { result ≡ character_value text.now }
{
    character(between_quotes(text))
}
