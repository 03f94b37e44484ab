// Integer constants (ISO C 6.4.4.1).
ghost use Rattle.std.specs.Prelude.{◌≡◌, ◌<◌, ◌≤◌, ◌+◌, ◌*◌, ◌^◌, length, drop, MatchOption};
ghost use Rattle.std.specs.List.{list_any};
ghost use Rattle.cond_eval.specs.Constants.{digit_value, is_digit_in, value_behind, digits_before, is_u, is_l, is_suffix, spelled_by, behind_zero, number_valued, number_parted, number_spelled, number_value};

use crate::{CondError, Num};

// What a digit stands for; 16 where a byte is none.
fn digit_value(byte: u8) -> u8
    ensures value { result ≡ digit_value byte }
    ensures small { result ≤ 16 }
{
    if b'0' <= byte && byte <= b'9' {
        byte - b'0'
    } else if b'a' <= byte && byte <= b'f' {
        byte - (b'a' - 10)
    } else if b'A' <= byte && byte <= b'F' {
        byte - (b'A' - 10)
    } else {
        16
    }
}

// Whether a byte is a digit of a base.
pub fn is_digit_in(base: u8, byte: u8) -> bool
    ensures { result ≡ is_digit_in base byte }
{
    digit_value(byte) < base
}

// How many digits stand at a text's front.
fn digits_before(base: u8, text: &[u8]) -> usize
    ensures count { result ≡ digits_before base text.now }
    ensures within { result ≤ length text.now }
{
    text.iter().take_while(|b| is_digit_in(base, **b)).count()
}

// A value with one more digit; None where it passes 64 bits.
fn with_digit(base: u8, value: u64, digit: u8) -> Option<u64>
    ensures { MatchOption result (2 ^ 64 ≤ value * base + digit_value digit) (λ more. more ≡ value * base + digit_value digit) }
{
    match value.checked_mul(u64::from(base)) {
        Some(more) => more.checked_add(u64::from(digit_value(digit))),
        None => None,
    }
}

// What digits stand for; None where it passes 64 bits.
pub fn value_of_digits(base: u8, digits: &[u8]) -> Option<u64>
    requires { 0 < base }
    ensures { MatchOption result (2 ^ 64 ≤ value_behind base 0 digits.now) (λ value. value ≡ value_behind base 0 digits.now) }
{
    let mut value = 0;
    for digit in digits {
        match with_digit(base, value, *digit) {
            Some(more) => value = more,
            None => return None,
        }
    }
    Some(value)
}

// Whether a byte is a `u`, in either case.
fn is_u(byte: u8) -> bool
    ensures { result ≡ is_u byte }
{
    byte == b'u' || byte == b'U'
}

// Whether a byte is an `l`, in either case.
fn is_l(byte: u8) -> bool
    ensures { result ≡ is_l byte }
{
    byte == b'l' || byte == b'L'
}

// Whether bytes are a suffix, or none.
fn is_suffix(suffix: &[u8]) -> bool
    ensures { result ≡ is_suffix suffix.now }
{
    match suffix {
        [] => true,
        [a] => is_u(*a) || is_l(*a),
        [a, b] => (is_u(*a) && is_l(*b)) || (is_l(*a) && (is_u(*b) || is_l(*b))),
        [a, b, c] => {
            (is_u(*a) && (is_l(*b) && is_l(*c))) || (is_l(*a) && (is_l(*b) && is_u(*c)))
        }
        _ => false,
    }
}

// Whether a suffix says that the type is unsigned.
fn has_u(suffix: &[u8]) -> bool
    ensures { result ≡ list_any is_u suffix.now }
{
    suffix.iter().any(|b| is_u(*b))
}

// A constant of a value.
fn number_valued(unsigned: bool, base: u8, digits: &[u8]) -> Result<Num, CondError>
    requires { 0 < base }
    ensures { result ≡ number_valued unsigned (value_behind base 0 digits.now) }
{
    match value_of_digits(base, digits) {
        Some(bits) => Ok(Num {
            bits,
            unsigned: unsigned || bits > i64::MAX.cast_unsigned(),
        }),
        None => Err(CondError::TooWide),
    }
}

// The constant of these digits and this suffix.
fn number_parted(base: u8, digits: &[u8], suffix: &[u8]) -> Result<Num, CondError>
    requires { 0 < base }
    ensures { result ≡ number_parted base digits.now suffix.now }
{
    if 0 < digits.len() && is_suffix(suffix) {
        number_valued(has_u(suffix), base, digits)
    } else {
        Err(CondError::NotInteger)
    }
}

// The constant that a text in this base is.
fn number_in(base: u8, text: &[u8]) -> Result<Num, CondError>
    requires { 0 < base }
    ensures { result ≡ number_spelled (record { base = base; rest = text.now }) }
{
    let (digits, suffix) = text.split_at(digits_before(base, text));
    number_parted(base, digits, suffix)
}

// A constant that begins with `0`, by the next byte and those behind it.
fn behind_zero(text: &[u8], second: u8, rest: &[u8]) -> Result<Num, CondError>
    ensures { result ≡ number_spelled (behind_zero text.now second rest.now) }
{
    if second == b'x' || second == b'X' {
        number_in(16, rest)
    } else if second == b'b' || second == b'B' {
        number_in(2, rest)
    } else {
        number_in(8, text)
    }
}

/// The integer constant that a number's spelling is, or what is wrong with it.
#[tactic(auto, unfolding(crate::specs::Constants::number_value))]
pub fn number_value(text: &[u8]) -> Result<Num, CondError>
    ensures { result ≡ number_value text.now }
{
    match text {
        [b'0', second, rest @ ..] => behind_zero(text, *second, rest),
        _ => number_in(10, text),
    }
}
