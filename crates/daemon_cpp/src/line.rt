// Line directives (ISO C 6.10.4).
ghost use Rattle.std.specs.Prelude.{◌≡◌, ◌≤◌, ◌+◌, ◌-◌, ◌*◌, ◌&&◌, true, false, Some, None, length, take, drop, min, nat_lt, nat_le, if◌then◌else◌, IfOk, IfSome, IsErrOf, IsTrue};
ghost use Rattle.std.specs.List.{list_all};
ghost use Rattle.base_types.specs.Ascii as ascii;
ghost use Rattle.pp_tokens.specs.declared.Kind.TheVariants.{Number};
ghost use Rattle.directive_scan.specs.HeaderNames as header_names;
ghost use Rattle.cond_eval.specs.Constants.{digit_value, is_digit_in, value_behind};
ghost use Rattle.daemon_cpp.specs.Prep.{line_number, number_and_name, new_line, line_told, line_read, expand_line as line_expanded, reach};
ghost use Rattle.daemon_cpp.specs.parts.Showing.{Leads, here_seen, TellsLine};
ghost use Rattle.macro_expand.specs.declared.outcome.Mode.TheVariants as mode;

use crate::diagnostic::Problem;
use crate::kept::{Kept, Places};
use crate::stop::{Stop, refused};
use crate::text::expand_line;
use base_types::Bytes;
use macro_expand::Mode;
use pp_tokens::{Kind, Token};
use std::alloc::{AllocError, Global};

/// What a `#line` says: the presumed number of the line behind it, from 1 to 2,147,483,647, and maybe the file's presumed name.
#[derive(Drop)]
pub struct NewLine {
    pub number: u32,
    pub name: Option<Bytes>,
}

// The greatest number of a line.
const GREATEST: u32 = 2_147_483_647;

/// What a `#line` says, as it is written, or else as its tokens are expanded.
pub fn read_line(
    alloc: Global,
    kept: &mut Kept,
    places: Places<'_>,
    at: u32,
    tokens: &[Token],
) -> Result<NewLine, Stop>
    ensures leads { Leads kept.old kept.new places.entry.source.now (here_seen places.entry) (λ state. line_read at tokens.now state) result }
    ensures narrow { IfOk result (λ new. new.number ≤ 2147483647) }
    ensures spends { kept.new.work.left ≤ kept.old.work.left }
    ensures no_fault { IsErrOf result Stop.Fault → ⊥ }
{
    match new_line(alloc, tokens) {
        Ok(Some(new)) => Ok(new),
        Ok(None) => read_expanded(alloc, kept, places, at, tokens),
        Err(_) => Err(Stop::Memory),
    }
}

// What the tokens of a `#line` say as they are expanded.
fn read_expanded(
    alloc: Global,
    kept: &mut Kept,
    places: Places<'_>,
    at: u32,
    tokens: &[Token],
) -> Result<NewLine, Stop>
    ensures leads { Leads kept.old kept.new places.entry.source.now (here_seen places.entry)
        (λ state. reach (λ ts after. line_told at (new_line ts) after) (line_expanded at mode.Text tokens.now state)) result }
    ensures narrow { IfOk result (λ new. new.number ≤ 2147483647) }
    ensures spends { kept.new.work.left ≤ kept.old.work.left }
    ensures no_fault { IsErrOf result Stop.Fault → ⊥ }
{
    match expand_line(alloc, kept, places, at, Mode::Text, tokens) {
        Ok(expanded) => told(alloc, places, at, expanded.as_slice()),
        Err(stop) => Err(stop),
    }
}

// What tokens say, which is a number and maybe a name, or else no line directive may say it.
fn told(alloc: Global, places: Places<'_>, at: u32, tokens: &[Token]) -> Result<NewLine, Stop>
    ensures tells { TellsLine places.entry.visit.now.place at (new_line tokens.now) result }
    ensures narrow { IfOk result (λ new. new.number ≤ 2147483647) }
    ensures no_fault { IsErrOf result Stop.Fault → ⊥ }
{
    match new_line(alloc, tokens) {
        Ok(Some(new)) => Ok(new),
        Ok(None) => Err(refused(alloc, &places.visit.place, at, Problem::BadLine)),
        Err(_) => Err(Stop::Memory),
    }
}

// The number and maybe the name that tokens are.
#[tactic(auto, unfolding(crate::specs::Prep::new_line))]
fn new_line(alloc: Global, tokens: &[Token]) -> Result<Option<NewLine>, AllocError>
    ensures is { IfOk result (λ new. new ≡ new_line tokens.now) }
    ensures narrow { IfOk result (λ new. IfSome new (λ n. n.number ≤ 2147483647)) }
{
    match tokens {
        [number] => Ok(with_name(line_number(number), None)),
        [number, name] => named_line(alloc, number, name),
        _ => Ok(None),
    }
}

// A number, and a name in quotes.
fn named_line(alloc: Global, number: &Token, name: &Token) -> Result<Option<NewLine>, AllocError>
    ensures is { IfOk result (λ new. new ≡ (if header_names.is_plain_string name.now then number_and_name (line_number number.now) (Some (header_names.between name.now.text)) else None)) }
    ensures narrow { IfOk result (λ new. IfSome new (λ n. n.number ≤ 2147483647)) }
{
    if !is_plain_string(name) {
        return Ok(None);
    }
    let name = Bytes::copy_of(alloc, between(name.text.as_slice()))?;
    Ok(with_name(line_number(number), Some(name)))
}

fn with_name(number: Option<u32>, name: Option<Bytes>) -> Option<NewLine>
    requires { IfSome number (λ n. n ≤ 2147483647) }
    ensures is { result ≡ number_and_name number name }
    ensures narrow { IfSome result (λ n. n.number ≤ 2147483647) }
{
    match number {
        Some(number) => Some(NewLine { number, name }),
        None => None,
    }
}

// Whether a token is a string literal without a prefix.
fn is_plain_string(token: &Token) -> bool
    ensures { result ≡ header_names.is_plain_string token.now }
{
    token.is_string() && token.text.as_slice().starts_with(b"\"")
}

// What stands between the first byte and the last one.
fn between(text: &[u8]) -> &[u8]
    ensures { result.now ≡ take (length text.now - 2) (drop 1 text.now) }
{
    match text {
        [_, name @ .., _] => name,
        _ => &[],
    }
}

// The number that a token is: digits alone, from 1 to 2,147,483,647 (6.10.4 paragraph 3).
fn line_number(token: &Token) -> Option<u32>
    ensures is { result ≡ line_number token.now }
    ensures narrow { IfSome result (λ n. n ≤ 2147483647) }
{
    if !is_number(token.kind) {
        return None;
    }
    match value_of(token.text.as_slice()) {
        Some(value) => in_range(value),
        None => None,
    }
}

fn is_number(kind: Kind) -> bool
    ensures { result ≡ (elim kind [ Number ↦ true | _ ↦ false ]) }
{
    matches!(kind, Kind::Number)
}

fn in_range(value: u32) -> Option<u32>
    ensures is { result ≡ (if nat_lt 0 value && nat_le value 2147483647 then Some value else None) }
    ensures narrow { IfSome result (λ n. n ≤ 2147483647) }
{
    if 0 < value && value <= GREATEST {
        Some(value)
    } else {
        None
    }
}

// What digits stand for, or one more than the greatest number where that is less; None where another byte is among them.
fn value_of(text: &[u8]) -> Option<u32>
    ensures { result ≡ (if list_all (is_digit_in 10) text.now then Some (min (value_behind 10 0 text.now) 2147483648) else None) }
{
    let mut value = 0;
    for byte in text {
        if !is_digit(*byte) {
            return None;
        }
        value = with_digit(value, *byte);
    }
    Some(value)
}

fn is_digit(byte: u8) -> bool
    ensures is { result ≡ is_digit_in 10 byte }
    ensures within { IsTrue result → (ascii.zero_digit ≤ byte) × (byte ≤ ascii.nine_digit) }
{
    b'0' <= byte && byte <= b'9'
}

// A value with one more digit.
fn with_digit(value: u32, digit: u8) -> u32
    requires small { value ≤ 2147483648 }
    requires from { ascii.zero_digit ≤ digit }
    requires to { digit ≤ ascii.nine_digit }
    ensures { result ≡ min (value * 10 + digit_value digit) 2147483648 }
{
    let more = u64::from(value) * 10 + u64::from(digit - b'0');
    more.min(u64::from(GREATEST) + 1) as u32
}
