// The header names that expanded tokens give (ISO C 6.10.2 paragraph 4).
ghost use Rattle.std.specs.Prelude.{◌≡◌, ◌++◌, ◌∷◌, ◌-◌, true, false, length, take, drop, option_and_then, IfOk, OnOk};
ghost use Rattle.directive_scan.specs.HeaderNames.{named, between, is_plain_string, space_before, spaced, up_to_close, header_named};

use crate::directive::HeaderName;
use base_types::Bytes;
use pp_tokens::Token;
use std::alloc::{AllocError, Global};

/// The header name that the expanded tokens of an `#include` give (ISO C 6.10.2 paragraph 4), without its delimiters; None
/// exactly where they give none. A string literal without a prefix gives what stands between its quotes, escapes as
/// written, in quote form. A `<` with a `>` behind it gives, in angle form, the spellings before the first `>`, with one
/// space where white space stands between two of them. A name isn't empty, and what stands behind it doesn't count. Time
/// is linear in the tokens and bytes up to its end; the only error is want of memory.
#[tactic(auto, unfolding(crate::specs::HeaderNames::header_named))]
pub fn header_of(alloc: Global, tokens: &[Token]) -> Result<Option<HeaderName>, AllocError>
    ensures { IfOk result (λ h. h ≡ header_named tokens.now) }
{
    match tokens {
        [first, behind @ ..] => name_at(alloc, first, behind),
        [] => Ok(None),
    }
}

// The header name that a first token gives with those behind it.
#[tactic(auto, unfolding(crate::specs::HeaderNames::header_named))]
fn name_at(alloc: Global, first: &Token, behind: &[Token]) -> Result<Option<HeaderName>, AllocError>
    ensures { IfOk result (λ h. h ≡ header_named (first.now ∷ behind.now)) }
{
    if is_plain_string(first) {
        return string_name(alloc, first.text.as_slice());
    }
    if first.is_mark(b"<") {
        return angle_name(alloc, behind);
    }
    Ok(None)
}

// What stands between the quotes of a string literal.
fn string_name(alloc: Global, text: &[u8]) -> Result<Option<HeaderName>, AllocError>
    ensures { IfOk result (λ h. h ≡ named false (between text.now)) }
{
    let name = Bytes::copy_of(alloc, between(text))?;
    Ok(named(false, name))
}

// What the tokens behind a `<` name.
fn angle_name(alloc: Global, behind: &[Token]) -> Result<Option<HeaderName>, AllocError>
    ensures { IfOk result (λ h. h ≡ option_and_then (named true) (up_to_close true behind.now)) }
{
    match up_to_close(alloc, behind)? {
        Some(name) => Ok(named(true, name)),
        None => Ok(None),
    }
}

// The spellings up to the first `>`; None where there is none.
fn up_to_close(alloc: Global, tokens: &[Token]) -> Result<Option<Bytes>, AllocError>
    ensures { IfOk result (λ name. name ≡ up_to_close true tokens.now) }
{
    let mut name = Bytes::new(alloc);
    let mut first = true;
    for token in tokens {
        if token.is_mark(b">") {
            return Ok(Some(name));
        }
        add_spelling(&mut name, token, first)?;
        first = false;
    }
    Ok(None)
}

fn add_spelling(name: &mut Bytes, token: &Token, first: bool) -> Result<(), AllocError>
    ensures { OnOk result (name.new ≡ name.old ++ spaced first token.now) }
{
    name.extend(space_before(token, first))?;
    name.extend(token.text.as_slice())
}

fn space_before(token: &Token, first: bool) -> &[u8]
    ensures { result.now ≡ space_before first token.now }
{
    if token.space && !first { b" " } else { b"" }
}

// A name, where it isn't empty.
fn named(angle: bool, name: Bytes) -> Option<HeaderName>
    ensures { result ≡ named angle name }
{
    if name.len() == 0 {
        return None;
    }
    Some(HeaderName { angle, name })
}

// Whether a token is a string literal without a prefix.
fn is_plain_string(token: &Token) -> bool
    ensures { result ≡ is_plain_string token.now }
{
    token.is_string() && token.text.as_slice().starts_with(b"\"")
}

/// What stands between the first byte and the last one.
pub fn between(text: &[u8]) -> &[u8]
    ensures { result.now ≡ take (length text.now - 2) (drop 1 text.now) }
{
    match text {
        [_, name @ .., _] => name,
        _ => &[],
    }
}
