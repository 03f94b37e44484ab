// Replacement lists (ISO C 6.10.3).
ghost use Rattle.std.specs.Prelude.{◌≡◌, ℕ, List, IfOk, IfErr, Ok};
ghost use Rattle.macro_defs.specs.parts.Stored.{names_held};
ghost use Rattle.macro_defs.specs.Defining as spec;
ghost use Rattle.macro_defs.specs.Defining.{RefusesDefinition};

use crate::params::{Names, names_for};
use crate::{DefineError, Definition, Shape};
use base_types::{Bytes, List};
use pp_tokens::Token;
use std::alloc::{AllocError, Global};

// A macro of this form with this replacement list, where a parameter follows each `#`.
#[inline(always)]
pub(crate) fn with_body(
    alloc: Global,
    shape: Shape,
    hashes: bool,
    body: Vec<Token>,
) -> Result<Definition, DefineError>
    ensures ok { IfOk result (λ d. (name : List ℕ) → spec.with_body name shape hashes body.items ≡ Ok (record { name = name; definition = d })) }
    ensures err { IfErr result (λ e. (name : List ℕ) → RefusesDefinition e (spec.with_body name shape hashes body.items)) }
{
    if begins_with_pasting(&body) {
        return Err(DefineError::PasteEnd);
    }
    if ends_with_pasting(&body) {
        return Err(DefineError::PasteEnd);
    }
    if !hashes {
        return Err(DefineError::Hash);
    }
    Ok(Definition::new(alloc, shape, List::of(body))?)
}

fn begins_with_pasting(body: &[Token]) -> bool
    ensures { result ≡ spec.begins_with_pasting body.now }
{
    match body {
        [first, ..] => first.is_pasting(),
        [] => false,
    }
}

fn ends_with_pasting(body: &[Token]) -> bool
    ensures { result ≡ spec.ends_with_pasting body.now }
{
    if body.is_empty() {
        return false;
    }
    body[body.len() - 1].is_pasting()
}

// Whether a parameter follows each `#`.
pub(crate) fn hashes_parameters(
    alloc: Global,
    names: &[Bytes],
    body: &[Token],
) -> Result<bool, AllocError>
    ensures { IfOk result (λ right. right ≡ spec.hashes_parameters names.now body.now) }
{
    let known = names_for(alloc, names)?;
    Ok(hashes_known(&known, body))
}

fn hashes_known(known: &Names<'_>, body: &[Token]) -> bool
    ensures { result ≡ spec.hashes_parameters (names_held known.now) body.now }
{
    for (i, token) in body.iter().enumerate() {
        if is_wrong_hash(known, token, &body[i + 1..]) {
            return false;
        }
    }
    true
}

// Whether the token is a `#` that no parameter follows.
fn is_wrong_hash(known: &Names<'_>, token: &Token, behind: &[Token]) -> bool
    ensures { result ≡ spec.is_wrong_hash (names_held known.now) token.now behind.now }
{
    token.is_hash() && !begins_with_parameter(known, behind)
}

fn begins_with_parameter(known: &Names<'_>, tokens: &[Token]) -> bool
    ensures { result ≡ spec.begins_with_parameter (names_held known.now) tokens.now }
{
    match tokens {
        [first, ..] => first.is_identifier() && known.hold(first.text.as_slice()),
        [] => false,
    }
}
