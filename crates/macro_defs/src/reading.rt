// Reading a `#define` line.
ghost use Rattle.std.specs.Prelude.{◌≡◌, ◌≤◌, ◌+◌, ◌-◌, ◌∷◌, [], ℕ, List, length, take, drop, true, false, if◌then◌else◌, IfOk, IfErr, IfSome, IsTrue, Ok};
ghost use Rattle.std.specs.Arc.{arc_value};
ghost use Rattle.std.specs.List.{list_any};
ghost use Rattle.pp_tokens.specs.Lines.{all_tokens};
ghost use Rattle.pp_tokens.specs.Marks.{is_pasting};
ghost use Rattle.pp_tokens.specs.Tokens.{token_seen, rest_of};
ghost use Rattle.macro_defs.specs.declared.definition.Shape.TheVariants.{Object};
ghost use Rattle.macro_defs.specs.Defining as spec;
ghost use Rattle.macro_defs.specs.Defining.{defined_by, up_to_parenthesis, RefusesDefinition};

use crate::marks::{begins_parameters, has_pasting, parted};
use crate::params::parameters_of;
use crate::replacement::{hashes_parameters, with_body};
use crate::shared_function::function_within;
use crate::{DefineError, Definition, Shape};
use base_types::Bytes;
use pp_tokens::{Lexed, Token, TokenRef, Tokens};
use std::alloc::{AllocError, Global};
use std::sync::Arc;

/// Whether a token may name a macro, in `#define` and in `#undef` (ISO C 6.10.8 paragraph 4): an identifier other than
/// `defined`, `__FILE__`, `__LINE__`, `__VA_ARGS__` and `__has_include`.
#[inline(always)]
pub fn names_macro(token: &TokenRef<'_>) -> bool
    ensures { result ≡ spec.names_macro (token_seen token.now) }
{
    token.is_identifier() && !is_reserved(token.text)
}

// Whether an identifier names no macro of a program.
fn is_reserved(name: &[u8]) -> bool
    ensures { result ≡ spec.is_reserved_name name.now }
{
    name == b"defined".as_slice()
        || name == b"__FILE__".as_slice()
        || name == b"__LINE__".as_slice()
        || name == b"__VA_ARGS__".as_slice()
        || name == b"__has_include".as_slice()
}

/// The name and the definition that the tokens behind `#define` give, or the first of the four errors, in their order. The
/// tokens of the replacement list are copied into the definition. Time is linear in the tokens, on average.
pub fn read_define(alloc: Global, rest: Tokens<'_>) -> Result<(Bytes, Definition), DefineError>
    ensures ok { IfOk result (λ d. defined_by (rest_of rest.entry) ≡ Ok (record { name = d.0; definition = d.1 })) }
    ensures err { IfErr result (λ e. RefusesDefinition e (defined_by (rest_of rest.entry))) }
{
    let mut behind = rest;
    let Some(name) = behind.next() else {
        return Err(DefineError::Name);
    };
    if !names_macro(&name) {
        return Err(DefineError::Name);
    }
    let behind = copied(alloc, behind)?;
    let definition = after_name(alloc, behind)?;
    Ok((Bytes::copy_of(alloc, name.text)?, definition))
}

/// The same of the tokens of a file from one number up to another, as `Lexed::tokens` counts them. Most macros share the file, and no token
/// of their replacement lists is copied: object-like ones without `##`, and function-like ones without `#` and `##` that have 8 parameters at
/// most.
pub fn read_shared(
    alloc: Global,
    file: &Arc<Lexed, Global>,
    from: usize,
    end: usize,
) -> Result<(Bytes, Definition), DefineError>
    ensures ok { IfOk result (λ d. defined_by (take (end - from) (drop from (all_tokens (arc_value file.now)))) ≡ Ok (record { name = d.0; definition = d.1 })) }
    ensures err { IfErr result (λ e. RefusesDefinition e (defined_by (take (end - from) (drop from (all_tokens (arc_value file.now)))))) }
{
    if let Some(named) = plain_within(alloc, file, from, end)? {
        return Ok(named);
    }
    if let Some(named) = function_within(alloc, file, from, end)? {
        return Ok(named);
    }
    read_define(alloc, file.tokens(from, end))
}

// The name and the definition of an object-like macro without `##`, where the tokens from one number up to another give one.
#[inline(always)]
fn plain_within(
    alloc: Global,
    file: &Arc<Lexed, Global>,
    from: usize,
    end: usize,
) -> Result<Option<(Bytes, Definition)>, AllocError>
    ensures { IfOk result (λ found. IfSome found (λ d. defined_by (take (end - from) (drop from (all_tokens (arc_value file.now)))) ≡ Ok (record { name = d.0; definition = d.1 }))) }
{
    let Some((start, stop)) = numbers_behind(from, 1, end) else {
        return Ok(None);
    };
    let mut behind = file.tokens(from, end);
    let Some(name) = behind.next() else {
        return Ok(None);
    };
    if !names_macro(&name) || !is_plain(behind) {
        return Ok(None);
    }
    let definition = Definition::shared(file, start, stop)?;
    Ok(Some((Bytes::copy_of(alloc, name.text)?, definition)))
}

// The numbers of the token behind so many and of the end, where they aren't too large.
#[inline(always)]
pub(crate) fn numbers_behind(from: usize, count: usize, end: usize) -> Option<(u32, u32)>
    ensures { IfSome result (λ numbers. (numbers.0 ≡ from + count) × (numbers.1 ≡ end)) }
{
    let Ok(start) = u32::try_from(from.checked_add(count)?) else {
        return None;
    };
    let Ok(stop) = u32::try_from(end) else {
        return None;
    };
    Some((start, stop))
}

// Whether the tokens behind a name are the replacement list of an object-like macro that has no `##`.
#[inline(always)]
fn is_plain(behind: Tokens<'_>) -> bool
    ensures { IsTrue result → ((name : List ℕ) → spec.after_name name (rest_of behind.entry) ≡ spec.with_body name Object true (rest_of behind.entry))
        × (list_any is_pasting (rest_of behind.entry) ≡ false) }
{
    !has_parameters(behind) && !has_pasting(behind)
}

// Whether parameters stand first behind the name.
#[inline(always)]
fn has_parameters(behind: Tokens<'_>) -> bool
    ensures { result ≡ false → (name : List ℕ) → spec.after_name name (rest_of behind.entry) ≡ spec.with_body name Object true (rest_of behind.entry) }
{
    let mut behind = behind;
    match behind.next() {
        Some(first) => first.is_mark(b"(") && !first.space,
        None => false,
    }
}

fn copied(alloc: Global, tokens: Tokens<'_>) -> Result<Vec<Token>, AllocError>
    ensures { IfOk result (λ copies. copies.items ≡ rest_of tokens.entry) }
{
    let tokens = tokens.to_list(alloc)?;
    Ok(tokens.into_vec())
}

// What the tokens behind the name define.
fn after_name(alloc: Global, behind: Vec<Token>) -> Result<Definition, DefineError>
    ensures ok { IfOk result (λ d. (name : List ℕ) → spec.after_name name behind.items ≡ Ok (record { name = name; definition = d })) }
    ensures err { IfErr result (λ e. (name : List ℕ) → RefusesDefinition e (spec.after_name name behind.items)) }
{
    if begin_parameters(&behind) {
        return enclosed_of(alloc, behind);
    }
    with_body(alloc, Shape::Object, true, behind)
}

// Whether parameters stand first behind the name.
fn begin_parameters(behind: &[Token]) -> bool
    ensures told { (name : List ℕ) → spec.after_name name behind.now ≡ (if result then spec.enclosed_of name (up_to_parenthesis (drop 1 behind.now)) else spec.with_body name Object true behind.now) }
    ensures some { IsTrue result → 1 ≤ length behind.now }
{
    match behind {
        [first, ..] => begins_parameters(first),
        [] => false,
    }
}

// What a `(` and the tokens behind it define.
fn enclosed_of(alloc: Global, tokens: Vec<Token>) -> Result<Definition, DefineError>
    requires { 1 ≤ length tokens.items }
    ensures ok { IfOk result (λ d. (name : List ℕ) → spec.enclosed_of name (up_to_parenthesis (drop 1 tokens.items)) ≡ Ok (record { name = name; definition = d })) }
    ensures err { IfErr result (λ e. (name : List ℕ) → RefusesDefinition e (spec.enclosed_of name (up_to_parenthesis (drop 1 tokens.items)))) }
{
    let Some((within, body)) = parted(&tokens[1..], b")") else {
        return Err(DefineError::Params);
    };
    let (shape, hashes) = form_of(alloc, within, body)?;
    let front = tokens.len() - body.len();
    let body = behind_first(tokens, front)?;
    with_body(alloc, shape, hashes, body)
}

// The form of a macro with the parameters that stand between the parentheses, and whether one follows each `#` of the body.
fn form_of(alloc: Global, within: &[Token], body: &[Token]) -> Result<(Shape, bool), DefineError>
    ensures ok { IfOk result (λ form. (name : List ℕ) → spec.function_of name (spec.parameters_of within.now) body.now ≡ spec.with_body name form.0 form.1 body.now) }
    ensures err { IfErr result (λ e. (name : List ℕ) → RefusesDefinition e (spec.function_of name (spec.parameters_of within.now) body.now)) }
{
    let (params, variadic) = parameters_of(alloc, within)?;
    let hashes = hashes_parameters(alloc, params.as_slice(), body)?;
    Ok((Shape::Function { params, variadic }, hashes))
}

// The tokens behind so many.
fn behind_first(tokens: Vec<Token>, count: usize) -> Result<Vec<Token>, AllocError>
    requires { count ≤ length tokens.items }
    ensures { IfOk result (λ behind. behind.items ≡ drop count tokens.items) }
{
    let mut tokens = tokens;
    tokens.split_off(count)
}
