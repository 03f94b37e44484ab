// Which parameter each token of a replacement list names (ISO C 6.10.3.1 paragraph 1).
ghost use Rattle.std.specs.Prelude.{◌≡◌, ◌<◌, ◌≤◌, ℕ, List, Some, map, length, if◌then◌else◌, position, bytes_eq, IfOk, OnOk, IfSome};
ghost use Rattle.pp_tokens.specs.Tokens.{token_seen, rest_of};
ghost use Rattle.macro_defs.specs.Arguments.{argument_named, parameters_in};
ghost use Rattle.macro_defs.specs.parts.Stored.{number_for_name, number_named, numbers_kept};

use crate::Shape;
use crate::params::FEW;
use base_types::Bytes;
use indexmap::IndexMap;
use pp_tokens::{Token, TokenRef, Tokens};
use std::alloc::{AllocError, Global};

// For each token of a replacement list the number of the parameter that it names; nothing where there are no parameters.
pub(crate) fn numbers_in(
    alloc: Global,
    shape: &Shape,
    body: &[Token],
) -> Result<Vec<Option<u32>>, AllocError>
    ensures { IfOk result (λ named. named.items ≡ numbers_kept (parameters_in shape.now) body.now) }
{
    match shape {
        Shape::Object => Ok(Vec::new(alloc)),
        Shape::Function { params, .. } => numbers_kept(alloc, params.as_slice(), body),
    }
}

fn numbers_kept(
    alloc: Global,
    params: &[Bytes],
    body: &[Token],
) -> Result<Vec<Option<u32>>, AllocError>
    ensures { IfOk result (λ named. named.items ≡ numbers_kept params.now body.now) }
{
    if params.is_empty() {
        return Ok(Vec::new(alloc));
    }
    if params.len() <= FEW {
        return each_compared(alloc, params, body);
    }
    let numbers = first_numbers(alloc, params)?;
    each_looked_up(alloc, &numbers, body)
}

// The same of a few parameters, by comparing their names.
fn each_compared(
    alloc: Global,
    params: &[Bytes],
    body: &[Token],
) -> Result<Vec<Option<u32>>, AllocError>
    requires { length params.now ≤ 8 }
    ensures { IfOk result (λ named. named.items ≡ map (argument_named params.now) body.now) }
{
    let mut named = Vec::with_capacity(alloc, body.len())?;
    for token in body {
        named.push(compared(params, token.as_ref()))?;
    }
    Ok(named)
}

fn compared(params: &[Bytes], token: TokenRef<'_>) -> Option<u32>
    requires { length params.now ≤ 8 }
    ensures { result ≡ argument_named params.now (token_seen token.entry) }
{
    if !token.is_identifier() {
        return None;
    }
    match first_named(params, token.text) {
        Some(number) => Some(number as u32),
        None => None,
    }
}

// The same of tokens of a file, for a few parameters.
pub(crate) fn numbers_ahead(
    alloc: Global,
    params: &[Bytes],
    body: Tokens<'_>,
) -> Result<Vec<Option<u32>>, AllocError>
    requires { length params.now ≤ 8 }
    ensures { IfOk result (λ named. named.items ≡ numbers_kept params.now (rest_of body.entry)) }
{
    if params.is_empty() {
        return Ok(Vec::new(alloc));
    }
    each_ahead(alloc, params, body)
}

fn each_ahead(
    alloc: Global,
    params: &[Bytes],
    body: Tokens<'_>,
) -> Result<Vec<Option<u32>>, AllocError>
    requires few { length params.now ≤ 8 }
    requires some { 0 < length params.now }
    ensures { IfOk result (λ named. named.items ≡ numbers_kept params.now (rest_of body.entry)) }
{
    let mut named = Vec::with_capacity(alloc, body.len())?;
    for token in body {
        named.push(compared(params, token))?;
    }
    Ok(named)
}

// The number of the first parameter of this name.
fn first_named(params: &[Bytes], name: &[u8]) -> Option<usize>
    ensures first { result ≡ position (bytes_eq name.now) params.now }
    ensures within { IfSome result (λ number. number < length params.now) }
{
    params.iter().position(|param| name == param.as_slice())
}

// The same of any number of parameters, by a map of their numbers.
fn each_looked_up(
    alloc: Global,
    numbers: &IndexMap<&[u8], u32>,
    body: &[Token],
) -> Result<Vec<Option<u32>>, AllocError>
    ensures { IfOk result (λ named. named.items ≡ map (number_named numbers.now) body.now) }
{
    let mut named = Vec::with_capacity(alloc, body.len())?;
    for token in body {
        named.push(looked_up(numbers, token))?;
    }
    Ok(named)
}

fn looked_up(numbers: &IndexMap<&[u8], u32>, token: &Token) -> Option<u32>
    ensures { result ≡ number_named numbers.now token.now }
{
    if !token.is_identifier() {
        return None;
    }
    numbers.get(token.text.as_slice()).copied()
}

// For each name the number of the first parameter that has it.
fn first_numbers(alloc: Global, params: &[Bytes]) -> Result<IndexMap<&[u8], u32>, AllocError>
    ensures { IfOk result (λ numbers. (name : List ℕ) → number_for_name numbers name ≡ position (bytes_eq name) params.now) }
{
    let mut numbers = IndexMap::new(alloc);
    for place in (0..params.len()).rev() {
        put_number(&mut numbers, params[place].as_slice(), place)?;
    }
    Ok(numbers)
}

// Gives a name this number, also where it has another. Memory has no room for so many parameters that a number is too large.
fn put_number<'n>(
    numbers: &mut IndexMap<&'n [u8], u32>,
    name: &'n [u8],
    number: usize,
) -> Result<(), AllocError>
    ensures { OnOk result ((other : List ℕ) → number_for_name numbers.new other ≡ (if bytes_eq other name.now then Some number else number_for_name numbers.old other)) }
{
    let Ok(number) = u32::try_from(number) else {
        return Err(AllocError);
    };
    match numbers.insert(name, number) {
        Ok(_) => Ok(()),
        Err(_) => Err(AllocError),
    }
}
