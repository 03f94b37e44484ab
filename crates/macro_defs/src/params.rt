// The parameters of a function-like macro (ISO C 6.10.3 paragraph 10).
ghost use Rattle.std.specs.Prelude.{◌≡◌, ◌++◌, ◌∷◌, [], ℕ, List, not, ◌||◌, codes, bytes_eq, IfOk, IfErr, OnOk, MatchOption, Some, None};
ghost use Rattle.std.specs.List.{list_any};
ghost use Rattle.std.specs.Option.{option_flatten};
ghost use Rattle.macro_defs.specs.parts.Stored.{spellings_of, names_held};
ghost use Rattle.macro_defs.specs.Defining as spec;
ghost use Rattle.macro_defs.specs.Defining.{Parameters, RefusesParameters, before_parameters, last_parameter, cut_at_commas, is_written_reserved};

use crate::DefineError;
use crate::marks::parted;
use base_types::{Bytes, List};
use indexmap::IndexSet;
use pp_tokens::Token;
use std::alloc::{AllocError, Global};

// So many names are compared with a spelling in no more time than it is hashed.
pub(crate) const FEW: usize = 8;

const VARIABLE_ARGUMENT: &[u8] = b"__VA_ARGS__";

// The parameters that the tokens between the parentheses list, and whether the last is variadic.
pub(crate) fn parameters_of(
    alloc: Global,
    within: &[Token],
) -> Result<(List<Bytes>, bool), DefineError>
    ensures ok { IfOk result (λ p. spec.parameters_of within.now ≡ Some (record { names = p.0; variadic = p.1 })) }
    ensures err { IfErr result (λ e. RefusesParameters e (spec.parameters_of within.now)) }
{
    if within.is_empty() {
        return Ok((List::new(alloc), false));
    }
    if writes_reserved(within) {
        return Err(DefineError::Params);
    }
    let (names, variadic) = listed(alloc, within)?;
    if !are_distinct(alloc, names.as_slice())? {
        return Err(DefineError::Params);
    }
    Ok((names, variadic))
}

// Whether `__VA_ARGS__` is written.
fn writes_reserved(tokens: &[Token]) -> bool
    ensures { result ≡ list_any is_written_reserved tokens.now }
{
    tokens
        .iter()
        .any(|token| token.text.as_slice() == VARIABLE_ARGUMENT)
}

// The names between the commas.
fn listed(alloc: Global, within: &[Token]) -> Result<(List<Bytes>, bool), DefineError>
    ensures ok { IfOk result (λ p. spec.listed (cut_at_commas within.now) ≡ Some (record { names = p.0; variadic = p.1 })) }
    ensures err { IfErr result (λ e. RefusesParameters e (spec.listed (cut_at_commas within.now))) }
{
    let mut names = List::new(alloc);
    let mut rest = within;
    while let Some((piece, behind)) = parted(rest, b",") {
        let Some(name) = named_before(piece) else {
            return Err(DefineError::Params);
        };
        push_name(alloc, &mut names, name)?;
        rest = behind;
    }
    let Some((name, variadic)) = named_last(rest) else {
        return Err(DefineError::Params);
    };
    push_name(alloc, &mut names, name)?;
    Ok((names, variadic))
}

fn push_name(alloc: Global, names: &mut List<Bytes>, name: &[u8]) -> Result<(), AllocError>
    ensures { OnOk result (names.new ≡ names.old ++ name.now ∷ []) }
{
    let name = Bytes::copy_of(alloc, name)?;
    names.push(name)?;
    Ok(())
}

// The name that a piece before the last is.
fn named_before(piece: &[Token]) -> Option<&[u8]>
    ensures { MatchOption result ((p : Parameters) → before_parameters piece.now (Some p) ≡ None) (λ n. (p : Parameters) → before_parameters piece.now (Some p) ≡ Some (record p { names = n.now ∷ p.names })) }
{
    let [token] = piece else {
        return None;
    };
    if !token.is_identifier() {
        return None;
    }
    Some(token.text.as_slice())
}

// The name that the last piece is, and whether it is variadic.
fn named_last(piece: &[Token]) -> Option<(&[u8], bool)>
    ensures { MatchOption result (last_parameter piece.now ≡ None) (λ p. last_parameter piece.now ≡ Some (record { names = p.0.now ∷ []; variadic = p.1 })) }
{
    match piece {
        [token] => named_alone(token),
        [token, dots] => named_variadic(token, dots),
        _ => None,
    }
}

// The name of a last piece of one token: an identifier, or `...`.
fn named_alone(token: &Token) -> Option<(&[u8], bool)>
    ensures { MatchOption result (last_parameter (token.now ∷ []) ≡ None) (λ p. last_parameter (token.now ∷ []) ≡ Some (record { names = p.0.now ∷ []; variadic = p.1 })) }
{
    if token.is_mark(b"...") {
        return Some((VARIABLE_ARGUMENT, true));
    }
    if !token.is_identifier() {
        return None;
    }
    Some((token.text.as_slice(), false))
}

// The name of a last piece of two tokens: an identifier and `...`.
fn named_variadic<'t>(token: &'t Token, dots: &Token) -> Option<(&'t [u8], bool)>
    ensures { MatchOption result (last_parameter (token.now ∷ dots.now ∷ []) ≡ None) (λ p. last_parameter (token.now ∷ dots.now ∷ []) ≡ Some (record { names = p.0.now ∷ []; variadic = p.1 })) }
{
    if !token.is_identifier() {
        return None;
    }
    if !dots.is_mark(b"...") {
        return None;
    }
    Some((token.text.as_slice(), true))
}

// Names for look-ups: a few are compared one by one, more are looked up in a set.
#[derive(Drop)]
pub(crate) enum Names<'n> {
    Few(&'n [Bytes]),
    Many(IndexSet<&'n [u8]>),
}

// The names, for look-ups.
pub(crate) fn names_for(alloc: Global, names: &[Bytes]) -> Result<Names<'_>, AllocError>
    ensures { IfOk result (λ known. (name : List ℕ) → list_any (bytes_eq name) (names_held known) ≡ list_any (bytes_eq name) names.now) }
{
    if names.len() <= FEW {
        return Ok(Names::Few(names));
    }
    Ok(Names::Many(known_names(alloc, names)?))
}

impl Names<'_> {
    ghost use Rattle.std.specs.Prelude.{◌≡◌, bytes_eq};
    ghost use Rattle.std.specs.List.{list_any};
    ghost use Rattle.macro_defs.specs.parts.Stored.{names_held};

    // Whether a name is one of these.
    pub(crate) fn hold(&self, name: &[u8]) -> bool
        ensures { result ≡ list_any (bytes_eq name.now) (names_held self.now) }
    {
        match self {
            Names::Few(names) => is_among(names, name),
            Names::Many(known) => holds(known, name),
        }
    }
}

fn is_among(names: &[Bytes], name: &[u8]) -> bool
    ensures { result ≡ list_any (bytes_eq name.now) names.now }
{
    names.iter().any(|other| name == other.as_slice())
}

// Whether no name stands twice.
fn are_distinct(alloc: Global, names: &[Bytes]) -> Result<bool, AllocError>
    ensures { IfOk result (λ distinct. distinct ≡ spec.are_distinct names.now) }
{
    if names.len() <= FEW {
        return Ok(few_distinct(names));
    }
    many_distinct(alloc, names)
}

// The same of a few names, by comparing each with those behind it.
fn few_distinct(names: &[Bytes]) -> bool
    ensures { result ≡ spec.are_distinct names.now }
{
    for (i, name) in names.iter().enumerate() {
        if is_among(&names[i + 1..], name.as_slice()) {
            return false;
        }
    }
    true
}

// The same of any number of names, by a set of those before each.
fn many_distinct(alloc: Global, names: &[Bytes]) -> Result<bool, AllocError>
    ensures { IfOk result (λ distinct. distinct ≡ spec.are_distinct names.now) }
{
    let mut known = IndexSet::new(alloc);
    for name in names {
        if !add_name(&mut known, name)? {
            return Ok(false);
        }
    }
    Ok(true)
}

// A set of the names.
fn known_names(alloc: Global, names: &[Bytes]) -> Result<IndexSet<&[u8]>, AllocError>
    ensures { IfOk result (λ known. (name : List ℕ) → list_any (bytes_eq name) (spellings_of known.keys) ≡ list_any (bytes_eq name) names.now) }
{
    let mut known = IndexSet::new(alloc);
    for name in names {
        add_name(&mut known, name)?;
    }
    Ok(known)
}

// Adds a name, and tells whether it wasn't there.
fn add_name<'n>(known: &mut IndexSet<&'n [u8]>, name: &'n Bytes) -> Result<bool, AllocError>
    ensures new { IfOk result (λ new. new ≡ not (list_any (bytes_eq name.now) (spellings_of known.old.keys))) }
    ensures known { OnOk result ((other : List ℕ) → list_any (bytes_eq other) (spellings_of known.new.keys) ≡ (list_any (bytes_eq other) (spellings_of known.old.keys) || bytes_eq other name.now)) }
{
    match known.insert(name.as_slice()) {
        Ok(new) => Ok(new),
        Err(_) => Err(AllocError),
    }
}

// Whether a name is in a set.
fn holds(known: &IndexSet<&[u8]>, name: &[u8]) -> bool
    ensures { result ≡ list_any (bytes_eq name.now) (spellings_of known.now.keys) }
{
    known.contains(name)
}
