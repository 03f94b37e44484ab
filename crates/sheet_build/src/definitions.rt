// The definitions of a file's `#define` lines (ISO C 6.10.3): their tokens are counted where a sheet is built, and they are read where
// they are asked for.
ghost use Rattle.std.specs.Prelude.{◌≡◌, [], ◌++◌, ◌≤◌, ◌&&◌, ◌-◌, ◌^◌, ℕ, List, not, length, map, min, None, IfOk, OnOk, IfSome, IsNone};
ghost use Rattle.std.specs.List.{cons_option, filter_map, list_any};
ghost use Rattle.base_types.specs.Limits.{body_limit};
ghost use Rattle.pp_tokens.specs.Lines.{lexed};
ghost use Rattle.directive_scan.specs.Directives as scanning;
ghost use Rattle.pp_tokens.specs.Tokens.{token_seen, rest_of};
ghost use Rattle.pp_tokens.specs.Marks as marks;
ghost use Rattle.directive_scan.specs.Spots.{piece_seen};
ghost use Rattle.macro_defs.specs.Defining as spec;
ghost use Rattle.sheet_build.specs.Sheet.{named_pair, accepted, definition_in};
ghost use Rattle.sheet_build.specs.Weights.{tokens_defined};
ghost use Rattle.sheet_build.specs.parts.Counted as counted;

use base_types::{Bytes, List};
use directive_scan::{Asked, PieceRef, Pieces, directives_stand_alone};
use macro_defs::{DefineError, Definition, names_macro, read_define};
use pp_tokens::{TokenRef, Tokens, lex_directives};
use std::alloc::{AllocError, Global};

// Reading.

// The definitions of the `#define` lines that are well formed, in order.
pub fn definitions_in(
    alloc: Global,
    pieces: &Pieces,
) -> Result<List<(Bytes, Definition)>, AllocError>
    ensures { IfOk result (λ defs. map named_pair defs ≡ filter_map definition_in pieces.now) }
{
    let mut defs = List::new(alloc);
    for number in 0..pieces.len() {
        add_piece(alloc, pieces.piece(number), &mut defs)?;
    }
    Ok(defs)
}

// Those of a file with these bytes.
pub fn definitions_of_body(
    alloc: Global,
    body: &[u8],
    trigraphs: bool,
) -> Result<List<(Bytes, Definition)>, AllocError>
    requires { length body.now ≤ body_limit }
    ensures { IfOk result (λ defs. map named_pair defs ≡ filter_map definition_in (scanning.pieces (lexed trigraphs body.now).lines)) }
{
    directives_stand_alone();
    let text = body.to_vec(alloc)?;
    let lexed = lex_directives(alloc, text, trigraphs)?;
    let pieces = Pieces::of(alloc, lexed)?;
    definitions_in(alloc, &pieces)
}

// Adds the definition of a piece, if it has one.
fn add_piece(
    alloc: Global,
    piece: PieceRef<'_>,
    defs: &mut List<(Bytes, Definition)>,
) -> Result<(), AllocError>
    ensures { OnOk result (map named_pair defs.new ≡ map named_pair defs.old ++ cons_option (definition_in (piece_seen piece.entry)) []) }
{
    match behind_define(piece) {
        Some(tokens) => add_definition(alloc, tokens, defs),
        None => Ok(()),
    }
}

// The tokens behind a `#define`, if a piece is one.
fn behind_define(piece: PieceRef<'_>) -> Option<Tokens<'_>>
    ensures some { IfSome result (λ tokens. definition_in (piece_seen piece.entry) ≡ accepted (spec.defined_by (rest_of tokens))) }
    ensures none { IsNone result → definition_in (piece_seen piece.entry) ≡ None }
{
    match piece {
        PieceRef::Run(_) => None,
        PieceRef::Line { at: _, what } => match what.asked() {
            Asked::Define(file, from, end) => Some(file.tokens(from, end)),
            _ => None,
        },
    }
}

// Adds the definition that the tokens behind `#define` give: one that is refused adds nothing.
fn add_definition(
    alloc: Global,
    tokens: Tokens<'_>,
    defs: &mut List<(Bytes, Definition)>,
) -> Result<(), AllocError>
    ensures { OnOk result (map named_pair defs.new ≡ map named_pair defs.old ++ cons_option (accepted (spec.defined_by (rest_of tokens.entry))) []) }
{
    match read_define(alloc, tokens) {
        Ok(definition) => {
            defs.push(definition)?;
            Ok(())
        }
        Err(DefineError::Memory) => Err(AllocError),
        Err(_) => Ok(()),
    }
}

// Copies of definitions.
pub fn copies(
    alloc: Global,
    defs: &[(Bytes, Definition)],
) -> Result<List<(Bytes, Definition)>, AllocError>
    ensures { IfOk result (λ copies. copies ≡ defs.now) }
{
    let mut copies = List::new(alloc);
    for (name, definition) in defs {
        let name = Bytes::copy_of(alloc, name.as_slice())?;
        let definition = definition.copy(alloc)?;
        copies.push((name, definition))?;
    }
    Ok(copies)
}

// Counting.

// The tokens of the definitions of a file's `#define` lines that are well formed, up to 2^64 - 1. Few tokens are copied.
pub fn count_tokens(alloc: Global, pieces: &Pieces) -> Result<u64, AllocError>
    ensures { IfOk result (λ tokens. tokens ≡ min (2 ^ 64 - 1) (tokens_defined (filter_map definition_in pieces.now))) }
{
    let mut tokens: u64 = 0;
    for number in 0..pieces.len() {
        tokens = tokens.saturating_add(piece_tokens(alloc, pieces.piece(number))?);
    }
    Ok(tokens)
}

// The tokens of the definition of a piece, none where it has none.
fn piece_tokens(alloc: Global, piece: PieceRef<'_>) -> Result<u64, AllocError>
    ensures { IfOk result (λ tokens. tokens ≡ counted.body_tokens (definition_in (piece_seen piece.entry))) }
{
    match behind_define(piece) {
        Some(tokens) => defined_tokens(alloc, tokens),
        None => Ok(0),
    }
}

// The tokens of the definition that the tokens behind `#define` give, none where it is refused.
fn defined_tokens(alloc: Global, tokens: Tokens<'_>) -> Result<u64, AllocError>
    ensures { IfOk result (λ n. n ≡ counted.defined_tokens (rest_of tokens.entry)) }
{
    let mut behind = tokens;
    let Some(name) = behind.next() else {
        return Ok(0);
    };
    if !names_macro(&name) {
        return Ok(0);
    }
    let body = behind;
    let Some(first) = behind.next() else {
        return Ok(0);
    };
    if !begins_parameters(&first) {
        return Ok(object_tokens(body));
    }
    match function_tokens(behind) {
        Some(n) => Ok(n),
        None => read_tokens(alloc, tokens),
    }
}

// Whether the token behind a macro's name begins parameters: a `(` without white space before it.
fn begins_parameters(token: &TokenRef<'_>) -> bool
    ensures { result ≡ (marks.is_open (token_seen token.now) && not token.now.space) }
{
    token.is_mark(b"(") && !token.space
}

// The tokens of an object-like macro with this replacement list: none where `##` stands first or last (ISO C 6.10.3.3 paragraph 1).
fn object_tokens(body: Tokens<'_>) -> u64
    ensures { result ≡ counted.object_tokens (rest_of body.entry) }
{
    let count = body.len();
    if begins_with_pasting(body) {
        return 0;
    }
    let (_, last) = body.split_at(count.saturating_sub(1));
    if begins_with_pasting(last) {
        return 0;
    }
    count as u64
}

fn begins_with_pasting(tokens: Tokens<'_>) -> bool
    ensures { result ≡ spec.begins_with_pasting (rest_of tokens.entry) }
{
    let mut tokens = tokens;
    match tokens.next() {
        Some(first) => is_pasting(&first),
        None => false,
    }
}

// Whether a token is `##`.
fn is_pasting(token: &TokenRef<'_>) -> bool
    ensures { result ≡ marks.is_pasting (token_seen token.now) }
{
    token.is_mark(b"##") || token.is_mark(b"%:%:")
}

// The tokens of a function-like macro, by those behind its `(`. None where that isn't plain: more than two parameters, or a `#`.
fn function_tokens(inside: Tokens<'_>) -> Option<u64>
    ensures { IfSome result (λ n. (name : List ℕ) → n ≡ counted.enclosed_tokens name (rest_of inside.entry)) }
{
    let listed = parameters_listed(inside)?;
    let (_, body) = inside.split_at(listed);
    if has_hash(body) {
        return None;
    }
    Some(object_tokens(body))
}

// How many tokens behind a `(` list parameters up to the `)`, where these are at most two names.
fn parameters_listed(inside: Tokens<'_>) -> Option<usize>
    ensures within { IfSome result (λ n. n ≤ length (rest_of inside.entry)) }
    ensures listed { IfSome result (λ n. counted.IsListed n (rest_of inside.entry)) }
{
    let mut tokens = inside;
    let first = tokens.next()?;
    if first.is_mark(b")") {
        return Some(1);
    }
    if !is_parameter(&first) {
        return None;
    }
    let mark = tokens.next()?;
    if mark.is_mark(b")") {
        return Some(2);
    }
    if !mark.is_mark(b",") {
        return None;
    }
    let second = tokens.next()?;
    if !is_parameter(&second) || first.text == second.text {
        return None;
    }
    let close = tokens.next()?;
    if !close.is_mark(b")") {
        return None;
    }
    Some(4)
}

// Whether a token may be the name of a parameter, as it is written.
fn is_parameter(token: &TokenRef<'_>) -> bool
    ensures { result ≡ counted.is_parameter (token_seen token.now) }
{
    token.is_identifier() && token.text != b"__VA_ARGS__".as_slice()
}

// Whether a `#` stands among tokens.
fn has_hash(tokens: Tokens<'_>) -> bool
    ensures { result ≡ list_any marks.is_hash (rest_of tokens.entry) }
{
    for token in tokens {
        if is_hash(&token) {
            return true;
        }
    }
    false
}

// Whether a token is `#`.
fn is_hash(token: &TokenRef<'_>) -> bool
    ensures { result ≡ marks.is_hash (token_seen token.now) }
{
    token.is_mark(b"#") || token.is_mark(b"%:")
}

// The tokens of a definition that is read.
fn read_tokens(alloc: Global, tokens: Tokens<'_>) -> Result<u64, AllocError>
    ensures { IfOk result (λ n. n ≡ counted.defined_tokens (rest_of tokens.entry)) }
{
    match read_define(alloc, tokens) {
        Ok((_, definition)) => Ok(definition.body().len() as u64),
        Err(DefineError::Memory) => Err(AllocError),
        Err(_) => Ok(0),
    }
}
