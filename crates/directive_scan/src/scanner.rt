// The pieces of a lexed file.
ghost use Rattle.std.specs.Prelude as seen;
ghost use Rattle.std.specs.Prelude.{◌≡◌, ◌++◌, ◌∷◌, [], map, drop, unwrap_or, slice_get, IfOk, OnOk};
ghost use Rattle.directive_scan.specs.Directives.{header_name, target_of, pragma_of, directive_of, pieces};
ghost use Rattle.directive_scan.specs.Gathered.{tokens_at_line};
ghost use Rattle.directive_scan.specs.Names.{directive_told};
ghost use Rattle.directive_scan.specs.Spots.{piece_at};

use crate::directive::{Directive, HeaderName, Piece, Target};
use crate::header::between;
use crate::name::{DirectiveName, name_at};
use crate::spots::{Spot, spots};
use base_types::{Bytes, List};
use pp_tokens::{Kind, Lexed, Token};
use std::alloc::{AllocError, Global};

/// The pieces of a lexed file: its directives, and the runs of text lines between them (ISO C 6.10), with a copy of their
/// tokens. Time is linear in the tokens and lines; the only error is want of memory. `Pieces` lends them instead.
pub fn scan(alloc: Global, lexed: &Lexed) -> Result<List<Piece>, AllocError>
    ensures { IfOk result (λ ps. ps ≡ pieces lexed.now.lines) }
{
    let spots = spots(alloc, lexed)?;
    pieces_of(alloc, lexed, &spots)
}

// The pieces that lie at some spots.
fn pieces_of(alloc: Global, lexed: &Lexed, spots: &[Spot]) -> Result<List<Piece>, AllocError>
    ensures { IfOk result (λ ps. ps ≡ map (piece_at lexed.now) spots.now) }
{
    let mut pieces = List::new(alloc);
    for spot in spots {
        pieces.push(piece_of(alloc, lexed, *spot)?)?;
    }
    Ok(pieces)
}

// The piece that lies at a spot.
fn piece_of(alloc: Global, lexed: &Lexed, spot: Spot) -> Result<Piece, AllocError>
    ensures { IfOk result (λ p. p ≡ piece_at lexed.now spot) }
{
    match spot {
        Spot::Text { from, end } => Ok(Piece::Run {
            tokens: lexed.tokens(from as usize, end as usize).to_list(alloc)?,
        }),
        Spot::Line { line, at, .. } => Ok(Piece::Line {
            at,
            what: directive_at(alloc, lexed, line as usize)?,
        }),
    }
}

// The directive on a line, by its tokens behind the `#`. Tokens are made where the directive has them.
fn directive_at(alloc: Global, lexed: &Lexed, line: usize) -> Result<Directive, AllocError>
    ensures { IfOk result (λ what. what ≡ directive_of (drop 1 (tokens_at_line lexed.now line))) }
{
    directive_with(alloc, lexed, line, name_at(lexed, line))
}

// The same where it has this name.
pub fn directive_with(
    alloc: Global,
    lexed: &Lexed,
    line: usize,
    name: DirectiveName,
) -> Result<Directive, AllocError>
    ensures { IfOk result (λ what. what ≡ directive_told name (drop 2 (tokens_at_line lexed.now line))) }
{
    match name {
        DirectiveName::Include => Ok(Directive::Include(target_at(alloc, lexed, line)?)),
        DirectiveName::Next => Ok(Directive::Next(target_at(alloc, lexed, line)?)),
        DirectiveName::Define => Ok(Directive::Define(behind_name(alloc, lexed, line)?)),
        DirectiveName::Undef => Ok(Directive::Undef(behind_name(alloc, lexed, line)?)),
        DirectiveName::If => Ok(Directive::If(behind_name(alloc, lexed, line)?)),
        DirectiveName::Ifdef => Ok(Directive::Ifdef(behind_name(alloc, lexed, line)?)),
        DirectiveName::Ifndef => Ok(Directive::Ifndef(behind_name(alloc, lexed, line)?)),
        DirectiveName::Elif => Ok(Directive::Elif(behind_name(alloc, lexed, line)?)),
        DirectiveName::Else => Ok(Directive::Else),
        DirectiveName::Endif => Ok(Directive::Endif),
        DirectiveName::Line => Ok(Directive::Line(behind_name(alloc, lexed, line)?)),
        DirectiveName::Error => Ok(Directive::Error(behind_name(alloc, lexed, line)?)),
        DirectiveName::Warning => Ok(Directive::Warning),
        DirectiveName::Pragma => Ok(pragma_with(behind_name(alloc, lexed, line)?)),
        DirectiveName::Null => Ok(Directive::Null),
        DirectiveName::Unknown => Ok(Directive::Unknown),
    }
}

// What an include names.
#[tactic(auto, unfolding(crate::specs::Directives::target_of))]
fn target_at(alloc: Global, lexed: &Lexed, line: usize) -> Result<Target, AllocError>
    ensures { IfOk result (λ target. target ≡ target_of (drop 2 (tokens_at_line lexed.now line))) }
{
    match lexed.token(line, 2) {
        Some(first) => {
            if first.kind == Kind::Header {
                return Ok(Target::Plain(header_name(alloc, first.text)?));
            }
            Ok(Target::Computed(behind_name(alloc, lexed, line)?))
        }
        None => Ok(Target::Computed(List::new(alloc))),
    }
}

// The header name that a spelling is.
pub fn header_name(alloc: Global, text: &[u8]) -> Result<HeaderName, AllocError>
    ensures { IfOk result (λ header. header ≡ header_name text.now) }
{
    let name = Bytes::copy_of(alloc, between(text))?;
    Ok(HeaderName {
        angle: text.starts_with(b"<"),
        name,
    })
}

// A pragma.
#[tactic(auto, unfolding(crate::specs::Directives::pragma_of))]
fn pragma_with(tokens: List<Token>) -> Directive
    ensures { result ≡ pragma_of tokens }
{
    match tokens.as_slice() {
        [first, ..] if first.text.as_slice() == b"once".as_slice() => Directive::Once,
        _ => Directive::Pragma(tokens),
    }
}

// The tokens of a line behind its `#` and the directive's name.
fn behind_name(alloc: Global, lexed: &Lexed, line: usize) -> Result<List<Token>, AllocError>
    ensures { IfOk result (λ ts. ts ≡ drop 2 (tokens_at_line lexed.now line)) }
{
    Ok(List::of(tokens_from(alloc, lexed, line, 2)?))
}

// The tokens of a line from a place on.
fn tokens_from(
    alloc: Global,
    lexed: &Lexed,
    line: usize,
    place: usize,
) -> Result<Vec<Token>, AllocError>
    ensures { IfOk result (λ ts. ts.items ≡ drop place (unwrap_or (slice_get lexed.now.lines line) [])) }
{
    let count = lexed.token_count(line).saturating_sub(place);
    let mut tokens = Vec::with_capacity(alloc, count)?;
    add_tokens(alloc, lexed, line, place, &mut tokens)?;
    Ok(tokens)
}

// Adds the tokens of a line from a place on.
fn add_tokens(
    alloc: Global,
    lexed: &Lexed,
    line: usize,
    place: usize,
    tokens: &mut Vec<Token>,
) -> Result<(), AllocError>
    ensures { OnOk result (tokens.new.items ≡ tokens.old.items ++ drop place (tokens_at_line lexed.now line)) }
{
    for at in place..lexed.token_count(line) {
        if let Some(token) = lexed.token(line, at) {
            tokens.push(token.to_token(alloc)?)?;
        }
    }
    Ok(())
}
