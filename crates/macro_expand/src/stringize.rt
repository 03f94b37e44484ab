// The operator `#` (ISO C 6.10.3.2).
ghost use Rattle.std.specs.Prelude.{◌≡◌, ◌++◌, ◌∷◌, [], ◌&&◌, ◌||◌, ◌==◌, not, map, true, IfOk, OnOk, if◌then◌else◌};
ghost use Rattle.base_types.specs.Ascii as ascii;
ghost use Rattle.pp_tokens.specs.Marks.{is_literal};
ghost use Rattle.macro_expand.specs.Replacement.{escaped, spelling_of, spellings, stringized};
ghost use Rattle.macro_expand.specs.Seen.{marked_of};

use crate::marked::Marked;
use base_types::Bytes;
use pp_tokens::{Kind, Token, TokenCow};
use std::alloc::{AllocError, Global};

// Room for the text of most arguments.
const SHORT: usize = 32;

// Whether a byte has a `\` before it in a literal.
fn needs_escape(b: u8) -> bool
    ensures { result ≡ ((b == ascii.backslash) || (b == ascii.quote)) }
{
    b == b'\\' || b == b'"'
}

// Adds one byte of a literal, with a `\` before a `\` or `"`.
fn put_escaped_byte(text: &mut Vec<u8>, b: u8) -> Result<(), AllocError>
    ensures { OnOk result (text.new.items ≡ text.old.items ++ (if (b == ascii.backslash) || (b == ascii.quote) then ascii.backslash ∷ b ∷ [] else b ∷ [])) }
{
    if needs_escape(b) {
        text.push(b'\\')?;
    }
    text.push(b)?;
    Ok(())
}

fn put_escaped(text: &mut Vec<u8>, literal: &[u8]) -> Result<(), AllocError>
    ensures { OnOk result (text.new.items ≡ text.old.items ++ escaped literal.now) }
{
    for b in literal {
        put_escaped_byte(text, *b)?;
    }
    Ok(())
}

// Adds the spelling of a token, as it stands within a literal.
fn put_token(text: &mut Vec<u8>, t: &TokenCow) -> Result<(), AllocError>
    ensures { OnOk result (text.new.items ≡ text.old.items ++ spelling_of t.now) }
{
    if t.is_literal() {
        return put_escaped(text, t.text());
    }
    text.extend_from_slice(t.text())
}

// Adds a space where one is wanted.
fn put_space(text: &mut Vec<u8>, wanted: bool) -> Result<(), AllocError>
    ensures { OnOk result (text.new.items ≡ text.old.items ++ (if wanted then 32 ∷ [] else [])) }
{
    if wanted {
        text.push(b' ')?;
    }
    Ok(())
}

// Whether white space stands between a token and the one before it.
fn is_spaced(first: bool, t: &TokenCow) -> bool
    ensures { result ≡ (t.now.space && not first) }
{
    t.space() && !first
}

// Adds the spellings of tokens, with one space where white space stands between two.
fn put_tokens(text: &mut Vec<u8>, tokens: &[Marked]) -> Result<(), AllocError>
    ensures { OnOk result (text.new.items ≡ text.old.items ++ spellings true (map marked_of tokens.now)) }
{
    let mut first = true;
    for t in tokens {
        put_space(text, is_spaced(first, &t.token))?;
        put_token(text, &t.token)?;
        first = false;
    }
    Ok(())
}

// The spelling of the literal that `#` makes.
fn literal_of(alloc: Global, tokens: &[Marked]) -> Result<Vec<u8>, AllocError>
    ensures { IfOk result (λ text. text.items ≡ ascii.quote ∷ spellings true (map marked_of tokens.now) ++ ascii.quote ∷ []) }
{
    let mut text = Vec::with_capacity(alloc, SHORT)?;
    text.push(b'"')?;
    put_tokens(&mut text, tokens)?;
    text.push(b'"')?;
    Ok(text)
}

// The string literal that `#` makes of an argument, with the space of the `#`. It costs the length of the spellings.
pub(crate) fn stringized<'t>(
    alloc: Global,
    space: bool,
    tokens: &[Marked],
) -> Result<Marked<'t>, AllocError>
    ensures stringized { IfOk result (λ m. marked_of m ≡ stringized space (map marked_of tokens.now)) }
    ensures unstamped { IfOk result (λ m. m.stamp ≡ 0) }
{
    let text = Bytes::of(literal_of(alloc, tokens)?);
    let token = Token {
        kind: Kind::Str,
        text,
        line: 0,
        space,
    };
    Ok(Marked::plain(TokenCow::owned(alloc, token)?))
}
