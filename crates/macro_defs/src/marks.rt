// The tokens that macros are written with (ISO C 6.4, 6.10.3).
ghost use Rattle.std.specs.Prelude.{◌≡◌, ◌&&◌, not, false, MatchOption};
ghost use Rattle.std.specs.List.{list_any};
ghost use Rattle.pp_tokens.specs.Marks as spec;
ghost use Rattle.pp_tokens.specs.Marks.{is_open, is_mark};
ghost use Rattle.pp_tokens.specs.Tokens.{token_seen, rest_of};
ghost use Rattle.macro_defs.specs.Defining.{IsParted};
ghost use Rattle.macro_defs.specs.MacroDefinition.{is_operator};

use pp_tokens::{Token, TokenRef, Tokens};

// Whether the token behind a macro's name begins parameters: a `(` without white space before it.
pub(crate) fn begins_parameters(token: &Token) -> bool
    ensures { result ≡ (is_open token.now && not token.now.space) }
{
    opens_parameters(&token.as_ref())
}

// The same of a token of a file.
#[inline(always)]
pub(crate) fn opens_parameters(token: &TokenRef<'_>) -> bool
    ensures { result ≡ (is_open (token_seen token.now) && not (token_seen token.now).space) }
{
    token.is_mark(b"(") && !token.space
}

// The tokens before and behind the first punctuator with this spelling.
pub(crate) fn parted<'t>(tokens: &'t [Token], spelling: &[u8]) -> Option<(&'t [Token], &'t [Token])>
    ensures { MatchOption result (list_any (is_mark spelling.now) tokens.now ≡ false) (λ p. IsParted (is_mark spelling.now) tokens.now p.0.now p.1.now) }
{
    for (i, token) in tokens.iter().enumerate() {
        if token.is_mark(spelling) {
            return Some((&tokens[..i], &tokens[i + 1..]));
        }
    }
    None
}

// Whether a token is a `##`, or its digraph (ISO C 6.4.6, 6.10.3.3).
#[inline(always)]
fn is_pasting(token: &TokenRef<'_>) -> bool
    ensures { result ≡ spec.is_pasting (token_seen token.now) }
{
    token.is_mark(b"##") || token.is_mark(b"%:%:")
}

// Whether there is a `##` among the tokens.
pub(crate) fn has_pasting(tokens: Tokens<'_>) -> bool
    ensures { result ≡ list_any spec.is_pasting (rest_of tokens.entry) }
{
    for token in tokens {
        if is_pasting(&token) {
            return true;
        }
    }
    false
}

// Whether a token is a `#`, or its digraph (ISO C 6.4.6, 6.10.3.2).
#[inline(always)]
fn is_hash(token: &TokenRef<'_>) -> bool
    ensures { result ≡ spec.is_hash (token_seen token.now) }
{
    token.is_mark(b"#") || token.is_mark(b"%:")
}

// Whether there is a `#` or a `##` among tokens of a file.
pub(crate) fn have_operator(tokens: Tokens<'_>) -> bool
    ensures { result ≡ list_any is_operator (rest_of tokens.entry) }
{
    for token in tokens {
        if is_hash(&token) || is_pasting(&token) {
            return true;
        }
    }
    false
}

// Whether there is a `#` or a `##` among the tokens (ISO C 6.10.3.2, 6.10.3.3).
pub(crate) fn has_operator(tokens: &[Token]) -> bool
    ensures { result ≡ list_any is_operator tokens.now }
{
    for token in tokens {
        if token.is_hash() || token.is_pasting() {
            return true;
        }
    }
    false
}
