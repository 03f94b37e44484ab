// The macros of compile words.
ghost use Rattle.std.specs.Prelude.{◌≡◌, ◌≤◌, ◌+◌, ◌==◌, ◌∷◌, ◌++◌, true, false, length, Some, IfOk, IfErr, IfSome, IsTrue};
ghost use Rattle.std.specs.List.{list_any};
ghost use Rattle.std.specs.Option.{MatchOption};
ghost use Rattle.base_types.specs.Ascii as ascii;
ghost use Rattle.base_types.specs.Limits.{body_limit, word_limit};
ghost use Rattle.job_words.specs.Macros.{define_line, tokens_of_line, line_at, define_word, undef_word, undef_word_of, defined_word};
ghost use Rattle.job_words.specs.parts.Told.{IsFirst, IsNoMacro, NoneFrom, is_word_kind, word_macro};
ghost use Rattle.macro_defs.specs.Defining.{defined_by, is_reserved_name};
ghost use Rattle.pp_tokens.specs.declared.token.Kind.TheVariants.{Ident};
ghost use Rattle.pp_tokens.specs.Grammar.{kind_of};
ghost use Rattle.pp_tokens.specs.Tokens.{rest_of};

use crate::{MacroWord, WordError};
use base_types::Bytes;
use macro_defs::{DefineError, Definition, names_macro, read_define};
use pp_tokens::{Kind, Lexed, Token, TokenRef, Tokens, lex_body, single_token};
use std::alloc::{AllocError, Global};

// What a `-D` says.
#[tactic(auto, unfolding(crate::specs::Macros::define_word))]
pub fn define_word(alloc: Global, text: &[u8]) -> Result<MacroWord, WordError>
    requires { length text.now ≤ word_limit }
    ensures macros { IfOk result (λ word. define_word text.now ≡ Some word) }
    ensures why { IfErr result (λ e. IsNoMacro e (define_word text.now)) }
{
    if let Some(word) = plain_word(alloc, text)? {
        return Ok(word);
    }
    let line = define_line(alloc, text)?;
    let lexed = lexed_line(alloc, line)?;
    defined(alloc, first_line(&lexed))
}

// What a `-U` says.
#[tactic(auto, unfolding(crate::specs::Macros::undef_word))]
pub fn undef_word(alloc: Global, text: &[u8]) -> Result<MacroWord, WordError>
    requires { length text.now ≤ word_limit }
    ensures macros { IfOk result (λ word. undef_word text.now ≡ Some word) }
    ensures why { IfErr result (λ e. IsNoMacro e (undef_word text.now)) }
{
    let lexed = lexed_line(alloc, text.to_vec(alloc)?)?;
    undefined(alloc, first_line(&lexed))
}

// What a `-D` says of a name and a value that are one word each; None where they aren't, or aren't known to be. Most are so,
// and need no lexer.
#[tactic(auto, using(crate::proofs::PlainWords::word_defines))]
fn plain_word(alloc: Global, text: &[u8]) -> Result<Option<MacroWord>, AllocError>
    ensures { IfOk result (λ found. IfSome found (λ word. define_word text.now ≡ Some word)) }
{
    let (name, value) = name_and_value(text);
    if !is_macro_name(name) {
        return Ok(None);
    }
    let Some(kind) = word_kind(value) else {
        return Ok(None);
    };
    let definition = word_macro(alloc, kind, value)?;
    Ok(Some(MacroWord::Define(Bytes::copy_of(alloc, name)?, definition)))
}

// What stands before the first `=` and behind it, or the whole and a `1`.
fn name_and_value(text: &[u8]) -> (&[u8], &[u8])
    ensures { define_line text.now ≡ result.0.now ++ (ascii.space ∷ result.1.now) }
{
    match first_equals(text) {
        Some(place) => (&text[..place], &text[place + 1..]),
        None => (text, b"1".as_slice()),
    }
}

// Whether a text is one identifier that may be defined.
fn is_macro_name(name: &[u8]) -> bool
    ensures { IsTrue result → (kind_of name.now ≡ Some Ident) × (is_reserved_name name.now ≡ false) }
{
    match single_token(name) {
        Some(Kind::Ident) => {
            let token = TokenRef {
                kind: Kind::Ident,
                text: name,
                line: 0,
                space: true,
            };
            names_macro(&token)
        }
        _ => false,
    }
}

// The kind of a text that is one identifier or one number.
fn word_kind(text: &[u8]) -> Option<Kind>
    ensures { IfSome result (λ kind. (kind_of text.now ≡ Some kind) × (is_word_kind kind ≡ true)) }
{
    match single_token(text) {
        Some(Kind::Ident) => Some(Kind::Ident),
        Some(Kind::Number) => Some(Kind::Number),
        _ => None,
    }
}

// The definition of a macro whose value is one token, with white space before it.
fn word_macro(alloc: Global, kind: Kind, value: &[u8]) -> Result<Definition, AllocError>
    ensures { IfOk result (λ definition. definition ≡ word_macro kind value.now) }
{
    let token = Token {
        text: Bytes::copy_of(alloc, value)?,
        line: 0,
        kind,
        space: true,
    };
    Ok(Definition::of_token(token))
}

// What `-D` defines, as what stands behind `#define`.
fn define_line(alloc: Global, text: &[u8]) -> Result<Vec<u8>, AllocError>
    ensures line { IfOk result (λ line. line.items ≡ define_line text.now) }
    ensures short { IfOk result (λ line. length line.items ≤ length text.now + 2) }
{
    let mut line = roomy(alloc, text)?;
    match first_equals(text) {
        Some(place) => line[place] = b' ',
        None => line.extend_from_slice(b" 1")?,
    }
    Ok(line)
}

// A copy with room for ` 1` behind it and for the newline that ends the line.
fn roomy(alloc: Global, text: &[u8]) -> Result<Vec<u8>, AllocError>
    ensures { IfOk result (λ copy. copy.items ≡ text.now) }
{
    let mut copy = Vec::with_capacity(alloc, text.len() + 3)?;
    copy.extend_from_slice(text)?;
    Ok(copy)
}

// The first `=` of a text.
fn first_equals(text: &[u8]) -> Option<usize>
    ensures { MatchOption result (NoneFrom 0 ascii.equals text.now) (λ place. IsFirst place ascii.equals text.now) }
{
    text.iter().position(|b| *b == b'=')
}

// A text that is one line, without a comment that never ends.
#[tactic(auto, unfolding(crate::specs::Macros::tokens_of_line))]
fn lexed_line(alloc: Global, text: Vec<u8>) -> Result<Lexed, WordError>
    requires { length text.items ≤ body_limit }
    ensures line { IfOk result (λ lexed. tokens_of_line text.items ≡ Some (line_at lexed 0)) }
    ensures why { IfErr result (λ e. IsNoMacro e (tokens_of_line text.items)) }
{
    if has_newline(&text) {
        return Err(WordError::BadMacro);
    }
    let lexed = lex_body(alloc, text, false)?;
    if lexed.open_comment().is_some() {
        return Err(WordError::BadMacro);
    }
    Ok(lexed)
}

fn has_newline(text: &[u8]) -> bool
    ensures { result ≡ list_any (λ b. b == ascii.newline) text.now }
{
    text.iter().any(|b| *b == b'\n')
}

// The tokens of the first line.
fn first_line(lexed: &Lexed) -> Tokens<'_>
    ensures { rest_of result ≡ line_at lexed.now 0 }
{
    lexed.tokens(0, lexed.token_count(0))
}

// What tokens behind `#define` define.
fn defined(alloc: Global, tokens: Tokens<'_>) -> Result<MacroWord, WordError>
    ensures macros { IfOk result (λ word. defined_word (defined_by (rest_of tokens.entry)) ≡ Some word) }
    ensures why { IfErr result (λ e. IsNoMacro e (defined_word (defined_by (rest_of tokens.entry)))) }
{
    match read_define(alloc, tokens) {
        Ok((name, definition)) => Ok(MacroWord::Define(name, definition)),
        Err(DefineError::Memory) => Err(WordError::Memory),
        Err(_) => Err(WordError::BadMacro),
    }
}

// One identifier that may be defined.
fn undefined(alloc: Global, tokens: Tokens<'_>) -> Result<MacroWord, WordError>
    ensures macros { IfOk result (λ word. undef_word_of (Some (rest_of tokens.entry)) ≡ Some word) }
    ensures why { IfErr result (λ e. IsNoMacro e (undef_word_of (Some (rest_of tokens.entry)))) }
{
    let mut tokens = tokens;
    let Some(name) = tokens.next() else {
        return Err(WordError::BadMacro);
    };
    if tokens.next().is_some() || !names_macro(&name) {
        return Err(WordError::BadMacro);
    }
    Ok(MacroWord::Undef(Bytes::copy_of(alloc, name.text)?))
}
