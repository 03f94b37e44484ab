// A file's tokens as text, and where two files' tokens differ.
ghost use Rattle.std.specs.Prelude.{◌≡◌, ◌≢◌, ℕ, None, IsNone, true, false, length, option_map};
ghost use Rattle.std.specs.Option.{ForSome};
ghost use Rattle.pp_tokens.specs.Tokens.{token_seen};
ghost use Rattle.bench_program.specs.Said.{said, token_of, SameLine, SayTheSame, Differs};

use pp_tokens::{Lexed, TokenRef};
use std::alloc::{AllocError, Global};

/// What differs between two files' logical lines of tokens.
#[derive(Clone, Copy, Debug, Drop)]
pub enum Difference {
    /// The token at a place of a line, both from 0, in kind or spelling, or one of the files has none there.
    Place { line: usize, place: usize },
    /// The number of lines.
    Lines,
}

/// The tokens of each logical line on a line, with one space where white space stands between two. Lexed again it has the
/// same tokens, but for a quote with no partner on its line, where a comment of several lines and one more quote follow.
pub fn joined(alloc: Global, file: &Lexed) -> Result<Vec<u8>, AllocError> {
    let mut text = Vec::new(alloc);
    for line in 0..file.line_count() {
        for place in 0..file.token_count(line) {
            if let Some(token) = file.token(line, place) {
                add_token(&mut text, token, place == 0)?;
            }
        }
        end_line(&mut text)?;
    }
    Ok(text)
}

fn add_token(text: &mut Vec<u8>, token: TokenRef<'_>, is_first: bool) -> Result<(), AllocError> {
    if token.space && !is_first {
        text.push(b' ')?;
    }
    text.extend_from_slice(token.text)?;
    Ok(())
}

// A backslash right before the newline would splice the line with the next one.
fn end_line(text: &mut Vec<u8>) -> Result<(), AllocError> {
    if let Some(b'\\') = text.last() {
        text.push(b' ')?;
    }
    text.push(b'\n')?;
    Ok(())
}

/// What first differs between two files.
pub fn first_difference(first: &Lexed, second: &Lexed) -> Option<Difference>
    ensures same { IsNone result → SayTheSame first.now second.now }
    ensures differs { ForSome result (Differs first.now second.now) }
{
    for line in 0..first.line_count() {
        if let Some(place) = difference_on(first, second, line) {
            return Some(Difference::Place { line, place });
        }
    }
    if first.line_count() == second.line_count() {
        None
    } else {
        Some(Difference::Lines)
    }
}

// The place at which they first differ on a line.
fn difference_on(first: &Lexed, second: &Lexed, line: usize) -> Option<usize>
    ensures same { IsNone result → SameLine first.now second.now line }
    ensures differs { ForSome result (λ place. said (token_of first.now line place) ≢ said (token_of second.now line place)) }
{
    let places = first.token_count(line).max(second.token_count(line));
    for place in 0..places {
        if !are_alike(first.token(line, place), second.token(line, place)) {
            return Some(place);
        }
    }
    None
}

// Whether two tokens have one kind and one spelling, or neither is there.
fn are_alike(first: Option<TokenRef<'_>>, second: Option<TokenRef<'_>>) -> bool
    ensures alike { result ≡ true → said (option_map token_seen first.entry) ≡ said (option_map token_seen second.entry) }
    ensures other { result ≡ false → said (option_map token_seen first.entry) ≢ said (option_map token_seen second.entry) }
{
    match (first, second) {
        (Some(one), Some(other)) => one.kind == other.kind && one.text == other.text,
        (None, None) => true,
        _ => false,
    }
}
