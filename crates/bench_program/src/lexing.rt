// Counts the tokens of C files, or lexes each file again from its tokens.
use crate::outcome::not_done;
use crate::tokens::{Difference, first_difference, joined};
use anyhow::{Result, ensure};
use base_types::limits::BODY_LIMIT;
use command_line::read_body;
use pp_tokens::{Lexed, TokenRef, lex_body};
use std::alloc::Global;
use std::io;
use std::rt::Files;
use std::slice::EscapeAscii;

/// Prints how many bytes, logical lines and tokens a file has; whether it is read.
pub fn count<R: Files + AllocGlobal + Print + Eprint>(rt: &R, file: &str) -> io::Result<bool> {
    match length_and_tokens(rt, file) {
        Ok((bytes, lexed)) => {
            print_counts(rt, file, bytes, &lexed)?;
            Ok(true)
        }
        Err(error) => not_done(rt, file, &error),
    }
}

// How many bytes a file has, and its tokens.
fn length_and_tokens<R: Files + AllocGlobal>(rt: &R, file: &str) -> Result<(usize, Lexed)> {
    let body = read_body(rt, file)?;
    let bytes = body.len();
    let lexed = lex_body(rt.alloc(), body, false)?;
    Ok((bytes, lexed))
}

fn print_counts<R: Print>(rt: &R, file: &str, bytes: usize, lexed: &Lexed) -> io::Result<()> {
    let lines = lexed.line_count();
    let tokens = count_tokens(lexed);
    println!(rt; "{file} {bytes} {lines} {tokens}")
}

fn count_tokens(lexed: &Lexed) -> u64 {
    let mut tokens = 0u64;
    for line in 0..lexed.line_count() {
        tokens = tokens.saturating_add(lexed.token_count(line) as u64);
    }
    tokens
}

/// Whether a file's tokens are lexed again as they were. It prints that, or what first differs.
pub fn again<R: Files + AllocGlobal + Print + Eprint>(rt: &R, file: &str) -> io::Result<bool> {
    match lex_twice(rt, file) {
        Ok((first, second)) => compare(rt, file, &first, &second),
        Err(error) => not_done(rt, file, &error),
    }
}

// Lexes a file, and then its tokens.
fn lex_twice<R: Files + AllocGlobal>(rt: &R, file: &str) -> Result<(Lexed, Lexed)> {
    let (_, first) = length_and_tokens(rt, file)?;
    let second = lex_again(rt.alloc(), &first)?;
    Ok((first, second))
}

// Lexes the tokens of a file from their spellings.
fn lex_again(alloc: Global, file: &Lexed) -> Result<Lexed> {
    let text = joined(alloc, file)?;
    ensure!(
        text.len() <= BODY_LIMIT,
        "its tokens take more than {BODY_LIMIT} bytes"
    );
    Ok(lex_body(alloc, text, false)?)
}

// Whether two lexings of a file have the same tokens. It prints that, or what first differs.
fn compare<R: Print>(rt: &R, file: &str, first: &Lexed, second: &Lexed) -> io::Result<bool> {
    let difference = first_difference(first, second);
    print_outcome(rt, file, first, second, difference)?;
    Ok(difference.is_none())
}

fn print_outcome<R: Print>(
    rt: &R,
    file: &str,
    first: &Lexed,
    second: &Lexed,
    difference: Option<Difference>,
) -> io::Result<()> {
    match difference {
        None => println!(rt; "{file} same"),
        Some(Difference::Place { line, place }) => {
            let before = first.token(line, place);
            let after = second.token(line, place);
            print_tokens(rt, file, line, before, after)
        }
        Some(Difference::Lines) => print_lines(rt, file, first.line_count(), second.line_count()),
    }
}

// Prints two tokens that differ on a line.
fn print_tokens<R: Print>(
    rt: &R,
    file: &str,
    line: usize,
    before: Option<TokenRef<'_>>,
    after: Option<TokenRef<'_>>,
) -> io::Result<()> {
    let number = line.saturating_add(1);
    let before = shown(before);
    let after = shown(after);
    println!(rt; "{file} differs at {number}: `{before}`, then `{after}`")
}

// Prints two numbers of lines that differ.
fn print_lines<R: Print>(rt: &R, file: &str, before: usize, after: usize) -> io::Result<()> {
    println!(rt; "{file} differs at {before}: {before} lines, then {after}")
}

// The spelling of a token, or no bytes where none is there.
fn shown(token: Option<TokenRef<'_>>) -> EscapeAscii<'_> {
    match token {
        Some(token) => token.text.escape_ascii(),
        None => b"".as_slice().escape_ascii(),
    }
}
