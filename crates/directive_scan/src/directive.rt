// Directives, and the pieces of a file.
use base_types::{Bytes, List};
use pp_tokens::Token;

/// A header name, without its delimiters (ISO C 6.4.7): in angle form `<NAME>`, else in quote form `"NAME"`.
#[derive(Drop)]
pub struct HeaderName {
    pub angle: bool,
    pub name: Bytes,
}

/// What an `#include` names (ISO C 6.10.2): a header name as written, or tokens that are one once they are expanded.
#[derive(Drop)]
pub enum Target {
    Plain(HeaderName),
    Computed(List<Token>),
}

/// A directive (ISO C 6.10), with its tokens behind its name as far as it needs them. `Next` is `#include_next`, `Once`
/// is `#pragma once`, `Null` is a `#` alone, and `Unknown` is any other name.
#[derive(Drop)]
pub enum Directive {
    Include(Target),
    Next(Target),
    Define(List<Token>),
    Undef(List<Token>),
    If(List<Token>),
    Ifdef(List<Token>),
    Ifndef(List<Token>),
    Elif(List<Token>),
    Else,
    Endif,
    Line(List<Token>),
    Error(List<Token>),
    Warning,
    Once,
    Pragma(List<Token>),
    Null,
    Unknown,
}

/// A piece of a file: the tokens of a longest sequence of lines that are no directives, empty lines included; or a
/// directive with the physical line, from 1, of its `#`.
#[derive(Drop)]
pub enum Piece {
    Run { tokens: List<Token> },
    Line { at: u32, what: Directive },
}
