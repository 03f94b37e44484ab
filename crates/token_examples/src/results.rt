// What cases give, line by line.
use base_types::List;
use bstr::ByteSlice;
use directive_scan::{Directive, HeaderName, Piece, Pieces, Target, header_of, scan};
use pp_tokens::{Kind, Lexed, Token};
use std::alloc::{AllocError, Global};
use std::fmt::{Debug, Write};

/// Adds a line with a value as Rust shows it.
pub fn add_result<D: Debug>(out: &mut String, value: &D) -> Result<(), AllocError> {
    writeln!(out, "| {value:?}")
}

/// Adds copies of a body's tokens. Behind the last line none is found, so that nothing is added for it.
pub fn add_tokens(alloc: Global, out: &mut String, lexed: &Lexed) -> Result<(), AllocError> {
    for line in 0..lexed.line_count() {
        out.push('|')?;
        add_line(out, &copies(alloc, lexed, line)?)?;
        out.push('\n')?;
    }
    add_line(out, &copies(alloc, lexed, lexed.line_count())?)?;
    add_open(out, lexed)
}

// Copies of the tokens of a line. Behind the last one none is found.
fn copies(alloc: Global, lexed: &Lexed, line: usize) -> Result<Vec<Token>, AllocError> {
    let mut tokens = Vec::new(alloc);
    for place in 0..=lexed.token_count(line) {
        if let Some(token) = lexed.token(line, place) {
            tokens.push(token.to_token(alloc)?)?;
        }
    }
    Ok(tokens)
}

fn add_line(out: &mut String, tokens: &[Token]) -> Result<(), AllocError> {
    for token in tokens {
        let space = if token.space { " " } else { "" };
        let letter = letter(token.kind);
        let spelling = token.text.as_slice().escape_bytes();
        write!(out, "{space}{letter}{}({spelling})", token.line)?;
    }
    Ok(())
}

fn letter(kind: Kind) -> &'static str {
    match kind {
        Kind::Ident => "i",
        Kind::Number => "n",
        Kind::Char => "c",
        Kind::Str => "s",
        Kind::Punct => "p",
        Kind::Header => "h",
        Kind::Other => "o",
    }
}

// Adds the line of a comment that never ends.
fn add_open(out: &mut String, lexed: &Lexed) -> Result<(), AllocError> {
    match lexed.open_comment() {
        Some(line) => writeln!(out, "| open {line}"),
        None => Ok(()),
    }
}

/// Adds how many lines and tokens a body has, and where its last line with tokens begins.
pub fn add_counts(out: &mut String, lexed: &Lexed) -> Result<(), AllocError> {
    let mut tokens = 0usize;
    let mut last = 0u32;
    for line in 0..lexed.line_count() {
        tokens = tokens.saturating_add(lexed.token_count(line));
        if let Some(token) = lexed.token(line, 0) {
            last = token.line;
        }
    }
    writeln!(
        out,
        "| lines {}, tokens {tokens}, last at {last}",
        lexed.line_count()
    )?;
    add_open(out, lexed)
}

/// Adds the pieces of a file.
pub fn add_pieces(alloc: Global, out: &mut String, lexed: &Lexed) -> Result<(), AllocError> {
    let pieces = scan(alloc, lexed)?;
    for piece in pieces.as_slice() {
        add_piece(out, piece)?;
    }
    Ok(())
}

fn add_piece(out: &mut String, piece: &Piece) -> Result<(), AllocError> {
    match piece {
        Piece::Run { tokens } => add_named(out, "| run", tokens)?,
        Piece::Line { at, what } => {
            write!(out, "| {at} ")?;
            add_directive(out, what)?;
        }
    }
    out.push('\n')
}

// Adds the name of a directive, and what it keeps.
fn add_directive(out: &mut String, what: &Directive) -> Result<(), AllocError> {
    match what {
        Directive::Include(target) => add_target(out, "include", target),
        Directive::Next(target) => add_target(out, "include_next", target),
        Directive::Define(tokens) => add_named(out, "define", tokens),
        Directive::Undef(tokens) => add_named(out, "undef", tokens),
        Directive::If(tokens) => add_named(out, "if", tokens),
        Directive::Ifdef(tokens) => add_named(out, "ifdef", tokens),
        Directive::Ifndef(tokens) => add_named(out, "ifndef", tokens),
        Directive::Elif(tokens) => add_named(out, "elif", tokens),
        Directive::Else => out.push_str("else"),
        Directive::Endif => out.push_str("endif"),
        Directive::Line(tokens) => add_named(out, "line", tokens),
        Directive::Error(tokens) => add_named(out, "error", tokens),
        Directive::Warning => out.push_str("warning"),
        Directive::Once => out.push_str("once"),
        Directive::Pragma(tokens) => add_named(out, "pragma", tokens),
        Directive::Null => out.push_str("null"),
        Directive::Unknown => out.push_str("unknown"),
    }
}

fn add_target(out: &mut String, name: &str, target: &Target) -> Result<(), AllocError> {
    write!(out, "{name} ")?;
    match target {
        Target::Plain(header) => add_header_name(out, header),
        Target::Computed(tokens) => add_named(out, "computed", tokens),
    }
}

// Adds a name, and the spellings of tokens.
fn add_named(out: &mut String, name: &str, tokens: &List<Token>) -> Result<(), AllocError> {
    out.push_str(name)?;
    for token in tokens.as_slice() {
        write!(out, " {}", token.text.as_slice().escape_bytes())?;
    }
    Ok(())
}

fn add_header_name(out: &mut String, header: &HeaderName) -> Result<(), AllocError> {
    let form = if header.angle { "angle" } else { "quote" };
    write!(out, "{form} {}", header.name.as_slice().escape_bytes())
}

/// Adds the header name that the tokens of the first line give.
pub fn add_header(alloc: Global, out: &mut String, lexed: &Lexed) -> Result<(), AllocError> {
    let tokens = copies(alloc, lexed, 0)?;
    out.push_str("| ")?;
    match header_of(alloc, &tokens)? {
        Some(header) => add_header_name(out, &header)?,
        None => out.push_str("None")?,
    }
    out.push('\n')
}

/// Adds what is wrong with the conditionals of a file.
pub fn add_nesting(alloc: Global, out: &mut String, lexed: Lexed) -> Result<(), AllocError> {
    let pieces = Pieces::of(alloc, lexed)?;
    add_result(out, &pieces.malformed(alloc)?)
}
