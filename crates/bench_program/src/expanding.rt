// Counts the tokens that the text of C files becomes, or prints them.
ghost use Rattle.std.specs.Prelude.{◌≡◌, ◌+◌, ◌<◌, IsTrue, false};
ghost use Rattle.macro_expand.specs.Stream.{at_hand};

use crate::counts::{Counts, counts_of};
use crate::outcome::not_done;
use crate::unit::{UNITS, Unit};
use anyhow::Result;
use base_types::Bytes;
use command_line::read_body;
use cpp_output::{LayError, Layout};
use directive_scan::{DirectiveRef, PieceRef, Pieces};
use macro_expand::{ExpandError, Expander, Lent, Work};
use pp_tokens::{Tokens, lex_body};
use std::alloc::Global;
use std::io::{self, Write};
use std::mem::forget;
use std::rt::Files;

/// Prints the counts of a file, or its first error; whether it is read and has none.
pub fn count<R: Files + AllocGlobal + Print + Eprint>(rt: &R, file: &str) -> io::Result<bool> {
    match pieces_of(rt, file) {
        Ok(pieces) => count_pieces(rt, file, &pieces),
        Err(error) => not_done(rt, file, &error),
    }
}

/// Prints what a file's text becomes, or its first error; whether it is read and has none.
pub fn print_text<R: Files + AllocGlobal + Print + Eprint>(rt: &R, file: &str) -> io::Result<bool> {
    match pieces_of(rt, file) {
        Ok(pieces) => {
            let printed = print_pieces(rt, file, &pieces);
            forget(pieces);
            printed
        }
        Err(error) => not_done(rt, file, &error),
    }
}

fn pieces_of<R: Files + AllocGlobal>(rt: &R, file: &str) -> Result<Pieces> {
    let body = read_body(rt, file)?;
    Ok(Pieces::of(rt.alloc(), lex_body(rt.alloc(), body, false)?)?)
}

// Prints the counts of a file's pieces; whether it has no error.
fn count_pieces<R: AllocGlobal + Print + Eprint>(
    rt: &R,
    file: &str,
    pieces: &Pieces,
) -> io::Result<bool> {
    let mut unit = Unit::new(rt.alloc(), file)?;
    let counts = added_up(rt.alloc(), pieces, &mut unit);
    print_refused(rt, file, unit.refused())?;
    match counts {
        Ok(counts) => print_counts(rt, file, counts),
        Err(error) => print_error(rt, file, &error),
    }
}

fn print_counts<R: Print>(rt: &R, file: &str, counts: Counts) -> io::Result<bool> {
    let Counts {
        tokens,
        expanded,
        work,
    } = counts;
    println!(rt; "{file} {tokens} {expanded} {work}")?;
    Ok(true)
}

// Definitions that were refused have a line on standard error.
fn print_refused<R: Eprint>(rt: &R, file: &str, refused: u64) -> io::Result<()> {
    if 0 < refused {
        eprintln!(rt; "{file}: {refused} definitions refused")?;
    }
    Ok(())
}

// The counts of all runs of a file, or its first error.
fn added_up(alloc: Global, pieces: &Pieces, unit: &mut Unit) -> Result<Counts, ExpandError> {
    let mut all = Counts::none();
    for number in 0..pieces.len() {
        match pieces.piece(number) {
            PieceRef::Run(run) => all = all.and(counts_of(alloc, unit, run)?),
            PieceRef::Line { what, .. } => take_line(alloc, unit, what)?,
        }
    }
    Ok(all)
}

fn take_line(alloc: Global, unit: &mut Unit, line: DirectiveRef<'_>) -> Result<(), ExpandError> {
    match unit.obey(alloc, line) {
        Ok(()) => Ok(()),
        Err(_) => Err(ExpandError::Memory),
    }
}

// Prints what a file's pieces become; whether it has no error.
fn print_pieces<R: AllocGlobal + Print + Eprint>(
    rt: &R,
    file: &str,
    pieces: &Pieces,
) -> io::Result<bool> {
    let mut unit = Unit::new(rt.alloc(), file)?;
    let text = laid_out(rt.alloc(), file, pieces, &mut unit);
    print_refused(rt, file, unit.refused())?;
    forget(unit);
    match text {
        Ok(text) => print_bytes(rt, text.as_slice()),
        Err(error) => print_text_error(rt, file, &error),
    }
}

fn print_bytes<R: Print>(rt: &R, text: &[u8]) -> io::Result<bool> {
    io::writer(rt).write_all(text)?;
    Ok(true)
}

fn print_text_error<R: Print>(rt: &R, file: &str, error: &TextError) -> io::Result<bool> {
    match error {
        TextError::Full => {
            println!(rt; "{file} error: more than 64 MiB of text")?;
            Ok(false)
        }
        TextError::Expand(error) => print_error(rt, file, error),
    }
}

// Why a file's text can't be laid out.
#[derive(Drop)]
enum TextError {
    Full,
    Expand(ExpandError),
}

impl From<ExpandError> for TextError {
    ghost from_gives = { λ _ _. Unit {0} };

    fn from(e: ExpandError) -> TextError {
        TextError::Expand(e)
    }
}

impl From<LayError> for TextError {
    ghost from_gives = { λ _ _. Unit {0} };

    fn from(e: LayError) -> TextError {
        match e {
            LayError::Full => TextError::Full,
            LayError::Memory => TextError::Expand(ExpandError::Memory),
        }
    }
}

// The text that a file becomes, laid out as preprocessed output is.
fn laid_out(
    alloc: Global,
    file: &str,
    pieces: &Pieces,
    unit: &mut Unit,
) -> Result<Bytes, TextError> {
    let mut layout = Layout::begin(alloc, file.as_bytes())?;
    layout.make_room(pieces.text_bytes());
    for number in 0..pieces.len() {
        match pieces.piece(number) {
            PieceRef::Run(run) => lay_out(alloc, &mut layout, unit, run)?,
            PieceRef::Line { what, .. } => take_line(alloc, unit, what)?,
        }
    }
    Ok(layout.finish()?)
}

// Lays out what a run becomes.
fn lay_out(
    alloc: Global,
    layout: &mut Layout,
    unit: &Unit,
    run: Tokens<'_>,
) -> Result<(), TextError> {
    let mut stream = unit.expansion(alloc, run);
    let mut work = Work { left: UNITS };
    let mut failed = None;
    while lay_next(&mut stream, layout, &mut work, &mut failed) {}
    match failed {
        Some(error) => Err(error),
        None => Ok(()),
    }
}

// Lays out what comes next; whether anything did, and nothing failed. Most tokens of a text are lent. What fails goes to a place of its
// own, since an error is large, and one would be moved about for each token.
#[inline(always)]
fn lay_next(
    stream: &mut Expander<'_>,
    layout: &mut Layout,
    work: &mut Work,
    failed: &mut Option<TextError>,
) -> bool
    ensures few { IsTrue result → at_hand stream.new + work.new.left < at_hand stream.old + work.old.left }
{
    let Some(lent) = stream.lend_more() else {
        return lay_expanded(stream, layout, work, failed);
    };
    match lay_lent(layout, lent) {
        Ok(()) => true,
        Err(error) => fail(failed, TextError::from(error)),
    }
}

#[inline(always)]
fn lay_lent(layout: &mut Layout, lent: Lent<'_>) -> Result<(), LayError> {
    match lent {
        Lent::Token(token) => layout.put(&token),
        Lent::Stretch(tokens) => layout.stretch(tokens),
    }
}

// Keeps what failed.
#[cold]
fn fail(failed: &mut Option<TextError>, error: TextError) -> bool
    ensures { result ≡ false }
{
    *failed = Some(error);
    false
}

// Lays out the next token of an expansion that lends none.
#[inline(never)]
fn lay_expanded(
    stream: &mut Expander<'_>,
    layout: &mut Layout,
    work: &mut Work,
    failed: &mut Option<TextError>,
) -> bool
    ensures few { IsTrue result → at_hand stream.new + work.new.left < at_hand stream.old + work.old.left }
{
    match stream.expand_next(work) {
        Ok(Some(token)) => match layout.put(&token.as_ref()) {
            Ok(()) => true,
            Err(error) => fail(failed, TextError::from(error)),
        },
        Ok(None) => false,
        Err(error) => fail(failed, TextError::Expand(error)),
    }
}

fn print_error<R: Print>(rt: &R, file: &str, error: &ExpandError) -> io::Result<bool> {
    print!(rt; "{file} error: ")?;
    print_reason(rt, error)?;
    Ok(false)
}

fn print_reason<R: Print>(rt: &R, error: &ExpandError) -> io::Result<()> {
    match error {
        ExpandError::Count { name, line } => print_count_error(rt, name.as_slice(), *line),
        ExpandError::Unclosed { name, line } => print_unclosed(rt, name.as_slice(), *line),
        ExpandError::Paste { left, right, line } => {
            print_paste_error(rt, left.as_slice(), right.as_slice(), *line)
        }
        ExpandError::Deep { line } => { println!(rt; "line {line}: arguments more than 400 deep") }
        ExpandError::Work => println!(rt; "more than {} units of work", UNITS),
        ExpandError::Memory => println!(rt; "out of memory"),
    }
}

fn print_count_error<R: Print>(rt: &R, name: &[u8], line: u32) -> io::Result<()> {
    let name = name.escape_ascii();
    println!(rt; "line {line}: {name} has another number of parameters")
}

fn print_unclosed<R: Print>(rt: &R, name: &[u8], line: u32) -> io::Result<()> {
    let name = name.escape_ascii();
    println!(rt; "line {line}: the call of {name} doesn't end")
}

fn print_paste_error<R: Print>(rt: &R, left: &[u8], right: &[u8], line: u32) -> io::Result<()> {
    let left = left.escape_ascii();
    let right = right.escape_ascii();
    println!(rt; "line {line}: {left} and {right} make no token")
}
