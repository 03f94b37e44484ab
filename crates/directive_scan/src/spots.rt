// Where the pieces of a lexed file lie in it.
ghost use Rattle.std.specs.Prelude.{◌≡◌, ◌<◌, ◌≤◌, ◌+◌, ◌∷◌, [], ℕ, Some, None, length, map, drop, IfOk, OnOk, List};
ghost use Rattle.directive_scan.specs.declared.directive.Piece.{Piece};
ghost use Rattle.directive_scan.specs.declared.spots.Spot.TheVariants as spot;
ghost use Rattle.directive_scan.specs.Directives.{line_before, onto_run, pieces};
ghost use Rattle.directive_scan.specs.Gathered.{tokens_at_line, hash_of};
ghost use Rattle.directive_scan.specs.Spots.{piece_at, EachKnowsName, so_far, BeginsBefore, directive_on};

use crate::name::{DirectiveName, name_at};
use pp_tokens::Lexed;
use std::alloc::{AllocError, Global};

// Where a piece lies: the tokens from one number up to another; or a directive's logical line, with the physical line of
// its `#` and the directive's name. The fields stand in an order in which it takes 12 bytes.
#[derive(Clone, Copy, Drop)]
pub enum Spot {
    Text {
        from: u32,
        end: u32,
    },
    Line {
        name: DirectiveName,
        line: u32,
        at: u32,
    },
}

// The spot of a run. A body that may be lexed has fewer than 2^32 tokens.
#[inline(always)]
fn text_spot(from: usize, end: usize) -> Result<Spot, AllocError>
    ensures { IfOk result (λ s. s ≡ spot.Text from end) }
{
    let (Ok(from), Ok(end)) = (u32::try_from(from), u32::try_from(end)) else {
        return Err(AllocError);
    };
    Ok(Spot::Text { from, end })
}

// The spot of a directive. A body that may be lexed has fewer than 2^32 lines.
#[inline(always)]
fn line_spot(name: DirectiveName, line: usize, at: u32) -> Result<Spot, AllocError>
    ensures { IfOk result (λ s. s ≡ spot.Line name line at) }
{
    let Ok(line) = u32::try_from(line) else {
        return Err(AllocError);
    };
    Ok(Spot::Line { name, line, at })
}

// The spots of the lines so far: those that are at an end, and the number of the first token of the run of the last
// lines, where these are text.
#[derive(Drop)]
struct Gathered {
    ended: Vec<Spot>,
    run: Option<usize>,
}

// The spots of most files find room for so many at once.
const ROOM: usize = 1024;

// The spots of a file's pieces. No token is copied; time is linear in the lines.
pub fn spots(alloc: Global, file: &Lexed) -> Result<Vec<Spot>, AllocError>
    ensures shown { IfOk result (λ s. map (piece_at file.now) s.items ≡ pieces file.now.lines) }
    ensures names { IfOk result (λ s. EachKnowsName file.now s.items) }
{
    let count = file.line_count();
    let mut gathered = Gathered {
        ended: Vec::with_capacity(alloc, count.min(ROOM))?,
        run: None,
    };
    for line in 0..count {
        gathered = with_line(file, line, gathered)?;
    }
    all_ended(file, count, gathered)
}

// What is gathered with one more line.
fn with_line(file: &Lexed, line: usize, gathered: Gathered) -> Result<Gathered, AllocError>
    requires below { line < length file.now.lines }
    requires begins { BeginsBefore file.now gathered.run line }
    ensures shown { IfOk result (λ g. (others : List Piece) → so_far file.now g.ended.items g.run (line + 1) others ≡ so_far file.now gathered.ended.items gathered.run line (line_before (tokens_at_line file.now line) others)) }
    ensures names { IfOk result (λ g. EachKnowsName file.now gathered.ended.items → EachKnowsName file.now g.ended.items) }
    ensures begins { IfOk result (λ g. BeginsBefore file.now g.run (line + 1)) }
{
    match hash_at(file, line) {
        Some(at) => with_directive(file, line, at, gathered),
        None => Ok(with_text(file, line, gathered)),
    }
}

// A directive ends the run.
fn with_directive(
    file: &Lexed,
    line: usize,
    at: u32,
    gathered: Gathered,
) -> Result<Gathered, AllocError>
    requires below { line < length file.now.lines }
    ensures shown { IfOk result (λ g. (others : List Piece) → so_far file.now g.ended.items g.run (line + 1) others ≡ so_far file.now gathered.ended.items gathered.run line (Piece.Line at (directive_on file.now line) ∷ others)) }
    ensures names { IfOk result (λ g. EachKnowsName file.now gathered.ended.items → EachKnowsName file.now g.ended.items) }
    ensures begins { IfOk result (λ g. g.run ≡ None) }
{
    let mut ended = all_ended(file, line, gathered)?;
    let spot = line_spot(name_at(file, line), line, at)?;
    ended.push(spot)?;
    Ok(Gathered { ended, run: None })
}

// A line of text goes on with the run, or begins one.
fn with_text(file: &Lexed, line: usize, gathered: Gathered) -> Gathered
    requires below { line < length file.now.lines }
    requires begins { BeginsBefore file.now gathered.run line }
    ensures shown { (others : List Piece) → so_far file.now result.ended.items result.run (line + 1) others ≡ so_far file.now gathered.ended.items gathered.run line (onto_run (tokens_at_line file.now line) others) }
    ensures same { result.ended.items ≡ gathered.ended.items }
    ensures begins { BeginsBefore file.now result.run (line + 1) }
{
    let from = gathered.run.unwrap_or(file.tokens_before(line));
    Gathered {
        ended: gathered.ended,
        run: Some(from),
    }
}

// The spots, with the run at an end before a line.
#[inline(always)]
fn all_ended(file: &Lexed, line: usize, gathered: Gathered) -> Result<Vec<Spot>, AllocError>
    requires { line ≤ length file.now.lines }
    ensures shown { IfOk result (λ s. map (piece_at file.now) s.items ≡ so_far file.now gathered.ended.items gathered.run line []) }
    ensures names { IfOk result (λ s. EachKnowsName file.now gathered.ended.items → EachKnowsName file.now s.items) }
{
    let Gathered { mut ended, run } = gathered;
    if let Some(from) = run {
        let spot = text_spot(from, file.tokens_before(line))?;
        ended.push(spot)?;
    }
    Ok(ended)
}

// The physical line of the `#` that begins a line; None where the line is text.
#[tactic(auto, unfolding(crate::specs::Gathered::hash_of))]
fn hash_at(lexed: &Lexed, line: usize) -> Option<u32>
    ensures { result ≡ hash_of (tokens_at_line lexed.now line) }
{
    let first = lexed.token(line, 0)?;
    if first.text == b"#".as_slice() || first.text == b"%:".as_slice() {
        Some(first.line)
    } else {
        None
    }
}
