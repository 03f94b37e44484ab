// What the lines of conditionals ask and what definitions say, lent from the lexed file.
ghost use Rattle.std.specs.Prelude.{◌≡◌, ◌<◌, ◌≤◌, ◌+◌, drop, length};
ghost use Rattle.std.specs.Arc.{arc_value};
ghost use Rattle.directive_scan.specs.Gathered.{tokens_at_line};
ghost use Rattle.directive_scan.specs.Names.{directive_told};
ghost use Rattle.directive_scan.specs.Spots.{AsksOf, tokens_before, tokens_between};

use crate::name::DirectiveName;
use pp_tokens::{Lexed, Tokens};
use std::alloc::Global;
use std::sync::Arc;

/// What the line of a conditional asks (ISO C 6.10.1), or a `#define` defines (6.10.3), with the tokens behind the directive's name as they
/// lie in the file; of a definition the file, and the numbers of the first of these tokens and of the one behind the last. `Nothing` is any
/// other directive.
#[derive(Clone, Copy, Drop)]
pub enum Asked<'a> {
    If(Tokens<'a>),
    Elif(Tokens<'a>),
    Ifdef(Tokens<'a>),
    Ifndef(Tokens<'a>),
    Define(&'a Arc<Lexed, Global>, usize, usize),
    Nothing,
}

// What the directive on a line asks that has this name.
pub fn asked_at(file: &Arc<Lexed, Global>, line: usize, name: DirectiveName) -> Asked<'_>
    ensures { AsksOf result (directive_told name (drop 2 (tokens_at_line (arc_value file.now) line))) }
{
    if line >= file.line_count() || file.token_count(line) < 2 {
        return asked_by(name, file, 0, 0);
    }
    let end = file.tokens_before(line + 1);
    asked_by(name, file, from_name(file, line, end), end)
}

// The number of the first token of a line behind its `#` and the directive's name. As many as `end` stand up to the line's end.
fn from_name(file: &Lexed, line: usize, end: usize) -> usize
    requires below { line < length file.now.lines }
    requires named { 2 ≤ length (tokens_at_line file.now line) }
    requires ends { end ≡ tokens_before file.now (line + 1) }
    ensures { tokens_between file.now result end ≡ drop 2 (tokens_at_line file.now line) }
{
    file.tokens_before(line) + 2
}

// What a directive of this name asks, whose tokens are those from one number up to another.
fn asked_by(name: DirectiveName, file: &Arc<Lexed, Global>, from: usize, end: usize) -> Asked<'_>
    ensures { AsksOf result (directive_told name (tokens_between (arc_value file.now) from end)) }
{
    match name {
        DirectiveName::If => Asked::If(file.tokens(from, end)),
        DirectiveName::Elif => Asked::Elif(file.tokens(from, end)),
        DirectiveName::Ifdef => Asked::Ifdef(file.tokens(from, end)),
        DirectiveName::Ifndef => Asked::Ifndef(file.tokens(from, end)),
        DirectiveName::Define => Asked::Define(file, from, end),
        _ => Asked::Nothing,
    }
}
