// The pieces of a file that stand by themselves.
ghost use Rattle.std.specs.Prelude.{◌≡◌, ◌≤◌, [], ◌∷◌, ◌++◌, IfOk, IsErrOf};
ghost use Rattle.std.specs.Option.{ForSome};
ghost use Rattle.base_types.specs.Causes.{HasCause};
ghost use Rattle.directive_scan.specs.Spots.{AsksNothing, directive_seen, piece_seen};
ghost use Rattle.cpp_output.specs.Layout.{pragma};
ghost use Rattle.daemon_cpp.specs.Prep.{Go, world_of, say, line_step, include, directive_step, piece_step};
ghost use Rattle.daemon_cpp.specs.parts.Showing.{Moves, IsNumbered, here_seen, moves_onward};

use crate::define::{define, undefine};
use crate::diagnostic::Problem;
use crate::header::include;
use crate::kept::{Kept, Places};
use crate::line::{NewLine, read_line};
use crate::stop::{Stop, refused};
use crate::text::run_text;
use base_types::Boxed;
use cpp_output::LayError;
use directive_scan::{Asked, Directive, DirectiveRef, PieceRef, Target};
use pp_tokens::Token;
use search_path::Visit;
use std::alloc::Global;
use tree_model::{Located, Tree};

/// What a piece leads to: the next piece, the file of an include on a line, or other numbers behind a `#line`. What is large is in
/// memory of its own, since this is moved about for each piece.
#[derive(Drop)]
pub enum Move {
    Onward,
    Enter {
        at: u32,
        file: Boxed<(Visit, Located)>,
    },
    Renumber {
        at: u32,
        new: Boxed<NewLine>,
    },
}

/// Reads a piece that stands by itself: text and pragmas go into the output, definitions into the table, and includes are searched.
pub fn run_piece<T: Tree>(
    alloc: Global,
    tree: &mut T,
    kept: &mut Kept,
    places: Places<'_>,
    piece: PieceRef<'_>,
) -> Result<Move, Stop>
    ensures same { T.told tree.new ≡ T.told tree.old }
    ensures moves { ForSome (T.told tree.old) (λ told. Moves kept.old kept.new places.entry.source.now (here_seen places.entry)
        (λ entering state. piece_step (world_of told places.entry.setup.now) entering (piece_seen piece.entry) state) result) }
    ensures narrow { IfOk result IsNumbered }
    ensures spends { kept.new.work.left ≤ kept.old.work.left }
    ensures cause { HasCause Stop.Fault (T.faults tree.old) (T.faults tree.new) result }
{
    match piece {
        PieceRef::Run(tokens) => onward(run_text(alloc, kept, places, tokens)),
        PieceRef::Line { at, what } => run_line(alloc, tree, kept, places, at, what),
    }
}

// The next piece is read where nothing stopped.
fn onward(done: Result<(), Stop>) -> Result<Move, Stop>
    ensures { result ≡ moves_onward done }
{
    match done {
        Ok(()) => Ok(Move::Onward),
        Err(stop) => Err(stop),
    }
}

// A directive on a line. Its tokens are made here, but for those of a definition.
fn run_line<T: Tree>(
    alloc: Global,
    tree: &mut T,
    kept: &mut Kept,
    places: Places<'_>,
    at: u32,
    line: DirectiveRef<'_>,
) -> Result<Move, Stop>
    ensures same { T.told tree.new ≡ T.told tree.old }
    ensures moves { ForSome (T.told tree.old) (λ told. Moves kept.old kept.new places.entry.source.now (here_seen places.entry)
        (λ entering state. directive_step (world_of told places.entry.setup.now) entering at (directive_seen line.entry) state) result) }
    ensures narrow { IfOk result IsNumbered }
    ensures spends { kept.new.work.left ≤ kept.old.work.left }
    ensures cause { HasCause Stop.Fault (T.faults tree.old) (T.faults tree.new) result }
{
    match line.asked() {
        Asked::Define(file, from, end) => {
            onward(define(alloc, kept, places, at, file, from, end))
        }
        Asked::Nothing => {
            let what = line.read(alloc)?;
            run_directive(alloc, tree, kept, places, at, what)
        }
        Asked::If(_) | Asked::Elif(_) | Asked::Ifdef(_) | Asked::Ifndef(_) => Ok(Move::Onward),
    }
}

// A directive on a line that is no condition's and no definition. It is compiled by itself, so that text and definitions don't pay for its room.
#[inline(never)]
fn run_directive<T: Tree>(
    alloc: Global,
    tree: &mut T,
    kept: &mut Kept,
    places: Places<'_>,
    at: u32,
    what: Directive,
) -> Result<Move, Stop>
    requires { AsksNothing what }
    ensures same { T.told tree.new ≡ T.told tree.old }
    ensures moves { ForSome (T.told tree.old) (λ told. Moves kept.old kept.new places.entry.source.now (here_seen places.entry)
        (λ entering state. directive_step (world_of told places.entry.setup.now) entering at what state) result) }
    ensures narrow { IfOk result IsNumbered }
    ensures spends { kept.new.work.left ≤ kept.old.work.left }
    ensures cause { HasCause Stop.Fault (T.faults tree.old) (T.faults tree.new) result }
{
    match what {
        Directive::Include(target) => run_include(alloc, tree, kept, places, false, at, &target),
        Directive::Next(target) => run_include(alloc, tree, kept, places, true, at, &target),
        Directive::Undef(tokens) => onward(undefine(alloc, kept, places, at, tokens.as_slice())),
        Directive::Line(tokens) => renumber(alloc, kept, places, at, tokens.as_slice()),
        Directive::Error(tokens) => {
            let problem = Problem::ErrorLine(tokens.as_slice());
            Err(refused(alloc, &places.visit.place, at, problem))
        }
        Directive::Once => mark_once(alloc, kept, places),
        Directive::Pragma(tokens) => lay_pragma(alloc, kept, places, at, tokens.as_slice()),
        Directive::Unknown => {
            let place = &places.visit.place;
            Err(refused(alloc, place, at, Problem::UnknownDirective))
        }
        Directive::Warning | Directive::Null => Ok(Move::Onward),
        Directive::Else | Directive::Endif => Ok(Move::Onward),
        Directive::Define(_) | Directive::Elif(_) => unreachable!(),
        Directive::If(_) | Directive::Ifdef(_) | Directive::Ifndef(_) => unreachable!(),
    }
}

// An include, or an include_next, on a line (ISO C 6.10.2).
fn run_include<T: Tree>(
    alloc: Global,
    tree: &mut T,
    kept: &mut Kept,
    places: Places<'_>,
    next: bool,
    at: u32,
    target: &Target,
) -> Result<Move, Stop>
    ensures same { T.told tree.new ≡ T.told tree.old }
    ensures moves { ForSome (T.told tree.old) (λ told. Moves kept.old kept.new places.entry.source.now (here_seen places.entry)
        (λ entering state. include (world_of told places.entry.setup.now) entering next at target.now state) result) }
    ensures narrow { IfOk result IsNumbered }
    ensures spends { kept.new.work.left ≤ kept.old.work.left }
    ensures cause { HasCause Stop.Fault (T.faults tree.old) (T.faults tree.new) result }
{
    match include(alloc, tree, kept, places, next, at, target) {
        Ok(Some(file)) => {
            let file = Boxed::new(alloc, file)?;
            Ok(Move::Enter { at, file })
        }
        Ok(None) => Ok(Move::Onward),
        Err(stop) => Err(stop),
    }
}

// A line directive (6.10.4).
fn renumber(
    alloc: Global,
    kept: &mut Kept,
    places: Places<'_>,
    at: u32,
    tokens: &[Token],
) -> Result<Move, Stop>
    ensures moves { Moves kept.old kept.new places.entry.source.now (here_seen places.entry) (λ entering state. line_step at tokens.now state) result }
    ensures narrow { IfOk result IsNumbered }
    ensures spends { kept.new.work.left ≤ kept.old.work.left }
    ensures no_fault { IsErrOf result Stop.Fault → ⊥ }
{
    match read_line(alloc, kept, places, at, tokens) {
        Ok(new) => {
            let new = Boxed::new(alloc, new)?;
            Ok(Move::Renumber { at, new })
        }
        Err(stop) => Err(stop),
    }
}

// The file that is read is read once, by its path behind all links.
fn mark_once(alloc: Global, kept: &mut Kept, places: Places<'_>) -> Result<Move, Stop>
    ensures moves { Moves kept.old kept.new places.entry.source.now (here_seen places.entry)
        (λ entering state. Go (record state { once = state.once ++ state.here.real ∷ [] })) result }
    ensures narrow { IfOk result IsNumbered }
    ensures spends { kept.new.work.left ≤ kept.old.work.left }
    ensures no_fault { IsErrOf result Stop.Fault → ⊥ }
{
    kept.once.mark(alloc, places.real)?;
    Ok(Move::Onward)
}

// A pragma goes into the output (6.10.6).
fn lay_pragma(
    alloc: Global,
    kept: &mut Kept,
    places: Places<'_>,
    at: u32,
    tokens: &[Token],
) -> Result<Move, Stop>
    ensures moves { Moves kept.old kept.new places.entry.source.now (here_seen places.entry) (λ entering state. say (pragma at tokens.now ∷ []) state) result }
    ensures narrow { IfOk result IsNumbered }
    ensures spends { kept.new.work.left ≤ kept.old.work.left }
    ensures no_fault { IsErrOf result Stop.Fault → ⊥ }
{
    match kept.layout.pragma(at, tokens) {
        Ok(()) => Ok(Move::Onward),
        Err(LayError::Full) => Err(refused(alloc, places.source, 0, Problem::TextLimit)),
        Err(LayError::Memory) => Err(Stop::Memory),
    }
}
