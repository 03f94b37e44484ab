// What directives add to a sheet but for definitions (ISO C 6.10).
ghost use Rattle.std.specs.Prelude.{◌≡◌, false, ℕ, ◌∷◌, [], OnOk, IsErrOf};
ghost use Rattle.std.specs.Option.{ForSome};
ghost use Rattle.base_types.specs.Causes.{HasCause};
ghost use Rattle.directive_scan.specs.Spots.{piece_seen, directive_seen};
ghost use Rattle.directive_scan.specs.declared.Piece.TheVariants.{Line};
ghost use Rattle.sheet_build.specs.parts.Stored.{Adds, AddsNothing};

use crate::targets::{add_include, add_probes};
use crate::unweighed::Parts;
use directive_scan::{Directive, DirectiveName, DirectiveRef, PieceRef, parts_without_probe};
use search_path::{Setup, Visit};
use std::alloc::Global;
use tree_model::{Tree, TreeError};

// A piece of a file. The tokens of text aren't read; those of a directive are made here, where it may add something.
pub fn add_piece<T: Tree>(
    alloc: Global,
    tree: &mut T,
    setup: &Setup,
    visit: &Visit,
    piece: PieceRef<'_>,
    parts: &mut Parts,
) -> Result<(), TreeError>
    ensures same { T.told tree.new ≡ T.told tree.old }
    ensures adds { ForSome (T.told tree.old) (λ told. OnOk result (Adds told setup.now visit.now (piece_seen piece.entry ∷ []) parts.old parts.new)) }
    ensures cause { HasCause TreeError.Fault (T.faults tree.old) (T.faults tree.new) result }
    ensures never_large { IsErrOf result TreeError.Large → ⊥ }
    ensures no_read { T.reads tree.new ≡ T.reads tree.old }
{
    match piece {
        PieceRef::Run(_) => Ok(()),
        PieceRef::Line { at: _, what } => {
            if !may_add(what) {
                return Ok(());
            }
            let what = what.read(alloc)?;
            add_directive(alloc, tree, setup, visit, what, parts)
        }
    }
}

// Whether a directive may add something, as far as its name tells it, and as a condition asks for a file.
fn may_add(line: DirectiveRef<'_>) -> bool
    ensures { result ≡ false → AddsNothing (directive_seen line.entry) }
{
    parts_without_probe();
    match line.name() {
        DirectiveName::Include => true,
        DirectiveName::Next => true,
        DirectiveName::Line => true,
        DirectiveName::If => line.has_probe(),
        DirectiveName::Elif => line.has_probe(),
        _ => false,
    }
}

// A directive, on whatever line.
fn add_directive<T: Tree>(
    alloc: Global,
    tree: &mut T,
    setup: &Setup,
    visit: &Visit,
    what: Directive,
    parts: &mut Parts,
) -> Result<(), TreeError>
    ensures same { T.told tree.new ≡ T.told tree.old }
    ensures adds { ForSome (T.told tree.old) (λ told. OnOk result ((at : ℕ) → Adds told setup.now visit.now (Line at what ∷ []) parts.old parts.new)) }
    ensures cause { HasCause TreeError.Fault (T.faults tree.old) (T.faults tree.new) result }
    ensures never_large { IsErrOf result TreeError.Large → ⊥ }
    ensures no_read { T.reads tree.new ≡ T.reads tree.old }
{
    match what {
        Directive::Include(target) => add_include(alloc, tree, setup, visit, false, target, parts),
        Directive::Next(target) => add_include(alloc, tree, setup, visit, true, target, parts),
        Directive::If(tokens) => add_probes(alloc, tree, setup, visit, tokens.as_slice(), parts),
        Directive::Elif(tokens) => add_probes(alloc, tree, setup, visit, tokens.as_slice(), parts),
        Directive::Line(_) => {
            parts.has_line = true;
            Ok(())
        }
        _ => Ok(()),
    }
}
