// Opening a file.
ghost use Rattle.std.specs.Prelude.{◌≡◌, ◌≤◌, ◌+◌, ◌++◌, ◌∷◌, [], suc, length, IfOk, IfErr, IfSome, OnOk, IsErrOf};
ghost use Rattle.std.specs.Option.{ForSome};
ghost use Rattle.base_types.specs.Causes.{HasCause};
ghost use Rattle.directive_scan.specs.Groups.{malformed_by, outline, role_of};
ghost use Rattle.pp_tokens.specs.Lines.{LexedFile};
ghost use Rattle.daemon_cpp.specs.Prep.{World, Here, world_of, and_then, say, run_outline, run_file, open_file};
ghost use Rattle.daemon_cpp.specs.parts.Reading.{front_events, work_after, run_body, malformed_told, run_flat, reading};
ghost use Rattle.daemon_cpp.specs.parts.FileTexts.{IsTextOf, IsJudged};
ghost use Rattle.daemon_cpp.specs.parts.KnownTexts.{IsReadAt, KnowsTexts};
ghost use Rattle.daemon_cpp.specs.parts.Showing.{Opens, BeginsFile, Goes, Refuses, TellsNothing};

use crate::diagnostic::Problem;
use crate::file_text::FileText;
use crate::kept::Kept;
use crate::lexed_files::LexedFiles;
use crate::stop::{Stop, refused};
use crate::tree::read_body;
use cpp_output::LayError;
use directive_scan::{Malformed, Pieces, nesting_told, one_outline};
use search_path::{Setup, Visit};
use std::alloc::{AllocError, Global};
use tree_model::{CanonPath, Located, Tree, shown};

/// Opens a file: its work is paid, its comments and conditionals are ended, and an included one has its marker.
pub fn open_file<T: Tree>(
    alloc: Global,
    tree: &mut T,
    kept: &mut Kept,
    lexed: &mut LexedFiles,
    setup: &Setup,
    source: &CanonPath,
    file: &(Visit, Located),
    included: bool,
) -> Result<Pieces, Stop>
    ensures same { T.told tree.new ≡ T.told tree.old }
    ensures opens { ForSome (T.told tree.old) (λ told. KnowsTexts (world_of told setup.now) lexed.old → Opens kept.old kept.new source.now (world_of told setup.now) file.now
        (λ entering state. open_file (world_of told setup.now) entering (front_events included file.now.0.place) file.now state) result) }
    ensures knows { ForSome (T.told tree.old) (λ told. KnowsTexts (world_of told setup.now) lexed.old → KnowsTexts (world_of told setup.now) lexed.new) }
    ensures shortens { IfOk result (λ pieces. length pieces + 1 + (kept.new.work.left + kept.new.work.left) ≤ kept.old.work.left + kept.old.work.left) }
    ensures cause { HasCause Stop.Fault (T.faults tree.old) (T.faults tree.new) result }
{
    let (visit, located) = file;
    note_opened(alloc, kept, &visit.place)?;
    match read_text(alloc, tree, lexed, setup, &located.real) {
        Ok(Some(text)) => open_paid(alloc, kept, source, &visit.place, included, text),
        Ok(None) => Err(refused(alloc, &visit.place, 0, Problem::TooLarge)),
        Err(stop) => Err(stop),
    }
}

// What the file at a path is read as; None where it has more than 16,777,216 bytes.
fn read_text<T: Tree>(
    alloc: Global,
    tree: &mut T,
    lexed: &mut LexedFiles,
    setup: &Setup,
    path: &CanonPath,
) -> Result<Option<FileText>, Stop>
    ensures same { T.told tree.new ≡ T.told tree.old }
    ensures text { ForSome (T.told tree.old) (λ told. KnowsTexts (world_of told setup.now) lexed.old → IfOk result (IsReadAt (world_of told setup.now) path.now)) }
    ensures knows { ForSome (T.told tree.old) (λ told. KnowsTexts (world_of told setup.now) lexed.old → KnowsTexts (world_of told setup.now) lexed.new) }
    ensures judged { IfOk result (λ found. IfSome found IsJudged) }
    ensures silent { IfErr result TellsNothing }
    ensures cause { HasCause Stop.Fault (T.faults tree.old) (T.faults tree.new) result }
{
    if let Some(text) = lexed.get(path)? {
        return Ok(Some(text));
    }
    match read_body(alloc, tree, path) {
        Ok(Some(body)) => {
            let text = lexed.read(alloc, path, body, setup.trigraphs())?;
            Ok(Some(text))
        }
        Ok(None) => Ok(None),
        Err(stop) => Err(stop),
    }
}

// Notes that the file at a place was opened.
fn note_opened(alloc: Global, kept: &mut Kept, place: &CanonPath) -> Result<(), AllocError>
    ensures { OnOk result (kept.new ≡ record kept.old { opened = kept.old.opened ++ place.now ∷ [] }) }
{
    kept.opened.push(place.copy(alloc)?)?;
    Ok(())
}

// The text of a file that was noted.
fn open_paid(
    alloc: Global,
    kept: &mut Kept,
    source: &CanonPath,
    place: &CanonPath,
    included: bool,
    text: FileText,
) -> Result<Pieces, Stop>
    requires { IsJudged text }
    ensures begins { (world : World) (file : Here) (lexed : LexedFile) → file.place ≡ place.now → IsTextOf lexed text → BeginsFile kept.old kept.new source.now file world
        (λ entering state. run_body world entering (front_events included place.now) lexed state) result }
    ensures shortens { IfOk result (λ pieces. length pieces + 1 + (kept.new.work.left + kept.new.work.left) ≤ kept.old.work.left + kept.old.work.left) }
    ensures no_fault { IsErrOf result Stop.Fault → ⊥ }
{
    match pay(text.tokens, kept.work.left) {
        Some(left) => {
            kept.work.left = left;
            open_text(alloc, kept, source, place, included, text)
        }
        None => Err(refused(alloc, source, 0, Problem::WorkLimit)),
    }
}

// The work left when a unit is paid, and one for each token; None where it isn't enough.
fn pay(tokens: u64, left: u64) -> Option<u64>
    ensures { result ≡ work_after (suc tokens) left }
{
    left.checked_sub(1)?.checked_sub(tokens)
}

// A file whose work is paid.
fn open_text(
    alloc: Global,
    kept: &mut Kept,
    source: &CanonPath,
    place: &CanonPath,
    included: bool,
    text: FileText,
) -> Result<Pieces, Stop>
    requires { text.malformed ≡ malformed_by (outline role_of text.pieces) }
    ensures begins { (world : World) (file : Here) (lexed : LexedFile) → file.place ≡ place.now → IsTextOf lexed text → BeginsFile kept.old kept.new source.now file world
        (λ entering state. run_file world entering (front_events included place.now) lexed lexed.unended state) result }
    ensures pieces { IfOk result (λ opened. opened ≡ text.pieces) }
    ensures work { kept.new.work ≡ kept.old.work }
    ensures no_fault { IsErrOf result Stop.Fault → ⊥ }
{
    if let Some(line) = text.open_comment {
        return Err(refused(alloc, place, line, Problem::OpenComment));
    }
    open_pieces(
        alloc,
        kept,
        source,
        place,
        included,
        text.pieces,
        text.malformed,
    )
}

// A file whose comments are ended.
fn open_pieces(
    alloc: Global,
    kept: &mut Kept,
    source: &CanonPath,
    place: &CanonPath,
    included: bool,
    pieces: Pieces,
    wrong: Option<Malformed>,
) -> Result<Pieces, Stop>
    requires { wrong ≡ malformed_by (outline role_of pieces) }
    ensures begins { (world : World) (file : Here) → file.place ≡ place.now → BeginsFile kept.old kept.new source.now file world
        (λ entering state. run_outline world entering (front_events included place.now) (outline role_of pieces) state) result }
    ensures pieces { IfOk result (λ opened. opened ≡ pieces) }
    ensures work { kept.new.work ≡ kept.old.work }
    ensures no_fault { IsErrOf result Stop.Fault → ⊥ }
{
    nesting_told();
    one_outline();
    match wrong {
        Some(what) => Err(malformed(alloc, place, what)),
        None => announced(alloc, kept, source, place, included, pieces),
    }
}

// What is wrong with a file's conditionals, as a diagnostic.
fn malformed(alloc: Global, place: &CanonPath, what: Malformed) -> Stop
    ensures { Refuses (malformed_told place.now what) result }
{
    match what {
        Malformed::WithoutIf { name, at } => refused(alloc, place, at, Problem::WithoutIf(name)),
        Malformed::AfterElse { name, at } => refused(alloc, place, at, Problem::AfterElse(name)),
        Malformed::Unended { at } => refused(alloc, place, at, Problem::Unended),
    }
}

// A file that is well formed, behind its marker where it is included.
fn announced(
    alloc: Global,
    kept: &mut Kept,
    source: &CanonPath,
    place: &CanonPath,
    included: bool,
    pieces: Pieces,
) -> Result<Pieces, Stop>
    ensures begins { (world : World) (file : Here) → BeginsFile kept.old kept.new source.now file world
        (λ entering state. and_then (λ after. run_flat world entering reading pieces after) (say (front_events included place.now) state)) result }
    ensures pieces { IfOk result (λ opened. opened ≡ pieces) }
    ensures work { kept.new.work ≡ kept.old.work }
    ensures no_fault { IsErrOf result Stop.Fault → ⊥ }
{
    match mark_front(alloc, kept, source, place, included) {
        Ok(()) => {
            kept.layout.make_room(pieces.text_bytes());
            Ok(pieces)
        }
        Err(stop) => Err(stop),
    }
}

// The marker of an included file.
fn mark_front(
    alloc: Global,
    kept: &mut Kept,
    source: &CanonPath,
    place: &CanonPath,
    included: bool,
) -> Result<(), Stop>
    ensures goes { (file : Here) → Goes kept.old kept.new source.now file (λ state. say (front_events included place.now) state) result }
    ensures work { kept.new.work ≡ kept.old.work }
    ensures no_fault { IsErrOf result Stop.Fault → ⊥ }
{
    if !included {
        return Ok(());
    }
    let name = shown(alloc, place.bytes())?;
    match kept.layout.enter(&name) {
        Ok(()) => Ok(()),
        Err(LayError::Full) => Err(refused(alloc, source, 0, Problem::TextLimit)),
        Err(LayError::Memory) => Err(Stop::Memory),
    }
}
