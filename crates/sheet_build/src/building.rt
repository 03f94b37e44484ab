// How sheets are built.
ghost use Rattle.std.specs.Prelude.{◌≡◌, ◌≤◌, ◌+◌, length, nat_le, true, IfOk, IfSome, IsErrOf};
ghost use Rattle.std.specs.Option.{ForSome, option_map};
ghost use Rattle.std.specs.List.{filter_map};
ghost use Rattle.base_types.specs.Causes.{HasCause};
ghost use Rattle.pp_tokens.specs.Lines.{lexed};
ghost use Rattle.directive_scan.specs.Directives as scanning;
ghost use Rattle.tree_model.specs.Bodies.{body_at_path, body_within};
ghost use Rattle.base_types.specs.Limits.{body_limit};
ghost use Rattle.search_path.specs.Search.{search};
ghost use Rattle.sheet_build.specs.Sheet.{sheet_of, sheet_from, body_of_place, definition_in, IsLargeAt};
ghost use Rattle.sheet_build.specs.parts.Stored.{sheet_with, sheet_of_parts, asked_from};

use crate::directives::add_piece;
use crate::file_body::FileBody;
use crate::sheets::Sheet;
use crate::unweighed::{Parts, Unweighed};
use base_types::Bytes;
use directive_scan::{Pieces, directives_stand_alone};
use pp_tokens::{lex_asking, lex_directives};
use search_path::{Setup, Visit};
use std::alloc::Global;
use tree_model::{CanonPath, Tree, TreeError, locate, read_body};

/// The sheet of a visit: its place is located from the root, and the file's directives are read. Where its place isn't a file
/// the sheet is empty. `Large` comes just where the file has more than 16,777,216 bytes. The file is read at most once.
pub fn sheet<T: Tree>(
    alloc: Global,
    tree: &mut T,
    setup: &Setup,
    visit: &Visit,
) -> Result<Sheet, TreeError>
    ensures same { T.told tree.new ≡ T.told tree.old }
    ensures sheet { ForSome (T.told tree.old) (λ told. IfOk result (λ sheet. sheet ≡ sheet_of told setup.now visit.now)) }
    ensures large { ForSome (T.told tree.old) (λ told. IsErrOf result TreeError.Large → IsLargeAt told visit.now) }
    ensures small { ForSome (T.told tree.old) (λ told. IfOk result (λ _sheet. nat_le (length (body_of_place told visit.now.place)) body_limit ≡ true)) }
    ensures cause { HasCause TreeError.Fault (T.faults tree.old) (T.faults tree.new) result }
    ensures one_read { T.reads tree.new ≤ T.reads tree.old + 1 }
{
    let file = scan_file(alloc, tree, setup, visit)?;
    Ok(Sheet::new(alloc, file.pieces, file.parts, file.bytes)?)
}

/// A sheet as an analysis needs it, with the file that was read for it, where the visit's place leads to one: the file's path,
/// behind all links, and its bytes.
#[derive(Drop)]
pub struct FoundSheet {
    pub sheet: Unweighed,
    pub file: Option<(CanonPath, FileBody)>,
}

/// The sheet of a visit, as `sheet` gives it, without what it weighs. Of the file only what may ask for another is lexed.
pub fn unweighed_sheet<T: Tree>(
    alloc: Global,
    tree: &mut T,
    setup: &Setup,
    visit: &Visit,
) -> Result<FoundSheet, TreeError>
    ensures same { T.told tree.new ≡ T.told tree.old }
    ensures sheet { ForSome (T.told tree.old) (λ told. IfOk result (λ found. found.sheet ≡ sheet_of told setup.now visit.now)) }
    ensures file { ForSome (T.told tree.old) (λ told. IfOk result (λ found. IfSome found.file (λ file. file.1 ≡ body_at_path told file.0))) }
    ensures within { IfOk result (λ found. IfSome found.file (λ file. length file.1 ≤ body_limit)) }
    ensures large { ForSome (T.told tree.old) (λ told. IsErrOf result TreeError.Large → IsLargeAt told visit.now) }
    ensures small { ForSome (T.told tree.old) (λ told. IfOk result (λ _found. nat_le (length (body_of_place told visit.now.place)) body_limit ≡ true)) }
    ensures cause { HasCause TreeError.Fault (T.faults tree.old) (T.faults tree.new) result }
    ensures one_read { T.reads tree.new ≤ T.reads tree.old + 1 }
{
    let Some(file) = file_at(alloc, tree, &visit.place)? else {
        return Err(TreeError::Large);
    };
    let body = FileBody::of(alloc, file.body)?;
    let parts = parts_of_body(alloc, tree, setup, visit, body.as_slice())?;
    let sheet = Unweighed::unlexed(alloc, body.share()?, setup.trigraphs(), parts)?;
    Ok(FoundSheet {
        sheet,
        file: at_path(file.real, body),
    })
}

// The bytes of a file with its path, where it is one.
fn at_path(real: Option<CanonPath>, body: FileBody) -> Option<(CanonPath, FileBody)>
    ensures { result ≡ option_map (λ path. (path, body)) real }
{
    match real {
        Some(path) => Some((path, body)),
        None => None,
    }
}

// A file as a sheet is made of it: its pieces, what its sheet has but for its definitions, and how many bytes it has.
#[derive(Drop)]
struct Scanned {
    pieces: Pieces,
    parts: Parts,
    bytes: usize,
}

// Reads the file of a visit.
fn scan_file<T: Tree>(
    alloc: Global,
    tree: &mut T,
    setup: &Setup,
    visit: &Visit,
) -> Result<Scanned, TreeError>
    ensures same { T.told tree.new ≡ T.told tree.old }
    ensures file { ForSome (T.told tree.old) (λ told. IfOk result (λ file. sheet_with (filter_map definition_in file.pieces) file.parts ≡ sheet_of told setup.now visit.now)) }
    ensures large { ForSome (T.told tree.old) (λ told. IsErrOf result TreeError.Large → IsLargeAt told visit.now) }
    ensures small { ForSome (T.told tree.old) (λ told. IfOk result (λ _sheet. nat_le (length (body_of_place told visit.now.place)) body_limit ≡ true)) }
    ensures cause { HasCause TreeError.Fault (T.faults tree.old) (T.faults tree.new) result }
    ensures one_read { T.reads tree.new ≤ T.reads tree.old + 1 }
{
    let Some(file) = file_at(alloc, tree, &visit.place)? else {
        return Err(TreeError::Large);
    };
    scan_body(alloc, tree, setup, visit, file.body)
}

// A file that was read: its path behind all links, where one was found, and its bytes.
#[derive(Drop)]
struct ReadFile {
    real: Option<CanonPath>,
    body: Bytes,
}

// The file that a place leads to, without bytes where there is none; None where they are too many.
fn file_at<T: Tree>(
    alloc: Global,
    tree: &mut T,
    place: &CanonPath,
) -> Result<Option<ReadFile>, TreeError>
    ensures same { T.told tree.new ≡ T.told tree.old }
    ensures body { ForSome (T.told tree.old) (λ told. IfOk result (λ file. option_map (λ f. f.body) file ≡ body_within (body_of_place told place.now))) }
    ensures real { ForSome (T.told tree.old) (λ told. IfOk result (λ file. IfSome file (λ f. IfSome f.real (λ path. f.body ≡ body_at_path told path)))) }
    ensures within { IfOk result (λ file. IfSome file (λ f. length f.body ≤ body_limit)) }
    ensures never_large { IsErrOf result TreeError.Large → ⊥ }
    ensures cause { HasCause TreeError.Fault (T.faults tree.old) (T.faults tree.new) result }
    ensures one_read { T.reads tree.new ≤ T.reads tree.old + 1 }
{
    let root = CanonPath::root(alloc)?;
    let Some(located) = locate(alloc, tree, &root, place.bytes())? else {
        return Ok(Some(ReadFile {
            real: None,
            body: Bytes::new(alloc),
        }));
    };
    let Some(body) = read_body(alloc, tree, &located.real)? else {
        return Ok(None);
    };
    Ok(Some(ReadFile {
        real: Some(located.real),
        body,
    }))
}

// A file with these bytes.
fn scan_body<T: Tree>(
    alloc: Global,
    tree: &mut T,
    setup: &Setup,
    visit: &Visit,
    body: Bytes,
) -> Result<Scanned, TreeError>
    requires { length body ≤ body_limit }
    ensures same { T.told tree.new ≡ T.told tree.old }
    ensures file { ForSome (T.told tree.old) (λ told. IfOk result (λ file. sheet_with (filter_map definition_in file.pieces) file.parts ≡ sheet_from (search told setup.now) visit.now (scanning.pieces (lexed setup.now.trigraphs body).lines))) }
    ensures cause { HasCause TreeError.Fault (T.faults tree.old) (T.faults tree.new) result }
    ensures never_large { IsErrOf result TreeError.Large → ⊥ }
    ensures no_read { T.reads tree.new ≡ T.reads tree.old }
{
    directives_stand_alone();
    let bytes = body.len();
    let lexed = lex_directives(alloc, body.into_vec()?, setup.trigraphs())?;
    let pieces = Pieces::of(alloc, lexed)?;
    let parts = parts_of_pieces(alloc, tree, setup, visit, &pieces)?;
    Ok(Scanned {
        pieces,
        parts,
        bytes,
    })
}

// What the sheet of a file with these bytes has but for its definitions.
fn parts_of_body<T: Tree>(
    alloc: Global,
    tree: &mut T,
    setup: &Setup,
    visit: &Visit,
    body: &[u8],
) -> Result<Parts, TreeError>
    requires { length body.now ≤ body_limit }
    ensures same { T.told tree.new ≡ T.told tree.old }
    ensures parts { ForSome (T.told tree.old) (λ told. IfOk result (λ parts. sheet_of_parts parts ≡ asked_from (search told setup.now) visit.now (scanning.pieces (lexed setup.now.trigraphs body.now).lines))) }
    ensures cause { HasCause TreeError.Fault (T.faults tree.old) (T.faults tree.new) result }
    ensures never_large { IsErrOf result TreeError.Large → ⊥ }
    ensures no_read { T.reads tree.new ≡ T.reads tree.old }
{
    let text = body.to_vec(alloc)?;
    let lexed = lex_asking(alloc, text, setup.trigraphs())?;
    let pieces = Pieces::of(alloc, lexed)?;
    parts_of_pieces(alloc, tree, setup, visit, &pieces)
}

// What the sheet of a file with these pieces has but for its definitions.
fn parts_of_pieces<T: Tree>(
    alloc: Global,
    tree: &mut T,
    setup: &Setup,
    visit: &Visit,
    pieces: &Pieces,
) -> Result<Parts, TreeError>
    ensures same { T.told tree.new ≡ T.told tree.old }
    ensures parts { ForSome (T.told tree.old) (λ told. IfOk result (λ parts. sheet_of_parts parts ≡ asked_from (search told setup.now) visit.now pieces.now)) }
    ensures cause { HasCause TreeError.Fault (T.faults tree.old) (T.faults tree.new) result }
    ensures never_large { IsErrOf result TreeError.Large → ⊥ }
    ensures no_read { T.reads tree.new ≡ T.reads tree.old }
{
    let mut parts = Parts::new(alloc);
    for number in 0..pieces.len() {
        add_piece(alloc, tree, setup, visit, pieces.piece(number), &mut parts)?;
    }
    Ok(parts)
}
