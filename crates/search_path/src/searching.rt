// The search for a source, a forced file or an included file (`candidates` and `search` in specs/Search.antt; the places are
// those of GNU cpp, "Search Path" and "Wrapper Headers").
//
// The candidates of a form of asking are tried in order, and the first that locates a file ends the search. Each costs a walk from its
// directory; the texts of the chain's directories share one buffer.
ghost use Rattle.std.specs.Prelude.{◌≡◌, ◌<◌, ◌+◌, ◌++◌, ◌∷◌, [], length, get_or, None, IfOk, IfSome, OnOk, IsErrOf, List};
ghost use Rattle.std.specs.Option.{ForSome};
ghost use Rattle.base_types.specs.Causes.{HasCause};
ghost use Rattle.base_types.specs.Ascii.{slash};
ghost use Rattle.tree_model.specs.Paths.{Text};
ghost use Rattle.tree_model.specs.Walk as walks;
ghost use Rattle.search_path.specs.SetupOf as setups;
ghost use Rattle.search_path.specs.SetupOf.{SetupData};
ghost use Rattle.search_path.specs.Search as searches;
ghost use Rattle.search_path.specs.Search.{NeedsFrom, Candidate, first_located, chain_from, quote_candidates, angle_candidates, next_candidates, relative_candidates};
ghost use Rattle.search_path.specs.parts.Steps.{resumed};

use crate::{Ask, Form, Found, Setup, Visit};
use std::alloc::{AllocError, Global};
use tree_model::{CanonPath, Located, Tree, TreeError, locate};

// Room for the texts of most candidates.
const TEXT_ROOM: usize = 256;

fn is_absolute(text: &[u8]) -> bool
    ensures { result ≡ walks.is_absolute text.now }
{
    match text {
        [first, ..] => *first == b'/',
        [] => false,
    }
}

// Adds a text at the end, below the working directory where it doesn't begin with `/`.
fn add_absolute(whole: &mut Vec<u8>, cwd: &[u8], text: &[u8]) -> Result<(), AllocError>
    ensures { OnOk result (whole.new.items ≡ whole.old.items ++ setups.absolute cwd.now text.now) }
{
    if !is_absolute(text) {
        whole.extend_from_slice(cwd)?;
        whole.push(b'/')?;
    }
    whole.extend_from_slice(text)
}

// Puts the text of a name in a directory of the chain into `text`.
fn put_name(
    text: &mut Vec<u8>,
    setup: &Setup,
    directory: &[u8],
    name: &[u8],
) -> Result<(), AllocError>
    ensures { OnOk result (text.new.items ≡ setups.absolute setup.now.cwd directory.now ++ slash ∷ name.now) }
{
    text.clear();
    add_absolute(text, setup.cwd(), directory)?;
    text.push(b'/')?;
    text.extend_from_slice(name)
}

// The chain's directory of a number.
fn directory_at(setup: &Setup, number: usize) -> &[u8]
    requires { number < length setup.now.quote + length setup.now.bracket }
    ensures { result.now ≡ get_or (setup.now.quote ++ setup.now.bracket) number result.now }
{
    let quote = setup.quote();
    if number < quote.len() {
        quote[number].as_slice()
    } else {
        setup.bracket()[number - quote.len()].as_slice()
    }
}

// The file of a candidate.
fn locate_candidate<T: Tree>(
    alloc: Global,
    tree: &mut T,
    found: Found,
    dir: &CanonPath,
    text: &[u8],
) -> Result<Option<(Visit, Located)>, TreeError>
    ensures same { T.told tree.new ≡ T.told tree.old }
    ensures found { ForSome (T.told tree.old) (λ told. IfOk result (λ hit. hit ≡ searches.hit_or found (walks.locate told dir.now text.now) None)) }
    ensures cause { HasCause TreeError.Fault (T.faults tree.old) (T.faults tree.new) result }
    ensures never_large { IsErrOf result TreeError.Large → ⊥ }
    ensures no_read { T.reads tree.new ≡ T.reads tree.old }
{
    match locate(alloc, tree, dir, text)? {
        None => Ok(None),
        Some(located) => {
            let place = located.place.copy(alloc)?;
            Ok(Some((Visit { place, found }, located)))
        }
    }
}

// The file of a text that is located from the root.
fn locate_from_root<T: Tree>(
    alloc: Global,
    tree: &mut T,
    found: Found,
    text: &[u8],
) -> Result<Option<(Visit, Located)>, TreeError>
    ensures same { T.told tree.new ≡ T.told tree.old }
    ensures found { ForSome (T.told tree.old) (λ told. IfOk result (λ hit. hit ≡ first_located told (searches.from_root found text.now ∷ []))) }
    ensures cause { HasCause TreeError.Fault (T.faults tree.old) (T.faults tree.new) result }
    ensures never_large { IsErrOf result TreeError.Large → ⊥ }
    ensures no_read { T.reads tree.new ≡ T.reads tree.old }
{
    let root = CanonPath::root(alloc)?;
    locate_candidate(alloc, tree, found, &root, text)
}

// The file of a name below the working directory.
fn locate_in_cwd<T: Tree>(
    alloc: Global,
    tree: &mut T,
    setup: &Setup,
    found: Found,
    name: &[u8],
) -> Result<Option<(Visit, Located)>, TreeError>
    ensures same { T.told tree.new ≡ T.told tree.old }
    ensures found { ForSome (T.told tree.old) (λ told. IfOk result (λ hit. hit ≡ first_located told (searches.from_root found (setups.absolute setup.now.cwd name.now) ∷ []))) }
    ensures cause { HasCause TreeError.Fault (T.faults tree.old) (T.faults tree.new) result }
    ensures never_large { IsErrOf result TreeError.Large → ⊥ }
    ensures no_read { T.reads tree.new ≡ T.reads tree.old }
{
    let mut text = Vec::new(alloc);
    add_absolute(&mut text, setup.cwd(), name)?;
    locate_from_root(alloc, tree, found, text.as_slice())
}

// The first file of a name in the chain's directories from one on. The texts share one buffer.
fn search_chain<T: Tree>(
    alloc: Global,
    tree: &mut T,
    setup: &Setup,
    first: usize,
    name: &[u8],
) -> Result<Option<(Visit, Located)>, TreeError>
    ensures same { T.told tree.new ≡ T.told tree.old }
    ensures found { ForSome (T.told tree.old) (λ told. IfOk result (λ hit. hit ≡ first_located told (chain_from setup.now first name.now))) }
    ensures cause { HasCause TreeError.Fault (T.faults tree.old) (T.faults tree.new) result }
    ensures never_large { IsErrOf result TreeError.Large → ⊥ }
    ensures no_read { T.reads tree.new ≡ T.reads tree.old }
{
    let root = CanonPath::root(alloc)?;
    let mut text = Vec::with_capacity(alloc, TEXT_ROOM)?;
    for number in first..setup.quote().len() + setup.bracket().len() {
        put_name(&mut text, setup, directory_at(setup, number), name)?;
        let found = Found::Chain(number as u32);
        if let Some(hit) = locate_candidate(alloc, tree, found, &root, text.as_slice())? {
            return Ok(Some(hit));
        }
    }
    Ok(None)
}

// The search for a forced file.
fn search_forced<T: Tree>(
    alloc: Global,
    tree: &mut T,
    setup: &Setup,
    name: &[u8],
) -> Result<Option<(Visit, Located)>, TreeError>
    ensures same { T.told tree.new ≡ T.told tree.old }
    ensures found { ForSome (T.told tree.old) (λ told. IfOk result (λ hit. hit ≡ first_located told (relative_candidates setup.now Form.Forced None name.now))) }
    ensures cause { HasCause TreeError.Fault (T.faults tree.old) (T.faults tree.new) result }
    ensures never_large { IsErrOf result TreeError.Large → ⊥ }
    ensures no_read { T.reads tree.new ≡ T.reads tree.old }
{
    match locate_in_cwd(alloc, tree, setup, Found::Here, name)? {
        Some(hit) => Ok(Some(hit)),
        None => search_chain(alloc, tree, setup, 0, name),
    }
}

// The search for a quoted name: beside the file that asks, and then in the chain.
fn search_quote<T: Tree>(
    alloc: Global,
    tree: &mut T,
    setup: &Setup,
    from: &Visit,
    name: &[u8],
) -> Result<Option<(Visit, Located)>, TreeError>
    ensures same { T.told tree.new ≡ T.told tree.old }
    ensures found { ForSome (T.told tree.old) (λ told. IfOk result (λ hit. hit ≡ first_located told (quote_candidates setup.now from.now name.now))) }
    ensures cause { HasCause TreeError.Fault (T.faults tree.old) (T.faults tree.new) result }
    ensures never_large { IsErrOf result TreeError.Large → ⊥ }
    ensures no_read { T.reads tree.new ≡ T.reads tree.old }
{
    let dir = from.place.parent(alloc)?;
    match locate_candidate(alloc, tree, Found::Here, &dir, name)? {
        Some(hit) => Ok(Some(hit)),
        None => search_chain(alloc, tree, setup, 0, name),
    }
}

// The search for a name in angles: in the directories of all names.
fn search_angle<T: Tree>(
    alloc: Global,
    tree: &mut T,
    setup: &Setup,
    name: &[u8],
) -> Result<Option<(Visit, Located)>, TreeError>
    ensures same { T.told tree.new ≡ T.told tree.old }
    ensures found { ForSome (T.told tree.old) (λ told. IfOk result (λ hit. hit ≡ first_located told (angle_candidates setup.now name.now))) }
    ensures cause { HasCause TreeError.Fault (T.faults tree.old) (T.faults tree.new) result }
    ensures never_large { IsErrOf result TreeError.Large → ⊥ }
    ensures no_read { T.reads tree.new ≡ T.reads tree.old }
{
    search_chain(alloc, tree, setup, setup.quote().len(), name)
}

// The chain's directory where `#include_next` goes on; None where it searches as `#include` does.
fn next_directory(found: Found) -> Option<usize>
    ensures { (setup : SetupData) (name : Text) (whole : List Candidate) → resumed setup name whole result ≡ next_candidates setup found name whole }
{
    match found {
        Found::Primary | Found::Absolute => None,
        Found::Here => Some(0),
        Found::Chain(number) => Some(number as usize + 1),
    }
}

// The search of `#include_next` for a quoted name.
fn search_next_quote<T: Tree>(
    alloc: Global,
    tree: &mut T,
    setup: &Setup,
    from: &Visit,
    name: &[u8],
) -> Result<Option<(Visit, Located)>, TreeError>
    ensures same { T.told tree.new ≡ T.told tree.old }
    ensures found { ForSome (T.told tree.old) (λ told. IfOk result (λ hit. hit ≡ first_located told (next_candidates setup.now from.now.found name.now (quote_candidates setup.now from.now name.now)))) }
    ensures cause { HasCause TreeError.Fault (T.faults tree.old) (T.faults tree.new) result }
    ensures never_large { IsErrOf result TreeError.Large → ⊥ }
    ensures no_read { T.reads tree.new ≡ T.reads tree.old }
{
    match next_directory(from.found) {
        None => search_quote(alloc, tree, setup, from, name),
        Some(first) => search_chain(alloc, tree, setup, first, name),
    }
}

// The search of `#include_next` for a name in angles.
fn search_next_angle<T: Tree>(
    alloc: Global,
    tree: &mut T,
    setup: &Setup,
    from: &Visit,
    name: &[u8],
) -> Result<Option<(Visit, Located)>, TreeError>
    ensures same { T.told tree.new ≡ T.told tree.old }
    ensures found { ForSome (T.told tree.old) (λ told. IfOk result (λ hit. hit ≡ first_located told (next_candidates setup.now from.now.found name.now (angle_candidates setup.now name.now)))) }
    ensures cause { HasCause TreeError.Fault (T.faults tree.old) (T.faults tree.new) result }
    ensures never_large { IsErrOf result TreeError.Large → ⊥ }
    ensures no_read { T.reads tree.new ≡ T.reads tree.old }
{
    match next_directory(from.found) {
        None => search_angle(alloc, tree, setup, name),
        Some(first) => search_chain(alloc, tree, setup, first, name),
    }
}

// How a name that begins with `/` is found.
fn found_absolute(form: Form) -> Found
    ensures { result ≡ searches.found_absolute form }
{
    match form {
        Form::Source => Found::Primary,
        _ => Found::Absolute,
    }
}

// The search for a name that doesn't begin with `/`.
fn search_relative<T: Tree>(
    alloc: Global,
    tree: &mut T,
    setup: &Setup,
    ask: &Ask,
) -> Result<Option<(Visit, Located)>, TreeError>
    ensures same { T.told tree.new ≡ T.told tree.old }
    ensures found { ForSome (T.told tree.old) (λ told. IfOk result (λ hit. hit ≡ first_located told (relative_candidates setup.now ask.now.form ask.now.from ask.now.name))) }
    ensures cause { HasCause TreeError.Fault (T.faults tree.old) (T.faults tree.new) result }
    ensures never_large { IsErrOf result TreeError.Large → ⊥ }
    ensures no_read { T.reads tree.new ≡ T.reads tree.old }
{
    let name = ask.name.as_slice();
    match ask.form {
        Form::Source => locate_in_cwd(alloc, tree, setup, Found::Primary, name),
        Form::Forced => search_forced(alloc, tree, setup, name),
        Form::Angle => search_angle(alloc, tree, setup, name),
        Form::Quote => match &ask.from {
            Some(from) => search_quote(alloc, tree, setup, from, name),
            None => Ok(None),
        },
        Form::NextQuote => match &ask.from {
            Some(from) => search_next_quote(alloc, tree, setup, from, name),
            None => Ok(None),
        },
        Form::NextAngle => match &ask.from {
            Some(from) => search_next_angle(alloc, tree, setup, from, name),
            None => Ok(None),
        },
    }
}

/// The first candidate of an ask that locates a file, with how it was found and located; None exactly where no
/// candidate locates one. `Fault` comes only where the tree failed in this call, and `Large` never. No candidate
/// behind the first that locates a file is looked at.
pub fn search<T: Tree>(
    alloc: Global,
    tree: &mut T,
    setup: &Setup,
    ask: &Ask,
) -> Result<Option<(Visit, Located)>, TreeError>
    requires { NeedsFrom ask.now.form ask.now.from }
    ensures same { T.told tree.new ≡ T.told tree.old }
    ensures found { IfOk result (λ found. IfSome (T.told tree.old) (λ told. found ≡ searches.search told setup.now ask.now)) }
    ensures cause { HasCause TreeError.Fault (T.faults tree.old) (T.faults tree.new) result }
    ensures never_large { IsErrOf result TreeError.Large → ⊥ }
    ensures no_read { T.reads tree.new ≡ T.reads tree.old }
{
    let name = ask.name.as_slice();
    if is_absolute(name) {
        locate_from_root(alloc, tree, found_absolute(ask.form), name)
    } else {
        search_relative(alloc, tree, setup, ask)
    }
}
