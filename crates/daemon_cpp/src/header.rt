// The files that directives ask for (ISO C 6.10.2).
ghost use Rattle.std.specs.Prelude.{◌≡◌, ◌≤◌, false, Some, IfOk, IsErrOf};
ghost use Rattle.std.specs.List.{list_any};
ghost use Rattle.std.specs.Option.{ForSome};
ghost use Rattle.base_types.specs.Causes.{HasCause};
ghost use Rattle.directive_scan.specs.HeaderNames.{header_named};
ghost use Rattle.macro_expand.specs.declared.Mode.TheVariants.{Text};
ghost use Rattle.tree_model.specs.Paths.{is_same_path};
ghost use Rattle.search_path.specs.Asks.{forced_ask};
ghost use Rattle.daemon_cpp.specs.Prep.{World, Gives, reach, expand_line, world_of, header_reached, include, include_named, found_file};
ghost use Rattle.daemon_cpp.specs.parts.Showing.{Leads, Includes, here_seen, entered_unless};

use crate::diagnostic::Problem;
use crate::kept::{Kept, Places};
use crate::stop::{Stop, refused};
use crate::text::expand_line;
use crate::tree::find_file;
use base_types::Bytes;
use directive_scan::{HeaderName, Target, header_of};
use macro_expand::Mode;
use pp_tokens::Token;
use search_path::{Visit, forced_ask, header_ask};
use std::alloc::{AllocError, Global};
use tree_model::{Located, Tree};

/// The header name that an include or an operand gives, as written or as expanded; None where it gives none.
pub fn header_reached(
    alloc: Global,
    kept: &mut Kept,
    places: Places<'_>,
    at: u32,
    target: &Target,
) -> Result<Option<HeaderName>, Stop>
    ensures leads { Leads kept.old kept.new places.entry.source.now (here_seen places.entry) (λ state. header_reached at target.now state) result }
    ensures spends { kept.new.work.left ≤ kept.old.work.left }
    ensures no_fault { IsErrOf result Stop.Fault → ⊥ }
{
    match target {
        Target::Plain(header) => Ok(Some(copy_of(alloc, header)?)),
        Target::Computed(tokens) => computed(alloc, kept, places, at, tokens.as_slice()),
    }
}

// A copy of a header name.
fn copy_of(alloc: Global, header: &HeaderName) -> Result<HeaderName, AllocError>
    ensures { IfOk result (λ copy. copy ≡ header.now) }
{
    Ok(HeaderName {
        angle: header.angle,
        name: Bytes::copy_of(alloc, header.name.as_slice())?,
    })
}

// The header name of tokens that are expanded (paragraph 4).
fn computed(
    alloc: Global,
    kept: &mut Kept,
    places: Places<'_>,
    at: u32,
    tokens: &[Token],
) -> Result<Option<HeaderName>, Stop>
    ensures leads { Leads kept.old kept.new places.entry.source.now (here_seen places.entry)
        (λ state. reach (λ ts after. Gives (header_named ts) after) (expand_line at Text tokens.now state)) result }
    ensures spends { kept.new.work.left ≤ kept.old.work.left }
    ensures no_fault { IsErrOf result Stop.Fault → ⊥ }
{
    match expand_line(alloc, kept, places, at, Mode::Text, tokens) {
        Ok(expanded) => Ok(header_of(alloc, expanded.as_slice())?),
        Err(stop) => Err(stop),
    }
}

/// An include, or an include_next, on a line: the file that is entered, or None where it is read once and was read.
pub fn include<T: Tree>(
    alloc: Global,
    tree: &mut T,
    kept: &mut Kept,
    places: Places<'_>,
    next: bool,
    at: u32,
    target: &Target,
) -> Result<Option<(Visit, Located)>, Stop>
    ensures same { T.told tree.new ≡ T.told tree.old }
    ensures includes { ForSome (T.told tree.old) (λ told. Includes kept.old kept.new places.entry.source.now (here_seen places.entry) at
        (λ entering state. include (world_of told places.entry.setup.now) entering next at target.now state) result) }
    ensures spends { kept.new.work.left ≤ kept.old.work.left }
    ensures cause { HasCause Stop.Fault (T.faults tree.old) (T.faults tree.new) result }
{
    match header_reached(alloc, kept, places, at, target) {
        Ok(header) => include_named(alloc, tree, kept, places, next, at, header),
        Err(stop) => Err(stop),
    }
}

// An include of a header name, where the directive gives one.
fn include_named<T: Tree>(
    alloc: Global,
    tree: &mut T,
    kept: &Kept,
    places: Places<'_>,
    next: bool,
    at: u32,
    header: Option<HeaderName>,
) -> Result<Option<(Visit, Located)>, Stop>
    ensures same { T.told tree.new ≡ T.told tree.old }
    ensures includes { ForSome (T.told tree.old) (λ told. Includes kept.now kept.now places.entry.source.now (here_seen places.entry) at
        (λ entering state. include_named (world_of told places.entry.setup.now) entering next at header state) result) }
    ensures cause { HasCause Stop.Fault (T.faults tree.old) (T.faults tree.new) result }
{
    match header {
        Some(header) => include_header(alloc, tree, kept, places, next, at, &header),
        None => {
            let place = &places.visit.place;
            Err(refused(alloc, place, at, Problem::NoHeaderName))
        }
    }
}

// An include of a header name.
fn include_header<T: Tree>(
    alloc: Global,
    tree: &mut T,
    kept: &Kept,
    places: Places<'_>,
    next: bool,
    at: u32,
    header: &HeaderName,
) -> Result<Option<(Visit, Located)>, Stop>
    ensures same { T.told tree.new ≡ T.told tree.old }
    ensures includes { ForSome (T.told tree.old) (λ told. Includes kept.now kept.now places.entry.source.now (here_seen places.entry) at
        (λ entering state. include_named (world_of told places.entry.setup.now) entering next at (Some header.now) state) result) }
    ensures cause { HasCause Stop.Fault (T.faults tree.old) (T.faults tree.new) result }
{
    let name = header.name.as_slice();
    let ask = header_ask(alloc, places.visit, next, header.angle, name)?;
    match find_file(alloc, tree, places.setup, ask) {
        Ok(found) => found_file(alloc, kept, places, at, header.angle, name, found),
        Err(stop) => Err(stop),
    }
}

/// A file of the job's words, as by an include on line 0 of the source: the same of a name in quotes that is searched
/// as a forced one.
pub fn forced<T: Tree>(
    alloc: Global,
    tree: &mut T,
    kept: &mut Kept,
    places: Places<'_>,
    name: &[u8],
) -> Result<Option<(Visit, Located)>, Stop>
    ensures same { T.told tree.new ≡ T.told tree.old }
    ensures includes { ForSome (T.told tree.old) (λ told. Includes kept.old kept.new places.entry.source.now (here_seen places.entry) 0
        (λ entering state. found_file (world_of told places.entry.setup.now) entering 0 false name.now state ((world_of told places.entry.setup.now).find (forced_ask name.now))) result) }
    ensures spends { kept.new.work.left ≤ kept.old.work.left }
    ensures cause { HasCause Stop.Fault (T.faults tree.old) (T.faults tree.new) result }
{
    let ask = forced_ask(alloc, name)?;
    match find_file(alloc, tree, places.setup, ask) {
        Ok(found) => found_file(alloc, kept, places, 0, false, name, found),
        Err(stop) => Err(stop),
    }
}

// The file of a name that was searched: none is a diagnostic.
fn found_file(
    alloc: Global,
    kept: &Kept,
    places: Places<'_>,
    at: u32,
    angle: bool,
    name: &[u8],
    found: Option<(Visit, Located)>,
) -> Result<Option<(Visit, Located)>, Stop>
    ensures includes { (world : World) → Includes kept.now kept.now places.entry.source.now (here_seen places.entry) at
        (λ entering state. found_file world entering at angle name.now state found) result }
    ensures no_fault { IsErrOf result Stop.Fault → ⊥ }
{
    match found {
        Some(hit) => Ok(unless_marked(kept, hit)),
        None => {
            let problem = Problem::NotFound(angle, name);
            Err(refused(alloc, &places.visit.place, at, problem))
        }
    }
}

// A file that was found, unless it is read once and was read.
fn unless_marked(kept: &Kept, hit: (Visit, Located)) -> Option<(Visit, Located)>
    ensures { result ≡ entered_unless (list_any (is_same_path hit.1.real) kept.now.once) hit }
{
    if kept.once.contains(&hit.1.real) {
        return None;
    }
    Some(hit)
}
