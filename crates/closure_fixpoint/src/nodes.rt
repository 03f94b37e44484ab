// The paths of a job's nodes.
ghost use Rattle.std.specs.Prelude.{◌≡◌, ◌++◌, ◌∷◌, [], ◌↔◌, IfOk, OnOk, All, IsTrue};
ghost use Rattle.std.specs.Ordering.{nat_cmp};
ghost use Rattle.std.specs.Cmp.Lexicographic.{slice_cmp};
ghost use Rattle.base_types.specs.Members.{Member};
ghost use Rattle.tree_model.specs.Paths.{Path, IsCanonical, spelled};
ghost use Rattle.closure_fixpoint.specs.Gathering as gathering;
ghost use Rattle.closure_fixpoint.specs.Progress.{located_told};
ghost use Rattle.closure_fixpoint.specs.Targets.{heard_of};
ghost use Rattle.closure_fixpoint.specs.Told.{AreNodesOf};
ghost use Rattle.closure_fixpoint.specs.parts.Walked.{with_paths, upward_from, all_upward_from};
ghost use Rattle.closure_fixpoint.specs.Gathering.{upward, found_walked, searched_walked, hits_walked, sheets_walked, unless_repeated, are_rising};

use crate::searches::Searches;
use crate::walked::Walked;
use search_path::Visit;
use sheet_build::Unweighed;
use std::alloc::{AllocError, Global};
use std::cmp::Ordering;
use tree_model::{CanonPath, Located, Nodes, spellings_are_apart};

// The nodes of all files that searches found, and of those that sheets have, without the root, each once, in order of their
// spellings' bytes.
pub fn nodes_told(
    alloc: Global,
    searches: &Searches,
    sheets: &[(Visit, Unweighed)],
) -> Result<Vec<CanonPath>, AllocError>
    ensures are { IfOk result (λ nodes. AreNodesOf (located_told (heard_of searches.now sheets.now)) nodes.items) }
    ensures rising { IfOk result (λ nodes. IsTrue (are_rising nodes.items)) }
    ensures canonical { IfOk result (λ nodes. All IsCanonical nodes.items) }
{
    // Most nodes were walked for many files, so what is above them is added once they stand once.
    let mut walked = Walked::new(alloc);
    add_searched(alloc, searches, &mut walked)?;
    add_sheets(alloc, sheets, &mut walked)?;
    let mut nodes = Vec::with_capacity(alloc, walked.len())?;
    add_all_upward(alloc, &walked, &mut nodes)?;
    sorted(alloc, nodes)
}

// Paths, each once, in order of their spellings' bytes. Those of an analysis stand so already.
pub fn in_order(alloc: Global, paths: &[CanonPath]) -> Result<Vec<CanonPath>, AllocError>
    ensures rising { IfOk result (λ nodes. IsTrue (are_rising nodes.items)) }
    ensures same { IfOk result (λ nodes. (path : Path) → Member path nodes.items ↔ Member path paths.now) }
    ensures canonical { IfOk result (λ nodes. All IsCanonical nodes.items) }
{
    let copies = copies(alloc, paths)?;
    if is_rising(&copies) {
        return Ok(copies);
    }
    sorted(alloc, copies)
}

// Each path comes before the next one.
fn is_rising(paths: &[CanonPath]) -> bool
    ensures { IsTrue result → IsTrue (are_rising paths.now) }
{
    for i in 0..paths.len() {
        if is_repeated(&paths[i], &paths[i + 1..]) {
            return false;
        }
    }
    true
}

fn copies(alloc: Global, paths: &[CanonPath]) -> Result<Vec<CanonPath>, AllocError>
    ensures items { IfOk result (λ copies. copies.items ≡ paths.now) }
    ensures canonical { IfOk result (λ copies. All IsCanonical copies.items) }
{
    let mut copies = Vec::with_capacity(alloc, paths.len())?;
    add_copies(alloc, paths, &mut copies)?;
    Ok(copies)
}

// Adds copies of paths.
fn add_copies(
    alloc: Global,
    paths: &[CanonPath],
    copies: &mut Vec<CanonPath>,
) -> Result<(), AllocError>
    ensures items { OnOk result (copies.new.items ≡ copies.old.items ++ paths.now) }
    ensures canonical { OnOk result (All IsCanonical copies.old.items → All IsCanonical copies.new.items) }
{
    for path in paths {
        add_copy(alloc, path, copies)?;
    }
    Ok(())
}

fn add_copy(alloc: Global, path: &CanonPath, copies: &mut Vec<CanonPath>) -> Result<(), AllocError>
    ensures items { OnOk result (copies.new.items ≡ copies.old.items ++ path.now ∷ []) }
    ensures canonical { IsCanonical path.now }
{
    let _spelling = path.bytes();
    copies.push(path.copy(alloc)?)?;
    Ok(())
}

// Adds those paths that aren't there yet.
#[tactic(auto, unfolding(crate::specs::parts::Walked::with_paths))]
fn add_walked(alloc: Global, paths: &[CanonPath], walked: &mut Walked) -> Result<(), AllocError>
    ensures { OnOk result (walked.new ≡ with_paths walked.old paths.now) }
{
    for path in paths {
        walked.add(alloc, path)?;
    }
    Ok(())
}

// Adds those nodes of a walk that aren't there yet.
#[tactic(auto, unfolding(crate::specs::parts::Walked::with_paths))]
fn add_nodes(alloc: Global, nodes: &Nodes, walked: &mut Walked) -> Result<(), AllocError>
    ensures { OnOk result (walked.new ≡ with_paths walked.old nodes.now) }
{
    walked.begin();
    let (front, shared, behind) = nodes.parts();
    add_walked(alloc, front, walked)?;
    add_walked(alloc, shared, walked)?;
    add_walked(alloc, behind, walked)?;
    Ok(())
}

// Adds the nodes that were walked for the files that searches found.
#[tactic(auto, unfolding(crate::specs::parts::Walked::with_paths))]
fn add_searched(alloc: Global, searches: &Searches, walked: &mut Walked) -> Result<(), AllocError>
    ensures { OnOk result (walked.new ≡ with_paths walked.old (searched_walked searches.now)) }
{
    for number in 0..searches.len() {
        add_found(alloc, searches.found_by(number), walked)?;
    }
    Ok(())
}

// Adds the nodes that were walked for what a search found.
#[tactic(auto, unfolding(crate::specs::parts::Walked::with_paths))]
fn add_found(
    alloc: Global,
    found: &Option<(Visit, Located)>,
    walked: &mut Walked,
) -> Result<(), AllocError>
    ensures { OnOk result (walked.new ≡ with_paths walked.old (found_walked found.now)) }
{
    match found {
        None => Ok(()),
        Some((_, located)) => add_nodes(alloc, &located.walked, walked),
    }
}

// Adds the nodes that were walked for the files of sheets.
#[tactic(auto, unfolding(crate::specs::parts::Walked::with_paths))]
fn add_sheets(
    alloc: Global,
    sheets: &[(Visit, Unweighed)],
    walked: &mut Walked,
) -> Result<(), AllocError>
    ensures { OnOk result (walked.new ≡ with_paths walked.old (sheets_walked sheets.now)) }
{
    for told in sheets {
        add_hits(alloc, told.1.plain(), walked)?;
        add_files(alloc, told.1.probes(), walked)?;
    }
    Ok(())
}

// Adds the nodes that were walked for the files of visits.
#[tactic(auto, unfolding(crate::specs::parts::Walked::with_paths))]
fn add_hits(alloc: Global, hits: &[(Visit, Located)], walked: &mut Walked) -> Result<(), AllocError>
    ensures { OnOk result (walked.new ≡ with_paths walked.old (hits_walked hits.now)) }
{
    for hit in hits {
        add_nodes(alloc, &hit.1.walked, walked)?;
    }
    Ok(())
}

// Adds the nodes that were walked for files.
#[tactic(auto, unfolding(crate::specs::parts::Walked::with_paths))]
fn add_files(alloc: Global, files: &[Located], walked: &mut Walked) -> Result<(), AllocError>
    ensures { OnOk result (walked.new ≡ with_paths walked.old (gathering.walked_of files.now)) }
{
    for file in files {
        add_nodes(alloc, &file.walked, walked)?;
    }
    Ok(())
}

// Adds the paths that were walked and what is above them.
fn add_all_upward(
    alloc: Global,
    walked: &Walked,
    nodes: &mut Vec<CanonPath>,
) -> Result<(), AllocError>
    ensures nodes { OnOk result (nodes.new.items ≡ nodes.old.items ++ all_upward_from walked.now walked.now) }
    ensures canonical { OnOk result (All IsCanonical nodes.old.items → All IsCanonical nodes.new.items) }
{
    for number in 0..walked.len() {
        add_upward_from(alloc, walked, walked.at(number), nodes)?;
    }
    Ok(())
}

// Adds a path, and those above it where the one right above it wasn't walked: else they are added for that one.
fn add_upward_from(
    alloc: Global,
    walked: &Walked,
    path: &CanonPath,
    nodes: &mut Vec<CanonPath>,
) -> Result<(), AllocError>
    ensures nodes { OnOk result (nodes.new.items ≡ nodes.old.items ++ upward_from walked.now path.now) }
    ensures canonical { OnOk result (All IsCanonical nodes.old.items → All IsCanonical nodes.new.items) }
{
    if path.is_root() {
        return Ok(());
    }
    let above = path.parent(alloc)?;
    if walked.has(&above) {
        return add_copy(alloc, path, nodes);
    }
    add_upward(alloc, path, nodes)
}

// Adds a path and those above it, without the root, from the inside out.
fn add_upward(alloc: Global, path: &CanonPath, nodes: &mut Vec<CanonPath>) -> Result<(), AllocError>
    ensures nodes { OnOk result (nodes.new.items ≡ nodes.old.items ++ upward path.now) }
    ensures canonical { OnOk result (All IsCanonical nodes.old.items → All IsCanonical nodes.new.items) }
{
    let mut at = path.copy(alloc)?;
    while at.parent_bytes().is_some() {
        let up = at.parent(alloc)?;
        nodes.push(at)?;
        at = up;
    }
    Ok(())
}

// The same paths, each once, in order of their spellings' bytes.
fn sorted(alloc: Global, nodes: Vec<CanonPath>) -> Result<Vec<CanonPath>, AllocError>
    requires { All IsCanonical nodes.items }
    ensures rising { IfOk result (λ list. IsTrue (are_rising list.items)) }
    ensures same { IfOk result (λ list. (path : Path) → Member path list.items ↔ Member path nodes.items) }
    ensures canonical { IfOk result (λ list. All IsCanonical list.items) }
{
    spellings_are_apart();
    let mut nodes = nodes;
    nodes.sort_unstable_by(
        |a: &CanonPath, b: &CanonPath| -> Ordering
            ensures { result ≡ slice_cmp nat_cmp (spelled a.now) (spelled b.now) }
        { a.compare(b) },
    );
    each_once(alloc, &nodes)
}

// Of sorted paths each once.
fn each_once(alloc: Global, nodes: &[CanonPath]) -> Result<Vec<CanonPath>, AllocError>
    ensures { IfOk result (λ list. list.items ≡ gathering.paths_once nodes.now) }
{
    let mut list = Vec::with_capacity(alloc, nodes.len())?;
    for i in 0..nodes.len() {
        add_once(alloc, &nodes[i], &nodes[i + 1..], &mut list)?;
    }
    Ok(list)
}

// Adds a path, where it isn't repeated behind it.
fn add_once(
    alloc: Global,
    path: &CanonPath,
    behind: &[CanonPath],
    list: &mut Vec<CanonPath>,
) -> Result<(), AllocError>
    ensures { OnOk result (list.new.items ≡ list.old.items ++ unless_repeated path.now behind.now) }
{
    if is_repeated(path, behind) {
        return Ok(());
    }
    list.push(path.copy(alloc)?)?;
    Ok(())
}

// A path of sorted paths is also the next one.
fn is_repeated(path: &CanonPath, behind: &[CanonPath]) -> bool
    ensures { result ≡ gathering.is_repeated path.now behind.now }
{
    match behind {
        [] => false,
        [next, ..] => path.compare(next) != Ordering::Less,
    }
}
