// The entries of a closure's nodes.
ghost use Rattle.std.specs.Prelude.{◌≡◌, ◌≤◌, ◌+◌, ◌++◌, ◌∷◌, [], length, Option, IfOk, IfSome, OnOk, IsErrOf, IsTrue, All, Some};
ghost use Rattle.std.specs.List.{list_any};
ghost use Rattle.std.specs.Option.{ForSome};
ghost use Rattle.base_types.specs.Causes.{HasCause};
ghost use Rattle.tree_model.specs.Paths.{Text, Path, IsCanonical};
ghost use Rattle.tree_model.specs.Entries as lists;
ghost use Rattle.tree_model.specs.Entries.{Increasing, is_dir_at};
ghost use Rattle.tree_model.specs.Trees as trees;
ghost use Rattle.tree_model.specs.Trees.{IsTooLarge, node_at};
ghost use Rattle.job_frames.specs.Spelling.{HasSpelling};
ghost use Rattle.closure_fixpoint.specs.Gathering.{IsSendable, are_rising, kept_at, gathered_from, unknown_there, unknown_among, GathersNodes, GatheredFits, ReadsFiles, AreKept, AddsAt, HasLarge};
ghost use Rattle.closure_fixpoint.specs.parts.Bodies.{bodies_known, AreBodiesOf, TakesAt};

use crate::bodies::Bodies;
use crate::lengths::is_too_long;
use crate::nodes::in_order;
use crate::{Closure, Refusal};
use base_types::Bytes;
use job_words::Job;
use std::alloc::{AllocError, Global};
use tree_model::{
    CanonPath, Entry, Node, Tree, TreeError, entry_spelled, parents_make_trees, tests_decide,
};

/// What is gathered: the entries that a request carries, or why there are none.
#[derive(Drop)]
pub enum Gathered {
    Entries(Vec<(CanonPath, Entry)>),
    Refused(Refusal),
}

/// The entries of a closure's nodes, in order of their paths' bytes, each once, without the root. A node that isn't there has
/// none, and neither has one whose parent is neither the root nor a directory among the entries. `Refused(Large)`: one of
/// them is a file of more than 16,777,216 bytes. `Refused(Request)`: else, there are more than 100,000 of them, or their
/// request has more than 268,435,456 bytes. Each file among the entries is read at most once: those whose bytes are known aren't, and
/// their bytes are taken.
pub fn gather<T: Tree>(
    alloc: Global,
    tree: &mut T,
    job: &Job,
    closure: &Closure,
    bodies: &mut Bodies,
) -> Result<Gathered, TreeError>
    requires bodies { AreBodiesOf (T.told tree.old) (bodies_known bodies.old) }
    ensures same { T.told tree.new ≡ T.told tree.old }
    ensures gathered { ForSome (T.told tree.old) (λ told. IfOk result (GathersNodes told job.now closure.now.nodes)) }
    ensures fits { IfOk result (GatheredFits job.now) }
    ensures reads { IfOk result (ReadsFiles (bodies_known bodies.old) (T.reads tree.old) (T.reads tree.new)) }
    ensures cause { HasCause TreeError.Fault (T.faults tree.old) (T.faults tree.new) result }
    ensures never_large { IsErrOf result TreeError.Large → ⊥ }
{
    parents_make_trees();
    tests_decide();
    let nodes = in_order(alloc, closure.nodes.as_slice())?;
    let entries = match entries_of(alloc, tree, &nodes, bodies) {
        Ok(entries) => entries,
        Err(TreeError::Large) => return Ok(Gathered::Refused(Refusal::Large)),
        Err(error) => return Err(error),
    };
    if is_too_long(job, &entries) {
        return Ok(Gathered::Refused(Refusal::Request));
    }
    Ok(Gathered::Entries(entries))
}

// What stands at paths in order, where the parent is the root or a directory among the entries so far. `Large` where one
// of them is a file that is too large.
fn entries_of<T: Tree>(
    alloc: Global,
    tree: &mut T,
    nodes: &[CanonPath],
    bodies: &mut Bodies,
) -> Result<Vec<(CanonPath, Entry)>, TreeError>
    requires bodies { AreBodiesOf (T.told tree.old) (bodies_known bodies.old) }
    requires rising { IsTrue (are_rising nodes.now) }
    requires canonical { All IsCanonical nodes.now }
    ensures same { T.told tree.new ≡ T.told tree.old }
    ensures entries { ForSome (T.told tree.old) (λ told. IfOk result (λ entries. entries.items ≡ gathered_from told [] nodes.now)) }
    ensures kept { IfOk result (λ entries. AreKept nodes.now entries.items) }
    ensures spellable { IfOk result (λ entries. All HasSpelling entries.items) }
    ensures large { ForSome (T.told tree.old) (λ told. IsErrOf result TreeError.Large → HasLarge (gathered_from told [] nodes.now)) }
    ensures reads { IfOk result (λ entries. T.reads tree.new ≤ T.reads tree.old + unknown_among (bodies_known bodies.old) entries.items) }
    ensures cause { HasCause TreeError.Fault (T.faults tree.old) (T.faults tree.new) result }
{
    let mut entries = Vec::with_capacity(alloc, nodes.len())?;
    for path in nodes {
        match add_entry(alloc, tree, path, bodies, &mut entries) {
            Ok(()) => (),
            Err(error) => return Err(error),
        }
    }
    Ok(entries)
}

// Adds what stands at a path, if something does and its parent is there.
fn add_entry<T: Tree>(
    alloc: Global,
    tree: &mut T,
    path: &CanonPath,
    bodies: &mut Bodies,
    entries: &mut Vec<(CanonPath, Entry)>,
) -> Result<(), TreeError>
    requires bodies { AreBodiesOf (T.told tree.old) (bodies_known bodies.old) }
    requires increasing { Increasing entries.old.items }
    requires canonical { IsCanonical path.now }
    ensures same { T.told tree.new ≡ T.told tree.old }
    ensures takes { TakesAt path.now (bodies_known bodies.old) (bodies_known bodies.new) }
    ensures adds { OnOk result (AddsAt path.now entries.old.items entries.new.items) }
    ensures entries { ForSome (T.told tree.old) (λ told. OnOk result (entries.new.items ≡ entries.old.items ++ kept_at told entries.old.items path.now)) }
    ensures large { ForSome (T.told tree.old) (λ told. IsErrOf result TreeError.Large → IsTrue (lists.has_parent entries.old.items path.now) × IsTooLarge told path.now) }
    ensures reads { OnOk result ((known : Path → Option Text) → known path.now ≡ bodies_known bodies.old path.now → T.reads tree.new + unknown_among known entries.old.items ≤ T.reads tree.old + unknown_among known entries.new.items) }
    ensures cause { HasCause TreeError.Fault (T.faults tree.old) (T.faults tree.new) result }
{
    if !has_parent(entries, path) {
        return Ok(());
    }
    match entry_at(alloc, tree, path, bodies)? {
        None => Ok(()),
        Some(entry) => Ok(push_entry(alloc, path, entry, entries)?),
    }
}

// The parent of a path is the root or a directory among entries; the root has none.
fn has_parent(entries: &[(CanonPath, Entry)], path: &CanonPath) -> bool
    requires { Increasing entries.now }
    ensures { result ≡ lists.has_parent entries.now path.now }
{
    match path.parent_bytes() {
        None => false,
        Some(parent) => parent.is_empty() || has_dir(entries, parent),
    }
}

// A directory that is spelled so stands among entries.
fn has_dir(entries: &[(CanonPath, Entry)], text: &[u8]) -> bool
    requires { Increasing entries.now }
    ensures { result ≡ list_any (is_dir_at text.now) entries.now }
{
    match entry_spelled(entries, text) {
        None => false,
        Some(entry) => is_dir(entry),
    }
}

fn is_dir(entry: &Entry) -> bool
    ensures { result ≡ lists.is_dir entry.now }
{
    match entry {
        Entry::Dir => true,
        Entry::File(_) => false,
        Entry::Link(_) => false,
    }
}

// Adds an entry at a path.
fn push_entry(
    alloc: Global,
    path: &CanonPath,
    entry: Entry,
    entries: &mut Vec<(CanonPath, Entry)>,
) -> Result<(), AllocError>
    ensures { OnOk result (entries.new.items ≡ entries.old.items ++ (path.now, entry) ∷ []) }
{
    entries.push((path.copy(alloc)?, entry))?;
    Ok(())
}

// What stands at a path, if something does. A file of which no body is told counts as an empty one.
fn entry_at<T: Tree>(
    alloc: Global,
    tree: &mut T,
    path: &CanonPath,
    bodies: &mut Bodies,
) -> Result<Option<Entry>, TreeError>
    requires bodies { AreBodiesOf (T.told tree.old) (bodies_known bodies.old) }
    ensures same { T.told tree.new ≡ T.told tree.old }
    ensures takes { TakesAt path.now (bodies_known bodies.old) (bodies_known bodies.new) }
    ensures entry { ForSome (T.told tree.old) (λ told. IfOk result (λ entry. entry ≡ trees.entry_at told path.now)) }
    ensures sendable { IfOk result (λ entry. IfSome entry IsSendable) }
    ensures large { ForSome (T.told tree.old) (λ told. IsErrOf result TreeError.Large → IsTooLarge told path.now) }
    ensures reads { IfOk result (λ entry. T.reads tree.new ≤ T.reads tree.old + unknown_there (bodies_known bodies.old path.now) entry) }
    ensures cause { HasCause TreeError.Fault (T.faults tree.old) (T.faults tree.new) result }
{
    match tree.node(path)? {
        None => Ok(None),
        Some(Node::Dir) => Ok(Some(Entry::Dir)),
        Some(Node::Link(text)) => Ok(Some(Entry::Link(text))),
        Some(Node::File) => file_at(alloc, tree, path, bodies),
    }
}

// The file at a path, where one is. Where its bytes are known it isn't read.
fn file_at<T: Tree>(
    alloc: Global,
    tree: &mut T,
    path: &CanonPath,
    bodies: &mut Bodies,
) -> Result<Option<Entry>, TreeError>
    requires bodies { AreBodiesOf (T.told tree.old) (bodies_known bodies.old) }
    ensures same { T.told tree.new ≡ T.told tree.old }
    ensures takes { TakesAt path.now (bodies_known bodies.old) (bodies_known bodies.new) }
    ensures entry { ForSome (T.told tree.old) (λ told. IfOk result (λ entry. node_at told path.now ≡ Some Node.File → entry ≡ trees.entry_at told path.now)) }
    ensures sendable { IfOk result (λ entry. IfSome entry IsSendable) }
    ensures large { ForSome (T.told tree.old) (λ told. IsErrOf result TreeError.Large → IsTooLarge told path.now) }
    ensures reads { IfOk result (λ entry. T.reads tree.new ≤ T.reads tree.old + unknown_there (bodies_known bodies.old path.now) entry) }
    ensures cause { HasCause TreeError.Fault (T.faults tree.old) (T.faults tree.new) result }
{
    if let Some(body) = bodies.take(path) {
        return Ok(Some(Entry::File(body.into_bytes(alloc)?)));
    }
    match tree.read(path) {
        Ok(Some(body)) => Ok(Some(Entry::File(body))),
        Ok(None) => Ok(Some(Entry::File(Bytes::new(alloc)))),
        Err(error) => Err(error),
    }
}
