// Walks: the file that a text locates (POSIX.1-2017, 4.13 Pathname Resolution; `walk` and `locate` in specs/Walk.antt).
//
// A text is walked component by component from a directory, and each node that is met is noted. At a link the walk stops; the link's text is
// put in front of what is left, and the walk goes on from the link's directory, at most 40 times for a text, so no link is followed by
// recursion. `locate` walks what stands before the last `/`, and then the last component: the directory in which that is looked up, with its
// name, is the file's place. A walk takes one look at the tree and makes one path for each component, which the note of it shares.
//
// A text that begins with `/` is walked up to its last `/` once, where the tree remembers what that reached, and then glanced at (glance.rt).
// Where the walk of that text's own front is remembered, one look tells what it reaches, and no walk is needed (learn.rt). What stands before the
// last `/` of a last component's link is such a text as well, behind the link's directory (`behind_link`).
ghost use Rattle.std.specs.Prelude.{◌≡◌, ◌≤◌, ℕ, [], ◌∷◌, ◌++◌, length, drop, reverse, Some, IfOk, IfSome, OnOk, IsErrOf, ◌==◌};
ghost use Rattle.std.specs.List.{position};
ghost use Rattle.std.specs.Option.{option_map, ForSome};
ghost use Rattle.base_types.specs.Causes.{HasCause};
ghost use Rattle.base_types.specs.Ascii.{slash};
ghost use Rattle.base_types.specs.Limits.{link_limit};
ghost use Rattle.tree_model.specs.Paths.{IsCanonical};
ghost use Rattle.tree_model.specs.Trees.{FileTree, entry_at};
ghost use Rattle.tree_model.specs.Walk as walks;
ghost use Rattle.tree_model.specs.Walk.{Look, components, but_last, last_of, component_of, entered, located_in, walk, walk_ended, is_absolute};
ghost use Rattle.tree_model.specs.Reached.{reached_at};
ghost use Rattle.tree_model.specs.parts.Glances.{located_below};
ghost use Rattle.tree_model.specs.parts.Steps.{GoesOn, components_left, asked, onward, followed, end_of};

use crate::glance::Glanced;
use crate::learn::glance_or_learn;
use crate::nodes::{Nodes, SharedNodes, push_copies};
use crate::spelling::extended;
use crate::{CanonPath, Node, Reached, Tree, TreeError};
use base_types::limits::{LINK_LIMIT, PATH_LIMIT};
use base_types::{Bytes, List};
use std::alloc::{AllocError, Global};

// Room for the nodes of most walks.
const NODES: usize = 16;

/// How a text located a file.
#[derive(Drop)]
pub struct Located {
    /// The real directory in which the last component of the text was looked up, with that component's name.
    pub place: CanonPath,
    /// The path of the file reached, behind all links.
    pub real: CanonPath,
    /// The nodes walked, in order: the starting directory, the root where the text begins with `/`, and each
    /// node met, links and the targets of `..` included.
    pub walked: Nodes,
}

impl Located {
    /// A copy.
    pub fn copy(&self, alloc: Global) -> Result<Located, AllocError>
        ensures { IfOk result (λ copy. copy ≡ self.now) }
    {
        let place = self.place.copy(alloc)?;
        let real = self.real.copy(alloc)?;
        let walked = self.walked.copy(alloc)?;
        Ok(Located {
            place,
            real,
            walked,
        })
    }
}

// What a component asks for: to stay, to go up, or to go down to a name.
#[derive(Clone, Copy)]
pub(crate) enum Move {
    Stay,
    Up,
    Down,
}

// Where a walk stands before it follows a link.
#[derive(Drop)]
enum Step {
    Nowhere,
    Dir(CanonPath),
    File(CanonPath),
    // A link: the directory from which its text is walked, and the text.
    Link(CanonPath, Bytes),
}

// How a walk ends: without success, at a directory with so many links left, or at a file.
#[derive(Drop)]
enum Stop {
    Nowhere,
    Dir(CanonPath, u32),
    File(CanonPath),
}

pub(crate) fn move_of(name: &[u8]) -> Move
    ensures { asked result name.now ≡ component_of name.now }
{
    match name {
        [] | [b'.'] => Move::Stay,
        [b'.', b'.'] => Move::Up,
        _ => Move::Down,
    }
}

fn first_slash(text: &[u8]) -> Option<usize>
    ensures { result ≡ position (λ b. b == slash) text.now }
{
    text.iter().position(|b| *b == b'/')
}

// The first component of a text, and what stands behind its `/`.
pub(crate) fn cut_component(text: &[u8]) -> (&[u8], Option<&[u8]>)
    ensures { components text.now ≡ result.0.now ∷ components_left (option_map (λ t. t.now) result.1) }
{
    match first_slash(text) {
        Some(i) => (&text[..i], Some(&text[i + 1..])),
        None => (text, None),
    }
}

// What stands before the last `/` of a text, if it has one, and the last component.
pub(crate) fn cut_last(text: &[u8]) -> (Option<&[u8]>, &[u8])
    ensures head { components_left (option_map (λ t. t.now) result.0) ≡ but_last (components text.now) }
    ensures name { result.1.now ≡ last_of (components text.now) }
    ensures one { components result.1.now ≡ result.1.now ∷ [] }
{
    let mut at = text.len();
    while at > 0 {
        if text[at - 1] == b'/' {
            return (Some(&text[..at - 1]), &text[at..]);
        }
        at -= 1;
    }
    (None, text)
}

pub(crate) fn begins_at_root(text: &[u8]) -> bool
    ensures { result ≡ is_absolute text.now }
{
    match text {
        [first, ..] => *first == b'/',
        [] => false,
    }
}

// Where the walk of a text begins.
fn start(alloc: Global, dir: CanonPath, text: &[u8]) -> Result<CanonPath, AllocError>
    ensures { IfOk result (λ path. path ≡ walks.start dir text.now) }
{
    if begins_at_root(text) {
        CanonPath::root(alloc)
    } else {
        Ok(dir)
    }
}

// Where the walk of a text begins, from a directory that is lent.
fn begin(alloc: Global, dir: &CanonPath, text: &[u8]) -> Result<CanonPath, AllocError>
    ensures { IfOk result (λ path. path ≡ walks.start dir.now text.now) }
{
    if begins_at_root(text) {
        CanonPath::root(alloc)
    } else {
        dir.copy(alloc)
    }
}

// The nodes at which a walk stands before its first component.
fn first_nodes(alloc: Global, dir: &CanonPath, text: &[u8]) -> Result<List<CanonPath>, AllocError>
    ensures { IfOk result (λ nodes. nodes ≡ walks.first_nodes dir.now text.now) }
{
    let mut nodes = List::of(Vec::with_capacity(alloc, NODES)?);
    nodes.push(dir.copy(alloc)?)?;
    if begins_at_root(text) {
        nodes.push(CanonPath::root(alloc)?)?;
    }
    Ok(nodes)
}

// A link's text with what is left behind the link.
fn in_place(link: Bytes, rest: Option<&[u8]>) -> Result<Bytes, AllocError>
    ensures { IfOk result (λ text. components text ≡ components link ++ components_left (option_map (λ t. t.now) rest.entry)) }
{
    let Some(behind) = rest else {
        return Ok(link);
    };
    let mut text = link;
    text.extend(b"/")?;
    text.extend(behind)?;
    Ok(text)
}

// Notes a node that is met.
fn note(alloc: Global, path: &CanonPath, walked: &mut List<CanonPath>) -> Result<(), AllocError>
    ensures { OnOk result (walked.new ≡ walked.old ++ path.now ∷ []) }
{
    walked.push(path.copy(alloc)?)?;
    Ok(())
}

// A file ends a walk, without success where a component is left.
fn file_step(path: CanonPath, rest: Option<&[u8]>) -> Step
    ensures { (look : Look) (links : ℕ) → onward look links [] result ≡ onward look links (components_left (option_map (λ t. t.now) rest.entry)) (Step.File path) }
{
    match rest {
        None => Step::File(path),
        Some(_) => Step::Nowhere,
    }
}

// Goes down to a name.
fn go_down<T: Tree>(
    alloc: Global,
    tree: &mut T,
    dir: CanonPath,
    name: &[u8],
    walked: &mut List<CanonPath>,
) -> Result<Step, TreeError>
    ensures same { T.told tree.new ≡ T.told tree.old }
    ensures step { IfOk result (λ step. ForSome (T.told tree.old) (λ told. (links : ℕ) (rest : _) → GoesOn walked.old (entered (λ next. walk (entry_at told) links next rest) (followed (entry_at told) links) rest dir (name.now ∷ dir) (entry_at told (name.now ∷ dir))) walked.new (onward (entry_at told) links rest step))) }
    ensures cause { HasCause TreeError.Fault (T.faults tree.old) (T.faults tree.new) result }
    ensures never_large { IsErrOf result TreeError.Large → ⊥ }
    ensures no_read { T.reads tree.new ≡ T.reads tree.old }
{
    let Some(path) = dir.child(alloc, name)? else {
        return Ok(Step::Nowhere);
    };
    let Some(node) = tree.node(&path)? else {
        return Ok(Step::Nowhere);
    };
    note(alloc, &path, walked)?;
    match node {
        Node::Dir => Ok(Step::Dir(path)),
        Node::File => Ok(Step::File(path)),
        Node::Link(text) => {
            let from = start(alloc, dir, text.as_slice())?;
            Ok(Step::Link(from, text))
        }
    }
}

// Takes one component.
fn take_step<T: Tree>(
    alloc: Global,
    tree: &mut T,
    dir: CanonPath,
    name: &[u8],
    walked: &mut List<CanonPath>,
) -> Result<Step, TreeError>
    ensures same { T.told tree.new ≡ T.told tree.old }
    ensures step { IfOk result (λ step. ForSome (T.told tree.old) (λ told. (links : ℕ) (rest : _) → GoesOn walked.old (walk (entry_at told) links dir (name.now ∷ rest)) walked.new (onward (entry_at told) links rest step))) }
    ensures cause { HasCause TreeError.Fault (T.faults tree.old) (T.faults tree.new) result }
    ensures never_large { IsErrOf result TreeError.Large → ⊥ }
    ensures no_read { T.reads tree.new ≡ T.reads tree.old }
{
    match move_of(name) {
        Move::Stay => Ok(Step::Dir(dir)),
        Move::Up => {
            let up = dir.parent(alloc)?;
            note(alloc, &up, walked)?;
            Ok(Step::Dir(up))
        }
        Move::Down => go_down(alloc, tree, dir, name, walked),
    }
}

// Takes the components left, up to the first link.
fn until_link<T: Tree>(
    alloc: Global,
    tree: &mut T,
    dir: CanonPath,
    rest: Option<&[u8]>,
    walked: &mut List<CanonPath>,
) -> Result<Step, TreeError>
    ensures same { T.told tree.new ≡ T.told tree.old }
    ensures step { IfOk result (λ step. ForSome (T.told tree.old) (λ told. (links : ℕ) → GoesOn walked.old (walk (entry_at told) links dir (components_left (option_map (λ t. t.now) rest.entry))) walked.new (onward (entry_at told) links [] step))) }
    ensures cause { HasCause TreeError.Fault (T.faults tree.old) (T.faults tree.new) result }
    ensures never_large { IsErrOf result TreeError.Large → ⊥ }
    ensures no_read { T.reads tree.new ≡ T.reads tree.old }
{
    let mut dir = dir;
    let mut rest = rest;
    while let Some(text) = rest {
        let (name, behind) = cut_component(text);
        rest = behind;
        match take_step(alloc, tree, dir, name, walked)? {
            Step::Nowhere => return Ok(Step::Nowhere),
            Step::Dir(next) => dir = next,
            Step::File(path) => return Ok(file_step(path, rest)),
            Step::Link(from, link) => return Ok(Step::Link(from, in_place(link, rest)?)),
        }
    }
    Ok(Step::Dir(dir))
}

// Walks the components left, with at most so many links.
fn walk_on<T: Tree>(
    alloc: Global,
    tree: &mut T,
    dir: CanonPath,
    links: u32,
    rest: Option<&[u8]>,
    walked: &mut List<CanonPath>,
) -> Result<Stop, TreeError>
    ensures same { T.told tree.new ≡ T.told tree.old }
    ensures stop { IfOk result (λ stop. ForSome (T.told tree.old) (λ told. GoesOn walked.old (walk (entry_at told) links dir (components_left (option_map (λ t. t.now) rest.entry))) walked.new (walk_ended (end_of stop)))) }
    ensures cause { HasCause TreeError.Fault (T.faults tree.old) (T.faults tree.new) result }
    ensures never_large { IsErrOf result TreeError.Large → ⊥ }
    ensures no_read { T.reads tree.new ≡ T.reads tree.old }
{
    let step = until_link(alloc, tree, dir, rest, walked)?;
    to_end(alloc, tree, links, step, walked)
}

// Walks on from a step, with at most so many links.
fn to_end<T: Tree>(
    alloc: Global,
    tree: &mut T,
    links: u32,
    step: Step,
    walked: &mut List<CanonPath>,
) -> Result<Stop, TreeError>
    ensures same { T.told tree.new ≡ T.told tree.old }
    ensures stop { IfOk result (λ stop. ForSome (T.told tree.old) (λ told. GoesOn walked.old (onward (entry_at told) links [] step) walked.new (walk_ended (end_of stop)))) }
    ensures cause { HasCause TreeError.Fault (T.faults tree.old) (T.faults tree.new) result }
    ensures never_large { IsErrOf result TreeError.Large → ⊥ }
    ensures no_read { T.reads tree.new ≡ T.reads tree.old }
{
    let mut links = links;
    let mut step = step;
    loop {
        match step {
            Step::Nowhere => return Ok(Stop::Nowhere),
            Step::Dir(path) => return Ok(Stop::Dir(path, links)),
            Step::File(path) => return Ok(Stop::File(path)),
            Step::Link(from, text) => {
                if links == 0 {
                    return Ok(Stop::Nowhere);
                }
                links -= 1;
                step = until_link(alloc, tree, from, Some(text.as_slice()), walked)?;
            }
        }
    }
}

// Where a last component leads to from the directory in which it is looked up. Where it is a link, the tree remembers what stands before the
// last `/` of its text: the links of one directory lead to few others.
fn walk_last<T: Tree>(
    alloc: Global,
    tree: &mut T,
    dir: CanonPath,
    links: u32,
    name: &[u8],
    walked: &mut List<CanonPath>,
) -> Result<Stop, TreeError>
    ensures same { T.told tree.new ≡ T.told tree.old }
    ensures stop { IfOk result (λ stop. ForSome (T.told tree.old) (λ told. GoesOn walked.old (walk (entry_at told) links dir (components name.now)) walked.new (walk_ended (end_of stop)))) }
    ensures cause { HasCause TreeError.Fault (T.faults tree.old) (T.faults tree.new) result }
    ensures never_large { IsErrOf result TreeError.Large → ⊥ }
    ensures no_read { T.reads tree.new ≡ T.reads tree.old }
{
    match until_link(alloc, tree, dir, Some(name), walked)? {
        Step::Link(from, text) => {
            if links == 0 {
                return Ok(Stop::Nowhere);
            }
            let step = behind_link(alloc, tree, from, text.as_slice(), walked)?;
            to_end(alloc, tree, links - 1, step, walked)
        }
        step => to_end(alloc, tree, links, step, walked),
    }
}

// Walks a link's text from a directory, up to the next link. What stands before its last `/` is walked from the root, and glanced at from then
// on; where that follows a link, the text is walked from the directory itself.
fn behind_link<T: Tree>(
    alloc: Global,
    tree: &mut T,
    from: CanonPath,
    text: &[u8],
    walked: &mut List<CanonPath>,
) -> Result<Step, TreeError>
    ensures same { T.told tree.new ≡ T.told tree.old }
    ensures step { IfOk result (λ step. ForSome (T.told tree.old) (λ told. (links : ℕ) → GoesOn walked.old (walk (entry_at told) links from (components text.now)) walked.new (onward (entry_at told) links [] step))) }
    ensures cause { HasCause TreeError.Fault (T.faults tree.old) (T.faults tree.new) result }
    ensures never_large { IsErrOf result TreeError.Large → ⊥ }
    ensures no_read { T.reads tree.new ≡ T.reads tree.old }
{
    let (head, name) = cut_last(text);
    let Some(head) = head else {
        return until_link(alloc, tree, from, Some(text), walked);
    };
    let front = text_from_root(alloc, &from, head)?;
    let (stop, nodes) = reach_front(alloc, tree, &front)?;
    if let Stop::Dir(last, left) = stop {
        if left == LINK_LIMIT {
            note_behind(alloc, nodes.as_slice(), depth(&from), walked)?;
            return until_link(alloc, tree, last, Some(name), walked);
        }
    }
    until_link(alloc, tree, from, Some(text), walked)
}

// A text that leads from the root to a directory, and on from there.
fn text_from_root(alloc: Global, dir: &CanonPath, text: &[u8]) -> Result<Vec<u8>, AllocError>
    ensures { IfOk result (λ whole. components whole.items ≡ [] ∷ (reverse dir.now ++ components text.now)) }
{
    extended(alloc, dir.stem(), text)
}

// How many names a path has.
fn depth(path: &CanonPath) -> usize
    ensures value { result ≡ length path.now }
    ensures canonical { IsCanonical path.now }
{
    let stem = path.stem();
    let mut count = 0;
    for b in stem {
        if *b == b'/' {
            count += 1;
        }
    }
    count
}

// Notes nodes, but for so many first ones.
fn note_behind(
    alloc: Global,
    nodes: &[CanonPath],
    skipped: usize,
    walked: &mut List<CanonPath>,
) -> Result<(), AllocError>
    ensures { OnOk result (walked.new ≡ walked.old ++ drop skipped nodes.now) }
{
    if skipped < nodes.len() {
        push_copies(alloc, walked, &nodes[skipped..])?;
    }
    Ok(())
}

// The file that a last component leads to from the directory in which it is looked up, after the nodes walked before: some, and then
// shared ones.
fn locate_last<T: Tree>(
    alloc: Global,
    tree: &mut T,
    dir: CanonPath,
    links: u32,
    name: &[u8],
    before: List<CanonPath>,
    shared: SharedNodes,
) -> Result<Option<Located>, TreeError>
    requires { components name.now ≡ name.now ∷ [] }
    ensures same { T.told tree.new ≡ T.told tree.old }
    ensures found { IfOk result (λ found. ForSome (T.told tree.old) (λ told. found ≡ located_in dir name.now (before ++ shared) (walk (entry_at told) links dir (name.now ∷ [])))) }
    ensures cause { HasCause TreeError.Fault (T.faults tree.old) (T.faults tree.new) result }
    ensures never_large { IsErrOf result TreeError.Large → ⊥ }
    ensures no_read { T.reads tree.new ≡ T.reads tree.old }
{
    let Some(place) = dir.child(alloc, name)? else {
        return Ok(None);
    };
    let front = before.len();
    let mut own = before;
    match walk_last(alloc, tree, dir, links, name, &mut own)? {
        Stop::File(real) => Ok(Some(Located {
            place,
            real,
            walked: Nodes::around(own, front, shared),
        })),
        _ => Ok(None),
    }
}

// What a walk from the root with these nodes reached.
fn reached_by(alloc: Global, stop: &Stop, nodes: &SharedNodes) -> Result<Reached, AllocError>
    ensures { IfOk result (λ it. it ≡ reached_at nodes.now (end_of stop.now)) }
{
    let Stop::Dir(dir, links) = stop else {
        return Ok(Reached::Nowhere);
    };
    Ok(Reached::Dir(dir.copy(alloc)?, nodes.share()?, *links))
}

// Where the walk of a text from the root stopped, with the nodes walked, where the tree remembers that it reached a directory.
fn recall_front<T: Tree>(
    alloc: Global,
    tree: &T,
    text: &[u8],
) -> Result<Option<(Stop, SharedNodes)>, AllocError>
    ensures { IfOk result (λ o. IfSome o (λ it. ForSome (T.told tree.now) (λ told. GoesOn [] (walk (entry_at told) link_limit [] (components text.now)) it.1 (walk_ended (end_of it.0))))) }
{
    match tree.recall(text) {
        Some(Reached::Dir(dir, nodes, links)) => {
            let stop = Stop::Dir(dir.copy(alloc)?, *links);
            Ok(Some((stop, nodes.share()?)))
        }
        _ => Ok(None),
    }
}

// Walks a text from the root, and has the tree remember what that reached. The nodes walked are answered too.
fn walk_front<T: Tree>(
    alloc: Global,
    tree: &mut T,
    text: &[u8],
) -> Result<(Stop, SharedNodes), TreeError>
    ensures same { T.told tree.new ≡ T.told tree.old }
    ensures stop { IfOk result (λ it. ForSome (T.told tree.old) (λ told. GoesOn [] (walk (entry_at told) link_limit [] (components text.now)) it.1 (walk_ended (end_of it.0)))) }
    ensures cause { HasCause TreeError.Fault (T.faults tree.old) (T.faults tree.new) result }
    ensures never_large { IsErrOf result TreeError.Large → ⊥ }
    ensures no_read { T.reads tree.new ≡ T.reads tree.old }
{
    let mut nodes = List::of(Vec::with_capacity(alloc, NODES)?);
    let root = CanonPath::root(alloc)?;
    let stop = walk_on(alloc, tree, root, LINK_LIMIT, Some(text), &mut nodes)?;
    let shared = SharedNodes::of(alloc, nodes)?;
    let reached = reached_by(alloc, &stop, &shared)?;
    tree.remember(Bytes::copy_of(alloc, text)?, reached);
    Ok((stop, shared))
}

// Where the walk of a text from the root stops, with the nodes walked, whether the tree remembers it or not.
fn reach_front<T: Tree>(
    alloc: Global,
    tree: &mut T,
    text: &[u8],
) -> Result<(Stop, SharedNodes), TreeError>
    ensures same { T.told tree.new ≡ T.told tree.old }
    ensures stop { IfOk result (λ it. ForSome (T.told tree.old) (λ told. GoesOn [] (walk (entry_at told) link_limit [] (components text.now)) it.1 (walk_ended (end_of it.0)))) }
    ensures cause { HasCause TreeError.Fault (T.faults tree.old) (T.faults tree.new) result }
    ensures never_large { IsErrOf result TreeError.Large → ⊥ }
    ensures no_read { T.reads tree.new ≡ T.reads tree.old }
{
    match recall_front(alloc, tree, text)? {
        Some(known) => Ok(known),
        None => walk_front(alloc, tree, text),
    }
}

// The nodes in front of those of a walk from the root: the directory that the text was asked from, and the root.
pub(crate) fn nodes_before(alloc: Global, dir: &CanonPath) -> Result<List<CanonPath>, AllocError>
    ensures { IfOk result (λ nodes. nodes ≡ dir.now ∷ [] ∷ []) }
{
    // and room for the file's
    let mut nodes = List::of(Vec::with_capacity(alloc, 3)?);
    nodes.push(dir.copy(alloc)?)?;
    nodes.push(CanonPath::root(alloc)?)?;
    Ok(nodes)
}

// The file of a last component below a text, which is walked from the root.
fn walk_below<T: Tree>(
    alloc: Global,
    tree: &mut T,
    dir: &CanonPath,
    text: &[u8],
    name: &[u8],
) -> Result<Option<Located>, TreeError>
    requires { components name.now ≡ name.now ∷ [] }
    ensures same { T.told tree.new ≡ T.told tree.old }
    ensures found { IfOk result (λ found. ForSome (T.told tree.old) (λ told. found ≡ located_below (entry_at told) (dir.now ∷ [] ∷ []) (components text.now) name.now)) }
    ensures cause { HasCause TreeError.Fault (T.faults tree.old) (T.faults tree.new) result }
    ensures never_large { IsErrOf result TreeError.Large → ⊥ }
    ensures no_read { T.reads tree.new ≡ T.reads tree.old }
{
    let (stop, shared) = reach_front(alloc, tree, text)?;
    match stop {
        Stop::Dir(last, links) => {
            let before = nodes_before(alloc, dir)?;
            locate_last(alloc, tree, last, links, name, before, shared)
        }
        _ => Ok(None),
    }
}

// The file of a last component below a text that begins with `/`.
fn locate_below<T: Tree>(
    alloc: Global,
    tree: &mut T,
    dir: &CanonPath,
    front: &[u8],
    name: &[u8],
) -> Result<Option<Located>, TreeError>
    requires { components name.now ≡ name.now ∷ [] }
    ensures same { T.told tree.new ≡ T.told tree.old }
    ensures found { IfOk result (λ found. ForSome (T.told tree.old) (λ told. found ≡ located_below (entry_at told) (dir.now ∷ [] ∷ []) (components front.now) name.now)) }
    ensures cause { HasCause TreeError.Fault (T.faults tree.old) (T.faults tree.new) result }
    ensures never_large { IsErrOf result TreeError.Large → ⊥ }
    ensures no_read { T.reads tree.new ≡ T.reads tree.old }
{
    match glance_or_learn(alloc, tree, dir, front, name)? {
        Glanced::Missing => Ok(None),
        Glanced::File(located) => Ok(Some(located)),
        Glanced::Unsure => walk_below(alloc, tree, dir, front, name),
    }
}

/// The file that a text locates from a directory, or None exactly where it locates none: as POSIX pathname
/// resolution goes, with at most 40 links, and for texts of at most 4,096 bytes.
pub fn locate<T: Tree>(
    alloc: Global,
    tree: &mut T,
    dir: &CanonPath,
    text: &[u8],
) -> Result<Option<Located>, TreeError>
    ensures same { T.told tree.new ≡ T.told tree.old }
    ensures found { IfOk result (λ found. IfSome (T.told tree.old) (λ told. found ≡ walks.locate told dir.now text.now)) }
    ensures cause { HasCause TreeError.Fault (T.faults tree.old) (T.faults tree.new) result }
    ensures never_large { IsErrOf result TreeError.Large → ⊥ }
    ensures no_read { T.reads tree.new ≡ T.reads tree.old }
{
    let (head, name) = cut_last(text);
    if text.len() > PATH_LIMIT || name.is_empty() {
        return Ok(None);
    }
    if let Some(front) = head {
        if begins_at_root(text) {
            return locate_below(alloc, tree, dir, front, name);
        }
    }
    let mut walked = first_nodes(alloc, dir, text)?;
    let from = begin(alloc, dir, text)?;
    match walk_on(alloc, tree, from, LINK_LIMIT, head, &mut walked)? {
        Stop::Dir(last, links) => {
            locate_last(alloc, tree, last, links, name, walked, SharedNodes::none())
        }
        _ => Ok(None),
    }
}
