// Learning: what the walk of a text reaches, where what that of its front reached is remembered.
//
// Most of the directories that a search names anew stand in one that it named before, as `/usr/include/bits` below `/usr/include`. What such a
// text reaches costs one look and a copy of the nodes, in place of a look and a new path for each component. A last component that is
// no name, or a link, is left to a walk, and so is a text whose front isn't remembered: nothing is learnt of a front on the way.
ghost use Rattle.std.specs.Prelude.{◌≡◌, ◌∷◌, ◌++◌, [], IfOk, IfSome, IsErrOf};
ghost use Rattle.std.specs.Option.{ForSome};
ghost use Rattle.base_types.specs.Causes.{HasCause};
ghost use Rattle.base_types.specs.Limits.{link_limit};
ghost use Rattle.tree_model.specs.Trees.{entry_at};
ghost use Rattle.tree_model.specs.Walk.{components, walk};
ghost use Rattle.tree_model.specs.parts.Glances.{EndsInFrontOf, TellsLocated, located_below, reached_below};

use crate::glance::{Glanced, Recalled, glance_at, recall_child};
use crate::nodes::push_copies;
use crate::walk::cut_last;
use crate::{CanonPath, Node, Reached, SharedNodes, Tree, TreeError};
use base_types::{Bytes, List};
use std::alloc::{AllocError, Global};

// The nodes of a walk that is remembered, with a path behind them, and the links that it left.
fn nodes_and<T: Tree>(
    alloc: Global,
    tree: &T,
    text: &[u8],
    path: &CanonPath,
) -> Result<Option<(SharedNodes, u32)>, AllocError>
    ensures { IfOk result (λ o. IfSome o (λ seen. ForSome (T.told tree.now) (λ told.
        EndsInFrontOf (walk (entry_at told) link_limit [] (components text.now)) path.now seen))) }
{
    let Some(Reached::Dir(_, walked, links)) = tree.recall(text) else {
        return Ok(None);
    };
    let walked = walked.as_slice();
    let mut nodes = List::of(Vec::with_capacity(alloc, walked.len().saturating_add(1))?);
    push_copies(alloc, &mut nodes, walked)?;
    nodes.push(path.copy(alloc)?)?;
    Ok(Some((SharedNodes::of(alloc, nodes)?, *links)))
}

// What the walk of a text with one more component reaches, as far as what is remembered of the text and one look tell.
fn look_below<T: Tree>(
    alloc: Global,
    tree: &mut T,
    text: &[u8],
    name: &[u8],
) -> Result<Option<Reached>, TreeError>
    ensures same { T.told tree.new ≡ T.told tree.old }
    ensures tells { IfOk result (λ o. IfSome o (λ it. ForSome (T.told tree.old) (λ told. it ≡ reached_below told text.now name.now))) }
    ensures cause { HasCause TreeError.Fault (T.faults tree.old) (T.faults tree.new) result }
    ensures never_large { IsErrOf result TreeError.Large → ⊥ }
    ensures no_read { T.reads tree.new ≡ T.reads tree.old }
{
    match recall_child(alloc, tree, text, name)? {
        Recalled::Unknown => Ok(None),
        Recalled::Nowhere => Ok(Some(Reached::Nowhere)),
        Recalled::Child(path) => match tree.node(&path)? {
            None => Ok(Some(Reached::Nowhere)),
            Some(Node::File) => Ok(Some(Reached::Nowhere)),
            Some(Node::Link(_)) => Ok(None),
            Some(Node::Dir) => match nodes_and(alloc, tree, text, &path)? {
                Some((nodes, links)) => Ok(Some(Reached::Dir(path, nodes, links))),
                None => Ok(None),
            },
        },
    }
}

// Has the tree remember what the walk of a text reaches, where that isn't remembered yet and `look_below` tells it. Whether it does.
fn learn<T: Tree>(alloc: Global, tree: &mut T, text: &[u8]) -> Result<bool, TreeError>
    ensures same { T.told tree.new ≡ T.told tree.old }
    ensures cause { HasCause TreeError.Fault (T.faults tree.old) (T.faults tree.new) result }
    ensures never_large { IsErrOf result TreeError.Large → ⊥ }
    ensures no_read { T.reads tree.new ≡ T.reads tree.old }
{
    let (head, name) = cut_last(text);
    let Some(front) = head else {
        return Ok(false);
    };
    if tree.recall(text).is_some() {
        return Ok(false);
    }
    let Some(it) = look_below(alloc, tree, front, name)? else {
        return Ok(false);
    };
    tree.remember(Bytes::copy_of(alloc, text)?, it);
    Ok(true)
}

// Glances at a text, and once more where that tells nothing and what its front reaches is learnt.
pub(crate) fn glance_or_learn<T: Tree>(
    alloc: Global,
    tree: &mut T,
    from: &CanonPath,
    front: &[u8],
    name: &[u8],
) -> Result<Glanced, TreeError>
    ensures same { T.told tree.new ≡ T.told tree.old }
    ensures tells { IfOk result (λ it. ForSome (T.told tree.old) (λ told. TellsLocated it (located_below (entry_at told) (from.now ∷ [] ∷ []) (components front.now) name.now))) }
    ensures cause { HasCause TreeError.Fault (T.faults tree.old) (T.faults tree.new) result }
    ensures never_large { IsErrOf result TreeError.Large → ⊥ }
    ensures no_read { T.reads tree.new ≡ T.reads tree.old }
{
    let first = glance_at(alloc, tree, from, front, name)?;
    let Glanced::Unsure = first else {
        return Ok(first);
    };
    if !learn(alloc, tree, front)? {
        return Ok(Glanced::Unsure);
    }
    glance_at(alloc, tree, from, front, name)
}
