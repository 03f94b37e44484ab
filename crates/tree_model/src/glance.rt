// Glances: what a tree remembers of a directory, and one look at it, tell of a text.
//
// The texts of a search begin with `/`, stand below few directories, and many lead nowhere. So what the walk of a text up to its last `/`
// reached is remembered (reached.rt), and from then on a copy of the directory's path and one look tell whether a file is there. The nodes
// walked are wanted where one is: those of the walk that is remembered are shared.
ghost use Rattle.std.specs.Prelude.{◌≡◌, ◌∷◌, ◌++◌, List, [], IfOk, IfSome, IsErrOf};
ghost use Rattle.std.specs.Option.{ForSome};
ghost use Rattle.base_types.specs.Causes.{HasCause};
ghost use Rattle.base_types.specs.Limits.{link_limit};
ghost use Rattle.tree_model.specs.Paths.{Path};
ghost use Rattle.tree_model.specs.Trees.{entry_at};
ghost use Rattle.tree_model.specs.Walk.{components, walk};
ghost use Rattle.tree_model.specs.Reached.{reached};
ghost use Rattle.tree_model.specs.parts.Glances.{Recalls, Tells, TellsLocated, located_below};

use crate::nodes::Nodes;
use crate::walk::nodes_before;
use crate::{CanonPath, Located, Node, Reached, Tree, TreeError};
use std::alloc::{AllocError, Global};

// What a glance tells of a name below a text: that it locates nothing, or a file to which no link leads from there, or neither.
#[derive(Drop)]
enum Glance {
    Unsure,
    Missing,
    File(CanonPath),
}

// What a glance tells of a text: that it locates nothing, a file, or neither.
#[derive(Drop)]
pub(crate) enum Glanced {
    Unsure,
    Missing,
    File(Located),
}

// The path of a name in the directory that the walk of a text reached, as far as that is remembered and the name makes one.
#[derive(Drop)]
pub(crate) enum Recalled {
    Unknown,
    Nowhere,
    Child(CanonPath),
}

pub(crate) fn recall_child<T: Tree>(
    alloc: Global,
    tree: &T,
    text: &[u8],
    name: &[u8],
) -> Result<Recalled, AllocError>
    ensures { IfOk result (λ it. ForSome (T.told tree.now) (λ told. Recalls (reached told text.now) name.now it)) }
{
    match tree.recall(text) {
        None => Ok(Recalled::Unknown),
        Some(Reached::Nowhere) => Ok(Recalled::Nowhere),
        Some(Reached::Dir(dir, _, _)) => match dir.child(alloc, name)? {
            Some(path) => Ok(Recalled::Child(path)),
            None => Ok(Recalled::Unknown),
        },
    }
}

// Glances at a name below a text.
fn glance_below<T: Tree>(
    alloc: Global,
    tree: &mut T,
    text: &[u8],
    name: &[u8],
) -> Result<Glance, TreeError>
    ensures same { T.told tree.new ≡ T.told tree.old }
    ensures tells { IfOk result (λ it. ForSome (T.told tree.old) (λ told. (before : List Path) →
        Tells (before ++ (walk (entry_at told) link_limit [] (components text.now)).nodes) it (located_below (entry_at told) before (components text.now) name.now))) }
    ensures cause { HasCause TreeError.Fault (T.faults tree.old) (T.faults tree.new) result }
    ensures never_large { IsErrOf result TreeError.Large → ⊥ }
    ensures no_read { T.reads tree.new ≡ T.reads tree.old }
{
    match recall_child(alloc, tree, text, name)? {
        Recalled::Unknown => Ok(Glance::Unsure),
        Recalled::Nowhere => Ok(Glance::Missing),
        Recalled::Child(path) => match tree.node(&path)? {
            None => Ok(Glance::Missing),
            Some(Node::File) => Ok(Glance::File(path)),
            Some(_) => Ok(Glance::Unsure),
        },
    }
}

// The nodes of a walk that is remembered, behind the directory that the text was asked from and the root, and a path behind them.
fn nodes_to<T: Tree>(
    alloc: Global,
    tree: &T,
    from: &CanonPath,
    text: &[u8],
    path: &CanonPath,
) -> Result<Option<Nodes>, AllocError>
    ensures { IfOk result (λ o. IfSome o (λ nodes. ForSome (T.told tree.now) (λ told.
        nodes ≡ ((from.now ∷ [] ∷ []) ++ (walk (entry_at told) link_limit [] (components text.now)).nodes) ++ path.now ∷ []))) }
{
    let Some(Reached::Dir(_, walked, _)) = tree.recall(text) else {
        return Ok(None);
    };
    let shared = walked.share()?;
    let mut own = nodes_before(alloc, from)?;
    let front = own.len();
    own.push(path.copy(alloc)?)?;
    Ok(Some(Nodes::around(own, front, shared)))
}

// Glances at a text: at the name below what stands before its last `/`.
pub(crate) fn glance_at<T: Tree>(
    alloc: Global,
    tree: &mut T,
    from: &CanonPath,
    front: &[u8],
    name: &[u8],
) -> Result<Glanced, TreeError>
    ensures same { T.told tree.new ≡ T.told tree.old }
    ensures tells { IfOk result (λ it. ForSome (T.told tree.old) (λ told. TellsLocated it (located_below (entry_at told) (from.now ∷ [] ∷ []) (components front.now) name.now))) }
    ensures cause { HasCause TreeError.Fault (T.faults tree.old) (T.faults tree.new) result }
    ensures never_large { IsErrOf result TreeError.Large → ⊥ }
    ensures no_read { T.reads tree.new ≡ T.reads tree.old }
{
    match glance_below(alloc, tree, front, name)? {
        Glance::Missing => Ok(Glanced::Missing),
        Glance::Unsure => Ok(Glanced::Unsure),
        Glance::File(real) => match nodes_to(alloc, tree, from, front, &real)? {
            Some(walked) => {
                let place = real.copy(alloc)?;
                Ok(Glanced::File(Located {
                    place,
                    real,
                    walked,
                }))
            }
            None => Ok(Glanced::Unsure),
        },
    }
}
