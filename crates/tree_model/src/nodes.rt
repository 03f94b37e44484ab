// The nodes of walks.
//
// Most of the files that searches find stand in few directories, and each is reached by way of its directory. So the nodes of the walk to a
// directory are kept once, and the walks of those files share them.
ghost use Rattle.std.specs.Prelude.{◌≡◌, ◌++◌, length, take, drop, [], IfOk, OnOk};

use crate::CanonPath;
use base_types::List;
use std::alloc::{AllocError, Global};
use std::marker::Model;
use std::sync::Arc;

/// Nodes in order, which walks share.
#[derive(Drop)]
pub struct SharedNodes {
    // None where there are none
    nodes: Option<Arc<List<CanonPath>, Global>>,
}

impl Model for SharedNodes {
    ghost use Rattle.std.specs.Prelude.{List};
    ghost use Rattle.tree_model.specs.Paths.{Path};
    ghost use Rattle.tree_model.specs.parts.Shared.{values_shared};

    ghost Value = { List Path };

    ghost view = { λ s. values_shared s.nodes };
}

impl SharedNodes {
    // None.
    pub(crate) fn none() -> SharedNodes
        ensures { result ≡ [] }
    {
        SharedNodes { nodes: None }
    }

    // Those of a list.
    pub(crate) fn of(alloc: Global, nodes: List<CanonPath>) -> Result<SharedNodes, AllocError>
        ensures { IfOk result (λ shared. shared ≡ nodes) }
    {
        Ok(SharedNodes {
            nodes: Some(Arc::new(alloc, nodes)?),
        })
    }

    // The same, shared once more. It takes no memory, and is refused only where they are shared 2^63 times.
    pub(crate) fn share(&self) -> Result<SharedNodes, AllocError>
        ensures { IfOk result (λ shared. shared ≡ self.now) }
    {
        match &self.nodes {
            None => Ok(SharedNodes { nodes: None }),
            Some(nodes) => Ok(SharedNodes {
                nodes: Some(Arc::try_clone(nodes)?),
            }),
        }
    }

    /// The nodes.
    pub fn as_slice(&self) -> &[CanonPath]
        ensures { result.now ≡ self.now }
    {
        match &self.nodes {
            None => &[],
            Some(nodes) => nodes.as_slice(),
        }
    }
}

/// The nodes of a walk, in order. Some of them may be shared with other walks.
#[derive(Drop)]
pub struct Nodes {
    // those that aren't shared
    own: List<CanonPath>,
    // how many of these stand in front of the shared ones: all, where it is more
    front: usize,
    shared: SharedNodes,
}

impl Model for Nodes {
    ghost use Rattle.std.specs.Prelude.{List, take, drop, ◌++◌};
    ghost use Rattle.tree_model.specs.Paths.{Path};

    ghost Value = { List Path };

    ghost view = { λ n. take n.front n.own ++ (n.shared ++ drop n.front n.own) };
}

impl Nodes {
    // Those of a list, with shared ones behind the first few.
    pub(crate) fn around(own: List<CanonPath>, front: usize, shared: SharedNodes) -> Nodes
        ensures { result ≡ take front own ++ (shared ++ drop front own) }
    {
        Nodes { own, front, shared }
    }

    /// How many they are.
    pub fn len(&self) -> usize
        ensures { result ≡ length self.now }
    {
        self.own.as_slice().len() + self.shared.as_slice().len()
    }

    /// A copy, which shares what this one does.
    pub fn copy(&self, alloc: Global) -> Result<Nodes, AllocError>
        ensures { IfOk result (λ copy. copy ≡ self.now) }
    {
        let mut own = List::of(Vec::with_capacity(alloc, self.own.len())?);
        push_copies(alloc, &mut own, self.own.as_slice())?;
        Ok(Nodes {
            own,
            front: self.front,
            shared: self.shared.share()?,
        })
    }

    /// The nodes, in three parts: those in front of the shared ones, these, and those behind them.
    pub fn parts(&self) -> (&[CanonPath], &[CanonPath], &[CanonPath])
        ensures { result.0.now ++ (result.1.now ++ result.2.now) ≡ self.now }
    {
        let own = self.own.as_slice();
        let (front, behind) = own.split_at(self.front.min(own.len()));
        (front, self.shared.as_slice(), behind)
    }
}

// Copies of paths behind others.
pub(crate) fn push_copies(
    alloc: Global,
    paths: &mut List<CanonPath>,
    more: &[CanonPath],
) -> Result<(), AllocError>
    ensures { OnOk result (paths.new ≡ paths.old ++ more.now) }
{
    for path in more {
        paths.push(path.copy(alloc)?)?;
    }
    Ok(())
}
