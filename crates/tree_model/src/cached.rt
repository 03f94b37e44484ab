// A tree that remembers the nodes of another.
ghost use Rattle.std.specs.Prelude.{◌≡◌, Option, None, Some, IfOk, IfSome, OnOk, OnErr, IsErrOf, Err};
ghost use Rattle.std.specs.Option.{ForSome};
ghost use Rattle.base_types.specs.Causes.{HasCause, raised};
ghost use Rattle.tree_model.specs.Paths.{Path};
ghost use Rattle.tree_model.specs.parts.Remembered.{RememberedNodes, known_in, IsTrueOf, IsTrueOf-prop, walks_known, AreTrueWalks, AreTrueWalks-prop};
ghost use Rattle.tree_model.specs.Reached.{reached};
ghost use Rattle.tree_model.specs.Trees.{FileTree, node_at, body_at, IsNode, IsBody, IsTooLarge};
ghost use Rattle.tree_model.specs.declared.entry.Node.{Node};

use crate::{CanonPath, Node, Reached, Tree, TreeError, Walks};
use base_types::Bytes;
use std::alloc::Global;
use std::collections::HashMap;

/// An object that remembers the nodes that a tree within it answered.
pub trait Remembers<T> {
    /// The tree within.
    ghost inner: { Self → T };

    /// The answer that is remembered at each path, where there is one.
    ghost known: { Self → RememberedNodes };
}

/// A tree that remembers the nodes that its inner tree answered, and what the walks of texts reached. It asks the inner tree for a path's node only where
/// it has no answer for it yet; a refusal isn't kept. Each `read` goes to the inner tree.
#[derive(Drop)]
pub struct Cached<T: Tree> {
    alloc: Global,
    tree: T,
    known: HashMap<CanonPath, Option<Node>>,
    walks: Walks,
    ghost true_walks: { AreTrueWalks (T.told tree) (walks_known walks) } by { AreTrueWalks-prop (T.told tree) (walks_known walks) },
    ghost true_of: { IsTrueOf (T.told tree) (known_in known) } by { IsTrueOf-prop (T.told tree) (known_in known) },
}

impl<T: Tree> Cached<T> {
    /// A tree over this one, that remembers nothing yet.
    pub fn over(alloc: Global, tree: T) -> Cached<T>
        ensures inner { ⟦<Cached<T> as Remembers<T>>⟧.inner result ≡ tree }
        ensures told { ⟦<Cached<T> as Tree>⟧.told result ≡ T.told tree }
        ensures faults { ⟦<Cached<T> as Tree>⟧.faults result ≡ T.faults tree }
        ensures reads { ⟦<Cached<T> as Tree>⟧.reads result ≡ T.reads tree }
        ensures known { (path : Path) → ⟦<Cached<T> as Remembers<T>>⟧.known result path ≡ None }
    {
        Cached {
            alloc,
            tree,
            known: HashMap::new(alloc),
            walks: Walks::new(alloc),
        }
    }

    /// The inner tree.
    pub fn into_inner(self) -> T
        ensures inner { result ≡ ⟦<Cached<T> as Remembers<T>>⟧.inner self }
        ensures told { T.told result ≡ ⟦<Cached<T> as Tree>⟧.told self }
        ensures faults { T.faults result ≡ ⟦<Cached<T> as Tree>⟧.faults self }
        ensures reads { T.reads result ≡ ⟦<Cached<T> as Tree>⟧.reads self }
    {
        self.tree
    }
}

// A copy of an answer.
fn copied(alloc: Global, got: &Option<Node>) -> Result<Option<Node>, TreeError>
    ensures ok { IfOk result (λ copy. copy ≡ got.now) }
    ensures err { (e : _) → result ≡ Err e → e ≡ TreeError.Memory }
{
    let Some(node) = got else {
        return Ok(None);
    };
    match node {
        Node::Dir => Ok(Some(Node::Dir)),
        Node::File => Ok(Some(Node::File)),
        Node::Link(text) => match Bytes::copy_of(alloc, text.as_slice()) {
            Ok(copy) => Ok(Some(Node::Link(copy))),
            Err(_) => Err(TreeError::Memory),
        },
    }
}

// Adds an answer to those that are remembered.
fn remember(
    alloc: Global,
    known: &mut HashMap<CanonPath, Option<Node>>,
    path: &CanonPath,
    got: &Option<Node>,
) -> Result<(), TreeError>
    ensures learnt { OnOk result (known_in known.new path.now ≡ Some got.now) }
    ensures others { (other : Path) → (other ≡ path.now → ⊥) → known_in known.new other ≡ known_in known.old other }
    ensures refused { OnErr result (known_in known.new ≡ known_in known.old) }
    ensures true_of { (told told' : Option FileTree) → IsTrueOf told (known_in known.old) → told' ≡ told → IsNode got.now → IfSome told (λ tree. got.now ≡ node_at tree path.now) → IsTrueOf told' (known_in known.new) }
    ensures memory { (e : _) → result ≡ Err e → e ≡ TreeError.Memory }
{
    let copy = copied(alloc, got)?;
    let key = path.copy(alloc)?;
    known.insert(key, copy)?;
    Ok(())
}

impl<T: Tree> Remembers<T> for Cached<T> {
    ghost inner = { λ c. c.tree };

    ghost known = { λ c. known_in c.known };
}

impl<T: Tree> Tree for Cached<T> {
    type Of = T::Of;

    ghost told = { λ c. T.told c.tree };

    ghost faults = { λ c. T.faults c.tree };

    ghost reads = { λ c. T.reads c.tree };

    ghost tells = { λ c tree named. T.tells c.tree tree named };

    ghost whole = { λ c tree told. T.whole c.tree tree told };

    fn node(&mut self, path: &CanonPath) -> Result<Option<Node>, TreeError>
        ensures same { ⟦<Cached<T> as Tree>⟧.told self.new ≡ ⟦<Cached<T> as Tree>⟧.told self.old }
        ensures answer { IfSome (⟦<Cached<T> as Tree>⟧.told self.old) (λ tree. IfOk result (λ got. got ≡ node_at tree path.now)) }
        ensures form { IfOk result IsNode }
        ensures never_large { IsErrOf result TreeError.Large → ⊥ }
        ensures cause { HasCause TreeError.Fault (⟦<Cached<T> as Tree>⟧.faults self.old) (⟦<Cached<T> as Tree>⟧.faults self.new) result }
        ensures no_read { ⟦<Cached<T> as Tree>⟧.reads self.new ≡ ⟦<Cached<T> as Tree>⟧.reads self.old }
        ensures learnt { IfOk result (λ got. ⟦<Cached<T> as Remembers<T>>⟧.known self.new path.now ≡ Some got) }
        ensures others { (other : Path) → (other ≡ path.now → ⊥) → ⟦<Cached<T> as Remembers<T>>⟧.known self.new other ≡ ⟦<Cached<T> as Remembers<T>>⟧.known self.old other }
        ensures kept { (other : Path) (answer : Option Node) → ⟦<Cached<T> as Remembers<T>>⟧.known self.old other ≡ Some answer → ⟦<Cached<T> as Remembers<T>>⟧.known self.new other ≡ Some answer }
        ensures refused { OnErr result (⟦<Cached<T> as Remembers<T>>⟧.known self.new ≡ ⟦<Cached<T> as Remembers<T>>⟧.known self.old) }
        ensures recalled { (answer : Option Node) → ⟦<Cached<T> as Remembers<T>>⟧.known self.old path.now ≡ Some answer → IfOk result (λ got. got ≡ answer) }
        ensures only_memory { (answer : Option Node) → ⟦<Cached<T> as Remembers<T>>⟧.known self.old path.now ≡ Some answer → IsErrOf result TreeError.Fault → ⊥ }
        ensures unasked { (answer : Option Node) → ⟦<Cached<T> as Remembers<T>>⟧.known self.old path.now ≡ Some answer → ⟦<Cached<T> as Remembers<T>>⟧.inner self.new ≡ ⟦<Cached<T> as Remembers<T>>⟧.inner self.old }
    {
        if let Some(known) = self.known.get(path) {
            return copied(self.alloc, known);
        }
        let got = self.tree.node(path)?;
        remember(self.alloc, &mut self.known, path, &got)?;
        Ok(got)
    }

    fn recall(&self, text: &[u8]) -> Option<&Reached> {
        self.walks.get(text)
    }

    fn remember(&mut self, text: Bytes, it: Reached)
        requires { IfSome (⟦<Cached<T> as Tree>⟧.told self.old) (λ tree. it ≡ reached tree text) }
        ensures same { ⟦<Cached<T> as Tree>⟧.told self.new ≡ ⟦<Cached<T> as Tree>⟧.told self.old }
        ensures no_fault { ⟦<Cached<T> as Tree>⟧.faults self.new ≡ ⟦<Cached<T> as Tree>⟧.faults self.old }
        ensures no_read { ⟦<Cached<T> as Tree>⟧.reads self.new ≡ ⟦<Cached<T> as Tree>⟧.reads self.old }
        ensures inner { ⟦<Cached<T> as Remembers<T>>⟧.inner self.new ≡ ⟦<Cached<T> as Remembers<T>>⟧.inner self.old }
        ensures known { ⟦<Cached<T> as Remembers<T>>⟧.known self.new ≡ ⟦<Cached<T> as Remembers<T>>⟧.known self.old }
    {
        self.walks.put(text, it);
    }

    fn read(&mut self, path: &CanonPath) -> Result<Option<Bytes>, TreeError>
        ensures same { ⟦<Cached<T> as Tree>⟧.told self.new ≡ ⟦<Cached<T> as Tree>⟧.told self.old }
        ensures answer { IfSome (⟦<Cached<T> as Tree>⟧.told self.old) (λ tree. IfOk result (λ got. got ≡ body_at tree path.now)) }
        ensures form { IfOk result IsBody }
        ensures large { IfSome (⟦<Cached<T> as Tree>⟧.told self.old) (λ tree. IsErrOf result TreeError.Large → IsTooLarge tree path.now) }
        ensures cause { HasCause TreeError.Fault (⟦<Cached<T> as Tree>⟧.faults self.old) (⟦<Cached<T> as Tree>⟧.faults self.new) result }
        ensures one_read { ⟦<Cached<T> as Tree>⟧.reads self.new ≡ raised (⟦<Cached<T> as Tree>⟧.reads self.old) }
        ensures known { ⟦<Cached<T> as Remembers<T>>⟧.known self.new ≡ ⟦<Cached<T> as Remembers<T>>⟧.known self.old }
    {
        self.tree.read(path)
    }
}
