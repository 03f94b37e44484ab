// A tree in memory, with a list of the numbers of the calls that fail.
ghost use Rattle.std.specs.Prelude.{◌≡◌, None, Some, IfOk, IfErr, IfSome, OnOk, IsErrOf, Err, IsTrue};
ghost use Rattle.std.specs.Option.{option_map};
ghost use Rattle.std.proofs.Common.{ap};
ghost use Rattle.base_types.specs.Calls.{FailsAsListed};
ghost use Rattle.base_types.specs.Causes.{HasCause, raised};
ghost use Rattle.tree_model.specs.Entries.{links_fit, makes_tree, mirror_error};
ghost use Rattle.tree_model.specs.Reached.{reached};
ghost use Rattle.tree_model.specs.parts.Placed.{all_placed};
ghost use Rattle.tree_model.specs.parts.Remembered.{walks_known, AreTrueWalks, AreTrueWalks-prop};
ghost use Rattle.tree_model.specs.Trees as trees;
ghost use Rattle.tree_model.specs.Trees.{tree_of, node_at, body_at, IsNode, IsBody, IsTooLarge, IsTree, IsTree-prop, NamesOnly, NamesOnly-prop, told_whole};
ghost use Rattle.tree_model.specs.declared.entry.Entry.TheVariants.{Dir};

use crate::order::judge_entries;
use crate::{
    CanonPath, Entry, Frozen, Node, Places, Reached, Tree, TreeError, Walks, lists_make_trees,
};
use base_types::{Bytes, Calls, Counted};
use std::alloc::Global;
use std::marker::PhantomData;

/// Why a list of entries makes no tree. `Order`: the paths' spellings don't increase strictly. `Parent`: else, a
/// path is the root, or its parent is neither the root nor a directory before it.
#[derive(Clone, Copy, Debug, PartialEq, Eq, Drop)]
pub enum MirrorError {
    Order,
    Parent,
}

/// A tree in memory. The calls of `node` and `read` are counted from 1, and those whose number is in `fails` answer a fault. What walks
/// reached is remembered.
#[derive(Drop)]
pub struct MemTree<F: Frozen> {
    alloc: Global,
    entries: Vec<(CanonPath, Entry)>,
    places: Places,
    calls: Calls,
    reads: u64,
    walks: Walks,
    of: PhantomData<F>,
    ghost made: { IsTrue (makes_tree entries.items) },
    ghost placed: { IsTrue (all_placed places.known entries.items) },
    ghost is_tree: { IsTree (tree_of entries.items) } by { IsTree-prop (tree_of entries.items) },
    ghost true_walks: { AreTrueWalks (Some (tree_of entries.items)) (walks_known walks) } by { AreTrueWalks-prop (Some (tree_of entries.items)) (walks_known walks) },
    ghost names_this: { NamesOnly F.named (tree_of entries.items) } by { NamesOnly-prop F.named (tree_of entries.items) },
}

impl<F: Frozen> MemTree<F> {
    /// The tree of these entries and the root, at which no call was made; or the first of the two reasons why they
    /// make none. It keeps the allocator for its answers.
    pub fn new(
        alloc: Global,
        entries: Vec<(CanonPath, Entry)>,
        fails: Vec<u64>,
    ) -> Result<MemTree<F>, MirrorError>
        requires names { NamesOnly F.named (tree_of entries.items) }
        requires links { IsTrue (links_fit entries.items) }
        ensures told { IfOk result (λ tree. ⟦<MemTree<F> as Tree>⟧.told tree ≡ Some (tree_of entries.items)) }
        ensures faults { IfOk result (λ tree. ⟦<MemTree<F> as Tree>⟧.faults tree ≡ 0) }
        ensures reads { IfOk result (λ tree. ⟦<MemTree<F> as Tree>⟧.reads tree ≡ 0) }
        ensures calls { IfOk result (λ tree. ⟦<MemTree<F> as Counted>⟧.calls tree ≡ 0) }
        ensures fails { IfOk result (λ tree. ⟦<MemTree<F> as Counted>⟧.fails tree ≡ fails.items) }
        ensures ok { OnOk result (mirror_error entries.items ≡ None) }
        ensures error { IfErr result (λ e. mirror_error entries.items ≡ Some e) }
    {
        lists_make_trees();
        if let Some(error) = judge_entries(entries.as_slice()) {
            return Err(error);
        }
        let places = Places::of(alloc, entries.as_slice());
        Ok(MemTree {
            alloc,
            entries,
            places,
            calls: Calls::new(fails),
            reads: 0,
            walks: Walks::new(alloc),
            of: PhantomData,
        })
    }

    /// How many calls of `read` there were.
    pub fn reads(&self) -> u64
        ensures { result ≡ ⟦<MemTree<F> as Tree>⟧.reads self.now }
    {
        self.reads
    }
}

/// What the tree of the entries has at a path: at `/` the root that is given, a directory.
pub fn entry_at<'a>(
    root: &'a Entry,
    entries: &'a [(CanonPath, Entry)],
    places: &Places,
    path: &CanonPath,
) -> Option<&'a Entry>
    requires root { root.now ≡ Dir }
    requires made { IsTrue (makes_tree entries.now) }
    requires placed { IsTrue (all_placed places.now.known entries.now) }
    ensures { option_map (λ entry. entry.now) result ≡ trees.entry_at (tree_of entries.now) path.now }
{
    if path.is_root() {
        return Some(root);
    }
    places.entry(entries, path.bytes())
}

// The node that the tree of the entries has at a path, if one is there.
fn node_among(
    alloc: Global,
    entries: &[(CanonPath, Entry)],
    places: &Places,
    path: &CanonPath,
) -> Result<Option<Node>, TreeError>
    requires made { IsTrue (makes_tree entries.now) }
    requires placed { IsTrue (all_placed places.now.known entries.now) }
    requires whole { IsTree (tree_of entries.now) }
    ensures answer { IfOk result (λ got. got ≡ node_at (tree_of entries.now) path.now) }
    ensures form { IfOk result IsNode }
    ensures memory { (e : _) → result ≡ Err e → e ≡ TreeError.Memory }
{
    let root = Entry::Dir;
    match entry_at(&root, entries, places, path) {
        None => Ok(None),
        Some(entry) => Ok(Some(entry.shown(alloc)?)),
    }
}

// The body of the file that the tree of the entries has at a path, if one is there.
fn body_among(
    alloc: Global,
    entries: &[(CanonPath, Entry)],
    places: &Places,
    path: &CanonPath,
) -> Result<Option<Bytes>, TreeError>
    requires made { IsTrue (makes_tree entries.now) }
    requires placed { IsTrue (all_placed places.now.known entries.now) }
    ensures answer { IfOk result (λ got. got ≡ body_at (tree_of entries.now) path.now) }
    ensures form { IfOk result IsBody }
    ensures large { IsErrOf result TreeError.Large → IsTooLarge (tree_of entries.now) path.now }
    ensures no_fault { IsErrOf result TreeError.Fault → ⊥ }
{
    let root = Entry::Dir;
    match entry_at(&root, entries, places, path) {
        None => Ok(None),
        Some(entry) => entry.body(alloc),
    }
}

impl<F: Frozen> Counted for MemTree<F> {
    ghost calls = { λ m. m.calls.made };

    ghost fails = { λ m. m.calls.fails };
}

impl<F: Frozen> Tree for MemTree<F> {
    type Of = F;

    ghost told = { λ m. Some (tree_of m.entries.items) };

    ghost faults = { λ m. m.calls.faults };

    ghost reads = { λ m. m.reads };

    ghost tells = { λ m tree named. ap Some (m.names_this tree named) };

    ghost whole = { λ m tree told. told_whole (tree_of m.entries.items) tree m.is_tree told };

    fn node(&mut self, path: &CanonPath) -> Result<Option<Node>, TreeError>
        ensures same { ⟦<MemTree<F> as Tree>⟧.told self.new ≡ ⟦<MemTree<F> as Tree>⟧.told self.old }
        ensures answer { IfSome (⟦<MemTree<F> as Tree>⟧.told self.old) (λ tree. IfOk result (λ got. got ≡ node_at tree path.now)) }
        ensures form { IfOk result IsNode }
        ensures never_large { IsErrOf result TreeError.Large → ⊥ }
        ensures cause { HasCause TreeError.Fault (⟦<MemTree<F> as Tree>⟧.faults self.old) (⟦<MemTree<F> as Tree>⟧.faults self.new) result }
        ensures no_fault { (IsErrOf result TreeError.Fault → ⊥) → ⟦<MemTree<F> as Tree>⟧.faults self.new ≡ ⟦<MemTree<F> as Tree>⟧.faults self.old }
        ensures no_read { ⟦<MemTree<F> as Tree>⟧.reads self.new ≡ ⟦<MemTree<F> as Tree>⟧.reads self.old }
        ensures counted { ⟦<MemTree<F> as Counted>⟧.calls self.new ≡ raised (⟦<MemTree<F> as Counted>⟧.calls self.old) }
        ensures listed { FailsAsListed TreeError.Fault (⟦<MemTree<F> as Counted>⟧.fails self.old) (⟦<MemTree<F> as Counted>⟧.calls self.new) result }
        ensures same_list { ⟦<MemTree<F> as Counted>⟧.fails self.new ≡ ⟦<MemTree<F> as Counted>⟧.fails self.old }
    {
        if self.calls.next_fails() {
            return Err(TreeError::Fault);
        }
        node_among(self.alloc, &self.entries, &self.places, path)
    }

    fn recall(&self, text: &[u8]) -> Option<&Reached> {
        self.walks.get(text)
    }

    fn remember(&mut self, text: Bytes, it: Reached)
        requires { IfSome (⟦<MemTree<F> as Tree>⟧.told self.old) (λ tree. it ≡ reached tree text) }
        ensures same { ⟦<MemTree<F> as Tree>⟧.told self.new ≡ ⟦<MemTree<F> as Tree>⟧.told self.old }
        ensures no_fault { ⟦<MemTree<F> as Tree>⟧.faults self.new ≡ ⟦<MemTree<F> as Tree>⟧.faults self.old }
        ensures no_read { ⟦<MemTree<F> as Tree>⟧.reads self.new ≡ ⟦<MemTree<F> as Tree>⟧.reads self.old }
        ensures uncounted { ⟦<MemTree<F> as Counted>⟧.calls self.new ≡ ⟦<MemTree<F> as Counted>⟧.calls self.old }
        ensures same_list { ⟦<MemTree<F> as Counted>⟧.fails self.new ≡ ⟦<MemTree<F> as Counted>⟧.fails self.old }
    {
        self.walks.put(text, it);
    }

    fn read(&mut self, path: &CanonPath) -> Result<Option<Bytes>, TreeError>
        ensures same { ⟦<MemTree<F> as Tree>⟧.told self.new ≡ ⟦<MemTree<F> as Tree>⟧.told self.old }
        ensures answer { IfSome (⟦<MemTree<F> as Tree>⟧.told self.old) (λ tree. IfOk result (λ got. got ≡ body_at tree path.now)) }
        ensures form { IfOk result IsBody }
        ensures large { IfSome (⟦<MemTree<F> as Tree>⟧.told self.old) (λ tree. IsErrOf result TreeError.Large → IsTooLarge tree path.now) }
        ensures cause { HasCause TreeError.Fault (⟦<MemTree<F> as Tree>⟧.faults self.old) (⟦<MemTree<F> as Tree>⟧.faults self.new) result }
        ensures no_fault { (IsErrOf result TreeError.Fault → ⊥) → ⟦<MemTree<F> as Tree>⟧.faults self.new ≡ ⟦<MemTree<F> as Tree>⟧.faults self.old }
        ensures one_read { ⟦<MemTree<F> as Tree>⟧.reads self.new ≡ raised (⟦<MemTree<F> as Tree>⟧.reads self.old) }
        ensures counted { ⟦<MemTree<F> as Counted>⟧.calls self.new ≡ raised (⟦<MemTree<F> as Counted>⟧.calls self.old) }
        ensures listed { FailsAsListed TreeError.Fault (⟦<MemTree<F> as Counted>⟧.fails self.old) (⟦<MemTree<F> as Counted>⟧.calls self.new) result }
        ensures same_list { ⟦<MemTree<F> as Counted>⟧.fails self.new ≡ ⟦<MemTree<F> as Counted>⟧.fails self.old }
    {
        self.reads = self.reads.saturating_add(1);
        if self.calls.next_fails() {
            return Err(TreeError::Fault);
        }
        body_among(self.alloc, &self.entries, &self.places, path)
    }
}
