// The tree of a request's entries.
ghost use Rattle.std.specs.Prelude.{◌≡◌, None, Some, IfOk, IfErr, IfSome, OnOk, OnErr, IsErrOf, IsTrue};
ghost use Rattle.std.proofs.lemmas.Option.{none-some};
ghost use Rattle.base_types.specs.Causes.{HasCause, raised};
ghost use Rattle.tree_model.specs.Entries.{bodies_fit, links_fit, makes_tree, mirror_error};
ghost use Rattle.tree_model.specs.parts.Placed.{all_placed};
ghost use Rattle.tree_model.specs.parts.Remembered.{walks_known, AreTrueWalks, AreTrueWalks-prop};
ghost use Rattle.tree_model.specs.Trees.{tree_of, node_at, body_at, BodiesAreSmall, BodiesAreSmall-prop, IsBody, IsLinkAt, IsNode, IsTooLarge, IsTree, IsTree-prop, told_whole};

use base_types::{Bytes, List};
use std::alloc::Global;
use tree_model::{
    CanonPath, Entry, MirrorError, Node, Places, Reached, Tree, TreeError, Unnamed, Walks, copied,
    entry_at, fitting_bodies_are_small, judge_entries, lists_make_trees,
};

/// The tree of a request's entries and the root. It tells its content, has no faults, and keeps the list that it is
/// given. Lookups take constant time, and what walks reached is remembered.
#[derive(Drop)]
pub struct Mirror {
    alloc: Global,
    entries: List<(CanonPath, Entry)>,
    places: Places,
    reads: u64,
    walks: Walks,
    ghost made: { IsTrue (makes_tree entries) },
    ghost placed: { IsTrue (all_placed places.known entries) },
    ghost is_tree: { IsTree (tree_of entries) } by { IsTree-prop (tree_of entries) },
    ghost small: { BodiesAreSmall (tree_of entries) } by { BodiesAreSmall-prop (tree_of entries) },
    ghost true_walks: { AreTrueWalks (Some (tree_of entries)) (walks_known walks) } by { AreTrueWalks-prop (Some (tree_of entries)) (walks_known walks) },
}

impl Mirror {
    /// The tree of entries that make one and the root, of which no file was read. It keeps the allocator for the copies that
    /// `read`, and `node` of a link, hand out.
    pub fn of(alloc: Global, entries: List<(CanonPath, Entry)>) -> Mirror
        requires made { IsTrue (makes_tree entries) }
        requires bodies { IsTrue (bodies_fit entries) }
        ensures told { ⟦<Mirror as Tree>⟧.told result ≡ Some (tree_of entries) }
        ensures faults { ⟦<Mirror as Tree>⟧.faults result ≡ 0 }
        ensures reads { ⟦<Mirror as Tree>⟧.reads result ≡ 0 }
    {
        lists_make_trees();
        fitting_bodies_are_small();
        let places = Places::of(alloc, entries.as_slice());
        Mirror {
            alloc,
            entries,
            places,
            reads: 0,
            walks: Walks::new(alloc),
        }
    }

    /// The same of entries that may make none: `Order` exactly where the paths' spellings don't increase strictly; else
    /// `Parent` exactly where a path is the root, or its parent is neither the root nor a directory before it.
    pub fn build(alloc: Global, entries: List<(CanonPath, Entry)>) -> Result<Mirror, MirrorError>
        requires links { IsTrue (links_fit entries) }
        requires bodies { IsTrue (bodies_fit entries) }
        ensures told { IfOk result (λ mirror. ⟦<Mirror as Tree>⟧.told mirror ≡ Some (tree_of entries)) }
        ensures faults { IfOk result (λ mirror. ⟦<Mirror as Tree>⟧.faults mirror ≡ 0) }
        ensures reads { IfOk result (λ mirror. ⟦<Mirror as Tree>⟧.reads mirror ≡ 0) }
        ensures ok { OnOk result (mirror_error entries ≡ None) }
        ensures error { IfErr result (λ e. mirror_error entries ≡ Some e) }
    {
        if let Some(error) = judge_entries(entries.as_slice()) {
            return Err(error);
        }
        Ok(Mirror::of(alloc, entries))
    }
}

impl Tree for Mirror {
    type Of = Unnamed;

    ghost told = { λ m. Some (tree_of m.entries) };

    ghost faults = { λ _. 0 };

    ghost reads = { λ m. m.reads };

    ghost tells = { λ m tree named. absurd (none-some tree named) };

    ghost whole = { λ m tree told. told_whole (tree_of m.entries) tree m.is_tree told };

    fn node(&mut self, path: &CanonPath) -> Result<Option<Node>, TreeError>
        ensures same { ⟦<Mirror as Tree>⟧.told self.new ≡ ⟦<Mirror as Tree>⟧.told self.old }
        ensures answer { IfSome (⟦<Mirror as Tree>⟧.told self.old) (λ tree. IfOk result (λ got. got ≡ node_at tree path.now)) }
        ensures form { IfOk result IsNode }
        ensures never_large { IsErrOf result TreeError.Large → ⊥ }
        ensures cause { HasCause TreeError.Fault (⟦<Mirror as Tree>⟧.faults self.old) (⟦<Mirror as Tree>⟧.faults self.new) result }
        ensures no_read { ⟦<Mirror as Tree>⟧.reads self.new ≡ ⟦<Mirror as Tree>⟧.reads self.old }
        ensures never_fault { IsErrOf result TreeError.Fault → ⊥ }
        ensures only_links { IfSome (⟦<Mirror as Tree>⟧.told self.old) (λ tree. OnErr result (IsLinkAt tree path.now)) }
    {
        let root = Entry::Dir;
        match entry_at(&root, self.entries.as_slice(), &self.places, path) {
            None => Ok(None),
            Some(entry) => Ok(Some(entry.shown(self.alloc)?)),
        }
    }

    fn recall(&self, text: &[u8]) -> Option<&Reached> {
        self.walks.get(text)
    }

    fn remember(&mut self, text: Bytes, it: Reached) {
        self.walks.put(text, it);
    }

    fn read(&mut self, path: &CanonPath) -> Result<Option<Bytes>, TreeError>
        ensures same { ⟦<Mirror as Tree>⟧.told self.new ≡ ⟦<Mirror as Tree>⟧.told self.old }
        ensures answer { IfSome (⟦<Mirror as Tree>⟧.told self.old) (λ tree. IfOk result (λ got. got ≡ body_at tree path.now)) }
        ensures form { IfOk result IsBody }
        ensures large { IfSome (⟦<Mirror as Tree>⟧.told self.old) (λ tree. IsErrOf result TreeError.Large → IsTooLarge tree path.now) }
        ensures cause { HasCause TreeError.Fault (⟦<Mirror as Tree>⟧.faults self.old) (⟦<Mirror as Tree>⟧.faults self.new) result }
        ensures one_read { ⟦<Mirror as Tree>⟧.reads self.new ≡ raised (⟦<Mirror as Tree>⟧.reads self.old) }
        ensures never_fault { IsErrOf result TreeError.Fault → ⊥ }
        ensures never_large { IsErrOf result TreeError.Large → ⊥ }
    {
        self.reads = self.reads.saturating_add(1);
        let root = Entry::Dir;
        match entry_at(&root, self.entries.as_slice(), &self.places, path) {
            None => Ok(None),
            Some(entry) => match entry {
                Entry::Dir => Ok(None),
                Entry::File(body) => Ok(Some(copied(self.alloc, body)?)),
                Entry::Link(_) => Ok(None),
            },
        }
    }
}
