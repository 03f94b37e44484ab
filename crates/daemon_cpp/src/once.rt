// The files that are read once.
ghost use Rattle.std.specs.Prelude.{◌≡◌, ◌||◌, [], OnOk};
ghost use Rattle.std.specs.List.{list_any};
ghost use Rattle.tree_model.specs.Paths.{Path, is_same_path};

use indexmap::IndexSet;
use std::alloc::{AllocError, Global};
use std::marker::Model;
use tree_model::CanonPath;

/// The real paths of the files that are read once (`#pragma once`). A look-up takes constant time on average.
#[derive(Drop)]
pub struct OnceMarks {
    paths: IndexSet<CanonPath>,
}

impl Model for OnceMarks {
    ghost use Rattle.std.specs.Prelude.{ℕ, List};

    ghost Value = { List (List (List ℕ)) };

    ghost view = { λ m. m.paths.keys };
}

impl OnceMarks {
    pub fn new(alloc: Global) -> OnceMarks
        ensures { result ≡ [] }
    {
        OnceMarks {
            paths: IndexSet::new(alloc),
        }
    }

    /// Whether a path is marked.
    pub fn contains(&self, path: &CanonPath) -> bool
        ensures { result ≡ list_any (is_same_path path.now) self.now }
    {
        self.paths.contains(path)
    }

    /// Marks a path.
    pub fn mark(&mut self, alloc: Global, path: &CanonPath) -> Result<(), AllocError>
        ensures { OnOk result ((other : Path) → list_any (is_same_path other) self.new ≡ (is_same_path other path.now || list_any (is_same_path other) self.old)) }
    {
        let Ok(_) = self.paths.insert(path.copy(alloc)?) else {
            return Err(AllocError);
        };
        Ok(())
    }
}
