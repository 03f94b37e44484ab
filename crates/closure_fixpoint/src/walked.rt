// The nodes that were walked, each once, in order.
use indexmap::IndexSet;
use std::alloc::{AllocError, Global};
use std::marker::Model;
use tree_model::CanonPath;

// How many steps of a walk are remembered.
const STEPS: usize = 32;

/// A list of paths, in which each that is added stands once. To look for a path takes constant time on average.
///
/// Most walks begin as the one before did, with the directories that lead to a file. So the numbers of the paths at the steps of the last
/// walk are remembered, and a path that stands at its step again isn't looked for.
#[derive(Drop)]
pub struct Walked {
    paths: IndexSet<CanonPath>,
    // the number of the path that was added last at each step; any number, where none was
    last: [usize; STEPS],
    step: usize,
}

impl Model for Walked {
    ghost use Rattle.std.specs.Prelude.{List};
    ghost use Rattle.tree_model.specs.Paths.{Path};

    ghost Value = { List Path };

    ghost view = { λ w. w.paths.keys };
}

impl Walked {
    ghost use Rattle.std.specs.Prelude.{◌≡◌, ◌<◌, [], length, OnOk, Some, IsTrue};
    ghost use Rattle.std.specs.List.{list_any, slice_get};
    ghost use Rattle.tree_model.specs.Paths.{is_same_path};
    ghost use Rattle.closure_fixpoint.specs.parts.Walked.{with_path};

    // No paths.
    pub fn new(alloc: Global) -> Walked
        ensures { result ≡ [] }
    {
        Walked {
            paths: IndexSet::new(alloc),
            last: [0; 32],
            step: 0,
        }
    }

    // How many there are.
    pub fn len(&self) -> usize
        ensures { result ≡ length self.now }
    {
        self.paths.len()
    }

    // The path with a number, from 0.
    pub fn at(&self, number: usize) -> &CanonPath
        requires { number < length self.now }
        ensures { slice_get self.now number ≡ Some result.now }
    {
        match self.paths.get_index(number) {
            Some(path) => path,
            None => unreachable!(),
        }
    }

    // Whether a path is one of them.
    pub fn has(&self, path: &CanonPath) -> bool
        ensures { result ≡ list_any (is_same_path path.now) self.now }
    {
        self.paths.contains(path)
    }

    // Begins a walk: what is added next is its first step.
    pub fn begin(&mut self)
        ensures { self.new ≡ self.old }
    {
        self.step = 0;
    }

    // Adds a path behind the others, where it isn't one of them.
    pub fn add(&mut self, alloc: Global, path: &CanonPath) -> Result<(), AllocError>
        ensures { OnOk result (self.new ≡ with_path self.old path.now) }
    {
        let step = self.step % STEPS;
        self.step = step + 1;
        if self.is_at(path, self.last[step]) {
            return Ok(());
        }
        self.last[step] = self.number_of(alloc, path)?;
        Ok(())
    }

    // Whether this path has a number.
    fn is_at(&self, path: &CanonPath, number: usize) -> bool
        ensures { IsTrue result → IsTrue (list_any (is_same_path path.now) self.now) }
    {
        match self.paths.get_index(number) {
            Some(other) => path == other,
            None => false,
        }
    }

    // The number of a path, which is added behind the others where it isn't one of them.
    fn number_of(&mut self, alloc: Global, path: &CanonPath) -> Result<usize, AllocError>
        ensures { OnOk result (self.new ≡ with_path self.old path.now) }
    {
        if let Some(number) = self.paths.get_index_of(path) {
            return Ok(number);
        }
        let copy = path.copy(alloc)?;
        match self.paths.insert_full(copy) {
            Ok((number, _)) => return Ok(number),
            Err(_) => return Err(AllocError),
        }
    }
}
