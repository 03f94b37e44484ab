// Calls that are counted from 1, and fail where a list of numbers says so.
ghost use Rattle.std.specs.Prelude.{◌≡◌, ◌≤◌, ℕ, List, true, false};
ghost use Rattle.base_types.specs.Causes.{raised, Rose};
ghost use Rattle.base_types.specs.Members.{Member};
ghost use Rattle.base_types.specs.Calls.{made_of};

use crate::failing::Failing;
use std::marker::Model;

/// An object in memory that counts its calls from 1, and fails at those whose number is on a list.
pub trait Counted {
    /// How many calls were made.
    ghost calls: { Self → ℕ };

    /// The numbers of the calls that fail.
    ghost fails: { Self → List ℕ };
}

/// The calls of an object in memory: how many were made, the numbers of those that fail, and how many failed.
#[derive(Drop)]
pub struct Calls {
    made: u64,
    failing: Failing<u64>,
}

impl Model for Calls {
    ghost use Rattle.base_types.specs.Calls.{Made, made_of};

    ghost Value = { Made };

    ghost view = { λ c. made_of c.made c.failing.fails c.failing.faults };
}

impl Calls {
    /// No call was made yet.
    pub fn new(fails: Vec<u64>) -> Calls
        ensures { result ≡ made_of 0 fails.items 0 }
    {
        Calls {
            made: 0,
            failing: Failing::new(fails),
        }
    }

    /// Counts a call, and says whether it fails.
    pub fn next_fails(&mut self) -> bool
        ensures counted { self.new.made ≡ raised self.old.made }
        ensures same { self.new.fails ≡ self.old.fails }
        ensures listed { result ≡ true → Member self.new.made self.old.fails }
        ensures unlisted { result ≡ false → Member self.new.made self.old.fails → ⊥ }
        ensures later { self.old.faults ≤ self.new.faults }
        ensures rose { result ≡ true → Rose self.old.faults self.new.faults }
        ensures no_fault { result ≡ false → self.new.faults ≡ self.old.faults }
    {
        self.made = self.made.saturating_add(1);
        self.failing.fails_at(&self.made)
    }
}
