// Calls that fail where a list says so, and are counted where they do.
ghost use Rattle.std.specs.Prelude.{◌≡◌, ◌≤◌, true, false};
ghost use Rattle.base_types.specs.Causes.{Rose};
ghost use Rattle.base_types.specs.Members.{Member};
ghost use Rattle.base_types.specs.Calls.{failures_of, TellsApart};

use std::marker::Model;

/// The numbers of the calls of an object in memory that fail, and how many failed.
#[derive(Drop)]
pub struct Failing<N> {
    list: Vec<N>,
    faults: u64,
}

impl<N> Model for Failing<N> {
    ghost use Rattle.base_types.specs.Calls.{Failures, failures_of};

    ghost Value = { Failures N };

    ghost view = { λ f. failures_of f.list.items f.faults };
}

impl<N> Failing<N> {
    /// No call failed yet.
    pub fn new(list: Vec<N>) -> Failing<N>
        ensures { result ≡ failures_of list.items 0 }
    {
        Failing { list, faults: 0 }
    }
}

impl<N: PartialEq> Failing<N> {
    /// Whether the call of this number fails. One that does is counted.
    pub fn fails_at(&mut self, number: &N) -> bool
        requires { TellsApart N.eq }
        ensures same { self.new.fails ≡ self.old.fails }
        ensures listed { result ≡ true → Member number.now self.old.fails }
        ensures unlisted { result ≡ false → Member number.now self.old.fails → ⊥ }
        ensures later { self.old.faults ≤ self.new.faults }
        ensures rose { result ≡ true → Rose self.old.faults self.new.faults }
        ensures no_fault { result ≡ false → self.new.faults ≡ self.old.faults }
    {
        let due = self.list.contains(number);
        if due {
            self.faults = self.faults.saturating_add(1);
        }
        due
    }
}
