// The visits that an analysis found, each once, in order.
use indexmap::IndexSet;
use search_path::Visit;
use std::alloc::{AllocError, Global};
use std::marker::Model;

/// A list of visits, in which each that is added stands once. To look for a visit takes constant time on average.
#[derive(Drop)]
pub struct Visits {
    visits: IndexSet<Visit>,
}

impl Model for Visits {
    ghost use Rattle.std.specs.Prelude.{List};
    ghost use Rattle.search_path.specs.declared.asking.Visit.{Visit as VisitSeen};

    ghost Value = { List VisitSeen };

    ghost view = { λ v. v.visits.keys };
}

impl Visits {
    ghost use Rattle.std.specs.Prelude.{◌≡◌, [], length, OnOk, OnErr, option_map};
    ghost use Rattle.std.specs.List.{list_any, slice_get};
    ghost use Rattle.closure_fixpoint.specs.parts.Worklist.{is_found_alike, with_visit};

    // No visits.
    pub fn new(alloc: Global) -> Visits
        ensures { result ≡ [] }
    {
        Visits {
            visits: IndexSet::new(alloc),
        }
    }

    // How many there are.
    pub fn len(&self) -> usize
        ensures { result ≡ length self.now }
    {
        self.visits.len()
    }

    // The visit with a number, from 0.
    pub fn get(&self, number: usize) -> Option<&Visit>
        ensures { option_map (λ visit. visit.now) result ≡ slice_get self.now number }
    {
        self.visits.get_index(number)
    }

    // Whether a visit is one of them.
    pub fn has(&self, visit: &Visit) -> bool
        ensures { result ≡ list_any (is_found_alike visit.now) self.now }
    {
        self.visits.contains(visit)
    }

    // Adds a visit behind the others, where it isn't one of them.
    pub fn add(&mut self, alloc: Global, visit: &Visit) -> Result<(), AllocError>
        ensures ok { OnOk result (self.new ≡ with_visit self.old visit.now) }
        ensures err { OnErr result (self.new ≡ self.old) }
    {
        if self.has(visit) {
            return Ok(());
        }
        let copy = visit.copy(alloc)?;
        match self.visits.insert(copy) {
            Ok(_) => return Ok(()),
            Err(_) => return Err(AllocError),
        }
    }
}
