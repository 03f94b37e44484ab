// Calls that are counted by exchanges, and fail where a list says so.
ghost use Rattle.std.specs.Prelude.{◌≡◌, ◌≤◌, true, false};
ghost use Rattle.base_types.specs.Causes.{Rose};
ghost use Rattle.base_types.specs.Calls.{failures_of};
ghost use Rattle.base_types.specs.Members.{Member};
ghost use Rattle.daemon_serve.specs.MemWire.{dial_made, call_made, wire_calls};

use base_types::Failing;

#[derive(Drop)]
pub(crate) struct ExchangeCalls {
    pub(crate) dials: u32,
    pub(crate) exchange: u32,
    pub(crate) made: u32,
    // By pairs of an exchange, from 0, and a call of it, from 1.
    pub(crate) failing: Failing<(u32, u32)>,
}

impl ExchangeCalls {
    pub(crate) fn new(fails: Vec<(u32, u32)>) -> ExchangeCalls
        ensures dials { result.dials ≡ 0 }
        ensures exchange { result.exchange ≡ 0 }
        ensures made { result.made ≡ 0 }
        ensures failing { result.failing ≡ failures_of fails.items 0 }
    {
        ExchangeCalls {
            dials: 0,
            exchange: 0,
            made: 0,
            failing: Failing::new(fails),
        }
    }

    // Counts a dial, and says whether it fails.
    pub(crate) fn dial_fails(&mut self) -> bool
        ensures counted { wire_calls self.new.dials self.new.exchange self.new.made self.new.failing.fails ≡ dial_made (wire_calls self.old.dials self.old.exchange self.old.made self.old.failing.fails) }
        ensures listed { result ≡ true → Member (self.new.exchange, self.new.made) self.new.failing.fails }
        ensures unlisted { result ≡ false → Member (self.new.exchange, self.new.made) self.new.failing.fails → ⊥ }
        ensures later { self.old.failing.faults ≤ self.new.failing.faults }
        ensures rose { result ≡ true → Rose self.old.failing.faults self.new.failing.faults }
        ensures no_fault { result ≡ false → self.new.failing.faults ≡ self.old.failing.faults }
    {
        self.exchange = self.dials;
        self.dials = self.dials.saturating_add(1);
        self.made = 0;
        self.next_fails()
    }

    // Counts another call of the exchange, and says whether it fails.
    pub(crate) fn next_fails(&mut self) -> bool
        ensures counted { wire_calls self.new.dials self.new.exchange self.new.made self.new.failing.fails ≡ call_made (wire_calls self.old.dials self.old.exchange self.old.made self.old.failing.fails) }
        ensures listed { result ≡ true → Member (self.new.exchange, self.new.made) self.new.failing.fails }
        ensures unlisted { result ≡ false → Member (self.new.exchange, self.new.made) self.new.failing.fails → ⊥ }
        ensures later { self.old.failing.faults ≤ self.new.failing.faults }
        ensures rose { result ≡ true → Rose self.old.failing.faults self.new.failing.faults }
        ensures no_fault { result ≡ false → self.new.failing.faults ≡ self.old.failing.faults }
    {
        self.made = self.made.saturating_add(1);
        self.failing.fails_at(&(self.exchange, self.made))
    }
}
