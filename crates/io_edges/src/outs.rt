// Named bodies that are written, and the same in memory.
ghost use Rattle.std.specs.Prelude.{◌≡◌, ◌≤◌, ℕ, List, [], ◌∷◌, Some, None, Option, OnOk, OnErr, IfErr, ◌++◌, IsErrOf};
ghost use Rattle.base_types.specs.Calls.{FailsAsListed};
ghost use Rattle.base_types.specs.Causes.{HasCause, raised};
ghost use Rattle.base_types.specs.Told.{added};

use base_types::{Bytes, Calls, Counted};
use std::alloc::{AllocError, Global};

#[derive(Clone, Copy, Debug, PartialEq, Eq, Drop)]
pub enum OutFault {
    /// The host failed to write.
    Fault,
    /// There was no memory for the name or the body.
    Memory,
}

/// Where named bodies are written to.
pub trait Outs {
    ghost use Rattle.std.specs.Prelude as list;

    /// The names and bodies that were put, or None where the object doesn't tell them.
    ghost kept: { Self → Option (list.List (list.List ℕ × list.List ℕ)) };

    /// How often a call failed.
    ghost faults: { Self → ℕ };

    /// Writes a body under a name. A refused one isn't kept.
    fn put(&mut self, name: &[u8], body: &[u8]) -> Result<(), OutFault>
        ensures ok { OnOk result (kept self.new ≡ added ((name.now, body.now) ∷ []) (kept self.old)) }
        ensures err { OnErr result (kept self.new ≡ kept self.old) }
        ensures cause { HasCause OutFault.Fault (faults self.old) (faults self.new) result };
}

/// Names and bodies in memory. A call of `put` whose number, from 1, is on the list of `fails` answers a fault.
#[derive(Drop)]
pub struct MemOuts {
    alloc: Global,
    entries: Vec<(Bytes, Bytes)>,
    calls: Calls,
}

impl MemOuts {
    /// An object that keeps nothing, at which no call was made.
    pub fn new(alloc: Global, fails: Vec<u64>) -> MemOuts
        ensures told { ⟦<MemOuts as Outs>⟧.kept result ≡ Some [] }
        ensures fresh { ⟦<MemOuts as Outs>⟧.faults result ≡ 0 }
        ensures calls { ⟦<MemOuts as Counted>⟧.calls result ≡ 0 }
        ensures fails { ⟦<MemOuts as Counted>⟧.fails result ≡ fails.items }
    {
        MemOuts {
            alloc,
            entries: Vec::new(alloc),
            calls: Calls::new(fails),
        }
    }

    /// The names and bodies that were put, in order.
    pub fn entries(&self) -> &[(Bytes, Bytes)]
        ensures { ⟦<MemOuts as Outs>⟧.kept self.now ≡ Some result.now }
    {
        &self.entries
    }
}

impl Counted for MemOuts {
    ghost calls = { λ s. s.calls.made };

    ghost fails = { λ s. s.calls.fails };
}

impl Outs for MemOuts {
    ghost kept = { λ s. Some s.entries.items };

    ghost faults = { λ s. s.calls.faults };

    fn put(&mut self, name: &[u8], body: &[u8]) -> Result<(), OutFault>
        ensures ok { OnOk result (⟦<MemOuts as Outs>⟧.kept self.new ≡ added ((name.now, body.now) ∷ []) (⟦<MemOuts as Outs>⟧.kept self.old)) }
        ensures err { OnErr result (⟦<MemOuts as Outs>⟧.kept self.new ≡ ⟦<MemOuts as Outs>⟧.kept self.old) }
        ensures cause { HasCause OutFault.Fault (⟦<MemOuts as Outs>⟧.faults self.old) (⟦<MemOuts as Outs>⟧.faults self.new) result }
        ensures no_fault { (IsErrOf result OutFault.Fault → ⊥) → ⟦<MemOuts as Outs>⟧.faults self.new ≡ ⟦<MemOuts as Outs>⟧.faults self.old }
        ensures counted { ⟦<MemOuts as Counted>⟧.calls self.new ≡ raised (⟦<MemOuts as Counted>⟧.calls self.old) }
        ensures listed { FailsAsListed OutFault.Fault (⟦<MemOuts as Counted>⟧.fails self.old) (⟦<MemOuts as Counted>⟧.calls self.new) result }
        ensures same_list { ⟦<MemOuts as Counted>⟧.fails self.new ≡ ⟦<MemOuts as Counted>⟧.fails self.old }
    {
        if self.calls.next_fails() {
            return Err(OutFault::Fault);
        }
        keep(self.alloc, &mut self.entries, name, body).map_err(|_| OutFault::Memory)
    }
}

// Adds a copy of a name and a body.
fn keep(
    alloc: Global,
    entries: &mut Vec<(Bytes, Bytes)>,
    name: &[u8],
    body: &[u8],
) -> Result<(), AllocError>
    ensures ok { OnOk result (entries.new.items ≡ entries.old.items ++ (name.now, body.now) ∷ []) }
    ensures err { OnErr result (entries.new.items ≡ entries.old.items) }
{
    let name = Bytes::copy_of(alloc, name)?;
    let body = Bytes::copy_of(alloc, body)?;
    entries.push((name, body))?;
    Ok(())
}
