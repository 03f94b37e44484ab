// Bytes that are read, and the same in memory.
ghost use Rattle.std.specs.Prelude.{◌≡◌, ◌≤◌, ◌<◌, ℕ, List, length, drop, take, Some, None, Option, IfOk, true, false, IsErrOf};
ghost use Rattle.std.specs.Io.{ReadsAtMost};
ghost use Rattle.std.specs.Io.KnownBytes.{IsAtEnd};
ghost use Rattle.base_types.specs.Calls.{FailsAsListed};
ghost use Rattle.base_types.specs.Causes.{HasCause, raised};
ghost use Rattle.io_edges.specs.Edges.{TakesFront};

use base_types::{Bytes, Calls, Counted};

#[derive(Clone, Copy, Debug, PartialEq, Eq, Drop)]
pub enum ReadFault {
    /// The host failed to read.
    Fault,
}

/// Where bytes are read from.
pub trait Source {
    /// The bytes that are left, or None where the source doesn't tell them.
    ghost left: { Self → Option (List ℕ) };

    /// How often a call failed.
    ghost faults: { Self → ℕ };

    /// Fills a prefix of the room with the next bytes, and answers how many; 0 only at the end.
    fn take(&mut self, room: &mut [u8]) -> Result<usize, ReadFault>
        requires { 0 < length room.old }
        ensures bound { ReadsAtMost result room.new }
        ensures bytes { TakesFront (left self.old) (left self.new) result room.new }
        ensures end { IfOk result (λ n. n ≡ 0 → IsAtEnd (left self.new)) }
        ensures cause { HasCause ReadFault.Fault (faults self.old) (faults self.new) result };
}

/// Bytes in memory. A call of `take` whose number, from 1, is on the list of `fails` answers a fault.
#[derive(Drop)]
pub struct MemSource {
    bytes: Bytes,
    at: usize,
    calls: Calls,
    ghost within: { at ≤ length bytes },
}

impl MemSource {
    /// A source of these bytes, at which no call was made.
    pub fn new(bytes: Bytes, fails: Vec<u64>) -> MemSource
        ensures told { ⟦<MemSource as Source>⟧.left result ≡ Some bytes }
        ensures fresh { ⟦<MemSource as Source>⟧.faults result ≡ 0 }
        ensures calls { ⟦<MemSource as Counted>⟧.calls result ≡ 0 }
        ensures fails { ⟦<MemSource as Counted>⟧.fails result ≡ fails.items }
    {
        MemSource {
            bytes,
            at: 0,
            calls: Calls::new(fails),
        }
    }
}

impl Counted for MemSource {
    ghost calls = { λ s. s.calls.made };

    ghost fails = { λ s. s.calls.fails };
}

impl Source for MemSource {
    ghost left = { λ s. Some (drop s.at s.bytes) };

    ghost faults = { λ s. s.calls.faults };

    fn take(&mut self, room: &mut [u8]) -> Result<usize, ReadFault>
        requires { 0 < length room.old }
        ensures bound { ReadsAtMost result room.new }
        ensures bytes { TakesFront (⟦<MemSource as Source>⟧.left self.old) (⟦<MemSource as Source>⟧.left self.new) result room.new }
        ensures end { IfOk result (λ n. n ≡ 0 → IsAtEnd (⟦<MemSource as Source>⟧.left self.new)) }
        ensures cause { HasCause ReadFault.Fault (⟦<MemSource as Source>⟧.faults self.old) (⟦<MemSource as Source>⟧.faults self.new) result }
        ensures no_fault { (IsErrOf result ReadFault.Fault → ⊥) → ⟦<MemSource as Source>⟧.faults self.new ≡ ⟦<MemSource as Source>⟧.faults self.old }
        ensures counted { ⟦<MemSource as Counted>⟧.calls self.new ≡ raised (⟦<MemSource as Counted>⟧.calls self.old) }
        ensures listed { FailsAsListed ReadFault.Fault (⟦<MemSource as Counted>⟧.fails self.old) (⟦<MemSource as Counted>⟧.calls self.new) result }
        ensures same_list { ⟦<MemSource as Counted>⟧.fails self.new ≡ ⟦<MemSource as Counted>⟧.fails self.old }
    {
        if self.calls.next_fails() {
            return Err(ReadFault::Fault);
        }
        let (_, left) = self.bytes.as_slice().split_at(self.at);
        let n = fill(left, room);
        self.at += n;
        Ok(n)
    }
}

// Copies as many bytes as there is room for.
fn fill(from: &[u8], room: &mut [u8]) -> usize
    ensures room { result ≤ length room.new }
    ensures from { result ≤ length from.now }
    ensures bytes { take result room.new ≡ take result from.now }
    ensures zero { result ≡ 0 → 0 < length room.old → length from.now ≡ 0 }
{
    let n = from.len().min(room.len());
    room[..n].copy_from_slice(&from[..n]);
    n
}
