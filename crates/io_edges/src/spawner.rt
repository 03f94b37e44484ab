// What starts daemons and stops them.
ghost use Rattle.std.specs.Prelude.{◌≡◌, ◌≤◌, ◌<◌, ℕ, List, ◌∷◌, [], ◌++◌, Bool, true, false, IfOk, OnOk, OnErr, length, drop, IsErrOf};
ghost use Rattle.base_types.specs.Calls.{FailsAsListed};
ghost use Rattle.base_types.specs.Causes.{HasCause, raised};
ghost use Rattle.base_types.specs.Limits.{slot_limit};
ghost use Rattle.io_edges.specs.Daemons.{localhost, starts_of, local_hosts};

use crate::wire::Host;
use base_types::{Bytes, Calls, Counted};
use std::alloc::{AllocError, Global};

#[derive(Clone, Copy, Debug, PartialEq, Eq, Drop)]
pub enum SpawnFault {
    /// The host failed to start a daemon, or to stop one.
    Fault,
    /// There was no memory for the call.
    Memory,
}

/// What starts daemons on this machine, by numbers, and stops them.
pub trait Spawner {
    ghost use Rattle.io_edges.specs.declared.wire.Host as host_of;

    /// The Ok starts, in order.
    ghost begun: { Self → List (ℕ × host_of.Host) };

    /// The hosts that weren't stopped yet.
    ghost running: { Self → List host_of.Host };

    /// Whether they were asked to stop: an Ok start makes it false, and every call to stop all makes it true.
    ghost asked: { Self → Bool };

    /// How often a call failed.
    ghost faults: { Self → ℕ };

    /// Starts daemon k, and answers the host that it is.
    fn start(&mut self, k: u32) -> Result<Host, SpawnFault>
        ensures begun { IfOk result (λ host. begun self.new ≡ begun self.old ++ (k, host) ∷ []) }
        ensures running { IfOk result (λ host. running self.new ≡ running self.old ++ host ∷ []) }
        ensures asked { OnOk result (asked self.new ≡ false) }
        ensures low { IfOk result (λ host. 0 < host.limit) }
        ensures high { IfOk result (λ host. host.limit ≤ slot_limit) }
        ensures begun_err { OnErr result (begun self.new ≡ begun self.old) }
        ensures running_err { OnErr result (running self.new ≡ running self.old) }
        ensures asked_err { OnErr result (asked self.new ≡ asked self.old) }
        ensures cause { HasCause SpawnFault.Fault (faults self.old) (faults self.new) result };

    /// Stops every daemon that runs.
    fn stop_all(&mut self) -> Result<(), SpawnFault>
        ensures begun { begun self.new ≡ begun self.old }
        ensures running { OnOk result (running self.new ≡ []) }
        ensures running_err { OnErr result (running self.new ≡ running self.old) }
        ensures asked { asked self.new ≡ true }
        ensures cause { HasCause SpawnFault.Fault (faults self.old) (faults self.new) result };
}

/// Starts no process: each daemon is the host `localhost` at the port 3632, which takes one request at a time.
/// A call of `start` or `stop_all` whose number, from 1, is on the list of `fails` answers a fault.
#[derive(Drop)]
pub struct MemSpawner {
    alloc: Global,
    numbers: Vec<u32>,
    // How many of the first ones were stopped.
    stopped: usize,
    asked: bool,
    calls: Calls,
    ghost within: { stopped ≤ length numbers.items },
}

impl MemSpawner {
    /// A spawner that began nothing, at which no call was made.
    pub fn new(alloc: Global, fails: Vec<u64>) -> MemSpawner
        ensures begun { ⟦<MemSpawner as Spawner>⟧.begun result ≡ [] }
        ensures running { ⟦<MemSpawner as Spawner>⟧.running result ≡ [] }
        ensures asked { ⟦<MemSpawner as Spawner>⟧.asked result ≡ false }
        ensures fresh { ⟦<MemSpawner as Spawner>⟧.faults result ≡ 0 }
        ensures calls { ⟦<MemSpawner as Counted>⟧.calls result ≡ 0 }
        ensures fails { ⟦<MemSpawner as Counted>⟧.fails result ≡ fails.items }
    {
        MemSpawner {
            alloc,
            numbers: Vec::new(alloc),
            stopped: 0,
            asked: false,
            calls: Calls::new(fails),
        }
    }

    /// The numbers of the daemons that were begun, in order.
    pub fn started(&self) -> &[u32]
        ensures { ⟦<MemSpawner as Spawner>⟧.begun self.now ≡ starts_of result.now }
    {
        &self.numbers
    }
}

impl Counted for MemSpawner {
    ghost calls = { λ s. s.calls.made };

    ghost fails = { λ s. s.calls.fails };
}

impl Spawner for MemSpawner {
    ghost begun = { λ s. starts_of s.numbers.items };

    ghost running = { λ s. local_hosts (drop s.stopped s.numbers.items) };

    ghost asked = { λ s. s.asked };

    ghost faults = { λ s. s.calls.faults };

    fn start(&mut self, k: u32) -> Result<Host, SpawnFault>
        ensures begun { IfOk result (λ host. ⟦<MemSpawner as Spawner>⟧.begun self.new ≡ ⟦<MemSpawner as Spawner>⟧.begun self.old ++ (k, host) ∷ []) }
        ensures running { IfOk result (λ host. ⟦<MemSpawner as Spawner>⟧.running self.new ≡ ⟦<MemSpawner as Spawner>⟧.running self.old ++ host ∷ []) }
        ensures asked { OnOk result (⟦<MemSpawner as Spawner>⟧.asked self.new ≡ false) }
        ensures host { IfOk result (λ host. host ≡ localhost) }
        ensures low { IfOk result (λ host. 0 < host.limit) }
        ensures high { IfOk result (λ host. host.limit ≤ slot_limit) }
        ensures begun_err { OnErr result (⟦<MemSpawner as Spawner>⟧.begun self.new ≡ ⟦<MemSpawner as Spawner>⟧.begun self.old) }
        ensures running_err { OnErr result (⟦<MemSpawner as Spawner>⟧.running self.new ≡ ⟦<MemSpawner as Spawner>⟧.running self.old) }
        ensures asked_err { OnErr result (⟦<MemSpawner as Spawner>⟧.asked self.new ≡ ⟦<MemSpawner as Spawner>⟧.asked self.old) }
        ensures cause { HasCause SpawnFault.Fault (⟦<MemSpawner as Spawner>⟧.faults self.old) (⟦<MemSpawner as Spawner>⟧.faults self.new) result }
        ensures no_fault { (IsErrOf result SpawnFault.Fault → ⊥) → ⟦<MemSpawner as Spawner>⟧.faults self.new ≡ ⟦<MemSpawner as Spawner>⟧.faults self.old }
        ensures counted { ⟦<MemSpawner as Counted>⟧.calls self.new ≡ raised (⟦<MemSpawner as Counted>⟧.calls self.old) }
        ensures listed { FailsAsListed SpawnFault.Fault (⟦<MemSpawner as Counted>⟧.fails self.old) (⟦<MemSpawner as Counted>⟧.calls self.new) result }
        ensures same_list { ⟦<MemSpawner as Counted>⟧.fails self.new ≡ ⟦<MemSpawner as Counted>⟧.fails self.old }
    {
        if self.calls.next_fails() {
            return Err(SpawnFault::Fault);
        }
        let host = match begin(self.alloc, &mut self.numbers, k) {
            Ok(host) => host,
            Err(_) => return Err(SpawnFault::Memory),
        };
        self.asked = false;
        Ok(host)
    }

    fn stop_all(&mut self) -> Result<(), SpawnFault>
        ensures begun { ⟦<MemSpawner as Spawner>⟧.begun self.new ≡ ⟦<MemSpawner as Spawner>⟧.begun self.old }
        ensures running { OnOk result (⟦<MemSpawner as Spawner>⟧.running self.new ≡ []) }
        ensures running_err { OnErr result (⟦<MemSpawner as Spawner>⟧.running self.new ≡ ⟦<MemSpawner as Spawner>⟧.running self.old) }
        ensures asked { ⟦<MemSpawner as Spawner>⟧.asked self.new ≡ true }
        ensures cause { HasCause SpawnFault.Fault (⟦<MemSpawner as Spawner>⟧.faults self.old) (⟦<MemSpawner as Spawner>⟧.faults self.new) result }
        ensures no_fault { (IsErrOf result SpawnFault.Fault → ⊥) → ⟦<MemSpawner as Spawner>⟧.faults self.new ≡ ⟦<MemSpawner as Spawner>⟧.faults self.old }
        ensures counted { ⟦<MemSpawner as Counted>⟧.calls self.new ≡ raised (⟦<MemSpawner as Counted>⟧.calls self.old) }
        ensures listed { FailsAsListed SpawnFault.Fault (⟦<MemSpawner as Counted>⟧.fails self.old) (⟦<MemSpawner as Counted>⟧.calls self.new) result }
        ensures same_list { ⟦<MemSpawner as Counted>⟧.fails self.new ≡ ⟦<MemSpawner as Counted>⟧.fails self.old }
    {
        self.asked = true;
        if self.calls.next_fails() {
            return Err(SpawnFault::Fault);
        }
        self.stopped = self.numbers.len();
        Ok(())
    }
}

// Notes the number of a daemon, and answers its host.
fn begin(alloc: Global, numbers: &mut Vec<u32>, k: u32) -> Result<Host, AllocError>
    ensures ok { OnOk result (numbers.new.items ≡ numbers.old.items ++ k ∷ []) }
    ensures host { IfOk result (λ host. host ≡ localhost) }
    ensures err { OnErr result (numbers.new.items ≡ numbers.old.items) }
{
    let name = Bytes::copy_of(alloc, b"localhost")?;
    numbers.push(k)?;
    Ok(Host {
        name,
        port: 3632,
        limit: 1,
    })
}
