// The slots as a machine of one thread.
ghost use Rattle.std.specs.Prelude.{◌≡◌, ℕ, ◌+◌, ◌<◌, ◌≤◌, [], length, map, replicate, slice_index, IfOk, IfSome, IfNone, nat_lt, ◌&&◌};
ghost use Rattle.std.specs.List.{All};
ghost use Rattle.base_types.specs.Limits.{host_limit};
ghost use Rattle.host_slots.specs.Slots.{IsFirstFree, AllLeased, HasSlots, slot_taken, slot_given_back, AreWithinLimits};

use io_edges::Host;
use std::alloc::{AllocError, Global};
use std::marker::Model;

/// The right to one slot of a host, which contracts see as the host's place in the list. It can't be let go, but has to be
/// given back.
pub struct Lease {
    host: u32,
}

impl Model for Lease {
    ghost use Rattle.std.specs.Prelude.{ℕ};

    ghost Value = { ℕ };

    ghost view = { λ lease. lease.host };
}

impl Lease {
    /// The place of the host in the list.
    pub fn host(&self) -> u32
        ensures { result ≡ self.now }
    {
        self.host
    }

    // Takes the lease apart.
    pub(crate) fn spend(self) {
        let Lease { host: _ } = self;
    }
}

/// How many slots of each host are leased. None ever has more than its limit.
#[derive(Drop)]
pub struct SlotState {
    limits: Vec<u32>,
    leased: Vec<u32>,
}

impl Model for SlotState {
    ghost use Rattle.host_slots.specs.Slots.{Leased, AreWithinLimits};

    ghost Value = { Leased };

    ghost view = { λ s. record { limits = s.limits.items; leased = s.leased.items } };

    ghost invariant = { λ s. AreWithinLimits s.limits.items s.leased.items };
}

impl SlotState {
    /// No slot is leased.
    pub fn new(alloc: Global, hosts: &[Host]) -> Result<SlotState, AllocError>
        requires few { (1 ≤ length hosts.now) × (length hosts.now ≤ host_limit) }
        requires slots { All HasSlots hosts.now }
        ensures limits { IfOk result (λ s. s.limits ≡ map (λ host. host.limit) hosts.now) }
        ensures free { IfOk result (λ s. s.leased ≡ replicate (length hosts.now) 0) }
    {
        let limits = limits_of(alloc, hosts)?;
        let mut leased = Vec::with_capacity(alloc, hosts.len())?;
        leased.resize(hosts.len(), 0)?;
        Ok(SlotState { limits, leased })
    }

    /// How many hosts there are.
    pub fn hosts(&self) -> usize
        ensures count { result ≡ length self.now.limits }
        ensures within { AreWithinLimits self.now.limits self.now.leased }
    {
        self.limits.len()
    }

    /// Leases a slot of the first host that is below its limit. None exactly where each host is at its limit.
    pub fn take(&mut self) -> Option<Lease>
        ensures first { IfSome result (λ host. IsFirstFree self.old.limits self.old.leased host) }
        ensures taken { IfSome result (λ host. self.new.leased ≡ slot_taken host self.old.leased) }
        ensures none { IfNone result (AllLeased self.old.limits self.old.leased × (self.new.leased ≡ self.old.leased)) }
        ensures limits { self.new.limits ≡ self.old.limits }
    {
        let SlotState { limits, leased } = self;
        let host = free_host(limits, leased)?;
        let most = limits[host];
        let now = leased[host];
        prove!(now < most);
        leased[host] = now + 1;
        Some(Lease { host: host as u32 })
    }

    /// Frees one slot of the lease's host.
    pub fn give(&mut self, lease: Lease)
        requires host { lease < length self.old.limits }
        requires leased { 0 < slice_index self.old.leased lease }
        ensures leased { self.new.leased ≡ slot_given_back lease self.old.leased }
        ensures limits { self.new.limits ≡ self.old.limits }
    {
        let Lease { host } = lease;
        self.leased[host as usize] -= 1;
    }

    /// Whether a slot of the host is leased.
    pub fn has_leased(&self, host: u32) -> bool
        ensures { result ≡ nat_lt host (length self.now.limits) && nat_lt 0 (slice_index self.now.leased host) }
    {
        (host as usize) < self.leased.len() && self.leased[host as usize] > 0
    }
}

// The limit of each host.
fn limits_of(alloc: Global, hosts: &[Host]) -> Result<Vec<u32>, AllocError>
    ensures { IfOk result (λ limits. limits.items ≡ map (λ host. host.limit) hosts.now) }
{
    hosts.iter().map(|host| host.limit).collect(alloc)
}

// The first host that is below its limit.
fn free_host(limits: &[u32], leased: &[u32]) -> Option<usize>
    requires { AreWithinLimits limits.now leased.now }
    ensures some { IfSome result (λ host. IsFirstFree limits.now leased.now host) }
    ensures none { IfNone result (AllLeased limits.now leased.now) }
{
    for host in 0..limits.len() {
        if leased[host] < limits[host] {
            return Some(host);
        }
    }
    None
}
