// The slots that threads share.
ghost use Rattle.std.specs.Prelude.{◌≡◌, ◌<◌, length, nat_lt, ◌&&◌, true, false, slice_index};
ghost use Rattle.host_slots.specs.Slots.{AreWithinLimits, slot_given_back};

use crate::{Lease, SlotState};
use std::marker::Model;
use std::sync::{Condvar, Mutex, Wait};

/// Slots that threads lease and give back, which contracts see as the number of hosts. Each call that takes or gives is one
/// step on the state that the lock keeps, where no host ever has more slots leased than its limit.
#[derive(Drop)]
pub struct Slots {
    hosts: usize,
    state: Mutex<SlotState>,
    freed: Condvar,
}

impl Model for Slots {
    ghost use Rattle.std.specs.Prelude.{ℕ};

    ghost Value = { ℕ };

    ghost view = { λ slots. slots.hosts };
}

impl Slots {
    pub fn new(state: SlotState) -> Slots
        ensures { result ≡ length state.limits }
    {
        Slots {
            hosts: state.hosts(),
            state: Mutex::new(state),
            freed: Condvar::new(),
        }
    }

    /// Waits until some host is below its limit, and leases a slot of the first such.
    pub fn take_wait<R: Wait>(&self, rt: &R) -> Lease
        ensures { result < self.now }
    {
        let mut state = self.state.lock(rt);
        for _ in rt.forever() {
            if let Some(lease) = state.take() {
                if (lease.host() as usize) < self.hosts {
                    return lease;
                }
                give_in(&mut *state, lease);
            }
            state = self.freed.wait(rt, state);
        }
        unreachable!()
    }

    /// Frees one slot of the lease's host, and wakes a thread that waits for one. Where none of that host is leased, nothing
    /// changes.
    pub fn give<R: Wait>(&self, rt: &R, lease: Lease) {
        let mut state = self.state.lock(rt);
        give_in(&mut *state, lease);
        self.freed.notify_one();
    }

    /// The state that the lock kept.
    pub fn close(self) -> SlotState
        ensures { AreWithinLimits result.limits result.leased }
    {
        let state = self.state.into_inner();
        let _ = state.hosts();
        state
    }
}

// Gives a lease back, where a slot of its host is leased.
fn give_in(state: &mut SlotState, lease: Lease)
    ensures leased { nat_lt lease (length state.old.limits) && nat_lt 0 (slice_index state.old.leased lease) ≡ true → state.new.leased ≡ slot_given_back lease state.old.leased }
    ensures none { nat_lt lease (length state.old.limits) && nat_lt 0 (slice_index state.old.leased lease) ≡ false → state.new.leased ≡ state.old.leased }
    ensures limits { state.new.limits ≡ state.old.limits }
{
    if state.has_leased(lease.host()) {
        state.give(lease);
    } else {
        lease.spend();
    }
}
