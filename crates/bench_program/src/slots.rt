// Slots that threads lease.
ghost use Rattle.std.specs.Prelude.{◌<◌};

use anyhow::{Context, Result, ensure};
use host_slots::{SlotState, Slots, read_hosts};
use std::alloc::Global;
use std::sync::Wait;
use std::thread::{Threads, for_each_mut};

// Two hosts with three slots.
const HOSTS: &[u8] = b"a/2 b/1";

/// Has so many threads, each of which takes a slot and gives it back so often. How many were taken in all.
pub fn lease_on_threads<R: Threads + Wait + Sync>(
    rt: &R,
    alloc: Global,
    threads: u32,
    takes: u32,
) -> Result<u64>
    requires { 0 < threads }
{
    let slots = Slots::new(no_slot_leased(alloc)?);
    let mut taken = Vec::new(alloc);
    taken.resize(threads as usize, 0u64)?;
    for_each_mut(
        rt,
        &mut taken,
        threads as usize,
        &|_, taken| *taken = take_and_give(rt, &slots, takes),
    );
    all_given_back(slots.close())?;
    Ok(total(&taken))
}

fn no_slot_leased(alloc: Global) -> Result<SlotState> {
    let hosts = read_hosts(alloc, HOSTS)?;
    Ok(SlotState::new(alloc, &hosts)?)
}

// Takes a slot and gives it back so often.
fn take_and_give<R: Wait>(rt: &R, slots: &Slots, takes: u32) -> u64 {
    let mut taken = 0u64;
    for _ in 0..takes {
        let lease = slots.take_wait(rt);
        taken = taken.saturating_add(1);
        slots.give(rt, lease);
    }
    taken
}

fn all_given_back(state: SlotState) -> Result<()> {
    ensure!(
        !state.has_leased(0) && !state.has_leased(1),
        "a slot is leased"
    );
    Ok(())
}

fn total(taken: &[u64]) -> u64 {
    let mut total = 0u64;
    for taken in taken {
        total = total.saturating_add(*taken);
    }
    total
}
