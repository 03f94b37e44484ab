// The beginning of a run: all memory that it takes for itself, before the first turn.
ghost use Rattle.std.specs.Prelude.{◌≡◌, ◌+◌, ◌<◌, ◌≤◌, [], None, length, map, replicate, IfOk};
ghost use Rattle.std.specs.List.{All};
ghost use Rattle.std.specs.Vec.{vec_capacity};
ghost use Rattle.base_types.specs.Limits.{client_limit, job_limit, host_limit};
ghost use Rattle.host_slots.specs.Slots.{HasSlots};
ghost use Rattle.client_order.specs.parts.World.{AreNumberedFrom, WorldHolds};
ghost use Rattle.client_order.specs.parts.Merged.{AreNew, AllRest, IsEmptyMemo};

use crate::turns::Shared;
use client_steps::Client;
use closure_memo::MemoState;
use host_slots::SlotState;
use io_edges::Host;
use job_ends::Done;
use std::alloc::{AllocError, Global};
use tree_model::Frozen;

/// What a run has before its first turn: what clients share, the clients, an empty place for the record of each job, and
/// room for all records.
pub struct Begun<F: Frozen> {
    pub shared: Shared<F>,
    pub clients: Vec<Client>,
    pub places: Vec<Option<Done>>,
    pub records: Vec<Done>,
}

/// So many clients for so many jobs, none of which did anything. The clients come last, since a client can't be let go.
pub fn begin_run<F: Frozen>(
    alloc: Global,
    clients: usize,
    jobs: usize,
    hosts: &[Host],
    budget: u32,
) -> Result<Begun<F>, AllocError>
    requires clients { clients ≤ client_limit }
    requires jobs { jobs ≤ job_limit }
    requires hosts { (1 ≤ length hosts.now) × (length hosts.now ≤ host_limit) }
    requires slots { All HasSlots hosts.now }
    ensures clients { IfOk result (λ begun. AreNew 0 jobs budget begun.clients.items) }
    ensures each { IfOk result (λ begun. length begun.clients.items ≡ clients) }
    ensures numbered { IfOk result (λ begun. AreNumberedFrom 0 begun.clients.items) }
    ensures memo { IfOk result (λ begun. IsEmptyMemo begun.shared.memo) }
    ensures world { IfOk result (λ begun. WorldHolds jobs (length hosts.now) begun.shared.drawn begun.shared.slots begun.clients.items) }
    ensures places { IfOk result (λ begun. begun.places.items ≡ replicate jobs None) }
    ensures records { IfOk result (λ begun. (begun.records.items ≡ []) × (jobs ≤ vec_capacity begun.records)) }
{
    let slots = SlotState::new(alloc, hosts)?;
    let places = empty_places(alloc, jobs)?;
    let records = Vec::with_capacity(alloc, jobs)?;
    let clients = new_clients(alloc, clients as u32, jobs as u32, budget)?;
    let shared = Shared {
        drawn: 0,
        memo: MemoState::new(alloc),
        slots,
    };
    Ok(Begun {
        shared,
        clients,
        places,
        records,
    })
}

// A place for each job, with nothing in it.
fn empty_places(alloc: Global, jobs: usize) -> Result<Vec<Option<Done>>, AllocError>
    ensures { IfOk result (λ places. places.items ≡ replicate jobs None) }
{
    let mut places = Vec::with_capacity(alloc, jobs)?;
    for _job in 0..jobs {
        places.push_reserved(None);
    }
    Ok(places)
}

// Clients that did nothing, numbered from 0.
fn new_clients(alloc: Global, count: u32, jobs: u32, budget: u32) -> Result<Vec<Client>, AllocError>
    ensures new { IfOk result (λ clients. AreNew 0 jobs budget clients.items) }
    ensures each { IfOk result (λ clients. length clients.items ≡ count) }
{
    let mut clients = Vec::with_capacity(alloc, count as usize)?;
    for number in 0..count {
        match Client::new(alloc, number, jobs, budget) {
            Ok(client) => clients.push_reserved(client),
            Err(error) => {
                cancel_all(clients);
                return Err(error);
            }
        }
    }
    Ok(clients)
}

// Takes clients apart that did nothing.
fn cancel_all(clients: Vec<Client>)
    requires { AllRest clients.items }
{
    let mut clients = clients;
    while let Some(client) = clients.pop() {
        client.cancel();
    }
    clients.destroy_empty();
}
