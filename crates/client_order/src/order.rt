// A run of clients on one thread.
ghost use Rattle.std.specs.Prelude.{◌≡◌, ◌≤◌, ◌<◌, false, length, map, IfOk, OnErr};
ghost use Rattle.std.specs.List.{All, AllByRecursion};
ghost use Rattle.base_types.specs.Limits.{client_limit, job_limit, host_limit};
ghost use Rattle.io_edges.specs.Talk.{EachAnswered};
ghost use Rattle.job_words.specs.Words.{IsJob};
ghost use Rattle.host_slots.specs.Slots.{HasSlots};
ghost use Rattle.job_ends.specs.Outside.{seen_end};
ghost use Rattle.job_ends.specs.Record.{known};
ghost use Rattle.job_ends.specs.Works.{IsFresh};
ghost use Rattle.client_order.specs.Ran.{ClientsRan};

use crate::Totals;
use crate::merging::merge;
use crate::outcomes::outcomes_agree;
use crate::progress::{Progress, Unwatched};
use crate::starting::{Begun, begin_run};
use crate::totals::count;
use crate::turns::take_turns;
use io_edges::{Host, LinkState, Outs, Wire};
use job_ends::{Done, End};
use job_words::Job;
use std::alloc::{AllocError, Global};
use tree_model::Tree;

/// Does the jobs with one client for each end, in turns: those of the order, by the numbers of clients, and then round and
/// round. A turn is a client's work up to its next need of something that clients share, and that step. The records come in
/// order of job number. The only error is want of memory before the first turn; then the ends are as they were.
pub fn run_order<T: Tree, W: Wire, O: Outs>(
    alloc: Global,
    ends: &mut [End<T, W, O>],
    jobs: &[Job],
    hosts: &[Host],
    budget: u32,
    order: &[u32],
) -> Result<(Vec<Done>, Totals), AllocError>
    requires some { (1 ≤ length ends.old) × (length ends.old ≤ client_limit) }
    requires fresh { AllByRecursion IsFresh (map (seen_end T.told T.Tree.faults T.reads W.talk W.state W.Wire.faults O.kept O.Outs.faults) ends.old) }
    requires hosts { (1 ≤ length hosts.now) × (length hosts.now ≤ host_limit) }
    requires slots { All HasSlots hosts.now }
    requires jobs { length jobs.now ≤ job_limit }
    requires order { All (λ client. client < length ends.old) order.now }
    ensures ran { let seen = seen_end T.told T.Tree.faults T.reads W.talk W.state W.Wire.faults O.kept O.Outs.faults in
        IfOk result (λ r. ClientsRan (known T.Of.named budget) jobs.now hosts.now (length ends.old) false (map seen ends.old) (map seen ends.new) r.0.items r.1) }
    ensures err { OnErr result (map (seen_end T.told T.Tree.faults T.reads W.talk W.state W.Wire.faults O.kept O.Outs.faults) ends.new ≡ map (seen_end T.told T.Tree.faults T.reads W.talk W.state W.Wire.faults O.kept O.Outs.faults) ends.old) }
    ensures each { length ends.new ≡ length ends.old }
    ensures links { All (λ e. (W.state e.wire ≡ LinkState.Closed) × EachAnswered W.peer (W.talk e.wire)) ends.new }
{
    run_order_watched(alloc, ends, jobs, hosts, budget, order, &mut Unwatched)
}

/// `run_order`, of which somebody is told whenever a job is done: as its client asks for the next one.
pub fn run_order_watched<T: Tree, W: Wire, O: Outs, P: Progress>(
    alloc: Global,
    ends: &mut [End<T, W, O>],
    jobs: &[Job],
    hosts: &[Host],
    budget: u32,
    order: &[u32],
    progress: &mut P,
) -> Result<(Vec<Done>, Totals), AllocError>
    requires some { (1 ≤ length ends.old) × (length ends.old ≤ client_limit) }
    requires fresh { AllByRecursion IsFresh (map (seen_end T.told T.Tree.faults T.reads W.talk W.state W.Wire.faults O.kept O.Outs.faults) ends.old) }
    requires hosts { (1 ≤ length hosts.now) × (length hosts.now ≤ host_limit) }
    requires slots { All HasSlots hosts.now }
    requires jobs { length jobs.now ≤ job_limit }
    requires order { All (λ client. client < length ends.old) order.now }
    ensures ran { let seen = seen_end T.told T.Tree.faults T.reads W.talk W.state W.Wire.faults O.kept O.Outs.faults in
        IfOk result (λ r. ClientsRan (known T.Of.named budget) jobs.now hosts.now (length ends.old) false (map seen ends.old) (map seen ends.new) r.0.items r.1) }
    ensures err { OnErr result (map (seen_end T.told T.Tree.faults T.reads W.talk W.state W.Wire.faults O.kept O.Outs.faults) ends.new ≡ map (seen_end T.told T.Tree.faults T.reads W.talk W.state W.Wire.faults O.kept O.Outs.faults) ends.old) }
    ensures each { length ends.new ≡ length ends.old }
    ensures links { All (λ e. (W.state e.wire ≡ LinkState.Closed) × EachAnswered W.peer (W.talk e.wire)) ends.new }
{
    are_readings(jobs);
    outcomes_agree();
    let begun = begin_run(alloc, ends.len(), jobs.len(), hosts, budget)?;
    let Begun {
        mut shared,
        mut clients,
        places,
        records,
    } = begun;
    take_turns(
        alloc,
        &mut shared,
        &mut clients,
        ends,
        jobs,
        hosts,
        order,
        progress,
    );
    let totals = count(&shared.memo);
    let records = merge(clients, places, records);
    Ok((records, totals))
}

// Each job is the reading of its words.
fn are_readings(jobs: &[Job])
    ensures { All IsJob jobs.now }
{
    for job in jobs {
        job.is_reading();
    }
}
