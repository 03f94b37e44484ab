// The jobs of a run, done by clients at the first ends.
ghost use Rattle.std.specs.Prelude.{◌≡◌, ◌≤◌, ◌<◌, length, map, IfOk, OnErr};
ghost use Rattle.std.specs.List.{All, AllByRecursion};
ghost use Rattle.base_types.specs.Limits.{client_limit, host_limit, job_limit};
ghost use Rattle.host_slots.specs.Slots.{HasSlots};
ghost use Rattle.job_ends.specs.Outside.{seen_end};
ghost use Rattle.job_ends.specs.Works.{IsFresh};
ghost use Rattle.pump_run.specs.parts.Steps.{ClientsDid};

use build_clients::{Done, End, Progress, Totals, run_order_watched};
use io_edges::{Outs, Wire};
use job_words::Job;
use run_words::Asked;
use std::alloc::{AllocError, Global};
use tree_model::Tree;

/// Does the jobs with as many clients as the words ask for, each at its end. The only error is want of memory before the
/// first step; then the ends are as they were.
pub fn run_clients<T: Tree, W: Wire, O: Outs, G: Progress>(
    alloc: Global,
    ends: &mut [End<T, W, O>],
    asked: &Asked,
    jobs: &[Job],
    progress: &mut G,
) -> Result<(Vec<Done>, Totals), AllocError>
    requires few { length ends.old ≤ client_limit }
    requires fresh { AllByRecursion IsFresh (map (seen_end T.told T.Tree.faults T.reads W.talk W.state W.Wire.faults O.kept O.Outs.faults) ends.old) }
    requires clients { (1 ≤ asked.now.clients) × (asked.now.clients ≤ length ends.old) }
    requires order { All (λ client. client < asked.now.clients) asked.now.order.items }
    requires hosts { (1 ≤ length asked.now.hosts.items) × (length asked.now.hosts.items ≤ host_limit) }
    requires slots { All HasSlots asked.now.hosts.items }
    requires jobs { length jobs.now ≤ job_limit }
    ensures did { let seen = seen_end T.told T.Tree.faults T.reads W.talk W.state W.Wire.faults O.kept O.Outs.faults in
        IfOk result (λ r. ClientsDid T.Of.named W.peer asked.now.budget asked.now.clients jobs.now asked.now.hosts.items r.0.items r.1 (map seen ends.old) (map seen ends.new)) }
    ensures each { length ends.new ≡ length ends.old }
    ensures stayed { OnErr result (map (seen_end T.told T.Tree.faults T.reads W.talk W.state W.Wire.faults O.kept O.Outs.faults) ends.new ≡ map (seen_end T.told T.Tree.faults T.reads W.talk W.state W.Wire.faults O.kept O.Outs.faults) ends.old) }
{
    let clients = asked.clients as usize;
    let hosts = asked.hosts.as_slice();
    let order = asked.order.as_slice();
    match run_order_watched(
        alloc,
        &mut ends[..clients],
        jobs,
        hosts,
        asked.budget,
        order,
        progress,
    ) {
        Ok(done) => return Ok(done),
        Err(error) => return Err(error),
    }
}

/// How many ends there are.
pub fn number_of<T: Tree, W: Wire, O: Outs>(ends: &Vec<End<T, W, O>>) -> usize
    ensures { result ≡ length ends.now.items }
{
    ends.as_slice().len()
}
