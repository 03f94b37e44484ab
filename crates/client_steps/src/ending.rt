// The exchange of a client's job, and its end.
ghost use Rattle.std.specs.Prelude.{◌≡◌, ◌<◌, length};
ghost use Rattle.job_ends.specs.Record.{known};
ghost use Rattle.job_ends.specs.Outside.{seen_end};
ghost use Rattle.io_edges.specs.Talk.{EachAnswered};
ghost use Rattle.client_steps.specs.Phases.{CanWork, Advances, StepKeeps, StepIsRight};

use crate::Need;
use crate::phase::{Advanced, Phase};
use base_types::Bytes;
use host_slots::Lease;
use io_edges::{Host, LinkState, Outs, Wire};
use job_ends::{End, Replied, ask_host, conclude as end_job};
use job_words::Job;
use std::alloc::Global;
use tree_model::Tree;

/// The exchange with the host of the lease, which is given back after it.
pub(crate) fn call<T: Tree, W: Wire, O: Outs>(
    alloc: Global,
    budget: u32,
    client: u32,
    jobs: &[Job],
    hosts: &[Host],
    end: &mut End<T, W, O>,
    job: u32,
    request: Bytes,
    count: usize,
    lease: Lease,
) -> Advanced
    requires works { CanWork (length jobs.now) (length hosts.now) (Phase.Calls job request count lease) }
    requires closed { W.state end.old.wire ≡ LinkState.Closed }
    requires answered { EachAnswered W.peer (W.talk end.old.wire) }
    ensures closed { W.state end.new.wire ≡ LinkState.Closed }
    ensures answered { EachAnswered W.peer (W.talk end.new.wire) }
    ensures advances { Advances (length jobs.now) (length hosts.now) (Phase.Calls job request count lease) result }
    ensures right { StepIsRight (known T.Of.named budget) result }
    ensures keeps { let seen = seen_end T.told T.Tree.faults T.reads W.talk W.state W.Wire.faults O.kept O.Outs.faults in
        StepKeeps (known T.Of.named budget) jobs.now hosts.now client (Phase.Calls job request count lease) (seen end.old) (seen end.new) result }
{
    let host = lease.host();
    let replied = ask_host(alloc, end, &hosts[host as usize], request.as_slice());
    Advanced::Waits(Phase::Gives { job, host, replied }, Need::Give(lease))
}

/// The job ends: its text is put, or it is done locally.
pub(crate) fn conclude<T: Tree, W: Wire, O: Outs>(
    alloc: Global,
    budget: u32,
    client: u32,
    jobs: &[Job],
    hosts: &[Host],
    end: &mut End<T, W, O>,
    job: u32,
    replied: Replied,
) -> Advanced
    requires { job < length jobs.now }
    ensures advances { Advances (length jobs.now) (length hosts.now) (Phase.Concludes job replied) result }
    ensures wire { end.new.wire ≡ end.old.wire }
    ensures right { StepIsRight (known T.Of.named budget) result }
    ensures keeps { let seen = seen_end T.told T.Tree.faults T.reads W.talk W.state W.Wire.faults O.kept O.Outs.faults in
        StepKeeps (known T.Of.named budget) jobs.now hosts.now client (Phase.Concludes job replied) (seen end.old) (seen end.new) result }
{
    let done = end_job(alloc, end, client, job, &jobs[job as usize], replied);
    Advanced::Records(done)
}
