// One private step of a client: from a phase with work to do to the next phase.
ghost use Rattle.std.specs.Prelude.{◌≡◌, ◌<◌, length};
ghost use Rattle.job_ends.specs.Record.{known};
ghost use Rattle.job_ends.specs.Outside.{seen_end};
ghost use Rattle.io_edges.specs.Talk.{EachAnswered};
ghost use Rattle.client_steps.specs.Phases.{CanWork, Advances, StepKeeps, StepIsRight, WantsThenTakes, EndsNone};

use crate::Need;
use crate::analysing::{begin, find, go, miss};
use crate::ending::{call, conclude};
use crate::phase::{Advanced, Phase};
use io_edges::{Host, LinkState, Outs, Wire};
use job_ends::End;
use job_words::Job;
use std::alloc::Global;
use tree_model::Tree;

/// One private step.
pub(crate) fn advance<T: Tree, W: Wire, O: Outs>(
    alloc: Global,
    budget: u32,
    client: u32,
    jobs: &[Job],
    hosts: &[Host],
    end: &mut End<T, W, O>,
    phase: Phase,
) -> Advanced
    requires works { CanWork (length jobs.now) (length hosts.now) phase }
    requires some_host { 0 < length hosts.now }
    requires closed { W.state end.old.wire ≡ LinkState.Closed }
    requires answered { EachAnswered W.peer (W.talk end.old.wire) }
    ensures closed { W.state end.new.wire ≡ LinkState.Closed }
    ensures answered { EachAnswered W.peer (W.talk end.new.wire) }
    ensures advances { Advances (length jobs.now) (length hosts.now) phase result }
    ensures right { StepIsRight (known T.Of.named budget) result }
    ensures keeps { let seen = seen_end T.told T.Tree.faults T.reads W.talk W.state W.Wire.faults O.kept O.Outs.faults in
        StepKeeps (known T.Of.named budget) jobs.now hosts.now client phase (seen end.old) (seen end.new) result }
    ensures wants { WantsThenTakes (length hosts.now) phase result }
    ensures ended { EndsNone phase result }
{
    match phase {
        Phase::Rests => return Advanced::Waits(Phase::Draws, Need::Draw),
        Phase::Begins { job } => return begin(alloc, budget, client, jobs, hosts, end, job),
        Phase::Goes {
            job,
            left,
            fixpoint,
        } => return go(alloc, budget, client, jobs, hosts, end, job, left, fixpoint),
        Phase::Finds {
            job,
            left,
            fixpoint,
            key,
            sheet,
        } => return find(
            alloc, budget, client, jobs, hosts, end, job, left, fixpoint, key, sheet,
        ),
        Phase::Misses {
            job,
            left,
            fixpoint,
            key,
        } => return miss(
            alloc, budget, client, jobs, hosts, end, job, left, fixpoint, key,
        ),
        Phase::Wants { job, request } => return Advanced::Waits(
            Phase::Takes {
                job,
                request,
                hosts: hosts.len(),
            },
            Need::Take,
        ),
        Phase::Calls {
            job,
            request,
            hosts: count,
            lease,
        } => return call(
            alloc, budget, client, jobs, hosts, end, job, request, count, lease,
        ),
        Phase::Concludes { job, replied } => return conclude(
            alloc, budget, client, jobs, hosts, end, job, replied,
        ),
        Phase::Ended => return Advanced::Waits(Phase::Ended, Need::Ended),
        Phase::Draws
        | Phase::Looks { .. }
        | Phase::Publishes { .. }
        | Phase::Takes { .. }
        | Phase::Gives { .. } => unreachable!(),
    }
}
