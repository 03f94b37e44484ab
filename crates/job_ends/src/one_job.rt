// One job of a client, from its analysis to its record.
ghost use Rattle.std.specs.Prelude.{◌≡◌};
ghost use Rattle.io_edges.specs.Talk.{EachAnswered};
ghost use Rattle.job_ends.specs.Outside.{seen_end};
ghost use Rattle.job_ends.specs.Record.{DidJob, known};

use crate::asking::{Replied, ask_host};
use crate::steps::{Prepared, conclude, prepare};
use crate::{Done, End, JobOutcome, Way};
use io_edges::{Host, LinkState, Outs, Wire};
use job_words::Job;
use std::alloc::Global;
use tree_model::Tree;

/// Does a job at an end: analyses it, sends it to the host and takes the answer, or does it locally, and puts its text.
pub fn do_job<T: Tree, W: Wire, O: Outs>(
    alloc: Global,
    end: &mut End<T, W, O>,
    budget: u32,
    client: u32,
    number: u32,
    job: &Job,
    host: &Host,
) -> Done
    requires closed { W.state end.old.wire ≡ LinkState.Closed }
    requires answered { EachAnswered W.peer (W.talk end.old.wire) }
    ensures number { result.job ≡ number }
    ensures client { result.client ≡ client }
    ensures closed { W.state end.new.wire ≡ LinkState.Closed }
    ensures answered { EachAnswered W.peer (W.talk end.new.wire) }
    ensures did { let seen = seen_end T.told T.Tree.faults T.reads W.talk W.state W.Wire.faults O.kept O.Outs.faults in
        DidJob (known T.Of.named budget) job.now host.now result (seen end.old) (seen end.new) }
{
    match prepare(alloc, end, budget, job) {
        Prepared::Request(request) => {
            let replied = ask_host(alloc, end, host, request.as_slice());
            return conclude(alloc, end, client, number, job, replied);
        }
        Prepared::Failed(cause) => {
            return conclude(alloc, end, client, number, job, Replied::Failed(cause));
        }
        Prepared::Broken => {
            return Done {
                job: number,
                client,
                outcome: JobOutcome::TreeFault,
                way: Way::Broken,
            };
        }
    }
}
