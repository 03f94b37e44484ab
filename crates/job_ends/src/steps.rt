// The steps of a job at its client's end, but for the exchange: the analysis, and the end of the job.
ghost use Rattle.std.specs.Prelude.{◌≡◌};
ghost use Rattle.job_ends.specs.Outside.{seen_end};
ghost use Rattle.job_ends.specs.Record.{known};
ghost use Rattle.job_ends.specs.Steps.{Prepares, PutsText, DoesLocally, Concludes, way_of};

use crate::asking::Replied;
use crate::{Cause, Done, End, JobOutcome, Way};
use base_types::Bytes;
use closure_fixpoint::{Analysed, analyse};
use daemon_cpp::{CppError, Outcome, preprocess};
use io_edges::{OutFault, Outs, Wire};
use job_words::Job;
use std::alloc::Global;
use tree_model::{Tree, TreeError};

/// What the analysis of a job comes to.
#[derive(Debug, Drop)]
pub enum Prepared {
    /// The job's whole request.
    Request(Bytes),
    /// The job is to be done locally.
    Failed(Cause),
    /// The tree failed.
    Broken,
}

/// Analyses a job over the end's tree.
pub fn prepare<T: Tree, W: Wire, O: Outs>(
    alloc: Global,
    end: &mut End<T, W, O>,
    budget: u32,
    job: &Job,
) -> Prepared
    ensures prepared { let seen = seen_end T.told T.Tree.faults T.reads W.talk W.state W.Wire.faults O.kept O.Outs.faults in
        Prepares (known T.Of.named budget) job.now result (seen end.old) (seen end.new) }
    ensures wire { end.new.wire ≡ end.old.wire }
    ensures outs { end.new.outs ≡ end.old.outs }
{
    match analyse(alloc, &mut end.tree, job, budget) {
        Ok(Analysed::Request(request)) => return Prepared::Request(request),
        Ok(Analysed::Refused(refusal)) => return Prepared::Failed(Cause::Analysis(refusal)),
        Err(TreeError::Fault) => return Prepared::Broken,
        Err(TreeError::Large | TreeError::Memory) => return Prepared::Failed(Cause::Memory),
    }
}

/// Puts a job's text under its output name. `OutFault`: the outs failed, and their count of faults rose in this call.
pub fn put_text<T: Tree, W: Wire, O: Outs>(
    end: &mut End<T, W, O>,
    job: &Job,
    text: Bytes,
) -> JobOutcome
    ensures puts { let seen = seen_end T.told T.Tree.faults T.reads W.talk W.state W.Wire.faults O.kept O.Outs.faults in
        PutsText job.now text (seen end.old) (seen end.new) result }
    ensures wire { end.new.wire ≡ end.old.wire }
    ensures tree { end.new.tree ≡ end.old.tree }
{
    match end.outs.put(job.output(), text.as_slice()) {
        Ok(()) => return JobOutcome::Text(text.len() as u64),
        Err(OutFault::Fault) => return JobOutcome::OutFault,
        Err(OutFault::Memory) => return JobOutcome::Memory,
    }
}

/// Preprocesses a job over the end's own tree, and puts its text.
pub fn do_locally<T: Tree, W: Wire, O: Outs>(
    alloc: Global,
    end: &mut End<T, W, O>,
    job: &Job,
) -> JobOutcome
    ensures does { let seen = seen_end T.told T.Tree.faults T.reads W.talk W.state W.Wire.faults O.kept O.Outs.faults in
        DoesLocally T.Of.named job.now (seen end.old) (seen end.new) result }
    ensures wire { end.new.wire ≡ end.old.wire }
{
    match preprocess(alloc, &mut end.tree, job) {
        Ok(Outcome::Text(text)) => return put_text(end, job, text),
        Ok(Outcome::Diag(words)) => return JobOutcome::Diag(words),
        Err(CppError::Fault) => return JobOutcome::TreeFault,
        Err(CppError::Memory) => return JobOutcome::Memory,
    }
}

/// Ends a job by the reply to it: its text is put, its diagnostic is recorded, or it is done locally.
pub fn conclude<T: Tree, W: Wire, O: Outs>(
    alloc: Global,
    end: &mut End<T, W, O>,
    client: u32,
    number: u32,
    job: &Job,
    replied: Replied,
) -> Done
    ensures number { result.job ≡ number }
    ensures client { result.client ≡ client }
    ensures did { let seen = seen_end T.told T.Tree.faults T.reads W.talk W.state W.Wire.faults O.kept O.Outs.faults in
        Concludes T.Of.named job.now replied (seen end.old) (seen end.new) result }
    ensures way { result.way ≡ way_of replied }
    ensures tree { result.way ≡ Way.Remote → end.new.tree ≡ end.old.tree }
    ensures wire { end.new.wire ≡ end.old.wire }
{
    match replied {
        Replied::Text(text) => {
            let outcome = put_text(end, job, text);
            return Done {
                job: number,
                client,
                outcome,
                way: Way::Remote,
            };
        }
        Replied::Diag(words) => {
            return Done {
                job: number,
                client,
                outcome: JobOutcome::Diag(words),
                way: Way::Remote,
            };
        }
        Replied::Failed(cause) => {
            let outcome = do_locally(alloc, end, job);
            return Done {
                job: number,
                client,
                outcome,
                way: Way::Local(cause),
            };
        }
    }
}
