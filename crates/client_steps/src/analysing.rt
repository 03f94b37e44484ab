// The analysis of a client's job, step by step.
ghost use Rattle.std.specs.Prelude.{◌≡◌, ◌<◌, ◌+◌, ◌*◌, length, IfOk};
ghost use Rattle.job_ends.specs.Record.{known};
ghost use Rattle.job_ends.specs.Outside.{seen_end};
ghost use Rattle.search_path.specs.Search.{NeedsFrom};
ghost use Rattle.sheet_build.specs.Keys.{key_of};
ghost use Rattle.closure_fixpoint.specs.Told.{Progress};
ghost use Rattle.client_steps.specs.Phases.{Advances, AdvancesBelow, StepKeeps, StepIsRight, AnswerStepHolds};

use crate::Need;
use crate::phase::{Advanced, Phase};
use closure_fixpoint::{
    Analysed, Closure, Fixpoint, Next, Refusal, closures, refusals_hold, request_of,
};
use io_edges::{Host, Outs, Wire};
use job_ends::{Cause, Done, End, JobOutcome, Replied, Way};
use job_words::Job;
use search_path::{Ask, Visit, search};
use sheet_build::{Sheet, SheetKey, sheet};
use std::alloc::{AllocError, Global};
use tree_model::{Tree, TreeError};

// The job ends with a fault of its tree.
fn broken(job: u32, client: u32) -> Advanced
    ensures { result ≡ Advanced.Records (record { job = job; client = client; outcome = JobOutcome.TreeFault; way = Way.Broken }) }
{
    Advanced::Records(Done {
        job,
        client,
        outcome: JobOutcome::TreeFault,
        way: Way::Broken,
    })
}

// The job is to be done locally.
fn settled(job: u32, cause: Cause) -> Advanced
    ensures { result ≡ Advanced.Goes (Phase.Concludes job (Replied.Failed cause)) }
{
    Advanced::Goes(Phase::Concludes {
        job,
        replied: Replied::Failed(cause),
    })
}

/// The analysis begins.
pub(crate) fn begin<T: Tree, W: Wire, O: Outs>(
    alloc: Global,
    budget: u32,
    client: u32,
    jobs: &[Job],
    hosts: &[Host],
    end: &End<T, W, O>,
    job: u32,
) -> Advanced
    requires job { job < length jobs.now }
    requires some_host { 0 < length hosts.now }
    ensures advances { Advances (length jobs.now) (length hosts.now) (Phase.Begins job) result }
    ensures right { StepIsRight (known T.Of.named budget) result }
    ensures keeps { let seen = seen_end T.told T.Tree.faults T.reads W.talk W.state W.Wire.faults O.kept O.Outs.faults in
        StepKeeps (known T.Of.named budget) jobs.now hosts.now client (Phase.Begins job) (seen end.now) (seen end.now) result }
{
    match Fixpoint::new(alloc, &jobs[job as usize], budget) {
        Ok(fixpoint) => return Advanced::Goes(Phase::Goes {
            job,
            left: u64::MAX,
            fixpoint,
        }),
        Err(_) => return settled(job, Cause::Memory),
    }
}

/// The analysis goes on: a search, a sheet that is wanted, or its end. One that asked too often ends for want of memory.
pub(crate) fn go<T: Tree, W: Wire, O: Outs>(
    alloc: Global,
    budget: u32,
    client: u32,
    jobs: &[Job],
    hosts: &[Host],
    end: &mut End<T, W, O>,
    job: u32,
    left: u64,
    fixpoint: Fixpoint,
) -> Advanced
    requires job { job < length jobs.now }
    requires some_host { 0 < length hosts.now }
    ensures advances { Advances (length jobs.now) (length hosts.now) (Phase.Goes job left fixpoint) result }
    ensures wire { end.new.wire ≡ end.old.wire }
    ensures right { StepIsRight (known T.Of.named budget) result }
    ensures keeps { let seen = seen_end T.told T.Tree.faults T.reads W.talk W.state W.Wire.faults O.kept O.Outs.faults in
        StepKeeps (known T.Of.named budget) jobs.now hosts.now client (Phase.Goes job left fixpoint) (seen end.old) (seen end.new) result }
{
    if left == 0 {
        return settled(job, Cause::Memory);
    }
    let mut fixpoint = fixpoint;
    match fixpoint.next() {
        Next::Search(ask) => return searched(
            alloc,
            budget,
            client,
            jobs,
            hosts,
            end,
            job,
            left - 1,
            fixpoint,
            ask,
        ),
        Next::Sheet(visit) => return asked(
            alloc,
            budget,
            client,
            jobs,
            hosts,
            end,
            job,
            left - 1,
            fixpoint,
            visit,
        ),
        Next::Done(closure) => return gathered(
            alloc, budget, client, jobs, hosts, end, job, closure,
        ),
        Next::Refused(refusal) => return refused(budget, client, jobs, hosts, end, job, refusal),
        Next::Memory => return settled(job, Cause::Memory),
    }
}

// The search that the analysis asked for is made.
fn searched<T: Tree, W: Wire, O: Outs>(
    alloc: Global,
    budget: u32,
    client: u32,
    jobs: &[Job],
    hosts: &[Host],
    end: &mut End<T, W, O>,
    job: u32,
    left: u64,
    fixpoint: Fixpoint,
    ask: Ask,
) -> Advanced
    requires job { job < length jobs.now }
    requires some_host { 0 < length hosts.now }
    requires form { NeedsFrom ask.form ask.from }
    ensures advances { AdvancesBelow (length jobs.now) (length hosts.now) job (4 * left + 15) result }
    ensures wire { end.new.wire ≡ end.old.wire }
    ensures right { StepIsRight (known T.Of.named budget) result }
    ensures keeps { let seen = seen_end T.told T.Tree.faults T.reads W.talk W.state W.Wire.faults O.kept O.Outs.faults in
        (was : Progress) → AnswerStepHolds (known T.Of.named budget) jobs.now hosts.now client job was (Next.Search ask) fixpoint (seen end.old) (seen end.new) result }
{
    let mut fixpoint = fixpoint;
    match search(alloc, &mut end.tree, jobs[job as usize].setup(), &ask) {
        Ok(got) => {
            fixpoint.put_search(got);
            return Advanced::Goes(Phase::Goes {
                job,
                left,
                fixpoint,
            });
        }
        Err(TreeError::Fault) => return broken(job, client),
        Err(TreeError::Large | TreeError::Memory) => return settled(job, Cause::Memory),
    }
}

// The sheet that the analysis asked for is looked for in the memo.
fn asked<T: Tree, W: Wire, O: Outs>(
    alloc: Global,
    budget: u32,
    client: u32,
    jobs: &[Job],
    hosts: &[Host],
    end: &End<T, W, O>,
    job: u32,
    left: u64,
    fixpoint: Fixpoint,
    visit: Visit,
) -> Advanced
    requires job { job < length jobs.now }
    requires some_host { 0 < length hosts.now }
    ensures advances { AdvancesBelow (length jobs.now) (length hosts.now) job (4 * left + 15) result }
    ensures right { StepIsRight (known T.Of.named budget) result }
    ensures keeps { let seen = seen_end T.told T.Tree.faults T.reads W.talk W.state W.Wire.faults O.kept O.Outs.faults in
        (was : Progress) → AnswerStepHolds (known T.Of.named budget) jobs.now hosts.now client job was (Next.Sheet visit) fixpoint (seen end.now) (seen end.now) result }
{
    closures();
    match two_keys(alloc, &jobs[job as usize], visit) {
        Ok((key, same)) => return Advanced::Waits(
            Phase::Looks {
                job,
                left,
                fixpoint,
                key,
            },
            Need::Look(same),
        ),
        Err(_) => return settled(job, Cause::Memory),
    }
}

// The key of a visit in the job, twice.
fn two_keys(alloc: Global, job: &Job, visit: Visit) -> Result<(SheetKey, SheetKey), AllocError>
    ensures { IfOk result (λ keys. (keys.0 ≡ key_of job.now.setup visit) × (keys.1 ≡ key_of job.now.setup visit)) }
{
    let key = SheetKey {
        setup: job.setup().copy()?,
        visit,
    };
    let same = key.copy(alloc)?;
    Ok((key, same))
}

// The closure's request is made.
fn gathered<T: Tree, W: Wire, O: Outs>(
    alloc: Global,
    budget: u32,
    client: u32,
    jobs: &[Job],
    hosts: &[Host],
    end: &mut End<T, W, O>,
    job: u32,
    closure: Closure,
) -> Advanced
    requires job { job < length jobs.now }
    requires some_host { 0 < length hosts.now }
    ensures advances { AdvancesBelow (length jobs.now) (length hosts.now) job 11 result }
    ensures wire { end.new.wire ≡ end.old.wire }
    ensures right { StepIsRight (known T.Of.named budget) result }
    ensures keeps { let seen = seen_end T.told T.Tree.faults T.reads W.talk W.state W.Wire.faults O.kept O.Outs.faults in
        (was now : Progress) → AnswerStepHolds (known T.Of.named budget) jobs.now hosts.now client job was (Next.Done closure) now (seen end.old) (seen end.new) result }
{
    match request_of(alloc, &mut end.tree, &jobs[job as usize], &closure) {
        Ok(Analysed::Request(request)) => return Advanced::Goes(Phase::Wants { job, request }),
        Ok(Analysed::Refused(refusal)) => return settled(job, Cause::Analysis(refusal)),
        Err(TreeError::Fault) => return broken(job, client),
        Err(TreeError::Large | TreeError::Memory) => return settled(job, Cause::Memory),
    }
}

// The analysis refused the job.
fn refused<T: Tree, W: Wire, O: Outs>(
    budget: u32,
    client: u32,
    jobs: &[Job],
    hosts: &[Host],
    end: &End<T, W, O>,
    job: u32,
    refusal: Refusal,
) -> Advanced
    requires job { job < length jobs.now }
    requires some_host { 0 < length hosts.now }
    ensures advances { AdvancesBelow (length jobs.now) (length hosts.now) job 11 result }
    ensures right { StepIsRight (known T.Of.named budget) result }
    ensures keeps { let seen = seen_end T.told T.Tree.faults T.reads W.talk W.state W.Wire.faults O.kept O.Outs.faults in
        (was now : Progress) → AnswerStepHolds (known T.Of.named budget) jobs.now hosts.now client job was (Next.Refused refusal) now (seen end.now) (seen end.now) result }
{
    refusals_hold();
    settled(job, Cause::Analysis(refusal))
}

/// The analysis goes on with a sheet that the memo had.
pub(crate) fn find<T: Tree, W: Wire, O: Outs>(
    alloc: Global,
    budget: u32,
    client: u32,
    jobs: &[Job],
    hosts: &[Host],
    end: &End<T, W, O>,
    job: u32,
    left: u64,
    fixpoint: Fixpoint,
    key: SheetKey,
    sheet: Sheet,
) -> Advanced
    requires { job < length jobs.now }
    ensures advances { Advances (length jobs.now) (length hosts.now) (Phase.Finds job left fixpoint key sheet) result }
    ensures right { StepIsRight (known T.Of.named budget) result }
    ensures keeps { let seen = seen_end T.told T.Tree.faults T.reads W.talk W.state W.Wire.faults O.kept O.Outs.faults in
        StepKeeps (known T.Of.named budget) jobs.now hosts.now client (Phase.Finds job left fixpoint key sheet) (seen end.now) (seen end.now) result }
{
    let mut fixpoint = fixpoint;
    fixpoint.put_sheet(sheet);
    Advanced::Goes(Phase::Goes {
        job,
        left,
        fixpoint,
    })
}

/// The sheet that the memo hadn't is built, and its publication is wanted.
pub(crate) fn miss<T: Tree, W: Wire, O: Outs>(
    alloc: Global,
    budget: u32,
    client: u32,
    jobs: &[Job],
    hosts: &[Host],
    end: &mut End<T, W, O>,
    job: u32,
    left: u64,
    fixpoint: Fixpoint,
    key: SheetKey,
) -> Advanced
    requires job { job < length jobs.now }
    requires some_host { 0 < length hosts.now }
    ensures advances { Advances (length jobs.now) (length hosts.now) (Phase.Misses job left fixpoint key) result }
    ensures wire { end.new.wire ≡ end.old.wire }
    ensures right { StepIsRight (known T.Of.named budget) result }
    ensures keeps { let seen = seen_end T.told T.Tree.faults T.reads W.talk W.state W.Wire.faults O.kept O.Outs.faults in
        StepKeeps (known T.Of.named budget) jobs.now hosts.now client (Phase.Misses job left fixpoint key) (seen end.old) (seen end.new) result }
{
    let mut fixpoint = fixpoint;
    match sheet(alloc, &mut end.tree, &key.setup, &key.visit) {
        Ok(sheet) => match two_copies(alloc, &key, &sheet) {
            Ok((same_key, same_sheet)) => {
                fixpoint.put_sheet(sheet);
                return Advanced::Waits(
                    Phase::Publishes {
                        job,
                        left,
                        fixpoint,
                        key,
                    },
                    Need::Publish(same_key, same_sheet),
                );
            }
            Err(_) => return settled(job, Cause::Memory),
        },
        Err(TreeError::Large) => {
            fixpoint.put_large();
            return Advanced::Goes(Phase::Goes {
                job,
                left,
                fixpoint,
            });
        }
        Err(TreeError::Fault) => return broken(job, client),
        Err(TreeError::Memory) => return settled(job, Cause::Memory),
    }
}

// A copy of the key, and the sheet once more.
fn two_copies(alloc: Global, key: &SheetKey, sheet: &Sheet) -> Result<(SheetKey, Sheet), AllocError>
    ensures { IfOk result (λ copies. (copies.0 ≡ key.now) × (copies.1 ≡ sheet.now)) }
{
    let same_key = key.copy(alloc)?;
    let same_sheet = sheet.copy()?;
    Ok((same_key, same_sheet))
}
