// The analysis of a job.
ghost use Rattle.std.specs.Prelude.{◌≡◌, ℕ, Bool, IfOk, IfSome, OnOk, IsErrOf};
ghost use Rattle.std.specs.Option.{ForSome};
ghost use Rattle.base_types.specs.Causes.{HasCause};
ghost use Rattle.search_path.specs.Search.{NeedsFrom};
ghost use Rattle.closure_fixpoint.specs.Analysis.{AnalysisHolds};
ghost use Rattle.closure_fixpoint.specs.Told.{OfSearch, OfSheet};
ghost use Rattle.closure_fixpoint.specs.Driving.{IsOfTree, IsOfTreeUnlessBroken, StepsSo, EndsSo, IsDoneIn, HasCanonicalNodes};
ghost use Rattle.closure_fixpoint.specs.Requested.{ReadsEntries};
ghost use Rattle.closure_fixpoint.specs.parts.Bodies.{bodies_known, AreBodiesOf};

use crate::bodies::Bodies;
use crate::{Closure, Fixpoint, Gathered, Next, gather, refusals_hold};
use base_types::Bytes;
use directive_scan::HeaderName;
use job_frames::write_request;
use job_words::Job;
use search_path::{Ask, Visit, search, searches_locate};
use sheet_build::{FoundSheet, unweighed_sheet};
use std::alloc::Global;
use symbolic_expand::more_definitions;
use tree_model::{Tree, TreeError, walked_law};

/// Why an analysis is refused; the job is then done locally, and the report shows `local A1` to `local A7`.
#[derive(Clone, Copy, Debug, PartialEq, Eq, Drop)]
pub enum Refusal {
    /// A computed include has more choices of definitions than the budget.
    Budget,
    /// A choice of definitions needs too much work.
    Long,
    /// A choice of definitions uses a presumed name or line.
    Presumed,
    /// Too many files are included.
    Visits,
    /// A file has more than 16,777,216 bytes.
    Large,
    /// There are more than 100,000 entries, or the request would have more than 268,435,456 bytes.
    Request,
    /// The source isn't found.
    NoSource,
}

/// What an analysis gives: the whole request of the job, or why there is none.
#[derive(Debug, Drop)]
pub enum Analysed {
    Request(Bytes),
    Refused(Refusal),
}

/// Analyses a job over a tree. The bytes of a file that a sheet was made of are sent as they were read.
pub fn analyse<T: Tree>(
    alloc: Global,
    tree: &mut T,
    job: &Job,
    budget: u32,
) -> Result<Analysed, TreeError>
    ensures same { T.told tree.new ≡ T.told tree.old }
    ensures answer { IfOk result (λ answer. IfSome (T.told tree.old) (λ told. AnalysisHolds told job.now budget answer)) }
    ensures cause { HasCause TreeError.Fault (T.faults tree.old) (T.faults tree.new) result }
    ensures never_large { IsErrOf result TreeError.Large → ⊥ }
{
    refusals_hold();
    let mut bodies = Bodies::new(alloc);
    match ending_of(alloc, tree, job, budget, &mut bodies)? {
        Ending::Done(closure) => request_with(alloc, tree, job, &closure, &mut bodies),
        Ending::Refused(refusal) => Ok(Analysed::Refused(refusal)),
    }
}

/// The request of a closure, with which an analysis of the job over this tree was done, or why there is none: `Large` and
/// `Request`, as `gather` says.
pub fn request_of<T: Tree>(
    alloc: Global,
    tree: &mut T,
    job: &Job,
    closure: &Closure,
) -> Result<Analysed, TreeError>
    ensures same { T.told tree.new ≡ T.told tree.old }
    ensures answer { ForSome (T.told tree.old) (λ told. IfOk result (λ answer. (budget : ℕ) → IsDoneIn told job.now budget closure.now.visits closure.now.nodes → AnalysisHolds told job.now budget answer)) }
    ensures reads { ForSome (T.told tree.old) (λ told. IfOk result (λ answer. (budget : ℕ) → IsDoneIn told job.now budget closure.now.visits closure.now.nodes → ReadsEntries told job.now (T.reads tree.old) (T.reads tree.new) answer)) }
    ensures cause { HasCause TreeError.Fault (T.faults tree.old) (T.faults tree.new) result }
    ensures never_large { IsErrOf result TreeError.Large → ⊥ }
{
    let mut bodies = Bodies::new(alloc);
    request_with(alloc, tree, job, closure, &mut bodies)
}

// The same, where the bytes of these files are known.
fn request_with<T: Tree>(
    alloc: Global,
    tree: &mut T,
    job: &Job,
    closure: &Closure,
    bodies: &mut Bodies,
) -> Result<Analysed, TreeError>
    requires bodies { AreBodiesOf (T.told tree.old) (bodies_known bodies.old) }
    ensures same { T.told tree.new ≡ T.told tree.old }
    ensures answer { ForSome (T.told tree.old) (λ told. IfOk result (λ answer. (budget : ℕ) → IsDoneIn told job.now budget closure.now.visits closure.now.nodes → AnalysisHolds told job.now budget answer)) }
    ensures reads { ForSome (T.told tree.old) (λ told. IfOk result (λ answer. (budget : ℕ) → IsDoneIn told job.now budget closure.now.visits closure.now.nodes → ReadsEntries told job.now (T.reads tree.old) (T.reads tree.new) answer)) }
    ensures cause { HasCause TreeError.Fault (T.faults tree.old) (T.faults tree.new) result }
    ensures never_large { IsErrOf result TreeError.Large → ⊥ }
{
    walked_law();
    searches_locate();
    more_definitions::<HeaderName>();
    let entries = match gather(alloc, tree, job, closure, bodies)? {
        Gathered::Entries(entries) => entries,
        Gathered::Refused(refusal) => return Ok(Analysed::Refused(refusal)),
    };
    Ok(Analysed::Request(write_request(alloc, job, &entries)?))
}

// How an analysis ends: with the closure, or with why it is refused.
#[derive(Drop)]
enum Ending {
    Done(Closure),
    Refused(Refusal),
}

// Asks and answers to the end.
fn ending_of<T: Tree>(
    alloc: Global,
    tree: &mut T,
    job: &Job,
    budget: u32,
    bodies: &mut Bodies,
) -> Result<Ending, TreeError>
    requires bodies { AreBodiesOf (T.told tree.old) (bodies_known bodies.old) }
    ensures same { T.told tree.new ≡ T.told tree.old }
    ensures bodies { AreBodiesOf (T.told tree.new) (bodies_known bodies.new) }
    ensures ends { ForSome (T.told tree.old) (λ told. IfOk result (EndsSo told job.now budget)) }
    ensures canonical { IfOk result HasCanonicalNodes }
    ensures cause { HasCause TreeError.Fault (T.faults tree.old) (T.faults tree.new) result }
    ensures never_large { IsErrOf result TreeError.Large → ⊥ }
{
    let mut analysis = Fixpoint::new(alloc, job, budget)?;
    for _ in 0..u64::MAX {
        match step(alloc, tree, job, &mut analysis, bodies) {
            Ok(None) => (),
            Ok(Some(ending)) => return Ok(ending),
            Err(error) => return Err(error),
        }
    }
    Err(TreeError::Memory)
}

// One question with its answer, or the end.
fn step<T: Tree>(
    alloc: Global,
    tree: &mut T,
    job: &Job,
    analysis: &mut Fixpoint,
    bodies: &mut Bodies,
) -> Result<Option<Ending>, TreeError>
    requires bodies { AreBodiesOf (T.told tree.old) (bodies_known bodies.old) }
    ensures same { T.told tree.new ≡ T.told tree.old }
    ensures bodies { AreBodiesOf (T.told tree.new) (bodies_known bodies.new) }
    ensures steps { ForSome (T.told tree.old) (λ told. IfOk result (λ end. (budget : ℕ) → IsOfTreeUnlessBroken told job.now budget analysis.old → StepsSo told job.now budget analysis.new end)) }
    ensures canonical { IfOk result (λ end. IfSome end HasCanonicalNodes) }
    ensures cause { HasCause TreeError.Fault (T.faults tree.old) (T.faults tree.new) result }
    ensures never_large { IsErrOf result TreeError.Large → ⊥ }
{
    match analysis.next() {
        Next::Search(ask) => match answer_search(alloc, tree, job, &ask, analysis) {
            Ok(()) => Ok(None),
            Err(error) => Err(error),
        },
        Next::Sheet(visit) => match answer_sheet(alloc, tree, job, &visit, analysis, bodies) {
            Ok(()) => Ok(None),
            Err(error) => Err(error),
        },
        Next::Done(closure) => Ok(Some(Ending::Done(closure))),
        Next::Refused(refusal) => Ok(Some(Ending::Refused(refusal))),
        Next::Memory => Err(TreeError::Memory),
    }
}

// Answers the search that is asked for.
fn answer_search<T: Tree>(
    alloc: Global,
    tree: &mut T,
    job: &Job,
    ask: &Ask,
    analysis: &mut Fixpoint,
) -> Result<(), TreeError>
    requires { NeedsFrom ask.now.form ask.now.from }
    ensures same { T.told tree.new ≡ T.told tree.old }
    ensures told { ForSome (T.told tree.old) (λ told. OnOk result ((budget : ℕ) (include : Bool) → analysis.old.pending ≡ OfSearch ask.now include → IsOfTree told job.now budget analysis.old → IsOfTreeUnlessBroken told job.now budget analysis.new)) }
    ensures cause { HasCause TreeError.Fault (T.faults tree.old) (T.faults tree.new) result }
    ensures never_large { IsErrOf result TreeError.Large → ⊥ }
{
    match search(alloc, tree, job.setup(), ask) {
        Ok(got) => {
            analysis.put_search(got);
            Ok(())
        }
        Err(error) => Err(error),
    }
}

// Answers the sheet that is asked for.
fn answer_sheet<T: Tree>(
    alloc: Global,
    tree: &mut T,
    job: &Job,
    visit: &Visit,
    analysis: &mut Fixpoint,
    bodies: &mut Bodies,
) -> Result<(), TreeError>
    requires bodies { AreBodiesOf (T.told tree.old) (bodies_known bodies.old) }
    ensures same { T.told tree.new ≡ T.told tree.old }
    ensures bodies { AreBodiesOf (T.told tree.new) (bodies_known bodies.new) }
    ensures told { ForSome (T.told tree.old) (λ told. OnOk result ((budget : ℕ) → analysis.old.pending ≡ OfSheet visit.now → IsOfTree told job.now budget analysis.old → IsOfTreeUnlessBroken told job.now budget analysis.new)) }
    ensures cause { HasCause TreeError.Fault (T.faults tree.old) (T.faults tree.new) result }
    ensures never_large { IsErrOf result TreeError.Large → ⊥ }
{
    match unweighed_sheet(alloc, tree, job.setup(), visit) {
        Ok(found) => {
            let FoundSheet { sheet, file } = found;
            bodies.put(file)?;
            analysis.put_unweighed(sheet);
            Ok(())
        }
        Err(TreeError::Large) => {
            analysis.put_large();
            Ok(())
        }
        Err(error) => Err(error),
    }
}
