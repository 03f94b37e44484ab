// A run at one end over a tree that is named.
ghost use Rattle.std.specs.Prelude.{◌≡◌, ◌<◌, ◌∷◌, ℕ, List, [], length, All, IfOk, IfErr, IsTrue, Ok, Some};
ghost use Rattle.tree_model.specs.Entries.{links_fit, mirror_error};
ghost use Rattle.tree_model.specs.Trees.{tree_of, NamesOnly};
ghost use Rattle.job_words.specs.declared.job.Job.{Job};
ghost use Rattle.compile_list.specs.Listed.{jobs_of};
ghost use Rattle.daemon_cpp.specs.Prep.{outcome_over};
ghost use Rattle.job_ends.specs.declared.record.Done.{Done};
ghost use Rattle.client_order.specs.declared.totals.Totals.{Totals};
ghost use Rattle.pump_run.specs.Report.{run_text};
ghost use Rattle.worked_examples.specs.declared.named_run.NoRun.TheVariants.{Memory};

use base_types::Bytes;
use build_clients::{End, JobOutcome};
use daemon_cpp::Outcome;
use daemon_serve::{MemWire, ServePeer};
use io_edges::{LinkState, MemOuts, MemSink, MemSource, MemSpawner, Outs, Sink, Wire};
use pump_run::{pump, served_by_daemon};
use std::alloc::{AllocError, AllocFailed, Global};
use std::sync::Wait;
use std::thread::Threads;
use tree_model::{CanonPath, Entry, Frozen, MemTree, MirrorError, Tree};

/// An end in memory over a tree that F names, whose other side is a daemon.
pub type NamedEnd<F> = End<MemTree<F>, MemWire<ServePeer>, MemOuts>;

/// How the objects of an end in memory behave: the numbers, from 1, of the calls that fail at the tree and at the outs;
/// the calls that fail at the wire, and the greatest lengths of its pieces, as `MemWire::new` takes them.
#[derive(Drop)]
pub struct Objects {
    pub tree_fails: Vec<u64>,
    pub outs_fails: Vec<u64>,
    pub wire_fails: Vec<(u32, u32)>,
    pub pieces: Vec<u32>,
}

/// What a run at one end leaves.
#[derive(Drop)]
pub struct Ended {
    pub status: u8,
    pub report: MemSink,
    pub wire: MemWire<ServePeer>,
    pub outs: MemOuts,
}

/// Why there is no run: its entries make no tree, or there was no memory to begin it.
#[derive(Clone, Copy, Debug, PartialEq, Eq, Drop)]
pub enum NoRun {
    Entries(MirrorError),
    Memory,
}

impl From<AllocError> for NoRun {
    ghost from_gives = { λ _ e. e ≡ Memory };

    fn from(_error: AllocError) -> NoRun {
        NoRun::Memory
    }
}

impl<X: Drop> From<AllocFailed<X>> for NoRun {
    ghost from_gives = { λ _ e. e ≡ Memory };

    fn from(_error: AllocFailed<X>) -> NoRun {
        NoRun::Memory
    }
}

/// Runs `pump` at one end, over the tree of these entries, which F names, and with daemons for hosts. So of a list of one job
/// - status 0 says that just the text was put, under the job's output name, that preprocessing over the whole tree gives;
/// - status 1 says that nothing was put, and that the report has the diagnostic that preprocessing over the whole tree gives.
///
/// The words are those of `pump`, and `list_fails` are the numbers, from 1, of the calls that fail at the list.
pub fn run_named<F: Frozen, R: Threads + Wait + Sync>(
    rt: &R,
    alloc: Global,
    words: &[&str],
    list: Bytes,
    list_fails: Vec<u64>,
    entries: Vec<(CanonPath, Entry)>,
    objects: Objects,
) -> Result<Ended, NoRun>
    requires named { F.named ≡ Some (tree_of entries.items) }
    requires links { IsTrue (links_fit entries.items) }
    requires pieces { All (λ n. 0 < n) objects.pieces.items }
    ensures text { IfOk result (λ ended. ended.status ≡ 0 → (job : Job) → jobs_of list ≡ Ok (job ∷ []) →
        (body : List ℕ) × (outcome_over (tree_of entries.items) job ≡ Outcome.Text body)
        × (⟦<MemOuts as Outs>⟧.kept ended.outs ≡ Some ((job.output, body) ∷ []))) }
    ensures diagnostic { IfOk result (λ ended. ended.status ≡ 1 → (job : Job) → jobs_of list ≡ Ok (job ∷ []) →
        (line : List ℕ) × (outcome_over (tree_of entries.items) job ≡ Outcome.Diag line)
        × (⟦<MemOuts as Outs>⟧.kept ended.outs ≡ Some []) × (done : Done) × (done.outcome ≡ JobOutcome.Diag line)
        × (totals : Totals) × (⟦<MemSink as Sink>⟧.held ended.report ≡ Some (run_text (done ∷ []) totals))) }
    ensures no_tree { IfErr result (λ e. (why : _) → e ≡ NoRun.Entries why → mirror_error entries.items ≡ Some why) }
{
    let end = match end_over::<F>(alloc, entries, objects) {
        Ok(end) => end,
        Err(why) => return Err(NoRun::Entries(why)),
    };
    let mut ends = vec![in alloc; end]?;
    let mut source = MemSource::new(list, list_fails);
    let mut spawner = MemSpawner::new(alloc, Vec::new(alloc));
    let mut report = MemSink::new(alloc, Vec::new(alloc));
    let status = pump(
        rt,
        alloc,
        words,
        &mut source,
        &mut ends,
        &mut spawner,
        &mut report,
    );
    served_by_daemon::<MemWire<ServePeer>>();
    let End { wire, outs, .. } = only(ends);
    Ok(Ended {
        status,
        report,
        wire,
        outs,
    })
}

/// An end over the tree of these entries, at which no call was made; or why they make no tree.
pub fn end_over<F: Frozen>(
    alloc: Global,
    entries: Vec<(CanonPath, Entry)>,
    objects: Objects,
) -> Result<NamedEnd<F>, MirrorError>
    requires names { NamesOnly F.named (tree_of entries.items) }
    requires links { IsTrue (links_fit entries.items) }
    requires pieces { All (λ n. 0 < n) objects.pieces.items }
    ensures closed { IfOk result (λ end. end.wire.state ≡ LinkState.Closed) }
    ensures silent { IfOk result (λ end. end.wire.talk ≡ []) }
    ensures wire_faults { IfOk result (λ end. end.wire.faults ≡ 0) }
    ensures kept { IfOk result (λ end. ⟦<MemOuts as Outs>⟧.kept end.outs ≡ Some []) }
    ensures outs_faults { IfOk result (λ end. ⟦<MemOuts as Outs>⟧.faults end.outs ≡ 0) }
    ensures tree_faults { IfOk result (λ end. ⟦<MemTree<F> as Tree>⟧.faults end.tree ≡ 0) }
    ensures error { IfErr result (λ e. mirror_error entries.items ≡ Some e) }
{
    let Objects {
        tree_fails,
        outs_fails,
        wire_fails,
        pieces,
    } = objects;
    let tree = MemTree::<F>::new(alloc, entries, tree_fails)?;
    let wire = MemWire::new(alloc, ServePeer, pieces, wire_fails);
    let outs = MemOuts::new(alloc, outs_fails);
    Ok(End { tree, wire, outs })
}

// The one member.
fn only<X: Drop>(members: Vec<X>) -> X
    requires { length members.items ≡ 1 }
    ensures { members.items ≡ result ∷ [] }
{
    let mut members = members;
    match members.pop() {
        Some(member) => member,
        None => unreachable!(),
    }
}
