// A run at several ends over one tree that is named.
ghost use Rattle.std.specs.Prelude.{◌≡◌, ◌≤◌, ◌+◌, [], length, map, IfOk, OnOk, IsTrue, Ok, Some, List};
ghost use Rattle.std.specs.List.{All};
ghost use Rattle.tree_model.specs.Entries.{links_fit};
ghost use Rattle.tree_model.specs.Trees.{tree_of};
ghost use Rattle.job_words.specs.declared.job.Job.{Job};
ghost use Rattle.compile_list.specs.Listed.{jobs_of};
ghost use Rattle.job_ends.specs.Outside.{seen_end};
ghost use Rattle.job_ends.specs.Works.{IsFresh};
ghost use Rattle.worked_examples.specs.Several.{EachIsPut};

use crate::named_run::{NamedEnd, NoRun, Objects, end_over};
use base_types::Bytes;
use build_clients::End;
use daemon_serve::{MemWire, ServePeer};
use io_edges::{MemOuts, MemSink, MemSource, MemSpawner, Outs, Wire};
use pump_run::{pump, served_by_daemon};
use std::alloc::{AllocError, Global};
use std::sync::Wait;
use std::thread::Threads;
use tree_model::{CanonPath, Entry, Frozen, MemTree, Tree};

/// What a run at several ends leaves: its outs are those of the ends, in order.
#[derive(Drop)]
pub struct AllEnded {
    pub status: u8,
    pub report: MemSink,
    pub outs: Vec<MemOuts>,
}

/// Runs `pump` at so many ends, each over the tree of these entries, which F names, and with daemons for hosts. So status 0 says that for
/// each job of the list the text was put, under the job's output name and on the outs of one end, that preprocessing over the whole
/// tree gives.
///
/// The words are those of `pump`, and `wire_fails` are the calls that fail at the wire of each end, as `MemWire::new` takes them.
pub fn run_at_ends<F: Frozen, R: Threads + Wait + Sync>(
    rt: &R,
    alloc: Global,
    words: &[&str],
    list: Bytes,
    entries: &[(CanonPath, Entry)],
    number: usize,
    wire_fails: &[(u32, u32)],
) -> Result<AllEnded, NoRun>
    requires named { F.named ≡ Some (tree_of entries.now) }
    requires links { IsTrue (links_fit entries.now) }
    requires some { 1 ≤ number }
    requires few { number ≤ 64 }
    ensures texts { IfOk result (λ ended. ended.status ≡ 0 → (jobs : List Job) → jobs_of list ≡ Ok jobs →
        EachIsPut (tree_of entries.now) (map (λ outs. ⟦<MemOuts as Outs>⟧.kept outs) ended.outs.items) jobs) }
{
    let mut ends = more_ends::<F>(alloc, entries, wire_fails, Vec::new(alloc), number)?;
    let mut source = MemSource::new(list, Vec::new(alloc));
    let mut spawner = MemSpawner::new(alloc, Vec::new(alloc));
    let mut report = MemSink::new(alloc, Vec::new(alloc));
    let status = pump(
        rt,
        alloc,
        words,
        &mut source,
        &mut ends,
        &mut spawner,
        &mut report,
    );
    served_by_daemon::<MemWire<ServePeer>>();
    let outs = outs_of(alloc, ends)?;
    Ok(AllEnded {
        status,
        report,
        outs,
    })
}

// These ends, and so many more over the tree of these entries, at which no call was made.
fn more_ends<F: Frozen>(
    alloc: Global,
    entries: &[(CanonPath, Entry)],
    wire_fails: &[(u32, u32)],
    ends: Vec<NamedEnd<F>>,
    more: usize,
) -> Result<Vec<NamedEnd<F>>, NoRun>
    requires named { F.named ≡ Some (tree_of entries.now) }
    requires links { IsTrue (links_fit entries.now) }
    requires few { length ends.items + more ≤ 64 }
    requires fresh { All (λ end. IsFresh (seen_end ⟦<MemTree<F> as Tree>⟧.told ⟦<MemTree<F> as Tree>⟧.faults ⟦<MemTree<F> as Tree>⟧.reads ⟦<MemWire<ServePeer> as Wire>⟧.talk ⟦<MemWire<ServePeer> as Wire>⟧.state ⟦<MemWire<ServePeer> as Wire>⟧.faults ⟦<MemOuts as Outs>⟧.kept ⟦<MemOuts as Outs>⟧.faults end)) ends.items }
    requires kept { All (λ end. ⟦<MemOuts as Outs>⟧.kept end.outs ≡ Some []) ends.items }
    ensures number { IfOk result (λ all. length all.items ≡ length ends.items + more) }
    ensures fresh { IfOk result (λ all. All (λ end. IsFresh (seen_end ⟦<MemTree<F> as Tree>⟧.told ⟦<MemTree<F> as Tree>⟧.faults ⟦<MemTree<F> as Tree>⟧.reads ⟦<MemWire<ServePeer> as Wire>⟧.talk ⟦<MemWire<ServePeer> as Wire>⟧.state ⟦<MemWire<ServePeer> as Wire>⟧.faults ⟦<MemOuts as Outs>⟧.kept ⟦<MemOuts as Outs>⟧.faults end)) all.items) }
    ensures kept { IfOk result (λ all. All (λ end. ⟦<MemOuts as Outs>⟧.kept end.outs ≡ Some []) all.items) }
{
    let mut ends = ends;
    if more == 0 {
        return Ok(ends);
    }
    add_end(&mut ends, one_end::<F>(alloc, entries, wire_fails)?)?;
    more_ends::<F>(alloc, entries, wire_fails, ends, more - 1)
}

fn add_end<T: Tree + Drop, W: Wire + Drop, O: Outs + Drop>(
    ends: &mut Vec<End<T, W, O>>,
    end: End<T, W, O>,
) -> Result<(), AllocError>
    requires fresh { All (λ e. IsFresh (seen_end T.told T.Tree.faults T.reads W.talk W.state W.Wire.faults O.kept O.Outs.faults e)) ends.old.items }
    requires kept { All (λ e. O.kept e.outs ≡ Some []) ends.old.items }
    requires one_fresh { IsFresh (seen_end T.told T.Tree.faults T.reads W.talk W.state W.Wire.faults O.kept O.Outs.faults end) }
    requires one_kept { O.kept end.outs ≡ Some [] }
    ensures number { OnOk result (length ends.new.items ≡ length ends.old.items + 1) }
    ensures fresh { OnOk result (All (λ e. IsFresh (seen_end T.told T.Tree.faults T.reads W.talk W.state W.Wire.faults O.kept O.Outs.faults e)) ends.new.items) }
    ensures kept { OnOk result (All (λ e. O.kept e.outs ≡ Some []) ends.new.items) }
{
    ends.push(end)?;
    Ok(())
}

fn one_end<F: Frozen>(
    alloc: Global,
    entries: &[(CanonPath, Entry)],
    wire_fails: &[(u32, u32)],
) -> Result<NamedEnd<F>, NoRun>
    requires named { F.named ≡ Some (tree_of entries.now) }
    requires links { IsTrue (links_fit entries.now) }
    ensures fresh { IfOk result (λ end. IsFresh (seen_end ⟦<MemTree<F> as Tree>⟧.told ⟦<MemTree<F> as Tree>⟧.faults ⟦<MemTree<F> as Tree>⟧.reads ⟦<MemWire<ServePeer> as Wire>⟧.talk ⟦<MemWire<ServePeer> as Wire>⟧.state ⟦<MemWire<ServePeer> as Wire>⟧.faults ⟦<MemOuts as Outs>⟧.kept ⟦<MemOuts as Outs>⟧.faults end)) }
    ensures kept { IfOk result (λ end. ⟦<MemOuts as Outs>⟧.kept end.outs ≡ Some []) }
{
    let copy = copy_entries(alloc, entries)?;
    let objects = Objects {
        tree_fails: Vec::new(alloc),
        outs_fails: Vec::new(alloc),
        wire_fails: wire_fails.to_vec(alloc)?,
        pieces: Vec::new(alloc),
    };
    match end_over::<F>(alloc, copy, objects) {
        Ok(end) => return Ok(end),
        Err(why) => return Err(NoRun::Entries(why)),
    }
}

fn copy_entries(
    alloc: Global,
    entries: &[(CanonPath, Entry)],
) -> Result<Vec<(CanonPath, Entry)>, AllocError>
    ensures { IfOk result (λ copy. copy.items ≡ entries.now) }
{
    let mut copy = Vec::new(alloc);
    for (path, entry) in entries {
        copy.push((path.copy(alloc)?, copy_entry(alloc, entry)?))?;
    }
    Ok(copy)
}

fn copy_entry(alloc: Global, entry: &Entry) -> Result<Entry, AllocError>
    ensures { IfOk result (λ copy. copy ≡ entry.now) }
{
    match entry {
        Entry::Dir => Ok(Entry::Dir),
        Entry::File(body) => Ok(Entry::File(Bytes::copy_of(alloc, body.as_slice())?)),
        Entry::Link(text) => Ok(Entry::Link(Bytes::copy_of(alloc, text.as_slice())?)),
    }
}

// The outs of ends, in order.
fn outs_of<T: Tree + Drop, W: Wire + Drop>(
    alloc: Global,
    ends: Vec<End<T, W, MemOuts>>,
) -> Result<Vec<MemOuts>, AllocError>
    ensures { IfOk result (λ outs. outs.items ≡ map (λ end. end.outs) ends.items) }
{
    let mut all = Vec::new(alloc);
    for end in ends {
        let End { outs, .. } = end;
        all.push(outs)?;
    }
    Ok(all)
}
