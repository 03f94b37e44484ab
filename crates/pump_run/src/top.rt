// The top call.
ghost use Rattle.std.specs.Prelude.{◌≡◌, ◌<◌, ◌≤◌, [], length, map};
ghost use Rattle.std.specs.List.{AllByRecursion};
ghost use Rattle.base_types.specs.Limits.{client_limit};
ghost use Rattle.job_ends.specs.Outside.{seen_end};
ghost use Rattle.job_ends.specs.Works.{IsFresh};
ghost use Rattle.pump_run.specs.Run.{IsRun, outside, pump_given};

use crate::clients::{number_of, run_clients};
use crate::ending::{FAULT, NO_MEMORY, REFUSED, USAGE, refuse, tell};
use crate::report::refusal_line;
use build_clients::{End, Progress, Unwatched};
use compile_list::{NoJobs, listed_jobs};
use io_edges::{Outs, Sink, Source, Spawner, Wire};
use run_words::asked_in;
use std::alloc::Global;
use std::sync::Wait;
use std::thread::Threads;
use tree_model::Tree;

/// Does the jobs of a compile list. It reads the words, `order ORDER --hosts TEXT` with `-j N` and `--budget N` or without, in
/// any order of the flags (`run_words::asked_in`), and then the list to its end (`compile_list::listed_jobs`); has a client at
/// each of the first ends do the jobs, whose steps go in turns, those of ORDER first (`client_order::run_order`); puts each
/// job's text on its client's outs; and writes the report: the lines of each job, one of totals and one of what the memo of
/// sheets did, or one line that says why nothing was done. The ends weren't used before. The spawner isn't called: hosts are
/// given by name.
///
/// The status is the first of these that holds:
/// - 5: there was no memory, for a job or outside the jobs;
/// - 2: the words aren't in their grammar, or ask for more clients than there are ends;
/// - 3: the list is refused;
/// - 4: the list, the outs or the report failed;
/// - 6: the tree failed in some job;
/// - 1: some job has a diagnostic;
/// - 0: each job has its text.
///
/// A line of refusal that can't be written whole leaves the status.
pub fn pump<T: Tree, W: Wire, O: Outs, P: Spawner, S: Source, K: Sink, R: Threads + Wait + Sync>(
    rt: &R,
    alloc: Global,
    words: &[&str],
    list: &mut S,
    ends: &mut Vec<End<T, W, O>>,
    spawner: &mut P,
    report: &mut K,
) -> u8
    requires some { 1 ≤ length ends.old.items }
    requires few { length ends.old.items ≤ client_limit }
    requires fresh { AllByRecursion IsFresh (map (seen_end T.told T.Tree.faults T.reads W.talk W.state W.Wire.faults O.kept O.Outs.faults) ends.old.items) }
    requires idle { P.running spawner.old ≡ [] }
    ensures run { let seen = seen_end T.told T.Tree.faults T.reads W.talk W.state W.Wire.faults O.kept O.Outs.faults in
        IsRun (pump_given T.Of.named W.peer (map (λ word. word.now) words.now))
        (outside (map seen ends.old.items) (S.left list.old) (S.faults list.old) (P.begun spawner.old) (P.running spawner.old) (P.asked spawner.old) (P.faults spawner.old) (K.held report.old) (K.faults report.old))
        (outside (map seen ends.new.items) (S.left list.new) (S.faults list.new) (P.begun spawner.new) (P.running spawner.new) (P.asked spawner.new) (P.faults spawner.new) (K.held report.new) (K.faults report.new))
        result }
{
    pump_watched(
        rt,
        alloc,
        words,
        list,
        ends,
        spawner,
        report,
        &mut Unwatched,
    )
}

/// `pump`, of which somebody is told whenever a job is done.
pub fn pump_watched<
    T: Tree,
    W: Wire,
    O: Outs,
    P: Spawner,
    S: Source,
    K: Sink,
    G: Progress,
    R: Threads + Wait + Sync,
>(
    rt: &R,
    alloc: Global,
    words: &[&str],
    list: &mut S,
    ends: &mut Vec<End<T, W, O>>,
    spawner: &mut P,
    report: &mut K,
    progress: &mut G,
) -> u8
    requires some { 1 ≤ length ends.old.items }
    requires few { length ends.old.items ≤ client_limit }
    requires fresh { AllByRecursion IsFresh (map (seen_end T.told T.Tree.faults T.reads W.talk W.state W.Wire.faults O.kept O.Outs.faults) ends.old.items) }
    requires idle { P.running spawner.old ≡ [] }
    ensures run { let seen = seen_end T.told T.Tree.faults T.reads W.talk W.state W.Wire.faults O.kept O.Outs.faults in
        IsRun (pump_given T.Of.named W.peer (map (λ word. word.now) words.now))
        (outside (map seen ends.old.items) (S.left list.old) (S.faults list.old) (P.begun spawner.old) (P.running spawner.old) (P.asked spawner.old) (P.faults spawner.old) (K.held report.old) (K.faults report.old))
        (outside (map seen ends.new.items) (S.left list.new) (S.faults list.new) (P.begun spawner.new) (P.running spawner.new) (P.asked spawner.new) (P.faults spawner.new) (K.held report.new) (K.faults report.new))
        result }
{
    let asked = match asked_in(alloc, number_of(ends), words) {
        Ok(Some(asked)) => asked,
        Ok(None) => return refuse(report, b"pump: usage\n".as_slice(), USAGE),
        Err(_) => return refuse(report, b"pump: memory\n".as_slice(), NO_MEMORY),
    };
    let jobs = match listed_jobs(alloc, list) {
        Ok(jobs) => jobs,
        Err(NoJobs::Refused(error)) => {
            let Ok(line) = refusal_line(alloc, error) else {
                return refuse(report, b"pump: memory\n".as_slice(), NO_MEMORY);
            };
            return refuse(report, line.as_slice(), REFUSED);
        }
        Err(NoJobs::Fault) => {
            return refuse(report, b"pump: list read fault\n".as_slice(), FAULT);
        }
        Err(NoJobs::Memory) => return refuse(report, b"pump: memory\n".as_slice(), NO_MEMORY),
    };
    let Ok((records, totals)) = run_clients(
        alloc,
        ends.as_mut_slice(),
        &asked,
        jobs.as_slice(),
        progress,
    ) else {
        return refuse(report, b"pump: memory\n".as_slice(), NO_MEMORY);
    };
    tell(alloc, records.as_slice(), totals, report)
}
