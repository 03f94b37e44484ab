//! The program: a compile list on standard input, the report on standard output, the texts below the folder `out`.
#![tactic(auto)]

mod kept;
mod progress;
mod told;
mod wrong_list;

ghost use Rattle.std.specs.Prelude.{◌≡◌, ◌≤◌, ◌+◌, length, IfOk, OnOk};
ghost use Rattle.std.specs.List.{All};
ghost use Rattle.std.specs.IoError.{error_kind};
ghost use Rattle.std.specs.Process.{exit_status};
ghost use Rattle.base_types.specs.Limits.{client_limit};
ghost use Rattle.command_line.specs.Failures.{failure_status};
ghost use Rattle.job_ends.specs.Outside.{seen_end};
ghost use Rattle.job_ends.specs.Works.{IsFresh};

use base_types::limits::CLIENT_LIMIT;
use command_line::{ended, keep_blocks, show, words_of};
use daemon_serve::{MemWire, ServePeer};
use host_tree::Folder;
use io_edges::{FolderOuts, MemSpawner, Outs, Sink, Source, StdSink, StdSource, Wire};
use kept::Kept;
use progress::ProgressLine;
use pump_run::{End, Progress, pump_watched};
use std::alloc::{AllocError, Global};
use std::io::ErrorKind;
use std::process::ExitCode;
use std::sync::Wait;
use std::thread::Threads;
use std::{env, io};
use told::{NAME, tell_faults, tell_status, tell_stream};
use tree_model::{Cached, Tree};

const HELP: &str = "usage: pump_program order ORDER --hosts HOSTS [-j N] [--budget N] < LIST

A line of LIST asks for a job: a working directory, and the words of a compile
command without the compiler's name, with one C source in them; a `\\` makes the
byte behind it one of a word, and a line that begins with # is passed over. Of
the options -I, -iquote, -isystem, -idirafter, -include, -D, -U, -o and
-trigraphs are read, and those without effect on preprocessing passed over.
Each source is preprocessed as `cc -E` would, by a daemon that gets just the
files that it may include, or else here. Its text is written below the folder
`out`, under the name of -o, also where that begins with `/`, or the source's
with `.i`; no two jobs of a list may have the same. A report is written to
standard output, and a line on what failed, and why, to standard error; where
that is a terminal, a line there says how far the run is.

As many clients as -j says, 1 to 64 or else 64, do the jobs in turns, and share
what they learn of the files. ORDER is whose turns come first: the numbers of
clients from 0, with a `,` between them, or `-` for none; then turns go round
and round. HOSTS is 1 to 64 words with blanks between them, each HOST[:PORT]
with [/LIMIT] behind it, how many jobs the host may have at a time. So far the
daemon is in this process, and no host is dialed. --budget, 1 to 65536 or else
4096, is how many choices of definitions a computed include may have; a job
with more is done here.

status: 0 a text of each job, 1 a diagnostic, 2 wrong words, 3 a wrong list, 4 a
failed read, write or start, 5 out of memory, 6 a failed read of the tree; where
several hold, it is the first of 5, 4, 6, 1";

type HostTree = Cached<Folder<HostRuntime>>;

type HostEnd = End<HostTree, MemWire<ServePeer>, FolderOuts<HostRuntime>>;

fn main(rt: HostRuntime) -> ExitCode {
    match answer(&rt, &rt) {
        Ok(status) => status,
        Err(error) => give_up(&rt, error),
    }
}

fn answer<H: Threads + Wait + Sync>(handles: &H, rt: &HostRuntime) -> io::Result<ExitCode> {
    let arguments = env::args(rt)?.collect(rt.alloc())?;
    let words = words_of(rt.alloc(), &arguments)?;
    match words.as_slice() {
        ["--help"] => show(rt, HELP),
        ["--version"] => show(rt, "pump_program 0.1.0"),
        words => run(handles, rt, words),
    }
}

// Ends a program that the host failed before a run began, with the report that a run would give.
fn give_up(rt: &HostRuntime, error: io::Error) -> ExitCode
    ensures { exit_status result ≡ failure_status (error_kind error) }
{
    let _ = match error.kind() {
        ErrorKind::InvalidData => println!(rt; "pump: usage"),
        ErrorKind::OutOfMemory => println!(rt; "pump: memory"),
        _ => Ok(()),
    };
    ended(rt, NAME, Err(error))
}

// Runs the words over the host's files, input and output.
fn run<H: Threads + Wait + Sync>(
    handles: &H,
    rt: &HostRuntime,
    words: &[&str],
) -> io::Result<ExitCode> {
    keep_blocks(rt.alloc());
    let mut ends = new_ends(rt)?;
    let mut list = Kept::over(rt.alloc(), StdSource::new(rt));
    let mut report = StdSink::new(rt.clone()?);
    let mut progress = ProgressLine::new(rt.clone()?, &rt.stderr());
    let status = run_over(
        handles,
        rt.alloc(),
        words,
        &mut ends,
        &mut list,
        &mut report,
        &mut progress,
    );
    progress.end();
    for end in ends {
        tell_end(rt, end);
    }
    tell_stream(rt, "standard input", list.source().last_error());
    tell_stream(rt, "standard output", report.last_error());
    tell_status(rt, status, list.bytes());
    Ok(ExitCode::from(status))
}

// Says what the host failed at in the tree and in the outputs of an end.
fn tell_end(rt: &HostRuntime, end: HostEnd) {
    let End { tree, outs, .. } = end;
    tell_faults(rt, &tree.into_inner(), &outs);
}

// Runs the words over these ends, one for each client that there may be, and answers the status.
fn run_over<T: Tree, W: Wire, O: Outs, S: Source, K: Sink, G: Progress, H: Threads + Wait + Sync>(
    handles: &H,
    alloc: Global,
    words: &[&str],
    ends: &mut Vec<End<T, W, O>>,
    list: &mut S,
    report: &mut K,
    progress: &mut G,
) -> u8
    requires some { 1 ≤ length ends.old.items }
    requires few { length ends.old.items ≤ client_limit }
    requires fresh { All (λ end. IsFresh (seen_end T.told T.Tree.faults T.reads W.talk W.state W.Wire.faults O.kept O.Outs.faults end)) ends.old.items }
{
    let mut spawner = MemSpawner::new(alloc, Vec::new(alloc));
    pump_watched(
        handles,
        alloc,
        words,
        list,
        ends,
        &mut spawner,
        report,
        progress,
    )
}

// As many ends as there may be clients.
fn new_ends(rt: &HostRuntime) -> io::Result<Vec<HostEnd>>
    ensures number { IfOk result (λ ends. length ends.items ≡ client_limit) }
    ensures fresh { IfOk result (λ ends. All (λ end. IsFresh (seen_end ⟦<Cached<Folder<HostRuntime>> as Tree>⟧.told ⟦<Cached<Folder<HostRuntime>> as Tree>⟧.faults ⟦<Cached<Folder<HostRuntime>> as Tree>⟧.reads ⟦<MemWire<ServePeer> as Wire>⟧.talk ⟦<MemWire<ServePeer> as Wire>⟧.state ⟦<MemWire<ServePeer> as Wire>⟧.faults ⟦<FolderOuts<HostRuntime> as Outs>⟧.kept ⟦<FolderOuts<HostRuntime> as Outs>⟧.faults end)) ends.items) }
{
    more_ends(rt, Vec::new(rt.alloc()), CLIENT_LIMIT)
}

// These ends, and so many more.
fn more_ends(rt: &HostRuntime, ends: Vec<HostEnd>, more: usize) -> io::Result<Vec<HostEnd>>
    requires few { length ends.items + more ≤ client_limit }
    requires fresh { All (λ end. IsFresh (seen_end ⟦<Cached<Folder<HostRuntime>> as Tree>⟧.told ⟦<Cached<Folder<HostRuntime>> as Tree>⟧.faults ⟦<Cached<Folder<HostRuntime>> as Tree>⟧.reads ⟦<MemWire<ServePeer> as Wire>⟧.talk ⟦<MemWire<ServePeer> as Wire>⟧.state ⟦<MemWire<ServePeer> as Wire>⟧.faults ⟦<FolderOuts<HostRuntime> as Outs>⟧.kept ⟦<FolderOuts<HostRuntime> as Outs>⟧.faults end)) ends.items }
    ensures number { IfOk result (λ all. length all.items ≡ length ends.items + more) }
    ensures fresh { IfOk result (λ all. All (λ end. IsFresh (seen_end ⟦<Cached<Folder<HostRuntime>> as Tree>⟧.told ⟦<Cached<Folder<HostRuntime>> as Tree>⟧.faults ⟦<Cached<Folder<HostRuntime>> as Tree>⟧.reads ⟦<MemWire<ServePeer> as Wire>⟧.talk ⟦<MemWire<ServePeer> as Wire>⟧.state ⟦<MemWire<ServePeer> as Wire>⟧.faults ⟦<FolderOuts<HostRuntime> as Outs>⟧.kept ⟦<FolderOuts<HostRuntime> as Outs>⟧.faults end)) all.items) }
{
    let mut ends = ends;
    if more == 0 {
        return Ok(ends);
    }
    add_end(&mut ends, new_end(rt)?)?;
    more_ends(rt, ends, more - 1)
}

// Adds an end that wasn't used yet to others.
fn add_end<T: Tree + Drop, W: Wire + Drop, O: Outs + Drop>(
    ends: &mut Vec<End<T, W, O>>,
    end: End<T, W, O>,
) -> Result<(), AllocError>
    requires fresh { All (λ e. IsFresh (seen_end T.told T.Tree.faults T.reads W.talk W.state W.Wire.faults O.kept O.Outs.faults e)) ends.old.items }
    requires one_fresh { IsFresh (seen_end T.told T.Tree.faults T.reads W.talk W.state W.Wire.faults O.kept O.Outs.faults end) }
    ensures number { OnOk result (length ends.new.items ≡ length ends.old.items + 1) }
    ensures fresh { OnOk result (All (λ e. IsFresh (seen_end T.told T.Tree.faults T.reads W.talk W.state W.Wire.faults O.kept O.Outs.faults e)) ends.new.items) }
{
    ends.push(end)?;
    Ok(())
}

// An end that wasn't used yet: the host's files, whose nodes are remembered, a daemon in this process, and the folder of outputs.
fn new_end(rt: &HostRuntime) -> io::Result<HostEnd>
    ensures { IfOk result (λ end. IsFresh (seen_end ⟦<Cached<Folder<HostRuntime>> as Tree>⟧.told ⟦<Cached<Folder<HostRuntime>> as Tree>⟧.faults ⟦<Cached<Folder<HostRuntime>> as Tree>⟧.reads ⟦<MemWire<ServePeer> as Wire>⟧.talk ⟦<MemWire<ServePeer> as Wire>⟧.state ⟦<MemWire<ServePeer> as Wire>⟧.faults ⟦<FolderOuts<HostRuntime> as Outs>⟧.kept ⟦<FolderOuts<HostRuntime> as Outs>⟧.faults end)) }
{
    let alloc = rt.alloc();
    Ok(End {
        tree: Cached::over(alloc, Folder::new(rt.clone()?)),
        wire: MemWire::new(alloc, ServePeer, Vec::new(alloc), Vec::new(alloc)),
        outs: FolderOuts::new(rt.clone()?, alloc, "out")?,
    })
}
