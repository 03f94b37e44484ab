//! The program: does runs of `pump` over trees in memory, and prints what comes of each. `HELP` says how a run is written.
//!
//! Each goes through `run_named` of `worked_examples`, whose type names the run's tree: so of a list of one job, the text that is put where
//! the status is 0, and the diagnostic that is told where it is 1, are those of preprocessing over that whole tree.
#![tactic(auto)]

mod given;
mod run;
mod runs;

use case_texts::{end_cases, read_cases};
use command_line::{ended, refuse, show, words_of};
use runs::do_runs;
use std::io::Input;
use std::process::ExitCode;
use std::sync::Wait;
use std::thread::Threads;
use std::{env, io};

const HELP: &str = "usage: run_examples < CASES

Does runs of `pump` by one client over a tree in memory, whose hosts are
daemons. Prints each line of the cases, and behind a run what comes of it, in
lines that begin with `>`: the status, the report, each output's name and text,
and of each exchange the host, what was sent and received, whether the client
had finished, and whether the host had ended. A case ends at an empty line. What
begins with `#` is a comment.

The tree, its nodes in order of the bytes of their paths:
  file PATH                   a file, and the directories above it that aren't
                              there yet
  | TEXT                      a line of the file, as it stands
  = BYTES                     bytes of the file, with no line feed behind them
  * TIMES BYTES               the same, so many times
  dir PATH                    a directory
  link PATH TEXT              a symbolic link

The run:
  list BYTES                  bytes of its list; without such lines it is that
                              of the job `/w a.c`
  repeat TIMES BYTES          bytes of its list, so many times
  fails AT NUMBER             the call of this number, from 1, fails at the
                              `list`, the `tree`, the `outs`, or in the first
                              exchange at the `wire`
  piece NUMBER                what a host sends comes in pieces of at most so
                              many bytes; 0 sets no bound
  run WORD..                  does it, by these words; without any they are
                              `order - --hosts daemon -j 1`

BYTES, PATH and the TEXT of a link are written with the escapes \\\\, \\n, \\t,
\\0 and \\xNN, and so is what stands behind the word of an answer.

status: 0, 2 wrong words or a line out of form, 4 a failed read or write, 5 out
of memory";

fn main(rt: HostRuntime) -> ExitCode {
    let answer = answer(&rt, &rt);
    ended(&rt, "run_examples", answer)
}

fn answer<H: Threads + Wait + Sync>(handles: &H, rt: &HostRuntime) -> io::Result<ExitCode> {
    let arguments = env::args(rt)?.collect(rt.alloc())?;
    let words = words_of(rt.alloc(), &arguments)?;
    match words.as_slice() {
        [] => answer_runs(handles, rt),
        ["--help"] => show(rt, HELP),
        ["--version"] => show(rt, "run_examples 0.1.0"),
        _ => refuse(rt, HELP),
    }
}

// Does the runs on standard input. What stands before a line out of form is done.
fn answer_runs<H: Threads + Wait + Sync, R: Input + AllocGlobal + Print + Eprint>(
    handles: &H,
    rt: &R,
) -> io::Result<ExitCode> {
    let Some(lines) = read_cases(rt, "run_examples")? else {
        return Ok(ExitCode::from(2));
    };
    let mut out = String::new(rt.alloc());
    let done = do_runs(handles, rt.alloc(), &mut out, &lines);
    rt.print(out)?;
    end_cases(rt, "run_examples", done)
}
