//! The program: preprocesses jobs over trees of files, and prints the outcome of each. `HELP` says how a case is written.
#![tactic(auto)]

mod case;
mod job;

use case::Case;
use case_texts::{WordLines, run_program};
use std::process::ExitCode;

const HELP: &str = "usage: job_texts < CASES

Prints each line of the cases, and behind a job what preprocessing it gives, in
lines that begin with `>`. A case is a tree of files and the jobs over it, and
ends at an empty line. What begins with `#` is a comment.

The tree, its nodes in order of the bytes of their paths:
  file PATH                   a file, and the directories above it that aren't
                              there yet
  | TEXT                      a line of the file, as it stands
  = BYTES                     bytes of the file, with no line feed behind them
  * TIMES BYTES               the same, so many times
  dir PATH                    a directory
  link PATH TEXT              a symbolic link

A job:
  job DIR WORD..              the text of the job of these compile words in a
                              directory, or its diagnostic, or why the words
                              are no job; words are BYTES

BYTES are written with the escapes \\\\, \\n, \\t, \\0 and \\xNN, and so are what
stands behind `>=` and a diagnostic.

status: 0, 2 wrong words or a line out of form, 4 a failed read or write, 5 out
of memory";

fn main(rt: HostRuntime) -> ExitCode {
    run_program(
        &rt,
        "job_texts",
        HELP,
        &mut WordLines(Case::new(rt.alloc())),
    )
}
