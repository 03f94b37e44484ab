//! The program: does cases of trees of files, and prints what each gives. `HELP` says how a case is written.
#![tactic(auto)]

mod answers;
mod case;
mod frames;
mod paths;

use case::Case;
use case_texts::{WordLines, run_program};
use std::process::ExitCode;

const HELP: &str = "usage: tree_examples < CASES

Prints each line of the cases, and behind a question what it gives, in lines
that begin with `>`. A case is a tree of files and questions, and ends at an
empty line. What begins with `#` is a comment.

The tree, its nodes in order of the bytes of their paths:
  file PATH                   a file, and the directories above it that aren't
                              there yet
  | TEXT                      a line of the file, as it stands
  = BYTES                     bytes of the file, with no line feed behind them
  * TIMES BYTES               the same, so many times
  dir PATH                    a directory
  link PATH TEXT              a symbolic link
  fail NUMBER                 this call of the tree fails, counted from 1

Questions about the tree:
  analyse DIR WORD..          the request of the job of these compile words in
                              a directory, or why there is none
  length DIR WORD..           how many bytes that request has
  locate DIR TEXT             the place and the file that a text locates from a
                              directory, and the nodes walked
  node PATH                   what stands there
  read PATH                   the body of the file there
  body PATH                   the same; what is no file has an empty one
  reads                       how often files were read
  cached                      what follows asks a tree that remembers the nodes
  inner                       what follows asks the tree itself again

Other questions:
  path TEXT                   a path, its parent, and its parent's spelling
  child PATH NAME             the path of a name in a directory
  first TEXT                  a path that may be the first of a tree
  reply BYTES                 the verdict on a reply, its answer, and the reply
                              that is written of the answer
  request BYTES               the verdicts on a request that comes byte by byte,
                              where they change, and what is read

BYTES are written with the escapes \\\\, \\n, \\t, \\0 and \\xNN, and so are what
stands behind `>=` and behind the word of an answer.

status: 0, 2 wrong words or a line out of form, 4 a failed read or write, 5 out
of memory";

fn main(rt: HostRuntime) -> ExitCode {
    run_program(
        &rt,
        "tree_examples",
        HELP,
        &mut WordLines(Case::new(rt.alloc())),
    )
}
