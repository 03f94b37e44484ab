//! The program: what computed tokens may name under sets of definitions, for the cases that it reads.
#![tactic(auto)]

mod choices;

use case_texts::{TextLines, run_program};
use choices::Choices;
use std::process::ExitCode;

const HELP: &str = "usage: choice_examples < CASES

Prints the cases that it reads, each with what its text may name. A case is lines
of C and a line that says how, behind which the result is printed:

    names N =>        with a budget of N lists of choices
    names N #line =>  the same, in a file that has a #line

With `initial` in front, the macros that every translation begins with have
definitions too. The file is /w/a.c. Each #define line adds a definition to its
name's, and other directives are passed over. For each run of text between two of
them stand the headers that its tokens may name on an include line under the
definitions so far, in order, and behind a bar the identifiers that this rests
on, in order; or `!` and the reason for which none are known. Behind `;` stands
the next run's. `N times LINE` stands for N such lines. Before a case there may be
empty lines and headings, which begin with //.

status: 0, 2 wrong words or a line out of form, 4 a failed read or write, 5 out
of memory";

fn main(rt: HostRuntime) -> ExitCode {
    run_program(
        &rt,
        "choice_examples",
        HELP,
        &mut TextLines::new(rt.alloc(), Choices),
    )
}
