//! The program: expands small C texts, and prints each with what it becomes.
#![tactic(auto)]

mod expansion;
mod nowhere;

use case_texts::{TextLines, run_program};
use expansion::Expansions;
use std::process::ExitCode;

const HELP: &str = "usage: expansion_examples < CASES

Prints the cases that it reads, each with what it becomes. A case is lines of C
and a line that says how they are expanded, behind which the result is printed:

    text =>       the tokens, with one space where white space stands before one
    lines =>      the same, each token behind the number of its line
    condition =>  as on the line of an #if, where `defined` keeps its operand
    nowhere =>    as text, at a place whose file and line aren't known
    work N =>     as text, with N units of work, and how many of them are left

The file is /w/a.c, and there are 20,000,000 units where no number is given. The
lines #define and #undef are obeyed in order, other directives are passed over,
and each run of text between two becomes its tokens or an error: `!`, its name
and what it has. `N times LINE` stands for N such lines. Before a case there may
be empty lines and headings, which begin with //.

status: 0, 2 wrong words or a line out of form, 4 a failed read or write, 5 out
of memory";

fn main(rt: HostRuntime) -> ExitCode {
    run_program(
        &rt,
        "expansion_examples",
        HELP,
        &mut TextLines::new(rt.alloc(), Expansions),
    )
}
