//! The program: evaluates controlling expressions, and prints each with its value.
#![tactic(auto)]

mod expressions;

use case_texts::run_program;
use expressions::Expressions;
use std::process::ExitCode;

const HELP: &str = "usage: condition_examples < CASES

Prints the lines that it reads. A line is the expression of an #if, of constants
and operators, and behind it is printed ` => ` and its value: the decimal digits
of it, with a `u` behind them where its type is unsigned, or `!` and the name of
what is wrong with it. Empty lines, and headings, which begin with //, have no
value.

status: 0, 2 wrong words or a line out of form, 4 a failed read or write, 5 out
of memory";

fn main(rt: HostRuntime) -> ExitCode {
    run_program(&rt, "condition_examples", HELP, &mut Expressions)
}
