// A program of cases, by its command line.
use crate::{Lines, answer_cases};
use command_line::{ended, refuse, show, words_of};
use std::io::Input;
use std::process::ExitCode;
use std::rt::Env;
use std::{env, io};

/// Does a program of cases, and answers its status. Without words it does the cases on standard input; `--help` and `--version`
/// have it print its help, or its name and version.
pub fn run_program<R: Env + Input + AllocGlobal + Print + Eprint, L: Lines>(
    rt: &R,
    program: &str,
    help: &str,
    lines: &mut L,
) -> ExitCode {
    let answer = answer(rt, program, help, lines);
    ended(rt, program, answer)
}

fn answer<R: Env + Input + AllocGlobal + Print + Eprint, L: Lines>(
    rt: &R,
    program: &str,
    help: &str,
    lines: &mut L,
) -> io::Result<ExitCode> {
    let arguments = env::args(rt)?.collect(rt.alloc())?;
    let words = words_of(rt.alloc(), &arguments)?;
    match words.as_slice() {
        [] => answer_cases(rt, program, lines),
        ["--help"] => show(rt, help),
        ["--version"] => show(rt, &format!(in rt.alloc(); "{program} 0.1.0")?),
        _ => refuse(rt, help),
    }
}
