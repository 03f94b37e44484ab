// The lines of cases on standard input, and their answers on standard output.
use crate::Wrong;
use command_line::tell;
use std::alloc::{AllocError, Global};
use std::io;
use std::io::{Input, Read};
use std::process::ExitCode;

/// Who answers the lines of cases.
pub trait Lines {
    /// Takes a line, and appends it with what it gives.
    fn take(&mut self, alloc: Global, out: &mut String, line: &str) -> Result<(), Wrong>;

    /// Whether the last line may be the last.
    fn end(&self) -> Result<(), Wrong> {
        Ok(())
    }
}

/// Does the cases on standard input: prints each line, and what it gives. What stands before a line out of form is done. The
/// status is 0, or 2 where the cases aren't UTF-8 or a line is out of form.
pub fn answer_cases<R: Input + AllocGlobal + Print + Eprint, L: Lines>(
    rt: &R,
    program: &str,
    lines: &mut L,
) -> io::Result<ExitCode> {
    let Some(cases) = read_cases(rt, program)? else {
        return Ok(ExitCode::from(2));
    };
    let mut out = String::new(rt.alloc());
    let done = do_lines(rt.alloc(), &mut out, lines, &cases);
    rt.print(out)?;
    end_cases(rt, program, done)
}

/// The cases on standard input; none where they aren't UTF-8, as a line on standard error says.
pub fn read_cases<R: Input + AllocGlobal + Eprint>(
    rt: &R,
    program: &str,
) -> io::Result<Option<String>> {
    let mut input = Vec::new(rt.alloc());
    rt.reader().read_to_end(&mut input)?;
    match String::from_utf8(input) {
        Ok(cases) => Ok(Some(cases)),
        Err(_) => {
            tell(rt, program, "the cases aren't UTF-8");
            Ok(None)
        }
    }
}

/// How a program ends when its cases are done, or else one line, of this number, isn't.
pub fn end_cases<R: Eprint>(
    rt: &R,
    program: &str,
    done: Result<(), (u32, Wrong)>,
) -> io::Result<ExitCode> {
    match done {
        Ok(()) => Ok(ExitCode::SUCCESS),
        Err((_, Wrong::Memory)) => Err(AllocError.into()),
        Err((line, Wrong::Form(what))) => {
            eprintln!(rt; "{program}: line {line}: {what}")?;
            Ok(ExitCode::from(2))
        }
    }
}

// An error has the number of its line.
fn do_lines<L: Lines>(
    alloc: Global,
    out: &mut String,
    lines: &mut L,
    cases: &str,
) -> Result<(), (u32, Wrong)> {
    let mut number = 0u32;
    for line in cases.lines() {
        number = number.saturating_add(1);
        if let Err(wrong) = lines.take(alloc, out, line) {
            return Err((number, wrong));
        }
    }
    lines.end().map_err(|wrong| (number, wrong))
}
