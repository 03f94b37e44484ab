// Whether a task passed, as the status of the program and a line on standard error.
use anyhow::Error;
use std::io;
use std::process::ExitCode;

/// The program's name.
pub const PROGRAM: &str = "bench_program";

/// The status of tasks that passed, or of which one didn't.
pub fn status_of(passed: bool) -> ExitCode {
    if passed {
        ExitCode::SUCCESS
    } else {
        ExitCode::from(1)
    }
}

/// Says on standard error why something can't be done, by the file's name or the program's. The task didn't pass.
pub fn not_done<R: Eprint>(rt: &R, what: &str, error: &Error) -> io::Result<bool> {
    eprintln!(rt; "{what}: {error}")?;
    Ok(false)
}
