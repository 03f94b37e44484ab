// How a program ends where its words are wrong or the host fails.
ghost use Rattle.std.specs.Prelude.{◌≡◌, IfErr, Ok};
ghost use Rattle.std.specs.IoError.{error_kind};
ghost use Rattle.std.specs.Process.{exit_status};
ghost use Rattle.command_line.specs.Failures.{failure_status};

use std::fmt::Display;
use std::io::{self, ErrorKind};
use std::process::ExitCode;

/// The status of a program that the host failed: 2 where a word isn't UTF-8, 5 for want of memory, and 4 for any other error, as
/// of a write.
pub fn failure_status(error: &io::Error) -> u8
    ensures { result ≡ failure_status (error_kind error.now) }
{
    match error.kind() {
        ErrorKind::InvalidData => 2,
        ErrorKind::OutOfMemory => 5,
        _ => 4,
    }
}

/// The status that a program ends with: its answer, or that of the host's error, for which it writes a line to standard error,
/// `PROGRAM: ` and the error.
pub fn ended<R: Eprint>(rt: &R, program: &str, answer: io::Result<ExitCode>) -> ExitCode
    ensures ok { (status : _) → answer ≡ Ok status → result ≡ status }
    ensures err { IfErr answer (λ e. exit_status result ≡ failure_status (error_kind e)) }
{
    match answer {
        Ok(status) => status,
        Err(error) => {
            tell_failure(rt, program, &error);
            ExitCode::from(failure_status(&error))
        }
    }
}

/// Writes a line to standard error that says why the host failed a program. A line that can't be written is left off.
pub fn tell_failure<R: Eprint>(rt: &R, program: &str, error: &io::Error) {
    match error.kind() {
        ErrorKind::InvalidData => tell_wrong_words(rt, program),
        ErrorKind::OutOfMemory => tell(rt, program, "out of memory"),
        _ => tell(rt, program, error),
    }
}

/// Writes a line to standard error that says that a program's words are wrong, and answers status 2. A line that can't be written
/// is left off.
pub fn wrong_words<R: Eprint>(rt: &R, program: &str) -> ExitCode
    ensures { exit_status result ≡ 2 }
{
    tell_wrong_words(rt, program);
    ExitCode::from(2)
}

fn tell_wrong_words<R: Eprint>(rt: &R, program: &str) {
    let _ = eprintln!(rt; "{program}: wrong words; see {program} --help");
}

/// Writes a line to standard error: the program's name and what it says. A line that can't be written is left off.
pub fn tell<R: Eprint, D: Display + Drop>(rt: &R, program: &str, words: D) {
    let _ = eprintln!(rt; "{program}: {words}");
}
