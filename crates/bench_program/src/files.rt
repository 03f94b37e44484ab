// What is done with each of several files.
use crate::outcome::status_of;
use crate::{expanding, lexing, sharing, walking};
use std::io;
use std::process::ExitCode;
use std::rt::Files;

/// What is done with a file.
#[derive(Clone, Copy, Drop)]
pub enum FileTask {
    /// Its bytes, lines and tokens are counted.
    Count,
    /// It is lexed again from its tokens.
    Again,
    /// Its questions about the tree that it describes are answered.
    Locate,
    /// The jobs of the list that it has are counted.
    List,
    /// What its text becomes is counted.
    Expand,
    /// What its text becomes is printed.
    Text,
}

/// Does the task with each file. A file with which it can't be done has a line on standard error.
pub fn each<R: Files + AllocGlobal + Print + Eprint>(
    rt: &R,
    task: FileTask,
    first: &str,
    others: &[&str],
) -> io::Result<ExitCode> {
    let mut passed = done(rt, task, first)?;
    for file in others {
        passed = done(rt, task, file)? && passed;
    }
    Ok(status_of(passed))
}

// Whether the task passed with a file. An error is one of writing, or want of memory.
fn done<R: Files + AllocGlobal + Print + Eprint>(
    rt: &R,
    task: FileTask,
    file: &str,
) -> io::Result<bool> {
    match task {
        FileTask::Count => lexing::count(rt, file),
        FileTask::Again => lexing::again(rt, file),
        FileTask::Locate => walking::locate_all(rt, file),
        FileTask::List => sharing::read_and_print(rt, file),
        FileTask::Expand => expanding::count(rt, file),
        FileTask::Text => expanding::print_text(rt, file),
    }
}
