//! The program: measures and tries parts of the product, which are lexing, walks and searches, what clients share, and expansion.
#![tactic(auto)]

mod counts;
mod described;
mod expanding;
mod files;
mod lexing;
mod memo;
mod outcome;
mod repeated;
mod sharing;
mod slots;
mod tokens;
mod unit;
mod walking;

use command_line::{ended, keep_blocks, refuse, show, words_of};
use files::{FileTask, each};
use outcome::{PROGRAM, status_of};
use std::process::ExitCode;
use std::rt::Files;
use std::sync::Wait;
use std::thread::Threads;
use std::{env, io};

const HELP: &str = "usage: bench_program lex count FILE..
       bench_program lex again FILE..
       bench_program tree locate FILE
       bench_program tree search DIRECTORIES TIMES
       bench_program tree words DIRECTORIES TIMES
       bench_program share memo KEYS ROUNDS
       bench_program share slots THREADS TAKES
       bench_program share list FILE
       bench_program expand FILE..
       bench_program expand text FILE

lex count prints a line for each file: FILE BYTES LINES TOKENS, with its logical
lines. lex again lexes the tokens of each file once more from their spellings,
and prints `FILE same`, or the first difference.

tree locate reads a tree from the lines of a file, in order of their paths:
`d PATH`, `f PATH` or `l PATH TEXT`, with tabs between the parts; and then, for
each line `? PATH TEXT`, prints the real path of the file that the text locates
from the directory at the path, or `-`. tree search searches a header so often
in so many directories, the last of which has it; tree words reads so often the
words of a job with so many directories. At most 999 directories.

share memo publishes a value for each of so many keys and then looks for each,
in so many rounds, in a memo that clients share, and prints how often each came
of it. share slots has so many threads, 1 to 64, that share three slots of two
hosts, and each takes a slot and gives it back so often; it prints how many were
taken in all. share list reads the compile list of a file, and prints how many
jobs it has, or the line that is refused and why.

expand expands the text of C files under their own macros. Their #define and
#undef lines are obeyed in order, whatever their conditionals say, and no file
is included. A line is printed for each file: FILE TOKENS EXPANDED WORK, which
are the tokens of its text, those that they become, and the units of work that
it takes; or else `FILE error: ` and the first error. Each run of text between
two directives has 20,000,000 units. expand text prints what a file's text
becomes, laid out as preprocessed output is.

A number has digits alone, without a zero in front, and is below 2^32.

status: 0, 1 where a file differs, has an error or isn't read, a list is refused
or something fails, 2 wrong words, 4 a failed write, 5 out of memory";

fn main(rt: HostRuntime) -> ExitCode {
    let answer = answer(&rt, &rt);
    ended(&rt, PROGRAM, answer)
}

fn answer<H: Threads + Wait + Sync>(handles: &H, rt: &HostRuntime) -> io::Result<ExitCode> {
    keep_blocks(rt.alloc());
    let arguments = env::args(rt)?.collect(rt.alloc())?;
    let words = words_of(rt.alloc(), &arguments)?;
    obey(handles, rt, words.as_slice())
}

// Does what the words ask for, and answers the status.
fn obey<H: Threads + Wait + Sync, R: Files + AllocGlobal + Print + Eprint>(
    handles: &H,
    rt: &R,
    words: &[&str],
) -> io::Result<ExitCode> {
    match words {
        ["--help"] => show(rt, HELP),
        ["--version"] => show(rt, "bench_program 0.1.0"),
        ["lex", "count", first, files @ ..] => each(rt, FileTask::Count, first, files),
        ["lex", "again", first, files @ ..] => each(rt, FileTask::Again, first, files),
        ["tree", "locate", file] => each(rt, FileTask::Locate, file, &[]),
        ["tree", "search", directories, times] => {
            repeat(handles, rt, NumberTask::Search, directories, times)
        }
        ["tree", "words", directories, times] => {
            repeat(handles, rt, NumberTask::Words, directories, times)
        }
        ["share", "memo", keys, rounds] => repeat(handles, rt, NumberTask::Memo, keys, rounds),
        ["share", "slots", threads, takes] => repeat(
            handles,
            rt,
            NumberTask::Slots,
            threads,
            takes,
        ),
        ["share", "list", file] => each(rt, FileTask::List, file, &[]),
        ["expand", "text", file] => each(rt, FileTask::Text, file, &[]),
        ["expand", first, files @ ..] => each(rt, FileTask::Expand, first, files),
        _ => refuse(rt, HELP),
    }
}

// What is done so many times with a number of directories, keys or threads.
#[derive(Clone, Copy, Drop)]
enum NumberTask {
    Search,
    Words,
    Memo,
    Slots,
}

// Does the task where the words are numbers.
fn repeat<H: Threads + Wait + Sync, R: AllocGlobal + Print + Eprint>(
    handles: &H,
    rt: &R,
    task: NumberTask,
    number: &str,
    times: &str,
) -> io::Result<ExitCode> {
    let (Some(number), Some(times)) = (number_of(number), number_of(times)) else {
        return refuse(rt, HELP);
    };
    let passed = match task {
        NumberTask::Search => walking::print_found(rt, number, times)?,
        NumberTask::Words => walking::print_read(rt, number, times)?,
        NumberTask::Memo => sharing::print_memo(handles, rt, number, times)?,
        NumberTask::Slots => return lease(handles, rt, number, times),
    };
    Ok(status_of(passed))
}

// Leases slots where the number of threads is from 1 to 64.
fn lease<H: Threads + Wait + Sync, R: AllocGlobal + Print + Eprint>(
    handles: &H,
    rt: &R,
    threads: u32,
    takes: u32,
) -> io::Result<ExitCode> {
    if threads == 0 || threads > 64 {
        return refuse(rt, HELP);
    }
    Ok(status_of(sharing::print_slots(handles, rt, threads, takes)?))
}

// A number that a word is: decimal digits without a sign or a leading zero, below 2^32.
fn number_of(word: &str) -> Option<u32> {
    if word.starts_with('+') || (word.starts_with('0') && word.len() > 1) {
        return None;
    }
    word.parse().ok()
}
