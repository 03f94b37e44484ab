// A memo that a client fills and asks, slots that threads lease, and a list that is read.
ghost use Rattle.std.specs.Prelude.{◌<◌};

use crate::memo::{Counts, fill_and_ask};
use crate::outcome::{PROGRAM, not_done};
use crate::slots::lease_on_threads;
use anyhow::Result;
use base_types::List;
use command_line::read_body;
use compile_list::{ListError, ListWhy, read_list};
use job_words::Job;
use std::alloc::AllocError;
use std::io;
use std::rt::Files;
use std::sync::Wait;
use std::thread::Threads;

/// Fills and asks a memo, and prints what came of the calls.
pub fn print_memo<H: Wait, R: AllocGlobal + Print>(
    handles: &H,
    rt: &R,
    keys: u32,
    rounds: u32,
) -> io::Result<bool> {
    let counts = fill_and_ask(handles, rt.alloc(), keys, rounds)?;
    print_counts(rt, counts)?;
    Ok(true)
}

fn print_counts<R: Print>(rt: &R, counts: Counts) -> io::Result<()> {
    let Counts {
        new,
        already,
        full,
        hits,
        misses,
    } = counts;
    println!(rt; "new {new} already {already} full {full} hits {hits} misses {misses}")
}

/// Leases slots on threads, and prints how many were taken; whether all could.
pub fn print_slots<H: Threads + Wait + Sync, R: AllocGlobal + Print + Eprint>(
    handles: &H,
    rt: &R,
    threads: u32,
    takes: u32,
) -> io::Result<bool>
    requires { 0 < threads }
{
    match lease_on_threads(handles, rt.alloc(), threads, takes) {
        Ok(taken) => {
            println!(rt; "taken {taken}")?;
            Ok(true)
        }
        Err(error) => not_done(rt, PROGRAM, &error),
    }
}

/// Reads the list of a file, and prints how many jobs it has, or why it is refused; whether it is one.
pub fn read_and_print<R: Files + AllocGlobal + Print + Eprint>(
    rt: &R,
    file: &str,
) -> io::Result<bool> {
    match read_body(rt, file) {
        Ok(bytes) => print_list(rt, read_list(rt.alloc(), &bytes)),
        Err(error) => not_done(rt, PROGRAM, &error),
    }
}

fn print_list<R: Print>(rt: &R, read: Result<List<Job>, ListError>) -> io::Result<bool> {
    match read {
        Ok(jobs) => {
            println!(rt; "jobs {}", jobs.len())?;
            Ok(true)
        }
        Err(error) => print_refused(rt, error),
    }
}

fn print_refused<R: Print>(rt: &R, error: ListError) -> io::Result<bool> {
    if error.why == ListWhy::Memory {
        return Err(AllocError.into());
    }
    println!(rt; "{error}")?;
    Ok(false)
}
