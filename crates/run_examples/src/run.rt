// A run, and what comes of it.
ghost use Rattle.std.specs.Prelude.{◌<◌, All, IfOk};

use crate::given::Given;
use base_types::Bytes;
use case_texts::{Wrong, say, say_value};
use io_edges::{Exchange, MemOuts};
use std::alloc::{AllocError, Global};
use std::marker::Brand;
use std::sync::Wait;
use std::thread::Threads;
use worked_examples::{Ended, NoRun, Objects, run_named};

/// Does a run, and says what comes of it.
pub fn do_run<H: Threads + Wait + Sync>(
    handles: &H,
    alloc: Global,
    out: &mut String,
    given: Given,
    words: &str,
) -> Result<(), Wrong> {
    match run_given(handles, alloc, given, words) {
        Ok(ended) => say_ended(out, &ended),
        Err(NoRun::Entries(why)) => say_value(out, "no tree:", &why),
        Err(NoRun::Memory) => Err(Wrong::Memory),
    }
}

// `Brand` names the tree of the run's entries: the proof of this function picks it.
fn run_given<H: Threads + Wait + Sync>(
    handles: &H,
    alloc: Global,
    given: Given,
    words: &str,
) -> Result<Ended, NoRun> {
    let Given {
        list,
        nodes,
        list_fails,
        tree_fails,
        outs_fails,
        wire_fails,
        piece,
    } = given;
    let words = words_of(alloc, words)?;
    let list = list_of(alloc, list)?;
    let entries = nodes.into_entries(alloc)?;
    let objects = Objects {
        tree_fails,
        outs_fails,
        wire_fails,
        pieces: pieces_of(alloc, piece)?,
    };
    run_named::<Brand, H>(handles, alloc, &words, list, list_fails, entries, objects)
}

fn words_of<'a>(alloc: Global, line: &'a str) -> Result<Vec<&'a str>, AllocError> {
    let line = if line.is_empty() {
        "order - --hosts daemon -j 1"
    } else {
        line
    };
    let mut words = Vec::new(alloc);
    for word in line.split_whitespace() {
        words.push(word)?;
    }
    Ok(words)
}

fn list_of(alloc: Global, list: Option<Vec<u8>>) -> Result<Bytes, AllocError> {
    match list {
        Some(list) => Ok(Bytes::of(list)),
        None => Bytes::copy_of(alloc, b"/w a.c\n"),
    }
}

// The greatest lengths of a wire's pieces.
fn pieces_of(alloc: Global, piece: u32) -> Result<Vec<u32>, AllocError>
    ensures { IfOk result (λ lengths. All (λ n. 0 < n) lengths.items) }
{
    let mut lengths = Vec::new(alloc);
    if piece > 0 {
        lengths.push(piece)?;
    }
    Ok(lengths)
}

fn say_ended(out: &mut String, ended: &Ended) -> Result<(), Wrong> {
    say_value(out, "status", &ended.status)?;
    say(out, "report", ended.report.bytes())?;
    say_outs(out, &ended.outs)?;
    for exchange in ended.wire.exchanges() {
        say_exchange(out, exchange)?;
    }
    Ok(())
}

fn say_outs(out: &mut String, outs: &MemOuts) -> Result<(), Wrong> {
    for (name, text) in outs.entries() {
        say(out, "put", name.as_slice())?;
        say(out, "text", text.as_slice())?;
    }
    Ok(())
}

fn say_exchange(out: &mut String, exchange: &Exchange) -> Result<(), Wrong> {
    say(out, "host", exchange.host.name.as_slice())?;
    say(out, "sent", exchange.sent.as_slice())?;
    say(out, "received", exchange.received.as_slice())?;
    say_value(out, "finished", &exchange.finished)?;
    say_value(out, "ended", &exchange.ended)
}
