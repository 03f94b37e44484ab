// Locates texts in a tree that a file describes, and repeats searches and readings of words.
use crate::described::{answers, tree_of};
use crate::outcome::{PROGRAM, not_done};
use crate::repeated::{repeat_search, repeat_words};
use anyhow::{Context, Result};
use base_types::Bytes;
use command_line::read_body;
use std::alloc::Global;
use std::io;
use std::rt::Files;

/// Answers the questions of a file over its tree; whether it could.
pub fn locate_all<R: Files + AllocGlobal + Print + Eprint>(rt: &R, file: &str) -> io::Result<bool> {
    match answers_of(rt, file) {
        Ok(answers) => {
            print_answers(rt, answers.as_slice())?;
            Ok(true)
        }
        Err(error) => not_done(rt, file, &error),
    }
}

fn answers_of<R: Files + AllocGlobal>(rt: &R, file: &str) -> Result<Vec<Bytes>> {
    answers_in(rt.alloc(), &read_body(rt, file)?)
}

// The answers to a text's questions about the tree that it describes.
fn answers_in(alloc: Global, text: &[u8]) -> Result<Vec<Bytes>> {
    let mut tree = tree_of(alloc, text)?.context("the lines make no tree")?;
    answers(alloc, &mut tree, text)
}

fn print_answers<R: Print>(rt: &R, answers: &[Bytes]) -> io::Result<()> {
    for answer in answers {
        print_answer(rt, answer.as_slice())?;
    }
    Ok(())
}

fn print_answer<R: Print>(rt: &R, answer: &[u8]) -> io::Result<()> {
    let shown = answer.escape_ascii();
    println!(rt; "{shown}")
}

/// Searches so often in so many directories, and prints how often the header was found; whether it could.
pub fn print_found<R: AllocGlobal + Print + Eprint>(
    rt: &R,
    directories: u32,
    times: u32,
) -> io::Result<bool> {
    print_count(rt, repeat_search(rt.alloc(), directories, times), "found")
}

/// Reads so often the words of a job with so many directories, and prints how often they gave one; whether it could.
pub fn print_read<R: AllocGlobal + Print + Eprint>(
    rt: &R,
    directories: u32,
    times: u32,
) -> io::Result<bool> {
    print_count(rt, repeat_words(rt.alloc(), directories, times), "read")
}

fn print_count<R: Print + Eprint>(rt: &R, count: Result<u32>, word: &str) -> io::Result<bool> {
    match count {
        Ok(count) => {
            println!(rt; "{count} {word}")?;
            Ok(true)
        }
        Err(error) => not_done(rt, PROGRAM, &error),
    }
}
