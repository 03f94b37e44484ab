// The greatest lengths and counts.
use crate::notation::{add, add_word, check_line, check_text, given, words_of};
use base_types::{Bytes, List};
use std::alloc::Global;
use std::process::Abort;

// A text of a byte, and another so many times.
fn repeated(rt: &impl Abort, alloc: Global, first: u8, byte: u8, times: usize) -> Vec<u8> {
    let mut text = Vec::new(alloc);
    add(rt, &mut text, &[first]);
    for _ in 0..times {
        add(rt, &mut text, &[byte]);
    }
    text
}

// A source's name behind a word, so many times.
fn many_words(rt: &impl Abort, alloc: Global, word: &str, times: usize) -> List<Bytes> {
    let mut words = words_of(rt, alloc, "a.c");
    for _ in 0..times {
        add_word(rt, alloc, &mut words, word);
    }
    words
}

// So many words behind a source's name give this job.
fn check_many(
    rt: &impl Abort,
    alloc: Global,
    cwd: &[u8],
    word: &str,
    times: usize,
    expected: &[u8],
) {
    let words = many_words(rt, alloc, word, times);
    let text = given(rt, alloc, cwd, words.as_slice());
    check_text(rt, word, text.as_slice(), expected);
}

#[test]
fn takes_a_thousand_words(rt: HostRuntime) {
    check_many(&rt, rt.alloc(), b"/w", "-c", 999, b"a.c to a.i");
    check_many(&rt, rt.alloc(), b"/w", "-c", 1000, b"Limit");
    check_many(&rt, rt.alloc(), b"/w", "-q", 1000, b"Limit");
    check_many(&rt, rt.alloc(), b"w", "-q", 1000, b"Cwd");
}

// A source's name of 4,096 bytes.
fn long_word(rt: &impl Abort, alloc: Global) -> List<Bytes> {
    let mut words = List::new(alloc);
    add_repeated(rt, alloc, &mut words, b'b', b'/', 4095);
    words
}

fn add_repeated(
    rt: &impl Abort,
    alloc: Global,
    words: &mut List<Bytes>,
    first: u8,
    byte: u8,
    times: usize,
) {
    let word = Bytes::of(repeated(rt, alloc, first, byte, times));
    words.push(word).expect(rt, "memory for words");
}

#[test]
fn takes_long_words(rt: HostRuntime) {
    let words = long_word(&rt, rt.alloc());
    let mut expected = repeated(&rt, rt.alloc(), b'b', b'/', 4095);
    add(&rt, &mut expected, b" to .i");
    let text = given(&rt, rt.alloc(), b"/w", words.as_slice());
    check_text(&rt, "a long word", &text, &expected);
}

#[test]
fn refuses_longer_words(rt: HostRuntime) {
    let mut words = long_word(&rt, rt.alloc());
    add_repeated(&rt, rt.alloc(), &mut words, b'-', b'q', 4096);
    let text = given(&rt, rt.alloc(), b"/w", words.as_slice());
    check_text(&rt, "a longer word", &text, b"Limit");
}

// In a working directory of one byte more than these, the words give this job.
fn check_long_cwd(rt: &impl Abort, alloc: Global, times: usize, expected: &str) {
    let cwd = repeated(rt, alloc, b'/', b'w', times);
    check_line(rt, alloc, &cwd, "a.c", expected);
}

#[test]
fn takes_long_working_directories(rt: HostRuntime) {
    check_long_cwd(&rt, rt.alloc(), 4095, "a.c to a.i");
    check_long_cwd(&rt, rt.alloc(), 4096, "Cwd");
}

// A source's name, and behind it each of so many directories twice.
fn many_options(rt: &impl Abort, alloc: Global, dirs: u32) -> List<Bytes> {
    let mut words = words_of(rt, alloc, "a.c");
    for n in 0..dirs {
        add_twice(rt, alloc, &mut words, n);
    }
    words
}

fn add_twice(rt: &impl Abort, alloc: Global, words: &mut List<Bytes>, n: u32) {
    let word = format!(in alloc; "-Idir{n}").expect(rt, "memory for a word");
    add_word(rt, alloc, words, word.as_str());
    add_word(rt, alloc, words, word.as_str());
}

// The job with so many directories.
fn many_dirs(rt: &impl Abort, alloc: Global, dirs: u32) -> Vec<u8> {
    let mut expected = Vec::new(alloc);
    add(rt, &mut expected, b"a.c to a.i, bracket");
    for n in 0..dirs {
        add_dir(rt, alloc, &mut expected, n);
    }
    expected
}

fn add_dir(rt: &impl Abort, alloc: Global, expected: &mut Vec<u8>, n: u32) {
    let dir = format!(in alloc; " dir{n}").expect(rt, "memory for a name");
    add(rt, expected, dir.as_bytes());
}

#[test]
fn keeps_many_directories(rt: HostRuntime) {
    let words = many_options(&rt, rt.alloc(), 499);
    let expected = many_dirs(&rt, rt.alloc(), 499);
    let text = given(&rt, rt.alloc(), b"/w", words.as_slice());
    check_text(&rt, "many directories", &text, &expected);
}
