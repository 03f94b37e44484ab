// Sources, sinks, outputs and a spawner in memory, the files of a folder, and a runtime's streams.
use crate::checks::{check, check_text, shown};
use base_types::Bytes;
use io_edges::{
    FolderOuts, Host, MemOuts, MemSink, MemSource, MemSpawner, OutFault, Outs, ReadFault, Sink,
    Source, SpawnFault, Spawner, StdSink, StdSource, WriteFault,
};
use std::alloc::{AllocError, Allocator, Global};
use std::fs::{self, Files};
use std::io::{self, BufRead, Input, Lines, Print};
use std::process::Abort;
use std::test::Fail;

// The words of a text, one a call.
fn put_words<K: Sink>(sink: &mut K, words: &[&str]) -> Result<(), WriteFault> {
    for word in words {
        sink.put(word.as_bytes())?;
    }
    Ok(())
}

// What is left begins with this, of which at most three bytes are taken.
fn check_three<S: Source>(rt: &impl Abort, source: &mut S, want: &str) {
    let mut room = [0; 3];
    match source.take(&mut room) {
        Ok(n) => check_text(rt, "the bytes taken", &room[..n], want),
        Err(_) => rt.panic("bytes are taken"),
    }
}

fn check_take<S: Source>(rt: &impl Abort, source: &mut S, want: Result<usize, ReadFault>) {
    let mut room = [0; 4];
    let taken = source.take(&mut room);
    check(rt, taken == want, "how many bytes are taken");
}

fn check_put<K: Sink>(rt: &impl Abort, sink: &mut K, words: &[&str], want: Result<(), WriteFault>) {
    check(rt, put_words(sink, words) == want, "words are put");
}

// A source of five bytes, whose second call fails.
fn failing_source(alloc: Global) -> Result<MemSource, AllocError> {
    let bytes = Bytes::copy_of(alloc, b"abcde")?;
    Ok(MemSource::new(bytes, vec![in alloc; 2]?))
}

// A source gives its bytes, and its second call fails.
fn check_source<S: Source>(rt: &impl Abort, source: &mut S) {
    check_three(rt, source, "abc");
    check_take(rt, source, Err(ReadFault::Fault));
    check_three(rt, source, "de");
    check_take(rt, source, Ok(0));
}

// The third call of a sink fails, and it holds the pieces of the others.
fn check_sink(rt: &impl Abort, mut sink: MemSink) {
    let failed = Err(WriteFault::Fault);
    check_put(rt, &mut sink, &["one ", "two ", "three"], failed);
    check_put(rt, &mut sink, &["four"], Ok(()));
    check_text(rt, "the words put", sink.bytes(), "one two four");
}

fn check_body<O: Outs>(rt: &impl Abort, outs: &mut O, name: &str, body: &str) {
    check(rt, outs.put(name.as_bytes(), body.as_bytes()).is_ok(), name);
}

fn check_refused<O: Outs>(rt: &impl Abort, outs: &mut O, name: &[u8], body: &[u8]) {
    check(
        rt,
        outs.put(name, body) == Err(OutFault::Fault),
        shown(name),
    );
}

fn check_one_entry(rt: &impl Abort, entries: &[(Bytes, Bytes)], name: &str, body: &str) {
    check(rt, entries.len() == 1, "one entry");
    for (under, bytes) in entries {
        check_text(rt, "its name", under.as_slice(), name);
        check_text(rt, "its body", bytes.as_slice(), body);
    }
}

// The first call of an output fails, and it keeps the name and the body of the other.
fn check_outs(rt: &impl Abort, mut outs: MemOuts) {
    check_refused(rt, &mut outs, b"/a.o", b"first");
    check_body(rt, &mut outs, "/a.o", "second");
    check_one_entry(rt, outs.entries(), "/a.o", "second");
}

fn check_localhost(rt: &impl Abort, host: &Host) {
    check_text(rt, "the host", host.name.as_slice(), "localhost");
    check(rt, host.port == 3632, "its port");
    check(rt, host.limit == 1, "its limit");
}

fn check_stop<P: Spawner>(rt: &impl Abort, spawner: &mut P, want: Result<(), SpawnFault>) {
    check(rt, spawner.stop_all() == want, "all are stopped");
}

fn check_start<P: Spawner>(rt: &impl Abort, spawner: &mut P, k: u32) {
    match spawner.start(k) {
        Ok(host) => check_localhost(rt, &host),
        Err(_) => rt.panic("the first start failed"),
    }
}

// One daemon is started, and the first call that stops it fails.
fn check_spawner(rt: &impl Abort, mut spawner: MemSpawner) {
    check_start(rt, &mut spawner, 7);
    check_stop(rt, &mut spawner, Err(SpawnFault::Fault));
    check_stop(rt, &mut spawner, Ok(()));
    check(rt, spawner.started() == [7].as_slice(), "what was started");
}

#[test]
fn what_is_in_memory_fails_where_listed(rt: HostRuntime) -> Result<(), Fail> {
    let alloc = rt.alloc();
    check_source(&rt, &mut failing_source(alloc)?);
    check_sink(&rt, MemSink::new(alloc, vec![in alloc; 3]?));
    check_outs(&rt, MemOuts::new(alloc, vec![in alloc; 1]?));
    check_spawner(&rt, MemSpawner::new(alloc, vec![in alloc; 2]?));
    Ok(())
}

// A folder below the working directory.
const FOLDER: &str = "folder_outs_test/out";

fn check_file<R: Files + Alloc + Abort>(rt: &R, path: &str, body: &str) -> Result<(), Fail> {
    let text = fs::read_to_string(rt, path)?;
    check_text(rt, path, text.as_bytes(), body);
    Ok(())
}

fn remove_folder<R: Files + Alloc>(rt: &R) -> Result<(), Fail> {
    fs::create_dir_all(rt, FOLDER)?;
    fs::remove_dir_all(rt, FOLDER)?;
    Ok(())
}

fn check_bodies<O: Outs>(rt: &impl Abort, outs: &mut O, files: &[(&str, &str)]) {
    for (name, body) in files {
        check_body(rt, outs, name, body);
    }
}

fn check_refusals<O: Outs>(rt: &impl Abort, outs: &mut O, names: &[&[u8]]) {
    for name in names {
        check_refused(rt, outs, name, b"x");
    }
}

fn check_files<R: Files + Alloc + Abort>(rt: &R, files: &[(&str, &str)]) -> Result<(), Fail> {
    for (path, body) in files {
        check_file(rt, path, body)?;
    }
    Ok(())
}

// What is put, one after another.
const PUT: [(&str, &str); 4] = [
    ("/a/b/c.o", "c"),
    ("a/b/d.o", "d"),
    ("//e..", "e"),
    ("/a/b/c.o", "later"),
];

// What stands in the folder then.
const HELD: [(&str, &str); 3] = [
    ("folder_outs_test/out/a/b/c.o", "later"),
    ("folder_outs_test/out/a/b/d.o", "d"),
    ("folder_outs_test/out/e..", "e"),
];

fn check_folder<O: Outs>(rt: &impl Abort, outs: &mut O) {
    check_bodies(rt, outs, &PUT);
    check_refusals(
        rt,
        outs,
        &[
            b"", b"/", b"../x", b"/..", b"/a/../x", b"/a/..", b"/a\0b", b"/\xff",
        ],
    );
    // A folder stands at the name.
    check_refused(rt, outs, b"/a/b", b"x");
}

#[test]
fn a_folder_holds_the_files_and_nothing_above_it(rt: HostRuntime) -> Result<(), Fail> {
    remove_folder(&rt)?;
    check_folder(&rt, &mut FolderOuts::new(&rt, rt.alloc(), FOLDER)?);
    check_files(&rt, &HELD)?;
    fs::remove_dir_all(&rt, "folder_outs_test")?;
    Ok(())
}

// A runtime whose input is fixed, and whose output takes nothing.
#[derive(Drop)]
struct Canned;

impl Input for Canned {
    type Reader = &'static [u8];

    fn read_line<A: Allocator + Clone>(&self, _buf: &mut String<A>) -> io::Result<usize> {
        Err(io::Error::from(io::ErrorKind::Unsupported))
    }

    fn lines<A: Allocator>(&self, alloc: A) -> Lines<&'static [u8], A> {
        self.reader().lines(alloc)
    }

    fn reader(&self) -> &'static [u8] {
        b"input"
    }
}

impl Print for Canned {
    fn print<D: std::fmt::Display + Drop>(&self, _value: D) -> io::Result<()> {
        Err(io::Error::from(io::ErrorKind::BrokenPipe))
    }

    fn println<D: std::fmt::Display + Drop>(&self, _value: D) -> io::Result<()> {
        Err(io::Error::from(io::ErrorKind::BrokenPipe))
    }

    fn write_all(&self, _bytes: &[u8]) -> io::Result<()> {
        Err(io::Error::from(io::ErrorKind::BrokenPipe))
    }
}

#[test]
fn the_streams_of_a_runtime(rt: HostRuntime) {
    let mut source = StdSource::new(&Canned);
    check_three(&rt, &mut source, "inp");
    check_three(&rt, &mut source, "ut");
    check_three(&rt, &mut source, "");
    let _input = StdSource::new(&rt);
    let failed = Err(WriteFault::Fault);
    check_put(&rt, &mut StdSink::new(Canned), &["x"], failed);
    check_put(&rt, &mut StdSink::new(&rt), &["", ""], Ok(()));
}
