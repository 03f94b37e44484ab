// Trees and ends, and what has to come of them.
ghost use Rattle.std.specs.Prelude.{◌≡◌, [], IfOk, IsTrue, OnOk};
ghost use Rattle.tree_model.specs.Entries.{links_fit};

use crate::named_run::{NamedEnd, Objects, end_over};
use base_types::Bytes;
use io_edges::{LinkState, MemOuts};
use std::alloc::{AllocError, Global};
use std::process::Abort;
use std::test::Fail;
use tree_model::{CanonPath, Entry, Unnamed};

/// An end in memory over a tree that no type names.
pub type MemEnd = NamedEnd<Unnamed>;

/// What stands at a path of a tree.
#[derive(Clone, Copy, Drop)]
pub enum Placed<'a> {
    File { path: &'a str, body: &'a str },
    Dir { path: &'a str },
}

/// The working directory of the jobs.
pub const WORK: Placed<'static> = Placed::Dir { path: "/w" };

/// An end over the given files, which no type names, at which no call was made.
pub fn end_of(alloc: Global, files: &[Placed<'_>]) -> Result<MemEnd, Fail>
    ensures closed { IfOk result (λ end. end.wire.state ≡ LinkState.Closed) }
    ensures silent { IfOk result (λ end. end.wire.talk ≡ []) }
{
    let entries = entries_of(alloc, files)?;
    let objects = Objects {
        tree_fails: Vec::new(alloc),
        outs_fails: Vec::new(alloc),
        wire_fails: Vec::new(alloc),
        pieces: Vec::new(alloc),
    };
    Ok(end_over::<Unnamed>(alloc, entries, objects)?)
}

/// What stands in a tree.
pub fn entries_of(
    alloc: Global,
    files: &[Placed<'_>],
) -> Result<Vec<(CanonPath, Entry)>, AllocError>
    ensures { IfOk result (λ entries. IsTrue (links_fit entries.items)) }
{
    let mut entries = Vec::new(alloc);
    for placed in files {
        place(alloc, &mut entries, placed)?;
    }
    Ok(entries)
}

fn place(
    alloc: Global,
    entries: &mut Vec<(CanonPath, Entry)>,
    placed: &Placed<'_>,
) -> Result<(), AllocError>
    requires { IsTrue (links_fit entries.old.items) }
    ensures { OnOk result (IsTrue (links_fit entries.new.items)) }
{
    match placed {
        Placed::File { path: at, body } => {
            let body = Bytes::copy_of(alloc, body.as_bytes())?;
            entries.push((path(alloc, at)?, Entry::File(body)))?;
        }
        Placed::Dir { path: at } => entries.push((path(alloc, at)?, Entry::Dir))?,
    }
    Ok(())
}

// The path that a text spells, or the root where it spells none.
fn path(alloc: Global, text: &str) -> Result<CanonPath, AllocError> {
    match CanonPath::read(alloc, text.as_bytes())? {
        Some(path) => Ok(path),
        None => CanonPath::root(alloc),
    }
}

/// Asserts a fact of what this name is of.
pub fn check<R: Abort>(rt: &R, holds: bool, name: &str, fact: &str) {
    assert!(rt; holds, "{name}: {fact}");
}

/// Asserts that bytes are those of a text.
pub fn check_text<R: Abort>(rt: &R, name: &str, bytes: &[u8], text: &str) {
    let found = std::str::from_utf8(bytes).unwrap_or("no UTF-8");
    assert_eq!(rt; found, text, "{name}");
}

/// Asserts that just this text was put, under this name.
pub fn check_put<R: Abort>(rt: &R, name: &str, outs: &MemOuts, under: &str, text: &str) {
    let entries = outs.entries();
    check(rt, entries.len() == 1, name, "the texts put");
    for (put_under, body) in entries {
        check_text(rt, name, put_under.as_slice(), under);
        check_text(rt, name, body.as_slice(), text);
    }
}
