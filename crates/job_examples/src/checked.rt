// A tree and a job by rows, and what preprocessing the job gives.
ghost use Rattle.std.specs.Prelude.{IfOk, IsTrue};
ghost use Rattle.tree_model.specs.Entries.{links_fit};

use base_types::{Bytes, List};
use case_texts::{Stands, add_node};
use daemon_cpp::{CppError, Outcome, preprocess};
use job_words::read_words;
use std::alloc::{AllocError, Global};
use std::process::Abort;
use std::test::Fail;
use tree_model::{CanonPath, Entry, MemTree, Tree, Unnamed};

/// A path, what stands at it, and a file's bytes or a link's text.
pub type Node<'x> = (&'x str, Stands, &'x str);

/// Jobs over a tree: each row has the words of a job in `/w`, and its outcome.
#[derive(Clone, Copy, Drop)]
pub struct Case<'x> {
    pub name: &'x str,
    pub nodes: &'x [Node<'x>],
    pub rows: &'x [(&'x str, &'x str)],
}

fn entries_of(alloc: Global, nodes: &[Node<'_>]) -> Result<Vec<(CanonPath, Entry)>, AllocError>
    ensures { IfOk result (λ entries. IsTrue (links_fit entries.items)) }
{
    let mut entries = Vec::new(alloc);
    for node in nodes {
        let (path, stands, text) = *node;
        add_node(
            alloc,
            &mut entries,
            path.as_bytes(),
            stands,
            text.as_bytes(),
        )?;
    }
    Ok(entries)
}

// The words between blanks.
fn words_of(alloc: Global, line: &str) -> Result<List<Bytes>, AllocError> {
    let mut words = List::new(alloc);
    for word in line.as_bytes().split(|b| *b == b' ') {
        words.push(Bytes::copy_of(alloc, word)?)?;
    }
    Ok(words)
}

// A letter and these bytes.
fn lettered(alloc: Global, letter: u8, bytes: &[u8]) -> Result<Vec<u8>, AllocError> {
    let mut seen = Vec::new(alloc);
    seen.push(letter)?;
    seen.extend_from_slice(bytes)?;
    Ok(seen)
}

// What preprocessing gave, with T before a text and D before a diagnostic; empty where it gave nothing.
fn shown(alloc: Global, outcome: Result<Outcome, CppError>) -> Result<Vec<u8>, AllocError> {
    match outcome {
        Ok(Outcome::Text(text)) => lettered(alloc, b'T', text.as_slice()),
        Ok(Outcome::Diag(words)) => lettered(alloc, b'D', words.as_slice()),
        Err(_) => Ok(Vec::new(alloc)),
    }
}

// The outcome of the job of these words in `/w`; empty where there is none.
fn outcome<T: Tree>(alloc: Global, tree: &mut T, words: &str) -> Result<Vec<u8>, AllocError> {
    let words = words_of(alloc, words)?;
    match read_words(alloc, b"/w", words.as_slice()) {
        Ok(job) => shown(alloc, preprocess(alloc, tree, &job)),
        Err(_) => Ok(Vec::new(alloc)),
    }
}

fn check_shown(rt: &impl Abort, name: &str, words: &str, seen: &[u8], want: &str) {
    let text = std::str::from_utf8(seen).unwrap_or("no UTF-8");
    assert_eq!(rt; text, want, "{name}: {words}");
}

fn check_outcome<T: Tree>(
    rt: &impl Abort,
    alloc: Global,
    name: &str,
    tree: &mut T,
    (words, want): (&str, &str),
) {
    match outcome(alloc, tree, words) {
        Ok(seen) => check_shown(rt, name, words, seen.as_slice(), want),
        Err(_) => rt.panic("no memory for an outcome"),
    }
}

fn tree_of(alloc: Global, nodes: &[Node<'_>]) -> Result<MemTree<Unnamed>, Fail> {
    let entries = entries_of(alloc, nodes)?;
    Ok(MemTree::new(alloc, entries, Vec::new(alloc))?)
}

fn check_row(
    rt: &impl Abort,
    alloc: Global,
    name: &str,
    nodes: &[Node<'_>],
    row: (&str, &str),
) -> Result<(), Fail> {
    let mut tree = tree_of(alloc, nodes)?;
    check_outcome(rt, alloc, name, &mut tree, row);
    Ok(())
}

/// Each row's job, by its words in `/w`, has its outcome over the tree of these nodes.
pub fn check_rows(
    rt: &impl Abort,
    alloc: Global,
    name: &str,
    nodes: &[Node<'_>],
    rows: &[(&str, &str)],
) -> Result<(), Fail> {
    for row in rows {
        check_row(rt, alloc, name, nodes, *row)?;
    }
    Ok(())
}

/// The rows of each case.
pub fn check_cases(rt: &impl Abort, alloc: Global, cases: &[Case<'_>]) -> Result<(), Fail> {
    for case in cases {
        check_rows(rt, alloc, case.name, case.nodes, case.rows)?;
    }
    Ok(())
}
