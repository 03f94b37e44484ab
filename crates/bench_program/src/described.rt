// The lines that describe a tree, and the questions about it.
ghost use Rattle.std.specs.Prelude.{IfOk, IsTrue};
ghost use Rattle.tree_model.specs.Entries.{links_fit};

use anyhow::{Result, bail};
use base_types::Bytes;
use case_texts::{Stands, add_node};
use std::alloc::{AllocError, Global};
use tree_model::{CanonPath, Entry, Located, MemTree, Tree, TreeError, Unnamed, locate};

// A line: a path, what stands there, and a link's text; or the question what a text locates from a directory.
#[derive(Clone, Copy, Drop)]
enum Line<'a> {
    Node(&'a [u8], Stands, &'a [u8]),
    Question(&'a [u8], &'a [u8]),
}

// What a line says: a letter, and up to two parts, with tabs between.
fn line_of(line: &[u8]) -> Option<Line<'_>> {
    let (letter, rest) = cut(line)?;
    match letter {
        b"d" => Some(Line::Node(rest, Stands::Dir, b"")),
        b"f" => Some(Line::Node(rest, Stands::File, b"")),
        b"l" => {
            let (path, text) = cut(rest)?;
            Some(Line::Node(path, Stands::Link, text))
        }
        b"?" => {
            let (path, text) = cut(rest)?;
            Some(Line::Question(path, text))
        }
        _ => None,
    }
}

// What stands before the first tab, and behind it.
fn cut(text: &[u8]) -> Option<(&[u8], &[u8])> {
    for (i, b) in text.iter().enumerate() {
        if *b == b'\t' {
            return Some((&text[..i], &text[i + 1..]));
        }
    }
    None
}

// The entries of all lines that describe nodes.
fn entries_of(alloc: Global, text: &[u8]) -> Result<Vec<(CanonPath, Entry)>, AllocError>
    ensures { IfOk result (λ entries. IsTrue (links_fit entries.items)) }
{
    let mut entries = Vec::new(alloc);
    for line in text.split(|b| *b == b'\n') {
        if let Some(Line::Node(path, stands, text)) = line_of(line) {
            add_node(alloc, &mut entries, path, stands, text)?;
        }
    }
    Ok(entries)
}

/// The tree that a text's lines describe, or None where they make none.
pub fn tree_of(alloc: Global, text: &[u8]) -> Result<Option<MemTree<Unnamed>>, AllocError> {
    let entries = entries_of(alloc, text)?;
    Ok(MemTree::new(alloc, entries, Vec::new(alloc)).ok())
}

/// The answers to a text's questions about a tree, in order: the real path of the file that is located, or `-`.
pub fn answers(alloc: Global, tree: &mut MemTree<Unnamed>, text: &[u8]) -> Result<Vec<Bytes>> {
    let mut answers = Vec::new(alloc);
    for line in text.split(|b| *b == b'\n') {
        if let Some(Line::Question(path, text)) = line_of(line) {
            answers.push(answer(alloc, tree, path, text)?)?;
        }
    }
    Ok(answers)
}

// The real path of the file that a text locates from a directory, or `-`.
fn answer<T: Tree>(alloc: Global, tree: &mut T, dir: &[u8], text: &[u8]) -> Result<Bytes> {
    let Some(dir) = CanonPath::read(alloc, dir)? else {
        bail!("a directory's path isn't canonical");
    };
    answer_from(alloc, tree, &dir, text)
}

fn answer_from<T: Tree>(
    alloc: Global,
    tree: &mut T,
    dir: &CanonPath,
    text: &[u8],
) -> Result<Bytes> {
    match locate(alloc, tree, dir, text) {
        Ok(found) => Ok(shown(alloc, found)?),
        Err(TreeError::Memory) => Err(AllocError.into()),
        Err(_) => bail!("the tree failed"),
    }
}

// The real path of what was located, or `-`.
fn shown(alloc: Global, found: Option<Located>) -> Result<Bytes, AllocError> {
    match found {
        Some(found) => Bytes::copy_of(alloc, found.real.bytes()),
        None => Bytes::copy_of(alloc, b"-"),
    }
}
