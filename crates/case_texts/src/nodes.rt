// The nodes of a case's tree, as its lines describe them.
ghost use Rattle.std.specs.Prelude.{◌≡◌, ◌==◌, [], ◌∷◌, ◌++◌, IfOk, IsTrue, OnOk};
ghost use Rattle.std.specs.List.{list_any};
ghost use Rattle.tree_model.specs.Entries.{entry_fits, is_link_text, links_fit};

use crate::Wrong;
use crate::spelling::{bytes_of, number_of};
use base_types::Bytes;
use base_types::limits::PATH_LIMIT;
use std::alloc::{AllocError, Global};
use std::marker::Model;
use tree_model::{CanonPath, Entry};

// A node that was read.
#[derive(Drop)]
struct Node {
    path: CanonPath,
    entry: Entry,
    ghost fits: { IsTrue (entry_fits entry) },
}

/// The nodes of a tree, as far as they were read. Its lines, with the nodes in order of the bytes of their paths, are
/// `file PATH`, `dir PATH` and `link PATH TEXT`; behind a file `| LINE`, `= BYTES` and `* TIMES BYTES` add to its body.
#[derive(Drop)]
pub struct Nodes {
    nodes: Vec<Node>,
}

impl Model for Nodes {
    ghost use Rattle.tree_model.specs.Entries.{Entries};
    ghost use Rattle.case_texts.specs.Nodes.{entries_of};

    ghost Value = { Entries };

    ghost view = { λ n. entries_of n.nodes.items };
}

/// Whether a line that begins with this word describes the tree.
pub fn is_of_tree(word: &str) -> bool {
    matches!(word, "file" | "|" | "=" | "*" | "dir" | "link")
}

impl Nodes {
    pub fn new(alloc: Global) -> Nodes
        ensures { result ≡ [] }
    {
        Nodes {
            nodes: Vec::new(alloc),
        }
    }

    /// Takes a line of the tree, by its word and what stands behind it.
    pub fn take(&mut self, alloc: Global, word: &str, rest: &str) -> Result<(), Wrong> {
        match word {
            "file" => self.add_file(alloc, &bytes_of(alloc, rest)?),
            "|" => self.extend(rest.as_bytes(), b"\n"),
            "=" => self.extend(&bytes_of(alloc, rest)?, b""),
            "*" => self.extend_times(alloc, rest),
            "dir" => self.add(path_spelled(alloc, rest)?, Entry::Dir),
            "link" => self.add_link(alloc, rest),
            _ => Err(Wrong::Form("a word that isn't known")),
        }
    }

    /// What stands in the tree of the nodes.
    pub fn into_entries(self, alloc: Global) -> Result<Vec<(CanonPath, Entry)>, AllocError>
        ensures fit { IfOk result (λ entries. IsTrue (links_fit entries.items)) }
        ensures all { IfOk result (λ entries. entries.items ≡ self) }
    {
        let Nodes { nodes } = self;
        let mut entries = Vec::with_capacity(alloc, nodes.len())?;
        for node in nodes {
            let Node { path, entry } = node;
            entries.push((path, entry))?;
        }
        Ok(entries)
    }

    fn add(&mut self, path: CanonPath, entry: Entry) -> Result<(), Wrong>
        requires { IsTrue (entry_fits entry) }
        ensures { OnOk result (self.new ≡ self.old ++ (path, entry) ∷ []) }
    {
        self.nodes.push(Node { path, entry })?;
        Ok(())
    }

    // Adds a file without bytes, behind the directories above it that aren't there yet.
    fn add_file(&mut self, alloc: Global, path: &[u8]) -> Result<(), Wrong> {
        for (end, byte) in path.iter().enumerate() {
            if *byte == b'/' && end > 0 {
                self.add_dir(path_of(alloc, &path[..end])?)?;
            }
        }
        self.add(path_of(alloc, path)?, Entry::File(Bytes::new(alloc)))
    }

    // Adds a directory, where nothing is at its path.
    fn add_dir(&mut self, dir: CanonPath) -> Result<(), Wrong> {
        if self.nodes.iter().any(|node| node.path.spells_same(&dir)) {
            return Ok(());
        }
        self.add(dir, Entry::Dir)
    }

    fn add_link(&mut self, alloc: Global, rest: &str) -> Result<(), Wrong> {
        let (path, text) = rest.split_once(' ').unwrap_or((rest, ""));
        let text = bytes_of(alloc, text)?;
        if !is_link_text(&text) {
            return Err(Wrong::Form("a text that no link has"));
        }
        self.add(path_spelled(alloc, path)?, Entry::Link(Bytes::of(text)))
    }

    // Adds bytes, and what ends their line, to the file that was added last.
    fn extend(&mut self, bytes: &[u8], end: &[u8]) -> Result<(), Wrong> {
        let Some(node) = self.nodes.pop() else {
            return Err(Wrong::Form("no file is in front of this line"));
        };
        let Node { path, entry } = node;
        let Entry::File(mut body) = entry else {
            return Err(Wrong::Form("no file is in front of this line"));
        };
        body.extend(bytes)?;
        body.extend(end)?;
        self.add(path, Entry::File(body))
    }

    // Adds bytes so many times, as a number in front of them says.
    fn extend_times(&mut self, alloc: Global, rest: &str) -> Result<(), Wrong> {
        let (times, text) = rest.split_once(' ').unwrap_or((rest, ""));
        let bytes = bytes_of(alloc, text)?;
        for _ in 0..number_of(times)? {
            self.extend(&bytes, b"")?;
        }
        Ok(())
    }
}

// A text that a link may have.
#[tactic(auto, using(std::proofs::lemmas::Bool::Decides::nat_tests))]
pub(crate) fn is_link_text(text: &[u8]) -> bool
    ensures { result ≡ is_link_text text.now }
{
    0 < text.len() && (text.len() < PATH_LIMIT && !has_zero(text))
}

fn has_zero(text: &[u8]) -> bool
    ensures { result ≡ list_any (λ byte. byte == 0) text.now }
{
    text.iter().any(|byte| *byte == 0)
}

fn path_spelled(alloc: Global, spelled: &str) -> Result<CanonPath, Wrong> {
    path_of(alloc, &bytes_of(alloc, spelled)?)
}

/// The path of these bytes.
pub fn path_of(alloc: Global, path: &[u8]) -> Result<CanonPath, Wrong> {
    match CanonPath::read(alloc, path)? {
        Some(path) => Ok(path),
        None => Err(Wrong::Form("a path that isn't canonical")),
    }
}
