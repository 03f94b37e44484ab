// The host's files as a tree.
ghost use Rattle.std.specs.Prelude.{◌≡◌, None, IfOk};
ghost use Rattle.tree_model.specs.Trees.{IsNode, IsBody};
ghost use Rattle.host_tree.specs.Untold.{nothing_is_some};

use crate::bodies::Bodies;
use base_types::Bytes;
use command_line::{FileBody, read_seen};
use io_edges::HostFault;
use std::fs::{self, Files};
use std::io::{self, ErrorKind};
use tree_model::{CanonPath, Node, Reached, Tree, TreeError, Unnamed};

/// The host's files, from the root of their tree. It doesn't tell them.
///
/// A link is shown as what it leads to. A path that isn't UTF-8 has no node, nor has a path that the host can't have, nor
/// one at which neither a folder nor a file stands, as at a device. What the host doesn't let a look see is a fault, as below a
/// folder that may not be searched. Only a path at which a file was seen is read: where none stands any more, that is a fault
/// too, as the tree didn't stand still. What was read is remembered, up to 2 MiB, and is not read from the host again; `reads` counts
/// each call.
#[derive(Drop)]
pub struct Folder<R: Files + AllocGlobal> {
    rt: R,
    faults: u64,
    reads: u64,
    last: Option<HostFault>,
    bodies: Bodies,
}

impl<R: Files + AllocGlobal> Folder<R> {
    /// The host's files, of which no body is remembered.
    pub fn new(rt: R) -> Folder<R>
        ensures fresh { ⟦<Folder<R> as Tree>⟧.faults result ≡ 0 }
        ensures unread { ⟦<Folder<R> as Tree>⟧.reads result ≡ 0 }
    {
        let bodies = Bodies::new(rt.alloc());
        Folder {
            rt,
            faults: 0,
            reads: 0,
            last: None,
            bodies,
        }
    }

    /// What the host failed at last, and why.
    pub fn last_fault(&self) -> Option<&HostFault> {
        self.last.as_ref()
    }
}

impl<R: Files + AllocGlobal> Tree for Folder<R> {
    type Of = Unnamed;

    ghost told = { λ _. None };

    ghost faults = { λ f. f.faults };

    ghost reads = { λ f. f.reads };

    ghost tells = { λ object tree named. absurd (nothing_is_some tree named) };

    ghost whole = { λ object tree told. absurd (nothing_is_some tree told) };

    fn node(&mut self, path: &CanonPath) -> Result<Option<Node>, TreeError> {
        match node_at(&self.rt, path.bytes()) {
            Ok(node) => Ok(node),
            Err(error) if error.kind() == ErrorKind::OutOfMemory => Err(TreeError::Memory),
            Err(error) => {
                self.faults = self.faults.saturating_add(1);
                self.last = Some(HostFault::at(self.rt.alloc(), path.bytes(), error));
                Err(TreeError::Fault)
            }
        }
    }

    fn recall(&self, _text: &[u8]) -> Option<&Reached> {
        None
    }

    fn remember(&mut self, _text: Bytes, _it: Reached) {}

    fn read(&mut self, path: &CanonPath) -> Result<Option<Bytes>, TreeError> {
        self.reads = self.reads.saturating_add(1);
        if let Some(body) = self.bodies.recall(path) {
            return Ok(Some(body));
        }
        match body_at(&self.rt, path.bytes()) {
            Ok(Some(body)) => {
                self.bodies.remember(path, body.as_slice());
                Ok(Some(body))
            }
            Ok(None) => Err(TreeError::Large),
            Err(error) if error.kind() == ErrorKind::OutOfMemory => Err(TreeError::Memory),
            Err(error) => {
                self.faults = self.faults.saturating_add(1);
                self.last = Some(HostFault::at(self.rt.alloc(), path.bytes(), error));
                Err(TreeError::Fault)
            }
        }
    }
}

fn node_at(files: &impl Files, path: &[u8]) -> io::Result<Option<Node>>
    ensures { IfOk result IsNode }
{
    let Ok(text) = str::from_utf8(path) else {
        return Ok(None);
    };
    match fs::metadata(files, text) {
        Ok(found) if found.is_dir() => Ok(Some(Node::Dir)),
        Ok(found) if found.is_file() => Ok(Some(Node::File)),
        Ok(_) => Ok(None),
        Err(e) if is_absent(e.kind()) => Ok(None),
        Err(e) => Err(e),
    }
}

// Nothing stands at a path where the host says so, or can't have such a path.
fn is_absent(kind: ErrorKind) -> bool {
    matches!(
        kind,
        ErrorKind::NotFound
            | ErrorKind::NotADirectory
            | ErrorKind::InvalidFilename
            | ErrorKind::InvalidInput
            | ErrorKind::FilesystemLoop
    )
}

// The bytes of the file that was seen at a path; None where they are more than 16,777,216.
fn body_at<R: Files + AllocGlobal>(rt: &R, path: &[u8]) -> io::Result<Option<Bytes>>
    ensures { IfOk result IsBody }
{
    let Ok(text) = str::from_utf8(path) else {
        return Err(no_file());
    };
    match read_seen(rt, text)? {
        FileBody::Whole(body) => Ok(Some(Bytes::of(body))),
        FileBody::Large => Ok(None),
        FileBody::NoFile => Err(no_file()),
    }
}

fn no_file() -> io::Error {
    io::Error::other("no file stands there")
}
