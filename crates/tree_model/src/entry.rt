// The nodes of a tree.
ghost use Rattle.std.specs.Prelude.{◌≡◌, ◌<◌, length, IfOk, OnErr, IsErrOf, Err, IsTrue, Some};
ghost use Rattle.tree_model.specs.Paths.{Text};
ghost use Rattle.tree_model.specs.Trees as trees;
ghost use Rattle.base_types.specs.Limits.{body_limit};
ghost use Rattle.tree_model.specs.Trees.{entry_body, is_link, IsBody};
ghost use Rattle.tree_model.specs.declared.entry.Node.TheVariants.{Link};

use crate::TreeError;
use base_types::Bytes;
use base_types::limits::BODY_LIMIT;
use std::alloc::Global;

/// A node of a tree, with what is in it.
#[derive(Debug, Drop)]
pub enum Entry {
    Dir,
    /// A file with its bytes.
    File(Bytes),
    /// A symbolic link with its text, of 1 to 4,095 bytes, none of them 0.
    Link(Bytes),
}

/// A node of a tree, without a file's bytes.
#[derive(Debug, Drop)]
pub enum Node {
    Dir,
    File,
    /// A symbolic link with its text.
    Link(Bytes),
}

impl Entry {
    /// The node without a file's bytes. A link's text is copied: `Memory` alone is an error, and only of a link.
    pub fn shown(&self, alloc: Global) -> Result<Node, TreeError>
        ensures ok { IfOk result (λ node. node ≡ trees.node_of_entry self.now) }
        ensures err { (e : _) → result ≡ Err e → e ≡ TreeError.Memory }
        ensures links { OnErr result (IsTrue (is_link (Some self.now))) }
    {
        match self {
            Entry::Dir => Ok(Node::Dir),
            Entry::File(_) => Ok(Node::File),
            Entry::Link(text) => linked(alloc, text),
        }
    }

    /// A copy of a file's bytes, or None where this is no file. Only of a file an error comes: `Large` where it has more
    /// bytes than are read, else `Memory`.
    pub(crate) fn body(&self, alloc: Global) -> Result<Option<Bytes>, TreeError>
        ensures ok { IfOk result (λ got. got ≡ entry_body (Some self.now)) }
        ensures form { IfOk result IsBody }
        ensures large { IsErrOf result TreeError.Large → (body : Text) × (entry_body (Some self.now) ≡ Some body) × (body_limit < length body) }
        ensures no_fault { IsErrOf result TreeError.Fault → ⊥ }
    {
        match self {
            Entry::Dir => Ok(None),
            Entry::File(body) => {
                if body.len() > BODY_LIMIT {
                    return Err(TreeError::Large);
                }
                Ok(Some(copied(alloc, body)?))
            }
            Entry::Link(_) => Ok(None),
        }
    }
}

// A link with a copy of a text.
fn linked(alloc: Global, text: &Bytes) -> Result<Node, TreeError>
    ensures ok { IfOk result (λ node. node ≡ Link text.now) }
    ensures err { (e : _) → result ≡ Err e → e ≡ TreeError.Memory }
{
    match copied(alloc, text) {
        Ok(copy) => Ok(Node::Link(copy)),
        Err(error) => Err(error),
    }
}

/// A copy of a body or of a link's text. `Memory` alone is an error.
pub fn copied(alloc: Global, bytes: &Bytes) -> Result<Bytes, TreeError>
    ensures ok { IfOk result (λ copy. copy ≡ bytes.now) }
    ensures err { (e : _) → result ≡ Err e → e ≡ TreeError.Memory }
{
    match Bytes::copy_of(alloc, bytes.as_slice()) {
        Ok(copy) => Ok(copy),
        Err(_) => Err(TreeError::Memory),
    }
}
