// The entries of a tree, node by node.
ghost use Rattle.std.specs.Prelude.{◌≡◌, IfOk, IsTrue, OnOk};
ghost use Rattle.tree_model.specs.Paths.{path_of};
ghost use Rattle.tree_model.specs.Entries.{entry_fits, links_fit};
ghost use Rattle.case_texts.specs.Nodes as nodes;
ghost use Rattle.case_texts.specs.declared.entries.Stands.TheVariants.{Link};

use crate::nodes::is_link_text;
use base_types::Bytes;
use std::alloc::{AllocError, Global};
use tree_model::{CanonPath, Entry};

/// What stands at a path.
#[derive(Clone, Copy, Drop)]
pub enum Stands {
    Dir,
    File,
    Link,
}

/// Adds a node, where its path is canonical: what stands there, and the bytes of a file or a link's text. A link of a text that
/// no link may have is a directory.
pub fn add_node(
    alloc: Global,
    entries: &mut Vec<(CanonPath, Entry)>,
    path: &[u8],
    stands: Stands,
    bytes: &[u8],
) -> Result<(), AllocError>
    requires { IsTrue (links_fit entries.old.items) }
    ensures fit { IsTrue (links_fit entries.new.items) }
    ensures added { OnOk result (entries.new.items ≡ nodes.with_entry entries.old.items (path_of path.now) (nodes.entry_of stands bytes.now)) }
{
    let Some(path) = CanonPath::read(alloc, path)? else {
        return Ok(());
    };
    let entry = entry_of(alloc, stands, bytes)?;
    entries.push((path, entry))?;
    Ok(())
}

fn entry_of(alloc: Global, stands: Stands, bytes: &[u8]) -> Result<Entry, AllocError>
    ensures fits { IfOk result (λ entry. IsTrue (entry_fits entry)) }
    ensures is { IfOk result (λ entry. entry ≡ nodes.entry_of stands bytes.now) }
{
    match stands {
        Stands::Dir => Ok(Entry::Dir),
        Stands::File => Ok(Entry::File(Bytes::copy_of(alloc, bytes)?)),
        Stands::Link => link_of(alloc, bytes),
    }
}

fn link_of(alloc: Global, text: &[u8]) -> Result<Entry, AllocError>
    ensures fits { IfOk result (λ entry. IsTrue (entry_fits entry)) }
    ensures is { IfOk result (λ entry. entry ≡ nodes.entry_of Link text.now) }
{
    if !is_link_text(text) {
        return Ok(Entry::Dir);
    }
    Ok(Entry::Link(Bytes::copy_of(alloc, text)?))
}
