// The nodes of the tree, before they are sorted.
ghost use Rattle.std.specs.Prelude.{◌≡◌, ◌<◌, ◌≤◌, [], ◌∷◌, ◌++◌, map, IfOk, OnOk, IsTrue};
ghost use Rattle.std.specs.List.{range_with_len};
ghost use Rattle.tree_model.specs.Paths.{is_canonical};
ghost use Rattle.tree_gen.specs.Generated as made;

use crate::texts::{header_text, source_text};
use std::alloc::{AllocError, Global};
use tree_model::{CanonPath, Entry};

/// The nodes of a tree with so many sources: the directories, the headers and the sources, by number.
pub(crate) fn nodes(alloc: Global, sources: u32) -> Result<Vec<(CanonPath, Entry)>, AllocError>
    requires { sources ≤ 5000 }
    ensures { IfOk result (λ nodes. nodes.items ≡ made.nodes sources) }
{
    let root = CanonPath::root(alloc)?;
    let top = child(alloc, &root, b"g")?;
    let header_dir = child(alloc, &top, b"h")?;
    let source_dir = child(alloc, &top, b"s")?;
    let mut nodes = Vec::new(alloc);
    nodes.push((top, Entry::Dir))?;
    nodes.push((header_dir.copy(alloc)?, Entry::Dir))?;
    nodes.push((source_dir.copy(alloc)?, Entry::Dir))?;
    add_headers(alloc, &header_dir, 4 * sources, &mut nodes)?;
    add_sources(alloc, &source_dir, sources, &mut nodes)?;
    Ok(nodes)
}

// The path of a name in a directory.
fn child(alloc: Global, dir: &CanonPath, name: &[u8]) -> Result<CanonPath, AllocError>
    requires { IsTrue (is_canonical (name.now ∷ dir.now)) }
    ensures { IfOk result (λ path. path ≡ name.now ∷ dir.now) }
{
    match dir.child(alloc, name)? {
        Some(path) => Ok(path),
        None => unreachable!(),
    }
}

fn add_headers(
    alloc: Global,
    dir: &CanonPath,
    count: u32,
    nodes: &mut Vec<(CanonPath, Entry)>,
) -> Result<(), AllocError>
    requires dir { dir.now ≡ made.header_dir }
    requires few { count ≤ 20000 }
    ensures { OnOk result (nodes.new.items ≡ nodes.old.items ++ map made.header (range_with_len 0 count)) }
{
    for number in 0..count {
        nodes.push(header(alloc, dir, number)?)?;
    }
    Ok(())
}

fn header(alloc: Global, dir: &CanonPath, number: u32) -> Result<(CanonPath, Entry), AllocError>
    requires dir { dir.now ≡ made.header_dir }
    requires small { number < 20000 }
    ensures { IfOk result (λ node. node ≡ made.header number) }
{
    let name = format!(in alloc; "h{number}.h")?;
    let path = child(alloc, dir, name.as_bytes())?;
    let text = header_text(alloc, number)?;
    Ok((path, Entry::File(text)))
}

fn add_sources(
    alloc: Global,
    dir: &CanonPath,
    count: u32,
    nodes: &mut Vec<(CanonPath, Entry)>,
) -> Result<(), AllocError>
    requires dir { dir.now ≡ made.source_dir }
    requires few { count ≤ 5000 }
    ensures { OnOk result (nodes.new.items ≡ nodes.old.items ++ map made.source (range_with_len 0 count)) }
{
    for number in 0..count {
        nodes.push(source(alloc, dir, number)?)?;
    }
    Ok(())
}

fn source(alloc: Global, dir: &CanonPath, number: u32) -> Result<(CanonPath, Entry), AllocError>
    requires dir { dir.now ≡ made.source_dir }
    requires small { number < 5000 }
    ensures { IfOk result (λ node. node ≡ made.source number) }
{
    let name = format!(in alloc; "s{number}.c")?;
    let path = child(alloc, dir, name.as_bytes())?;
    let text = source_text(alloc, number)?;
    Ok((path, Entry::File(text)))
}
