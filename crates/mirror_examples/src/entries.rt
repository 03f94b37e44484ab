// Lists of entries.
ghost use Rattle.std.specs.Prelude.{◌≤◌, length, IsTrue};
ghost use Rattle.tree_model.specs.Entries.{bodies_fit, body_fits, entry_fits, is_link_text, links_fit};

use base_types::Bytes;
use std::alloc::{AllocError, Global};
use tree_model::{CanonPath, Entry};

pub type Entries = Vec<(CanonPath, Entry)>;

/// The path that a text spells, or the root where it spells none.
pub fn path(alloc: Global, text: &str) -> Result<CanonPath, AllocError> {
    match CanonPath::read(alloc, text.as_bytes())? {
        Some(path) => Ok(path),
        None => CanonPath::root(alloc),
    }
}

/// Adds an entry for each text: a text that ends with `/` is a directory's, and any other an empty file's.
pub fn add_places(alloc: Global, entries: &mut Entries, places: &[&str]) -> Result<(), AllocError>
    requires links { IsTrue (links_fit entries.old.items) }
    requires bodies { IsTrue (bodies_fit entries.old.items) }
    ensures links { IsTrue (links_fit entries.new.items) }
    ensures bodies { IsTrue (bodies_fit entries.new.items) }
{
    for place in places {
        add_place(alloc, entries, place)?;
    }
    Ok(())
}

fn add_place(alloc: Global, entries: &mut Entries, place: &str) -> Result<(), AllocError>
    requires links { IsTrue (links_fit entries.old.items) }
    requires bodies { IsTrue (bodies_fit entries.old.items) }
    ensures links { IsTrue (links_fit entries.new.items) }
    ensures bodies { IsTrue (bodies_fit entries.new.items) }
{
    match place.strip_suffix('/') {
        Some(dir) => add_entry(alloc, entries, dir, Entry::Dir),
        None => add_entry(alloc, entries, place, Entry::File(Bytes::new(alloc))),
    }
}

/// Adds a link.
pub fn add_link(
    alloc: Global,
    entries: &mut Entries,
    place: &str,
    text: &[u8],
) -> Result<(), AllocError>
    requires text { IsTrue (is_link_text text.now) }
    requires links { IsTrue (links_fit entries.old.items) }
    requires bodies { IsTrue (bodies_fit entries.old.items) }
    ensures links { IsTrue (links_fit entries.new.items) }
    ensures bodies { IsTrue (bodies_fit entries.new.items) }
{
    let text = Bytes::copy_of(alloc, text)?;
    add_entry(alloc, entries, place, Entry::Link(text))
}

/// Adds a file.
pub fn add_file(
    alloc: Global,
    entries: &mut Entries,
    place: &str,
    body: &[u8],
) -> Result<(), AllocError>
    requires small { length body.now ≤ 16777216 }
    requires links { IsTrue (links_fit entries.old.items) }
    requires bodies { IsTrue (bodies_fit entries.old.items) }
    ensures links { IsTrue (links_fit entries.new.items) }
    ensures bodies { IsTrue (bodies_fit entries.new.items) }
{
    let body = Bytes::copy_of(alloc, body)?;
    add_entry(alloc, entries, place, Entry::File(body))
}

fn add_entry(
    alloc: Global,
    entries: &mut Entries,
    place: &str,
    entry: Entry,
) -> Result<(), AllocError>
    requires link { IsTrue (entry_fits entry) }
    requires body { IsTrue (body_fits entry) }
    requires links { IsTrue (links_fit entries.old.items) }
    requires bodies { IsTrue (bodies_fit entries.old.items) }
    ensures links { IsTrue (links_fit entries.new.items) }
    ensures bodies { IsTrue (bodies_fit entries.new.items) }
{
    entries.push((path(alloc, place)?, entry))?;
    Ok(())
}
