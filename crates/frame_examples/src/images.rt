// Images: the entries of a request alone.
ghost use Rattle.std.specs.Prelude.{All, IsTrue};
ghost use Rattle.job_frames.specs.Spelling.{HasSpelling, IsSpellable};

use crate::shown::{add_bytes, add_entries};
use base_types::limits::PATH_LIMIT;
use base_types::{Bytes, List};
use job_frames::{read_entries, write_entries};
use std::alloc::{AllocError, Global};
use std::fmt::Write;
use tree_model::{CanonPath, Entry};

type Entries = List<(CanonPath, Entry)>;

/// Adds what an image gives: why it is refused, or its entries and, where none is a link, the image that is written of
/// them.
pub fn add_image(text: &mut String, alloc: Global, image: &[u8]) -> Result<(), AllocError> {
    match read_entries(alloc, image) {
        Err(why) => writeln!(text, "    {why:?}"),
        Ok(entries) => add_read(text, alloc, entries.as_slice()),
    }
}

fn add_read(
    text: &mut String,
    alloc: Global,
    entries: &[(CanonPath, Entry)],
) -> Result<(), AllocError> {
    add_entries(text, entries)?;
    let image = image_of(alloc, entries)?;
    if image.len() == 0 {
        return Ok(());
    }
    add_bytes(text, "    written", image.as_slice())
}

// An entry that isn't a link and whose path and node have spellings in an image.
fn fits(entry: &(CanonPath, Entry)) -> bool
    ensures { IsTrue result → HasSpelling entry.now }
{
    let path = entry.0.bytes();
    path.len() <= PATH_LIMIT && node_fits(&entry.1)
}

fn node_fits(entry: &Entry) -> bool
    ensures { IsTrue result → IsSpellable entry.now }
{
    match entry {
        Entry::Dir => true,
        Entry::File(body) => body.len() <= 16777216,
        Entry::Link(_) => false,
    }
}

fn all_fit(entries: &[(CanonPath, Entry)]) -> bool
    ensures { IsTrue result → All HasSpelling entries.now }
{
    entries.iter().all(|entry| fits(entry))
}

// The image of entries; empty where they are more than 100,000, or one is a link or outside the limits of an image.
fn image_of(alloc: Global, entries: &[(CanonPath, Entry)]) -> Result<Bytes, AllocError> {
    if entries.len() > 100000 || !all_fit(entries) {
        return Ok(Bytes::new(alloc));
    }
    write_entries(alloc, entries)
}

/// How many bytes the image of so many directories has, and how many entries are read from it.
pub fn add_directories(
    text: &mut String,
    alloc: Global,
    count: usize,
    path: &[u8],
) -> Result<(), AllocError> {
    let entries = directories(alloc, count, path)?;
    let image = image_of(alloc, entries.as_slice())?;
    let bytes = image.len();
    let read = count_of(alloc, image.as_slice());
    writeln!(text, "    {bytes} bytes, {read} entries")
}

fn count_of(alloc: Global, image: &[u8]) -> usize {
    match read_entries(alloc, image) {
        Ok(entries) => entries.len(),
        Err(_) => 0,
    }
}

fn directories(alloc: Global, count: usize, path: &[u8]) -> Result<Entries, AllocError> {
    let mut entries = List::new(alloc);
    for n in 0..count {
        add_directory(alloc, &mut entries, path, n)?;
    }
    Ok(entries)
}

// A directory whose path ends with five decimal digits.
fn add_directory(
    alloc: Global,
    entries: &mut Entries,
    path: &[u8],
    n: usize,
) -> Result<(), AllocError> {
    let digits = format!(in alloc; "{n:05}")?;
    let path = [path, digits.as_bytes()].concat(alloc)?;
    if let Some(path) = CanonPath::read(alloc, &path)? {
        entries.push((path, Entry::Dir))?;
    }
    Ok(())
}
