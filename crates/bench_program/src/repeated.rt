// Searches and readings of words, repeated.
ghost use Rattle.std.specs.Prelude.{IfOk, IsTrue};
ghost use Rattle.search_path.specs.Search.{NeedsFrom};
ghost use Rattle.tree_model.specs.Entries.{links_fit};

use anyhow::{Context, Result, bail};
use base_types::{Bytes, List};
use case_texts::{Stands, add_node};
use job_words::{Job, read_words};
use search_path::{Ask, Form, Found, Visit, search};
use std::alloc::{AllocError, Global};
use tree_model::{Cached, CanonPath, Entry, MemTree, Tree, Unnamed};

// The name of a directory.
fn directory(alloc: Global, number: u32) -> Result<String, AllocError> {
    let number = number.saturating_add(1000);
    format!(in alloc; "d{number}")
}

// The words of a job with so many directories.
fn words_with(alloc: Global, directories: u32) -> Result<List<Bytes>, AllocError> {
    let mut words = List::new(alloc);
    words.push(Bytes::copy_of(alloc, b"a.c")?)?;
    for number in 0..directories {
        words.push(option_for(alloc, number)?)?;
    }
    Ok(words)
}

// The word that names a directory.
fn option_for(alloc: Global, number: u32) -> Result<Bytes, AllocError> {
    let mut word = Bytes::copy_of(alloc, b"-I")?;
    word.extend(directory(alloc, number)?.as_bytes())?;
    Ok(word)
}

fn job_with(alloc: Global, words: &[Bytes]) -> Result<Job> {
    read_words(alloc, b"/w", words)
        .ok()
        .context("the words give no job")
}

// The path of a text that spells one.
fn path(alloc: Global, text: &str) -> Result<CanonPath> {
    CanonPath::read(alloc, text.as_bytes())?.context("a path isn't canonical")
}

// A tree of so many directories, of which the last has the header.
fn entries_with(alloc: Global, directories: u32) -> Result<Vec<(CanonPath, Entry)>, AllocError>
    ensures { IfOk result (λ entries. IsTrue (links_fit entries.items)) }
{
    let mut entries = Vec::new(alloc);
    add_node(alloc, &mut entries, b"/w", Stands::Dir, b"")?;
    add_node(alloc, &mut entries, b"/w/a.c", Stands::File, b"")?;
    for number in 0..directories {
        add_directory(alloc, &mut entries, number)?;
    }
    if let Some(last) = directories.checked_sub(1) {
        add_header(alloc, &mut entries, last)?;
    }
    Ok(entries)
}

fn add_directory(
    alloc: Global,
    entries: &mut Vec<(CanonPath, Entry)>,
    number: u32,
) -> Result<(), AllocError>
    requires { IsTrue (links_fit entries.old.items) }
    ensures { IsTrue (links_fit entries.new.items) }
{
    let name = directory(alloc, number)?;
    let place = format!(in alloc; "/w/{name}")?;
    add_node(alloc, entries, place.as_bytes(), Stands::Dir, b"")
}

// Adds the header in a directory.
fn add_header(
    alloc: Global,
    entries: &mut Vec<(CanonPath, Entry)>,
    number: u32,
) -> Result<(), AllocError>
    requires { IsTrue (links_fit entries.old.items) }
    ensures { IsTrue (links_fit entries.new.items) }
{
    let name = directory(alloc, number)?;
    let header = format!(in alloc; "/w/{name}/x.h")?;
    add_node(alloc, entries, header.as_bytes(), Stands::File, b"")
}

/// Searches `<x.h>` so often in so many directories, over a tree that remembers; how often it was found.
pub fn repeat_search(alloc: Global, directories: u32, times: u32) -> Result<u32> {
    let job = job_of(alloc, directories)?;
    let ask = ask_for_header(alloc)?;
    search_with(alloc, &job, &ask, directories, times)
}

fn search_with(alloc: Global, job: &Job, ask: &Ask, directories: u32, times: u32) -> Result<u32>
    requires { NeedsFrom ask.now.form ask.now.from }
{
    let mut tree = Cached::over(alloc, tree_with(alloc, directories)?);
    Ok(count_found(alloc, &mut tree, job, ask, times))
}

// The job with so many directories.
fn job_of(alloc: Global, directories: u32) -> Result<Job> {
    let words = words_with(alloc, directories)?;
    job_with(alloc, words.as_slice())
}

fn tree_with(alloc: Global, directories: u32) -> Result<MemTree<Unnamed>> {
    let entries = entries_with(alloc, directories)?;
    match MemTree::new(alloc, entries, Vec::new(alloc)) {
        Ok(tree) => Ok(tree),
        Err(_) => bail!("the directories make no tree"),
    }
}

// Asks for `<x.h>` from the source.
fn ask_for_header(alloc: Global) -> Result<Ask>
    ensures { IfOk result (λ ask. NeedsFrom ask.form ask.from) }
{
    let place = path(alloc, "/w/a.c")?;
    let found = Found::Primary;
    Ok(Ask {
        form: Form::Angle,
        from: Some(Visit { place, found }),
        name: Bytes::copy_of(alloc, b"x.h")?,
    })
}

// How many of so many searches find the header.
fn count_found<T: Tree>(alloc: Global, tree: &mut T, job: &Job, ask: &Ask, times: u32) -> u32
    requires { NeedsFrom ask.now.form ask.now.from }
{
    let mut found = 0u32;
    for _ in 0..times {
        if is_found(alloc, tree, job, ask) {
            found = found.saturating_add(1);
        }
    }
    found
}

fn is_found<T: Tree>(alloc: Global, tree: &mut T, job: &Job, ask: &Ask) -> bool
    requires { NeedsFrom ask.now.form ask.now.from }
{
    matches!(search(alloc, tree, job.setup(), ask), Ok(Some(_)))
}

/// Reads the words of a job with so many directories so often; how often they gave one.
pub fn repeat_words(alloc: Global, directories: u32, times: u32) -> Result<u32> {
    let words = words_with(alloc, directories)?;
    let mut read = 0u32;
    for _ in 0..times {
        if gives_source(alloc, words.as_slice())? {
            read = read.saturating_add(1);
        }
    }
    Ok(read)
}

// Whether words give a job of the source.
fn gives_source(alloc: Global, words: &[Bytes]) -> Result<bool> {
    let job = job_with(alloc, words)?;
    Ok(job.source() == b"a.c".as_slice())
}
