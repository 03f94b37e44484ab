// Lists of entries in order of their paths' spellings: searching them, and judging a path against those before it.
ghost use Rattle.std.specs.Prelude.{◌≡◌, IfOk, IsTrue, true, None, Some};
ghost use Rattle.std.specs.List.{list_all, list_any};
ghost use Rattle.std.specs.Option.{option_map};
ghost use Rattle.tree_model.specs.Entries as lists;
ghost use Rattle.tree_model.specs.Entries.{below, comes_behind, is_dir_at, is_increasing, judged_path, links_fit, makes_tree, mirror_error, Increasing};
ghost use Rattle.tree_model.specs.Paths.{is_canonical, IsCanonical};
ghost use Rattle.tree_model.specs.Trees.{by_bytes};

use crate::{CanonPath, Entry, MirrorError};
use std::alloc::AllocError;
use std::cmp::Ordering;

// A text comes before another by its bytes.
fn comes_before(a: &[u8], b: &[u8]) -> bool
    ensures { result ≡ below a.now b.now }
{
    match a.cmp(b) {
        Ordering::Less => true,
        Ordering::Equal => false,
        Ordering::Greater => false,
    }
}

// A text comes behind the spellings of all entries.
fn is_behind(entries: &[(CanonPath, Entry)], text: &[u8]) -> bool
    requires { Increasing entries.now }
    ensures { result ≡ comes_behind entries.now text.now }
{
    if entries.is_empty() {
        return true;
    }
    let last = &entries[entries.len() - 1];
    comes_before(last.0.bytes(), text)
}

/// The entry whose path is spelled so, by binary search.
pub fn entry_spelled<'a>(entries: &'a [(CanonPath, Entry)], text: &[u8]) -> Option<&'a Entry>
    requires { Increasing entries.now }
    ensures { option_map (λ entry. entry.now) result ≡ by_bytes text.now entries.now }
{
    let mut low = 0usize;
    let mut high = entries.len();
    while low < high {
        let middle = low + (high - low) / 2;
        let entry = &entries[middle];
        match entry.0.bytes().cmp(text) {
            Ordering::Less => low = middle + 1,
            Ordering::Greater => high = middle,
            Ordering::Equal => return Some(&entry.1),
        }
    }
    None
}

// A node is a directory.
fn is_dir(entry: &Entry) -> bool
    ensures { result ≡ lists.is_dir entry.now }
{
    match entry {
        Entry::Dir => true,
        Entry::File(_) => false,
        Entry::Link(_) => false,
    }
}

// A directory that is spelled so stands among the entries.
fn has_dir(entries: &[(CanonPath, Entry)], text: &[u8]) -> bool
    requires { Increasing entries.now }
    ensures { result ≡ list_any (is_dir_at text.now) entries.now }
{
    match entry_spelled(entries, text) {
        None => false,
        Some(entry) => is_dir(entry),
    }
}

// The parent of a path is the root or a directory among the entries; the root has none.
fn has_parent(entries: &[(CanonPath, Entry)], path: &CanonPath) -> bool
    requires { Increasing entries.now }
    ensures value { result ≡ lists.has_parent entries.now path.now }
    ensures canonical { IsCanonical path.now }
{
    match path.parent_bytes() {
        None => false,
        Some(parent) => parent.is_empty() || has_dir(entries, parent),
    }
}

/// The path that a text spells, where it may stand behind the entries; else why it may not.
pub fn judge_path(
    entries: &[(CanonPath, Entry)],
    text: Vec<u8>,
) -> Result<Result<CanonPath, MirrorError>, AllocError>
    requires { Increasing entries.now }
    ensures { IfOk result (λ judged. judged ≡ judged_path entries.now text.items) }
{
    if !is_behind(entries, text.as_slice()) {
        return Ok(Err(MirrorError::Order));
    }
    match CanonPath::of(text)? {
        None => Ok(Err(MirrorError::Parent)),
        Some(path) => {
            if has_parent(entries, &path) {
                Ok(Ok(path))
            } else {
                Ok(Err(MirrorError::Parent))
            }
        }
    }
}

/// Why the entries make no tree, or None. `Order`: the paths' spellings don't increase strictly. `Parent`: else, a path is
/// the root, or its parent is neither the root nor a directory before it.
pub fn judge_entries(entries: &[(CanonPath, Entry)]) -> Option<MirrorError>
    ensures error { result ≡ mirror_error entries.now }
    ensures made { result ≡ None → IsTrue (links_fit entries.now) → IsTrue (makes_tree entries.now) }
{
    if !increase(entries) {
        return Some(MirrorError::Order);
    }
    if have_parents(entries) {
        return None;
    }
    Some(MirrorError::Parent)
}

// The entries' paths increase.
fn increase(entries: &[(CanonPath, Entry)]) -> bool
    ensures { result ≡ is_increasing entries.now }
{
    for i in 1..entries.len() {
        let before = &entries[i - 1];
        let entry = &entries[i];
        if !comes_before(before.0.bytes(), entry.0.bytes()) {
            return false;
        }
    }
    true
}

// Each entry's parent is the root or a directory among the entries.
fn have_parents(entries: &[(CanonPath, Entry)]) -> bool
    requires { Increasing entries.now }
    ensures value { result ≡ list_all (λ e. lists.has_parent entries.now e.0) entries.now }
    ensures canonical { result ≡ true → IsTrue (list_all (λ e. is_canonical e.0) entries.now) }
{
    for entry in entries {
        if !has_parent(entries, &entry.0) {
            return false;
        }
    }
    true
}
