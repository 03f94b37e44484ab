// The answers to questions about paths.
use case_texts::{Wrong, path_of, say, say_value, say_word};
use std::alloc::Global;
use tree_model::{CanonPath, judge_path};

/// A path, its parent, and its parent's spelling.
pub fn answer_path(alloc: Global, out: &mut String, text: &str) -> Result<(), Wrong> {
    match CanonPath::of(text.as_bytes().to_vec(alloc)?)? {
        Some(path) => say_parents(alloc, out, &path),
        None => say_word(out, "nothing"),
    }
}

fn say_parents(alloc: Global, out: &mut String, path: &CanonPath) -> Result<(), Wrong> {
    say(out, "path", path.copy(alloc)?.bytes())?;
    say(out, "parent", path.parent(alloc)?.bytes())?;
    match path.parent_bytes() {
        Some(bytes) => say(out, "parent's spelling", bytes),
        None => Ok(()),
    }
}

/// The path of a name in a directory.
pub fn answer_child(alloc: Global, out: &mut String, rest: &str) -> Result<(), Wrong> {
    let (dir, name) = rest.split_once(' ').unwrap_or((rest, ""));
    match path_of(alloc, dir.as_bytes())?.child(alloc, name.as_bytes())? {
        Some(path) => say(out, "path", path.bytes()),
        None => say_word(out, "nothing"),
    }
}

/// A path that may be the first of a tree.
pub fn answer_first(alloc: Global, out: &mut String, text: &str) -> Result<(), Wrong> {
    match judge_path(&[], text.as_bytes().to_vec(alloc)?)? {
        Ok(path) => say(out, "path", path.bytes()),
        Err(error) => say_value(out, "error", &error),
    }
}
