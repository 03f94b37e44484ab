// Jobs and their outcomes.
use base_types::{Bytes, List};
use case_texts::{Wrong, bytes_of, say, say_lines, say_value};
use daemon_cpp::{Outcome, preprocess};
use job_words::{Job, read_words};
use std::alloc::Global;
use tree_model::Tree;

/// Preprocesses the job of a working directory and compile words.
pub fn do_job<T: Tree>(
    alloc: Global,
    out: &mut String,
    tree: &mut T,
    rest: &str,
) -> Result<(), Wrong> {
    let (dir, words) = rest.split_once(' ').unwrap_or((rest, ""));
    let words = list_of(alloc, words)?;
    match read_words(alloc, dir.as_bytes(), words.as_slice()) {
        Ok(job) => say_outcome(alloc, out, tree, &job),
        Err(error) => say_value(out, "refused", &error),
    }
}

fn list_of(alloc: Global, words: &str) -> Result<List<Bytes>, Wrong> {
    let mut list = List::new(alloc);
    for word in words.split_whitespace() {
        list.push(Bytes::copy_of(alloc, &bytes_of(alloc, word)?)?)?;
    }
    Ok(list)
}

fn say_outcome<T: Tree>(
    alloc: Global,
    out: &mut String,
    tree: &mut T,
    job: &Job,
) -> Result<(), Wrong> {
    match preprocess(alloc, tree, job) {
        Ok(Outcome::Text(text)) => say_lines(out, "text", text.as_slice()),
        Ok(Outcome::Diag(words)) => say(out, "diag", words.as_slice()),
        Err(error) => say_value(out, "error", &error),
    }
}
