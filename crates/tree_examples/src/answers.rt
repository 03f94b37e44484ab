// The answers to questions about a tree.
use crate::frames::{answer_reply, answer_request};
use crate::paths::{answer_child, answer_first, answer_path};
use base_types::limits::DEFAULT_BUDGET;
use base_types::{Bytes, List};
use case_texts::{Wrong, path_of, push_bytes, say, say_lines, say_value, say_word};
use closure_fixpoint::{Analysed, analyse};
use job_words::{Job, read_words};
use std::alloc::{AllocError, Global};
use tree_model::{CanonPath, Located, Node, Tree, TreeError, locate, read_body};

/// Answers a question by its word and what stands behind that.
pub fn answer<T: Tree>(
    alloc: Global,
    out: &mut String,
    tree: &mut T,
    word: &str,
    rest: &str,
) -> Result<(), Wrong> {
    match word {
        "analyse" => answer_analysis(alloc, out, tree, &job_of(alloc, rest)?),
        "length" => answer_length(alloc, out, tree, &job_of(alloc, rest)?),
        "locate" => answer_located(alloc, out, tree, rest),
        "node" => answer_node(out, tree, &path_of(alloc, rest.as_bytes())?),
        "read" => say_body(out, &tree.read(&path_of(alloc, rest.as_bytes())?)),
        "body" => say_body(
            out,
            &read_body(alloc, tree, &path_of(alloc, rest.as_bytes())?),
        ),
        "path" => answer_path(alloc, out, rest),
        "child" => answer_child(alloc, out, rest),
        "first" => answer_first(alloc, out, rest),
        "reply" => answer_reply(alloc, out, rest),
        "request" => answer_request(alloc, out, rest),
        _ => Err(Wrong::Form("a word that isn't known")),
    }
}

// The job of a working directory and compile words.
fn job_of(alloc: Global, rest: &str) -> Result<Job, Wrong> {
    let (dir, words) = rest.split_once(' ').unwrap_or((rest, ""));
    let words = list_of(alloc, words)?;
    match read_words(alloc, dir.as_bytes(), words.as_slice()) {
        Ok(job) => Ok(job),
        Err(_) => Err(Wrong::Form("words that give no job")),
    }
}

fn list_of(alloc: Global, words: &str) -> Result<List<Bytes>, AllocError> {
    let mut list = List::new(alloc);
    for word in words.split_whitespace() {
        list.push(Bytes::copy_of(alloc, word.as_bytes())?)?;
    }
    Ok(list)
}

fn answer_analysis<T: Tree>(
    alloc: Global,
    out: &mut String,
    tree: &mut T,
    job: &Job,
) -> Result<(), Wrong> {
    match analyse(alloc, tree, job, DEFAULT_BUDGET) {
        Ok(Analysed::Request(request)) => say(out, "request", request.as_slice()),
        Ok(Analysed::Refused(refusal)) => say_value(out, "refused", &refusal),
        Err(error) => say_value(out, "error", &error),
    }
}

fn answer_length<T: Tree>(
    alloc: Global,
    out: &mut String,
    tree: &mut T,
    job: &Job,
) -> Result<(), Wrong> {
    match analyse(alloc, tree, job, DEFAULT_BUDGET) {
        Ok(Analysed::Request(request)) => say_value(out, "length", &request.len()),
        Ok(Analysed::Refused(refusal)) => say_value(out, "refused", &refusal),
        Err(error) => say_value(out, "error", &error),
    }
}

fn answer_located<T: Tree>(
    alloc: Global,
    out: &mut String,
    tree: &mut T,
    rest: &str,
) -> Result<(), Wrong> {
    let (dir, text) = rest.split_once(' ').unwrap_or((rest, ""));
    match locate(
        alloc,
        tree,
        &path_of(alloc, dir.as_bytes())?,
        text.as_bytes(),
    ) {
        Ok(Some(found)) => say_located(out, &found),
        Ok(None) => say_word(out, "nothing"),
        Err(error) => say_value(out, "error", &error),
    }
}

fn say_located(out: &mut String, found: &Located) -> Result<(), Wrong> {
    say(out, "place", found.place.bytes())?;
    say(out, "file", found.real.bytes())?;
    out.push_str("> walked")?;
    let (front, shared, behind) = found.walked.parts();
    push_nodes(out, front)?;
    push_nodes(out, shared)?;
    push_nodes(out, behind)?;
    Ok(out.push('\n')?)
}

fn push_nodes(out: &mut String, nodes: &[CanonPath]) -> Result<(), Wrong> {
    for node in nodes {
        push_bytes(out, node.bytes())?;
    }
    Ok(())
}

fn answer_node<T: Tree>(out: &mut String, tree: &mut T, path: &CanonPath) -> Result<(), Wrong> {
    match tree.node(path) {
        Ok(None) => say_word(out, "nothing"),
        Ok(Some(Node::Dir)) => say_word(out, "dir"),
        Ok(Some(Node::File)) => say_word(out, "file"),
        Ok(Some(Node::Link(text))) => say(out, "link", text.as_slice()),
        Err(error) => say_value(out, "error", &error),
    }
}

fn say_body(out: &mut String, body: &Result<Option<Bytes>, TreeError>) -> Result<(), Wrong> {
    match body {
        Ok(Some(bytes)) => say_lines(out, "body", bytes.as_slice()),
        Ok(None) => say_word(out, "nothing"),
        Err(error) => say_value(out, "error", error),
    }
}
