// What frames say, on lines.
use base_types::Bytes;
use bstr::ByteSlice;
use job_frames::{Answer, Fed};
use job_words::Job;
use std::alloc::AllocError;
use std::fmt::Write;
use tree_model::{CanonPath, Entry};

/// A verdict's name, behind a space.
pub fn add_verdict(text: &mut String, fed: Fed) -> Result<(), AllocError> {
    match fed {
        Fed::Refused(why) => write!(text, " {why:?}"),
        other => write!(text, " {other:?}"),
    }
}

/// A line for each entry: its path, and `dir`, or `file` or `link` and what is in it.
pub fn add_entries(text: &mut String, entries: &[(CanonPath, Entry)]) -> Result<(), AllocError> {
    for (path, entry) in entries {
        add_entry(text, path.bytes(), entry)?;
    }
    Ok(())
}

fn add_entry(text: &mut String, path: &[u8], entry: &Entry) -> Result<(), AllocError> {
    write!(text, "    {}", path.escape_bytes())?;
    match entry {
        Entry::Dir => writeln!(text, " dir"),
        Entry::File(body) => add_bytes(text, " file", body.as_slice()),
        Entry::Link(target) => add_bytes(text, " link", target.as_slice()),
    }
}

/// A line with a label, and bytes where there are any.
pub fn add_bytes(text: &mut String, label: &str, bytes: &[u8]) -> Result<(), AllocError> {
    if bytes.is_empty() {
        return writeln!(text, "{label}");
    }
    writeln!(text, "{label} {}", bytes.escape_bytes())
}

/// A line each for the job's working directory, its words, the files that are included first, and the names of its source
/// and its output.
pub fn add_job(text: &mut String, job: &Job) -> Result<(), AllocError> {
    add_bytes(text, "    in", job.setup().cwd())?;
    add_words(text, "    words", job.words())?;
    add_words(text, "    forced", job.forced())?;
    add_bytes(text, "    from", job.source())?;
    add_bytes(text, "    to", job.output())
}

fn add_words(text: &mut String, label: &str, words: &[Bytes]) -> Result<(), AllocError> {
    text.push_str(label)?;
    for word in words {
        write!(text, " {}", word.as_slice().escape_bytes())?;
    }
    text.push_str("\n")
}

/// A line for an answer: `text`, `diag` or `refused`, and what it says.
pub fn add_answer(text: &mut String, answer: &Answer) -> Result<(), AllocError> {
    match answer {
        Answer::Text(content) => add_bytes(text, "    text", content.as_slice()),
        Answer::Diag(words) => add_bytes(text, "    diag", words.as_slice()),
        Answer::Refused(reason) => writeln!(text, "    refused {reason}"),
    }
}
