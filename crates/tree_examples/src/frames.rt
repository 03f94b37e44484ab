// The answers to questions about frames.
ghost use Rattle.std.specs.Prelude.{◌≡◌, true};
ghost use Rattle.job_frames.specs.Spelling.{IsAnswer};

use base_types::List;
use case_texts::{Wrong, bytes_of, say, say_value, say_word};
use job_frames::{Answer, Fed, ReplyReader, RequestReader, write_reply};
use job_words::Job;
use std::alloc::Global;
use std::slice;
use tree_model::{CanonPath, Entry};

/// The verdict on a whole reply, its answer, and the reply that is written of the answer.
pub fn answer_reply(alloc: Global, out: &mut String, reply: &str) -> Result<(), Wrong> {
    let mut reader = ReplyReader::new(alloc);
    reader.feed(&bytes_of(alloc, reply)?);
    say_value(out, "end", &reader.end())?;
    match reader.finish() {
        None => say_word(out, "nothing"),
        Some(answer) => {
            say_answer(out, &answer)?;
            say_written(alloc, out, answer)
        }
    }
}

fn say_answer(out: &mut String, answer: &Answer) -> Result<(), Wrong> {
    match answer {
        Answer::Text(text) => say(out, "text", text.as_slice()),
        Answer::Diag(words) => say(out, "diag", words.as_slice()),
        Answer::Refused(reason) => say_value(out, "refused", reason),
    }
}

fn say_written(alloc: Global, out: &mut String, answer: Answer) -> Result<(), Wrong> {
    if !is_within_limits(&answer) {
        return say_word(out, "an answer without a spelling");
    }
    say(out, "written", write_reply(alloc, answer)?.as_slice())
}

fn is_within_limits(answer: &Answer) -> bool
    ensures { result ≡ true → IsAnswer answer.now }
{
    match answer {
        Answer::Text(text) => text.len() <= 67_108_864,
        Answer::Diag(words) => 1 <= words.len() && words.len() <= 65_536,
        Answer::Refused(reason) => 1 <= *reason && *reason <= 9,
    }
}

/// The verdicts on a request that comes byte by byte, where they change, and what is read.
pub fn answer_request(alloc: Global, out: &mut String, request: &str) -> Result<(), Wrong> {
    let mut reader = RequestReader::new(alloc);
    feed(out, &mut reader, &bytes_of(alloc, request)?)?;
    say_value(out, "end", &reader.end())?;
    match reader.finish() {
        None => say_word(out, "nothing"),
        Some((job, entries)) => say_read(out, &job, &entries),
    }
}

fn feed(out: &mut String, reader: &mut RequestReader, request: &[u8]) -> Result<(), Wrong> {
    let mut before = Fed::More;
    for (i, byte) in request.iter().enumerate() {
        let fed = reader.feed(slice::from_ref(byte));
        if fed != before {
            say_value(out, "byte", &(i + 1, fed))?;
            before = fed;
        }
    }
    Ok(())
}

fn say_read(out: &mut String, job: &Job, entries: &List<(CanonPath, Entry)>) -> Result<(), Wrong> {
    say(out, "directory", job.setup().cwd())?;
    for (path, _) in entries.as_slice() {
        say(out, "entry", path.bytes())?;
    }
    Ok(())
}
