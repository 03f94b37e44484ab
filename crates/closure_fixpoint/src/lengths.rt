// How many bytes a request has.
ghost use Rattle.std.specs.Prelude.{◌≡◌, ◌≤◌, length, All};
ghost use Rattle.base_types.specs.Limits.{entry_limit, job_words_limit, word_limit};
ghost use Rattle.job_frames.specs.Spelling.{entry_bytes, node_bytes, image_bytes, words_bytes, request_bytes, IsSpellable, HasSpelling};
ghost use Rattle.closure_fixpoint.specs.Gathering.{is_over};

use base_types::Bytes;
use base_types::limits::{ENTRY_LIMIT, REQUEST_LIMIT};
use job_words::{Job, jobs_are_short};
use tree_model::{CanonPath, Entry};

// The length of a token. A body stands behind it.
const TOKEN: usize = 12;

// A request would have too many entries or bytes.
pub fn is_too_long(job: &Job, entries: &[(CanonPath, Entry)]) -> bool
    requires { All HasSpelling entries.now }
    ensures { result ≡ is_over job.now entries.now }
{
    if entries.len() > ENTRY_LIMIT {
        return true;
    }
    request_length(job, entries) > REQUEST_LIMIT
}

// The length of a request.
fn request_length(job: &Job, entries: &[(CanonPath, Entry)]) -> usize
    requires few { length entries.now ≤ entry_limit }
    requires fit { All HasSpelling entries.now }
    ensures { result ≡ length (request_bytes job.now entries.now) }
{
    jobs_are_short();
    job.is_reading();
    let place = TOKEN + job.setup().cwd().len();
    TOKEN + place + words_length(job.words()) + entries_length(entries)
}

// The length of words.
fn words_length(words: &[Bytes]) -> usize
    requires few { length words.now ≤ job_words_limit }
    requires fit { All (λ word. length word ≤ word_limit) words.now }
    ensures value { result ≡ length (words_bytes words.now) }
    ensures small { result ≤ 5000000 }
{
    let mut sum = TOKEN;
    for word in words {
        sum += TOKEN + word.len();
    }
    sum
}

// The length of entries.
fn entries_length(entries: &[(CanonPath, Entry)]) -> usize
    requires few { length entries.now ≤ entry_limit }
    requires fit { All HasSpelling entries.now }
    ensures value { result ≡ length (image_bytes entries.now) }
    ensures small { result ≤ 2000000000000 }
{
    let mut sum = TOKEN;
    for entry in entries {
        sum += entry_length(entry);
    }
    sum
}

// The length of an entry.
fn entry_length(entry: &(CanonPath, Entry)) -> usize
    requires { HasSpelling entry.now }
    ensures value { result ≡ length (entry_bytes entry.now) }
    ensures small { result ≤ 17000000 }
{
    TOKEN + entry.0.bytes().len() + node_length(&entry.1)
}

// The length of a node.
fn node_length(node: &Entry) -> usize
    requires { IsSpellable node.now }
    ensures value { result ≡ length (node_bytes node.now) }
    ensures small { result ≤ 16777228 }
{
    match node {
        Entry::Dir => TOKEN,
        Entry::File(body) => TOKEN + body.len(),
        Entry::Link(text) => TOKEN + text.len(),
    }
}
