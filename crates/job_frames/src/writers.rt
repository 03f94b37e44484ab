// Writing requests, images and replies.
ghost use Rattle.std.specs.Prelude.{◌≡◌, ◌≤◌, ◌<◌, ◌++◌, ℕ, List, length, IfOk, OnOk, All};
ghost use Rattle.base_types.specs.Limits.{diagnostic_limit, entry_limit, job_words_limit, text_limit, word_limit};
ghost use Rattle.job_frames.specs.Spelling.{digit, digits, token, field, IsAnswer, reply_bytes, entry_bytes, node_bytes, image_bytes, request_bytes, IsSpellable, HasSpelling, words_bytes};
ghost use Rattle.job_frames.specs.declared.answer.Answer.TheVariants as answer;

use crate::Answer;
use base_types::Bytes;
use job_words::{Job, jobs_are_short};
use std::alloc::{AllocError, Global};
use tree_model::{CanonPath, Entry};

// A lower hexadecimal digit.
#[tactic(auto, using(std::proofs::lemmas::Bool::Decides::nat_tests))]
fn digit_byte(d: u32) -> u8
    requires { d < 16 }
    ensures { result ≡ digit d }
{
    if d < 10 { b'0' + d as u8 } else { 87 + d as u8 }
}

// The eight digits of a number.
pub fn eight_digits(n: u32) -> [u8; 8]
    ensures { result ≡ digits 8 n }
{
    let mut bytes = [0u8; 8];
    let mut rest = n;
    for i in 0..8usize {
        bytes[7 - i] = digit_byte(rest % 16);
        rest /= 16;
    }
    bytes
}

// Appends a token.
fn push_token(out: &mut Vec<u8>, letters: &[u8], n: u32) -> Result<(), AllocError>
    ensures { OnOk result (out.new.items ≡ out.old.items ++ token letters.now n) }
{
    out.extend_from_slice(letters)?;
    let bytes = eight_digits(n);
    out.extend_from_slice(&bytes)?;
    Ok(())
}

// Appends a token and its body.
fn push_field(out: &mut Vec<u8>, letters: &[u8], body: &[u8]) -> Result<(), AllocError>
    requires { length body.now ≤ text_limit }
    ensures { OnOk result (out.new.items ≡ out.old.items ++ field letters.now body.now) }
{
    push_token(out, letters, body.len() as u32)?;
    out.extend_from_slice(body)?;
    Ok(())
}

// Appends a node.
fn push_node(out: &mut Vec<u8>, node: &Entry) -> Result<(), AllocError>
    requires { IsSpellable node.now }
    ensures { OnOk result (out.new.items ≡ out.old.items ++ node_bytes node.now) }
{
    match node {
        Entry::Dir => push_token(out, b"MDIR", 0),
        Entry::File(body) => push_field(out, b"FILE", body.as_slice()),
        Entry::Link(text) => push_field(out, b"LINK", text.as_slice()),
    }
}

// Appends the entries.
fn push_entries(out: &mut Vec<u8>, entries: &[(CanonPath, Entry)]) -> Result<(), AllocError>
    requires few { length entries.now ≤ entry_limit }
    requires fit { All HasSpelling entries.now }
    ensures { OnOk result (out.new.items ≡ out.old.items ++ image_bytes entries.now) }
{
    push_token(out, b"NFIL", entries.len() as u32)?;
    for e in entries {
        push_field(out, b"NAME", e.0.bytes())?;
        push_node(out, &e.1)?;
    }
    Ok(())
}

// How many bytes a token takes, with its number.
const TOKEN: usize = 12;

// How many bytes a node takes.
fn size_of_node(node: &Entry) -> usize {
    match node {
        Entry::Dir => TOKEN,
        Entry::File(body) => body.len().saturating_add(TOKEN),
        Entry::Link(text) => text.len().saturating_add(TOKEN),
    }
}

// How many bytes entries take, so that room for them is taken once.
fn size_of_entries(entries: &[(CanonPath, Entry)]) -> usize {
    let mut size = TOKEN;
    for e in entries {
        let path = e.0.bytes().len().saturating_add(TOKEN);
        size = size.saturating_add(path).saturating_add(size_of_node(&e.1));
    }
    size
}

// How many bytes words take.
fn size_of_words(words: &[Bytes]) -> usize {
    let mut size = TOKEN;
    for w in words {
        size = size.saturating_add(w.len()).saturating_add(TOKEN);
    }
    size
}

// How many bytes a request takes.
fn size_of_request(job: &Job, entries: &[(CanonPath, Entry)]) -> usize {
    let cwd = job.setup().cwd().len().saturating_add(2 * TOKEN);
    let words = size_of_words(job.words());
    size_of_entries(entries)
        .saturating_add(words)
        .saturating_add(cwd)
}

/// The image of entries.
pub fn write_entries(alloc: Global, entries: &[(CanonPath, Entry)]) -> Result<Bytes, AllocError>
    requires few { length entries.now ≤ entry_limit }
    requires fit { All HasSpelling entries.now }
    ensures { IfOk result (λ bytes. bytes ≡ image_bytes entries.now) }
{
    let mut out = Vec::with_capacity(alloc, size_of_entries(entries))?;
    push_entries(&mut out, entries)?;
    Ok(Bytes::of(out))
}

/// The request of a job with entries.
pub fn write_request(
    alloc: Global,
    job: &Job,
    entries: &[(CanonPath, Entry)],
) -> Result<Bytes, AllocError>
    requires few { length entries.now ≤ entry_limit }
    requires fit { All HasSpelling entries.now }
    ensures { IfOk result (λ bytes. bytes ≡ request_bytes job.now entries.now) }
{
    jobs_are_short();
    job.is_reading();
    let mut out = Vec::with_capacity(alloc, size_of_request(job, entries))?;
    push_token(&mut out, b"DIST", 0x103)?;
    push_field(&mut out, b"CDIR", job.setup().cwd())?;
    push_words(&mut out, job.words())?;
    push_entries(&mut out, entries)?;
    Ok(Bytes::of(out))
}

// Appends words.
fn push_words(out: &mut Vec<u8>, words: &[Bytes]) -> Result<(), AllocError>
    requires few { length words.now ≤ job_words_limit }
    requires fit { All (λ word. length word ≤ word_limit) words.now }
    ensures { OnOk result (out.new.items ≡ out.old.items ++ words_bytes words.now) }
{
    push_token(out, b"ARGC", words.len() as u32)?;
    for w in words {
        push_field(out, b"ARGV", w.as_slice())?;
    }
    Ok(())
}

// What stands in front of a text of this length in the reply that says it.
fn text_front(alloc: Global, size: u32) -> Result<Vec<u8>, AllocError>
    ensures { IfOk result (λ front. (text : List ℕ) → length text ≡ size → front.items ++ text ≡ reply_bytes (answer.Text text)) }
{
    let mut front = Vec::new(alloc);
    push_token(&mut front, b"DONE", 0x103)?;
    push_token(&mut front, b"STAT", 0)?;
    push_token(&mut front, b"SERR", 0)?;
    push_token(&mut front, b"DOTI", size)?;
    Ok(front)
}

// The reply that says a text. Its memory becomes the reply's, with a front put before it.
fn text_reply(alloc: Global, text: Bytes) -> Result<Bytes, AllocError>
    requires { length text ≤ text_limit }
    ensures { IfOk result (λ bytes. bytes ≡ reply_bytes (answer.Text text)) }
{
    let front = text_front(alloc, text.len() as u32)?;
    let mut bytes = text.into_vec()?;
    let _ = bytes.splice(0..0, front)?;
    Ok(Bytes::of(bytes))
}

// Appends the reply that says a diagnostic.
fn push_diagnostic(out: &mut Vec<u8>, words: &[u8]) -> Result<(), AllocError>
    requires { length words.now ≤ diagnostic_limit }
    ensures { OnOk result (out.new.items ≡ out.old.items ++ reply_bytes (answer.Diag words.now)) }
{
    push_token(out, b"DONE", 0x103)?;
    push_token(out, b"STAT", 0x100)?;
    push_field(out, b"SERR", words)?;
    push_token(out, b"DOTI", 0)?;
    Ok(())
}

/// The reply that says an answer. The memory of a text becomes that of the reply.
#[tactic(auto, unfolding(crate::specs::Spelling::reply_bytes))]
pub fn write_reply(alloc: Global, answer: Answer) -> Result<Bytes, AllocError>
    requires { IsAnswer answer }
    ensures { IfOk result (λ bytes. bytes ≡ reply_bytes answer) }
{
    let mut out = Vec::new(alloc);
    match answer {
        Answer::Text(text) => return text_reply(alloc, text),
        Answer::Diag(words) => push_diagnostic(&mut out, words.as_slice())?,
        Answer::Refused(n) => push_token(&mut out, b"RFSE", n as u32)?,
    }
    Ok(Bytes::of(out))
}
