// A request or an image as far as it was read (docs/FORMATS.md; `request_from` in specs/Request.antt).
ghost use Rattle.std.specs.Prelude.{◌≡◌, ◌≤◌, ◌+◌, ◌⊎◌, ◌++◌, ◌∷◌, [], ◌*◌, ◌==◌, IfOk, IfErr, Some, None};
ghost use Rattle.std.specs.List.{list_any};
ghost use Rattle.base_types.specs.Limits.{body_limit};
ghost use Rattle.job_frames.specs.Fields.{room_behind};
ghost use Rattle.job_frames.specs.Request.{Got, path_reason, words_from, count_from, entries_from, judged_then};
ghost use Rattle.job_frames.specs.Outcomes.{number_of};
ghost use Rattle.job_frames.specs.parts.Numbers.{told_judge};
ghost use Rattle.job_frames.specs.parts.Dues.{due_of, is_token_due, behind_token, behind_body, at_letter};
ghost use Rattle.job_frames.specs.parts.Stages.{format_of, rank, token_format, token_next, body_format, token_rank, body_rank, words_rank, names_rank, words_due, names_due, node_due, target_due, node_token_of, letters_of, judge_of, length_of, most_of, field_of, Ready, TokenReady, BodyReady, PathReady, Keeps, Goes, IsJudged, Begins};
ghost use Rattle.tree_model.specs.Entries.{judged_path, Increasing};
ghost use Rattle.job_words.specs.Words.{job_of};
ghost use Rattle.job_frames.specs.declared.request_due.Due.TheVariants as stage;
ghost use Rattle.job_frames.specs.declared.request_due.Body.TheVariants as bodies;
ghost use Rattle.job_frames.specs.declared.FrameError.TheVariants as why;

use crate::FrameError;
use crate::field::{Field, Frame};
use crate::judges::{judge_bare, judge_body, judge_version, judge_within, judge_zero};
use crate::request_due::{Body, Due, Token};
use base_types::limits::{
    BODY_LIMIT, ENTRY_LIMIT, JOB_WORDS_LIMIT, PATH_LIMIT, REQUEST_LIMIT, WORD_LIMIT,
};
use base_types::{Bytes, List};
use job_words::{Job, WordError, read_words_of};
use std::alloc::Global;
use std::mem::replace;
use tree_model::{CanonPath, Entry, MirrorError, judge_path};

// What was read so far: the version that is due, how many bytes may follow, and the parts.
#[derive(Drop)]
pub struct Read {
    pub version: u32,
    pub room: u32,
    pub cwd: Bytes,
    pub words: List<Bytes>,
    pub job: Option<Job>,
    pub entries: List<(CanonPath, Entry)>,
    pub path: Option<CanonPath>,
}

#[derive(Drop)]
pub struct RequestFrame {
    pub alloc: Global,
    pub due: Due,
    pub read: Read,
}

impl RequestFrame {
    // The job and the entries that were read.
    pub fn into_parts(self) -> (Option<Job>, List<(CanonPath, Entry)>)
        ensures { result ≡ (self.read.job, self.read.entries) }
    {
        let RequestFrame {
            alloc: _,
            due: _,
            read,
        } = self;
        let Read {
            version: _,
            room: _,
            cwd: _cwd,
            words: _words,
            job,
            entries,
            path: _path,
        } = read;
        (job, entries)
    }
}

// A frame where this token is due, and of which nothing was read.
pub fn begin_frame(alloc: Global, token: Token) -> RequestFrame
    ensures { Begins token result }
{
    RequestFrame {
        alloc,
        due: Due::Token(token),
        read: Read {
            version: 0x103,
            room: REQUEST_LIMIT as u32,
            cwd: Bytes::new(alloc),
            words: List::new(alloc),
            job: None,
            entries: List::new(alloc),
            path: None,
        },
    }
}

// The letters of a token.
#[tactic(auto, unfolding(crate::specs::parts::Stages::letters_of))]
fn letters(token: Token) -> [u8; 4]
    ensures { result ≡ letters_of token }
{
    match token {
        Token::Version => *b"DIST",
        Token::Place => *b"CDIR",
        Token::Argc => *b"ARGC",
        Token::Word(_) => *b"ARGV",
        Token::Count => *b"NFIL",
        Token::Name(_) => *b"NAME",
        Token::Dir(_) => *b"MDIR",
        Token::Link(_) => *b"LINK",
        Token::File(_) => *b"FILE",
    }
}

// Which field is due.
fn field(due: Due) -> Field
    ensures { result ≡ field_of due }
{
    match due {
        Due::Token(token) => Field::Token(letters(token)),
        Due::Body(_, n) => Field::Body(n),
        Due::Kind(_) => Field::Letter,
        Due::Whole => Field::Whole,
    }
}

// Why a token's number is refused, if it is.
#[tactic(auto, unfolding(crate::specs::parts::Stages::judge_of, crate::specs::parts::Stages::length_of, crate::specs::parts::Stages::most_of))]
fn judge(token: Token, read: &Read, n: u32) -> Option<FrameError>
    ensures answer { told_judge result ≡ judge_of token read.now n }
    ensures room { result ≡ None → 12 + length_of token n ≤ read.now.room }
    ensures small { result ≡ None → length_of token n ≤ body_limit }
    ensures few { result ≡ None → n ≤ most_of token }
{
    match token {
        Token::Version => judge_bare(read.room, judge_version(read.version, n)),
        Token::Place => judge_body(read.room, 1, WORD_LIMIT as u32, n),
        Token::Argc => judge_bare(read.room, judge_within(JOB_WORDS_LIMIT as u32, n)),
        Token::Word(_) => judge_body(read.room, 1, WORD_LIMIT as u32, n),
        Token::Count => judge_bare(read.room, judge_within(ENTRY_LIMIT as u32, n)),
        Token::Name(_) => judge_body(read.room, 2, PATH_LIMIT as u32, n),
        Token::Dir(_) => judge_bare(read.room, judge_zero(n)),
        Token::Link(_) => judge_body(read.room, 1, PATH_LIMIT as u32 - 1, n),
        Token::File(_) => judge_body(read.room, 0, BODY_LIMIT as u32, n),
    }
}

// The length of the body that a token announces.
#[tactic(auto, unfolding(crate::specs::parts::Stages::length_of))]
fn body_length(token: Token, n: u32) -> u32
    ensures { result ≡ length_of token n }
{
    match token {
        Token::Place | Token::Word(_) | Token::Name(_) | Token::Link(_) | Token::File(_) => n,
        _ => 0,
    }
}

// The job that words give, or why there is none.
#[tactic(auto, unfolding(job_words::specs::Words::job_of))]
fn read_job(alloc: Global, cwd: &[u8], words: List<Bytes>) -> Result<Job, FrameError>
    ensures job { IfOk result (λ job. Some job ≡ job_of cwd.now words) }
    ensures why { IfErr result (λ e. (e ≡ why.Memory) ⊎ ((None ≡ job_of cwd.now words) × (e ≡ why.Words))) }
{
    match read_words_of(alloc, cwd, words) {
        Ok(job) => Ok(job),
        Err(WordError::Memory) => Err(FrameError::Memory),
        Err(_) => Err(FrameError::Words),
    }
}

// Goes on where all words have come.
#[tactic(auto, unfolding(crate::specs::Request::words_from, crate::specs::parts::Stages::token_format, crate::specs::parts::Stages::token_rank))]
fn judge_words(f: &mut RequestFrame) -> Result<(), FrameError>
    requires entries { f.old.read.entries ≡ [] }
    ensures { Goes (words_due 0 f.old.read) (words_rank 0) f.new result }
{
    let words = replace(&mut f.read.words, List::new(f.alloc));
    match read_job(f.alloc, f.read.cwd.as_slice(), words) {
        Err(why) => Err(why),
        Ok(job) => {
            f.read.job = Some(job);
            f.due = Due::Token(Token::Count);
            Ok(())
        }
    }
}

// Goes on where so many words are left.
#[tactic(auto, unfolding(crate::specs::Request::words_from, crate::specs::parts::Stages::token_format, crate::specs::parts::Stages::token_rank))]
fn next_word(f: &mut RequestFrame, left: u32) -> Result<(), FrameError>
    requires entries { f.old.read.entries ≡ [] }
    ensures { Goes (words_due left f.old.read) (words_rank left) f.new result }
{
    if left == 0 {
        return judge_words(f);
    }
    f.due = Due::Token(Token::Word(left - 1));
    Ok(())
}

// Goes on where so many entries are left.
#[tactic(auto, unfolding(crate::specs::Request::entries_from, crate::specs::parts::Stages::token_format, crate::specs::parts::Stages::token_rank))]
fn next_name(f: &mut RequestFrame, left: u32) -> Result<(), FrameError>
    requires increasing { Increasing f.old.read.entries }
    ensures { Goes (names_due left f.old.read) (names_rank left) f.new result }
{
    if left == 0 {
        f.due = Due::Whole;
        return Ok(());
    }
    f.due = Due::Token(Token::Name(left - 1));
    Ok(())
}

// Keeps an entry at the path that came before it.
fn push_entry(f: &mut RequestFrame, entry: Entry, left: u32) -> Result<(), FrameError>
    requires path { PathReady f.old.read.entries f.old.read.path }
    requires increasing { Increasing f.old.read.entries }
    ensures { Goes (node_due entry left f.old.read) (names_rank left) f.new result }
{
    match f.read.path.take() {
        None => Err(FrameError::Parent),
        Some(path) => {
            if f.read.entries.push((path, entry)).is_err() {
                return Err(FrameError::Memory);
            }
            next_name(f, left)
        }
    }
}

// Makes a field due.
fn go(f: &mut RequestFrame, due: Due) -> Result<(), FrameError>
    requires ready { Ready due f.old.read }
    requires increasing { Increasing f.old.read.entries }
    ensures { Goes (format_of due f.old.read) (rank due + 1) f.new result }
{
    f.due = due;
    Ok(())
}

// Goes on behind a token with this number.
#[tactic(auto, unfolding(crate::specs::parts::Stages::token_next, crate::specs::parts::Stages::token_format, crate::specs::parts::Stages::body_format, crate::specs::parts::Stages::token_rank, crate::specs::parts::Stages::body_rank, crate::specs::parts::Stages::most_of))]
fn go_behind(f: &mut RequestFrame, token: Token, n: u32) -> Result<(), FrameError>
    requires ready { TokenReady token f.old.read }
    requires increasing { Increasing f.old.read.entries }
    requires few { n ≤ most_of token }
    ensures { Goes (token_next token f.old.read n) (token_rank token) f.new result }
{
    match token {
        Token::Version => go(f, Due::Token(Token::Place)),
        Token::Place => go(f, Due::Body(Body::Place, n)),
        Token::Argc => next_word(f, n),
        Token::Word(k) => go(f, Due::Body(Body::Word(k), n)),
        Token::Count => next_name(f, n),
        Token::Name(k) => go(f, Due::Body(Body::Path(k), n)),
        Token::Dir(k) => push_entry(f, Entry::Dir, k),
        Token::Link(k) => go(f, Due::Body(Body::Target(k), n)),
        Token::File(k) => go(f, Due::Body(Body::File(k), n)),
    }
}

// Takes a token's number.
fn take_number(f: &mut RequestFrame, token: Token, n: u32) -> Result<(), FrameError>
    requires due { f.old.due ≡ stage.Token token }
    requires ready { TokenReady token f.old.read }
    requires increasing { Increasing f.old.read.entries }
    ensures { Goes (behind_token (token_format token f.old.read) n) (token_rank token) f.new result }
{
    if let Some(e) = judge(token, &f.read, n) {
        return Err(e);
    }
    f.read.room -= 12 + body_length(token, n);
    go_behind(f, token, n)
}

// Takes the working directory.
#[tactic(auto, unfolding(crate::specs::parts::Stages::token_format, crate::specs::parts::Stages::token_rank, crate::specs::parts::Stages::body_rank))]
fn take_place(f: &mut RequestFrame, cwd: Vec<u8>) -> Result<(), FrameError>
    requires ready { BodyReady bodies.Place f.old.read }
    requires increasing { Increasing f.old.read.entries }
    ensures { Goes (count_from f.old.read.room cwd.items) (body_rank bodies.Place) f.new result }
{
    f.read.cwd = Bytes::of(cwd);
    go(f, Due::Token(Token::Argc))
}

// Takes a word.
fn take_word(f: &mut RequestFrame, word: Vec<u8>, left: u32) -> Result<(), FrameError>
    requires entries { f.old.read.entries ≡ [] }
    ensures { Goes (words_from left f.old.read.room f.old.read.cwd (f.old.read.words ++ word.items ∷ [])) (words_rank left) f.new result }
{
    if f.read.words.push(Bytes::of(word)).is_err() {
        return Err(FrameError::Memory);
    }
    next_word(f, left)
}

// Why a path may not stand where it stands.
fn path_error(e: MirrorError) -> FrameError
    ensures { number_of result ≡ path_reason e }
{
    match e {
        MirrorError::Order => FrameError::Order,
        MirrorError::Parent => FrameError::Parent,
    }
}

// The path that a text spells, where it may stand behind the entries.
fn read_path(entries: &[(CanonPath, Entry)], text: Vec<u8>) -> Result<CanonPath, FrameError>
    requires { Increasing entries.now }
    ensures { IsJudged result (judged_path entries.now text.items) }
{
    match judge_path(entries, text) {
        Err(_) => Err(FrameError::Memory),
        Ok(Ok(path)) => Ok(path),
        Ok(Err(e)) => Err(path_error(e)),
    }
}

// Takes a path.
fn take_path(f: &mut RequestFrame, text: Vec<u8>, left: u32) -> Result<(), FrameError>
    requires increasing { Increasing f.old.read.entries }
    ensures { Goes (judged_then (entries_from f.old.read.job left) f.old.read.room f.old.read.entries (judged_path f.old.read.entries text.items)) (5 + 6 * left) f.new result }
{
    match read_path(f.read.entries.as_slice(), text) {
        Err(e) => Err(e),
        Ok(path) => {
            f.read.path = Some(path);
            go(f, Due::Kind(left))
        }
    }
}

// A byte 0 stands in a text.
fn has_zero(text: &[u8]) -> bool
    ensures { result ≡ list_any (λ c. c == 0) text.now }
{
    text.iter().any(|c| *c == 0)
}

// Takes a link's text.
fn take_target(f: &mut RequestFrame, text: Vec<u8>, left: u32) -> Result<(), FrameError>
    requires path { PathReady f.old.read.entries f.old.read.path }
    requires increasing { Increasing f.old.read.entries }
    ensures { Goes (target_due text.items left f.old.read) (names_rank left) f.new result }
{
    if has_zero(text.as_slice()) {
        return Err(FrameError::Limit);
    }
    push_entry(f, Entry::Link(Bytes::of(text)), left)
}

// Takes a body.
#[tactic(auto, unfolding(crate::specs::parts::Stages::body_format, crate::specs::parts::Stages::body_rank, crate::specs::Request::place_body_from, crate::specs::Request::word_body_then, crate::specs::Request::path_then, crate::specs::Request::target_then, crate::specs::Request::file_body_then))]
fn take_bytes(f: &mut RequestFrame, body: Body, n: u32, bytes: Vec<u8>) -> Result<(), FrameError>
    requires due { f.old.due ≡ stage.Body body n }
    requires ready { BodyReady body f.old.read }
    requires increasing { Increasing f.old.read.entries }
    ensures { Goes (behind_body (body_format body n f.old.read) bytes.items) (body_rank body) f.new result }
{
    match body {
        Body::Place => take_place(f, bytes),
        Body::Word(k) => take_word(f, bytes, k),
        Body::Path(k) => take_path(f, bytes, k),
        Body::Target(k) => take_target(f, bytes, k),
        Body::File(k) => push_entry(f, Entry::File(Bytes::of(bytes)), k),
    }
}

// The token of a node, by its first letter.
#[tactic(auto, using(std::proofs::lemmas::Bool::Decides::nat_tests))]
fn node_token(letter: u8, left: u32) -> Token
    ensures { result ≡ node_token_of letter left }
{
    if letter == b'M' {
        return Token::Dir(left);
    }
    if letter == b'L' {
        return Token::Link(left);
    }
    Token::File(left)
}

impl Frame for RequestFrame {
    ghost Got = { Got };

    ghost format = { λ f. format_of f.due f.read };

    ghost rank = { λ f. rank f.due };

    ghost Keeps = { λ f. Keeps f.due f.read };

    fn due(&self) -> Field {
        field(self.due)
    }

    fn take_token(&mut self, n: u32) -> Result<(), FrameError> {
        match self.due {
            Due::Token(token) => take_number(self, token, n),
            _ => Err(FrameError::Order),
        }
    }

    fn take_body(&mut self, body: Vec<u8>) -> Result<(), FrameError> {
        match self.due {
            Due::Body(part, n) => take_bytes(self, part, n, body),
            _ => Err(FrameError::Order),
        }
    }

    fn choose(&mut self, letter: u8) {
        if let Due::Kind(left) = self.due {
            self.due = Due::Token(node_token(letter, left));
        }
    }
}
