// A reply as far as it was read (docs/FORMATS.md; `reply_from` in specs/Reply.antt).
ghost use Rattle.std.specs.Prelude.{◌≡◌, ◌≤◌, ◌==◌, ◌+◌, Some, if◌then◌else◌};
ghost use Rattle.job_frames.specs.Fields.{within};
ghost use Rattle.job_frames.specs.parts.Numbers.{told_judge};
ghost use Rattle.job_frames.specs.Reply.{allowed, status_judge};
ghost use Rattle.job_frames.specs.parts.Dues.{behind_token, behind_body};
ghost use Rattle.job_frames.specs.parts.ReplyStages.{format_of, token_format, body_format, first_of, letters_of, judge_of, next_of, answer_of, answer_fits, field_of, rank, token_rank, Keeps, Goes};
ghost use Rattle.job_frames.specs.declared.reply_frame.ReplyDue.TheVariants as stage;
ghost use Rattle.job_frames.specs.declared.reply_frame.ReplyToken.TheVariants as tokens;
ghost use Rattle.job_frames.specs.declared.answer.Answer as said;

use crate::field::{Field, Frame};
use crate::judges::judge_version;
use crate::{Answer, FrameError};
use base_types::Bytes;
use base_types::limits::{DIAGNOSTIC_LIMIT, TEXT_LIMIT};

// The tokens: a refusal, or the version, the status, and the lengths of the diagnostic and of the text, which the status
// may want to be none.
#[derive(Clone, Copy, Drop)]
pub enum ReplyToken {
    Refusal,
    Version,
    Status,
    NoWords,
    Words,
    NoText,
    Text,
}

// The bodies.
#[derive(Clone, Copy, Drop)]
pub enum ReplyBody {
    Words,
    Text,
}

// Which field is due; `Start` is the first letter of a reply. A body's number is its length.
#[derive(Clone, Copy, Drop)]
pub enum ReplyDue {
    Start,
    Token(ReplyToken),
    Body(ReplyBody, u32),
    Whole,
}

// The version that is due, the greatest reason, and the answer, which is kept as soon as all its bytes have come.
#[derive(Drop)]
pub struct ReplyFrame {
    pub due: ReplyDue,
    pub version: u32,
    pub greatest: u32,
    pub answer: Option<Answer>,
}

impl ReplyFrame {
    // The answer that was read.
    pub fn into_answer(self) -> Option<Answer>
        ensures { result ≡ self.answer }
    {
        let ReplyFrame {
            due: _,
            version: _,
            greatest: _,
            answer,
        } = self;
        answer
    }
}

// A frame of which nothing was read.
pub fn begin_reply() -> ReplyFrame
    ensures due { result.due ≡ stage.Start }
    ensures version { result.version ≡ 0x103 }
    ensures greatest { result.greatest ≡ 9 }
{
    ReplyFrame {
        due: ReplyDue::Start,
        version: 0x103,
        greatest: 9,
        answer: None,
    }
}

// A reason up to the greatest one.
#[tactic(auto, using(std::proofs::lemmas::Bool::Decides::nat_tests))]
fn judge_reason(greatest: u32, n: u32) -> Option<FrameError>
    ensures { told_judge result ≡ within 1 greatest n }
{
    if n < 1 || n > greatest {
        Some(FrameError::Limit)
    } else {
        None
    }
}

// The status of a text, or of a diagnostic.
#[tactic(auto, using(std::proofs::lemmas::Bool::Decides::nat_tests))]
fn judge_status(n: u32) -> Option<FrameError>
    ensures { told_judge result ≡ status_judge n }
{
    if n == 0 || n == 0x100 {
        None
    } else {
        Some(FrameError::Limit)
    }
}

// A length that its limit and the status allow.
#[tactic(auto, using(std::proofs::lemmas::Bool::Decides::nat_tests))]
fn judge_allowed(limit: u32, low: u32, high: u32, n: u32) -> Option<FrameError>
    ensures { told_judge result ≡ allowed limit low high n }
{
    if n > limit {
        return Some(FrameError::Limit);
    }
    if n < low || n > high {
        return Some(FrameError::Order);
    }
    None
}

// The letters of a token.
#[tactic(auto, unfolding(crate::specs::parts::ReplyStages::letters_of))]
fn letters(token: ReplyToken) -> [u8; 4]
    ensures { result ≡ letters_of token }
{
    match token {
        ReplyToken::Refusal => *b"RFSE",
        ReplyToken::Version => *b"DONE",
        ReplyToken::Status => *b"STAT",
        ReplyToken::NoWords => *b"SERR",
        ReplyToken::Words => *b"SERR",
        ReplyToken::NoText => *b"DOTI",
        ReplyToken::Text => *b"DOTI",
    }
}

// Which field is due.
fn field(due: ReplyDue) -> Field
    ensures { result ≡ field_of due }
{
    match due {
        ReplyDue::Start => Field::Letter,
        ReplyDue::Token(token) => Field::Token(letters(token)),
        ReplyDue::Body(_, n) => Field::Body(n),
        ReplyDue::Whole => Field::Whole,
    }
}

// Why a token's number is refused, if it is.
#[tactic(auto, unfolding(crate::specs::parts::ReplyStages::judge_of))]
fn judge(token: ReplyToken, version: u32, greatest: u32, n: u32) -> Option<FrameError>
    ensures { told_judge result ≡ judge_of token version greatest n }
{
    match token {
        ReplyToken::Refusal => judge_reason(greatest, n),
        ReplyToken::Version => judge_version(version, n),
        ReplyToken::Status => judge_status(n),
        ReplyToken::NoWords => judge_allowed(DIAGNOSTIC_LIMIT as u32, 0, 0, n),
        ReplyToken::Words => judge_allowed(DIAGNOSTIC_LIMIT as u32, 1, DIAGNOSTIC_LIMIT as u32, n),
        ReplyToken::NoText => judge_allowed(TEXT_LIMIT as u32, 0, 0, n),
        ReplyToken::Text => judge_allowed(TEXT_LIMIT as u32, 0, TEXT_LIMIT as u32, n),
    }
}

// The token behind a status.
#[tactic(auto, using(std::proofs::lemmas::Bool::Decides::nat_tests))]
fn after_status(n: u32) -> ReplyToken
    ensures { result ≡ (if n == 0 then tokens.NoWords else tokens.Words) }
{
    if n == 0 {
        ReplyToken::NoWords
    } else {
        ReplyToken::Words
    }
}

// The field behind a token with this number.
#[tactic(auto, unfolding(crate::specs::parts::ReplyStages::next_of))]
fn after(token: ReplyToken, n: u32) -> ReplyDue
    ensures { result ≡ next_of token n }
{
    match token {
        ReplyToken::Refusal | ReplyToken::NoText => ReplyDue::Whole,
        ReplyToken::Version => ReplyDue::Token(ReplyToken::Status),
        ReplyToken::Status => ReplyDue::Token(after_status(n)),
        ReplyToken::NoWords => ReplyDue::Token(ReplyToken::Text),
        ReplyToken::Words => ReplyDue::Body(ReplyBody::Words, n),
        ReplyToken::Text => ReplyDue::Body(ReplyBody::Text, n),
    }
}

// Keeps the reason that a token says, if it says one.
#[tactic(auto, unfolding(crate::specs::parts::ReplyStages::answer_of))]
fn keep_reason(answer: &mut Option<Answer>, token: ReplyToken, n: u32)
    requires { answer_fits token n }
    ensures { answer.new ≡ answer_of token n answer.old }
{
    if let ReplyToken::Refusal = token {
        *answer = Some(Answer::Refused(n as u8));
    }
}

// Takes a token's number.
fn take_number(f: &mut ReplyFrame, token: ReplyToken, n: u32) -> Result<(), FrameError>
    requires due { f.old.due ≡ stage.Token token }
    requires keeps { Keeps f.old }
    ensures { Goes (behind_token (token_format token f.old.version f.old.greatest f.old.answer) n) (token_rank token) f.new result }
{
    if let Some(e) = judge(token, f.version, f.greatest, n) {
        return Err(e);
    }
    keep_reason(&mut f.answer, token, n);
    f.due = after(token, n);
    Ok(())
}

// Takes a body.
#[tactic(auto, unfolding(crate::specs::parts::ReplyStages::body_format, crate::specs::parts::ReplyStages::token_format, crate::specs::parts::ReplyStages::token_rank, crate::specs::Reply::diagnostic_body_from, crate::specs::Reply::no_text_from, crate::specs::Reply::text_body_from))]
fn take_bytes(f: &mut ReplyFrame, part: ReplyBody, n: u32, bytes: Vec<u8>) -> Result<(), FrameError>
    requires due { f.old.due ≡ stage.Body part n }
    requires small { f.old.greatest ≤ 255 }
    ensures { Goes (behind_body (body_format part n) bytes.items) 2 f.new result }
{
    match part {
        ReplyBody::Words => {
            f.answer = Some(Answer::Diag(Bytes::of(bytes)));
            f.due = ReplyDue::Token(ReplyToken::NoText);
            Ok(())
        }
        ReplyBody::Text => {
            f.answer = Some(Answer::Text(Bytes::of(bytes)));
            f.due = ReplyDue::Whole;
            Ok(())
        }
    }
}

// The token of a reply, by its first letter.
#[tactic(auto, using(std::proofs::lemmas::Bool::Decides::nat_tests))]
fn first_token(letter: u8) -> ReplyToken
    ensures { result ≡ first_of letter }
{
    if letter == b'R' {
        ReplyToken::Refusal
    } else {
        ReplyToken::Version
    }
}

impl Frame for ReplyFrame {
    ghost Got = { said.Answer };

    ghost format = { λ f. format_of f.due f.version f.greatest f.answer };

    ghost rank = { λ f. rank f.due };

    ghost Keeps = { Keeps };

    fn due(&self) -> Field {
        field(self.due)
    }

    fn take_token(&mut self, n: u32) -> Result<(), FrameError> {
        match self.due {
            ReplyDue::Token(token) => take_number(self, token, n),
            _ => Err(FrameError::Order),
        }
    }

    fn take_body(&mut self, body: Vec<u8>) -> Result<(), FrameError> {
        match self.due {
            ReplyDue::Body(part, n) => take_bytes(self, part, n, body),
            _ => Err(FrameError::Order),
        }
    }

    fn choose(&mut self, letter: u8) {
        self.due = ReplyDue::Token(first_token(letter));
    }
}
