// One machine for all frames, which takes a frame in any pieces (specs/Formats.antt).
//
// One field is due at a time: a token, or so many bytes of a body. `run` moves the bytes of a piece to that field; when it is full, `step`
// hands it to the frame, which judges it, keeps what it says, and makes the next field due, or refuses. So frames may come in any pieces,
// each byte is moved once, or twice in a short body, and nothing that was kept is judged again. What each stand means is `left_to_read` of
// specs/parts/Machines.antt: what is read of every text that may still come.
ghost use Rattle.std.specs.Prelude.{◌≡◌, ◌≤◌, [], length, nat_lt, Some, IfOk, OnOk};
ghost use Rattle.job_frames.specs.parts.Dues.{due_of, size_of};
ghost use Rattle.job_frames.specs.parts.Machines.{Moves, MachineStands, HasRun};
ghost use Rattle.job_frames.specs.parts.Filling.{IsTopped};
ghost use Rattle.job_frames.specs.declared.field.Field.TheVariants as due;

use crate::field::{Field, Frame, size};
use crate::fields::{Number, token_number};
use crate::{Fed, FrameError};
use std::alloc::{AllocError, Global};
use std::mem;

// The most bytes of a body that is copied.
const SHORT_BODY: usize = 256;

// A frame, and the bytes that came of the field that is due.
#[derive(Drop)]
pub struct Machine<F> {
    pub alloc: Global,
    pub pending: Vec<u8>,
    pub frame: F,
}

// One move: the verdict, or the next field is due.
#[derive(Clone, Copy, Drop)]
pub enum Move {
    Rest(Fed),
    Go,
}

// Fewer bytes have come than are wanted.
#[tactic(auto, using(std::proofs::lemmas::Bool::Decides::nat_tests))]
pub fn lacks(have: usize, wanted: usize) -> bool
    ensures { result ≡ nat_lt have wanted }
{
    have < wanted
}

// Moves bytes to the field that is due, as many as it lacks or as there are, and answers how many.
fn top_up(pending: &mut Vec<u8>, wanted: usize, rest: &[u8]) -> Result<usize, AllocError>
    requires { length pending.old.items ≤ wanted }
    ensures { IsTopped pending.old.items wanted rest.now pending.new.items result }
{
    let missing = wanted - pending.len();
    let n = if missing < rest.len() {
        missing
    } else {
        rest.len()
    };
    let (front, _) = rest.split_at(n);
    pending.extend_from_slice(front)?;
    Ok(n)
}

// A move where a token is due.
fn token_move<F: Frame>(m: &mut Machine<F>, letters: [u8; 4]) -> Move
    requires due { due_of (F.format m.old.frame) ≡ Some (due.Token letters) }
    requires stands { MachineStands F.format F.Keeps m.old }
    ensures { Moves F.format F.rank F.Keeps (due.Token letters) m.old m.new result }
{
    match token_number(m.pending.as_slice(), &letters) {
        Number::More => Move::Rest(Fed::More),
        Number::Refused(e) => Move::Rest(Fed::Refused(e)),
        Number::Taken(n) => {
            m.pending.clear();
            match m.frame.take_token(n) {
                Err(e) => Move::Rest(Fed::Refused(e)),
                Ok(()) => Move::Go,
            }
        }
    }
}

// Takes what came of a body. A short one is copied, so that the bytes' room stays for the next token: of most bodies, a word or a path.
// Of a long one the room that it didn't take is given back, so that what comes next lies close behind it, in fewer pages.
fn take_pending(alloc: Global, pending: &mut Vec<u8>) -> Result<Vec<u8>, AllocError>
    ensures body { IfOk result (λ body. body.items ≡ pending.old.items) }
    ensures none_left { OnOk result (pending.new.items ≡ []) }
{
    if pending.len() > SHORT_BODY {
        pending.shrink_to_fit();
        let empty = Vec::with_capacity(alloc, SHORT_BODY)?;
        return Ok(mem::replace(pending, empty));
    }
    let body = pending.as_slice().to_vec(alloc)?;
    pending.clear();
    Ok(body)
}

// A move where a body is due.
fn body_move<F: Frame>(m: &mut Machine<F>, n: u32) -> Move
    requires due { due_of (F.format m.old.frame) ≡ Some (due.Body n) }
    requires stands { MachineStands F.format F.Keeps m.old }
    ensures { Moves F.format F.rank F.Keeps (due.Body n) m.old m.new result }
{
    if lacks(m.pending.len(), n as usize) {
        return Move::Rest(Fed::More);
    }
    let Ok(body) = take_pending(m.alloc, &mut m.pending) else {
        return Move::Rest(Fed::Refused(FrameError::Memory));
    };
    match m.frame.take_body(body) {
        Err(e) => Move::Rest(Fed::Refused(e)),
        Ok(()) => Move::Go,
    }
}

// A move where a letter tells which token is due.
fn letter_move<F: Frame>(m: &mut Machine<F>) -> Move
    requires due { due_of (F.format m.old.frame) ≡ Some due.Letter }
    requires stands { MachineStands F.format F.Keeps m.old }
    ensures { Moves F.format F.rank F.Keeps due.Letter m.old m.new result }
{
    if m.pending.is_empty() {
        return Move::Rest(Fed::More);
    }
    let letter = m.pending[0];
    m.frame.choose(letter);
    Move::Go
}

// One move.
fn step<F: Frame>(m: &mut Machine<F>, field: Field) -> Move
    requires due { due_of (F.format m.old.frame) ≡ Some field }
    requires stands { MachineStands F.format F.Keeps m.old }
    ensures { Moves F.format F.rank F.Keeps field m.old m.new result }
{
    match field {
        Field::Token(letters) => token_move(m, letters),
        Field::Body(n) => body_move(m, n),
        Field::Letter => letter_move(m),
        Field::Whole => Move::Rest(Fed::Done),
    }
}

// The verdict on a piece behind all that came, and how many bytes of it were taken.
#[derive(Clone, Copy, Drop)]
pub struct Ran {
    pub fed: Fed,
    pub at: usize,
}

// Makes moves until there is a verdict on a piece behind all that came.
pub fn run<F: Frame>(m: &mut Machine<F>, piece: &[u8]) -> Ran
    requires { MachineStands F.format F.Keeps m.old }
    ensures { HasRun F.format F.Keeps m.old piece.now m.new result }
{
    let mut at = 0usize;
    loop {
        let (_, rest) = piece.split_at(at);
        let field = m.frame.due();
        let Ok(n) = top_up(&mut m.pending, size(field), rest) else {
            return Ran {
                fed: Fed::Refused(FrameError::Memory),
                at,
            };
        };
        at += n;
        match step(m, field) {
            Move::Rest(fed) => return Ran { fed, at },
            Move::Go => {}
        }
    }
}
