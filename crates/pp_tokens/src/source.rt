// Translation phases 1 and 2 (ISO C 5.1.1.2): newlines, trigraphs and spliced lines.
ghost use Rattle.std.specs.Prelude.{◌≡◌, ℕ, List, ◌+◌, ◌≤◌, ◌<◌, ◌∷◌, ◌++◌, ◌==◌, [], length, take, drop, not, true, IfOk, IsSome};
ghost use Rattle.std.specs.List.{list_all};
ghost use lib.Seq.{paste};
ghost use Rattle.base_types.specs.Ascii as ascii;
ghost use Rattle.base_types.specs.Limits.{body_limit};
ghost use Rattle.pp_tokens.specs.Lined.{lined, Rising};
ghost use Rattle.pp_tokens.specs.Phases.{newline_ended, trigraph, source_text};
ghost use Rattle.pp_tokens.specs.parts.Gathered.{newlines};
ghost use Rattle.pp_tokens.specs.parts.Pieces.{newline_length, front_trigraph, front_character, is_kept, ends_line, FrontStays, IsFront};

use crate::comment::bytes_before;
use std::alloc::{AllocError, Global};

// How many bytes are looked at one after another, and how far a search goes behind them.
const NEAR: usize = 16;

const SEARCHED: usize = 1024;

// How long a run may be.
const RUN: usize = 1040;

/// A body after phases 1 and 2: its bytes, and the places of its splices in rising order. A splice is kept as the offset in
/// the text at which the next byte stands.
#[derive(Drop)]
pub struct SourceText {
    pub text: Vec<u8>,
    pub splices: Vec<u32>,
}

// What stands at the front of what is left of a body.
#[derive(Clone, Copy, Drop)]
enum Piece {
    // A byte of the text.
    Byte(u8),
    // A backslash and the newline behind it.
    Splice,
}

// Whether phases 1 and 2 leave a byte as it is, whatever stands behind it.
fn is_kept(b: u8, trigraphs: bool) -> bool
    ensures { result ≡ is_kept trigraphs b }
{
    !(b == b'\r' || b == b'\\' || (trigraphs && b == b'?'))
}

// Whether the byte at a place is sure to be a byte of the text: one that always is, or a backslash that no newline follows.
fn stays(bytes: &[u8], at: usize, trigraphs: bool) -> bool
    requires { at < length bytes.now }
    ensures { result ≡ true → FrontStays trigraphs (drop at bytes.now ++ (ascii.newline ∷ [])) 1 }
{
    if is_kept(bytes[at], trigraphs) {
        return true;
    }
    if bytes[at] != b'\\' || at + 1 == bytes.len() {
        return false;
    }
    let next = bytes[at + 1];
    next != b'\n' && next != b'\r'
}

// How many bytes at the front are sure to be bytes of the text, of at most so many, looked at one after another.
fn short_run(rest: &[u8], bound: usize, trigraphs: bool) -> usize
    requires { bound ≤ length rest.now }
    ensures within { result ≤ bound }
    ensures run { FrontStays trigraphs (rest.now ++ (ascii.newline ∷ [])) result }
{
    for at in 0..bound {
        if !stays(rest, at, trigraphs) {
            return at;
        }
    }
    bound
}

// The same, by searches for single bytes, which are faster than one for several of them. They end at a bound, so that in a body with
// many of one byte the next of another isn't searched for again and again.
fn long_run(rest: &[u8], trigraphs: bool) -> usize
    ensures within { result ≤ length rest.now }
    ensures short { result ≤ 1024 }
    ensures kept { list_all (is_kept trigraphs) (take result rest.now) ≡ true }
{
    let bound = rest.len().min(SEARCHED);
    let lines = run_without(b'\\', rest, bound);
    let run = run_without(b'\r', rest, lines);
    if trigraphs {
        run_without(b'?', rest, run)
    } else {
        run
    }
}

// How many bytes at the front, of at most so many, stand before the first that is `stop`.
fn run_without(stop: u8, rest: &[u8], bound: usize) -> usize
    requires { bound ≤ length rest.now }
    ensures within { result ≤ bound }
    ensures clear { list_all (λ b. not (b == stop)) (take result rest.now) ≡ true }
{
    let (near, _) = rest.split_at(bound);
    bytes_before(stop, near)
}

// How many bytes at the front are sure to be bytes of the text. The start of a search costs more than a look at a few bytes.
fn run_length(rest: &[u8], trigraphs: bool) -> usize
    ensures within { result ≤ length rest.now }
    ensures short { result ≤ 1040 }
    ensures run { FrontStays trigraphs (rest.now ++ (ascii.newline ∷ [])) result }
{
    let bound = rest.len().min(NEAR);
    let run = short_run(rest, bound, trigraphs);
    if run < bound {
        return run;
    }
    let (_, far) = rest.split_at(run);
    run + long_run(far, trigraphs)
}

// How many bytes the newline at the front has. The one that ends the body stands behind the rest.
#[tactic(auto, using(crate::proofs::NewlineLengths::newline_at))]
fn newline_length(rest: &[u8]) -> usize
    ensures value { result ≡ newline_length (rest.now ++ (ascii.newline ∷ [])) }
    ensures within { result ≤ length rest.now + 1 }
{
    if rest.is_empty() || rest[0] == b'\n' {
        1
    } else if rest[0] == b'\r' && (rest.len() == 1 || rest[1] == b'\n') {
        2
    } else {
        0
    }
}

// What `??` and this byte stand for.
fn trigraph(third: u8) -> Option<u8>
    ensures { result ≡ trigraph third }
{
    match third {
        b'=' => Some(b'#'),
        b'(' => Some(b'['),
        b'/' => Some(b'\\'),
        b')' => Some(b']'),
        b'\'' => Some(b'^'),
        b'<' => Some(b'{'),
        b'!' => Some(b'|'),
        b'>' => Some(b'}'),
        b'-' => Some(b'~'),
        _ => None,
    }
}

// What the trigraph at the front stands for.
fn front_trigraph(rest: &[u8]) -> Option<u8>
    ensures value { result ≡ front_trigraph rest.now }
    ensures within { IsSome result → 3 ≤ length rest.now }
{
    if rest.len() < 3 || rest[0] != b'?' || rest[1] != b'?' {
        return None;
    }
    trigraph(rest[2])
}

// The character at the front, where no newline stands, and how many bytes it has.
fn front_character(rest: &[u8], trigraphs: bool) -> (u8, usize)
    requires { 0 < length rest.now }
    ensures value { result ≡ front_character trigraphs rest.now }
    ensures moves { 0 < result.1 }
    ensures within { result.1 ≤ length rest.now }
{
    if trigraphs {
        if let Some(character) = front_trigraph(rest) {
            return (character, 3);
        }
    }
    (rest[0], 1)
}

// What stands at the front, and how many bytes it has. The newline that ends the body stands behind the rest.
fn front_piece(rest: &[u8], trigraphs: bool) -> (Piece, usize)
    ensures front { (line : ℕ) → IsFront trigraphs line (rest.now ++ (ascii.newline ∷ [])) result.0 result.1 }
    ensures moves { 0 < result.1 }
    ensures within { result.1 ≤ length rest.now + 1 }
    ensures last { length rest.now < result.1 → ends_line result.0 ≡ true }
{
    let newline = newline_length(rest);
    if newline > 0 {
        return (Piece::Byte(b'\n'), newline);
    }
    let (character, length) = front_character(rest, trigraphs);
    let (_, behind) = rest.split_at(length);
    let next = newline_length(behind);
    if character == b'\\' && next > 0 {
        return (Piece::Splice, length + next);
    }
    (Piece::Byte(character), length)
}

// Ends the last line with a newline, where none does.
fn end_last_line(body: &mut Vec<u8>) -> Result<(), AllocError>
    requires { 0 < length body.old.items }
    ensures { IfOk result (λ u. body.new.items ≡ newline_ended body.old.items) }
{
    if body[body.len() - 1] == b'\n' {
        return Ok(());
    }
    body.push(b'\n')?;
    Ok(())
}

// What stands first in the rest of a body: bytes that are sure to be bytes of the text, and the piece behind them with the bytes that it has.
#[derive(Clone, Copy, Drop)]
struct Front {
    run: usize,
    piece: Piece,
    length: usize,
}

// What stands first in the rest of a body that ends with a newline.
#[inline(always)]
fn front_of(rest: &[u8], trigraphs: bool) -> Front
    requires { 0 < length rest.now }
    ensures short { result.run ≤ 1040 }
    ensures within { result.run + result.length ≤ length rest.now }
    ensures moves { 0 < result.length }
    ensures run { (lines : List ℕ) → rest.now ≡ lines ++ (ascii.newline ∷ []) → FrontStays trigraphs rest.now result.run }
    ensures front { (lines : List ℕ) (line : ℕ) → rest.now ≡ lines ++ (ascii.newline ∷ []) → IsFront trigraphs line (drop result.run rest.now) result.piece result.length }
    ensures last { result.run + result.length ≡ length rest.now → ends_line result.piece ≡ true }
{
    let (lines, _) = rest.split_at(rest.len() - 1);
    let run = run_length(lines, trigraphs);
    let (_, behind) = lines.split_at(run);
    let (piece, length) = front_piece(behind, trigraphs);
    Front { run, piece, length }
}

// Moves a run of bytes from a place down to another.
#[inline(always)]
fn move_down(text: &mut [u8], at: usize, run: usize, to: usize, copy: &mut [u8; 1040])
    requires short { run ≤ 1040 }
    requires within { at + run ≤ length text.old }
    requires down { to ≤ at }
    ensures size { length text.new ≡ length text.old }
    ensures front { take (to + run) text.new ≡ take to text.old ++ take run (drop at text.old) }
    ensures behind { drop (at + run) text.new ≡ drop (at + run) text.old }
{
    if to < at {
        move_over(text, at, run, to, copy);
    }
}

// The same by a copy of them, since the two places may overlap.
fn move_over(text: &mut [u8], at: usize, run: usize, to: usize, copy: &mut [u8; 1040])
    requires short { run ≤ 1040 }
    requires within { at + run ≤ length text.old }
    requires down { to ≤ at }
    ensures { text.new ≡ paste text.old to (drop at text.old) run }
{
    copy[..run].copy_from_slice(&text[at..at + run]);
    text[to..to + run].copy_from_slice(&copy[..run]);
}

// Writes a byte at a place.
#[inline(always)]
fn put(text: &mut [u8], to: usize, byte: u8)
    requires { to < length text.old }
    ensures size { length text.new ≡ length text.old }
    ensures front { take (to + 1) text.new ≡ take to text.old ++ byte ∷ [] }
    ensures behind { (k : ℕ) → to < k → drop k text.new ≡ drop k text.old }
{
    text[to] = byte;
}

/// Reads a body of at most 16 MiB, with trigraphs replaced where that is asked for. A missing last newline is added. The text stands in the
/// body's memory: what is read is moved to its front, and nothing before the first splice. Time is linear in the body; the only error is want
/// of memory.
pub fn read_source(alloc: Global, body: Vec<u8>, trigraphs: bool) -> Result<SourceText, AllocError>
    requires { length body.items ≤ body_limit }
    ensures source { IfOk result (λ s. lined s.splices.items 0 1 s.text.items ≡ source_text trigraphs body.items) }
    ensures rising { IfOk result (λ s. Rising 0 s.splices.items) }
    ensures small { IfOk result (λ s. length s.text.items + length s.splices.items ≤ body_limit + 1) }
    ensures short { IfOk result (λ s. length s.text.items ≤ body_limit + newlines s.text.items) }
{
    let mut splices = Vec::new(alloc);
    let mut text = body;
    if text.is_empty() {
        return Ok(SourceText { text, splices });
    }
    end_last_line(&mut text)?;
    // What is read of the body goes to the front of its memory: `to` bytes, never beyond what is read.
    let mut copy = [0u8; RUN];
    let mut at = 0usize;
    let mut to = 0usize;
    while at < text.len() {
        let (_, rest) = text.split_at(at);
        let Front { run, piece, length } = front_of(rest, trigraphs);
        move_down(&mut text, at, run, to, &mut copy);
        to += run;
        match piece {
            Piece::Byte(byte) => {
                put(&mut text, to, byte);
                to += 1;
            }
            Piece::Splice => splices.push(to as u32)?,
        }
        at += run + length;
    }
    text.truncate(to);
    Ok(SourceText { text, splices })
}
