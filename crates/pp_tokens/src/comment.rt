// Comments that stand first in a text (ISO C 6.4.9).
ghost use Rattle.std.specs.Prelude.{◌≡◌, ◌≤◌, ◌<◌, ◌==◌, false, not, length, get_or, drop, take_while};
ghost use Rattle.std.specs.Option.{IfSome};
ghost use Rattle.base_types.specs.Ascii as ascii;
ghost use Rattle.pp_tokens.specs.Lines.{Part, first_part, comment};
ghost use Rattle.pp_tokens.specs.parts.Text.{part_told, comment_length};

use crate::marks::{byte_at, mark_part};
use crate::part::What;
use memchr::memchr;

/// How many bytes stand before the first that is `stop`; all where none is.
pub fn bytes_before(stop: u8, bytes: &[u8]) -> usize
    ensures run { result ≡ length (take_while (λ b. not (b == stop)) bytes.now) }
    ensures within { result ≤ length bytes.now }
{
    match memchr(stop, bytes) {
        Some(place) => place,
        None => bytes.len(),
    }
}

/// How many bytes stand before the end of the line.
pub fn line_length(bytes: &[u8]) -> usize
    ensures run { result ≡ length (take_while (λ b. not (b == ascii.newline)) bytes.now) }
    ensures within { result ≤ length bytes.now }
{
    bytes_before(b'\n', bytes)
}

// How many bytes lead up to the end of a comment, its `*/` included; None where it never ends.
fn comment_length(inside: &[u8]) -> Option<usize>
    ensures length { result ≡ comment_length inside.now }
    ensures within { IfSome result (λ n. n ≤ length inside.now) }
{
    let mut at = 0usize;
    while at < inside.len() {
        let (_, rest) = inside.split_at(at);
        let star = bytes_before(b'*', rest);
        if byte_at(rest, star + 1) == b'/' {
            return Some(at + star + 2);
        }
        at += star + 1;
    }
    None
}

/// What begins with `/`: a comment, one that never ends, `/=` or `/`.
#[inline(always)]
pub fn slash_part(rest: &[u8]) -> (What, usize)
    requires some { 0 < length rest.now }
    requires slash { get_or rest.now 0 0 ≡ ascii.slash }
    ensures { (part_told result.0, result.1) ≡ first_part false rest.now }
{
    let second = byte_at(rest, 1);
    if second == b'*' {
        let (_, inside) = rest.split_at(2);
        match comment_length(inside) {
            Some(n) => (What::Comment, n + 2),
            None => (What::OpenComment, rest.len()),
        }
    } else if second == b'/' {
        let (_, inside) = rest.split_at(2);
        (What::Comment, line_length(inside) + 2)
    } else {
        mark_part(rest)
    }
}
