// Plain bodies: text lines and include lines alone.
ghost use Rattle.std.specs.Prelude.{◌≡◌, ◌≤◌, ◌&&◌, codes, bytes_eq, ◌==◌};
ghost use Rattle.std.specs.List.{list_all};
ghost use Rattle.pp_tokens.specs.Plain.{is_word_byte, is_text_mark, is_text_byte, is_name_byte, is_simple_name, is_include_line, is_plain_line, is_plain_body};

use crate::class::{is_digit, is_text_mark};
use crate::comment::line_length;
use base_types::limits::NAME_LIMIT;

// Whether a byte is a letter, a digit or `_`.
fn is_word_byte(b: u8) -> bool
    ensures { result ≡ is_word_byte b }
{
    (b'a' <= b && b <= b'z') || (b'A' <= b && b <= b'Z') || is_digit(b) || b == b'_'
}

fn is_text_byte(b: u8) -> bool
    ensures { result ≡ is_text_byte b }
{
    is_word_byte(b) || b == b' ' || is_text_mark(b)
}

fn is_name_byte(b: u8) -> bool
    ensures { result ≡ is_name_byte b }
{
    is_word_byte(b) || b == b'.' || b == b'-'
}

fn is_text_line(line: &[u8]) -> bool
    ensures { result ≡ list_all is_text_byte line.now }
{
    line.iter().all(|b| is_text_byte(*b))
}

fn has_name_bytes(name: &[u8]) -> bool
    ensures { result ≡ list_all is_name_byte name.now }
{
    name.iter().all(|b| is_name_byte(*b))
}

/// Whether a name is 1 to 255 letters, digits, `_`, `.` and `-`, doesn't begin with `-`, and is neither `.`
/// nor `..`.
#[tactic(auto, unfolding(crate::specs::Plain::is_simple_name))]
pub fn is_simple_name(name: &[u8]) -> bool
    ensures { result ≡ is_simple_name name.now }
{
    1 <= name.len()
        && name.len() <= NAME_LIMIT
        && has_name_bytes(name)
        && name[0] != b'-'
        && name != b".".as_slice()
        && name != b"..".as_slice()
}

// Whether what stands before a name and behind it on its line makes an include line.
fn frames_name(front: &[u8], end: &[u8]) -> bool
    ensures { result ≡ (bytes_eq front.now (codes "#include \"") && bytes_eq end.now (codes "\"")) }
{
    front == b"#include \"".as_slice() && end == b"\"".as_slice()
}

// Whether a line, without its line feed, is `#include "NAME"` with a simple name.
fn is_include_line(line: &[u8]) -> bool
    ensures { result ≡ is_include_line line.now }
{
    if line.len() < 12 {
        return false;
    }
    let (front, behind) = line.split_at(10);
    let (name, end) = behind.split_at(behind.len() - 1);
    let simple = is_simple_name(name);
    frames_name(front, end) && simple
}

#[tactic(auto, unfolding(crate::specs::Plain::is_plain_line))]
fn is_plain_line(line: &[u8]) -> bool
    ensures { result ≡ is_plain_line line.now }
{
    is_text_line(line) || is_include_line(line)
}

/// Whether a body is plain: it is empty or ends with a line feed, and each of its lines is either exactly
/// `#include "NAME"` with a simple name, or made of letters, digits, `_`, spaces and `; , ( ) { } [ ]` alone.
/// Time is linear in the body.
pub fn is_plain(body: &[u8]) -> bool
    ensures { result ≡ is_plain_body body.now }
{
    let mut rest = body;
    while !rest.is_empty() {
        let length = line_length(rest);
        if length == rest.len() {
            return false;
        }
        let (line, behind) = rest.split_at(length);
        if !is_plain_line(line) {
            return false;
        }
        let (_, next) = behind.split_at(1);
        rest = next;
    }
    true
}
