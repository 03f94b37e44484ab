// The lines of answers, each of which begins with `>`.
use crate::Wrong;
use crate::spelling::push_byte;
use std::alloc::AllocError;
use std::fmt::{Debug, Write};

/// Appends bytes behind a space, where there are any.
pub fn push_bytes(out: &mut String, bytes: &[u8]) -> Result<(), AllocError> {
    if !bytes.is_empty() {
        out.push(' ')?;
    }
    for byte in bytes {
        push_byte(out, *byte)?;
    }
    Ok(())
}

/// Appends the line of an answer, a word and bytes behind it.
pub fn say(out: &mut String, word: &str, bytes: &[u8]) -> Result<(), Wrong> {
    write!(out, "> {word}")?;
    push_bytes(out, bytes)?;
    Ok(out.push('\n')?)
}

/// Appends the line of an answer, a word alone.
pub fn say_word(out: &mut String, word: &str) -> Result<(), Wrong> {
    Ok(writeln!(out, "> {word}")?)
}

/// Appends the line of an answer, a word and a value behind it.
pub fn say_value<D: Debug>(out: &mut String, word: &str, value: &D) -> Result<(), Wrong> {
    Ok(writeln!(out, "> {word} {value:?}")?)
}

/// Appends the lines of an answer, a word and the lines of bytes.
pub fn say_lines(out: &mut String, word: &str, bytes: &[u8]) -> Result<(), Wrong> {
    say_word(out, word)?;
    for line in bytes.split_inclusive(|byte| *byte == b'\n') {
        say_line(out, line)?;
    }
    Ok(())
}

// A line that has an end and is printable stands as it is.
fn say_line(out: &mut String, line: &[u8]) -> Result<(), AllocError> {
    if let [text @ .., b'\n'] = line
        && let Ok(text) = std::str::from_utf8(text)
    {
        return if text.is_empty() {
            writeln!(out, ">|")
        } else {
            writeln!(out, ">| {text}")
        };
    }
    out.push_str(">=")?;
    push_bytes(out, line)?;
    out.push('\n')
}
