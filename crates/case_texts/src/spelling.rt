// Bytes as printable text, with the escapes `\\`, `\n`, `\t`, `\0` and `\xNN`.
use crate::Wrong;
use std::alloc::{AllocError, Global};
use std::fmt::Write;

// How much of a byte's spelling was read.
#[derive(Clone, Copy, Drop)]
enum Reading {
    Nothing,
    Backslash,
    Hex,
    Digit(u8),
}

/// The bytes that a text with escapes spells.
pub fn bytes_of(alloc: Global, text: &str) -> Result<Vec<u8>, Wrong> {
    let mut bytes = Vec::new(alloc);
    let mut reading = Reading::Nothing;
    for byte in text.as_bytes() {
        reading = read_byte(&mut bytes, reading, *byte)?;
    }
    match reading {
        Reading::Nothing => Ok(bytes),
        _ => Err(Wrong::Form("an escape without its end")),
    }
}

fn read_byte(bytes: &mut Vec<u8>, reading: Reading, byte: u8) -> Result<Reading, Wrong> {
    let spelled = match (reading, byte) {
        (Reading::Nothing, b'\\') => return Ok(Reading::Backslash),
        (Reading::Nothing, byte) => byte,
        (Reading::Backslash, b'x') => return Ok(Reading::Hex),
        (Reading::Backslash, b'n') => b'\n',
        (Reading::Backslash, b't') => b'\t',
        (Reading::Backslash, b'0') => 0,
        (Reading::Backslash, b'\\') => b'\\',
        (Reading::Backslash, _) => return Err(Wrong::Form("an escape that isn't known")),
        (Reading::Hex, digit) => return Ok(Reading::Digit(value_of(digit)?)),
        (Reading::Digit(high), digit) => (high << 4) | value_of(digit)?,
    };
    bytes.push(spelled)?;
    Ok(Reading::Nothing)
}

fn value_of(digit: u8) -> Result<u8, Wrong> {
    match digit {
        b'0'..=b'9' => Ok(digit - b'0'),
        b'a'..=b'f' => Ok(digit - b'a' + 10),
        _ => Err(Wrong::Form("\\x without two lower hexadecimal digits")),
    }
}

/// The number that digits spell.
pub fn number_of(digits: &str) -> Result<u32, Wrong> {
    match digits.parse::<u32>() {
        Ok(number) => Ok(number),
        Err(_) => Err(Wrong::Form("no number")),
    }
}

/// Appends a byte as it is spelled.
pub(crate) fn push_byte(out: &mut String, byte: u8) -> Result<(), AllocError> {
    match byte {
        b'\\' => out.push_str("\\\\"),
        b'\n' => out.push_str("\\n"),
        b'\t' => out.push_str("\\t"),
        0 => out.push_str("\\0"),
        b' '..=b'~' => out.push(char::from(byte)),
        _ => write!(out, "\\x{byte:02x}"),
    }
}
