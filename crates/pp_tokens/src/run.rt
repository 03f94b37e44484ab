// Runs of bytes: how many at the front of a text are of one class. Sixteen are looked at at once.
ghost use Rattle.std.specs.Prelude.{◌≡◌, ◌≤◌, ◌+◌, ℕ, Bool, not, length, map, take, take_while};
ghost use Rattle.std.specs.List.{prefix_len};
ghost use Rattle.std.specs.Simd.Lanes.{mask_l};
ghost use Rattle.pp_tokens.specs.Grammar.{is_identifier_byte};
ghost use Rattle.pp_tokens.specs.parts.TextLines.{is_ordinary};

use crate::class::{is_identifier_byte, is_ordinary};
use std::simd::prelude::*;

/// How many bytes are looked at at once.
pub const LANES: usize = 16;

/// A class of bytes.
pub trait Class {
    ghost holds: { ℕ → Bool };

    fn has(b: u8) -> bool
        ensures { result ≡ holds b };

    /// Which of the bytes aren't of the class, a bit for each.
    fn others(bytes: u8x16) -> u64
        ensures { result ≡ mask_l (map (λ b. not (holds b)) bytes) };
}

/// The bytes that go on with an identifier.
pub struct Word;

impl Class for Word {
    ghost holds = { is_identifier_byte };

    #[inline(always)]
    fn has(b: u8) -> bool {
        is_identifier_byte(b)
    }

    // A letter is one of 26 from `a` on, once the bit of its case is set.
    #[inline(always)]
    fn others(bytes: u8x16) -> u64 {
        let letters = (bytes | u8x16::splat(b' ')) - u8x16::splat(b'a');
        let digits = bytes - u8x16::splat(b'0');
        let plain = letters.simd_gt(u8x16::splat(25)) & digits.simd_gt(u8x16::splat(9));
        let marks = bytes.simd_ne(u8x16::splat(b'_')) & bytes.simd_ne(u8x16::splat(b'$'));
        (plain & marks & bytes.simd_lt(u8x16::splat(128))).to_bitmask()
    }
}

/// Those that neither end a line nor begin or end a comment or a literal.
pub struct Ordinary;

impl Class for Ordinary {
    ghost holds = { is_ordinary };

    #[inline(always)]
    fn has(b: u8) -> bool {
        is_ordinary(b)
    }

    #[inline(always)]
    fn others(bytes: u8x16) -> u64 {
        let quotes = bytes.simd_eq(u8x16::splat(b'"')) | bytes.simd_eq(u8x16::splat(b'\''));
        let ends = bytes.simd_eq(u8x16::splat(b'\n')) | bytes.simd_eq(u8x16::splat(b'/'));
        (quotes | ends).to_bitmask()
    }
}

// The length of a run, looked at byte by byte.
#[inline(always)]
fn last_length<C: Class>(bytes: &[u8]) -> usize
    ensures run { result ≡ length (take_while C.holds bytes.now) }
    ensures within { result ≤ length bytes.now }
{
    bytes.iter().take_while(|b| C::has(**b)).count()
}

/// The length of a run in a short text, looked at four by four.
#[inline(always)]
pub fn short_length<C: Class>(bytes: &[u8]) -> usize
    ensures run { result ≡ length (take_while C.holds bytes.now) }
    ensures within { result ≤ length bytes.now }
{
    let mut length = 0usize;
    while length + 4 <= bytes.len() {
        if !C::has(bytes[length]) {
            return length;
        }
        if !C::has(bytes[length + 1]) {
            return length + 1;
        }
        if !C::has(bytes[length + 2]) {
            return length + 2;
        }
        if !C::has(bytes[length + 3]) {
            return length + 3;
        }
        length += 4;
    }
    let (_, rest) = bytes.split_at(length);
    length + last_length::<C>(rest)
}

/// How many of the first 16 bytes come before one that isn't of the class.
#[inline(always)]
pub fn near_length<C: Class>(bytes: &[u8]) -> usize
    requires { 16 ≤ length bytes.now }
    ensures { result ≡ prefix_len C.holds (take 16 bytes.now) }
{
    let others = C::others(u8x16::from_slice(bytes));
    if others == 0 {
        return LANES;
    }
    others.trailing_zeros() as usize
}

/// How many bytes at the front are of a class, looked at 16 by 16.
#[inline(always)]
pub fn run_length<C: Class>(bytes: &[u8]) -> usize
    ensures run { result ≡ length (take_while C.holds bytes.now) }
    ensures within { result ≤ length bytes.now }
{
    let mut length = 0usize;
    while length + LANES <= bytes.len() {
        let (_, rest) = bytes.split_at(length);
        let near = near_length::<C>(rest);
        if near < LANES {
            return length + near;
        }
        length += LANES;
    }
    let (_, rest) = bytes.split_at(length);
    length + short_length::<C>(rest)
}
