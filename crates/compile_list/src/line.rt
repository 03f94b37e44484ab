// The words of a line.
ghost use Rattle.std.specs.Prelude.{◌≡◌, ◌≤◌, ◌⊎◌, ℕ, List, [], ◌∷◌, ◌++◌, length, take, Option, None, Some, IfOk, IfErr, OnOk, MatchOption};
ghost use Rattle.std.specs.Option.{option_map};
ghost use Rattle.compile_list.specs.Listed.{is_blank, line_words, units, unit_of, with_unit};
ghost use Rattle.compile_list.specs.parts.Steps.{kept, word_in};

use crate::refused::ListWhy;
use base_types::limits::JOB_WORDS_LIMIT;
use base_types::{Bytes, List};
use std::alloc::{AllocError, Global};

// How many words of a line are kept: a working directory, and one compile word more than a job has.
const KEPT: usize = JOB_WORDS_LIMIT + 2;

// The words of a line that were read, and the bytes of the one that isn't ended.
#[derive(Drop)]
struct LineWords {
    ended: List<Bytes>,
    word: Vec<u8>,
}

/// The first 1,002 words of a line: a working directory, and one compile word more than a job may have. `Escape`: a `\` ends
/// the line; `Memory`: no memory was found. Time is proportional to the bytes of the line, and memory to those of its words
/// that are kept and of its longest one.
pub fn words_of_line(alloc: Global, line: &[u8]) -> Result<List<Bytes>, ListWhy>
    ensures words { IfOk result (λ words. option_map (take 1002) (line_words line.now) ≡ Some words) }
    ensures why { IfErr result (λ why. (why ≡ ListWhy.Memory) ⊎ ((why ≡ ListWhy.Escape) × (line_words line.now ≡ None))) }
{
    let mut words = LineWords {
        ended: List::new(alloc),
        word: Vec::new(alloc),
    };
    let mut rest = line;
    while let [first, behind @ ..] = rest {
        let Some((unit, behind)) = first_unit(*first, behind) else {
            return Err(ListWhy::Escape);
        };
        if let Err(_) = words.add(alloc, unit) {
            return Err(ListWhy::Memory);
        }
        rest = behind;
    }
    match words.end_word(alloc) {
        Ok(()) => Ok(words.ended),
        Err(_) => Err(ListWhy::Memory),
    }
}

// The first unit of a line, as a byte of a word or None for a blank, and the line behind it; None where a `\` ends the line.
fn first_unit(first: u8, behind: &[u8]) -> Option<(Option<u8>, &[u8])>
    ensures units { MatchOption result (units (first ∷ behind.now) ≡ None) (λ read. units (first ∷ behind.now) ≡ with_unit read.0 (units read.1.now)) }
    ensures shorter { MatchOption result (Unit {0}) (λ read. length read.1.now ≤ length behind.now) }
{
    if first != b'\\' {
        return Some((unit_of(first), behind));
    }
    match behind {
        [escaped, behind @ ..] => Some((Some(*escaped), behind)),
        [] => None,
    }
}

// A byte of a word, or None for a blank.
fn unit_of(b: u8) -> Option<u8>
    ensures { result ≡ unit_of b }
{
    if b == b' ' || b == b'\t' {
        None
    } else {
        Some(b)
    }
}

impl LineWords {
    // Reads a unit: a byte joins the word, and a blank ends it.
    fn add(&mut self, alloc: Global, unit: Option<u8>) -> Result<(), AllocError>
        requires { length self.old.ended ≤ 1002 }
        ensures kept { OnOk result ((more : List (Option ℕ)) → kept self.new more ≡ kept self.old (unit ∷ more)) }
        ensures few { OnOk result (length self.new.ended ≤ 1002) }
    {
        let Some(b) = unit else {
            return self.end_word(alloc);
        };
        self.word.push(b)?;
        Ok(())
    }

    // Ends the word.
    fn end_word(&mut self, alloc: Global) -> Result<(), AllocError>
        requires { length self.old.ended ≤ 1002 }
        ensures kept { OnOk result ((more : List (Option ℕ)) → kept self.new more ≡ kept self.old (None ∷ more)) }
        ensures ended { OnOk result (self.new.ended ≡ kept self.old []) }
        ensures few { OnOk result (length self.new.ended ≤ 1002) }
    {
        add_word(alloc, &self.word, &mut self.ended)?;
        self.word.clear();
        Ok(())
    }
}

// Adds a word that isn't empty, where fewer words are kept than may be.
fn add_word(alloc: Global, word: &[u8], words: &mut List<Bytes>) -> Result<(), AllocError>
    requires { length words.old ≤ 1002 }
    ensures kept { OnOk result ((more : List (List ℕ)) → take 1002 (words.new ++ more) ≡ take 1002 (words.old ++ (word_in word.now ++ more))) }
    ensures few { OnOk result (length words.new ≤ 1002) }
{
    if word.is_empty() {
        return Ok(());
    }
    if words.len() == KEPT {
        return Ok(());
    }
    words.push(Bytes::copy_of(alloc, word)?)?;
    Ok(())
}
