// Lines that begin with a word.
use crate::{Lines, Wrong};
use std::alloc::Global;

/// Who answers lines by their words.
pub trait Cases {
    /// Begins a case. An empty line ends the one before it.
    fn begin(&mut self, _alloc: Global) -> Result<(), Wrong> {
        Ok(())
    }

    /// Takes a line, by its word and what stands behind it, and appends what it gives.
    fn take(
        &mut self,
        alloc: Global,
        out: &mut String,
        word: &str,
        rest: &str,
    ) -> Result<(), Wrong>;
}

/// Lines that are answered by their words. Each is repeated in front of its answers, and what begins with `#` is a comment.
#[derive(Drop)]
pub struct WordLines<C: Drop>(pub C);

impl<C: Cases + Drop> Lines for WordLines<C> {
    fn take(&mut self, alloc: Global, out: &mut String, line: &str) -> Result<(), Wrong> {
        match read_line(out, line)? {
            Line::Ends => self.0.begin(alloc),
            Line::Comment => Ok(()),
            Line::Says(word, rest) => self.0.take(alloc, out, word, rest),
        }
    }
}

/// What a line of cases is.
#[derive(Clone, Copy, Drop)]
pub enum Line<'a> {
    /// It is empty, and ends a case.
    Ends,
    Comment,
    /// A word, and what stands behind it.
    Says(&'a str, &'a str),
}

/// Reads a line, and repeats it in front of its answers.
pub fn read_line<'a>(out: &mut String, line: &'a str) -> Result<Line<'a>, Wrong> {
    out.push_str(line)?;
    out.push('\n')?;
    if line.is_empty() {
        Ok(Line::Ends)
    } else if line.starts_with('#') {
        Ok(Line::Comment)
    } else {
        let (word, rest) = cut(line);
        Ok(Line::Says(word, rest))
    }
}

/// What stands before the first space of a text, and what stands behind it.
pub fn cut(text: &str) -> (&str, &str) {
    text.split_once(' ').unwrap_or((text, ""))
}
