// Cases that are texts of C.
ghost use Rattle.std.specs.Prelude.{◌≤◌, length};

use crate::{Lines, Wrong};
use base_types::Bytes;
use base_types::limits::BODY_LIMIT;
use std::alloc::{AllocError, Global};

/// Who says what texts of C give.
pub trait Texts {
    /// What a text gives, which is read in the way that these words name.
    fn result_of(&self, alloc: Global, way: &str, text: &[u8]) -> Result<String, Wrong>
        requires { length text.now ≤ 16777216 };
}

/// Lines of texts, each of which ends before a line with a way, ` =>`, and behind that what it gives. Before a text there may be
/// empty lines and headings, which begin with `//`; and `N times LINE` stands for N such lines.
#[derive(Drop)]
pub struct TextLines<T: Drop> {
    texts: T,
    text: String,
}

impl<T: Texts + Drop> TextLines<T> {
    pub fn new(alloc: Global, texts: T) -> TextLines<T> {
        TextLines {
            texts,
            text: String::new(alloc),
        }
    }

    // What the text so far gives.
    fn result(&self, alloc: Global, way: &str) -> Result<String, Wrong> {
        let text = self.text.as_bytes();
        if text.len() > BODY_LIMIT {
            return Err(Wrong::Form("a text of more than 16 MiB"));
        }
        self.texts.result_of(alloc, way, text)
    }

    // Adds what a line stands for. An empty line or a heading before a text stands for nothing.
    fn add_line(&mut self, line: &str) -> Result<(), AllocError> {
        if self.text.is_empty() && is_heading(line) {
            return Ok(());
        }
        let (times, line) = repeated(line).unwrap_or((1, line));
        for _ in 0..times {
            writeln!(self.text, "{line}")?;
        }
        Ok(())
    }
}

impl<T: Texts + Drop> Lines for TextLines<T> {
    fn take(&mut self, alloc: Global, out: &mut String, line: &str) -> Result<(), Wrong> {
        let Some(way) = line.strip_suffix(" =>") else {
            self.add_line(line)?;
            return Ok(writeln!(out, "{line}")?);
        };
        let result = self.result(alloc, way)?;
        self.text.clear();
        Ok(writeln!(out, "{line} {result}")?)
    }

    fn end(&self) -> Result<(), Wrong> {
        if self.text.is_empty() {
            Ok(())
        } else {
            Err(Wrong::Form("the last case has no end"))
        }
    }
}

/// Whether a line is empty or a heading.
pub fn is_heading(line: &str) -> bool {
    line.is_empty() || line.starts_with("//")
}

fn repeated(line: &str) -> Option<(u64, &str)> {
    let (times, line) = line.split_once(" times ")?;
    Some((times.parse().ok()?, line))
}

/// A spelling as text. Those of a text in UTF-8 are UTF-8 too.
pub fn spelled(bytes: &Bytes) -> &str {
    std::str::from_utf8(bytes.as_slice()).unwrap_or("?")
}
