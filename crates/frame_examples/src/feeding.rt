// Frames fed to a reader byte by byte, in two pieces cut at each place, and with more bytes behind them.
use crate::shown::{add_answer, add_entries, add_job, add_verdict};
use bstr::ByteSlice;
use job_frames::{Fed, ReplyReader, RequestReader};
use std::alloc::{AllocError, Global};
use std::fmt::Write;

/// A reader that is fed in pieces.
pub trait Reader: Drop {
    /// A reader to which nothing has come.
    fn begin(alloc: Global) -> Self;

    /// The verdict with a piece more.
    fn take(&mut self, piece: &[u8]) -> Fed;

    /// The verdict where no byte follows.
    fn stop(&mut self) -> Fed;

    /// Adds what a whole frame says, on lines.
    fn say(self, text: &mut String) -> Result<(), AllocError>;
}

impl Reader for RequestReader {
    fn begin(alloc: Global) -> Self {
        RequestReader::new(alloc)
    }

    fn take(&mut self, piece: &[u8]) -> Fed {
        self.feed(piece)
    }

    fn stop(&mut self) -> Fed {
        self.end()
    }

    fn say(self, text: &mut String) -> Result<(), AllocError> {
        match self.finish() {
            None => Ok(()),
            Some((job, entries)) => {
                add_entries(text, entries.as_slice())?;
                add_job(text, &job)
            }
        }
    }
}

impl Reader for ReplyReader {
    fn begin(alloc: Global) -> Self {
        ReplyReader::new(alloc)
    }

    fn take(&mut self, piece: &[u8]) -> Fed {
        self.feed(piece)
    }

    fn stop(&mut self) -> Fed {
        self.end()
    }

    fn say(self, text: &mut String) -> Result<(), AllocError> {
        match self.finish() {
            None => Ok(()),
            Some(answer) => add_answer(text, &answer),
        }
    }
}

/// A frame: its bytes, the first of them that a case puts there, and the bytes that come behind it.
#[derive(Drop)]
pub struct Frame<'x> {
    pub alloc: Global,
    pub bytes: &'x [u8],
    pub place: usize,
    pub behind: &'x [u8],
}

// What a reader answers to a frame byte by byte: the verdicts before its first byte, behind each, and behind its end; and
// what the frame says.
#[derive(Drop)]
struct Course {
    verdicts: Vec<Fed>,
    says: String,
}

impl Course {
    fn at(&self, n: usize) -> Fed {
        self.verdicts.get(n).copied().unwrap_or(Fed::More)
    }

    // What `feed_cut` sees.
    fn cut(&self, n: usize, len: usize) -> [Fed; 6] {
        let end = self.at(len.saturating_add(1));
        [self.at(n), self.at(len), self.at(len), end, end, end]
    }
}

/// Adds what a frame gives.
pub fn add_frame<R: Reader>(text: &mut String, frame: &Frame<'_>) -> Result<(), AllocError> {
    let mut course = Course {
        verdicts: Vec::new(frame.alloc),
        says: String::new(frame.alloc),
    };
    run::<R>(frame, &mut course)?;
    add_course::<R>(text, frame, &course)
}

fn run<R: Reader>(frame: &Frame<'_>, course: &mut Course) -> Result<(), AllocError> {
    let mut reader = R::begin(frame.alloc);
    feed_bytes(&mut reader, frame.bytes, &mut course.verdicts)?;
    reader.say(&mut course.says)
}

fn feed_bytes<R: Reader>(
    reader: &mut R,
    bytes: &[u8],
    verdicts: &mut Vec<Fed>,
) -> Result<(), AllocError> {
    verdicts.push(reader.take(b""))?;
    for byte in bytes {
        verdicts.push(reader.take([*byte].as_slice()))?;
    }
    verdicts.push(reader.stop())?;
    Ok(())
}

fn add_course<R: Reader>(
    text: &mut String,
    frame: &Frame<'_>,
    course: &Course,
) -> Result<(), AllocError> {
    add_changes(text, frame, course.verdicts.as_slice())?;
    text.push_str(course.says.as_str())?;
    add_behind::<R>(text, frame, course)?;
    for n in 0..=frame.bytes.len() {
        add_cut::<R>(text, frame, course, n)?;
    }
    Ok(())
}

fn add_changes(text: &mut String, frame: &Frame<'_>, verdicts: &[Fed]) -> Result<(), AllocError> {
    let mut before = Fed::More;
    for (n, fed) in verdicts.iter().enumerate() {
        if *fed != before {
            add_change(text, frame, n, *fed)?;
        }
        before = *fed;
    }
    Ok(())
}

// A verdict that comes with so many bytes, or at the frame's end.
fn add_change(text: &mut String, frame: &Frame<'_>, n: usize, fed: Fed) -> Result<(), AllocError> {
    text.push_str("   ")?;
    add_verdict(text, fed)?;
    if n > frame.bytes.len() {
        return text.push_str(" at its end\n");
    }
    let came = &frame.bytes[frame.place.min(n)..n];
    writeln!(text, " after {}", came.escape_bytes())
}

// Bytes behind a frame, or behind its end where it isn't whole, and then its end.
fn feed_behind<R: Reader>(reader: &mut R, frame: &Frame<'_>) -> [Fed; 3] {
    if reader.take(frame.bytes) == Fed::More {
        let _ = reader.stop();
    }
    [reader.take(frame.behind), reader.take(b"R"), reader.stop()]
}

fn add_behind<R: Reader>(
    text: &mut String,
    frame: &Frame<'_>,
    course: &Course,
) -> Result<(), AllocError> {
    let mut reader = R::begin(frame.alloc);
    let seen = feed_behind(&mut reader, frame);
    let says = said(frame.alloc, reader)?;
    let end = course.at(frame.bytes.len().saturating_add(1));
    if seen == [end; 3] && says.as_str() == course.says.as_str() {
        return Ok(());
    }
    text.push_str("    with more behind it:")?;
    add_seen(text, seen.as_slice(), says.as_str())
}

// What a reader to which all has come says.
fn said<R: Reader>(alloc: Global, reader: R) -> Result<String, AllocError> {
    let mut says = String::new(alloc);
    reader.say(&mut says)?;
    Ok(says)
}

// Verdicts, each that isn't the one before it, and what is said then.
fn add_seen(text: &mut String, verdicts: &[Fed], says: &str) -> Result<(), AllocError> {
    let mut before = None;
    for fed in verdicts {
        if before != Some(*fed) {
            add_verdict(text, *fed)?;
        }
        before = Some(*fed);
    }
    write!(text, "\n{says}")
}

// A frame in two pieces, the first of n bytes, and then its end, twice, each time behind an empty piece.
fn feed_cut<R: Reader>(reader: &mut R, bytes: &[u8], n: usize) -> [Fed; 6] {
    let (first, rest) = bytes.split_at(n.min(bytes.len()));
    [
        reader.take(first),
        reader.take(rest),
        reader.take(b""),
        reader.stop(),
        reader.take(b""),
        reader.stop(),
    ]
}

// Nothing where a frame in two pieces is answered as byte by byte.
fn add_cut<R: Reader>(
    text: &mut String,
    frame: &Frame<'_>,
    course: &Course,
    n: usize,
) -> Result<(), AllocError> {
    let mut reader = R::begin(frame.alloc);
    let seen = feed_cut(&mut reader, frame.bytes, n);
    let says = said(frame.alloc, reader)?;
    if seen == course.cut(n, frame.bytes.len()) && says.as_str() == course.says.as_str() {
        return Ok(());
    }
    write!(text, "    cut at {n}:")?;
    add_seen(text, seen.as_slice(), says.as_str())
}
