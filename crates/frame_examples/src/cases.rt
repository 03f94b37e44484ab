// The lines of the input: what they say of a frame, and the cases that they make of it.
use crate::feeding::{Frame, add_frame};
use crate::images::{add_directories, add_image};
use base_types::Bytes;
use bstr::ByteVec;
use case_texts::{Cases, Wrong, number_of};
use job_frames::{ReplyReader, RequestReader};
use std::alloc::{AllocError, Global};
use std::ops::Range;

// What frames are read as.
#[derive(Clone, Copy, Drop)]
enum Kind {
    Request,
    Reply,
    Image,
}

/// What the lines so far say.
#[derive(Drop)]
pub struct Frames {
    alloc: Global,
    kind: Kind,
    frame: Vec<u8>,
    // Each part's name, and where its token begins in the frame.
    parts: Vec<(Bytes, usize)>,
    // What is fed behind each frame.
    behind: Vec<u8>,
}

impl Cases for Frames {
    fn take(
        &mut self,
        alloc: Global,
        out: &mut String,
        word: &str,
        rest: &str,
    ) -> Result<(), Wrong> {
        let (name, escaped) = rest.rsplit_once(' ').unwrap_or(("", rest));
        if !is_due(word, !name.is_empty(), !escaped.is_empty()) {
            return Err(Wrong::Form("too few words, or too many"));
        }
        let bytes = Vec::unescape_bytes(alloc, escaped)?;
        let mut results = Vec::new(alloc);
        self.obey(&mut results, word, name, &bytes)?;
        Ok(add_results(out, results)?)
    }
}

// Adds the results of a line's cases, equal ones behind one another once.
fn add_results(out: &mut String, mut results: Vec<String>) -> Result<(), AllocError> {
    let count = results.len();
    if count > 1 {
        writeln!(out, "    {count} times:")?;
    }
    results.dedup();
    for result in &results {
        out.push_str(result)?;
    }
    Ok(())
}

impl Frames {
    pub fn new(alloc: Global) -> Frames {
        Frames {
            alloc,
            kind: Kind::Request,
            frame: Vec::new(alloc),
            parts: Vec::new(alloc),
            behind: Vec::new(alloc),
        }
    }

    fn obey(
        &mut self,
        results: &mut Vec<String>,
        word: &str,
        name: &str,
        bytes: &[u8],
    ) -> Result<(), Wrong> {
        match word {
            "request" => Ok(self.begin(Kind::Request)),
            "reply" => Ok(self.begin(Kind::Reply)),
            "image" => Ok(self.begin(Kind::Image)),
            "behind" => Ok(refill(&mut self.behind, bytes)?),
            "part" => Ok(self.add_part(name, bytes)?),
            "frame" => Ok(self.set_frame(results, bytes)?),
            _ => self.do_case(results, word, name, bytes),
        }
    }

    fn begin(&mut self, kind: Kind) {
        self.kind = kind;
        self.frame.clear();
        self.parts.clear();
    }

    fn add_part(&mut self, name: &str, bytes: &[u8]) -> Result<(), AllocError> {
        let name = Bytes::copy_of(self.alloc, name.as_bytes())?;
        self.parts.push((name, self.frame.len()))?;
        self.frame.extend_from_slice(bytes)
    }

    fn set_frame(&mut self, results: &mut Vec<String>, bytes: &[u8]) -> Result<(), AllocError> {
        self.parts.clear();
        refill(&mut self.frame, bytes)?;
        self.add(results, [b"", bytes, b""])
    }

    fn do_case(
        &self,
        results: &mut Vec<String>,
        word: &str,
        name: &str,
        bytes: &[u8],
    ) -> Result<(), Wrong> {
        match word {
            "whole" | "then" => Ok(self.add(results, [b"", &self.frame, bytes])?),
            "before" => Ok(self.add(results, [b"", bytes, &self.frame])?),
            "upto" => Ok(self.put(results, self.place_of(name)?, bytes, false)?),
            "over" => Ok(self.put(results, self.place_of(name)?, bytes, true)?),
            "letters" => Ok(self.put_each(results, 0..4, bytes)?),
            "digits" => Ok(self.put_each(results, 4..12, bytes)?),
            "fronts" => Ok(self.fronts(results)?),
            "times" => Ok(self.times(results, number_of(name)? as usize, bytes)?),
            "directories" => Ok(self.directories(results, number_of(name)? as usize, bytes)?),
            _ => Err(Wrong::Form("no such word")),
        }
    }

    fn place_of(&self, name: &str) -> Result<usize, Wrong> {
        for (other, place) in &self.parts {
            if other.as_slice() == name.as_bytes() {
                return Ok(*place);
            }
        }
        Err(Wrong::Form("no such part"))
    }

    // The frame up to a place, the bytes, and behind them what stands behind as many of the frame's own, or nothing.
    fn put(
        &self,
        results: &mut Vec<String>,
        place: usize,
        bytes: &[u8],
        goes_on: bool,
    ) -> Result<(), AllocError> {
        let (front, rest) = split(&self.frame, place);
        let (_, rest) = split(rest, if goes_on { bytes.len() } else { rest.len() });
        self.add(results, [front, bytes, rest])
    }

    // The bytes over those at these places of each part.
    fn put_each(
        &self,
        results: &mut Vec<String>,
        places: Range<usize>,
        bytes: &[u8],
    ) -> Result<(), AllocError> {
        for (_, part) in &self.parts {
            for place in places.start..places.end {
                self.put(results, part.saturating_add(place), bytes, true)?;
            }
        }
        Ok(())
    }

    fn fronts(&self, results: &mut Vec<String>) -> Result<(), AllocError> {
        for n in 0..self.frame.len() {
            let (front, _) = split(&self.frame, n);
            self.add(results, [b"", front, b""])?;
        }
        Ok(())
    }

    fn times(
        &self,
        results: &mut Vec<String>,
        count: usize,
        bytes: &[u8],
    ) -> Result<(), AllocError> {
        let bytes = bytes.repeat(self.alloc, count)?;
        self.add(results, [b"", &bytes, b""])
    }

    fn directories(
        &self,
        results: &mut Vec<String>,
        count: usize,
        path: &[u8],
    ) -> Result<(), AllocError> {
        let mut text = String::new(self.alloc);
        add_directories(&mut text, self.alloc, count, path)?;
        results.push(text)?;
        Ok(())
    }

    // The result of the frame of these pieces, of which the case is about the second.
    fn add(&self, results: &mut Vec<String>, pieces: [&[u8]; 3]) -> Result<(), AllocError> {
        let bytes = pieces.concat(self.alloc)?;
        let mut text = String::new(self.alloc);
        self.add_result(&mut text, &bytes, pieces[0].len())?;
        results.push(text)?;
        Ok(())
    }

    fn add_result(&self, text: &mut String, bytes: &[u8], place: usize) -> Result<(), AllocError> {
        let frame = Frame {
            alloc: self.alloc,
            bytes,
            place,
            behind: &self.behind,
        };
        match self.kind {
            Kind::Request => add_frame::<RequestReader>(text, &frame),
            Kind::Reply => add_frame::<ReplyReader>(text, &frame),
            Kind::Image => add_image(text, self.alloc, bytes),
        }
    }
}

// Whether the words behind a line's first are those of its form: a name, or a number, in front of the bytes.
fn is_due(word: &str, has_name: bool, has_bytes: bool) -> bool {
    match word {
        "request" | "reply" | "image" | "whole" | "fronts" => !has_bytes,
        "part" | "upto" | "over" | "times" | "directories" => has_name,
        _ => !has_name,
    }
}

fn refill(old: &mut Vec<u8>, bytes: &[u8]) -> Result<(), AllocError> {
    old.clear();
    old.extend_from_slice(bytes)
}

// The first n bytes, or all where there are fewer, and those behind them.
fn split(bytes: &[u8], n: usize) -> (&[u8], &[u8]) {
    bytes.split_at(n.min(bytes.len()))
}
