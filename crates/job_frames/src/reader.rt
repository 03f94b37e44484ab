// A reader of requests that is fed in any pieces.
ghost use Rattle.std.specs.Prelude.{◌≡◌, ◌∷◌, [], ◌++◌, ℕ, List, true, false, None};
ghost use Rattle.std.specs.Option.{option_map};
ghost use Rattle.job_frames.specs.Request.{request_at};
ghost use Rattle.job_frames.specs.Outcomes.{IsFed, IsEnded, number_of, reason, whatever_follows, value_of};
ghost use Rattle.job_frames.specs.declared.Fed.TheVariants.{Refused};
ghost use Rattle.job_frames.specs.parts.Readers.{request_of, left};
ghost use Rattle.job_frames.specs.declared.FrameError.{FrameError};

use crate::Fed;
use crate::frame_reader::{FrameReader, begin, end, feed, is_whole};
use crate::request_due::Token;
use crate::request_frame::{RequestFrame, begin_frame};
use base_types::List;
use job_words::Job;
use std::alloc::Global;
use std::marker::Model;
use tree_model::{CanonPath, Entry};

/// Reads a request that comes in any pieces.
#[derive(Drop)]
pub struct RequestReader {
    reader: FrameReader<RequestFrame>,
}

impl Model for RequestReader {
    ghost use Rattle.job_frames.specs.parts.Readers.{Standing};

    ghost Value = { Standing };

    ghost use Rattle.job_frames.specs.parts.Readers.{KeepsRequest};

    ghost view = { λ r. (r.reader.stopped, r.reader.machine.frame.due, r.reader.machine.pending.items, r.reader.machine.frame.read) };

    ghost invariant = { λ r. KeepsRequest r.reader };
}

impl RequestReader {
    /// A reader to which nothing has come.
    pub fn new(alloc: Global) -> Self
        ensures { (bytes : List ℕ) → left result bytes ≡ whatever_follows (request_at bytes) }
    {
        RequestReader {
            reader: begin(alloc, begin_frame(alloc, Token::Version)),
        }
    }

    /// Takes the next piece, and answers the verdict on all bytes so far. A refusal stays, and so does `Done`.
    pub fn feed(&mut self, piece: &[u8]) -> Fed
        ensures fed { IsFed (left self.old) piece.now (left self.new) result }
        ensures stays { (e : FrameError) → result ≡ Refused e → (more : List ℕ) → left self.new more ≡ reason (number_of e) }
    {
        feed(&mut self.reader, true, piece)
    }

    /// Tells that no byte follows: where nothing was wrong, but the request isn't whole, the verdict is `Cut`.
    pub fn end(&mut self) -> Fed
        ensures { IsEnded (left self.old) (left self.new) result }
    {
        end(&mut self.reader, true)
    }

    /// The job and the entries, exactly where the verdict was `Done`. Bytes behind the request don't matter.
    pub fn finish(self) -> Option<(Job, List<(CanonPath, Entry)>)>
        ensures { result ≡ request_of (left self []) }
    {
        let is_whole = is_whole(&self.reader);
        let (job, entries) = self.reader.into_frame().into_parts();
        if !is_whole {
            return None;
        }
        match job {
            Some(job) => Some((job, entries)),
            None => None,
        }
    }
}
