// A reader of replies that is fed in any pieces.
ghost use Rattle.std.specs.Prelude.{◌≡◌, [], ℕ, List};
ghost use Rattle.job_frames.specs.Reply.{reply_at};
ghost use Rattle.job_frames.specs.Outcomes.{IsFed, IsEnded, nothing_follows, value_of};
ghost use Rattle.job_frames.specs.parts.ReplyReaders.{reply_left};

use crate::frame_reader::{FrameReader, begin, end, feed, is_whole};
use crate::reply_frame::{ReplyFrame, begin_reply};
use crate::{Answer, Fed};
use std::alloc::Global;
use std::marker::Model;

/// Reads a reply that comes in any pieces, as docs/FORMATS.md says under "Frames". A text (at most 67,108,864 bytes) or a
/// diagnostic (at most 65,536) is gathered in one buffer, which `finish` hands out; a length reserves nothing before its
/// bytes come.
#[derive(Drop)]
pub struct ReplyReader {
    reader: FrameReader<ReplyFrame>,
}

impl Model for ReplyReader {
    ghost use Rattle.job_frames.specs.parts.ReplyReaders.{ReplyStanding};

    ghost Value = { ReplyStanding };

    ghost use Rattle.job_frames.specs.parts.ReplyReaders.{KeepsReply, reply_stands};

    ghost view = { λ r. reply_stands r.reader };

    ghost invariant = { λ r. KeepsReply r.reader };
}

impl ReplyReader {
    /// A reader to which nothing has come.
    pub fn new(alloc: Global) -> Self
        ensures { (bytes : List ℕ) → reply_left result bytes ≡ nothing_follows (reply_at bytes) }
    {
        ReplyReader {
            reader: begin(alloc, begin_reply()),
        }
    }

    /// Takes the next piece, and answers the verdict on all bytes so far: `Version`, `Token`, `Digits`, `Limit` or `Order` by
    /// the first byte that is wrong, of which `Order` is also a byte behind a whole reply; `Memory` where none was found.
    /// A refusal stays.
    pub fn feed(&mut self, piece: &[u8]) -> Fed
        ensures { IsFed (reply_left self.old) piece.now (reply_left self.new) result }
    {
        feed(&mut self.reader, false, piece)
    }

    /// Tells that no byte follows: where nothing was wrong, but the reply isn't whole, the verdict is `Cut`.
    pub fn end(&mut self) -> Fed
        ensures { IsEnded (reply_left self.old) (reply_left self.new) result }
    {
        end(&mut self.reader, false)
    }

    /// The answer, exactly where the verdict was `Done`. It takes no memory.
    pub fn finish(self) -> Option<Answer>
        ensures { result ≡ value_of (reply_left self []) }
    {
        let is_whole = is_whole(&self.reader);
        let answer = self.reader.into_frame().into_answer();
        if is_whole { answer } else { None }
    }
}
