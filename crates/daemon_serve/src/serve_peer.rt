// The daemon as the other side of a wire in memory.
ghost use Rattle.std.specs.Prelude.{IfOk};
ghost use Rattle.job_frames.specs.Daemon.{Daemon};
ghost use Rattle.daemon_answers.specs.Answers.{Answers};

use crate::answerer::Answerer;
use crate::buffer_sink::BufferSink;
use crate::piece_source::PieceSource;
use crate::replying::refusal_bytes;
use crate::serving::{Served, serve};
use base_types::Bytes;
use job_frames::FrameError;
use std::alloc::{AllocError, Global};

/// The daemon as the other side of a wire in memory. A whole request is answered by what preprocessing its job over the
/// tree of its entries gives, a text or a diagnostic; bytes behind it don't matter. All else is answered by a refusal: by
/// the reason of the first byte that is wrong, or 9 where the bytes end too early. Reason 1 is want of memory, and an
/// error comes only where even the refusal found none.
#[derive(Clone, Copy, Drop)]
pub struct ServePeer;

impl Answerer for ServePeer {
    ghost may = { Daemon Answers };

    fn answer(&mut self, alloc: Global, sent: &[u8]) -> Result<Bytes, AllocError>
        ensures { IfOk result (λ answer. Daemon Answers sent.now answer) }
    {
        let mut source = PieceSource::new(sent, Vec::new(alloc));
        let mut sink = BufferSink::new(alloc);
        match serve(alloc, &mut source, &mut sink) {
            Served::Replied => return Ok(sink.into_bytes()),
            Served::Refused(_) => return Ok(sink.into_bytes()),
            _ => return Bytes::copy_of(alloc, refusal_bytes(FrameError::Memory)),
        }
    }
}
