// Reading one request from a source.
ghost use Rattle.std.specs.Prelude.{◌≡◌, ℕ, List, [], Some};
ghost use Rattle.job_frames.specs.parts.Readers.{left, request_of};
ghost use Rattle.daemon_serve.specs.Serving.{verdict_on};
ghost use Rattle.daemon_serve.specs.parts.Parts.{HasWhole, IsRequestFed, IsRequestRead};

use base_types::List;
use base_types::limits::REQUEST_LIMIT;
use io_edges::Source;
use job_frames::{Fed, FrameError, RequestReader, request_spellings, request_trees};
use job_words::Job;
use std::alloc::Global;
use tree_model::{CanonPath, Entry};

// A source is read in pieces of at most so many bytes.
const PIECE: usize = 16_384;

// Why no request was read: the source failed, or the bytes are refused.
#[derive(Drop)]
pub(crate) enum NoRequest {
    Fault,
    Refused(FrameError),
}

// Reads a request, and no piece more once it is whole or refused.
#[tactic(auto, using(crate::proofs::RequestReads::none_read))]
pub(crate) fn read_request<S: Source>(
    alloc: Global,
    source: &mut S,
) -> Result<(Job, List<(CanonPath, Entry)>), NoRequest>
    ensures { IsRequestRead (S.left source.old) (S.left source.new) (S.faults source.old) (S.faults source.new) result }
{
    request_spellings();
    request_trees();
    let mut reader = RequestReader::new(alloc);
    match feed_from(source, &mut reader) {
        Ok(()) => Ok(finished(reader)),
        Err(why) => Err(why),
    }
}

// Feeds a reader, to which nothing has come, from a source, until a request is whole or refused.
fn feed_from<S: Source>(source: &mut S, reader: &mut RequestReader) -> Result<(), NoRequest>
    requires { (bytes : List ℕ) → left reader.old bytes ≡ verdict_on bytes }
    ensures { IsRequestFed (S.left source.old) (S.left source.new) (S.faults source.old) (S.faults source.new) (left reader.new) result }
{
    request_spellings();
    let mut room = [0u8; PIECE];
    for _ in 0..=REQUEST_LIMIT as u32 {
        let n = match source.take(&mut room) {
            Ok(n) => n,
            Err(_) => return Err(NoRequest::Fault),
        };
        if n == 0 {
            return Err(NoRequest::Refused(FrameError::Cut));
        }
        match reader.feed(&room[..n]) {
            Fed::More => {}
            Fed::Done => return Ok(()),
            Fed::Refused(why) => return Err(NoRequest::Refused(why)),
        }
    }
    // Each turn reads a byte or more, so that the turns never run out: no request is longer.
    Err(NoRequest::Refused(FrameError::Memory))
}

// The request of a reader to which a whole one has come.
fn finished(reader: RequestReader) -> (Job, List<(CanonPath, Entry)>)
    requires { HasWhole (left reader) }
    ensures { request_of (left reader []) ≡ Some result }
{
    request_spellings();
    match reader.finish() {
        Some((job, entries)) => (job, entries),
        None => unreachable!(),
    }
}
