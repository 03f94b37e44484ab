// Serving one request.
ghost use Rattle.std.specs.Prelude.{◌≡◌};
ghost use Rattle.daemon_answers.specs.Answers.{Answers};
ghost use Rattle.daemon_serve.specs.parts.Parts.{fault_served, IsUnserved};
ghost use Rattle.daemon_serve.specs.Serving.{IsServed, IsServedExactly};

use crate::preprocessing::Preprocessing;
use crate::reading::{NoRequest, read_request};
use crate::replier::Replier;
use crate::replying::{refuse, reply_to};
use io_edges::{Sink, Source, WriteFault};
use job_frames::request_spellings;
use std::alloc::Global;

/// How serving a request ended. `Replied`: the whole reply to a whole request was put. `Refused`: the refusal of this number was
/// put; from 2 to 8 it is the reason of the first wrong byte of those read, and 9 says that the source ended before the request
/// did. `ReadFault`: the source failed, and nothing was put. `WriteFault`: the sink failed, and a front of the reply may have been
/// put. `Memory`: no memory was found; the refusal of number 1 was put, or a front of what was to be put where the sink found none.
#[derive(Clone, Copy, Debug, PartialEq, Eq, Drop)]
pub enum Served {
    Replied,
    Refused(u8),
    ReadFault,
    WriteFault,
    Memory,
}

/// Reads one request, builds the tree of its entries, preprocesses its job over that tree alone, and puts one reply. The
/// request is read in pieces of at most 65,536 bytes, and no further once it is whole or refused; bytes behind its end that came with
/// its last piece are ignored.
pub fn serve<S: Source, K: Sink>(alloc: Global, source: &mut S, sink: &mut K) -> Served
    ensures { IsServed Answers (S.left source.old) (S.left source.new) (S.Source.faults source.old) (S.Source.faults source.new) (K.held sink.old) (K.held sink.new) (K.Sink.faults sink.old) (K.Sink.faults sink.new) result }
{
    serve_with(alloc, &mut Preprocessing { last: false }, source, sink)
}

/// Serves one request as `serve` does, with any answer to a whole one.
pub fn serve_with<S: Source, K: Sink, R: Replier>(
    alloc: Global,
    replier: &mut R,
    source: &mut S,
    sink: &mut K,
) -> Served
    ensures { IsServed R.may (S.left source.old) (S.left source.new) (S.Source.faults source.old) (S.Source.faults source.new) (K.held sink.old) (K.held sink.new) (K.Sink.faults sink.old) (K.Sink.faults sink.new) result }
{
    match serve_exactly(alloc, replier, source, sink) {
        Ok(served) => return served,
        Err(fault) => return stopped(fault),
    }
}

/// Serves one request as `serve_with` does, and tells the sink's errors from the other ends. So `Ok` says exactly what was put: for
/// `Replied` the whole reply, for `Refused` and `Memory` the whole refusal, for `ReadFault` nothing; it is never `WriteFault`. `Err`
/// is the sink's own error, and a front of the reply may have been put.
pub fn serve_exactly<S: Source, K: Sink, R: Replier>(
    alloc: Global,
    replier: &mut R,
    source: &mut S,
    sink: &mut K,
) -> Result<Served, WriteFault>
    ensures { IsServedExactly R.may (S.left source.old) (S.left source.new) (S.Source.faults source.old) (S.Source.faults source.new) (K.held sink.old) (K.held sink.new) (K.Sink.faults sink.old) (K.Sink.faults sink.new) result }
{
    request_spellings();
    match read_request(alloc, source) {
        Ok((job, entries)) => return reply_to(alloc, replier, sink, job, entries),
        Err(why) => return unserved(sink, why),
    }
}

// Puts a refusal, or nothing where the source failed.
fn unserved<K: Sink>(sink: &mut K, why: NoRequest) -> Result<Served, WriteFault>
    ensures { IsUnserved why (K.held sink.old) (K.held sink.new) (K.faults sink.old) (K.faults sink.new) result }
{
    match why {
        NoRequest::Fault => return Ok(Served::ReadFault),
        NoRequest::Refused(why) => return refuse(sink, why),
    }
}

// How serving ends where the sink doesn't take the reply.
fn stopped(fault: WriteFault) -> Served
    ensures { result ≡ fault_served fault }
{
    match fault {
        WriteFault::Fault => Served::WriteFault,
        WriteFault::Memory => Served::Memory,
    }
}
