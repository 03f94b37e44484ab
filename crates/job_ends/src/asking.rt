// An exchange with a host, and what its reply says.
ghost use Rattle.std.specs.Prelude.{◌≡◌, ◌<◌, length, false, IfOk};
ghost use Rattle.io_edges.specs.Talk.{EachAnswered};
ghost use Rattle.job_ends.specs.Outside.{seen_end};
ghost use Rattle.job_frames.specs.Outcomes.{nothing_follows, value_of};
ghost use Rattle.job_frames.specs.Spelling.{longest_reply};
ghost use Rattle.job_frames.specs.Reply.{reply_at};
ghost use Rattle.job_ends.specs.Steps.{Asks, AsksWire, Says};

use crate::talking::{Reply, exchange};
use crate::{Cause, End};
use base_types::Bytes;
use io_edges::{Host, LinkFault, LinkState, Outs, Wire};
use job_frames::{Answer, Fed, FrameError, ReplyReader, replies_have_ends, reply_spellings};
use std::alloc::{AllocError, Global};
use tree_model::Tree;

/// What a request came to: a text, a diagnostic, or why the job is to be done locally.
#[derive(Debug, Drop)]
pub enum Replied {
    Text(Bytes),
    Diag(Bytes),
    Failed(Cause),
}

/// Sends a request to a host over a wire, and judges the whole reply. A link that fails is `Link`, want of memory here
/// `Memory` and at the host `DaemonMemory`, and a reply that is no text, no diagnostic and no want of memory is `Peer`.
pub fn ask_wire<W: Wire>(alloc: Global, wire: &mut W, host: &Host, request: &[u8]) -> Replied
    requires closed { W.state wire.old ≡ LinkState.Closed }
    requires answered { EachAnswered W.peer (W.talk wire.old) }
    ensures closed { W.state wire.new ≡ LinkState.Closed }
    ensures answered { EachAnswered W.peer (W.talk wire.new) }
    ensures asked { AsksWire host.now request.now (W.talk wire.old) (W.talk wire.new) (W.faults wire.old) (W.faults wire.new) result }
{
    match exchange(alloc, wire, host, request) {
        Ok(reply) => return judge(alloc, reply),
        Err(LinkFault::Down) => return Replied::Failed(Cause::Link),
        Err(LinkFault::Memory) => return Replied::Failed(Cause::Memory),
    }
}

/// Sends a request to a host over the end's wire, as `ask_wire`.
pub fn ask_host<T: Tree, W: Wire, O: Outs>(
    alloc: Global,
    end: &mut End<T, W, O>,
    host: &Host,
    request: &[u8],
) -> Replied
    requires closed { W.state end.old.wire ≡ LinkState.Closed }
    requires answered { EachAnswered W.peer (W.talk end.old.wire) }
    ensures closed { W.state end.new.wire ≡ LinkState.Closed }
    ensures answered { EachAnswered W.peer (W.talk end.new.wire) }
    ensures tree { end.new.tree ≡ end.old.tree }
    ensures outs { end.new.outs ≡ end.old.outs }
    ensures asked { let seen = seen_end T.told T.Tree.faults T.reads W.talk W.state W.Wire.faults O.kept O.Outs.faults in
        Asks host.now request.now (seen end.old) (seen end.new) result }
{
    ask_wire(alloc, &mut end.wire, host, request)
}

// What a reply says. One that didn't end is longer than every reply.
fn judge(alloc: Global, reply: Reply) -> Replied
    requires { reply.ended ≡ false → longest_reply < length reply.bytes }
    ensures { Says reply.bytes reply.ended result }
{
    reply_spellings();
    replies_have_ends();
    if !reply.ended {
        return Replied::Failed(Cause::Peer);
    }
    match read_reply(alloc, reply.bytes.as_slice()) {
        Ok(Some(Answer::Text(text))) => return Replied::Text(text),
        Ok(Some(Answer::Diag(words))) => return Replied::Diag(words),
        Ok(Some(Answer::Refused(reason))) => {
            if reason == 1 {
                return Replied::Failed(Cause::DaemonMemory);
            }
            return Replied::Failed(Cause::Peer);
        }
        Ok(None) => return Replied::Failed(Cause::Peer),
        Err(_) => return Replied::Failed(Cause::Memory),
    }
}

// The answer that the bytes of a whole reply give, where they give one.
fn read_reply(alloc: Global, bytes: &[u8]) -> Result<Option<Answer>, AllocError>
    ensures { IfOk result (λ answer. answer ≡ value_of (nothing_follows (reply_at bytes.now))) }
{
    let mut reader = ReplyReader::new(alloc);
    if wants_memory(reader.feed(bytes)) {
        return Err(AllocError);
    }
    reader.end();
    Ok(reader.finish())
}

fn wants_memory(fed: Fed) -> bool
    ensures { result ≡ false → fed ≡ Fed.Refused FrameError.Memory → ⊥ }
{
    fed == Fed::Refused(FrameError::Memory)
}
