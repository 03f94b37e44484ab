// One exchange with a daemon, over any wire.
ghost use Rattle.std.specs.Prelude.{◌≡◌, ◌<◌, ℕ, ◌∷◌, [], List, length, take, IfOk, OnOk, OnErr, Bool, false};
ghost use Rattle.base_types.specs.Causes.{HasCause};
ghost use Rattle.base_types.specs.Told.{added};
ghost use Rattle.io_edges.specs.Talk.{sending, taking, finishing, on_current, EachAnswered};
ghost use Rattle.job_frames.specs.Spelling.{longest_reply};
ghost use Rattle.job_ends.specs.Exchange.{replied, Began, ended_if, partly};

use base_types::Bytes;
use base_types::limits::TEXT_LIMIT;
use io_edges::{Host, LinkFault, LinkState, Wire};
use std::alloc::Global;

// A request is sent in pieces of at most so many bytes.
const PIECE: usize = 65_536;

// One byte more than the longest reply has: four tokens and a text.
const REPLY_LIMIT: usize = TEXT_LIMIT + 49;

/// The bytes that were received, and whether the host said that they are all. Where it didn't, they are more than any
/// reply has.
#[derive(Debug, Drop)]
pub struct Reply {
    pub bytes: Bytes,
    pub ended: bool,
}

/// Dials the host, sends the whole request, takes the reply to its end or beyond the length of every reply, and closes
/// the link in any case. `Down`: the link failed, and its count of faults rose in this call. `Memory`: no memory was
/// found, by the link or for the reply.
pub fn exchange<W: Wire>(
    alloc: Global,
    wire: &mut W,
    host: &Host,
    request: &[u8],
) -> Result<Reply, LinkFault>
    requires closed { W.state wire.old ≡ LinkState.Closed }
    requires answered { EachAnswered W.peer (W.talk wire.old) }
    ensures ok { IfOk result (λ reply. W.talk wire.new ≡ added (replied host.now request.now reply.bytes reply.ended ∷ []) (W.talk wire.old)) }
    ensures whole { IfOk result (λ reply. reply.ended ≡ false → longest_reply < length reply.bytes) }
    ensures err { OnErr result ((tried : _) × (W.talk wire.new ≡ added tried (W.talk wire.old)) × Began host.now request.now tried) }
    ensures closed { W.state wire.new ≡ LinkState.Closed }
    ensures answered { EachAnswered W.peer (W.talk wire.new) }
    ensures cause { HasCause LinkFault.Down (W.faults wire.old) (W.faults wire.new) result }
{
    wire.dial(host)?;
    let outcome = dialled_exchange(alloc, wire, request);
    wire.close();
    match outcome {
        Ok(reply) => return Ok(reply),
        Err(refused) => return Err(refused),
    }
}

// The exchange from its dial to its close.
fn dialled_exchange<W: Wire>(
    alloc: Global,
    wire: &mut W,
    request: &[u8],
) -> Result<Reply, LinkFault>
    requires { W.state wire.old ≡ LinkState.Sending }
    ensures ok { IfOk result (λ reply. W.talk wire.new ≡ on_current (λ e. ended_if reply.ended (taking reply.bytes (finishing (sending request.now e)))) (W.talk wire.old)) }
    ensures whole { IfOk result (λ reply. reply.ended ≡ false → longest_reply < length reply.bytes) }
    ensures err { OnErr result ((n : ℕ) × ((received : List ℕ) × ((finished : Bool) × (W.talk wire.new ≡ on_current (partly (take n request.now) received finished) (W.talk wire.old))))) }
    ensures answered { EachAnswered W.peer (W.talk wire.old) → EachAnswered W.peer (W.talk wire.new) }
    ensures cause { HasCause LinkFault.Down (W.faults wire.old) (W.faults wire.new) result }
{
    if let Err(refused) = send_all(wire, request) {
        return Err(refused);
    }
    if let Err(refused) = wire.finish() {
        return Err(refused);
    }
    match take_all(alloc, wire) {
        Ok(reply) => return Ok(reply),
        Err(refused) => return Err(refused),
    }
}

// Sends all bytes, in pieces.
fn send_all<W: Wire>(wire: &mut W, request: &[u8]) -> Result<(), LinkFault>
    requires { W.state wire.old ≡ LinkState.Sending }
    ensures ok { OnOk result (W.talk wire.new ≡ on_current (sending request.now) (W.talk wire.old)) }
    ensures err { OnErr result ((n : ℕ) × (W.talk wire.new ≡ on_current (sending (take n request.now)) (W.talk wire.old))) }
    ensures state { W.state wire.new ≡ LinkState.Sending }
    ensures answered { EachAnswered W.peer (W.talk wire.old) → EachAnswered W.peer (W.talk wire.new) }
    ensures cause { HasCause LinkFault.Down (W.faults wire.old) (W.faults wire.new) result }
{
    let mut at = 0;
    while at < request.len() {
        let end = at + PIECE.min(request.len() - at);
        if let Err(refused) = wire.send(&request[at..end]) {
            return Err(refused);
        }
        at = end;
    }
    Ok(())
}

// Takes the reply to its end, or beyond the length of every reply.
fn take_all<W: Wire>(alloc: Global, wire: &mut W) -> Result<Reply, LinkFault>
    requires { W.state wire.old ≡ LinkState.Taking }
    ensures ok { IfOk result (λ reply. W.talk wire.new ≡ on_current (λ e. ended_if reply.ended (taking reply.bytes e)) (W.talk wire.old)) }
    ensures whole { IfOk result (λ reply. reply.ended ≡ false → longest_reply < length reply.bytes) }
    ensures err { OnErr result ((received : List ℕ) × (W.talk wire.new ≡ on_current (taking received) (W.talk wire.old))) }
    ensures answered { EachAnswered W.peer (W.talk wire.old) → EachAnswered W.peer (W.talk wire.new) }
    ensures cause { HasCause LinkFault.Down (W.faults wire.old) (W.faults wire.new) result }
{
    let mut bytes = Bytes::new(alloc);
    let mut room = [0u8; 16_384];
    while bytes.len() < REPLY_LIMIT {
        let n = match wire.take(&mut room) {
            Ok(n) => n,
            Err(refused) => return Err(refused),
        };
        if n == 0 {
            return Ok(Reply { bytes, ended: true });
        }
        if let Err(_) = bytes.extend(&room[..n]) {
            return Err(LinkFault::Memory);
        }
    }
    Ok(Reply {
        bytes,
        ended: false,
    })
}
