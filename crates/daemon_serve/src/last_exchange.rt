// The last of a list of exchanges, as it goes on.
ghost use Rattle.std.specs.Prelude.{◌≡◌, ◌≤◌, ◌<◌, ◌+◌, take, drop, length, IfOk, OnOk, OnErr, cond, nat_eq};
ghost use Rattle.base_types.specs.Told.{on_last};
ghost use Rattle.io_edges.specs.Talk.{sending, finishing, taking, ending};
ghost use Rattle.daemon_serve.specs.MemWire.{AtLast, HasReceivedNothing};

use crate::answerer::Answerer;
use base_types::Bytes;
use io_edges::Exchange;
use std::alloc::{AllocError, Global};

// Adds to the bytes sent.
pub(crate) fn send_on(exchanges: &mut Vec<Exchange>, piece: &[u8]) -> Result<(), AllocError>
    ensures ok { OnOk result (exchanges.new.items ≡ on_last (sending piece.now) exchanges.old.items) }
    ensures err { OnErr result (exchanges.new.items ≡ exchanges.old.items) }
{
    match exchanges.last_mut() {
        Some(last) => note_sent(last, piece),
        None => Ok(()),
    }
}

fn note_sent(last: &mut Exchange, piece: &[u8]) -> Result<(), AllocError>
    ensures ok { OnOk result (last.new ≡ sending piece.now last.old) }
    ensures err { OnErr result (last.new ≡ last.old) }
{
    last.sent.extend(piece)
}

// Asks the other side for its answer to the bytes sent.
pub(crate) fn ask<P: Answerer>(
    alloc: Global,
    peer: &mut P,
    exchanges: &mut Vec<Exchange>,
) -> Result<Bytes, AllocError>
    requires { AtLast HasReceivedNothing exchanges.old.items }
    ensures answer { IfOk result (λ answer. AtLast (λ e. P.may e.sent answer) exchanges.old.items) }
    ensures ok { OnOk result (exchanges.new.items ≡ on_last finishing exchanges.old.items) }
    ensures err { OnErr result (exchanges.new.items ≡ exchanges.old.items) }
{
    match exchanges.last_mut() {
        Some(last) => ask_for(alloc, peer, last),
        None => Ok(Bytes::new(alloc)),
    }
}

fn ask_for<P: Answerer>(
    alloc: Global,
    peer: &mut P,
    last: &mut Exchange,
) -> Result<Bytes, AllocError>
    ensures answer { IfOk result (λ answer. P.may last.old.sent answer) }
    ensures ok { OnOk result (last.new ≡ finishing last.old) }
    ensures err { OnErr result (last.new ≡ last.old) }
{
    let answer = peer.answer(alloc, last.sent.as_slice())?;
    last.finished = true;
    Ok(answer)
}

// Gives the next bytes of an answer, or its end.
pub(crate) fn take_on(
    exchanges: &mut Vec<Exchange>,
    answer: &[u8],
    given: &mut usize,
    bound: usize,
    room: &mut [u8],
) -> Result<usize, AllocError>
    requires within { given.old ≤ length answer.now }
    requires bound { 0 < bound }
    requires room { 0 < length room.old }
    ensures ok { IfOk result (λ n. exchanges.new.items ≡ on_last (λ e. cond (nat_eq n 0) (ending e) (taking (take n room.new) e)) exchanges.old.items) }
    ensures bytes { IfOk result (λ n. take n room.new ≡ take n (drop given.old answer.now)) }
    ensures given { IfOk result (λ n. given.new ≡ given.old + n) }
    ensures rest { IfOk result (λ n. given.old + n ≤ length answer.now) }
    ensures room { IfOk result (λ n. n ≤ length room.new) }
    ensures end { IfOk result (λ n. n ≡ 0 → given.old ≡ length answer.now) }
    ensures err { OnErr result (exchanges.new.items ≡ exchanges.old.items) }
    ensures given_err { OnErr result (given.new ≡ given.old) }
{
    let n = (answer.len() - *given).min(room.len()).min(bound);
    room[..n].copy_from_slice(&answer[*given..*given + n]);
    give_on(exchanges, &room[..n])?;
    *given += n;
    Ok(n)
}

// Notes what was taken last, or the end.
fn give_on(exchanges: &mut Vec<Exchange>, piece: &[u8]) -> Result<(), AllocError>
    ensures ok { OnOk result (exchanges.new.items ≡ on_last (λ e. cond (nat_eq (length piece.now) 0) (ending e) (taking piece.now e)) exchanges.old.items) }
    ensures err { OnErr result (exchanges.new.items ≡ exchanges.old.items) }
{
    match exchanges.last_mut() {
        Some(last) => note_taken(last, piece),
        None => Ok(()),
    }
}

fn note_taken(last: &mut Exchange, piece: &[u8]) -> Result<(), AllocError>
    ensures ok { OnOk result (last.new ≡ cond (nat_eq (length piece.now) 0) (ending last.old) (taking piece.now last.old)) }
    ensures err { OnErr result (last.new ≡ last.old) }
{
    if piece.is_empty() {
        last.ended = true;
        return Ok(());
    }
    last.received.extend(piece)
}
