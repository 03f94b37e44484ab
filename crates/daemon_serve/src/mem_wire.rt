// A wire whose other side is an answerer in memory.
ghost use Rattle.std.specs.Prelude.{◌≡◌, ◌≤◌, ◌<◌, ℕ, [], ◌++◌, ◌∷◌, take, length, Some, IfOk, OnOk, OnErr, All, cond, nat_eq, IsErrOf};
ghost use Rattle.std.specs.Io.{ReadsAtMost};
ghost use Rattle.base_types.specs.Calls.{FailsAsListed};
ghost use Rattle.base_types.specs.Causes.{HasCause};
ghost use Rattle.base_types.specs.Told.{added};
ghost use Rattle.io_edges.specs.Talk.{dialled, sending, finishing, taking, ending, on_current, EachAnswered};
ghost use Rattle.daemon_serve.specs.MemWire.{wire_calls, dial_made, call_made, last_call};

use crate::answerer::Answerer;
use crate::exchange_calls::ExchangeCalls;
use crate::last_exchange::{ask, send_on, take_on};
use crate::pieces::Pieces;
use base_types::Bytes;
use io_edges::{Exchange, Host, LinkFault, LinkState, Wire};
use std::alloc::{AllocError, Global};
use std::marker::Model;

/// A wire in memory, whose other side is the answerer: it is asked once an exchange was finished.
#[derive(Drop)]
pub struct MemWire<P: Answerer> {
    alloc: Global,
    peer: P,
    pieces: Pieces,
    calls: ExchangeCalls,
    exchanges: Vec<Exchange>,
    // What the other side answered, and how much of it was given.
    answer: Bytes,
    given: usize,
    state: LinkState,
}

impl<P: Answerer> Model for MemWire<P> {
    ghost use Rattle.daemon_serve.specs.MemWire.{Line, wire_calls, WireHolds};

    ghost Value = { Line };

    ghost view = { λ w. record { talk = w.exchanges.items; state = w.state; faults = w.calls.failing.faults; calls = wire_calls w.calls.dials w.calls.exchange w.calls.made w.calls.failing.fails } };

    ghost invariant = { λ w. WireHolds P.may w.exchanges.items w.answer w.given w.state };
}

impl<P: Answerer> MemWire<P> {
    /// A wire that was never dialled. `pieces` are the greatest lengths of what `take` gives, used in a circle; none
    /// sets no bound. A member (e, c) of `failing` is the call c, from 1, of the exchange e, from 0: an exchange's
    /// calls are dial, send, finish and take, and its number is that of the dials before it, refused ones included.
    pub fn new(alloc: Global, peer: P, pieces: Vec<u32>, failing: Vec<(u32, u32)>) -> MemWire<P>
        requires { All (λ n. 0 < n) pieces.items }
        ensures talk { result.talk ≡ [] }
        ensures state { result.state ≡ LinkState.Closed }
        ensures faults { result.faults ≡ 0 }
        ensures calls { result.calls ≡ wire_calls 0 0 0 failing.items }
    {
        MemWire {
            alloc,
            peer,
            pieces: Pieces::new(pieces),
            calls: ExchangeCalls::new(failing),
            exchanges: Vec::new(alloc),
            answer: Bytes::new(alloc),
            given: 0,
            state: LinkState::Closed,
        }
    }

    /// The exchanges in order, refused dials left out.
    pub fn exchanges(&self) -> &[Exchange]
        ensures { result.now ≡ self.now.talk }
    {
        &self.exchanges
    }
}

impl<P: Answerer> Wire for MemWire<P> {
    ghost talk = { λ w. Some w.talk };

    ghost peer = { P.may };

    ghost state = { λ w. w.state };

    ghost faults = { λ w. w.faults };

    fn dial(&mut self, host: &Host) -> Result<(), LinkFault>
        requires { ⟦<MemWire<P> as Wire>⟧.state self.old ≡ LinkState.Closed }
        ensures ok { OnOk result (⟦<MemWire<P> as Wire>⟧.talk self.new ≡ added (dialled host.now ∷ []) (⟦<MemWire<P> as Wire>⟧.talk self.old)) }
        ensures opened { OnOk result (⟦<MemWire<P> as Wire>⟧.state self.new ≡ LinkState.Sending) }
        ensures err { OnErr result (⟦<MemWire<P> as Wire>⟧.talk self.new ≡ ⟦<MemWire<P> as Wire>⟧.talk self.old) }
        ensures still { OnErr result (⟦<MemWire<P> as Wire>⟧.state self.new ≡ ⟦<MemWire<P> as Wire>⟧.state self.old) }
        ensures answered { EachAnswered P.may (⟦<MemWire<P> as Wire>⟧.talk self.new) }
        ensures cause { HasCause LinkFault.Down (⟦<MemWire<P> as Wire>⟧.faults self.old) (⟦<MemWire<P> as Wire>⟧.faults self.new) result }
        ensures no_fault { (IsErrOf result LinkFault.Down → ⊥) → ⟦<MemWire<P> as Wire>⟧.faults self.new ≡ ⟦<MemWire<P> as Wire>⟧.faults self.old }
        ensures listed { FailsAsListed LinkFault.Down self.new.calls.failing (last_call self.new.calls) result }
        ensures counted { self.new.calls ≡ dial_made self.old.calls }
    {
        if self.calls.dial_fails() {
            return Err(LinkFault::Down);
        }
        if begin(self.alloc, &mut self.exchanges, host).is_err() {
            return Err(LinkFault::Memory);
        }
        self.state = LinkState::Sending;
        Ok(())
    }

    fn send(&mut self, piece: &[u8]) -> Result<(), LinkFault>
        requires { ⟦<MemWire<P> as Wire>⟧.state self.old ≡ LinkState.Sending }
        ensures ok { OnOk result (⟦<MemWire<P> as Wire>⟧.talk self.new ≡ on_current (sending piece.now) (⟦<MemWire<P> as Wire>⟧.talk self.old)) }
        ensures err { OnErr result ((n : ℕ) × (⟦<MemWire<P> as Wire>⟧.talk self.new ≡ on_current (sending (take n piece.now)) (⟦<MemWire<P> as Wire>⟧.talk self.old))) }
        ensures still { ⟦<MemWire<P> as Wire>⟧.state self.new ≡ ⟦<MemWire<P> as Wire>⟧.state self.old }
        ensures answered { EachAnswered P.may (⟦<MemWire<P> as Wire>⟧.talk self.new) }
        ensures cause { HasCause LinkFault.Down (⟦<MemWire<P> as Wire>⟧.faults self.old) (⟦<MemWire<P> as Wire>⟧.faults self.new) result }
        ensures no_fault { (IsErrOf result LinkFault.Down → ⊥) → ⟦<MemWire<P> as Wire>⟧.faults self.new ≡ ⟦<MemWire<P> as Wire>⟧.faults self.old }
        ensures listed { FailsAsListed LinkFault.Down self.new.calls.failing (last_call self.new.calls) result }
        ensures counted { self.new.calls ≡ call_made self.old.calls }
    {
        if self.calls.next_fails() {
            return Err(LinkFault::Down);
        }
        if send_on(&mut self.exchanges, piece).is_err() {
            return Err(LinkFault::Memory);
        }
        Ok(())
    }

    fn finish(&mut self) -> Result<(), LinkFault>
        requires { ⟦<MemWire<P> as Wire>⟧.state self.old ≡ LinkState.Sending }
        ensures ok { OnOk result (⟦<MemWire<P> as Wire>⟧.talk self.new ≡ on_current finishing (⟦<MemWire<P> as Wire>⟧.talk self.old)) }
        ensures finished { OnOk result (⟦<MemWire<P> as Wire>⟧.state self.new ≡ LinkState.Taking) }
        ensures err { OnErr result (⟦<MemWire<P> as Wire>⟧.talk self.new ≡ ⟦<MemWire<P> as Wire>⟧.talk self.old) }
        ensures still { OnErr result (⟦<MemWire<P> as Wire>⟧.state self.new ≡ ⟦<MemWire<P> as Wire>⟧.state self.old) }
        ensures answered { EachAnswered P.may (⟦<MemWire<P> as Wire>⟧.talk self.new) }
        ensures cause { HasCause LinkFault.Down (⟦<MemWire<P> as Wire>⟧.faults self.old) (⟦<MemWire<P> as Wire>⟧.faults self.new) result }
        ensures no_fault { (IsErrOf result LinkFault.Down → ⊥) → ⟦<MemWire<P> as Wire>⟧.faults self.new ≡ ⟦<MemWire<P> as Wire>⟧.faults self.old }
        ensures listed { FailsAsListed LinkFault.Down self.new.calls.failing (last_call self.new.calls) result }
        ensures counted { self.new.calls ≡ call_made self.old.calls }
    {
        if self.calls.next_fails() {
            return Err(LinkFault::Down);
        }
        match ask(self.alloc, &mut self.peer, &mut self.exchanges) {
            Ok(answer) => {
                self.answer = answer;
                self.given = 0;
                self.state = LinkState::Taking;
                return Ok(());
            }
            Err(_) => return Err(LinkFault::Memory),
        }
    }

    fn take(&mut self, room: &mut [u8]) -> Result<usize, LinkFault>
        requires state { ⟦<MemWire<P> as Wire>⟧.state self.old ≡ LinkState.Taking }
        requires room { 0 < length room.old }
        ensures bound { ReadsAtMost result room.new }
        ensures ok { IfOk result (λ n. ⟦<MemWire<P> as Wire>⟧.talk self.new ≡ on_current (λ e. cond (nat_eq n 0) (ending e) (taking (take n room.new) e)) (⟦<MemWire<P> as Wire>⟧.talk self.old)) }
        ensures err { OnErr result (⟦<MemWire<P> as Wire>⟧.talk self.new ≡ ⟦<MemWire<P> as Wire>⟧.talk self.old) }
        ensures still { ⟦<MemWire<P> as Wire>⟧.state self.new ≡ ⟦<MemWire<P> as Wire>⟧.state self.old }
        ensures answered { EachAnswered P.may (⟦<MemWire<P> as Wire>⟧.talk self.new) }
        ensures cause { HasCause LinkFault.Down (⟦<MemWire<P> as Wire>⟧.faults self.old) (⟦<MemWire<P> as Wire>⟧.faults self.new) result }
        ensures no_fault { (IsErrOf result LinkFault.Down → ⊥) → ⟦<MemWire<P> as Wire>⟧.faults self.new ≡ ⟦<MemWire<P> as Wire>⟧.faults self.old }
        ensures listed { FailsAsListed LinkFault.Down self.new.calls.failing (last_call self.new.calls) result }
        ensures counted { self.new.calls ≡ call_made self.old.calls }
    {
        if self.calls.next_fails() {
            return Err(LinkFault::Down);
        }
        let bound = self.pieces.next_bound();
        match take_on(
            &mut self.exchanges,
            self.answer.as_slice(),
            &mut self.given,
            bound,
            room,
        ) {
            Ok(n) => return Ok(n),
            Err(_) => return Err(LinkFault::Memory),
        }
    }

    fn close(&mut self)
        ensures closed { ⟦<MemWire<P> as Wire>⟧.state self.new ≡ LinkState.Closed }
        ensures same { ⟦<MemWire<P> as Wire>⟧.talk self.new ≡ ⟦<MemWire<P> as Wire>⟧.talk self.old }
        ensures later { ⟦<MemWire<P> as Wire>⟧.faults self.old ≤ ⟦<MemWire<P> as Wire>⟧.faults self.new }
        ensures no_fault { ⟦<MemWire<P> as Wire>⟧.faults self.new ≡ ⟦<MemWire<P> as Wire>⟧.faults self.old }
        ensures calls { self.new.calls ≡ self.old.calls }
    {
        self.state = LinkState::Closed;
    }
}

// Adds an exchange of which nothing was sent yet.
fn begin(alloc: Global, exchanges: &mut Vec<Exchange>, host: &Host) -> Result<(), AllocError>
    ensures ok { OnOk result (exchanges.new.items ≡ exchanges.old.items ++ dialled host.now ∷ []) }
    ensures err { OnErr result (exchanges.new.items ≡ exchanges.old.items) }
{
    let name = Bytes::copy_of(alloc, host.name.as_slice())?;
    exchanges.push(Exchange {
        host: Host {
            name,
            port: host.port,
            limit: host.limit,
        },
        sent: Bytes::new(alloc),
        received: Bytes::new(alloc),
        finished: false,
        ended: false,
    })?;
    Ok(())
}
