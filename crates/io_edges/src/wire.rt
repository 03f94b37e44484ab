// The link to a host, as a list of exchanges.
ghost use Rattle.std.specs.Prelude.{◌≡◌, ◌≤◌, ◌<◌, ℕ, List, ◌∷◌, [], length, take, Option, IfOk, OnOk, OnErr, cond, nat_eq};
ghost use Rattle.std.specs.Io.{ReadsAtMost};
ghost use Rattle.base_types.specs.Causes.{HasCause};
ghost use Rattle.base_types.specs.Told.{added};

use base_types::Bytes;

/// A host that answers requests: its name, its port, and how many requests it takes at a time.
#[derive(Debug, Drop)]
pub struct Host {
    pub name: Bytes,
    pub port: u16,
    pub limit: u32,
}

/// What was sent to a host and received from it, from one dial to the next.
#[derive(Debug, Drop)]
pub struct Exchange {
    pub host: Host,
    pub sent: Bytes,
    pub received: Bytes,
    /// Nothing more is sent.
    pub finished: bool,
    /// The host said that nothing more comes.
    pub ended: bool,
}

#[derive(Clone, Copy, Debug, PartialEq, Eq, Drop)]
pub enum LinkState {
    Closed,
    /// After a dial.
    Sending,
    /// After the last piece was sent.
    Taking,
}

#[derive(Clone, Copy, Debug, PartialEq, Eq, Drop)]
pub enum LinkFault {
    /// The link broke, or none came about.
    Down,
    /// There was no memory for the call.
    Memory,
}

/// A link to one host at a time: dial, pieces to send, finish, pieces to take, close.
pub trait Wire {
    ghost use Rattle.std.specs.Prelude as list;
    ghost use Rattle.io_edges.specs.declared.wire.Exchange as exchange;
    ghost use Rattle.io_edges.specs.declared.wire.LinkState as state_of;
    ghost use Rattle.io_edges.specs.Talk.{dialled, sending, finishing, taking, ending, on_current, EachAnswered};

    /// The exchanges in order, or None where the wire doesn't tell them.
    ghost talk: { Self → Option (List exchange.Exchange) };

    /// Which answers the other side may give to the bytes sent. One that isn't told may give any.
    ghost peer: { List ℕ → List ℕ → Type 0 };

    ghost state: { Self → state_of.LinkState };

    /// How often a call failed.
    ghost faults: { Self → ℕ };

    /// Begins an exchange.
    fn dial(&mut self, host: &Host) -> Result<(), LinkFault>
        requires { state self.old ≡ LinkState.Closed }
        ensures ok { OnOk result (talk self.new ≡ added (dialled host.now ∷ []) (talk self.old)) }
        ensures opened { OnOk result (state self.new ≡ LinkState.Sending) }
        ensures err { OnErr result (talk self.new ≡ talk self.old) }
        ensures still { OnErr result (state self.new ≡ state self.old) }
        ensures answered { EachAnswered peer (talk self.new) }
        ensures cause { HasCause LinkFault.Down (faults self.old) (faults self.new) result };

    /// Sends a piece. A refused one may have been sent in part.
    fn send(&mut self, piece: &[u8]) -> Result<(), LinkFault>
        requires { state self.old ≡ LinkState.Sending }
        ensures ok { OnOk result (talk self.new ≡ on_current (sending piece.now) (talk self.old)) }
        ensures err { OnErr result ((n : ℕ) × (talk self.new ≡ on_current (sending (take n piece.now)) (talk self.old))) }
        ensures still { state self.new ≡ state self.old }
        ensures answered { EachAnswered peer (talk self.new) }
        ensures cause { HasCause LinkFault.Down (faults self.old) (faults self.new) result };

    /// Says that nothing more is sent.
    fn finish(&mut self) -> Result<(), LinkFault>
        requires { state self.old ≡ LinkState.Sending }
        ensures ok { OnOk result (talk self.new ≡ on_current finishing (talk self.old)) }
        ensures finished { OnOk result (state self.new ≡ LinkState.Taking) }
        ensures err { OnErr result (talk self.new ≡ talk self.old) }
        ensures still { OnErr result (state self.new ≡ state self.old) }
        ensures answered { EachAnswered peer (talk self.new) }
        ensures cause { HasCause LinkFault.Down (faults self.old) (faults self.new) result };

    /// Fills a prefix of the room with the next bytes of the answer, and answers how many; 0 only at its end.
    fn take(&mut self, room: &mut [u8]) -> Result<usize, LinkFault>
        requires state { state self.old ≡ LinkState.Taking }
        requires room { 0 < length room.old }
        ensures bound { ReadsAtMost result room.new }
        ensures ok { IfOk result (λ n. talk self.new ≡ on_current (λ e. cond (nat_eq n 0) (ending e) (taking (take n room.new) e)) (talk self.old)) }
        ensures err { OnErr result (talk self.new ≡ talk self.old) }
        ensures still { state self.new ≡ state self.old }
        ensures answered { EachAnswered peer (talk self.new) }
        ensures cause { HasCause LinkFault.Down (faults self.old) (faults self.new) result };

    /// Ends the exchange, in whatever state it is.
    fn close(&mut self)
        ensures closed { state self.new ≡ LinkState.Closed }
        ensures same { talk self.new ≡ talk self.old }
        ensures later { faults self.old ≤ faults self.new };
}
