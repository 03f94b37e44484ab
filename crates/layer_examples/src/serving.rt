// Wires in memory, the answers behind them, and the daemon.
ghost use Rattle.std.specs.Prelude.{◌≡◌, ◌<◌, All, IfOk, true};

use crate::checks::{check, check_text};
use base_types::Bytes;
use daemon_serve::{
    Answerer, MemWire, PieceSource, Scripted, Serve, ServePeer, Served, daemon_words, inetd, serve,
};
use io_edges::{Exchange, Host, LinkState, MemSink, MemSource, Source, Wire};
use std::alloc::{AllocError, Global};
use std::process::Abort;
use std::test::Fail;

// The request of an empty source, and the reply to it.
const REQUEST: &str =
    "DIST00000103CDIR00000002/wARGC00000001ARGV00000003a.cNFIL00000002NAME00000002/wMDIR00000000NAME00000006/w/a.cFILE00000000";

const REPLY: &str = "DONE00000103STAT00000000SERR00000000DOTI0000000d# 1 \"/w/a.c\"\n";

fn a_host(alloc: Global) -> Result<Host, AllocError> {
    Ok(Host {
        name: Bytes::copy_of(alloc, b"build.example")?,
        port: 3632,
        limit: 4,
    })
}

fn a_peer(alloc: Global, answers: &[&str]) -> Result<Scripted, Fail> {
    let mut list = Vec::new(alloc);
    for answer in answers {
        list.push(Bytes::copy_of(alloc, answer.as_bytes())?)?;
    }
    Ok(Scripted::new(list))
}

// A wire with these answers behind it, which was never dialled.
fn a_wire(
    alloc: Global,
    answers: &[&str],
    pieces: Vec<u32>,
    failing: &[(u32, u32)],
) -> Result<MemWire<Scripted>, Fail>
    requires { All (λ n. 0 < n) pieces.items }
    ensures { IfOk result (λ wire. wire.state ≡ LinkState.Closed) }
{
    let peer = a_peer(alloc, answers)?;
    let failing = failing.to_vec(alloc)?;
    Ok(MemWire::new(alloc, peer, pieces, failing))
}

// Whether the wire came to take the answer to a request.
fn is_asked<W: Wire>(wire: &mut W, host: &Host, request: &[u8]) -> bool
    requires { W.state wire.old ≡ LinkState.Closed }
    ensures { result ≡ true → W.state wire.new ≡ LinkState.Taking }
{
    wire.dial(host).is_ok() && wire.send(request).is_ok() && wire.finish().is_ok()
}

// Whether the next piece of the answer is this one.
fn gives<W: Wire>(wire: &mut W, piece: &[u8]) -> bool
    requires { W.state wire.old ≡ LinkState.Taking }
    ensures { W.state wire.new ≡ LinkState.Taking }
{
    let mut room = [0; 8];
    match wire.take(&mut room) {
        Ok(n) => &room[..n] == piece,
        Err(_) => false,
    }
}

fn check_pieces<W: Wire>(rt: &impl Abort, wire: &mut W, host: &Host)
    requires { W.state wire.old ≡ LinkState.Closed }
{
    check(rt, is_asked(wire, host, b"one"), "a request");
    check(rt, gives(wire, b"ab"), "the first piece");
    check(rt, gives(wire, b"cde"), "the second");
    check(rt, gives(wire, b"fg"), "the third");
    check(rt, gives(wire, b"h"), "the last");
    check(rt, gives(wire, b""), "the end");
}

fn check_one_exchange(rt: &impl Abort, exchanges: &[Exchange], sent: &str, received: &str) {
    check(rt, exchanges.len() == 1, "one exchange");
    for exchange in exchanges {
        check_text(rt, "the bytes sent", exchange.sent.as_slice(), sent);
        check_text(rt, "the answer", exchange.received.as_slice(), received);
    }
}

// An answer comes in pieces.
fn comes_in_pieces(rt: &impl Abort, alloc: Global, host: &Host) -> Result<(), Fail> {
    let mut wire = a_wire(alloc, &["abcdefgh"], vec![in alloc; 2, 3]?, &[])?;
    check_pieces(rt, &mut wire, host);
    check_one_exchange(rt, wire.exchanges(), "one", "abcdefgh");
    Ok(())
}

fn check_asked<W: Wire>(rt: &impl Abort, wire: &mut W, host: &Host, request: &[u8], answer: &[u8])
    requires { W.state wire.old ≡ LinkState.Closed }
{
    check(rt, is_asked(wire, host, request), "a request");
    check(rt, gives(wire, answer), "its answer");
}

fn check_turns<W: Wire>(rt: &impl Abort, wire: &mut W, host: &Host)
    requires { W.state wire.old ≡ LinkState.Closed }
{
    check_asked(rt, wire, host, b"a", b"first");
    wire.close();
    check_asked(rt, wire, host, b"b", b"second");
    wire.close();
    check_asked(rt, wire, host, b"c", b"");
}

// Answers come in turn, and then empty ones.
fn come_in_turn(rt: &impl Abort, alloc: Global, host: &Host) -> Result<(), Fail> {
    let mut wire = a_wire(alloc, &["first", "second"], Vec::new(alloc), &[])?;
    check_turns(rt, &mut wire, host);
    Ok(())
}

fn check_answer<P: Answerer>(
    rt: &impl Abort,
    alloc: Global,
    peer: &mut P,
    (sent, want): (&str, &str),
) {
    match peer.answer(alloc, sent.as_bytes()) {
        Ok(answer) => check_text(rt, sent, answer.as_slice(), want),
        Err(_) => rt.panic("no memory for an answer"),
    }
}

// Each row has the bytes sent and the answer to them.
fn check_answers<P: Answerer>(rt: &impl Abort, alloc: Global, peer: &mut P, rows: &[(&str, &str)]) {
    for row in rows {
        check_answer(rt, alloc, peer, *row);
    }
}

// Answers that are written are given whatever was sent.
const WRITTEN: [(&str, &str); 3] = [("one", "first"), ("one", "second"), ("one", "")];

// The daemon answers with a text, and refuses what is cut and another word.
const SERVED: [(&str, &str); 3] = [
    (REQUEST, REPLY),
    ("DIST", "RFSE00000009"),
    ("XXXX", "RFSE00000003"),
];

#[test]
fn answers_are_given(rt: HostRuntime) -> Result<(), Fail> {
    let mut peer = a_peer(rt.alloc(), &["first", "second"])?;
    check_answers(&rt, rt.alloc(), &mut peer, &WRITTEN);
    check_answers(&rt, rt.alloc(), &mut ServePeer, &SERVED);
    Ok(())
}

fn check_not_asked<W: Wire>(rt: &impl Abort, wire: &mut W, host: &Host, request: &[u8])
    requires { W.state wire.old ≡ LinkState.Closed }
{
    check(rt, !is_asked(wire, host, request), "a call that fails");
}

fn check_no_answer<W: Wire>(
    rt: &impl Abort,
    wire: &mut W,
    host: &Host,
    request: &[u8],
    answer: &[u8],
)
    requires { W.state wire.old ≡ LinkState.Closed }
{
    check(rt, is_asked(wire, host, request), "a request");
    check(rt, !gives(wire, answer), "a take that fails");
}

fn check_failing<W: Wire>(rt: &impl Abort, wire: &mut W, host: &Host)
    requires { W.state wire.old ≡ LinkState.Closed }
{
    check_not_asked(rt, wire, host, b"the dial fails");
    wire.close();
    check_not_asked(rt, wire, host, b"the piece fails");
    wire.close();
    check_no_answer(rt, wire, host, b"the first take fails", b"answer");
}

// Calls fail where their numbers are listed.
fn fail_where_listed(rt: &impl Abort, alloc: Global, host: &Host) -> Result<(), Fail> {
    let failing = [(0, 1), (1, 2), (2, 4)];
    let mut wire = a_wire(alloc, &["answer"], Vec::new(alloc), &failing)?;
    check_failing(rt, &mut wire, host);
    check(rt, wire.exchanges().len() == 2, "two exchanges");
    Ok(())
}

fn check_wires(rt: &impl Abort, alloc: Global, host: &Host) -> Result<(), Fail> {
    comes_in_pieces(rt, alloc, host)?;
    come_in_turn(rt, alloc, host)?;
    fail_where_listed(rt, alloc, host)
}

#[test]
fn wires_in_memory(rt: HostRuntime) -> Result<(), Fail> {
    check_wires(&rt, rt.alloc(), &a_host(rt.alloc())?)
}

fn check_served<S: Source>(
    rt: &impl Abort,
    alloc: Global,
    source: &mut S,
    want: Served,
    reply: &str,
) {
    let mut sink = MemSink::new(alloc, Vec::new(alloc));
    let served = serve(alloc, source, &mut sink);
    check(rt, served == want, reply);
    check_text(rt, "the reply", sink.bytes(), reply);
}

// A request, or the front of one, is served in pieces of at most these lengths.
fn check_in_pieces(
    rt: &impl Abort,
    alloc: Global,
    request: &str,
    pieces: Vec<u32>,
    want: Served,
    reply: &str,
)
    requires { All (λ n. 0 < n) pieces.items }
{
    let mut source = PieceSource::new(request.as_bytes(), pieces);
    check_served(rt, alloc, &mut source, want, reply);
}

#[test]
fn requests_are_served_in_pieces(rt: HostRuntime) -> Result<(), Fail> {
    let alloc = rt.alloc();
    let pieces = vec![in alloc; 1, 2, 30]?;
    check_in_pieces(&rt, alloc, REQUEST, pieces, Served::Replied, REPLY);
    let (short, refused) = ("DIST00000103CDIR", Served::Refused(9));
    check_in_pieces(
        &rt,
        alloc,
        short,
        vec![in alloc; 5]?,
        refused,
        "RFSE00000009",
    );
    Ok(())
}

// The number of the call that fails, or none.
fn failing(alloc: Global, number: u64) -> Result<Vec<u64>, AllocError> {
    let mut numbers = Vec::new(alloc);
    if number > 0 {
        numbers.push(number)?;
    }
    Ok(numbers)
}

// A request, the read and the write that fail, from 1, or 0 where none does, and the status.
type Ended<'a> = (&'a str, u64, u64, u8);

// The status of a daemon that gets these bytes.
fn status(alloc: Global, (request, reads, writes, _): Ended<'_>) -> Result<u8, AllocError> {
    let reads = failing(alloc, reads)?;
    let writes = failing(alloc, writes)?;
    let bytes = Bytes::copy_of(alloc, request.as_bytes())?;
    let mut source = MemSource::new(bytes, reads);
    let mut sink = MemSink::new(alloc, writes);
    Ok(inetd(alloc, &mut source, &mut sink))
}

const ENDED: [Ended<'static>; 4] = [
    (REQUEST, 0, 0, 0),
    ("DIST00000104", 0, 0, 1),
    (REQUEST, 1, 0, 3),
    (REQUEST, 0, 1, 4),
];

#[test]
fn a_status_tells_how_serving_ended(rt: HostRuntime) -> Result<(), Fail> {
    for row in &ENDED {
        let status = status(rt.alloc(), *row)?;
        check(&rt, status == row.3, row.0);
    }
    Ok(())
}

fn check_words(rt: &impl Abort, words: &[&str], want: Option<Serve>) {
    check(rt, daemon_words(words) == want, "the words of a daemon");
}

#[test]
fn a_daemon_has_one_word(rt: HostRuntime) {
    check_words(&rt, &["--inetd"], Some(Serve::Inetd));
    check_words(&rt, &[], None);
    check_words(&rt, &["--inetd", "--inetd"], None);
    check_words(&rt, &["inetd"], None);
}
