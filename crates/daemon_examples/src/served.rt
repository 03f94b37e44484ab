// A request, whole, in pieces and changed, and what is replied.
ghost use Rattle.std.specs.Prelude.{◌≡◌, ◌<◌, All, IfOk};

use base_types::Bytes;
use daemon_serve::{PieceSource, serve};
use io_edges::MemSink;
use std::alloc::{AllocError, Global};
use std::process::Abort;

// The request of a source that includes a header, 180 bytes.
pub const REQUEST: &str = "DIST00000103CDIR00000002/wARGC00000001ARGV00000003a.cNFIL00000003\
                       NAME00000002/wMDIR00000000\
                       NAME00000006/w/a.cFILE00000016#include \"b.h\"\nint x;\n\
                       NAME00000006/w/b.hFILE00000007int y;\n";

const REPLY: &str = "DONE00000103STAT00000000SERR00000000DOTI00000039\
                     # 1 \"/w/a.c\"\n# 1 \"/w/b.h\" 1\nint y;\n# 2 \"/w/a.c\" 2\nint x;\n";

// What is replied to bytes that come in pieces of at most these lengths, used in a circle.
fn reply_to(alloc: Global, bytes: &[u8], pieces: Vec<u32>) -> Result<Bytes, AllocError>
    requires { All (λ n. 0 < n) pieces.items }
{
    let mut source = PieceSource::new(bytes, pieces);
    let mut sink = MemSink::new(alloc, Vec::new(alloc));
    serve(alloc, &mut source, &mut sink);
    Bytes::copy_of(alloc, sink.bytes())
}

// Asserts what is replied to bytes that come in such pieces.
fn replies(rt: &impl Abort, alloc: Global, bytes: &[u8], pieces: Vec<u32>, reply: &str)
    requires { All (λ n. 0 < n) pieces.items }
{
    let got = reply_to(alloc, bytes, pieces).expect(rt, "no memory");
    check_reply(rt, got.as_slice(), reply);
}

pub fn check_reply(rt: &impl Abort, got: &[u8], reply: &str) {
    let text = std::str::from_utf8(got).unwrap_or("?");
    assert!(rt; text == reply, "{text} is replied in place of {reply}");
}

#[test]
fn a_request_is_served_whole(rt: HostRuntime) {
    let pieces = Vec::new(rt.alloc());
    replies(&rt, rt.alloc(), REQUEST.as_bytes(), pieces, REPLY);
}

#[test]
fn a_request_is_served_byte_by_byte(rt: HostRuntime) {
    let pieces = vec![in rt.alloc(); 1].expect(&rt, "no memory");
    replies(&rt, rt.alloc(), REQUEST.as_bytes(), pieces, REPLY);
}

// A first piece of `more` bytes and one, and then all that is left.
#[test]
fn a_request_is_served_cut_in_two_at_every_place(rt: HostRuntime) {
    for more in 0..180u32 {
        let pieces = vec![in rt.alloc(); more + 1, 1000].expect(&rt, "no memory");
        replies(&rt, rt.alloc(), REQUEST.as_bytes(), pieces, REPLY);
    }
}

// A change of the request: bytes from a place up to another one, what stands there instead, and what is replied.
type Row<'x> = (usize, usize, &'x str, &'x str);

// The request with a change.
fn changed(alloc: Global, from: usize, to: usize, bytes: &str) -> Result<String, AllocError> {
    let front = REQUEST.get(..from).unwrap_or(REQUEST);
    let rest = REQUEST.get(to..).unwrap_or(REQUEST);
    format!(in alloc; "{front}{bytes}{rest}")
}

// Asserts what is replied to a changed request.
fn check_row(rt: &impl Abort, alloc: Global, row: &Row<'_>) {
    let (from, to, bytes, reply) = *row;
    let request = changed(alloc, from, to, bytes).expect(rt, "no memory");
    replies(rt, alloc, request.as_bytes(), Vec::new(alloc), reply);
}

// The last two entries, the other way round.
const EXCHANGED: &str = "NAME00000006/w/b.hFILE00000007int y;\n\
                         NAME00000006/w/a.cFILE00000016#include \"b.h\"\nint x;\n";

const CHANGES: &[Row<'static>] = &[
    (0, 12, "DIST00000003", "RFSE00000002"),
    (0, 4, "DOST", "RFSE00000003"),
    (12, 24, "CDIR0000000A", "RFSE00000004"),
    (26, 38, "ARGC000003e9", "RFSE00000005"),
    (91, 180, EXCHANGED, "RFSE00000006"),
    (53, 91, "NFIL00000002", "RFSE00000007"),
    (38, 53, "ARGV00000002-q", "RFSE00000008"),
    (179, 180, "", "RFSE00000009"),
    (180, 180, "more", REPLY),
];

#[test]
fn what_is_wrong_is_refused_by_its_reason(rt: HostRuntime) {
    for row in CHANGES {
        check_row(&rt, rt.alloc(), row);
    }
}
