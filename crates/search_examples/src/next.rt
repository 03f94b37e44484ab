// Files that `#include_next` includes.
use crate::tree::{CHAIN, Row, check};
use search_path::Form::{NextAngle, NextQuote};
use search_path::Found::{Absolute, Chain, Here, Primary};

// The search goes on behind the directory in which the file that asks was found.
const ROWS: &[Row<'static>] = &[
    (NextQuote, Some(Primary), "x.h", "Here /w/s/x.h /w/s/x.h"),
    (NextQuote, Some(Absolute), "x.h", "Here /w/s/x.h /w/s/x.h"),
    (NextQuote, Some(Here), "x.h", "Chain(0) /w/q/x.h /w/q/x.h"),
    (NextQuote, Some(Chain(0)), "x.h", "Chain(1) /r/x.h /r/x.h"),
    (
        NextQuote,
        Some(Chain(1)),
        "x.h",
        "Chain(2) /w/b/x.h /w/b/x.h",
    ),
    (
        NextQuote,
        Some(Chain(2)),
        "x.h",
        "Chain(3) /w/c/x.h /w/c/x.h",
    ),
    (NextQuote, Some(Chain(3)), "x.h", "Chain(4) /a/x.h /a/x.h"),
    (NextQuote, Some(Chain(4)), "x.h", ""),
    (
        NextQuote,
        Some(Chain(4)),
        "link.h",
        "Chain(5) /w/z/link.h /w/b/b.h",
    ),
    (NextQuote, Some(Chain(5)), "link.h", ""),
    (NextQuote, Some(Chain(4294967295)), "x.h", ""),
    (
        NextQuote,
        Some(Chain(4)),
        "/a/x.h",
        "Absolute /a/x.h /a/x.h",
    ),
    (NextQuote, Some(Here), "beside.h", ""),
    (
        NextAngle,
        Some(Primary),
        "x.h",
        "Chain(2) /w/b/x.h /w/b/x.h",
    ),
    (
        NextAngle,
        Some(Absolute),
        "x.h",
        "Chain(2) /w/b/x.h /w/b/x.h",
    ),
    (NextAngle, Some(Here), "x.h", "Chain(0) /w/q/x.h /w/q/x.h"),
    (NextAngle, Some(Chain(0)), "x.h", "Chain(1) /r/x.h /r/x.h"),
    (
        NextAngle,
        Some(Chain(2)),
        "x.h",
        "Chain(3) /w/c/x.h /w/c/x.h",
    ),
    (NextAngle, Some(Chain(4)), "x.h", ""),
    (NextAngle, Some(Chain(5)), "link.h", ""),
    (NextAngle, Some(Here), "/a/x.h", "Absolute /a/x.h /a/x.h"),
    (NextAngle, Some(Primary), "q.h", ""),
];

#[test]
fn names_are_searched_behind(rt: HostRuntime) {
    check(&rt, rt.alloc(), CHAIN, ROWS);
}
