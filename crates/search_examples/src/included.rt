// Included files (ISO C 6.10.2).
use crate::tree::{BRACKET, CHAIN, Places, QUOTE, Row, check};
use search_path::Form::{Angle, Forced, Quote};
use search_path::Found::{Chain, Primary};

const ROWS: &[Row<'static>] = &[
    // Quoted names stand beside the file that asks, or in the chain.
    (
        Quote,
        Some(Primary),
        "beside.h",
        "Here /w/s/beside.h /w/s/beside.h",
    ),
    (Quote, Some(Primary), "x.h", "Here /w/s/x.h /w/s/x.h"),
    (Quote, Some(Primary), "../cwd.h", "Here /w/cwd.h /w/cwd.h"),
    (Quote, Some(Primary), "q.h", "Chain(0) /w/q/q.h /w/q/q.h"),
    (Quote, Some(Primary), "r.h", "Chain(1) /r/r.h /r/r.h"),
    (Quote, Some(Primary), "b.h", "Chain(2) /w/b/b.h /w/b/b.h"),
    (Quote, Some(Primary), "abs.h", "Chain(4) /a/abs.h /a/abs.h"),
    (
        Quote,
        Some(Primary),
        "/w/cwd.h",
        "Absolute /w/cwd.h /w/cwd.h",
    ),
    (Quote, Some(Primary), "/beside.h", ""),
    (Quote, Some(Primary), "cwd.h", ""),
    (Quote, Some(Primary), "", ""),
    // Names in angles stand in the directories of all names.
    (Angle, Some(Primary), "x.h", "Chain(2) /w/b/x.h /w/b/x.h"),
    (Angle, Some(Primary), "abs.h", "Chain(4) /a/abs.h /a/abs.h"),
    (Angle, Some(Primary), "/r/r.h", "Absolute /r/r.h /r/r.h"),
    (Angle, Some(Primary), "q.h", ""),
    (Angle, Some(Primary), "r.h", ""),
    (Angle, Some(Primary), "beside.h", ""),
    (Angle, Some(Primary), "/abs.h", ""),
    // Directories are passed over: `/w/b/d.h` is no file.
    (Quote, Some(Primary), "d.h", "Chain(3) /w/c/d.h /w/c/d.h"),
    (Angle, Some(Primary), "d.h", "Chain(3) /w/c/d.h /w/c/d.h"),
    (Forced, None, "b/d.h", ""),
    // Links are places.
    (
        Quote,
        Some(Primary),
        "link.h",
        "Chain(5) /w/z/link.h /w/b/b.h",
    ),
    (Quote, Some(Primary), "../zz/d.h", "Here /w/c/d.h /w/c/d.h"),
];

const BY_A_LINK: &Places<'static> = &Places {
    quote: QUOTE,
    bracket: BRACKET,
    asker: "/w/z/link.h",
    fails: 0,
};

// A file behind a link is asked for beside the link, and not beside the file that the link leads to.
const BESIDE_A_LINK: &[Row<'static>] = &[
    (Quote, Some(Chain(5)), "link.h", "Here /w/z/link.h /w/b/b.h"),
    (Quote, Some(Chain(5)), "b.h", "Chain(2) /w/b/b.h /w/b/b.h"),
];

#[test]
fn included_files_are_found(rt: HostRuntime) {
    check(&rt, rt.alloc(), CHAIN, ROWS);
    check(&rt, rt.alloc(), BY_A_LINK, BESIDE_A_LINK);
}
