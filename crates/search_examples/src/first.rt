// Sources and forced files, for which no file asks.
use crate::tree::{CHAIN, Row, check};
use search_path::Form::{Forced, Source};

const ROWS: &[Row<'static>] = &[
    // Sources stand in the working directory.
    (Source, None, "a.c", "Primary /w/a.c /w/a.c"),
    (Source, None, "s/s.c", "Primary /w/s/s.c /w/s/s.c"),
    (Source, None, "s/.././a.c", "Primary /w/a.c /w/a.c"),
    (Source, None, "z/link.h", "Primary /w/z/link.h /w/b/b.h"),
    (Source, None, "/w/a.c", "Primary /w/a.c /w/a.c"),
    (Source, None, "/r/r.h", "Primary /r/r.h /r/r.h"),
    (Source, None, "q.h", ""),
    (Source, None, "x.h", ""),
    (Source, None, "/a.c", ""),
    (Source, None, "s", ""),
    (Source, None, "", ""),
    // Forced files stand in the working directory or the chain.
    (Forced, None, "force.h", "Here /w/force.h /w/force.h"),
    (Forced, None, "s/x.h", "Here /w/s/x.h /w/s/x.h"),
    (Forced, None, "q.h", "Chain(0) /w/q/q.h /w/q/q.h"),
    (Forced, None, "r.h", "Chain(1) /r/r.h /r/r.h"),
    (Forced, None, "b.h", "Chain(2) /w/b/b.h /w/b/b.h"),
    (Forced, None, "abs.h", "Chain(4) /a/abs.h /a/abs.h"),
    (Forced, None, "/r/r.h", "Absolute /r/r.h /r/r.h"),
    (Forced, None, "/q.h", ""),
    (Forced, None, "beside.h", ""),
];

#[test]
fn sources_and_forced_files_are_found(rt: HostRuntime) {
    check(&rt, rt.alloc(), CHAIN, ROWS);
}
