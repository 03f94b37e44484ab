// Chains of other directories.
use crate::tree::{Places, Row, SOURCE, check};
use search_path::Form::{Angle, Forced, Quote};
use search_path::Found::Primary;

const WALKED: &Places<'static> = &Places {
    quote: &[],
    bracket: &["zz", "/w/z/../q", ".", "none", "a.c"],
    asker: SOURCE,
    fails: 0,
};

const IN_WALKED: &[Row<'static>] = &[
    (Angle, Some(Primary), "x.h", "Chain(0) /w/c/x.h /w/c/x.h"),
    (Angle, Some(Primary), "q.h", "Chain(1) /w/q/q.h /w/q/q.h"),
    (Angle, Some(Primary), "cwd.h", "Chain(2) /w/cwd.h /w/cwd.h"),
    (Angle, Some(Primary), "beside.h", ""),
];

// Through a link to a directory the place is in the directory itself.
#[test]
fn directories_are_walked_from_the_root(rt: HostRuntime) {
    check(&rt, rt.alloc(), WALKED, IN_WALKED);
}

const EMPTY: &Places<'static> = &Places {
    quote: &[""],
    bracket: &["b"],
    asker: SOURCE,
    fails: 0,
};

const IN_EMPTY: &[Row<'static>] = &[
    (Quote, Some(Primary), "cwd.h", "Chain(0) /w/cwd.h /w/cwd.h"),
    (Quote, Some(Primary), "b.h", "Chain(1) /w/b/b.h /w/b/b.h"),
    (Quote, Some(Primary), "w/cwd.h", ""),
];

// An empty text doesn't begin with `/`, and so stands below the working directory.
#[test]
fn an_empty_directory_is_the_working_directory(rt: HostRuntime) {
    check(&rt, rt.alloc(), EMPTY, IN_EMPTY);
}

const NOWHERE: &Places<'static> = &Places {
    quote: &[],
    bracket: &[],
    asker: SOURCE,
    fails: 0,
};

const IN_NO_CHAIN: &[Row<'static>] = &[
    (Quote, Some(Primary), "x.h", "Here /w/s/x.h /w/s/x.h"),
    (Forced, None, "cwd.h", "Here /w/cwd.h /w/cwd.h"),
    (Quote, Some(Primary), "b.h", ""),
    (Angle, Some(Primary), "x.h", ""),
];

#[test]
fn a_chain_may_be_empty(rt: HostRuntime) {
    check(&rt, rt.alloc(), NOWHERE, IN_NO_CHAIN);
}
