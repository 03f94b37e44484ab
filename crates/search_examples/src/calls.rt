// Calls of the tree that fail, and those that a search doesn't make.
use crate::tree::{CHAIN, Places, Row, check};
use search_path::Form::{Angle, Quote};
use search_path::Found::Primary;
use std::alloc::Global;
use std::process::Abort;

// One search, with the tree's call of this number failing.
fn check_failing(rt: &impl Abort, alloc: Global, fails: u64, row: Row<'_>) {
    let places = Places { fails, ..*CHAIN };
    check(rt, alloc, &places, &[row]);
}

const ROWS: &[(u64, Row<'static>)] = &[
    // Faults are handed on. Beside the source one call finds that `b.h` isn't there. In the chain each directory takes a call for each
    // name on the way to it, and one for the header's.
    (1, (Quote, Some(Primary), "b.h", "Fault")),
    (4, (Quote, Some(Primary), "b.h", "Fault")),
    (6, (Quote, Some(Primary), "b.h", "Fault")),
    (9, (Quote, Some(Primary), "b.h", "Fault")),
    (
        10,
        (Quote, Some(Primary), "b.h", "Chain(2) /w/b/b.h /w/b/b.h"),
    ),
    // A search stops at the first file.
    (1, (Quote, Some(Primary), "x.h", "Fault")),
    (2, (Quote, Some(Primary), "x.h", "Here /w/s/x.h /w/s/x.h")),
    (3, (Angle, Some(Primary), "x.h", "Fault")),
    (
        4,
        (Angle, Some(Primary), "x.h", "Chain(2) /w/b/x.h /w/b/x.h"),
    ),
];

#[test]
fn faults_are_handed_on_up_to_the_first_file(rt: HostRuntime) {
    for (fails, row) in ROWS {
        check_failing(&rt, rt.alloc(), *fails, *row);
    }
}
