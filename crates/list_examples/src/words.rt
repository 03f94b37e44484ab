// Words, and what they ask for.
use run_words::{Asked, asked_in};
use std::alloc::Global;
use std::process::Abort;

// How many ends there are.
const ENDS: usize = 3;

#[test]
fn words_ask_for_settings(rt: HostRuntime) {
    let words = [
        "order",
        "0,1,0",
        "--budget",
        "7",
        "-j",
        "2",
        "--hosts",
        "a:1/2 localhost",
    ];
    let asked = asked(&rt, rt.alloc(), &words).expect(&rt, "settings");
    assert!(rt; asked.order.as_slice() == [0, 1, 0].as_slice());
    assert!(rt; asked.clients == 2);
    assert!(rt; asked.budget == 7);
    assert!(rt; asked.hosts.len() == 2);
}

#[test]
fn flags_have_defaults(rt: HostRuntime) {
    let asked = asked(&rt, rt.alloc(), &["order", "-", "--hosts", "a"]).expect(&rt, "settings");
    assert!(rt; asked.order.is_empty());
    assert!(rt; asked.clients == 3);
    assert!(rt; asked.budget == 4096);
}

// Words that ask for nothing.
const REFUSED: &[&[&str]] = &[
    &[],
    &["order"],
    &["order", "-"],
    &["Order", "-", "--hosts", "a"],
    &["order", "-", "--hosts"],
    &["order", "-", "--hosts", ""],
    &["order", "-", "--hosts", "a:0"],
    &["order", "-", "--hosts", "a", "--hosts", "a"],
    &["order", "-", "--hosts", "a", "--slots", "1"],
    &["order", "", "--hosts", "a"],
    &["order", "0,", "--hosts", "a"],
    &["order", "-,0", "--hosts", "a"],
    &["order", "0, 1", "--hosts", "a"],
    &["order", "+1", "--hosts", "a"],
    &["order", "01", "--hosts", "a"],
    &["order", "3", "--hosts", "a"],
    &["order", "0,1", "--hosts", "a", "-j", "1"],
    &["order", "-", "--hosts", "a", "-j", "0"],
    &["order", "-", "--hosts", "a", "-j", "02"],
    &["order", "-", "--hosts", "a", "-j", "4"],
    &["order", "-", "--hosts", "a", "-j", "1", "-j", "1"],
    &["order", "-", "--hosts", "a", "--budget", "0"],
    &["order", "-", "--hosts", "a", "--budget", "65537"],
    &["order", "-", "--hosts", "a", "--budget", "4294967297"],
];

#[test]
fn other_words_ask_for_nothing(rt: HostRuntime) {
    for words in REFUSED {
        check_refused(&rt, rt.alloc(), words);
    }
}

fn check_refused(rt: &impl Abort, alloc: Global, words: &[&str]) {
    assert!(rt; asked(rt, alloc, words).is_none(), "{words:?}");
}

fn asked(rt: &impl Abort, alloc: Global, words: &[&str]) -> Option<Asked> {
    asked_in(alloc, ENDS, words).expect(rt, "memory for settings")
}
