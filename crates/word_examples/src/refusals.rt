// Words that give no job, also for two reasons: the first from the left holds.
use crate::notation::{check_line, check_rows};

// Words, and why they give no job.
const REFUSED: &[(&str, &str)] = &[
    // One source is wanted.
    ("a.c b.c", "TwoSources"),
    ("a.c a.c", "TwoSources"),
    ("", "NoSource"),
    ("-c -I a.c", "NoSource"),
    // The first reason.
    ("-q a.c b.c", "Unknown"),
    ("a.c b.c -q", "TwoSources"),
    ("a.c b.c -I", "TwoSources"),
    ("a.c -q -I", "Unknown"),
    ("-I '' -q", "NoOperand"),
    ("-I", "NoOperand"),
    ("-q", "Unknown"),
];

#[test]
fn tells_the_first_reason(rt: HostRuntime) {
    check_rows(&rt, rt.alloc(), REFUSED);
}

// Working directories that give no job.
const DIRECTORIES: &[&[u8]] = &[b"", b"w", b"./", b"/w\0", b"/\0w"];

#[test]
fn refuses_a_working_directory(rt: HostRuntime) {
    for cwd in DIRECTORIES {
        check_line(&rt, rt.alloc(), cwd, "a.c", "Cwd");
    }
    check_line(&rt, rt.alloc(), b"/", "a.c", "a.c to a.i");
    check_line(&rt, rt.alloc(), b"w", "-q", "Cwd");
}
