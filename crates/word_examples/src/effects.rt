// Options without an operand, and words that aren't known.
use crate::notation::check_rows;

// Words, and their job or why they give none.
const OPTIONS: &[(&str, &str)] = &[
    // Trigraphs.
    ("-trigraphs a.c", "a.c to a.i, trigraphs"),
    (
        "a.c -trigraphs -Ii -iquoteq -includef -trigraphs",
        "a.c to a.i, quote q, bracket i, forced f, trigraphs",
    ),
    // Options without effect.
    ("-c -E -S -w -pipe -pthread -nostdinc a.c", "a.c to a.i"),
    ("-O -O2 -Os a.c", "a.c to a.i"),
    ("-W -Wall -Wp -Wno-x -Wl,-x a.c", "a.c to a.i"),
    ("-g -g3 -ggdb a.c", "a.c to a.i"),
    ("-f -fPIC -m -m64 -mtune=native a.c", "a.c to a.i"),
    ("-pedantic -pedantic-errors a.c", "a.c to a.i"),
    ("-std= -std=c99 a.c", "a.c to a.i"),
    // Words that aren't known.
    ("-q a.c", "Unknown"),
    ("-- a.c", "Unknown"),
    ("- a.c", "Unknown"),
    ("'' a.c", "Unknown"),
    ("a.c ''", "Unknown"),
    ("-dD a.c", "Unknown"),
    ("-undef a.c", "Unknown"),
    ("-cx a.c", "Unknown"),
    ("-trigraphsx a.c", "Unknown"),
    ("-Wp,x a.c", "Unknown"),
    ("-Wp, a.c", "Unknown"),
    ("-pthreads a.c", "Unknown"),
    ("-std a.c", "Unknown"),
    ("-imacros x a.c", "Unknown"),
];

#[test]
fn knows_options(rt: HostRuntime) {
    check_rows(&rt, rt.alloc(), OPTIONS);
}
