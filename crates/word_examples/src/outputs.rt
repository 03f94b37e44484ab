// The output's name (GCC's manual, "Overall Options").
use crate::notation::check_rows;

// Words, and the job with its output.
const OUTPUTS: &[(&str, &str)] = &[
    // The source's name.
    ("a.c", "a.c to a.i"),
    ("dir/a.b.c", "dir/a.b.c to a.b.i"),
    ("noext", "noext to noext.i"),
    ("dir.d/noext", "dir.d/noext to noext.i"),
    (".c", ".c to .i"),
    ("dir/", "dir/ to .i"),
    ("/a.c", "/a.c to a.i"),
    ("a..c", "a..c to a..i"),
    ("a.", "a. to a.i"),
    ("/", "/ to .i"),
    // The last output.
    ("-ox -o y a.c", "a.c to y"),
    ("-o x a.c -oy", "a.c to y"),
    ("-o dir/x dir/a.c", "dir/a.c to dir/x"),
];

#[test]
fn names_the_output(rt: HostRuntime) {
    check_rows(&rt, rt.alloc(), OUTPUTS);
}
