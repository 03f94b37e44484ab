// Runs of several jobs, by one client and by several.
use crate::example::{Placed, WORK, check, check_text, entries_of};
use crate::several_ends::{AllEnded, run_at_ends};
use base_types::Bytes;
use io_edges::MemOuts;
use std::alloc::Global;
use std::marker::Brand;
use std::process::Abort;
use std::sync::Wait;
use std::test::Fail;
use std::thread::Threads;

// A text, and the name under which it is put.
#[derive(Clone, Copy, Drop)]
struct Text<'a> {
    under: &'a str,
    text: &'a str,
}

// A run over these files, and what has to come of it: its status, its report, and the texts that are put at each end, of which there
// are 1 to 64. The calls of `wire_fails` fail at each end's wire.
#[derive(Clone, Copy, Drop)]
struct Several<'a> {
    name: &'a str,
    words: &'a [&'a str],
    list: &'a str,
    files: &'a [Placed<'a>],
    wire_fails: &'a [(u32, u32)],
    status: u8,
    report: &'a str,
    texts: &'a [&'a [Text<'a>]],
}

const ONE: &[&str] = &["order", "-", "--hosts", "x", "-j", "1"];

// Two sources that include one header.
const SHARED: &[Placed<'static>] = &[
    WORK,
    Placed::File {
        path: "/w/a.c",
        body: "#include \"h.h\"\nint a;\n",
    },
    Placed::File {
        path: "/w/b.c",
        body: "#include \"h.h\"\nint b;\n",
    },
    Placed::File {
        path: "/w/h.h",
        body: "int h;\n",
    },
];

const SHARED_TEXTS: &[&[Text<'static>]] = &[
    &[Text {
        under: "a.i",
        text: "# 1 \"/w/a.c\"\n# 1 \"/w/h.h\" 1\nint h;\n# 2 \"/w/a.c\" 2\nint a;\n",
    }],
    &[Text {
        under: "b.i",
        text: "# 1 \"/w/b.c\"\n# 1 \"/w/h.h\" 1\nint h;\n# 2 \"/w/b.c\" 2\nint b;\n",
    }],
];

const RUNS: [Several<'static>; 7] = [
    Several {
        name: "an empty list",
        words: ONE,
        list: "",
        files: &[WORK],
        wire_fails: &[],
        status: 0,
        report: "jobs 0 remote 0 local 0 broken 0\nlooks 0 hits 0 kept 0 already 0 full 0\n",
        texts: &[&[]],
    },
    Several {
        name: "a list of comments and blanks",
        words: ONE,
        list: "# /w a.c\n\n \t\r\n#\\\n",
        files: &[WORK],
        wire_fails: &[],
        status: 0,
        report: "jobs 0 remote 0 local 0 broken 0\nlooks 0 hits 0 kept 0 already 0 full 0\n",
        texts: &[&[]],
    },
    Several {
        name: "two missing sources",
        words: ONE,
        list: "/w a.c\n/w b.c\n",
        files: &[WORK],
        wire_fails: &[],
        status: 1,
        report: "job 0 diag local A7\n/w/a.c:0: error: cannot find source\n\
                 job 1 diag local A7\n/w/b.c:0: error: cannot find source\n\
                 jobs 2 remote 0 local 2 broken 0\nlooks 0 hits 0 kept 0 already 0 full 0\n",
        texts: &[&[]],
    },
    Several {
        name: "two clients that build one sheet at a time",
        words: &["order", "-", "--hosts", "x", "-j", "2"],
        list: "/w a.c\n/w b.c\n",
        files: SHARED,
        wire_fails: &[],
        status: 0,
        report: "job 0 text 57 remote\njob 1 text 57 remote\n\
                 jobs 2 remote 2 local 0 broken 0\nlooks 4 hits 0 kept 3 already 1 full 0\n",
        texts: SHARED_TEXTS,
    },
    Several {
        name: "a client that finds the sheet of another",
        words: &["order", "0,0,0,0,0,0,0,1", "--hosts", "x", "-j", "2"],
        list: "/w a.c\n/w b.c\n",
        files: SHARED,
        wire_fails: &[],
        status: 0,
        report: "job 0 text 57 remote\njob 1 text 57 remote\n\
                 jobs 2 remote 2 local 0 broken 0\nlooks 4 hits 1 kept 3 already 0 full 0\n",
        texts: SHARED_TEXTS,
    },
    Several {
        name: "a header that finds another file in each job",
        words: ONE,
        list: "/w a.c -Ia\n/w b.c -Ib\n",
        files: &[
            WORK,
            Placed::Dir { path: "/w/a" },
            Placed::File {
                path: "/w/a.c",
                body: "#include \"h.h\"\n",
            },
            Placed::File {
                path: "/w/a/t.h",
                body: "int a;\n",
            },
            Placed::Dir { path: "/w/b" },
            Placed::File {
                path: "/w/b.c",
                body: "#include \"h.h\"\n",
            },
            Placed::File {
                path: "/w/b/t.h",
                body: "int b;\n",
            },
            Placed::File {
                path: "/w/h.h",
                body: "#include <t.h>\n",
            },
        ],
        wire_fails: &[],
        status: 0,
        report: "job 0 text 82 remote\njob 1 text 82 remote\n\
                 jobs 2 remote 2 local 0 broken 0\nlooks 6 hits 0 kept 6 already 0 full 0\n",
        texts: &[&[
            Text {
                under: "a.i",
                text: "# 1 \"/w/a.c\"\n# 1 \"/w/h.h\" 1\n# 1 \"/w/a/t.h\" 1\nint a;\n# 2 \"/w/h.h\" 2\n# 2 \"/w/a.c\" 2\n",
            },
            Text {
                under: "b.i",
                text: "# 1 \"/w/b.c\"\n# 1 \"/w/h.h\" 1\n# 1 \"/w/b/t.h\" 1\nint b;\n# 2 \"/w/h.h\" 2\n# 2 \"/w/b.c\" 2\n",
            },
        ]],
    },
    Several {
        name: "the third of three jobs finds no link",
        words: ONE,
        list: "/w a.c\n/w b.c\n/w c.c\n",
        files: &[
            WORK,
            Placed::File {
                path: "/w/a.c",
                body: "",
            },
            Placed::File {
                path: "/w/b.c",
                body: "",
            },
            Placed::File {
                path: "/w/c.c",
                body: "",
            },
        ],
        wire_fails: &[(2, 1)],
        status: 0,
        report: "job 0 text 13 remote\njob 1 text 13 remote\njob 2 text 13 local link\n\
                 jobs 3 remote 2 local 1 broken 0\nlooks 3 hits 0 kept 3 already 0 full 0\n",
        texts: &[&[
            Text {
                under: "a.i",
                text: "# 1 \"/w/a.c\"\n",
            },
            Text {
                under: "b.i",
                text: "# 1 \"/w/b.c\"\n",
            },
            Text {
                under: "c.i",
                text: "# 1 \"/w/c.c\"\n",
            },
        ]],
    },
];

#[test]
fn clients_do_jobs_in_turns(rt: HostRuntime) -> Result<(), Fail> {
    for run in &RUNS {
        check_run(&rt, rt.alloc(), run)?;
    }
    Ok(())
}

// `Brand` names the tree of the run's entries: the proof of this function picks it.
fn check_run<R: Threads + Wait + Sync + Abort>(
    rt: &R,
    alloc: Global,
    run: &Several<'_>,
) -> Result<(), Fail> {
    let list = Bytes::copy_of(alloc, run.list.as_bytes())?;
    let entries = entries_of(alloc, run.files)?;
    let number = run.texts.len().clamp(1, 64);
    let ended = run_at_ends::<Brand, R>(
        rt,
        alloc,
        run.words,
        list,
        entries.as_slice(),
        number,
        run.wire_fails,
    )?;
    check_ended(rt, &ended, run);
    Ok(())
}

// Asserts the status, the report and the texts that are wanted.
fn check_ended<R: Abort>(rt: &R, ended: &AllEnded, run: &Several<'_>) {
    check_text(rt, run.name, ended.report.bytes(), run.report);
    check(rt, ended.status == run.status, run.name, "the status");
    let is_right = ended.outs.len() == run.texts.len();
    check(rt, is_right, run.name, "the number of ends");
    for (outs, texts) in ended.outs.iter().zip(run.texts.iter()) {
        check_outs(rt, run.name, outs, texts);
    }
}

// Asserts that just these texts were put, in this order.
fn check_outs<R: Abort>(rt: &R, name: &str, outs: &MemOuts, texts: &[Text<'_>]) {
    let entries = outs.entries();
    let is_right = entries.len() == texts.len();
    check(rt, is_right, name, "the texts put");
    for ((under, body), wanted) in entries.iter().zip(texts.iter()) {
        check_text(rt, name, under.as_slice(), wanted.under);
        check_text(rt, name, body.as_slice(), wanted.text);
    }
}
