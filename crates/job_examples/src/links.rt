// Includes through links: the directory behind a link is where `..` goes up from, and the 41st link ends a search.
use crate::checked::{Case, Node, check_rows};
use case_texts::Stands::{Dir, File, Link};
use std::alloc::{AllocError, Global};
use std::process::Abort;
use std::test::Fail;

// A source whose include goes through a directory and up again.
const THROUGH_A_DIRECTORY: &str = "#include \"gone/../x.h\"\n";

pub const CASES: [Case<'static>; 3] = [
    Case {
        name: "a directory behind a link",
        nodes: &[
            ("/v", Dir, ""),
            ("/v/inc", Dir, ""),
            ("/v/x.h", File, "int v;\n"),
            ("/w", Dir, ""),
            ("/w/a.c", File, "#include \"l/../x.h\"\n"),
            ("/w/b.c", File, "#include \"k//.././x.h\"\n"),
            ("/w/k", Link, "./l/"),
            ("/w/l", Link, "/v/inc"),
            ("/w/x.h", File, "int w;\n"),
        ],
        rows: &[
            (
                "a.c",
                "T# 1 \"/w/a.c\"\n# 1 \"/v/x.h\" 1\nint v;\n# 2 \"/w/a.c\" 2\n",
            ),
            (
                "b.c",
                "T# 1 \"/w/b.c\"\n# 1 \"/v/x.h\" 1\nint v;\n# 2 \"/w/b.c\" 2\n",
            ),
        ],
    },
    Case {
        name: "an empty directory on the way",
        nodes: &[
            ("/w", Dir, ""),
            ("/w/a.c", File, THROUGH_A_DIRECTORY),
            ("/w/gone", Dir, ""),
            ("/w/x.h", File, "int x;\n"),
        ],
        rows: &[(
            "a.c",
            "T# 1 \"/w/a.c\"\n# 1 \"/w/x.h\" 1\nint x;\n# 2 \"/w/a.c\" 2\n",
        )],
    },
    Case {
        name: "no directory on the way",
        nodes: &[
            ("/w", Dir, ""),
            ("/w/a.c", File, THROUGH_A_DIRECTORY),
            ("/w/x.h", File, "int x;\n"),
        ],
        rows: &[("a.c", "D/w/a.c:1: error: cannot find \"gone/../x.h\"")],
    },
];

// The paths of 41 links, and their names.
const PATHS: [&str; 41] = [
    "/w/l01", "/w/l02", "/w/l03", "/w/l04", "/w/l05", "/w/l06", "/w/l07", "/w/l08", "/w/l09",
    "/w/l10", "/w/l11", "/w/l12", "/w/l13", "/w/l14", "/w/l15", "/w/l16", "/w/l17", "/w/l18",
    "/w/l19", "/w/l20", "/w/l21", "/w/l22", "/w/l23", "/w/l24", "/w/l25", "/w/l26", "/w/l27",
    "/w/l28", "/w/l29", "/w/l30", "/w/l31", "/w/l32", "/w/l33", "/w/l34", "/w/l35", "/w/l36",
    "/w/l37", "/w/l38", "/w/l39", "/w/l40", "/w/l41",
];

const NAMES: [&str; 41] = [
    "l01", "l02", "l03", "l04", "l05", "l06", "l07", "l08", "l09", "l10", "l11", "l12", "l13",
    "l14", "l15", "l16", "l17", "l18", "l19", "l20", "l21", "l22", "l23", "l24", "l25", "l26",
    "l27", "l28", "l29", "l30", "l31", "l32", "l33", "l34", "l35", "l36", "l37", "l38", "l39",
    "l40", "l41",
];

// Adds the link of this index, where there is one to add: the last of so many leads to a file, another one to the next.
fn add_link(
    nodes: &mut Vec<Node<'static>>,
    index: usize,
    path: &'static str,
    count: usize,
) -> Result<(), AllocError> {
    let next = index.saturating_add(1);
    if next == count {
        return Ok(nodes.push((path, Link, "x.h"))?);
    }
    match NAMES.get(next) {
        Some(name) => Ok(nodes.push((path, Link, name))?),
        None => Ok(()),
    }
}

// A source that asks for the first of the links, and a file of the first one's name in a directory.
const FRONT: [Node<'static>; 4] = [
    ("/w", Dir, ""),
    ("/w/a.c", File, "#include \"l01\"\n"),
    ("/w/i", Dir, ""),
    ("/w/i/l01", File, "int i;\n"),
];

// So many links behind the front, each of which leads to the next and the last to a file. Links behind the last lead on as
// well.
fn links(alloc: Global, count: usize) -> Result<Vec<Node<'static>>, AllocError> {
    let mut nodes = FRONT.to_vec(alloc)?;
    for (k, path) in PATHS.iter().enumerate() {
        add_link(&mut nodes, k, path, count)?;
    }
    nodes.push(("/w/x.h", File, "int x;\n"))?;
    Ok(nodes)
}

// The first of forty links is followed.
const FOLLOWED: [(&str, &str); 2] = [
    (
        "a.c",
        "T# 1 \"/w/a.c\"\n# 1 \"/w/l01\" 1\nint x;\n# 2 \"/w/a.c\" 2\n",
    ),
    (
        "a.c -Ii",
        "T# 1 \"/w/a.c\"\n# 1 \"/w/l01\" 1\nint x;\n# 2 \"/w/a.c\" 2\n",
    ),
];

// The first of forty links and one more ends a search.
const ENDED: [(&str, &str); 2] = [
    ("a.c", "D/w/a.c:1: error: cannot find \"l01\""),
    (
        "a.c -Ii",
        "T# 1 \"/w/a.c\"\n# 1 \"/w/i/l01\" 1\nint i;\n# 2 \"/w/a.c\" 2\n",
    ),
];

fn check_links<'x>(
    rt: &impl Abort,
    alloc: Global,
    name: &'x str,
    count: usize,
    rows: &'x [(&'x str, &'x str)],
) -> Result<(), Fail> {
    let nodes = links(alloc, count)?;
    check_rows(rt, alloc, name, &nodes, rows)
}

#[test]
fn forty_links_and_one_more(rt: HostRuntime) -> Result<(), Fail> {
    check_links(&rt, rt.alloc(), "forty links", 40, &FOLLOWED)?;
    check_links(&rt, rt.alloc(), "forty-one links", 41, &ENDED)
}
