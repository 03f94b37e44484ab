// The tree and the list of one source, the order of the paths of three, and the trees of a thousand and of 5,000.
ghost use Rattle.std.specs.Prelude.{◌≤◌};

use crate::generate;
use base_types::Bytes;
use std::alloc::Global;
use std::process::Abort;
use tree_model::{CanonPath, Entry, MemTree, Unnamed};

// The nodes of one source: its path, and a file's text.
const ONE: &[(&str, Option<&str>)] = &[
    ("/g", None),
    ("/g/h", None),
    (
        "/g/h/h0.h",
        Some("#pragma once\n#define V0 (0 + F0)\nint v0(void) { return V0; }\n"),
    ),
    (
        "/g/h/h1.h",
        Some("#pragma once\n#include \"h0.h\"\n#define V1 (1 + F1)\nint v1(void) { return V1; }\n"),
    ),
    (
        "/g/h/h2.h",
        Some("#pragma once\n#include \"h1.h\"\n#define V2 (2 + F2)\nint v2(void) { return V2; }\n"),
    ),
    (
        "/g/h/h3.h",
        Some("#pragma once\n#include \"h1.h\"\n#define V3 (3 + F0)\nint v3(void) { return V3; }\n"),
    ),
    ("/g/s", None),
    (
        "/g/s/s0.c",
        Some("#define H <h3.h>\n#include H\n#include \"h0.h\"\nint s0 = V3;\n"),
    ),
];

// The paths of three sources.
const THREE: &[&str] = &[
    "/g",
    "/g/h",
    "/g/h/h0.h",
    "/g/h/h1.h",
    "/g/h/h10.h",
    "/g/h/h11.h",
    "/g/h/h2.h",
    "/g/h/h3.h",
    "/g/h/h4.h",
    "/g/h/h5.h",
    "/g/h/h6.h",
    "/g/h/h7.h",
    "/g/h/h8.h",
    "/g/h/h9.h",
    "/g/s",
    "/g/s/s0.c",
    "/g/s/s1.c",
    "/g/s/s2.c",
];

#[test]
fn makes_one_source(rt: HostRuntime) {
    let (entries, list) = generate(rt.alloc(), 1).expect(&rt, "memory");
    assert!(rt; entries.len() == ONE.len());
    for (entry, (path, text)) in entries.as_slice().iter().zip(ONE.iter()) {
        check_entry(&rt, entry, path, text);
    }
    assert!(rt; list.as_slice() == b"/g s/s0.c -o s0.i -Ih -DF0=0 -DF1=1 -DF2=2\n".as_slice());
}

fn check_entry(rt: &impl Abort, entry: &(CanonPath, Entry), path: &str, text: &Option<&str>) {
    assert!(rt; entry.0.bytes() == path.as_bytes(), "{path}");
    match &entry.1 {
        Entry::Dir => assert!(rt; text.is_none(), "{path}"),
        Entry::File(body) => assert!(rt; holds(body, text), "{path}"),
        Entry::Link(_) => assert!(rt; false, "{path}"),
    }
}

fn holds(body: &Bytes, text: &Option<&str>) -> bool {
    match text {
        Some(text) => body.as_slice() == text.as_bytes(),
        None => false,
    }
}

#[test]
fn sorts_by_bytes(rt: HostRuntime) {
    let (entries, _) = generate(rt.alloc(), 3).expect(&rt, "memory");
    assert!(rt; entries.len() == THREE.len());
    for (entry, path) in entries.as_slice().iter().zip(THREE.iter()) {
        assert!(rt; entry.0.bytes() == path.as_bytes(), "{path}");
    }
}

#[test]
fn makes_large_trees(rt: HostRuntime) {
    check_size(&rt, rt.alloc(), 1000);
    check_size(&rt, rt.alloc(), 5000);
}

// A tree in memory takes five entries for each source and three more, and the list has a line for each source.
fn check_size(rt: &impl Abort, alloc: Global, sources: u32)
    requires { (1 ≤ sources) × (sources ≤ 5000) }
{
    let (entries, list) = generate(alloc, sources).expect(rt, "memory");
    assert!(rt; entries.len() == 5 * sources as usize + 3, "{sources}");
    assert!(rt;
        line_count(list.as_slice()) == sources as usize,
        "{sources}"
    );
    let made = MemTree::<Unnamed>::new(alloc, entries, Vec::new(alloc));
    assert!(rt; made.is_ok(), "{sources}");
}

fn line_count(text: &[u8]) -> usize {
    text.iter().filter(|byte| **byte == b'\n').count()
}
