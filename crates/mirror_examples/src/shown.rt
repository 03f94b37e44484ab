// What a mirror shows of paths, and where texts are located in it.
ghost use Rattle.std.specs.Prelude.{IsTrue};
ghost use Rattle.tree_model.specs.Entries.{bodies_fit, links_fit};

use crate::entries::{Entries, add_file, add_link, add_places, path};
use base_types::{Bytes, List};
use mirror_tree::Mirror;
use std::alloc::{AllocError, Global};
use std::process::Abort;
use tree_model::{CanonPath, Located, Node, Tree, locate};

// An empty directory, a file, a link to a directory, and a directory with a file.
fn add_entries(alloc: Global, entries: &mut Entries) -> Result<(), AllocError>
    requires links { IsTrue (links_fit entries.old.items) }
    requires bodies { IsTrue (bodies_fit entries.old.items) }
    ensures links { IsTrue (links_fit entries.new.items) }
    ensures bodies { IsTrue (bodies_fit entries.new.items) }
{
    add_places(alloc, entries, &["/d/", "/e"])?;
    add_file(alloc, entries, "/f", b"int x;")?;
    add_link(alloc, entries, "/l", b"w/")?;
    add_places(alloc, entries, &["/w/"])?;
    add_file(alloc, entries, "/w/a", b"a")
}

// The mirror of these entries.
fn mirror_of_entries(rt: &impl Abort, alloc: Global) -> Mirror {
    let mut entries = Vec::new(alloc);
    add_entries(alloc, &mut entries).expect(rt, "no memory");
    Mirror::build(alloc, List::of(entries)).expect(rt, "the entries make no tree")
}

fn spelled(bytes: &[u8]) -> &str {
    std::str::from_utf8(bytes).unwrap_or("?")
}

// A node, and behind a blank a link's text; nothing where there is none.
fn node_text(alloc: Global, node: Option<Node>) -> Result<String, AllocError> {
    match node {
        None => Ok(String::new(alloc)),
        Some(Node::Link(target)) => format!(in alloc; "Link {}", spelled(target.as_slice())),
        Some(node) => format!(in alloc; "{node:?}"),
    }
}

// A body, within bars; nothing where there is none.
fn body_text(alloc: Global, body: Option<Bytes>) -> Result<String, AllocError> {
    match body {
        None => Ok(String::new(alloc)),
        Some(body) => format!(in alloc; "|{}|", spelled(body.as_slice())),
    }
}

// The place and the file that a text located; nothing where it located none.
fn located_text(alloc: Global, located: Option<Located>) -> Result<String, AllocError> {
    let Some(Located { place, real, .. }) = located else {
        return Ok(String::new(alloc));
    };
    format!(in alloc; "{} {}", spelled(place.bytes()), spelled(real.bytes()))
}

fn check_text(rt: &impl Abort, row: &str, text: Result<String, AllocError>, want: &str) {
    let text = text.expect(rt, "no memory");
    assert!(rt; text.as_str() == want, "{row} gives {text}");
}

// A path, its node and its body.
type Row<'a> = (&'a str, &'a str, &'a str);

// A tree shows of each path what its row says.
fn check_shown<T: Tree>(rt: &impl Abort, alloc: Global, tree: &mut T, rows: &[Row<'_>]) {
    for row in rows {
        check_row(rt, alloc, tree, row);
    }
}

fn check_row<T: Tree>(rt: &impl Abort, alloc: Global, tree: &mut T, row: &Row<'_>) {
    let (place, node, body) = *row;
    let path = path(alloc, place).expect(rt, "no memory");
    let found = tree.node(&path).expect(rt, "no node");
    check_text(rt, place, node_text(alloc, found), node);
    let found = tree.read(&path).expect(rt, "no body");
    check_text(rt, place, body_text(alloc, found), body);
}

const EMPTY: &[Row<'static>] = &[("/", "Dir", ""), ("/w", "", "")];

#[test]
fn an_empty_list_is_the_tree_of_the_root(rt: HostRuntime) {
    let none = List::new(rt.alloc());
    let mut mirror = Mirror::build(rt.alloc(), none).expect(&rt, "the entries make no tree");
    check_shown(&rt, rt.alloc(), &mut mirror, EMPTY);
}

const SHOWN: &[Row<'static>] = &[
    ("/", "Dir", ""),
    ("/d", "Dir", ""),
    ("/e", "File", "||"),
    ("/f", "File", "|int x;|"),
    ("/l", "Link w/", ""),
    ("/w", "Dir", ""),
    ("/w/a", "File", "|a|"),
    ("/d/x", "", ""),
    ("/l/a", "", ""),
    ("/x", "", ""),
];

#[test]
fn nodes_and_bodies_are_shown(rt: HostRuntime) {
    let mut mirror = mirror_of_entries(&rt, rt.alloc());
    check_shown(&rt, rt.alloc(), &mut mirror, SHOWN);
}

// A text locates this from the root.
fn check_located<T: Tree>(rt: &impl Abort, alloc: Global, tree: &mut T, text: &str, want: &str) {
    let root = CanonPath::root(alloc).expect(rt, "no memory");
    let located = locate(alloc, tree, &root, text.as_bytes()).expect(rt, "no search");
    check_text(rt, text, located_text(alloc, located), want);
}

// A text, and the place and the file that it locates.
const LOCATED: &[(&str, &str)] = &[
    ("f", "/f /f"),
    ("w/a", "/w/a /w/a"),
    ("l/a", "/w/a /w/a"),
    ("l/../d/../f", "/f /f"),
    ("d", ""),
    ("d/x", ""),
    ("f/.", ""),
];

#[test]
fn texts_are_located_through_links(rt: HostRuntime) {
    let mut mirror = mirror_of_entries(&rt, rt.alloc());
    for (text, want) in LOCATED {
        check_located(&rt, rt.alloc(), &mut mirror, text, want);
    }
}
