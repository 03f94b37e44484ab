// A tree of files, and searches in it.
ghost use Rattle.std.specs.Prelude.{IsTrue};
ghost use Rattle.tree_model.specs.Entries.{links_fit};
ghost use Rattle.search_path.specs.Search.{NeedsFrom};

use base_types::{Bytes, List};
use case_texts::{Stands, add_node};
use search_path::{Ask, Form, Found, Setup, Visit, search};
use std::alloc::{AllocError, Global};
use std::process::Abort;
use tree_model::{CanonPath, Entry, MemTree, Tree, Unnamed};

/// The directories of a search in `/w`, the place of the file that asks, and the number of the tree's call that fails; with 0
/// none does.
#[derive(Clone, Copy, Drop)]
pub struct Places<'a> {
    pub quote: &'a [&'a str],
    pub bracket: &'a [&'a str],
    pub asker: &'a str,
    pub fails: u64,
}

/// A form, how the file that asks was found, a name, and what its search gives: how the file was found, its place and its
/// real path, or nothing, or `Fault`.
pub type Row<'a> = (Form, Option<Found>, &'a str, &'a str);

/// The directories of quoted names that most tests search.
pub const QUOTE: &[&str] = &["q", "/r"];

/// The directories of all names that most tests search.
pub const BRACKET: &[&str] = &["b", "c", "/a", "z"];

/// A source in a directory of its own.
pub const SOURCE: &str = "/w/s/s.c";

/// What most tests search.
pub const CHAIN: &Places<'static> = &Places {
    quote: QUOTE,
    bracket: BRACKET,
    asker: SOURCE,
    fails: 0,
};

/// Each search gives what its row says.
pub fn check(rt: &impl Abort, alloc: Global, places: &Places<'_>, rows: &[Row<'_>]) {
    let setup = setup_of(rt, alloc, places);
    for row in rows {
        check_row(rt, alloc, places, &setup, row);
    }
}

/// The setup of these directories.
pub fn setup_of(rt: &impl Abort, alloc: Global, places: &Places<'_>) -> Setup {
    let cwd = Bytes::copy_of(alloc, b"/w").expect(rt, "no memory");
    let quote = texts(rt, alloc, places.quote);
    let bracket = texts(rt, alloc, places.bracket);
    assert!(rt; quote.len() < 100 && bracket.len() < 100);
    Setup::new(alloc, cwd, quote, bracket, false).expect(rt, "no memory")
}

fn texts(rt: &impl Abort, alloc: Global, texts: &[&str]) -> List<Bytes> {
    let mut list = List::new(alloc);
    for text in texts {
        let text = Bytes::copy_of(alloc, text.as_bytes()).expect(rt, "no memory");
        list.push(text).expect(rt, "no memory");
    }
    list
}

fn check_row(rt: &impl Abort, alloc: Global, places: &Places<'_>, setup: &Setup, row: &Row<'_>) {
    let mut tree = tree_of(rt, alloc, places.fails);
    let ask = asked(rt, alloc, places.asker, row);
    let text = shown(alloc, &mut tree, setup, &ask).expect(rt, "no memory");
    check_shown(rt, row, text.as_str());
}

fn check_shown(rt: &impl Abort, row: &Row<'_>, text: &str) {
    let (form, from, name, want) = row;
    assert!(rt; text == *want, "{form:?} {from:?} {name} gives {text}");
}

// The ask of a row.
fn asked(rt: &impl Abort, alloc: Global, asker: &str, row: &Row<'_>) -> Ask
    ensures { NeedsFrom result.form result.from }
{
    let (form, found, name, _) = *row;
    let name = Bytes::copy_of(alloc, name.as_bytes()).expect(rt, "no memory");
    match found {
        Some(found) => {
            let place = path(alloc, asker).expect(rt, "no memory");
            let from = Some(Visit { place, found });
            Ask { form, from, name }
        }
        None => match form {
            Form::Source | Form::Forced => Ask {
                form,
                from: None,
                name,
            },
            _ => rt.panic("no file asks"),
        },
    }
}

// What a search gives, as rows have it.
fn shown<T: Tree>(
    alloc: Global,
    tree: &mut T,
    setup: &Setup,
    ask: &Ask,
) -> Result<String, AllocError>
    requires { NeedsFrom ask.now.form ask.now.from }
{
    match search(alloc, tree, setup, ask) {
        Ok(Some((visit, located))) => {
            let copy = located.copy(alloc)?;
            shown_place(alloc, &visit, &copy.real)
        }
        Ok(None) => Ok(String::new(alloc)),
        Err(error) => format!(in alloc; "{error:?}"),
    }
}

fn shown_place(alloc: Global, visit: &Visit, real: &CanonPath) -> Result<String, AllocError> {
    let found = visit.found;
    format!(in alloc; "{found:?} {} {}", spelled(&visit.place), spelled(real))
}

fn spelled(path: &CanonPath) -> &str {
    std::str::from_utf8(path.bytes()).unwrap_or("?")
}

/// The path that a text spells, or the root where it spells none.
pub fn path(alloc: Global, text: &str) -> Result<CanonPath, AllocError> {
    match CanonPath::read(alloc, text.as_bytes())? {
        Some(path) => Ok(path),
        None => CanonPath::root(alloc),
    }
}

// The entries of the tree but for its links: a text that ends with `/` is a directory's, and any other a file's.
const PLACES: &[&str] = &[
    "/a/",
    "/a/abs.h",
    "/a/x.h",
    "/r/",
    "/r/r.h",
    "/r/x.h",
    "/w/",
    "/w/a.c",
    "/w/b/",
    "/w/b/b.h",
    "/w/b/d.h/",
    "/w/b/x.h",
    "/w/c/",
    "/w/c/d.h",
    "/w/c/x.h",
    "/w/cwd.h",
    "/w/force.h",
    "/w/q/",
    "/w/q/force.h",
    "/w/q/q.h",
    "/w/q/x.h",
    "/w/s/",
    "/w/s/beside.h",
    "/w/s/s.c",
    "/w/s/x.h",
    "/w/z/",
];

type Entries = Vec<(CanonPath, Entry)>;

// The tree, with its call of this number failing.
fn tree_of(rt: &impl Abort, alloc: Global, fails: u64) -> MemTree<Unnamed> {
    let mut entries = Vec::new(alloc);
    add_entries(alloc, &mut entries).expect(rt, "no memory");
    let fails = vec![in alloc; fails].expect(rt, "no memory");
    MemTree::new(alloc, entries, fails).expect(rt, "the entries make no tree")
}

fn add_entries(alloc: Global, entries: &mut Entries) -> Result<(), AllocError>
    requires { IsTrue (links_fit entries.old.items) }
    ensures { IsTrue (links_fit entries.new.items) }
{
    for place in PLACES {
        add_place(alloc, entries, place)?;
    }
    add_node(alloc, entries, b"/w/z/link.h", Stands::Link, b"../b/b.h")?;
    add_node(alloc, entries, b"/w/zz", Stands::Link, b"c")
}

fn add_place(alloc: Global, entries: &mut Entries, place: &str) -> Result<(), AllocError>
    requires { IsTrue (links_fit entries.old.items) }
    ensures { IsTrue (links_fit entries.new.items) }
{
    match place.strip_suffix('/') {
        Some(dir) => add_node(alloc, entries, dir.as_bytes(), Stands::Dir, b""),
        None => add_node(alloc, entries, place.as_bytes(), Stands::File, b""),
    }
}
