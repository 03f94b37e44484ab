// A sheet of each part.
ghost use Rattle.std.specs.Prelude.{IsTrue};
ghost use Rattle.tree_model.specs.Entries.{links_fit};

use base_types::{Bytes, List};
use case_texts::{Stands, add_node};
use closure_memo::{Kept, MemoState};
use pp_tokens::Token;
use search_path::{Found, Setup, Visit};
use sheet_build::{Computed, Sheet, SheetKey, SheetMemo, Unweighed, sheet};
use std::alloc::{AllocError, Global};
use std::process::Abort;
use tree_model::{CanonPath, Entry, MemTree, Tree, Unnamed};

const SOURCE: &str = "\
text
#define A(x) x + 1
#define 3
#define A 2
#include \"b.h\"
#include \"none.h\"
#include NAME
#include_next <n.h>
#include_next NEXT (1)
#ifdef A
#include <q.h>
#endif
#if __has_include(\"p.h\") && __has_include(PROBED) && A
#elif 0 || __has_include(<q.h>)
#elif __has_include(none
#endif
#line 7
";

const SHOWN: &str = "\
define A
define A
file /w/b.h
file /w/n/n.h
file /w/q/q.h
probe /w/p.h
probe /w/q/q.h
computed Quote false NAME
computed NextQuote false NEXT ( 1 )
computed Quote true PROBED
line true
";

// A text that ends with `/` is a directory's, and any other a file's.
const PLACES: &[(&str, &str)] = &[
    ("/w/", ""),
    ("/w/a.c", SOURCE),
    ("/w/b.h", "#define B"),
    ("/w/n/", ""),
    ("/w/n/n.h", ""),
    ("/w/p.h", ""),
    ("/w/q/", ""),
    ("/w/q/q.h", ""),
];

#[test]
fn a_sheet_has_what_directives_ask_for_and_define(rt: HostRuntime) {
    let text = shown_at(&rt, rt.alloc(), "/w/a.c");
    assert_eq!(&rt; text.as_str(), SHOWN);
}

#[test]
fn no_file_has_an_empty_sheet(rt: HostRuntime) {
    let text = shown_at(&rt, rt.alloc(), "/w/none.c");
    assert_eq!(&rt; text.as_str(), "line false\n");
}

// The definitions have 3 and 1 tokens, the computed targets 1, 4 and 1. A file found beside the source was walked to by 2 nodes,
// and one found from the root by 5: the directory that a walk starts from, the root, /w, a directory and the file.
#[test]
fn a_memo_finds_a_sheet_that_was_published(rt: HostRuntime) {
    let key = key_of(rt.alloc(), "/w/a.c").expect(&rt, "no memory");
    let sheet = sheet_at(&rt, rt.alloc(), &key);
    let weight = sheet.weight();
    assert!(&rt; weight == 1 + 4 + 6 + 2 * 2 + 3 * 5, "{weight}");
    check_memo(&rt, rt.alloc(), key, sheet);
}

fn check_memo(rt: &impl Abort, alloc: Global, key: SheetKey, sheet: Sheet) {
    let mut memo = MemoState::<SheetMemo<Unnamed>>::new(alloc);
    let other = key_of(alloc, "/w/b.h").expect(rt, "no memory");
    let same = key.copy(alloc).expect(rt, "no memory");
    assert!(rt; same == key && same != other, "keys");
    let kept = memo.publish(0, key, sheet).expect(rt, "no memory");
    assert!(rt; kept == Kept::New, "{kept:?}");
    let none = memo.look(0, &other).expect(rt, "no memory");
    assert!(rt; none.is_none(), "a sheet of another key");
    let found = memo.look(0, &same).expect(rt, "no memory");
    assert!(rt; found.is_some(), "no sheet");
}

// The key of the file at a place, as the source.
fn key_of(alloc: Global, place: &str) -> Result<SheetKey, AllocError> {
    let visit = Visit {
        place: path(alloc, place)?,
        found: Found::Primary,
    };
    Ok(SheetKey {
        setup: setup_of(alloc)?,
        visit,
    })
}

fn sheet_at(rt: &impl Abort, alloc: Global, key: &SheetKey) -> Sheet {
    read_sheet(rt, alloc, &mut tree_of(rt, alloc), &key.setup, &key.visit)
}

// The sheet of the file at a place, as text.
fn shown_at(rt: &impl Abort, alloc: Global, place: &str) -> String {
    let key = key_of(alloc, place).expect(rt, "no memory");
    let copy = sheet_at(rt, alloc, &key)
        .copy()
        .expect(rt, "too many copies");
    shown(alloc, &copy.unweighed()).expect(rt, "no memory")
}

// A sheet over any tree.
fn read_sheet<T: Tree>(
    rt: &impl Abort,
    alloc: Global,
    tree: &mut T,
    setup: &Setup,
    visit: &Visit,
) -> Sheet {
    sheet(alloc, tree, setup, visit).expect(rt, "no sheet")
}

fn setup_of(alloc: Global) -> Result<Setup, AllocError> {
    let mut bracket = List::new(alloc);
    bracket.push(Bytes::copy_of(alloc, b"q")?)?;
    bracket.push(Bytes::copy_of(alloc, b"n")?)?;
    let cwd = Bytes::copy_of(alloc, b"/w")?;
    Setup::new(alloc, cwd, List::new(alloc), bracket, false)
}

fn path(alloc: Global, text: &str) -> Result<CanonPath, AllocError> {
    match CanonPath::read(alloc, text.as_bytes())? {
        Some(path) => Ok(path),
        None => CanonPath::root(alloc),
    }
}

type Entries = Vec<(CanonPath, Entry)>;

fn tree_of(rt: &impl Abort, alloc: Global) -> MemTree<Unnamed> {
    let mut entries = Vec::new(alloc);
    add_entries(alloc, &mut entries).expect(rt, "no memory");
    MemTree::new(alloc, entries, Vec::new(alloc)).expect(rt, "the entries make no tree")
}

fn add_entries(alloc: Global, entries: &mut Entries) -> Result<(), AllocError>
    requires { IsTrue (links_fit entries.old.items) }
    ensures { IsTrue (links_fit entries.new.items) }
{
    for (place, body) in PLACES {
        add_place(alloc, entries, place, body)?;
    }
    Ok(())
}

fn add_place(
    alloc: Global,
    entries: &mut Entries,
    place: &str,
    body: &str,
) -> Result<(), AllocError>
    requires { IsTrue (links_fit entries.old.items) }
    ensures { IsTrue (links_fit entries.new.items) }
{
    match place.strip_suffix('/') {
        Some(dir) => add_node(alloc, entries, dir.as_bytes(), Stands::Dir, b""),
        None => add_node(
            alloc,
            entries,
            place.as_bytes(),
            Stands::File,
            body.as_bytes(),
        ),
    }
}

// A sheet, a line for each thing that it has.
fn shown(alloc: Global, sheet: &Unweighed) -> Result<String, AllocError> {
    let mut out = String::new(alloc);
    let defs = sheet.defs(alloc)?;
    for (name, _) in defs.as_slice() {
        add_line(&mut out, "define ", name.as_slice())?;
    }
    add_files(&mut out, sheet)?;
    for computed in sheet.computed() {
        add_computed(alloc, &mut out, computed)?;
    }
    out.push_str(if sheet.has_line() {
        "line true\n"
    } else {
        "line false\n"
    })?;
    Ok(out)
}

fn add_files(out: &mut String, sheet: &Unweighed) -> Result<(), AllocError> {
    for (visit, _) in sheet.plain() {
        add_line(out, "file ", visit.place.bytes())?;
    }
    for located in sheet.probes() {
        add_line(out, "probe ", located.place.bytes())?;
    }
    Ok(())
}

fn add_computed(alloc: Global, out: &mut String, computed: &Computed) -> Result<(), AllocError> {
    let (form, probe) = (computed.form(), computed.is_probe());
    let front = format!(in alloc; "computed {form:?} {probe}")?;
    out.push_str(front.as_str())?;
    add_tokens(out, computed.tokens())?;
    out.push_str("\n")
}

fn add_tokens(out: &mut String, tokens: &[Token]) -> Result<(), AllocError> {
    for token in tokens {
        out.push_str(" ")?;
        out.push_str(spelled(token.text.as_slice()))?;
    }
    Ok(())
}

fn add_line(out: &mut String, what: &str, text: &[u8]) -> Result<(), AllocError> {
    out.push_str(what)?;
    out.push_str(spelled(text))?;
    out.push_str("\n")
}

fn spelled(text: &[u8]) -> &str {
    std::str::from_utf8(text).unwrap_or("?")
}
