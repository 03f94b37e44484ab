// Why lists of entries make no tree.
use crate::entries::add_places;
use base_types::List;
use mirror_tree::Mirror;
use std::alloc::Global;
use std::process::Abort;
use tree_model::MirrorError::{self, Order, Parent};
use tree_model::judge_entries;

// Entries by their paths, a directory's with a `/` at its end, and why they make no tree.
type Row<'a> = (&'a [&'a str], Option<MirrorError>);

// A list is refused for this reason, or not at all.
fn check_row(rt: &impl Abort, alloc: Global, places: &[&str], want: Option<MirrorError>) {
    let mut entries = Vec::new(alloc);
    add_places(alloc, &mut entries, places).expect(rt, "no memory");
    check_reason(rt, places, judge_entries(entries.as_slice()), want);
    let built = Mirror::build(alloc, List::of(entries));
    check_reason(rt, places, built.err(), want);
}

fn check_reason(
    rt: &impl Abort,
    places: &[&str],
    found: Option<MirrorError>,
    want: Option<MirrorError>,
) {
    assert!(rt; found == want, "{places:?}: {found:?}");
}

const LISTS: &[Row<'static>] = &[
    (&[], None),
    (&["/a"], None),
    (&["/w/", "/w/a"], None),
    (&["/w/", "/w.c", "/w/a", "/w/b/", "/w/b/c"], None),
    (&["/w/a"], Some(Parent)),
    (&["/w", "/w/a"], Some(Parent)),
    (&["/v/", "/w/a"], Some(Parent)),
    (&["/"], Some(Parent)),
    (&["/", "/a"], Some(Parent)),
    (&["/a", "/"], Some(Order)),
    (&["/b", "/a"], Some(Order)),
    (&["/a", "/a"], Some(Order)),
    (&["/w/a", "/w/"], Some(Order)),
    (&["/w/", "/w/a", "/w.c"], Some(Order)),
];

#[test]
fn lists_make_trees_or_have_a_reason(rt: HostRuntime) {
    for (places, want) in LISTS {
        check_row(&rt, rt.alloc(), places, *want);
    }
}
