// Setups and visits as keys of tables, and their copies.
use crate::tree::{BRACKET, CHAIN, Places, QUOTE, path, setup_of};
use search_path::{Found, Visit};
use std::alloc::Global;
use std::collections::HashSet;
use std::hash::Hash;
use std::process::Abort;

// The first two keys are the same, and the third is another.
fn check_keys<K: Eq + Hash + Drop>(rt: &impl Abort, alloc: Global, one: K, same: K, other: K) {
    assert!(rt; one == same && one != other);
    let mut known = HashSet::new(alloc);
    let first = known.insert(one).expect(rt, "no memory");
    let again = known.insert(same).expect(rt, "no memory");
    let next = known.insert(other).expect(rt, "no memory");
    assert!(rt; first && !again && next);
}

#[test]
fn a_setup_and_its_copy_are_one_key(rt: HostRuntime) {
    let one = setup_of(&rt, rt.alloc(), CHAIN);
    let same = one.copy().expect(&rt, "no memory");
    let places = Places {
        quote: BRACKET,
        bracket: QUOTE,
        ..*CHAIN
    };
    let other = setup_of(&rt, rt.alloc(), &places);
    assert!(&rt; same.quote().len() == QUOTE.len());
    check_keys(&rt, rt.alloc(), one, same, other);
}

#[test]
fn setups_of_the_same_texts_are_one_key(rt: HostRuntime) {
    let one = setup_of(&rt, rt.alloc(), CHAIN);
    let same = setup_of(&rt, rt.alloc(), CHAIN);
    let places = Places {
        quote: &["q"],
        ..*CHAIN
    };
    let other = setup_of(&rt, rt.alloc(), &places);
    check_keys(&rt, rt.alloc(), one, same, other);
}

fn visit(rt: &impl Abort, alloc: Global, place: &str, found: Found) -> Visit {
    let place = path(alloc, place).expect(rt, "no memory");
    Visit { place, found }
}

#[test]
fn a_visit_is_a_place_and_how_it_was_found(rt: HostRuntime) {
    let one = visit(&rt, rt.alloc(), "/w/x.h", Found::Chain(2));
    let same = one.copy(rt.alloc()).expect(&rt, "no memory");
    let other = visit(&rt, rt.alloc(), "/w/x.h", Found::Chain(3));
    check_keys(&rt, rt.alloc(), one, same, other);
}
