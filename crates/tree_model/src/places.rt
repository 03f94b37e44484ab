// Where the entries of a list stand.
//
// A walk looks at each node on its way, and a search at many that aren't there. By the number of a path's spelling both cost one look-up, where
// a binary search compares a long spelling for each halving, and most spellings have long fronts in common.
ghost use Rattle.std.specs.Prelude.{◌≡◌, IfOk, IfSome, IsTrue};
ghost use Rattle.std.specs.List.{list_all};
ghost use Rattle.std.specs.Option.{option_map};
ghost use Rattle.tree_model.specs.Entries.{Increasing};
ghost use Rattle.tree_model.specs.Trees.{by_bytes};
ghost use Rattle.tree_model.specs.parts.Placed.{all_placed, is_placed};

use crate::order::entry_spelled;
use crate::reached::number_of;
use crate::{CanonPath, Entry};
use std::alloc::{AllocError, Global};
use std::collections::HashMap;

/// Where the entries of a list stand, by a number that is made of their paths' spellings.
#[derive(Drop)]
pub struct Places {
    // of entries with one number the last stays; None where there was no memory for all
    known: Option<HashMap<u64, usize>>,
}

// The places of entries, by their numbers.
fn places_of(
    alloc: Global,
    entries: &[(CanonPath, Entry)],
) -> Result<HashMap<u64, usize>, AllocError>
    ensures { IfOk result (λ places. IsTrue (list_all (is_placed places) entries.now)) }
{
    let mut places = HashMap::with_capacity(alloc, entries.len())?;
    for i in 0..entries.len() {
        places.insert(number_of(entries[i].0.bytes()), i)?;
    }
    Ok(places)
}

// The entry at a place, where its path is spelled so.
fn spelled_at<'a>(entries: &'a [(CanonPath, Entry)], place: usize, text: &[u8]) -> Option<&'a Entry>
    requires { Increasing entries.now }
    ensures { IfSome result (λ entry. by_bytes text.now entries.now ≡ Some entry.now) }
{
    if place >= entries.len() {
        return None;
    }
    let entry = &entries[place];
    if entry.0.bytes() != text {
        return None;
    }
    Some(&entry.1)
}

impl Places {
    /// Those of a list of entries. Without memory for them nothing is known, and entries are searched.
    pub fn of(alloc: Global, entries: &[(CanonPath, Entry)]) -> Places
        ensures { IsTrue (all_placed result.known entries.now) }
    {
        Places {
            known: places_of(alloc, entries).ok(),
        }
    }

    /// The entry of the list whose path is spelled so, in constant time on average.
    pub fn entry<'a>(&self, entries: &'a [(CanonPath, Entry)], text: &[u8]) -> Option<&'a Entry>
        requires increasing { Increasing entries.now }
        requires placed { IsTrue (all_placed self.now.known entries.now) }
        ensures { option_map (λ entry. entry.now) result ≡ by_bytes text.now entries.now }
    {
        let Some(known) = &self.known else {
            return entry_spelled(entries, text);
        };
        let Some(place) = known.get(&number_of(text)) else {
            return None;
        };
        match spelled_at(entries, *place, text) {
            Some(entry) => Some(entry),
            None => entry_spelled(entries, text),
        }
    }
}
