// The names that don't replace a token any more: the ones added last in front, and the others as a trie over the bits of their
// hashes (specs/parts/Tries.antt).
//
// Most sets have few names, so one more name is one link in front, and the rest is shared with the set that it is added to. Where 16 names
// stand in front, they go into the trie first: each takes new nodes on the way that its hash says, and the others are shared. So a name
// more costs one link, and in a long chain of sets a way as well; a name is looked for among 16 at most, and then on one way.
//
// Where the smaller of two sets is what the other was made of, a union or an intersection is a copy, and mostly costs one step for each
// name; else it looks for each name of the smaller. What the model keeps is `IsOrdered`: every name is met on its way.
ghost use Rattle.std.specs.Prelude.{◌≡◌, IfOk};
ghost use Rattle.macro_expand.specs.parts.Tries as tries;
ghost use Rattle.macro_expand.specs.Sets.{names_in};
ghost use Rattle.macro_expand.specs.parts.Tries.{IsOrdered, name_hash, Linked, Branch, trie_names, trie_of, found, with_leaf, with_front, with_common, with_all_common};

use base_types::Bytes;
use std::alloc::{AllocError, Global};
use std::marker::Model;
use std::rc::Rc;

// As many names as one more may be put in front of.
const ROOM: usize = 15;

// A hide set (ISO C 6.10.3.4 paragraph 2). Sets share what they have in common: a copy takes no memory.
#[derive(Drop)]
pub(crate) struct HideSet {
    names: Trie,
    // How many names it has, by which the smaller of two sets is chosen.
    count: usize,
}

// The names of a set that is being made, and how many they are.
#[derive(Drop)]
struct Growing {
    names: Trie,
    count: usize,
}

// The names. Recent ones stand in front of the older ones. Those behind stand by the bits of their hashes, the lowest first, each on
// the side that the bits say. Past the 64 bits all stand on the side of 0.
#[cycle(trie)]
#[derive(Drop)]
enum Trie {
    Empty,
    Recent(Rc<Link>),
    Fork(Rc<Node>),
}

#[cycle(trie)]
#[derive(Drop)]
struct Link {
    name: Bytes,
    hash: u64,
    older: Trie,
}

#[cycle(trie)]
#[derive(Drop)]
struct Node {
    name: Bytes,
    hash: u64,
    zero: Trie,
    one: Trie,
}

impl Model for HideSet {
    ghost use Rattle.std.specs.Prelude.{ℕ, List};
    ghost use Rattle.macro_expand.specs.parts.Tries.{trie_of, trie_names, IsOrdered};

    ghost Value = { List (List ℕ) };

    ghost view = { λ s. trie_names (trie_of s.names) };

    ghost invariant = { λ s. IsOrdered (trie_of s.names) };
}

impl HideSet {
    ghost use Rattle.std.specs.Prelude.{[], ◌≡◌, ◌&&◌, ◌||◌, true, IfOk, ℕ, List, bytes_eq};
    ghost use Rattle.macro_expand.specs.Sets.{names_in};

    #[inline(always)]
    pub(crate) fn none() -> HideSet
        ensures { result ≡ [] }
    {
        HideSet {
            names: Trie::Empty,
            count: 0,
        }
    }

    #[inline(always)]
    pub(crate) fn is_none(&self) -> bool
        ensures { result ≡ true → self.now ≡ [] }
    {
        matches!(self.names, Trie::Empty)
    }

    #[inline(always)]
    pub(crate) fn hides(&self, name: &[u8]) -> bool
        ensures { result ≡ names_in self.now name.now }
    {
        has_name(&self.names, name)
    }

    #[inline(always)]
    pub(crate) fn copy(&self) -> Result<HideSet, AllocError>
        ensures { IfOk result (λ h. h ≡ self.now) }
    {
        Ok(HideSet {
            names: shared(&self.names)?,
            count: self.count,
        })
    }

    // Whether the two are built alike, as copies of one set are. It costs a step for each name, and one step where one has more.
    pub(crate) fn is_same(&self, other: &HideSet) -> bool
        ensures { result ≡ true → self.now ≡ other.now }
    {
        if self.count != other.count {
            return false;
        }
        is_same(&self.names, &other.names)
    }

    // This set and one more name.
    pub(crate) fn with(&self, alloc: Global, name: &[u8]) -> Result<HideSet, AllocError>
        ensures { IfOk result (λ h. (n : List ℕ) → names_in h n ≡ (bytes_eq n name.now || names_in self.now n)) }
    {
        let hash = hash_of(name);
        Ok(HideSet {
            names: linked(alloc, &self.names, name, hash)?,
            count: self.count.saturating_add(1),
        })
    }

    // The names that one of both sets hides.
    pub(crate) fn all(&self, alloc: Global, other: &HideSet) -> Result<HideSet, AllocError>
        ensures { IfOk result (λ h. (n : List ℕ) → names_in h n ≡ (names_in self.now n || names_in other.now n)) }
    {
        if self.count < other.count {
            return other.with_all(alloc, self);
        }
        self.with_all(alloc, other)
    }

    // The names that both sets hide (6.10.3.4).
    pub(crate) fn common(&self, alloc: Global, other: &HideSet) -> Result<HideSet, AllocError>
        ensures { IfOk result (λ h. (n : List ℕ) → names_in h n ≡ (names_in self.now n && names_in other.now n)) }
    {
        if self.count < other.count {
            return self.kept_by(alloc, other);
        }
        other.kept_by(alloc, self)
    }

    // This set and all names of a smaller one.
    fn with_all(&self, alloc: Global, smaller: &HideSet) -> Result<HideSet, AllocError>
        ensures { IfOk result (λ h. (n : List ℕ) → names_in h n ≡ (names_in self.now n || names_in smaller.now n)) }
    {
        if stands_in(&smaller.names, &self.names) {
            return self.copy();
        }
        let set = Growing {
            names: shared(&self.names)?,
            count: self.count,
        };
        let made = all_added(alloc, set, &smaller.names)?;
        Ok(HideSet {
            names: made.names,
            count: made.count,
        })
    }

    // The names of this set that a larger one hides too.
    fn kept_by(&self, alloc: Global, larger: &HideSet) -> Result<HideSet, AllocError>
        ensures { IfOk result (λ h. (n : List ℕ) → names_in h n ≡ (names_in self.now n && names_in larger.now n)) }
    {
        if stands_in(&self.names, &larger.names) {
            return self.copy();
        }
        if has_all(&larger.names, &self.names) {
            return self.copy();
        }
        let set = Growing {
            names: Trie::Empty,
            count: 0,
        };
        let made = common_added(alloc, set, &self.names, &larger.names)?;
        Ok(HideSet {
            names: made.names,
            count: made.count,
        })
    }
}

// The FNV-1a hash of 64 bits.
#[tactic(auto, unfolding(crate::specs::parts::Tries::name_hash))]
fn hash_of(name: &[u8]) -> u64
    ensures { result ≡ name_hash name.now }
{
    let mut hash: u64 = 0xcbf29ce484222325;
    for b in name {
        hash ^= u64::from(*b);
        hash = hash.wrapping_mul(0x100000001b3);
    }
    hash
}

// Whether a name is one of a trie's. Those in front are compared at once, since few names are as long as another: a hash costs more.
fn has_name(trie: &Trie, name: &[u8]) -> bool
    requires { IsOrdered (trie_of trie.now) }
    ensures { result ≡ names_in (trie_names (trie_of trie.now)) name.now }
{
    match trie {
        Trie::Empty => false,
        Trie::Recent(link) => {
            if name == link.name.as_slice() {
                return true;
            }
            has_name(&link.older, name)
        }
        Trie::Fork(_) => {
            let hash = hash_of(name);
            finds(trie, name, hash, hash)
        }
    }
}

// Whether a name is met on the way that its key says, which is what is left of its hash.
fn finds(trie: &Trie, name: &[u8], hash: u64, key: u64) -> bool
    ensures { result ≡ found name.now hash key (trie_of trie.now) }
{
    match trie {
        Trie::Empty => false,
        Trie::Recent(link) => {
            if is_same_name(name, hash, &link.name, link.hash) {
                return true;
            }
            finds(&link.older, name, hash, key)
        }
        Trie::Fork(node) => {
            if is_same_name(name, hash, &node.name, node.hash) {
                return true;
            }
            if key % 2 == 0 {
                return finds(&node.zero, name, hash, key / 2);
            }
            finds(&node.one, name, hash, key / 2)
        }
    }
}

// Whether a name with its hash is the same as one that is kept with its own. The bytes are compared only where the hashes are equal.
fn is_same_name(name: &[u8], hash: u64, kept: &Bytes, kept_hash: u64) -> bool
    ensures { result ≡ tries.is_same_name name.now hash kept.now kept_hash }
{
    if hash != kept_hash {
        return false;
    }
    name == kept.as_slice()
}

// Whether two names that are kept are the same.
fn have_same_name(name: &Bytes, hash: u64, other: &Bytes, other_hash: u64) -> bool
    ensures { result ≡ tries.is_same_name name.now hash other.now other_hash }
{
    if hash != other_hash {
        return false;
    }
    name.as_slice() == other.as_slice()
}

// The same trie, shared.
fn shared(trie: &Trie) -> Result<Trie, AllocError>
    ensures { IfOk result (λ t. trie_of t ≡ trie_of trie.now) }
{
    match trie {
        Trie::Empty => Ok(Trie::Empty),
        Trie::Recent(link) => Ok(Trie::Recent(link.clone()?)),
        Trie::Fork(node) => Ok(Trie::Fork(node.clone()?)),
    }
}

fn front(alloc: Global, name: &[u8], hash: u64, older: Trie) -> Result<Trie, AllocError>
    ensures { IfOk result (λ t. trie_of t ≡ Linked name.now hash (trie_of older)) }
{
    let link = Link {
        name: Bytes::copy_of(alloc, name)?,
        hash,
        older,
    };
    Ok(Trie::Recent(Rc::new(alloc, link)?))
}

fn fork(alloc: Global, name: &[u8], hash: u64, zero: Trie, one: Trie) -> Result<Trie, AllocError>
    ensures { IfOk result (λ t. trie_of t ≡ Branch name.now hash (trie_of zero) (trie_of one)) }
{
    let node = Node {
        name: Bytes::copy_of(alloc, name)?,
        hash,
        zero,
        one,
    };
    Ok(Trie::Fork(Rc::new(alloc, node)?))
}

// The trie with one more name behind those in front. The nodes on the way to it are new, and the others are shared.
fn added(alloc: Global, trie: &Trie, name: &[u8], hash: u64, key: u64) -> Result<Trie, AllocError>
    ensures { IfOk result (λ t. trie_of t ≡ with_leaf name.now hash key (trie_of trie.now)) }
{
    match trie {
        Trie::Empty => fork(alloc, name, hash, Trie::Empty, Trie::Empty),
        Trie::Recent(link) => {
            let older = added(alloc, &link.older, name, hash, key)?;
            front(alloc, link.name.as_slice(), link.hash, older)
        }
        Trie::Fork(node) => {
            if is_same_name(name, hash, &node.name, node.hash) {
                return shared(trie);
            }
            if key % 2 == 0 {
                let zero = added(alloc, &node.zero, name, hash, key / 2)?;
                return fork(
                    alloc,
                    node.name.as_slice(),
                    node.hash,
                    zero,
                    shared(&node.one)?,
                );
            }
            let one = added(alloc, &node.one, name, hash, key / 2)?;
            fork(
                alloc,
                node.name.as_slice(),
                node.hash,
                shared(&node.zero)?,
                one,
            )
        }
    }
}

// The trie with no name in front: they are put into it, the oldest first.
fn gathered(alloc: Global, trie: &Trie) -> Result<Trie, AllocError>
    ensures { IfOk result (λ t. trie_of t ≡ tries.gathered (trie_of trie.now)) }
{
    match trie {
        Trie::Empty => Ok(Trie::Empty),
        Trie::Recent(link) => {
            let older = gathered(alloc, &link.older)?;
            added(alloc, &older, link.name.as_slice(), link.hash, link.hash)
        }
        Trie::Fork(_) => shared(trie),
    }
}

// Whether more names than these stand in front.
fn has_more_in_front(trie: &Trie, room: usize) -> bool
    ensures { result ≡ tries.has_more_in_front room (trie_of trie.now) }
{
    match trie {
        Trie::Empty => false,
        Trie::Recent(link) => {
            if room == 0 {
                return true;
            }
            has_more_in_front(&link.older, room - 1)
        }
        Trie::Fork(_) => false,
    }
}

// The trie in front of which one more name is put.
fn with_room(alloc: Global, trie: &Trie) -> Result<Trie, AllocError>
    ensures { IfOk result (λ t. trie_of t ≡ tries.with_room (trie_of trie.now)) }
{
    if has_more_in_front(trie, ROOM) {
        return gathered(alloc, trie);
    }
    shared(trie)
}

// The trie with one more name in front.
fn linked(alloc: Global, trie: &Trie, name: &[u8], hash: u64) -> Result<Trie, AllocError>
    ensures { IfOk result (λ t. trie_of t ≡ with_front name.now hash (trie_of trie.now)) }
{
    let older = with_room(alloc, trie)?;
    front(alloc, name, hash, older)
}

// The set with one more name, which it doesn't have.
fn grown(alloc: Global, set: Growing, name: &[u8], hash: u64) -> Result<Growing, AllocError>
    ensures { IfOk result (λ s. trie_of s.names ≡ with_front name.now hash (trie_of set.names)) }
{
    Ok(Growing {
        names: linked(alloc, &set.names, name, hash)?,
        count: set.count.saturating_add(1),
    })
}

// The set with a name that it may have.
fn newly_added(alloc: Global, set: Growing, name: &[u8], hash: u64) -> Result<Growing, AllocError>
    ensures { IfOk result (λ s. trie_of s.names ≡ tries.with_new name.now hash (trie_of set.names)) }
{
    if finds(&set.names, name, hash, hash) {
        return Ok(set);
    }
    grown(alloc, set, name, hash)
}

// The set with all names of a trie, the oldest of those in front before the newer ones.
fn all_added(alloc: Global, set: Growing, more: &Trie) -> Result<Growing, AllocError>
    ensures { IfOk result (λ s. trie_of s.names ≡ tries.with_all (trie_of more.now) (trie_of set.names)) }
{
    match more {
        Trie::Empty => Ok(set),
        Trie::Recent(link) => {
            let set = all_added(alloc, set, &link.older)?;
            newly_added(alloc, set, link.name.as_slice(), link.hash)
        }
        Trie::Fork(node) => {
            let set = newly_added(alloc, set, node.name.as_slice(), node.hash)?;
            let set = all_added(alloc, set, &node.zero)?;
            all_added(alloc, set, &node.one)
        }
    }
}

// The set with a name that it doesn't have, where a trie has it.
fn commonly_added(
    alloc: Global,
    set: Growing,
    name: &[u8],
    hash: u64,
    other: &Trie,
) -> Result<Growing, AllocError>
    ensures { IfOk result (λ s. trie_of s.names ≡ with_common name.now hash (trie_of other.now) (trie_of set.names)) }
{
    if finds(other, name, hash, hash) {
        return grown(alloc, set, name, hash);
    }
    Ok(set)
}

// The set with all names that two tries have.
fn common_added(
    alloc: Global,
    set: Growing,
    names: &Trie,
    other: &Trie,
) -> Result<Growing, AllocError>
    ensures { IfOk result (λ s. trie_of s.names ≡ with_all_common (trie_of names.now) (trie_of other.now) (trie_of set.names)) }
{
    match names {
        Trie::Empty => Ok(set),
        Trie::Recent(link) => {
            let set = common_added(alloc, set, &link.older, other)?;
            commonly_added(alloc, set, link.name.as_slice(), link.hash, other)
        }
        Trie::Fork(node) => {
            let set = commonly_added(alloc, set, node.name.as_slice(), node.hash, other)?;
            let set = common_added(alloc, set, &node.zero, other)?;
            common_added(alloc, set, &node.one, other)
        }
    }
}

// Whether a trie has all names of another.
fn has_all(trie: &Trie, names: &Trie) -> bool
    ensures { result ≡ tries.has_all (trie_of names.now) (trie_of trie.now) }
{
    match names {
        Trie::Empty => true,
        Trie::Recent(link) => {
            finds(trie, link.name.as_slice(), link.hash, link.hash) && has_all(trie, &link.older)
        }
        Trie::Fork(node) => {
            finds(trie, node.name.as_slice(), node.hash, node.hash)
                && has_all(trie, &node.zero)
                && has_all(trie, &node.one)
        }
    }
}

// Whether two tries have the same names at the same places, as copies of one set have.
fn is_same(a: &Trie, b: &Trie) -> bool
    ensures { result ≡ tries.is_same (trie_of a.now) (trie_of b.now) }
{
    match (a, b) {
        (Trie::Empty, Trie::Empty) => true,
        (Trie::Recent(x), Trie::Recent(y)) => {
            have_same_name(&x.name, x.hash, &y.name, y.hash) && is_same(&x.older, &y.older)
        }
        (Trie::Fork(x), Trie::Fork(y)) => {
            have_same_name(&x.name, x.hash, &y.name, y.hash)
                && is_same(&x.zero, &y.zero)
                && is_same(&x.one, &y.one)
        }
        _ => false,
    }
}

// Whether the second trie has all names of the first at the same places, where none stands in front.
fn stands_at(names: &Trie, trie: &Trie) -> bool
    ensures { result ≡ tries.stands_at (trie_of names.now) (trie_of trie.now) }
{
    match (names, trie) {
        (Trie::Empty, _) => true,
        (Trie::Fork(x), Trie::Fork(y)) => {
            have_same_name(&x.name, x.hash, &y.name, y.hash)
                && stands_at(&x.zero, &y.zero)
                && stands_at(&x.one, &y.one)
        }
        _ => false,
    }
}

// Whether the second trie has the names in front of the first, and those behind them at the same places, as it has where they were
// put into it.
fn stands_behind(names: &Trie, trie: &Trie) -> bool
    ensures { result ≡ tries.stands_behind (trie_of names.now) (trie_of trie.now) }
{
    match names {
        Trie::Empty => true,
        Trie::Recent(link) => {
            finds(trie, link.name.as_slice(), link.hash, link.hash)
                && stands_behind(&link.older, trie)
        }
        Trie::Fork(_) => stands_at(names, trie),
    }
}

// Whether the second trie has all names of the first where they are if it was made of the first, name by name.
fn stands_in(names: &Trie, trie: &Trie) -> bool
    ensures { result ≡ tries.stands_in (trie_of names.now) (trie_of trie.now) }
{
    match (names, trie) {
        (_, Trie::Empty) => stands_behind(names, trie),
        (_, Trie::Fork(_)) => stands_behind(names, trie),
        (Trie::Empty, Trie::Recent(_)) => true,
        (Trie::Recent(x), Trie::Recent(y)) => {
            if have_same_name(&x.name, x.hash, &y.name, y.hash) {
                return stands_in(&x.older, &y.older);
            }
            stands_in(names, &y.older)
        }
        (Trie::Fork(_), Trie::Recent(y)) => stands_in(names, &y.older),
    }
}
