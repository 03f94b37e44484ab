// The state of a memo.
ghost use Rattle.std.specs.Prelude.{◌≡◌, ℕ, ◌+◌, ◌<◌, ◌≤◌, ◌^◌, [], IfOk, OnOk, OnErr, Some, None, length, is_some, cond, slice_get};
ghost use Rattle.std.specs.Option.{option_map};
ghost use Rattle.base_types.specs.Limits.{memo_limit};
ghost use Rattle.closure_memo.specs.History.{IsLegal, AreNumbered, has_new, is_new, kept_weight};
ghost use Rattle.closure_memo.specs.Memo.{RightIn, value_at, with_place, values_after, number_of, with_key, look_of, found, after_look, publication, publish_of, after_publish, what_of};

use crate::{Kept, MemoCall, Memoised, What};
use base_types::limits::MEMO_LIMIT;
use indexmap::IndexSet;
use std::alloc::{AllocError, Global};
use std::hash::Hash;
use std::marker::Model;

/// A memo: values kept under keys, up to a limit of weight, and the history of all calls. A look and a publication take
/// constant time on average, and hash their key once, or twice where it is seen first.
#[derive(Drop)]
pub struct MemoState<M: Memoised> {
    alloc: Global,
    limit: u64,
    kept: u64,
    keys: IndexSet<M::Key>,
    values: Vec<Option<M::Value>>,
    steps: Vec<MemoCall>,
}

impl<M: Memoised> Model for MemoState<M> {
    ghost use Rattle.std.specs.Prelude.{◌≡◌, Some};
    ghost use Rattle.closure_memo.specs.History.{kept_weight};
    ghost use Rattle.closure_memo.specs.Memo.{Memo, IsMemo, RightIn};

    ghost Value = { Memo M.Key M.Value };

    ghost view = { λ s. record { limit = s.limit; keys = s.keys.keys; values = s.values.items; steps = s.steps.items } };

    ghost invariant = { λ s. (s.kept ≡ kept_weight s.steps.items) × IsMemo (RightIn M.Of.named M.right) M.weigh (record { limit = s.limit; keys = s.keys.keys; values = s.values.items; steps = s.steps.items }) };
}

impl<M: Memoised> MemoState<M> {
    /// An empty memo whose values weigh at most 4,000,000 together. It takes no memory.
    pub fn new(alloc: Global) -> MemoState<M>
        ensures { (result.limit ≡ memo_limit) × (result.keys ≡ []) × (result.values ≡ []) × (result.steps ≡ []) }
    {
        MemoState::with_limit(alloc, MEMO_LIMIT)
    }

    /// An empty memo whose values weigh at most `limit` together. It takes no memory.
    pub fn with_limit(alloc: Global, limit: u64) -> MemoState<M>
        ensures { (result.limit ≡ limit) × (result.keys ≡ []) × (result.values ≡ []) × (result.steps ≡ []) }
    {
        MemoState {
            alloc,
            limit,
            kept: 0,
            keys: IndexSet::new(alloc),
            values: Vec::new(alloc),
            steps: Vec::new(alloc),
        }
    }

    /// A look for the value of a key, by a client: a copy of what was kept under it, or None exactly where the history has no
    /// `New` of it. A look that is refused for want of memory changes nothing.
    pub fn look(&mut self, client: u32, key: &M::Key) -> Result<Option<M::Value>, AllocError>
        ensures value { IfOk result (λ r. r ≡ found M.Key.eq key.now self.old) }
        ensures step { OnOk result (self.new ≡ after_look M.Key.eq client key.now self.old) }
        ensures exactly { IfOk result (λ r. is_some r ≡ has_new (number_of M.Key.eq key.now self.old.keys) self.old.steps) }
        ensures right { IfOk result (λ r. (v : _) → r ≡ Some v → RightIn M.Of.named M.right key.now v) }
        ensures err { OnErr result (self.new ≡ self.old) }
    {
        let number = number_in(&self.keys, key);
        let got = copy_at::<M>(self.alloc, self.values.as_slice(), number)?;
        self.steps.reserve(1)?;
        see_copy::<M>(self.alloc, &mut self.keys, &mut self.values, number, key)?;
        self.steps.push_reserved(MemoCall {
            client,
            key: number as u64,
            what: look_what(&got),
            weight: 0,
        });
        Ok(got)
    }

    /// A publication, by a client, of a value that is right for its key: `Already` exactly where the key has a value, else
    /// `Full` exactly where the weights would pass the limit, else `New`, and the value is kept. A publication that is refused for want
    /// of memory changes nothing.
    pub fn publish(&mut self, client: u32, key: M::Key, value: M::Value) -> Result<Kept, AllocError>
        requires right { RightIn M.Of.named M.right key value }
        ensures kept { IfOk result (λ r. r ≡ publish_of M.Key.eq key (M.weigh value) self.old) }
        ensures exactly { IfOk result (λ r. r ≡ publication self.old.limit (kept_weight self.old.steps) (M.weigh value) (has_new (number_of M.Key.eq key self.old.keys) self.old.steps)) }
        ensures step { OnOk result (self.new ≡ after_publish M.Key.eq client key value (M.weigh value) self.old) }
        ensures err { OnErr result (self.new ≡ self.old) }
    {
        let weight = M::weight(&value);
        let number = number_in(&self.keys, &key);
        let has = has_value(self.values.as_slice(), number);
        let kept = publication_in(self.limit, self.kept, weight, has);
        self.steps.reserve(1)?;
        see_key(&mut self.keys, &mut self.values, number, key)?;
        self.steps.push_reserved(MemoCall {
            client,
            key: number as u64,
            what: publish_what(kept),
            weight,
        });
        keep_new(
            kept,
            &mut self.kept,
            &mut self.values,
            number,
            weight,
            value,
        );
        Ok(kept)
    }

    /// The history. It is legal.
    pub fn steps(&self) -> &[MemoCall]
        ensures same { result.now ≡ self.now.steps }
        ensures legal { IsLegal self.now.limit self.now.steps }
    {
        &self.steps
    }

    /// The keys by first sight: a key's number is its place here.
    pub fn keys(&self) -> &[M::Key]
        ensures same { result.now ≡ self.now.keys }
        ensures numbered { AreNumbered self.now.keys self.now.steps }
    {
        self.keys.as_slice()
    }

    /// What the values kept may weigh together.
    pub fn limit(&self) -> u64
        ensures { result ≡ self.now.limit }
    {
        self.limit
    }
}

// The number of the key by first sight. Where no key is equal to it, it is the number of keys.
fn number_in<K: Eq + Hash>(keys: &IndexSet<K>, key: &K) -> usize
    ensures number { result ≡ number_of K.eq key.now keys.now.keys }
{
    match keys.get_index_of(key) {
        Some(number) => number,
        None => keys.len(),
    }
}

// The value that was kept under the number.
fn value_in<V>(values: &[Option<V>], number: usize) -> Option<&V>
    ensures { option_map (λ v. v.now) result ≡ value_at number values.now }
{
    match values.get(number) {
        Some(value) => value.as_ref(),
        None => None,
    }
}

// Whether a value was kept under the number.
fn has_value<V>(values: &[Option<V>], number: usize) -> bool
    ensures { result ≡ is_some (value_at number values.now) }
{
    value_in(values, number).is_some()
}

// A copy of the value that was kept under the number.
fn copy_at<M: Memoised>(
    alloc: Global,
    values: &[Option<M::Value>],
    number: usize,
) -> Result<Option<M::Value>, AllocError>
    ensures { IfOk result (λ r. r ≡ value_at number values.now) }
{
    let Some(value) = value_in(values, number) else {
        return Ok(None);
    };
    match M::copy(alloc, value) {
        Ok(copy) => return Ok(Some(copy)),
        Err(_) => return Err(AllocError),
    }
}

fn look_what<V>(got: &Option<V>) -> What
    ensures { result ≡ look_of got.now }
{
    match got {
        Some(_) => What::Hit,
        None => What::Miss,
    }
}

// Adds the key, with no value, where it is new. A refusal changes nothing.
fn see_key<K: Eq + Hash + Drop, V: Drop>(
    keys: &mut IndexSet<K>,
    values: &mut Vec<Option<V>>,
    number: usize,
    key: K,
) -> Result<(), AllocError>
    requires number { number ≡ number_of K.eq key keys.old.keys }
    requires places { length values.old.items ≡ length keys.old.keys }
    ensures keys { OnOk result (keys.new.keys ≡ with_key K.eq key keys.old.keys) }
    ensures values { OnOk result (values.new.items ≡ with_place number values.old.items) }
    ensures err { OnErr result ((keys.new.keys ≡ keys.old.keys) × (values.new.items ≡ values.old.items)) }
{
    if number < keys.len() {
        return Ok(());
    }
    match values.reserve(1) {
        Ok(()) => {}
        Err(_) => return Err(AllocError),
    }
    match keys.insert(key) {
        Ok(_) => {}
        Err(_) => return Err(AllocError),
    }
    values.push_reserved(None);
    Ok(())
}

// Adds a copy of the key, with no value, where it is new. A refusal changes nothing.
fn see_copy<M: Memoised>(
    alloc: Global,
    keys: &mut IndexSet<M::Key>,
    values: &mut Vec<Option<M::Value>>,
    number: usize,
    key: &M::Key,
) -> Result<(), AllocError>
    requires number { number ≡ number_of M.Key.eq key.now keys.old.keys }
    requires places { length values.old.items ≡ length keys.old.keys }
    ensures keys { OnOk result (keys.new.keys ≡ with_key M.Key.eq key.now keys.old.keys) }
    ensures values { OnOk result (values.new.items ≡ with_place number values.old.items) }
    ensures err { OnErr result ((keys.new.keys ≡ keys.old.keys) × (values.new.items ≡ values.old.items)) }
{
    if number < keys.len() {
        return Ok(());
    }
    match M::copy_key(alloc, key) {
        Ok(copy) => see_key(keys, values, number, copy),
        Err(_) => Err(AllocError),
    }
}

// What a publication comes to.
fn publication_in(limit: u64, kept: u64, weight: u64, has: bool) -> Kept
    requires { kept ≤ limit }
    ensures { result ≡ publication limit kept weight has }
{
    if has {
        Kept::Already
    } else if weight > limit - kept {
        Kept::Full
    } else {
        Kept::New
    }
}

fn publish_what(kept: Kept) -> What
    ensures { result ≡ what_of kept }
{
    match kept {
        Kept::New => What::New,
        Kept::Already => What::Already,
        Kept::Full => What::Full,
    }
}

// Keeps the value where it is new.
fn keep_new<V: Drop>(
    kept: Kept,
    weights: &mut u64,
    values: &mut Vec<Option<V>>,
    number: usize,
    weight: u64,
    value: V,
)
    requires room { number < length values.old.items }
    requires fits { kept ≡ Kept.New → weights.old + weight < 2 ^ 64 }
    ensures values { values.new.items ≡ values_after kept number value values.old.items }
    ensures weights { weights.new ≡ weights.old + cond (is_new (what_of kept)) weight 0 }
{
    if let Kept::New = kept {
        *weights += weight;
        values[number] = Some(value);
    }
}
