// A memo that one client fills and asks.
ghost use Rattle.std.specs.Prelude.{◌≡◌, true, IfOk};
ghost use Rattle.std.specs.Cmp.{unsigned_Decides};

use closure_memo::{MemoCall, Memoised, Share, Shared, What};
use std::alloc::{AllocError, Global};
use std::marker::Brand;
use std::sync::Wait;
use std::sync::ledger::{Blank, Ledger};
use tree_model::Unnamed;

// Numbers, each kept under itself with the weight 1.
struct Number;

impl Memoised for Number {
    type Of = Unnamed;

    type Key = u32;

    type Value = u32;

    ghost right = { λ tree key value. value ≡ key };

    ghost weigh = { λ value. 1 };

    fn weight(_value: &u32) -> u64 {
        1
    }

    fn copy_key(_alloc: Global, key: &u32) -> Result<u32, AllocError> {
        Ok(*key)
    }

    fn copy(_alloc: Global, value: &u32) -> Result<u32, AllocError> {
        Ok(*value)
    }

    ghost exact = { λ a b same. (unsigned_Decides a b).0 same };
}

/// How many steps of a history are of each kind.
#[derive(Clone, Copy, Drop)]
pub struct Counts {
    pub new: u64,
    pub already: u64,
    pub full: u64,
    pub hits: u64,
    pub misses: u64,
}

impl Counts {
    fn count(&mut self, what: What) {
        let count = match what {
            What::New => &mut self.new,
            What::Already => &mut self.already,
            What::Full => &mut self.full,
            What::Hit => &mut self.hits,
            What::Miss => &mut self.misses,
        };
        *count = count.saturating_add(1);
    }
}

/// In so many rounds, publishes a value for each key below `keys`, and then looks for each. What came of the calls.
pub fn fill_and_ask<R: Wait>(
    rt: &R,
    alloc: Global,
    keys: u32,
    rounds: u32,
) -> Result<Counts, AllocError> {
    one_client::<Brand, Brand, Brand, Brand, Brand, R>(
        rt,
        alloc,
        keys,
        rounds,
        Blank::new(1),
        Blank::new(1),
        Blank::new(1),
        Blank::new(1),
        Blank::new(1),
    )
}

fn one_client<L: Ledger, H: Ledger, P: Ledger, N: Ledger, F: Ledger, R: Wait>(
    rt: &R,
    alloc: Global,
    keys: u32,
    rounds: u32,
    looks: Blank,
    hits: Blank,
    publications: Blank,
    news: Blank,
    fulls: Blank,
) -> Result<Counts, AllocError>
    requires looks { (looks.name ≡ L.name) × (looks.parts ≡ L.parts) × (looks.parts ≡ 1) }
    requires hits { (hits.name ≡ H.name) × (hits.parts ≡ H.parts) × (hits.parts ≡ 1) }
    requires publications { (publications.name ≡ P.name) × (publications.parts ≡ P.parts) × (publications.parts ≡ 1) }
    requires news { (news.name ≡ N.name) × (news.parts ≡ N.parts) × (news.parts ≡ 1) }
    requires fulls { (fulls.name ≡ F.name) × (fulls.parts ≡ F.parts) × (fulls.parts ≡ 1) }
{
    let (memo, mut shares) = Shared::<Number, L, H, P, N, F>::new(
        alloc,
        1,
        looks,
        hits,
        publications,
        news,
        fulls,
    )?;
    call_in_rounds(rt, &memo, &mut shares[0], keys, rounds)?;
    Ok(counts_of(memo.gather(shares).steps()))
}

fn call_in_rounds<L: Ledger, H: Ledger, P: Ledger, N: Ledger, F: Ledger, R: Wait>(
    rt: &R,
    memo: &Shared<Number, L, H, P, N, F>,
    share: &mut Share<L, H, P, N, F>,
    keys: u32,
    rounds: u32,
) -> Result<(), AllocError> {
    for _ in 0..rounds {
        publish_each(rt, memo, share, keys)?;
        look_for_each(rt, memo, share, keys)?;
    }
    Ok(())
}

fn publish_each<L: Ledger, H: Ledger, P: Ledger, N: Ledger, F: Ledger, R: Wait>(
    rt: &R,
    memo: &Shared<Number, L, H, P, N, F>,
    share: &mut Share<L, H, P, N, F>,
    keys: u32,
) -> Result<(), AllocError> {
    for key in 0..keys {
        memo.publish(rt, share, key, key)?;
    }
    Ok(())
}

fn look_for_each<L: Ledger, H: Ledger, P: Ledger, N: Ledger, F: Ledger, R: Wait>(
    rt: &R,
    memo: &Shared<Number, L, H, P, N, F>,
    share: &mut Share<L, H, P, N, F>,
    keys: u32,
) -> Result<(), AllocError> {
    for key in 0..keys {
        memo.look(rt, share, &key)?;
    }
    Ok(())
}

fn counts_of(steps: &[MemoCall]) -> Counts {
    let mut counts = Counts {
        new: 0,
        already: 0,
        full: 0,
        hits: 0,
        misses: 0,
    };
    for step in steps {
        counts.count(step.what);
    }
    counts
}
