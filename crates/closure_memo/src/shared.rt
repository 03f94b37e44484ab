// The memo that threads share, and each client's share in it.
ghost use Rattle.std.specs.Prelude.{◌≡◌, ℕ, ◌+◌, ◌<◌, ◌≤◌, [], IfOk, OnOk, OnErr, Some, None, length, cond, is_some, map, sum_by, vec_len};
ghost use Rattle.std.specs.List.{count_by, range_with_len};
ghost use Rattle.base_types.specs.Limits.{memo_limit};
ghost use Rattle.closure_memo.specs.History.{is_look, is_hit, is_publication, is_new, is_full};
ghost use Rattle.closure_memo.specs.Memo.{RightIn, found, after_look, publish_of, after_publish, what_of};

use crate::{Kept, MemoState, Memoised};
use std::alloc::{AllocError, Global};
use std::marker::Model;
use std::sync::ledger::{Blank, Book, Ledger};
use std::sync::{Mutex, Wait, ledger};

/// What lies under the lock: the state, whose values weigh at most 4,000,000, and the books of its looks, hits and publications, and
/// of the publications that kept their value and those that the limit refused.
#[derive(Drop)]
pub struct Booked<M: Memoised, L: Ledger, H: Ledger, P: Ledger, N: Ledger, F: Ledger> {
    state: MemoState<M>,
    looks: Book<L>,
    hits: Book<H>,
    publications: Book<P>,
    news: Book<N>,
    fulls: Book<F>,
    ghost limited: { state.limit ≡ memo_limit },
    ghost looks_counted: { count_by (λ call. is_look call.what) state.steps ≡ looks.total },
    ghost hits_counted: { count_by (λ call. is_hit call.what) state.steps ≡ hits.total },
    ghost publications_counted: { count_by (λ call. is_publication call.what) state.steps ≡ publications.total },
    ghost news_counted: { count_by (λ call. is_new call.what) state.steps ≡ news.total },
    ghost fulls_counted: { count_by (λ call. is_full call.what) state.steps ≡ fulls.total },
}

/// One client's share: its number, and what it counted in each book.
#[derive(Drop)]
pub struct Share<L: Ledger, H: Ledger, P: Ledger, N: Ledger, F: Ledger> {
    client: u32,
    looks: ledger::Share<L>,
    hits: ledger::Share<H>,
    publications: ledger::Share<P>,
    news: ledger::Share<N>,
    fulls: ledger::Share<F>,
    ghost looks_part: { looks.parts ≡ 1 },
    ghost hits_part: { hits.parts ≡ 1 },
    ghost publications_part: { publications.parts ≡ 1 },
    ghost news_part: { news.parts ≡ 1 },
    ghost fulls_part: { fulls.parts ≡ 1 },
}

impl<L: Ledger, H: Ledger, P: Ledger, N: Ledger, F: Ledger> Model for Share<L, H, P, N, F> {
    ghost use Rattle.closure_memo.specs.History.{Tally};

    ghost Value = { Tally };

    ghost view = { λ s. record { client = s.client; looks = s.looks.amount; hits = s.hits.amount; publications = s.publications.amount; news = s.news.amount; fulls = s.fulls.amount } };
}

/// A memo that clients share, each with a `Share` of its own. Its values weigh at most 4,000,000 together.
#[derive(Drop)]
pub struct Shared<M: Memoised, L: Ledger, H: Ledger, P: Ledger, N: Ledger, F: Ledger> {
    memo: Mutex<Booked<M, L, H, P, N, F>>,
}

fn one_if(counts: bool) -> u64
    ensures { result ≡ cond counts 1 0 }
{
    if counts { 1 } else { 0 }
}

// Whether the value was kept.
fn was_kept(kept: Kept) -> bool
    ensures { result ≡ is_new (what_of kept) }
{
    match kept {
        Kept::New => true,
        Kept::Already | Kept::Full => false,
    }
}

// Whether the limit refused the value.
fn was_refused(kept: Kept) -> bool
    ensures { result ≡ is_full (what_of kept) }
{
    match kept {
        Kept::Full => true,
        Kept::New | Kept::Already => false,
    }
}

impl<M: Memoised, L: Ledger, H: Ledger, P: Ledger, N: Ledger, F: Ledger> Booked<M, L, H, P, N, F> {
    // One look, counted in the share.
    fn look(
        &mut self,
        share: &mut Share<L, H, P, N, F>,
        key: &M::Key,
    ) -> Result<Option<M::Value>, AllocError>
        ensures step { OnOk result (self.new.state ≡ after_look M.Key.eq share.old.client key.now self.old.state) }
        ensures err { OnErr result (self.new.state ≡ self.old.state) }
        ensures value { IfOk result (λ r. r ≡ found M.Key.eq key.now self.old.state) }
        ensures right { IfOk result (λ r. (v : _) → r ≡ Some v → RightIn M.Of.named M.right key.now v) }
        ensures client { share.new.client ≡ share.old.client }
        ensures looks { OnOk result (share.new.looks ≡ share.old.looks + 1) }
        ensures hits { IfOk result (λ r. share.new.hits ≡ share.old.hits + cond (is_some r) 1 0) }
        ensures publications { share.new.publications ≡ share.old.publications }
        ensures news { share.new.news ≡ share.old.news }
        ensures fulls { share.new.fulls ≡ share.old.fulls }
        ensures none { OnErr result ((share.new.looks ≡ share.old.looks) × (share.new.hits ≡ share.old.hits)) }
    {
        let got = match self.state.look(share.client, key) {
            Ok(got) => got,
            Err(_) => return Err(AllocError),
        };
        self.looks.add(&mut share.looks, 1);
        self.hits.add(&mut share.hits, one_if(got.is_some()));
        Ok(got)
    }

    // One publication, counted in the share with what it came to.
    fn publish(
        &mut self,
        share: &mut Share<L, H, P, N, F>,
        key: M::Key,
        value: M::Value,
    ) -> Result<Kept, AllocError>
        requires right { RightIn M.Of.named M.right key value }
        ensures step { OnOk result (self.new.state ≡ after_publish M.Key.eq share.old.client key value (M.weigh value) self.old.state) }
        ensures err { OnErr result (self.new.state ≡ self.old.state) }
        ensures kept { IfOk result (λ r. r ≡ publish_of M.Key.eq key (M.weigh value) self.old.state) }
        ensures client { share.new.client ≡ share.old.client }
        ensures looks { share.new.looks ≡ share.old.looks }
        ensures hits { share.new.hits ≡ share.old.hits }
        ensures publications { OnOk result (share.new.publications ≡ share.old.publications + 1) }
        ensures news { IfOk result (λ r. share.new.news ≡ share.old.news + cond (is_new (what_of r)) 1 0) }
        ensures fulls { IfOk result (λ r. share.new.fulls ≡ share.old.fulls + cond (is_full (what_of r)) 1 0) }
        ensures none { OnErr result ((share.new.publications ≡ share.old.publications) × (share.new.news ≡ share.old.news) × (share.new.fulls ≡ share.old.fulls)) }
    {
        let kept = match self.state.publish(share.client, key, value) {
            Ok(kept) => kept,
            Err(_) => return Err(AllocError),
        };
        self.publications.add(&mut share.publications, 1);
        self.news.add(&mut share.news, one_if(was_kept(kept)));
        self.fulls.add(&mut share.fulls, one_if(was_refused(kept)));
        Ok(kept)
    }

    // The state, once all shares are there: its history has as many looks, hits, publications, News and Fulls as the shares
    // counted together, and as many keys have a value as they counted News.
    fn audited(
        self,
        looks: &mut ledger::Share<L>,
        hits: &mut ledger::Share<H>,
        publications: &mut ledger::Share<P>,
        news: &mut ledger::Share<N>,
        fulls: &mut ledger::Share<F>,
    ) -> MemoState<M>
        requires all_looks { looks.old.parts ≡ L.parts }
        requires all_hits { hits.old.parts ≡ H.parts }
        requires all_publications { publications.old.parts ≡ P.parts }
        requires all_news { news.old.parts ≡ N.parts }
        requires all_fulls { fulls.old.parts ≡ F.parts }
        ensures limit { result.limit ≡ memo_limit }
        ensures looks { count_by (λ call. is_look call.what) result.steps ≡ looks.old.amount }
        ensures hits { count_by (λ call. is_hit call.what) result.steps ≡ hits.old.amount }
        ensures publications { count_by (λ call. is_publication call.what) result.steps ≡ publications.old.amount }
        ensures news { count_by (λ call. is_new call.what) result.steps ≡ news.old.amount }
        ensures fulls { count_by (λ call. is_full call.what) result.steps ≡ fulls.old.amount }
        ensures values { count_by is_some result.values ≡ news.old.amount }
    {
        let Booked {
            state,
            looks: mut all_looks,
            hits: mut all_hits,
            publications: mut all_publications,
            news: mut all_news,
            fulls: mut all_fulls,
        } = self;
        all_looks.audit(looks);
        all_hits.audit(hits);
        all_publications.audit(publications);
        all_news.audit(news);
        all_fulls.audit(fulls);
        state
    }
}

impl<M: Memoised, L: Ledger, H: Ledger, P: Ledger, N: Ledger, F: Ledger> Shared<M, L, H, P, N, F> {
    /// An empty memo, and a share for each of at least one client, in order of their numbers.
    #[tactic(auto, using(crate::proofs::Ranges::range_snoc))]
    pub fn new(
        alloc: Global,
        clients: u32,
        looks: Blank,
        hits: Blank,
        publications: Blank,
        news: Blank,
        fulls: Blank,
    ) -> Result<(Shared<M, L, H, P, N, F>, Vec<Share<L, H, P, N, F>>), AllocError>
        requires some { 0 < clients }
        requires looks { (looks.name ≡ L.name) × (looks.parts ≡ L.parts) × (looks.parts ≡ clients) }
        requires hits { (hits.name ≡ H.name) × (hits.parts ≡ H.parts) × (hits.parts ≡ clients) }
        requires publications { (publications.name ≡ P.name) × (publications.parts ≡ P.parts) × (publications.parts ≡ clients) }
        requires news { (news.name ≡ N.name) × (news.parts ≡ N.parts) × (news.parts ≡ clients) }
        requires fulls { (fulls.name ≡ F.name) × (fulls.parts ≡ F.parts) × (fulls.parts ≡ clients) }
        ensures shares { IfOk result (λ r. vec_len r.1 ≡ clients) }
        ensures fresh { IfOk result (λ r. (sum_by (λ s. s.looks) r.1.items ≡ 0) × (sum_by (λ s. s.hits) r.1.items ≡ 0) × (sum_by (λ s. s.publications) r.1.items ≡ 0) × (sum_by (λ s. s.news) r.1.items ≡ 0) × (sum_by (λ s. s.fulls) r.1.items ≡ 0)) }
        ensures numbers { IfOk result (λ r. map (λ s. s.client) r.1.items ≡ range_with_len 0 clients) }
    {
        let (look_book, mut look_rest) = looks.open::<L>();
        let (hit_book, mut hit_rest) = hits.open::<H>();
        let (publication_book, mut publication_rest) = publications.open::<P>();
        let (new_book, mut new_rest) = news.open::<N>();
        let (full_book, mut full_rest) = fulls.open::<F>();
        let mut shares = Vec::with_capacity(alloc, clients as usize)?;
        for client in 0..clients {
            shares.push(Share {
                client,
                looks: look_rest.split_off(1, 0),
                hits: hit_rest.split_off(1, 0),
                publications: publication_rest.split_off(1, 0),
                news: new_rest.split_off(1, 0),
                fulls: full_rest.split_off(1, 0),
            })?;
        }
        let memo = Mutex::new(Booked {
            state: MemoState::new(alloc),
            looks: look_book,
            hits: hit_book,
            publications: publication_book,
            news: new_book,
            fulls: full_book,
        });
        Ok((Shared { memo }, shares))
    }

    /// A look by the share's client, counted in its share, as `MemoState::look` on the memo under the lock. A look that is refused for want
    /// of memory counts nothing.
    pub fn look<R: Wait>(
        &self,
        rt: &R,
        share: &mut Share<L, H, P, N, F>,
        key: &M::Key,
    ) -> Result<Option<M::Value>, AllocError>
        ensures right { IfOk result (λ r. (v : _) → r ≡ Some v → RightIn M.Of.named M.right key.now v) }
        ensures client { share.new.client ≡ share.old.client }
        ensures looks { OnOk result (share.new.looks ≡ share.old.looks + 1) }
        ensures hits { IfOk result (λ r. share.new.hits ≡ share.old.hits + cond (is_some r) 1 0) }
        ensures publications { share.new.publications ≡ share.old.publications }
        ensures news { share.new.news ≡ share.old.news }
        ensures fulls { share.new.fulls ≡ share.old.fulls }
        ensures none { OnErr result ((share.new.looks ≡ share.old.looks) × (share.new.hits ≡ share.old.hits)) }
    {
        self.memo.lock(rt).look(share, key)
    }

    /// A publication by the share's client, counted in its share with whether it was a `New` or a `Full`, as `MemoState::publish` on
    /// the memo under the lock. A publication that is refused for want of memory counts nothing.
    pub fn publish<R: Wait>(
        &self,
        rt: &R,
        share: &mut Share<L, H, P, N, F>,
        key: M::Key,
        value: M::Value,
    ) -> Result<Kept, AllocError>
        requires right { RightIn M.Of.named M.right key value }
        ensures client { share.new.client ≡ share.old.client }
        ensures looks { share.new.looks ≡ share.old.looks }
        ensures hits { share.new.hits ≡ share.old.hits }
        ensures publications { OnOk result (share.new.publications ≡ share.old.publications + 1) }
        ensures news { IfOk result (λ r. share.new.news ≡ share.old.news + cond (is_new (what_of r)) 1 0) }
        ensures fulls { IfOk result (λ r. share.new.fulls ≡ share.old.fulls + cond (is_full (what_of r)) 1 0) }
        ensures none { OnErr result ((share.new.publications ≡ share.old.publications) × (share.new.news ≡ share.old.news) × (share.new.fulls ≡ share.old.fulls)) }
    {
        self.memo.lock(rt).publish(share, key, value)
    }

    /// The memo at the end, from all shares: its history has as many looks, hits, publications, News and Fulls as the shares
    /// counted together, and as many keys have a value as the shares counted News.
    pub fn gather(self, shares: Vec<Share<L, H, P, N, F>>) -> MemoState<M>
        requires some { 0 < length shares.items }
        requires all { (length shares.items ≡ L.parts) × (length shares.items ≡ H.parts) × (length shares.items ≡ P.parts) × (length shares.items ≡ N.parts) × (length shares.items ≡ F.parts) }
        ensures limit { result.limit ≡ memo_limit }
        ensures looks { count_by (λ call. is_look call.what) result.steps ≡ sum_by (λ s. s.looks) shares.items }
        ensures hits { count_by (λ call. is_hit call.what) result.steps ≡ sum_by (λ s. s.hits) shares.items }
        ensures publications { count_by (λ call. is_publication call.what) result.steps ≡ sum_by (λ s. s.publications) shares.items }
        ensures news { count_by (λ call. is_new call.what) result.steps ≡ sum_by (λ s. s.news) shares.items }
        ensures fulls { count_by (λ call. is_full call.what) result.steps ≡ sum_by (λ s. s.fulls) shares.items }
        ensures values { count_by is_some result.values ≡ sum_by (λ s. s.news) shares.items }
    {
        let mut shares = shares;
        let Some(
            Share {
                client: _,
                looks: mut looks,
                hits: mut hits,
                publications: mut publications,
                news: mut news,
                fulls: mut fulls,
            },
        ) = shares.pop()
        else {
            unreachable!()
        };
        while let Some(
            Share {
                client: _,
                looks: l,
                hits: h,
                publications: p,
                news: n,
                fulls: f,
            },
        ) = shares.pop()
        {
            looks.merge(l);
            hits.merge(h);
            publications.merge(p);
            news.merge(n);
            fulls.merge(f);
        }
        self.memo.into_inner().audited(
            &mut looks,
            &mut hits,
            &mut publications,
            &mut news,
            &mut fulls,
        )
    }
}
