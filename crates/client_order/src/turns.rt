// Clients that take turns on one thread.
ghost use Rattle.std.specs.Prelude.{◌≡◌, ◌≤◌, ◌<◌, ◌-◌, length, map, IsTrue, IsFalse};
ghost use Rattle.std.specs.List.{All};
ghost use Rattle.base_types.specs.Limits.{job_limit};
ghost use Rattle.io_edges.specs.Talk.{EachAnswered};
ghost use Rattle.job_ends.specs.Outside.{seen_end};
ghost use Rattle.job_ends.specs.Record.{known};
ghost use Rattle.client_steps.specs.Phases.{CanWork, NeedHolds};
ghost use Rattle.client_steps.specs.Ledger.{HasRoom};
ghost use Rattle.client_order.specs.parts.World.{seen_memo, SlotsMove, LeaseIsIn, Progresses, WorldHolds, RunMoves, HasAllDrawn, AllEnded, AreFree, AreNumberedFrom, IsDrawn, DrawsMore, OthersStay, StrangersStay, TurnKeeps, RunKeeps, distance};
ghost use Rattle.client_order.specs.parts.Answering.{CanAnswer, AfterAnswer, AnswerKeeps};

use crate::progress::Progress;
use client_steps::{Client, Need, Reply};
use closure_memo::MemoState;
use host_slots::{Lease, SlotState};
use io_edges::{Host, LinkState, Outs, Wire};
use job_ends::End;
use job_words::Job;
use sheet_build::{Sheet, SheetKey, SheetMemo};
use std::alloc::Global;
use tree_model::{Frozen, Tree};

/// What clients share: how many jobs were drawn, the memo of sheets, and the slots of the hosts.
#[derive(Drop)]
pub struct Shared<F: Frozen> {
    pub drawn: u32,
    pub memo: MemoState<SheetMemo<F>>,
    pub slots: SlotState,
}

/// One turn of a client: its work up to its next need, the atomic step that it needs, and the answer.
pub fn turn<T: Tree, W: Wire, O: Outs, P: Progress>(
    alloc: Global,
    shared: &mut Shared<T::Of>,
    client: &mut Client,
    end: &mut End<T, W, O>,
    jobs: &[Job],
    hosts: &[Host],
    progress: &mut P,
)
    requires works { CanWork (length jobs.now) (length hosts.now) client.old.phase }
    requires count { client.old.jobs ≡ length jobs.now }
    requires least { client.old.least ≤ shared.old.drawn }
    requires drawn { shared.old.drawn ≤ length jobs.now }
    requires room { HasRoom client.old }
    requires all { HasAllDrawn (length jobs.now) shared.old.drawn client.old.phase }
    requires few { length jobs.now ≤ job_limit }
    requires some { 1 ≤ length hosts.now }
    requires one_each { length shared.old.slots.limits ≡ length hosts.now }
    requires lease { LeaseIsIn client.old.phase shared.old.slots }
    requires closed { W.state end.old.wire ≡ LinkState.Closed }
    requires answered { EachAnswered W.peer (W.talk end.old.wire) }
    ensures closed { W.state end.new.wire ≡ LinkState.Closed }
    ensures answered { EachAnswered W.peer (W.talk end.new.wire) }
    ensures works { CanWork (length jobs.now) (length hosts.now) client.new.phase }
    ensures same { (client.new.jobs ≡ client.old.jobs) × ((client.new.number ≡ client.old.number) × (client.new.budget ≡ client.old.budget)) }
    ensures least { client.new.least ≤ shared.new.drawn }
    ensures drawn { (shared.old.drawn ≤ shared.new.drawn) × (shared.new.drawn ≤ length jobs.now) }
    ensures room { HasRoom client.new }
    ensures all { HasAllDrawn (length jobs.now) shared.new.drawn client.new.phase }
    ensures limit { shared.new.memo.limit ≡ shared.old.memo.limit }
    ensures slots { SlotsMove client.old.phase shared.old.slots client.new.phase shared.new.slots }
    ensures progress { Progresses (length jobs.now - shared.old.drawn) client.old.phase shared.old.slots (length jobs.now - shared.new.drawn) client.new.phase shared.new.slots }
    ensures draws { DrawsMore shared.old.drawn client.old shared.new.drawn client.new }
    ensures others { OthersStay client.old.number (seen_memo shared.old.memo) (seen_memo shared.new.memo) }
    ensures keeps { let seen = seen_end T.told T.Tree.faults T.reads W.talk W.state W.Wire.faults O.kept O.Outs.faults in
        TurnKeeps (known T.Of.named client.old.budget) jobs.now hosts.now (seen_memo shared.old.memo) client.old (seen end.old) (seen_memo shared.new.memo) client.new (seen end.new) }
{
    let need = client.next(alloc, jobs, hosts, end);
    tell_done(progress, jobs.len(), client, &need);
    answer(shared, client, jobs.len(), need);
}

// Tells of the job that a client has done, as it asks for the next one.
fn tell_done<P: Progress>(progress: &mut P, jobs: usize, client: &Client, need: &Need) {
    if let Need::Draw = need {
        if let Some(record) = client.records().last() {
            progress.done(jobs, record);
        }
    }
}

// The atomic step that a client needs, and its answer.
fn answer<F: Frozen>(shared: &mut Shared<F>, client: &mut Client, jobs: usize, need: Need)
    requires jobs { jobs ≡ client.old.jobs }
    requires can { CanAnswer need shared.old.drawn shared.old.slots client.old }
    requires right { NeedHolds (known F.named client.old.budget) need }
    ensures answers { AfterAnswer need shared.old.drawn shared.old.slots client.old shared.new.drawn shared.new.slots client.new }
    ensures limit { shared.new.memo.limit ≡ shared.old.memo.limit }
    ensures others { OthersStay client.old.number (seen_memo shared.old.memo) (seen_memo shared.new.memo) }
    ensures keeps { AnswerKeeps F.named (seen_memo shared.old.memo) client.old (seen_memo shared.new.memo) client.new }
{
    match need {
        Need::Draw => answer_draw(shared, client, jobs),
        Need::Look(key) => answer_look(shared, client, key),
        Need::Publish(key, sheet) => answer_publish(shared, client, key, sheet),
        Need::Take => answer_take(shared, client),
        Need::Give(lease) => answer_give(shared, client, lease),
        Need::Ended => (),
    }
}

// Draws the next number for the client, where one is left.
fn answer_draw<F: Frozen>(shared: &mut Shared<F>, client: &mut Client, jobs: usize)
    requires jobs { jobs ≡ client.old.jobs }
    requires can { CanAnswer Need.Draw shared.old.drawn shared.old.slots client.old }
    ensures answers { AfterAnswer Need.Draw shared.old.drawn shared.old.slots client.old shared.new.drawn shared.new.slots client.new }
    ensures limit { shared.new.memo.limit ≡ shared.old.memo.limit }
    ensures others { OthersStay client.old.number (seen_memo shared.old.memo) (seen_memo shared.new.memo) }
    ensures keeps { AnswerKeeps F.named (seen_memo shared.old.memo) client.old (seen_memo shared.new.memo) client.new }
{
    let job = draw(&mut shared.drawn, jobs);
    client.put(Reply::Drawn(job));
}

// Looks for the sheet of a key in the memo.
fn answer_look<F: Frozen>(shared: &mut Shared<F>, client: &mut Client, key: SheetKey)
    requires can { CanAnswer (Need.Look key) shared.old.drawn shared.old.slots client.old }
    ensures answers { AfterAnswer (Need.Look key) shared.old.drawn shared.old.slots client.old shared.new.drawn shared.new.slots client.new }
    ensures limit { shared.new.memo.limit ≡ shared.old.memo.limit }
    ensures others { OthersStay client.old.number (seen_memo shared.old.memo) (seen_memo shared.new.memo) }
    ensures keeps { AnswerKeeps F.named (seen_memo shared.old.memo) client.old (seen_memo shared.new.memo) client.new }
{
    // Each step so far has its key among them.
    let _keys = shared.memo.keys();
    match shared.memo.look(client.number(), &key) {
        Ok(got) => client.put(Reply::Looked(got)),
        Err(_) => client.put(Reply::Refused),
    }
}

// Publishes the sheet of a key in the memo.
fn answer_publish<F: Frozen>(
    shared: &mut Shared<F>,
    client: &mut Client,
    key: SheetKey,
    sheet: Sheet,
)
    requires can { CanAnswer (Need.Publish key sheet) shared.old.drawn shared.old.slots client.old }
    requires right { NeedHolds (known F.named client.old.budget) (Need.Publish key sheet) }
    ensures answers { AfterAnswer (Need.Publish key sheet) shared.old.drawn shared.old.slots client.old shared.new.drawn shared.new.slots client.new }
    ensures limit { shared.new.memo.limit ≡ shared.old.memo.limit }
    ensures others { OthersStay client.old.number (seen_memo shared.old.memo) (seen_memo shared.new.memo) }
    ensures keeps { AnswerKeeps F.named (seen_memo shared.old.memo) client.old (seen_memo shared.new.memo) client.new }
{
    // Each step so far has its key among them.
    let _keys = shared.memo.keys();
    match shared.memo.publish(client.number(), key, sheet) {
        Ok(kept) => client.put(Reply::Kept(kept)),
        Err(_) => client.put(Reply::Refused),
    }
}

// Leases a slot for the client, where one is free.
fn answer_take<F: Frozen>(shared: &mut Shared<F>, client: &mut Client)
    requires can { CanAnswer Need.Take shared.old.drawn shared.old.slots client.old }
    ensures answers { AfterAnswer Need.Take shared.old.drawn shared.old.slots client.old shared.new.drawn shared.new.slots client.new }
    ensures limit { shared.new.memo.limit ≡ shared.old.memo.limit }
    ensures others { OthersStay client.old.number (seen_memo shared.old.memo) (seen_memo shared.new.memo) }
    ensures keeps { AnswerKeeps F.named (seen_memo shared.old.memo) client.old (seen_memo shared.new.memo) client.new }
{
    // There is a number of leased slots for each host.
    let _hosts = shared.slots.hosts();
    let lease = shared.slots.take();
    client.put(Reply::Leased(lease));
}

// Gives back the lease that the client held.
fn answer_give<F: Frozen>(shared: &mut Shared<F>, client: &mut Client, lease: Lease)
    requires can { CanAnswer (Need.Give lease) shared.old.drawn shared.old.slots client.old }
    ensures answers { AfterAnswer (Need.Give lease) shared.old.drawn shared.old.slots client.old shared.new.drawn shared.new.slots client.new }
    ensures limit { shared.new.memo.limit ≡ shared.old.memo.limit }
    ensures others { OthersStay client.old.number (seen_memo shared.old.memo) (seen_memo shared.new.memo) }
    ensures keeps { AnswerKeeps F.named (seen_memo shared.old.memo) client.old (seen_memo shared.new.memo) client.new }
{
    shared.slots.give(lease);
    client.put(Reply::Given);
}

// The next job number, where one is left.
fn draw(drawn: &mut u32, jobs: usize) -> Option<u32>
    requires few { jobs ≤ job_limit }
    requires within { drawn.old ≤ jobs }
    ensures { IsDrawn drawn.old jobs result drawn.new }
{
    if (*drawn as usize) < jobs {
        let job = *drawn;
        *drawn = job + 1;
        Some(job)
    } else {
        None
    }
}

// A turn of the client at a place in the list.
fn turn_at<T: Tree, W: Wire, O: Outs, P: Progress>(
    alloc: Global,
    shared: &mut Shared<T::Of>,
    clients: &mut [Client],
    ends: &mut [End<T, W, O>],
    jobs: &[Job],
    hosts: &[Host],
    at: usize,
    progress: &mut P,
)
    requires within { at < length clients.old }
    requires each_end { length ends.old ≡ length clients.old }
    requires numbered { AreNumberedFrom 0 clients.old }
    requires world { WorldHolds (length jobs.now) (length hosts.now) shared.old.drawn shared.old.slots clients.old }
    requires ends { All (λ e. (W.state e.wire ≡ LinkState.Closed) × EachAnswered W.peer (W.talk e.wire)) ends.old }
    ensures each_end { (length ends.new ≡ length ends.old) × (length clients.new ≡ length clients.old) }
    ensures numbered { AreNumberedFrom 0 clients.new }
    ensures world { WorldHolds (length jobs.now) (length hosts.now) shared.new.drawn shared.new.slots clients.new }
    ensures ends { All (λ e. (W.state e.wire ≡ LinkState.Closed) × EachAnswered W.peer (W.talk e.wire)) ends.new }
    ensures limit { shared.new.memo.limit ≡ shared.old.memo.limit }
    ensures moves { RunMoves (length jobs.now) shared.old.drawn shared.old.slots clients.old at shared.new.drawn shared.new.slots clients.new }
    ensures keeps { let seen = seen_end T.told T.Tree.faults T.reads W.talk W.state W.Wire.faults O.kept O.Outs.faults in
        RunKeeps T.Of.named jobs.now hosts.now (seen_memo shared.old.memo) clients.old (map seen ends.old) (seen_memo shared.new.memo) clients.new (map seen ends.new) }
    ensures strangers { StrangersStay (length clients.old) (seen_memo shared.old.memo) (seen_memo shared.new.memo) }
{
    turn(
        alloc,
        shared,
        &mut clients[at],
        &mut ends[at],
        jobs,
        hosts,
        progress,
    );
}

// Whether all clients have ended.
fn have_all_ended(clients: &[Client]) -> bool
    ensures ended { IsTrue result → AllEnded clients.now }
    ensures not_all { IsFalse result → AllEnded clients.now → ⊥ }
{
    for client in clients {
        if !client.has_ended() {
            return false;
        }
    }
    true
}

// One turn of each client, in order. Where not all had ended, the run comes nearer to its end.
fn round<T: Tree, W: Wire, O: Outs, P: Progress>(
    alloc: Global,
    shared: &mut Shared<T::Of>,
    clients: &mut [Client],
    ends: &mut [End<T, W, O>],
    jobs: &[Job],
    hosts: &[Host],
    progress: &mut P,
)
    requires each_end { length ends.old ≡ length clients.old }
    requires not_all { AllEnded clients.old → ⊥ }
    requires numbered { AreNumberedFrom 0 clients.old }
    requires world { WorldHolds (length jobs.now) (length hosts.now) shared.old.drawn shared.old.slots clients.old }
    requires ends { All (λ e. (W.state e.wire ≡ LinkState.Closed) × EachAnswered W.peer (W.talk e.wire)) ends.old }
    ensures each_end { (length ends.new ≡ length ends.old) × (length clients.new ≡ length clients.old) }
    ensures numbered { AreNumberedFrom 0 clients.new }
    ensures world { WorldHolds (length jobs.now) (length hosts.now) shared.new.drawn shared.new.slots clients.new }
    ensures ends { All (λ e. (W.state e.wire ≡ LinkState.Closed) × EachAnswered W.peer (W.talk e.wire)) ends.new }
    ensures limit { shared.new.memo.limit ≡ shared.old.memo.limit }
    ensures nearer { distance (length jobs.now - shared.new.drawn) clients.new < distance (length jobs.now - shared.old.drawn) clients.old }
    ensures keeps { let seen = seen_end T.told T.Tree.faults T.reads W.talk W.state W.Wire.faults O.kept O.Outs.faults in
        RunKeeps T.Of.named jobs.now hosts.now (seen_memo shared.old.memo) clients.old (map seen ends.old) (seen_memo shared.new.memo) clients.new (map seen ends.new) }
    ensures strangers { StrangersStay (length clients.old) (seen_memo shared.old.memo) (seen_memo shared.new.memo) }
{
    let mut at = 0;
    while at < clients.len() {
        turn_at(alloc, shared, clients, ends, jobs, hosts, at, progress);
        at += 1;
    }
}

/// The turns of an order, and then round and round until all clients have ended: then all slots are free.
pub fn take_turns<T: Tree, W: Wire, O: Outs, P: Progress>(
    alloc: Global,
    shared: &mut Shared<T::Of>,
    clients: &mut [Client],
    ends: &mut [End<T, W, O>],
    jobs: &[Job],
    hosts: &[Host],
    order: &[u32],
    progress: &mut P,
)
    requires each_end { length ends.old ≡ length clients.old }
    requires order { All (λ client. client < length clients.old) order.now }
    requires numbered { AreNumberedFrom 0 clients.old }
    requires world { WorldHolds (length jobs.now) (length hosts.now) shared.old.drawn shared.old.slots clients.old }
    requires ends { All (λ e. (W.state e.wire ≡ LinkState.Closed) × EachAnswered W.peer (W.talk e.wire)) ends.old }
    ensures each_end { (length ends.new ≡ length ends.old) × (length clients.new ≡ length clients.old) }
    ensures world { WorldHolds (length jobs.now) (length hosts.now) shared.new.drawn shared.new.slots clients.new }
    ensures ends { All (λ e. (W.state e.wire ≡ LinkState.Closed) × EachAnswered W.peer (W.talk e.wire)) ends.new }
    ensures limit { shared.new.memo.limit ≡ shared.old.memo.limit }
    ensures ended { AllEnded clients.new }
    ensures free { AreFree shared.new.slots }
    ensures keeps { let seen = seen_end T.told T.Tree.faults T.reads W.talk W.state W.Wire.faults O.kept O.Outs.faults in
        RunKeeps T.Of.named jobs.now hosts.now (seen_memo shared.old.memo) clients.old (map seen ends.old) (seen_memo shared.new.memo) clients.new (map seen ends.new) }
    ensures strangers { StrangersStay (length clients.old) (seen_memo shared.old.memo) (seen_memo shared.new.memo) }
{
    for client in order {
        let at = *client as usize;
        turn_at(alloc, shared, clients, ends, jobs, hosts, at, progress);
    }
    'rounds: while !have_all_ended(clients) {
        round(alloc, shared, clients, ends, jobs, hosts, progress);
    }
}
