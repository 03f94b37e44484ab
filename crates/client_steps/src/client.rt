// The resumable client: private work from need to need.
ghost use Rattle.std.specs.Prelude.{◌≡◌, ◌<◌, ℕ, length, IfOk, IsTrue, IsFalse};
ghost use Rattle.io_edges.specs.Talk.{EachAnswered};
ghost use Rattle.job_ends.specs.Outside.{seen_end};
ghost use Rattle.job_ends.specs.Record.{known};
ghost use Rattle.client_steps.specs.Phases.{CanWork, AnswerFits, NeedHolds, phase_after};
ghost use Rattle.client_steps.specs.Ledger.{HasRoom, IsNew, NextMoves, NextKeeps, DrewTheSame, PutKeeps, IsAbove, least_after};

use crate::phase::{Advanced, Phase};
use crate::step::advance;
use crate::{Need, Reply};
use closure_memo::Kept;
use host_slots::Lease;
use io_edges::{Host, LinkState, Outs, Wire};
use job_ends::{Cause, Done, End, Replied};
use job_words::Job;
use sheet_build::Sheet;
use std::alloc::{AllocError, Global};
use std::mem::replace;
use tree_model::Tree;

/// A client: its number, how many jobs there are, the budget of its analyses, the least job number that it may draw next,
/// the records of its jobs, and where it stands. There is room for a record of each job.
pub struct Client {
    number: u32,
    jobs: u32,
    budget: u32,
    least: u32,
    records: Vec<Done>,
    phase: Phase,
}

// Puts a phase into the place of one that ended.
fn put_back(slot: &mut Phase, phase: Phase)
    requires { slot.old ≡ Phase.Ended }
    ensures { slot.new ≡ phase }
{
    match replace(slot, phase) {
        Phase::Ended => (),
        _ => unreachable!(),
    }
}

// The least number that may be drawn next.
fn least_next(least: u32, jobs: u32, phase: &Phase, reply: &Reply) -> u32
    requires { AnswerFits jobs phase.now reply.now }
    ensures { result ≡ least_after least reply.now }
{
    match reply {
        Reply::Drawn(Some(job)) => *job + 1,
        _ => least,
    }
}

// The phase after a draw.
fn after_draw(phase: Phase, job: Option<u32>) -> Phase
    requires { phase ≡ Phase.Draws }
    ensures { result ≡ phase_after phase (Reply.Drawn job) }
{
    match phase {
        Phase::Draws => match job {
            None => Phase::Ended,
            Some(job) => Phase::Begins { job },
        },
        _ => unreachable!(),
    }
}

// The phase after a look.
fn after_look(phase: Phase, got: Option<Sheet>) -> Phase
    requires { AnswerFits 0 phase (Reply.Looked got) }
    ensures { result ≡ phase_after phase (Reply.Looked got) }
{
    match phase {
        Phase::Looks {
            job,
            left,
            fixpoint,
            key,
        } => match got {
            None => Phase::Misses {
                job,
                left,
                fixpoint,
                key,
            },
            Some(sheet) => Phase::Finds {
                job,
                left,
                fixpoint,
                key,
                sheet,
            },
        },
        _ => unreachable!(),
    }
}

// The phase after a publication.
fn after_publish(phase: Phase, kept: Kept) -> Phase
    requires { AnswerFits 0 phase (Reply.Kept kept) }
    ensures { result ≡ phase_after phase (Reply.Kept kept) }
{
    match phase {
        Phase::Publishes {
            job,
            left,
            fixpoint,
            key: _,
        } => Phase::Goes {
            job,
            left,
            fixpoint,
        },
        _ => unreachable!(),
    }
}

// The phase after a slot was asked for.
fn after_take(phase: Phase, lease: Option<Lease>) -> Phase
    requires { AnswerFits 0 phase (Reply.Leased lease) }
    ensures { result ≡ phase_after phase (Reply.Leased lease) }
{
    match phase {
        Phase::Takes {
            job,
            request,
            hosts,
        } => match lease {
            None => Phase::Wants { job, request },
            Some(lease) => Phase::Calls {
                job,
                request,
                hosts,
                lease,
            },
        },
        _ => unreachable!(),
    }
}

// The phase after a slot was given back.
fn after_give(phase: Phase) -> Phase
    requires { AnswerFits 0 phase Reply.Given }
    ensures { result ≡ phase_after phase Reply.Given }
{
    match phase {
        Phase::Gives {
            job,
            host: _,
            replied,
        } => Phase::Concludes { job, replied },
        _ => unreachable!(),
    }
}

// The phase after a look or a publication for which there was no memory.
fn after_refusal(phase: Phase) -> Phase
    requires { AnswerFits 0 phase Reply.Refused }
    ensures { result ≡ phase_after phase Reply.Refused }
{
    match phase {
        Phase::Looks {
            job,
            left: _,
            fixpoint: _,
            key: _,
        } => Phase::Concludes {
            job,
            replied: Replied::Failed(Cause::Memory),
        },
        Phase::Publishes {
            job,
            left: _,
            fixpoint: _,
            key: _,
        } => Phase::Concludes {
            job,
            replied: Replied::Failed(Cause::Memory),
        },
        _ => unreachable!(),
    }
}

// The phase after an answer.
fn after(phase: Phase, reply: Reply) -> Phase
    requires { (jobs : ℕ) × AnswerFits jobs phase reply }
    ensures { result ≡ phase_after phase reply }
{
    match reply {
        Reply::Drawn(job) => return after_draw(phase, job),
        Reply::Looked(got) => return after_look(phase, got),
        Reply::Kept(kept) => return after_publish(phase, kept),
        Reply::Leased(lease) => return after_take(phase, lease),
        Reply::Given => return after_give(phase),
        Reply::Refused => return after_refusal(phase),
    }
}

impl Client {
    /// A client of this number, for so many jobs, which did none so far. It takes the room for the records of all jobs.
    pub fn new(alloc: Global, number: u32, jobs: u32, budget: u32) -> Result<Client, AllocError>
        ensures new { IfOk result (IsNew number jobs budget) }
        ensures room { IfOk result HasRoom }
    {
        let records = Vec::with_capacity(alloc, jobs as usize)?;
        Ok(Client {
            number,
            jobs,
            budget,
            least: 0,
            records,
            phase: Phase::Rests,
        })
    }

    /// Does the client's private work at its end, up to its next need: what others see, an atomic step, is made by the caller,
    /// who hands the answer to `put`. The jobs, the hosts and the end are those of the earlier calls.
    pub fn next<T: Tree, W: Wire, O: Outs>(
        &mut self,
        alloc: Global,
        jobs: &[Job],
        hosts: &[Host],
        end: &mut End<T, W, O>,
    ) -> Need
        requires works { CanWork (length jobs.now) (length hosts.now) self.old.phase }
        requires some_host { 0 < length hosts.now }
        requires room { HasRoom self.old }
        requires closed { W.state end.old.wire ≡ LinkState.Closed }
        requires answered { EachAnswered W.peer (W.talk end.old.wire) }
        ensures closed { W.state end.new.wire ≡ LinkState.Closed }
        ensures answered { EachAnswered W.peer (W.talk end.new.wire) }
        ensures room { HasRoom self.new }
        ensures same { (self.new.jobs ≡ self.old.jobs) × ((self.new.number ≡ self.old.number) × ((self.new.budget ≡ self.old.budget) × (self.new.least ≡ self.old.least))) }
        ensures moves { NextMoves (length jobs.now) (length hosts.now) self.old.phase self.new.phase result }
        ensures keeps { let seen = seen_end T.told T.Tree.faults T.reads W.talk W.state W.Wire.faults O.kept O.Outs.faults in
            NextKeeps (known T.Of.named self.old.budget) jobs.now hosts.now self.old self.new (seen end.old) (seen end.new) }
        ensures right { NeedHolds (known T.Of.named self.old.budget) result }
        ensures numbers { DrewTheSame self.old self.new }
        ensures ended { self.new.phase ≡ Phase.Ended → self.old.phase ≡ Phase.Ended }
    {
        let mut phase = replace(&mut self.phase, Phase::Ended);
        loop {
            match advance(alloc, self.budget, self.number, jobs, hosts, end, phase) {
                Advanced::Goes(next) => phase = next,
                Advanced::Records(done) => {
                    self.records.push_reserved(done);
                    phase = Phase::Rests;
                }
                Advanced::Waits(next, need) => {
                    put_back(&mut self.phase, next);
                    return need;
                }
            }
        }
    }

    /// The answer to the need that stands: any that fits it. `Refused` answers a look or a publication, for which there was no
    /// memory; a number that was drawn is above all that the client drew before; a lease is of one of the hosts.
    pub fn put(&mut self, reply: Reply)
        requires fits { AnswerFits self.old.jobs self.old.phase reply }
        requires above { IsAbove self.old.least reply }
        requires room { HasRoom self.old }
        ensures room { HasRoom self.new }
        ensures least { self.new.least ≡ least_after self.old.least reply }
        ensures same { (self.new.jobs ≡ self.old.jobs) × ((self.new.number ≡ self.old.number) × ((self.new.budget ≡ self.old.budget) × (self.new.records ≡ self.old.records))) }
        ensures phase { self.new.phase ≡ phase_after self.old.phase reply }
        ensures keeps { PutKeeps self.old self.new reply }
    {
        let phase = replace(&mut self.phase, Phase::Ended);
        self.least = least_next(self.least, self.jobs, &phase, &reply);
        put_back(&mut self.phase, after(phase, reply));
    }

    /// Its number.
    pub fn number(&self) -> u32
        ensures { result ≡ self.now.number }
    {
        self.number
    }

    /// Whether it has ended: it drew no number more, and all its jobs are done.
    pub fn has_ended(&self) -> bool
        ensures ended { IsTrue result → self.now.phase ≡ Phase.Ended }
        ensures not_ended { IsFalse result → self.now.phase ≡ Phase.Ended → ⊥ }
    {
        matches!(&self.phase, Phase::Ended)
    }

    /// The records of the jobs that were done so far, in the order in which they ended.
    pub fn records(&self) -> &[Done]
        ensures { result.now ≡ self.now.records.items }
    {
        &self.records
    }

    /// The records of a client that has ended. It takes no memory.
    pub fn into_records(self) -> Vec<Done>
        requires { self.phase ≡ Phase.Ended }
        ensures { result ≡ self.records }
    {
        let Client {
            number: _,
            jobs: _,
            budget: _,
            least: _,
            records,
            phase,
        } = self;
        match phase {
            Phase::Ended => (),
            _ => unreachable!(),
        }
        records
    }

    /// Takes a client apart that did nothing.
    pub fn cancel(self)
        requires { self.phase ≡ Phase.Rests }
    {
        let Client {
            number: _,
            jobs: _,
            budget: _,
            least: _,
            records: _,
            phase,
        } = self;
        match phase {
            Phase::Rests => (),
            _ => unreachable!(),
        }
    }
}
