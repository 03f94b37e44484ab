// The least closed set of a job's visits, by questions and answers (`IsClosureOf` in specs/Closure.antt).
//
// The visits found so far stand in a list, each once and in the order of their discovery, and the sheets of the first of them were told.
// `next` asks for a search that these sheets want, each once, or else for the sheet of the first visit without one; what a computed
// target may name is found anew only where a name that the answer rests on got a definition since (`naming.rt`). Where nothing more
// is wanted, the list is closed, and as each visit was found from the source it is the least such. A refusal is answered where it is met
// at every closed list. The state's meaning is `Heard` in specs/Progress.antt.
ghost use Rattle.std.specs.Prelude.{◌≡◌, ◌<◌, length, IfOk, IfSome, IfNone, IsTrue, IsFalse, Bool, None, Some};
ghost use Rattle.closure_fixpoint.specs.Progress.{IsEnough, IsAccepted};
ghost use Rattle.closure_fixpoint.specs.parts.Seen.{ended_by};
ghost use Rattle.closure_fixpoint.specs.parts.Plan.{PlanMeans, AsksNext, IsWhole};
ghost use Rattle.closure_fixpoint.specs.Targets.{heard_of, IsNextWant};
ghost use Rattle.search_path.specs.declared.asking.Visit.{Visit as VisitSeen};
ghost use Rattle.closure_fixpoint.specs.Told.{IsBegun, NextMeans, PutsSearch, PutsSheet, PutsLarge, OfSearch, OfSheet, Ended, Finished, SaysAfterEnd, SaysLarge, RefusalMeans, IsRefused, HasNoMemory};

use crate::Refusal;
use crate::naming::Naming;
use crate::nodes::nodes_told;
use crate::plan::{Plan, make_plan};
use crate::searches::Searches;
use crate::visits::Visits;
use crate::wanting::Want;
use crate::worklist::{all_of, tell_search, tell_sheet, visit_at};
use base_types::{Bytes, List};
use directive_scan::HeaderName;
use job_words::Job;
use search_path::{Ask, Visit};
use sheet_build::{Sheet, Unweighed};
use std::alloc::{AllocError, Global};
use std::marker::Model;
use std::mem::replace;
use symbolic_expand::more_definitions;
use tree_model::{CanonPath, Located};

/// A job's least closed set of visits, in order of discovery, and the nodes that their searches walk.
#[derive(Drop)]
pub struct Closure {
    pub visits: List<Visit>,
    pub nodes: List<CanonPath>,
}

/// What an analysis asks for next, or its end.
#[derive(Drop)]
pub enum Next {
    Search(Ask),
    Sheet(Visit),
    Done(Closure),
    Refused(Refusal),
    Memory,
}

// What was asked for and isn't answered yet; of a search, whether a file that it finds is a visit.
#[derive(Drop)]
enum Wait {
    Nothing,
    Search(Ask, bool),
    Sheet(Visit),
}

// How an analysis ended.
#[derive(Clone, Copy, Drop)]
enum End {
    Done,
    Refused(Refusal),
}

/// An analysis of a job, by questions and answers.
#[derive(Drop)]
pub struct Fixpoint {
    alloc: Global,
    job: Job,
    budget: u32,
    searches: Searches,
    sheets: Vec<(Visit, Unweighed)>,
    large: Option<Visit>,
    found: Visits,
    naming: Naming,
    wait: Wait,
    ended: Option<End>,
    broken: bool,
}

impl Model for Fixpoint {
    ghost use Rattle.closure_fixpoint.specs.Progress.{Heard};
    ghost use Rattle.closure_fixpoint.specs.Told.{Progress, StandsBy};
    ghost use Rattle.closure_fixpoint.specs.parts.Seen.{pending_of, ended_of};

    ghost Value = { Progress };

    ghost view = { λ f. record {
      job = f.job;
      budget = f.budget;
      heard = record { searches = f.searches; sheets = f.sheets.items; large = f.large };
      found = f.found;
      pending = pending_of f.wait;
      ended = ended_of f.ended;
      broken = f.broken;
    } };

    ghost invariant = { λ f. StandsBy f.naming (record {
      job = f.job;
      budget = f.budget;
      heard = record { searches = f.searches; sheets = f.sheets.items; large = f.large };
      found = f.found;
      pending = pending_of f.wait;
      ended = ended_of f.ended;
      broken = f.broken;
    }) };
}

impl Fixpoint {
    /// An analysis that was told nothing so far. The only error is want of memory.
    pub fn new(alloc: Global, job: &Job, budget: u32) -> Result<Fixpoint, AllocError>
        ensures { IfOk result (λ f. IsBegun job.now budget f) }
    {
        Ok(Fixpoint {
            alloc,
            job: job.copy()?,
            budget,
            searches: Searches::new(alloc),
            sheets: Vec::new(alloc),
            large: None,
            found: Visits::new(alloc),
            naming: Naming::new(alloc),
            wait: Wait::Nothing,
            ended: None,
            broken: false,
        })
    }

    /// What is asked for next, or the end. Each search or sheet is asked for once, where it is answered before the next call; a question
    /// that isn't answered is asked again. Sheets are asked for in the order in which their visits were found. After `Refused` or `Memory` it
    /// answers the same, after `Done` the same or `Memory`.
    pub fn next(&mut self) -> Next
        ensures means { NextMeans self.old result self.new }
        ensures stays { (ended : Ended) → self.old.ended ≡ Some ended → IsFalse self.old.broken → SaysAfterEnd ended result }
        ensures large { (visit : Visit) → self.old.heard.large ≡ Some visit → SaysLarge result }
        ensures broken { IsTrue self.old.broken → result ≡ Next.Memory }
    {
        if self.broken {
            return Next::Memory;
        }
        if let Some(end) = self.ended {
            return self.again(end);
        }
        if self.large.is_some() {
            return self.refuse(Refusal::Large);
        }
        self.go_on()
    }

    // The answer of an analysis that ended so.
    fn again(&mut self, end: End) -> Next
        requires calm { IsFalse self.old.broken }
        requires ended { self.old.ended ≡ Some (ended_by end) }
        ensures means { NextMeans self.old result self.new }
        ensures says { SaysAfterEnd (ended_by end) result }
        ensures large { (visit : Visit) → self.old.heard.large ≡ Some visit → SaysLarge result }
    {
        // A function knows what a struct keeps where it looks at a field.
        let _ = &self.ended;
        match end {
            End::Refused(refusal) => self.refuse(refusal),
            End::Done => self.finish(),
        }
    }

    // The next question, or the end, of an analysis that didn't end.
    fn go_on(&mut self) -> Next
        requires calm { IsFalse self.old.broken }
        requires open { self.old.ended ≡ None }
        requires small { self.old.heard.large ≡ None }
        ensures { NextMeans self.old result self.new }
    {
        match self.plan() {
            Some(Plan::Want(Want::Search(ask, include))) => self.ask_search(ask, include),
            Some(Plan::Want(Want::Visit(visit))) => self.add(visit),
            Some(Plan::Sheet) => self.ask_sheet(),
            Some(Plan::Refuse(refusal)) => self.refuse(refusal),
            Some(Plan::Done) => self.finish(),
            None => Next::Memory,
        }
    }

    // What is next, or that memory is wanting.
    fn plan(&mut self) -> Option<Plan>
        requires calm { IsFalse self.old.broken }
        requires small { self.old.heard.large ≡ None }
        ensures some { IfSome result (λ plan. PlanMeans self.old.job self.old.budget self.old.heard self.old.found plan) }
        ensures same { IfSome result (λ _. self.new ≡ self.old) }
        ensures none { IfNone result (HasNoMemory self.new) }
    {
        match make_plan(
            self.alloc,
            &mut self.naming,
            &self.job,
            self.budget,
            &self.searches,
            &self.sheets,
            &self.found,
        ) {
            Ok(plan) => Some(plan),
            Err(_) => {
                self.broken = true;
                None
            }
        }
    }

    // Asks for a search.
    fn ask_search(&mut self, ask: Ask, include: bool) -> Next
        requires open { self.old.ended ≡ None }
        requires wanted { IsNextWant self.old.job self.old.heard self.old.found (Want.Search ask include) }
        ensures { NextMeans self.old result self.new }
    {
        match copy_of(self.alloc, &ask) {
            Ok(copy) => {
                self.wait = Wait::Search(ask, include);
                Next::Search(copy)
            }
            Err(_) => {
                self.broken = true;
                Next::Memory
            }
        }
    }

    // Asks for the sheet of the first visit whose sheet wasn't told.
    fn ask_sheet(&mut self) -> Next
        requires calm { IsFalse self.old.broken }
        requires open { self.old.ended ≡ None }
        requires small { self.old.heard.large ≡ None }
        requires more { length self.old.heard.sheets < length self.old.found }
        ensures { AsksNext self.old result self.new }
    {
        match visit_at(self.alloc, &self.found, self.sheets.len()) {
            Ok((visit, copy)) => {
                self.wait = Wait::Sheet(visit);
                Next::Sheet(copy)
            }
            Err(_) => {
                self.broken = true;
                Next::Memory
            }
        }
    }

    // Adds a visit that is due, and asks for a sheet.
    fn add(&mut self, visit: Visit) -> Next
        requires calm { IsFalse self.old.broken }
        requires open { self.old.ended ≡ None }
        requires small { self.old.heard.large ≡ None }
        requires due { IsNextWant self.old.job self.old.heard self.old.found (Want.Visit visit) }
        ensures { NextMeans self.old result self.new }
    {
        more_definitions::<HeaderName>();
        if let Err(_) = self.found.add(self.alloc, &visit) {
            self.broken = true;
            return Next::Memory;
        }
        self.wait = Wait::Nothing;
        self.ask_sheet()
    }

    // Refuses the analysis.
    fn refuse(&mut self, refusal: Refusal) -> Next
        requires means { RefusalMeans self.old.job self.old.budget self.old.heard refusal }
        requires large { (visit : Visit) → self.old.heard.large ≡ Some visit → refusal ≡ Refusal.Large }
        ensures means { IsRefused self.old refusal self.new }
        ensures says { result ≡ Next.Refused refusal }
    {
        self.wait = Wait::Nothing;
        self.ended = Some(End::Refused(refusal));
        Next::Refused(refusal)
    }

    // Ends the analysis with what was found.
    fn finish(&mut self) -> Next
        requires calm { IsFalse self.old.broken }
        requires enough { IsEnough self.old.job self.old.heard self.old.found }
        requires accepted { IsAccepted self.old.job self.old.budget self.old.heard self.old.found }
        ensures means { NextMeans self.old result self.new }
        ensures says { SaysAfterEnd Finished result }
    {
        more_definitions::<HeaderName>();
        match closure_of(self.alloc, &self.searches, &self.sheets, &self.found) {
            Ok(closure) => {
                self.wait = Wait::Nothing;
                self.ended = Some(End::Done);
                Next::Done(closure)
            }
            Err(_) => {
                self.broken = true;
                Next::Memory
            }
        }
    }

    /// The answer to the search that was asked for.
    pub fn put_search(&mut self, got: Option<(Visit, Located)>)
        ensures told { (ask : Ask) (include : Bool) → self.old.pending ≡ OfSearch ask include → IsFalse self.new.broken → PutsSearch self.old ask got self.new }
    {
        more_definitions::<HeaderName>();
        match replace(&mut self.wait, Wait::Nothing) {
            Wait::Search(ask, include) => {
                if let Err(_) = tell_search(
                    self.alloc,
                    &mut self.searches,
                    &mut self.found,
                    ask,
                    include,
                    got,
                ) {
                    self.broken = true;
                }
            }
            _ => self.broken = true,
        }
    }

    /// The sheet of the visit that was asked for, as a memo keeps it.
    pub fn put_sheet(&mut self, got: Sheet)
        ensures told { (visit : Visit) → self.old.pending ≡ OfSheet visit → IsFalse self.new.broken → PutsSheet self.old visit got self.new }
    {
        self.put_unweighed(got.unweighed());
    }

    /// The sheet of the visit that was asked for.
    pub fn put_unweighed(&mut self, got: Unweighed)
        ensures told { (visit : Visit) → self.old.pending ≡ OfSheet visit → IsFalse self.new.broken → PutsSheet self.old visit got self.new }
    {
        more_definitions::<HeaderName>();
        match replace(&mut self.wait, Wait::Nothing) {
            Wait::Sheet(visit) => {
                if let Err(_) = tell_sheet(
                    self.alloc,
                    &mut self.sheets,
                    &mut self.found,
                    visit,
                    got,
                ) {
                    self.broken = true;
                }
            }
            _ => self.broken = true,
        }
    }

    /// That the file of the visit that was asked for is too large.
    pub fn put_large(&mut self)
        ensures told { (visit : Visit) → self.old.pending ≡ OfSheet visit → IsFalse self.new.broken → PutsLarge self.old visit self.new }
    {
        match replace(&mut self.wait, Wait::Nothing) {
            Wait::Sheet(visit) => self.large = Some(visit),
            _ => self.broken = true,
        }
    }
}

// A copy of what is asked for.
fn copy_of(alloc: Global, ask: &Ask) -> Result<Ask, AllocError>
    ensures { IfOk result (λ copy. copy ≡ ask.now) }
{
    let from = match &ask.from {
        Some(visit) => Some(visit.copy(alloc)?),
        None => None,
    };
    Ok(Ask {
        form: ask.form,
        from,
        name: Bytes::copy_of(alloc, ask.name.as_slice())?,
    })
}

// The visits found, in order, and the nodes that were told.
fn closure_of(
    alloc: Global,
    searches: &Searches,
    sheets: &[(Visit, Unweighed)],
    found: &Visits,
) -> Result<Closure, AllocError>
    ensures { IfOk result (λ closure. IsWhole (heard_of searches.now sheets.now) found.now closure) }
{
    let visits = all_of(alloc, found)?;
    let nodes = nodes_told(alloc, searches, sheets)?;
    Ok(Closure {
        visits: List::of(visits),
        nodes: List::of(nodes),
    })
}
