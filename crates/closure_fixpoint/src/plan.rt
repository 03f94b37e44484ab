// What an analysis does next.
ghost use Rattle.std.specs.Prelude.{◌<◌, ◌≤◌, [], length, IfOk, OnOk, IsTrue, IsFalse};
ghost use Rattle.base_types.specs.Limits.{visit_limit};
ghost use Rattle.search_path.specs.Asks.{source_ask};
ghost use Rattle.closure_fixpoint.specs.Naming.{Follows};
ghost use Rattle.closure_fixpoint.specs.Progress.{WasSearched};
ghost use Rattle.closure_fixpoint.specs.parts.Plan.{IsReady, IsMissing, PlanMeans};
ghost use Rattle.closure_fixpoint.specs.Targets.{heard_of};

use crate::Refusal;
use crate::naming::Naming;
use crate::searches::{AskKey, Searches};
use crate::targets::{of_rest, of_sheets};
use crate::visits::Visits;
use crate::wanting::{Want, of_first};
use base_types::Bytes;
use base_types::limits::VISIT_LIMIT;
use directive_scan::HeaderName;
use job_words::Job;
use search_path::{Ask, Form, Visit};
use sheet_build::Unweighed;
use std::alloc::{AllocError, Global};
use symbolic_expand::more_definitions;

// Something that is wanted, the sheet of the next visit, or the end.
#[derive(Drop)]
pub enum Plan {
    Want(Want),
    Sheet,
    Refuse(Refusal),
    Done,
}

// Whether the search for the source, which was made, found nothing.
fn source_is_missing(alloc: Global, job: &Job, searches: &Searches) -> Result<bool, AllocError>
    requires { WasSearched (heard_of searches.now []) (source_ask job.now.source) }
    ensures { IfOk result (λ missing. IsMissing searches.now (source_ask job.now.source) missing) }
{
    let source = AskKey::of(Ask {
        form: Form::Source,
        from: None,
        name: Bytes::copy_of(alloc, job.source())?,
    });
    match searches.answer_to(&source) {
        Some(Some(_)) => Ok(false),
        Some(None) => Ok(true),
        None => unreachable!(),
    }
}

// Whether there are too many visits.
fn has_too_many(found: &Visits) -> bool
    ensures many { IsTrue result → visit_limit < length found.now }
    ensures few { IsFalse result → length found.now ≤ visit_limit }
{
    found.len() > VISIT_LIMIT
}

// What is next. Too many visits are looked at first, so that the sheets of those beyond aren't asked for.
pub fn make_plan(
    alloc: Global,
    naming: &mut Naming,
    job: &Job,
    budget: u32,
    searches: &Searches,
    sheets: &[(Visit, Unweighed)],
    found: &Visits,
) -> Result<Plan, AllocError>
    requires ready { IsReady job.now (heard_of searches.now sheets.now) found.now }
    requires follows { Follows naming.old job.now sheets.now }
    ensures means { IfOk result (λ plan. PlanMeans job.now budget (heard_of searches.now sheets.now) found.now plan) }
    ensures follows { OnOk result (Follows naming.new job.now sheets.now) }
{
    more_definitions::<HeaderName>();
    if has_too_many(found) {
        return Ok(Plan::Refuse(Refusal::Visits));
    }
    match of_first(alloc, job, searches, found)? {
        Some(want) => return Ok(Plan::Want(want)),
        None => (),
    }
    if source_is_missing(alloc, job, searches)? {
        return Ok(Plan::Refuse(Refusal::NoSource));
    }
    if sheets.len() < found.len() {
        return Ok(Plan::Sheet);
    }
    match of_rest(alloc, naming, searches, sheets, found)? {
        Some(want) => return Ok(Plan::Want(want)),
        None => (),
    }
    match of_sheets(alloc, naming, job, budget, searches, sheets, found)? {
        Ok(Some(want)) => Ok(Plan::Want(want)),
        Ok(None) => Ok(Plan::Done),
        Err(refusal) => Ok(Plan::Refuse(refusal)),
    }
}
