// What is wanted of the computed targets of the sheets that were told.
ghost use Rattle.std.specs.Prelude.{◌≡◌, ◌<◌, ◌+◌, ◌^◌, length, Some, IfOk, IfSome, OnOk};
ghost use Rattle.std.specs.List.{slice_get};
ghost use Rattle.closure_fixpoint.specs.Naming.{Follows, HasTargetsAt, asked_targets, asked_target, headers_to_ask};
ghost use Rattle.base_types.specs.Members.{Member};
ghost use Rattle.job_words.specs.JobOf.{JobData};
ghost use Rattle.closure_fixpoint.specs.Progress.{IsTold};
ghost use Rattle.closure_fixpoint.specs.Targets.{heard_of, NamesSeen, WantsOr, IsNextWant, IsDoneWith, DoneWithAll, DoneWithSheets};

use crate::Refusal;
use crate::naming::{Naming, Rest, names_of};
use crate::searches::Searches;
use crate::visits::Visits;
use crate::wanting::{Want, of_headers, of_headers_from};
use directive_scan::HeaderName;
use job_words::Job;
use search_path::Visit;
use sheet_build::{Computed, Unweighed};
use std::alloc::{AllocError, Global};

// Sets the headers of a target aside, so that the next question doesn't begin with the first of them.
fn set_aside(
    alloc: Global,
    naming: &mut Naming,
    told: usize,
    visit: &Visit,
    target: &Computed,
    headers: Vec<HeaderName>,
) -> Result<(), AllocError>
    ensures { OnOk result (naming.new ≡ record naming.old { rest = Some (headers_to_ask told visit.now target.now headers) }) }
{
    let visit = visit.copy(alloc)?;
    let include = !target.is_probe();
    naming.rest = Some(Rest {
        told,
        visit,
        form: target.form(),
        include,
        headers,
        next: 0,
    });
    Ok(())
}

// What is wanted of the headers that were set aside, unless a sheet was told since.
pub fn of_rest(
    alloc: Global,
    naming: &mut Naming,
    searches: &Searches,
    sheets: &[(Visit, Unweighed)],
    found: &Visits,
) -> Result<Option<Want>, AllocError>
    ensures want { (job : JobData) → Follows naming.old job sheets.now → IfOk result (λ want. IfSome want (IsNextWant job (heard_of searches.now sheets.now) found.now)) }
    ensures follows { (job : JobData) → Follows naming.old job sheets.now → OnOk result (Follows naming.new job sheets.now) }
{
    let mut rest = match naming.rest.take() {
        Some(rest) => rest,
        None => return Ok(None),
    };
    if rest.told != sheets.len() {
        return Ok(None);
    }
    match of_headers_from(
        alloc,
        searches,
        found,
        &rest.visit,
        rest.form,
        rest.include,
        &rest.headers,
        rest.next,
    )? {
        None => Ok(None),
        Some((next, want)) => {
            rest.next = next;
            naming.rest = Some(rest);
            Ok(Some(want))
        }
    }
}

// What is wanted of a computed target with a number among those of all sheets.
fn of_target(
    alloc: Global,
    naming: &mut Naming,
    job: &Job,
    budget: u32,
    searches: &Searches,
    sheets: &[(Visit, Unweighed)],
    found: &Visits,
    visit: &Visit,
    sheet: &Unweighed,
    target: &Computed,
    number: usize,
) -> Result<Result<Option<Want>, Refusal>, AllocError>
    requires follows { Follows naming.old job.now sheets.now }
    requires told { IsTold (heard_of searches.now sheets.now) visit.now sheet.now target.now }
    requires number { slice_get (asked_targets sheets.now) number ≡ Some (asked_target visit.now sheet.now target.now) }
    ensures want { IfOk result (λ want. WantsOr job.now budget (heard_of searches.now sheets.now) found.now
        (IsDoneWith job.now budget (heard_of searches.now sheets.now) found.now visit.now sheet.now target.now) want) }
    ensures follows { OnOk result (Follows naming.new job.now sheets.now) }
{
    match names_of(
        alloc, naming, job, budget, sheets, visit, sheet, target, number,
    )? {
        Err(refusal) => Ok(Err(refusal)),
        Ok(headers) => {
            let want = of_headers(
                alloc,
                searches,
                found,
                visit,
                target.form(),
                !target.is_probe(),
                &headers,
            )?;
            match want {
                None => Ok(Ok(None)),
                Some(want) => {
                    set_aside(alloc, naming, sheets.len(), visit, target, headers)?;
                    Ok(Ok(Some(want)))
                }
            }
        }
    }
}

// What is wanted of the computed targets of a sheet, of which the first has a number among those of all sheets.
fn of_targets(
    alloc: Global,
    naming: &mut Naming,
    job: &Job,
    budget: u32,
    searches: &Searches,
    sheets: &[(Visit, Unweighed)],
    found: &Visits,
    visit: &Visit,
    sheet: &Unweighed,
    targets: &[Computed],
    first: usize,
) -> Result<Result<Option<Want>, Refusal>, AllocError>
    requires follows { Follows naming.old job.now sheets.now }
    requires told { Member (visit.now, sheet.now) sheets.now }
    requires all { targets.now ≡ sheet.now.computed }
    requires few { first + length targets.now < 2 ^ 64 }
    requires numbers { HasTargetsAt sheets.now first visit.now sheet.now targets.now }
    ensures want { IfOk result (λ want. WantsOr job.now budget (heard_of searches.now sheets.now) found.now
        (DoneWithAll job.now budget (heard_of searches.now sheets.now) found.now visit.now sheet.now targets.now) want) }
    ensures follows { OnOk result (Follows naming.new job.now sheets.now) }
{
    let mut number = first;
    for target in targets {
        match of_target(
            alloc, naming, job, budget, searches, sheets, found, visit, sheet, target, number,
        )? {
            Ok(None) => number += 1,
            Ok(Some(want)) => return Ok(Ok(Some(want))),
            Err(refusal) => return Ok(Err(refusal)),
        }
    }
    Ok(Ok(None))
}

// The number behind those of some targets; no memory has room for more targets than can be counted.
fn number_behind(first: usize, targets: &[Computed]) -> Result<usize, AllocError>
    ensures { IfOk result (λ next. next ≡ first + length targets.now) }
{
    match first.checked_add(targets.len()) {
        Some(next) => Ok(next),
        None => Err(AllocError),
    }
}

// What is wanted of the computed targets of all sheets.
pub fn of_sheets(
    alloc: Global,
    naming: &mut Naming,
    job: &Job,
    budget: u32,
    searches: &Searches,
    sheets: &[(Visit, Unweighed)],
    found: &Visits,
) -> Result<Result<Option<Want>, Refusal>, AllocError>
    requires { Follows naming.old job.now sheets.now }
    ensures want { IfOk result (λ want. WantsOr job.now budget (heard_of searches.now sheets.now) found.now
        (DoneWithSheets job.now budget (heard_of searches.now sheets.now) found.now sheets.now) want) }
    ensures follows { OnOk result (Follows naming.new job.now sheets.now) }
{
    let mut number = 0usize;
    for told in sheets {
        let targets = told.1.computed();
        let next = number_behind(number, targets)?;
        match of_targets(
            alloc, naming, job, budget, searches, sheets, found, &told.0, &told.1, targets, number,
        )? {
            Ok(None) => number = next,
            Ok(Some(want)) => return Ok(Ok(Some(want))),
            Err(refusal) => return Ok(Err(refusal)),
        }
    }
    Ok(Ok(None))
}
