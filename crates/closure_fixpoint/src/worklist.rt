// What is told to an analysis, and the visits that are found by it.
ghost use Rattle.std.specs.Prelude.{◌≡◌, ◌<◌, ◌++◌, ◌∷◌, [], Some, length, map, IfOk, OnOk, OnErr};
ghost use Rattle.std.specs.List.{slice_get};
ghost use Rattle.closure_fixpoint.specs.parts.Worklist.{with_visits, AddsSome, TellsSome, visit_in, with_found, with_hit, TellsNoVisit};
ghost use Rattle.closure_fixpoint.specs.Asked.{HasNoAnswer};

use crate::searches::Searches;
use crate::visits::Visits;
use search_path::{Ask, Visit};
use sheet_build::Unweighed;
use std::alloc::{AllocError, Global};
use tree_model::Located;

// Adds those visits of files that weren't found so far.
#[tactic(auto, unfolding(crate::specs::parts::Worklist::with_visits))]
pub fn add_visits(
    alloc: Global,
    found: &mut Visits,
    files: &[(Visit, Located)],
) -> Result<(), AllocError>
    ensures ok { OnOk result (found.new ≡ with_visits found.old (map (λ file. file.0) files.now)) }
    // After a refusal a front of them was added.
    ensures err { OnErr result (AddsSome found.old files.now found.new) }
{
    for file in files {
        found.add(alloc, &file.0)?;
    }
    Ok(())
}

// Tells the sheet of a visit, and adds the visits of its plain includes.
pub fn tell_sheet(
    alloc: Global,
    sheets: &mut Vec<(Visit, Unweighed)>,
    found: &mut Visits,
    visit: Visit,
    sheet: Unweighed,
) -> Result<(), AllocError>
    ensures sheets { OnOk result (sheets.new.items ≡ sheets.old.items ++ (visit, sheet) ∷ []) }
    ensures found { OnOk result (found.new ≡ with_visits found.old (map (λ file. file.0) sheet.plain)) }
    ensures err { OnErr result (TellsSome sheets.old.items found.old visit sheet sheets.new.items found.new) }
{
    sheets.push((visit, sheet))?;
    let told = &sheets[sheets.len() - 1];
    add_visits(alloc, found, told.1.plain())
}

// Tells the answer to a search, and adds the visit of the file that it found, where that is one.
pub fn tell_search(
    alloc: Global,
    searches: &mut Searches,
    found: &mut Visits,
    ask: Ask,
    include: bool,
    got: Option<(Visit, Located)>,
) -> Result<(), AllocError>
    requires { HasNoAnswer searches.old ask }
    ensures searches { OnOk result (searches.new ≡ searches.old ++ (ask, got) ∷ []) }
    ensures found { OnOk result (found.new ≡ with_hit include found.old got) }
    ensures err { OnErr result (TellsNoVisit searches.old found.old ask got searches.new found.new) }
{
    let visit = visit_in(alloc, include, &got)?;
    searches.tell(ask, got)?;
    add_found(alloc, found, visit)
}

// The visit of what a search found, where it is one.
fn visit_in(
    alloc: Global,
    include: bool,
    got: &Option<(Visit, Located)>,
) -> Result<Option<Visit>, AllocError>
    ensures { IfOk result (λ visit. visit ≡ visit_in include got.now) }
{
    match got {
        Some(file) if include => Ok(Some(file.0.copy(alloc)?)),
        _ => Ok(None),
    }
}

// Adds a visit, if there is one, that wasn't found so far.
fn add_found(alloc: Global, found: &mut Visits, visit: Option<Visit>) -> Result<(), AllocError>
    ensures ok { OnOk result (found.new ≡ with_found found.old visit) }
    ensures err { OnErr result (found.new ≡ found.old) }
{
    match visit {
        Some(visit) => found.add(alloc, &visit),
        None => Ok(()),
    }
}

// A visit with a number, from 0, twice.
pub fn visit_at(alloc: Global, found: &Visits, number: usize) -> Result<(Visit, Visit), AllocError>
    requires { number < length found.now }
    ensures first { IfOk result (λ two. slice_get found.now number ≡ Some two.0) }
    ensures second { IfOk result (λ two. two.1 ≡ two.0) }
{
    match found.get(number) {
        Some(visit) => Ok((visit.copy(alloc)?, visit.copy(alloc)?)),
        None => unreachable!(),
    }
}

// All visits, in order.
pub fn all_of(alloc: Global, found: &Visits) -> Result<Vec<Visit>, AllocError>
    ensures { IfOk result (λ visits. visits.items ≡ found.now) }
{
    let mut visits = Vec::new(alloc);
    for number in 0..found.len() {
        match found.get(number) {
            Some(visit) => visits.push(visit.copy(alloc)?)?,
            None => unreachable!(),
        }
    }
    Ok(visits)
}
