// What an analysis wants next.
ghost use Rattle.std.specs.Prelude.{◌≡◌, ◌∷◌, map, IfOk, IfSome, Some};
ghost use Rattle.closure_fixpoint.specs.parts.Wanting.{named_ask, WantsOfFile, WantsOfHit, WantsOfAsk, WantsOfHeaders, WantsOfEach};
ghost use Rattle.closure_fixpoint.specs.Closure.{with_angle, first_asks};
ghost use Rattle.search_path.specs.Asks.{forced_ask};

use crate::searches::{AskKey, Searches};
use crate::visits::Visits;
use base_types::Bytes;
use directive_scan::HeaderName;
use job_words::Job;
use search_path::{Ask, Form, Visit};
use std::alloc::{AllocError, Global};
use tree_model::Located;

// A search, with whether a file that it finds is a visit; or a visit that is due.
#[derive(Drop)]
pub enum Want {
    Search(Ask, bool),
    Visit(Visit),
}

// The form of a name in angles, or else in quotes.
fn in_angles(form: Form, angle: bool) -> Form
    ensures { result ≡ with_angle form angle }
{
    match form {
        Form::Quote if angle => Form::Angle,
        Form::NextQuote if angle => Form::NextAngle,
        other => other,
    }
}

// What a visited file asks for by a name that expanded tokens gave.
fn ask_for(alloc: Global, visit: &Visit, form: Form, header: &HeaderName) -> Result<Ask, AllocError>
    ensures { IfOk result (λ ask. ask ≡ named_ask visit.now form header.now) }
{
    let from = visit.copy(alloc)?;
    Ok(Ask {
        form: in_angles(form, header.angle),
        from: Some(from),
        name: Bytes::copy_of(alloc, header.name.as_slice())?,
    })
}

// The visit of a file, where it wasn't found so far.
fn of_file(
    alloc: Global,
    found: &Visits,
    file: &(Visit, Located),
) -> Result<Option<Want>, AllocError>
    ensures { IfOk result (λ want. WantsOfFile found.now file.now want) }
{
    if found.has(&file.0) {
        return Ok(None);
    }
    let visit = file.0.copy(alloc)?;
    Ok(Some(Want::Visit(visit)))
}

// The visit of what a search found, where it is one and wasn't found so far.
fn of_hit(
    alloc: Global,
    found: &Visits,
    include: bool,
    got: &Option<(Visit, Located)>,
) -> Result<Option<Want>, AllocError>
    ensures { IfOk result (λ want. WantsOfHit found.now include got.now want) }
{
    if !include {
        return Ok(None);
    }
    match got {
        Some(file) => of_file(alloc, found, file),
        None => Ok(None),
    }
}

// What is wanted of one search.
fn of_ask(
    alloc: Global,
    searches: &Searches,
    found: &Visits,
    ask: Ask,
    include: bool,
) -> Result<Option<Want>, AllocError>
    ensures { IfOk result (λ want. WantsOfAsk searches.now found.now ask include want) }
{
    let key = AskKey::of(ask);
    match searches.answer_to(&key) {
        None => Ok(Some(Want::Search(key.into_ask(), include))),
        Some(got) => of_hit(alloc, found, include, got),
    }
}

// What is wanted of the headers of a computed target.
pub fn of_headers(
    alloc: Global,
    searches: &Searches,
    found: &Visits,
    visit: &Visit,
    form: Form,
    include: bool,
    headers: &[HeaderName],
) -> Result<Option<Want>, AllocError>
    ensures { IfOk result (λ want. WantsOfHeaders searches.now found.now visit.now form include headers.now want) }
{
    for header in headers {
        let ask = ask_for(alloc, visit, form, header)?;
        match of_ask(alloc, searches, found, ask, include)? {
            Some(want) => return Ok(Some(want)),
            None => (),
        }
    }
    Ok(None)
}

// The first of the headers of a computed target of which something is wanted, from a number on, with its number.
pub fn of_headers_from(
    alloc: Global,
    searches: &Searches,
    found: &Visits,
    visit: &Visit,
    form: Form,
    include: bool,
    headers: &[HeaderName],
    first: usize,
) -> Result<Option<(usize, Want)>, AllocError>
    ensures { IfOk result (λ got. IfSome got (λ next. WantsOfHeaders searches.now found.now visit.now form include headers.now (Some next.1))) }
{
    let mut number = first;
    while number < headers.len() {
        let ask = ask_for(alloc, visit, form, &headers[number])?;
        match of_ask(alloc, searches, found, ask, include)? {
            Some(want) => return Ok(Some((number, want))),
            None => number += 1,
        }
    }
    Ok(None)
}

// What is wanted of the searches for the files in front of the source.
fn of_forced(
    alloc: Global,
    searches: &Searches,
    found: &Visits,
    names: &[Bytes],
) -> Result<Option<Want>, AllocError>
    ensures { IfOk result (λ want. WantsOfEach searches.now found.now (map forced_ask names.now) want) }
{
    for name in names {
        let ask = Ask {
            form: Form::Forced,
            from: None,
            name: Bytes::copy_of(alloc, name.as_slice())?,
        };
        match of_ask(alloc, searches, found, ask, true)? {
            Some(want) => return Ok(Some(want)),
            None => (),
        }
    }
    Ok(None)
}

// What is wanted of the searches for the source and for the files in front of it.
pub fn of_first(
    alloc: Global,
    job: &Job,
    searches: &Searches,
    found: &Visits,
) -> Result<Option<Want>, AllocError>
    ensures { IfOk result (λ want. WantsOfEach searches.now found.now (first_asks job.now) want) }
{
    let source = Ask {
        form: Form::Source,
        from: None,
        name: Bytes::copy_of(alloc, job.source())?,
    };
    match of_ask(alloc, searches, found, source, true)? {
        Some(want) => return Ok(Some(want)),
        None => (),
    }
    of_forced(alloc, searches, found, job.forced())
}
