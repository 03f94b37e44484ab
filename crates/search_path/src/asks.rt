// What is asked for, by its name.
ghost use Rattle.std.specs.Prelude.{◌≡◌, IfOk};
ghost use Rattle.search_path.specs.Asks as asks;
ghost use Rattle.search_path.specs.Asks.{form_of};

use crate::{Ask, Form, Visit};
use base_types::Bytes;
use std::alloc::{AllocError, Global};

/// The form of an include or an include_next, with its name in angles or else in quotes.
pub fn form_of(next: bool, angle: bool) -> Form
    ensures { result ≡ form_of next angle }
{
    match (next, angle) {
        (false, false) => Form::Quote,
        (false, true) => Form::Angle,
        (true, false) => Form::NextQuote,
        (true, true) => Form::NextAngle,
    }
}

/// What a file asks for by a header name, in angles or else in quotes (ISO C 6.10.2).
pub fn header_ask(
    alloc: Global,
    visit: &Visit,
    next: bool,
    angle: bool,
    name: &[u8],
) -> Result<Ask, AllocError>
    ensures { IfOk result (λ ask. ask ≡ asks.header_ask visit.now next angle name.now) }
{
    Ok(Ask {
        form: form_of(next, angle),
        from: Some(visit.copy(alloc)?),
        name: Bytes::copy_of(alloc, name)?,
    })
}

/// What a file of `-include` is asked for by.
pub fn forced_ask(alloc: Global, name: &[u8]) -> Result<Ask, AllocError>
    ensures { IfOk result (λ ask. ask ≡ asks.forced_ask name.now) }
{
    Ok(Ask {
        form: Form::Forced,
        from: None,
        name: Bytes::copy_of(alloc, name)?,
    })
}

/// What a job's source is asked for by.
pub fn source_ask(alloc: Global, name: &[u8]) -> Result<Ask, AllocError>
    ensures { IfOk result (λ ask. ask ≡ asks.source_ask name.now) }
{
    Ok(Ask {
        form: Form::Source,
        from: None,
        name: Bytes::copy_of(alloc, name)?,
    })
}
