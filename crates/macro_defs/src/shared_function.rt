// Function-like macros that share the file in which they are defined (ISO C 6.10.3).
//
// Most of a unit's function-like macros are never called. So of one without `#` and `##` no token of the replacement list is copied: its
// parameters are read, and which of them each token names. What isn't read so is read by `read_define`, which tells what is wrong.
ghost use Rattle.std.specs.Prelude.{◌≡◌, ◌-◌, ◌≤◌, length, take, drop, Some, Ok, IfOk, IfSome};
ghost use Rattle.std.specs.Arc.{arc_value};
ghost use Rattle.pp_tokens.specs.Lines.{all_tokens};
ghost use Rattle.pp_tokens.specs.Marks.{is_close};
ghost use Rattle.pp_tokens.specs.Tokens.{rest_of};
ghost use Rattle.macro_defs.specs.Defining as spec;
ghost use Rattle.macro_defs.specs.Defining.{defined_by, IsParted};
ghost use Rattle.macro_defs.specs.parts.Kept.{ReadsParameters};

use crate::marks::{have_operator, opens_parameters};
use crate::numbers::numbers_ahead;
use crate::params::{FEW, parameters_of};
use crate::reading::{names_macro, numbers_behind};
use crate::{DefineError, Definition};
use base_types::{Bytes, List};
use pp_tokens::{Lexed, Token, Tokens};
use std::alloc::{AllocError, Global};
use std::sync::Arc;

// A few parameters, and how many tokens list them, with the parentheses.
#[derive(Drop)]
struct Listed {
    params: List<Bytes>,
    variadic: bool,
    count: usize,
}

// The name and the definition of such a macro, where the tokens from one number up to another give one.
pub(crate) fn function_within(
    alloc: Global,
    file: &Arc<Lexed, Global>,
    from: usize,
    end: usize,
) -> Result<Option<(Bytes, Definition)>, AllocError>
    ensures { IfOk result (λ found. IfSome found (λ d. defined_by (take (end - from) (drop from (all_tokens (arc_value file.now)))) ≡ Ok (record { name = d.0; definition = d.1 }))) }
{
    let mut behind = file.tokens(from, end);
    let Some(name) = behind.next() else {
        return Ok(None);
    };
    if !names_macro(&name) {
        return Ok(None);
    }
    let Some(listed) = parameters_ahead(alloc, &mut behind)? else {
        return Ok(None);
    };
    if have_operator(behind) {
        return Ok(None);
    }
    let Some((start, stop)) = numbers_behind(from, listed.count, end) else {
        return Ok(None);
    };
    let named = numbers_ahead(alloc, listed.params.as_slice(), behind)?;
    let Listed {
        params,
        variadic,
        ..
    } = listed;
    let definition = Definition::sharing(alloc, params, variadic, named, file, start, stop)?;
    Ok(Some((Bytes::copy_of(alloc, name.text)?, definition)))
}

// The parameters that stand first behind a name, where they are right and few; they are taken. The tokens are counted with the name's.
fn parameters_ahead(alloc: Global, behind: &mut Tokens<'_>) -> Result<Option<Listed>, AllocError>
    ensures { IfOk result (λ found. IfSome found (λ l. ReadsParameters (rest_of behind.old) (rest_of behind.new) l.params l.variadic (l.count - 1) × ((1 ≤ l.count) × (length l.params ≤ 8)))) }
{
    let Some(open) = behind.next() else {
        return Ok(None);
    };
    if !opens_parameters(&open) {
        return Ok(None);
    }
    let Some(within) = take_within(alloc, behind)? else {
        return Ok(None);
    };
    let Some((params, variadic)) = few_parameters(alloc, within.as_slice())? else {
        return Ok(None);
    };
    Ok(Some(Listed {
        params,
        variadic,
        count: within.len() + 3,
    }))
}

// Takes the tokens up to the first `)`.
fn take_within(alloc: Global, behind: &mut Tokens<'_>) -> Result<Option<Vec<Token>>, AllocError>
    ensures { IfOk result (λ found. IfSome found (λ within. IsParted is_close (rest_of behind.old) within.items (rest_of behind.new))) }
{
    let mut within = Vec::new(alloc);
    while let Some(token) = behind.next() {
        if token.is_mark(b")") {
            return Ok(Some(within));
        }
        within.push(token.to_token(alloc)?)?;
    }
    Ok(None)
}

// The parameters that the tokens between the parentheses list, where they are right and few.
fn few_parameters(
    alloc: Global,
    within: &[Token],
) -> Result<Option<(List<Bytes>, bool)>, AllocError>
    ensures { IfOk result (λ found. IfSome found (λ p. (spec.parameters_of within.now ≡ Some (record { names = p.0; variadic = p.1 })) × (length p.0 ≤ 8))) }
{
    match parameters_of(alloc, within) {
        Ok((params, variadic)) => {
            if params.len() > FEW {
                return Ok(None);
            }
            Ok(Some((params, variadic)))
        }
        Err(DefineError::Memory) => Err(AllocError),
        Err(_) => Ok(None),
    }
}
