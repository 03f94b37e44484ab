// Copies of definitions.
ghost use Rattle.std.specs.Prelude.{◌≡◌, IfOk};

use crate::Shape;
use base_types::{Bytes, List};
use pp_tokens::Token;
use std::alloc::{AllocError, Global};

// A copy of a form.
pub(crate) fn copy_shape(alloc: Global, shape: &Shape) -> Result<Shape, AllocError>
    ensures { IfOk result (λ copy. copy ≡ shape.now) }
{
    match shape {
        Shape::Object => Ok(Shape::Object),
        Shape::Function { params, variadic } => {
            let params = copy_names(alloc, params.as_slice())?;
            Ok(Shape::Function {
                params,
                variadic: *variadic,
            })
        }
    }
}

fn copy_names(alloc: Global, names: &[Bytes]) -> Result<List<Bytes>, AllocError>
    ensures { IfOk result (λ copies. copies ≡ names.now) }
{
    let mut copies = List::new(alloc);
    for name in names {
        copies.push(Bytes::copy_of(alloc, name.as_slice())?)?;
    }
    Ok(copies)
}

// Copies of tokens.
pub(crate) fn copy_tokens(alloc: Global, tokens: &[Token]) -> Result<List<Token>, AllocError>
    ensures { IfOk result (λ copies. copies ≡ tokens.now) }
{
    let mut copies = Vec::with_capacity(alloc, tokens.len())?;
    for token in tokens {
        copies.push(copy_token(alloc, token)?)?;
    }
    Ok(List::of(copies))
}

// A copy of a token.
pub(crate) fn copy_token(alloc: Global, token: &Token) -> Result<Token, AllocError>
    ensures { IfOk result (λ copy. copy ≡ token.now) }
{
    let text = Bytes::copy_of(alloc, token.text.as_slice())?;
    Ok(Token {
        kind: token.kind,
        text,
        line: token.line,
        space: token.space,
    })
}

// A copy of the numbers of parameters.
pub(crate) fn copy_numbers(
    alloc: Global,
    numbers: &[Option<u32>],
) -> Result<Vec<Option<u32>>, AllocError>
    ensures { IfOk result (λ copy. copy.items ≡ numbers.now) }
{
    let mut copy = Vec::new(alloc);
    copy.extend_from_slice(numbers)?;
    Ok(copy)
}
