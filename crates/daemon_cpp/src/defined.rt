// The answer in the place of a token (ISO C 6.10.1).
ghost use Rattle.std.specs.Prelude.{◌≡◌, IfOk};
ghost use Rattle.pp_tokens.specs.declared.Kind.TheVariants.{Number};
ghost use Rattle.daemon_cpp.specs.Prep.{answer_token};

use base_types::Bytes;
use pp_tokens::{Kind, Token};
use std::alloc::{AllocError, Global};

/// A 1 or a 0 in the place of a token.
pub fn answer_token(alloc: Global, token: Token, yes: bool) -> Result<Token, AllocError>
    ensures { IfOk result (λ t. t ≡ answer_token token yes) }
{
    if yes {
        in_place(alloc, token, b"1")
    } else {
        in_place(alloc, token, b"0")
    }
}

// A number in the place of a token.
fn in_place(alloc: Global, token: Token, digits: &[u8]) -> Result<Token, AllocError>
    ensures { IfOk result (λ t. t ≡ record token { kind = Number; text = digits.now }) }
{
    let text = Bytes::copy_of(alloc, digits)?;
    Ok(Token {
        kind: Kind::Number,
        text,
        line: token.line,
        space: token.space,
    })
}
