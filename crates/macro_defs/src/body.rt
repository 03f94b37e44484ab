// Where the tokens of a replacement list are.
ghost use Rattle.std.specs.Prelude.{◌≡◌, IfOk};
ghost use Rattle.std.specs.Arc.{arc_value};
ghost use Rattle.macro_defs.specs.Runs.{run_tokens};
ghost use Rattle.macro_defs.specs.parts.Kept.{body_tokens, MayShare, SharesPlain};

use crate::Shape;
use crate::copies::{copy_token, copy_tokens};
use crate::run::Run;
use base_types::List;
use pp_tokens::{Lexed, Token};
use std::alloc::{AllocError, Global};
use std::slice::from_ref;
use std::sync::Arc;

// The tokens of a replacement list: a list of its own, one token, as most macros of compile words have, with no list in memory of its own,
// or those of a file from one number up to another.
#[derive(Drop)]
pub(crate) enum Body {
    Listed(List<Token>),
    One(Token),
    Shared(Arc<Lexed, Global>, u32, u32),
}

impl Body {
    // A copy, which shares a file where this one does.
    pub(crate) fn copy(&self, alloc: Global) -> Result<Body, AllocError>
        ensures tokens { IfOk result (λ copy. body_tokens copy ≡ body_tokens self.now) }
        ensures shared { (shape : Shape) → MayShare shape self.now → IfOk result (MayShare shape) }
    {
        match self {
            Body::Listed(tokens) => Ok(Body::Listed(copy_tokens(alloc, tokens.as_slice())?)),
            Body::One(token) => Ok(Body::One(copy_token(alloc, token)?)),
            Body::Shared(file, from, end) => Ok(Body::Shared(Arc::try_clone(file)?, *from, *end)),
        }
    }

    // The tokens, lent.
    #[inline(always)]
    pub(crate) fn tokens(&self) -> Run<'_>
        ensures tokens { run_tokens result ≡ body_tokens self.now }
        ensures shared { (shape : Shape) → MayShare shape self.now → SharesPlain shape result }
    {
        match self {
            Body::Listed(tokens) => Run::Listed(tokens.as_slice()),
            Body::One(token) => Run::Listed(from_ref(token)),
            Body::Shared(file, from, end) => Run::Lexed(file.tokens(*from as usize, *end as usize)),
        }
    }
}
