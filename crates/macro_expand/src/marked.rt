// Tokens with their hide sets.
ghost use Rattle.std.specs.Prelude.{◌≡◌, IfOk};
ghost use Rattle.macro_expand.specs.Seen.{marked_of, kept_plain};

use crate::hide_set::HideSet;
use pp_tokens::TokenCow;
use std::alloc::AllocError;

// A token with its hide set: the names that don't replace it any more (ISO C 6.10.3.4 paragraph 2). Its spelling is lent by the
// text or by a replacement list, unless `#` or `##` made it.
#[derive(Drop)]
pub(crate) struct Marked<'a> {
    pub token: TokenCow<'a>,
    pub hidden: HideSet,
    // Two tokens of an expansion with one stamp have one hide set; 0 where nothing is known.
    pub stamp: u32,
}

impl<'a> Marked<'a> {
    // A token with no hidden name.
    #[inline(always)]
    pub(crate) fn plain(token: TokenCow<'a>) -> Marked<'a>
        ensures { result ≡ kept_plain token.entry }
    {
        Marked {
            token,
            hidden: HideSet::none(),
            stamp: 0,
        }
    }

    // The token, without its hide set.
    #[inline(always)]
    pub(crate) fn bare(self) -> TokenCow<'a>
        ensures { result ≡ self.entry.token }
    {
        self.token
    }

    #[inline(always)]
    pub(crate) fn copy(&self) -> Result<Marked<'a>, AllocError>
        ensures { IfOk result (λ m. m ≡ self.now) }
    {
        Ok(Marked {
            token: self.token.copy()?,
            hidden: self.hidden.copy()?,
            stamp: self.stamp,
        })
    }
}

// What a token at the head of a list is.
#[derive(Clone, Copy, Drop)]
pub(crate) enum Role {
    // `defined` with its operand, in a condition (6.10.1)
    Defined,
    FileName,
    LineNumber,
    // any other identifier that isn't hidden from itself
    Name,
    Ordinary,
}

// What `##` joins (6.10.3.3).
#[derive(Drop)]
pub(crate) enum Piece<'a> {
    Real(Marked<'a>),
    Placemarker,
    Joining,
}
