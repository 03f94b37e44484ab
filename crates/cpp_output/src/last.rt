// What stands last on an output line, and the space behind it.
ghost use Rattle.std.specs.Prelude.{◌≡◌, if◌then◌else◌, ◌∷◌, []};
ghost use Rattle.base_types.specs.Ascii as ascii;
ghost use Rattle.pp_tokens.specs.Tokens.{token_seen};
ghost use Rattle.cpp_output.specs.Layout.{is_tight, last_on_line, gap};

use pp_tokens::{TokenRef, is_text_mark};

/// What stands last on an output line: nothing, one of the spellings `( ) [ ] { } , ;`, or another token.
#[derive(Clone, Copy, Debug, PartialEq, Eq, Drop)]
pub enum Last {
    Nothing,
    Tight,
    Loose,
}

// Whether a byte is a punctuator that wants no space beside it.
#[inline(always)]
fn is_tight_byte(byte: u8) -> bool
    ensures { result ≡ is_tight (byte ∷ []) }
{
    is_text_mark(byte)
}

#[inline(always)]
fn has_tight_spelling(text: &[u8]) -> bool
    ensures { result ≡ is_tight text.now }
{
    match text {
        [byte] => is_tight_byte(*byte),
        _ => false,
    }
}

impl Last {
    #[inline(always)]
    pub(crate) fn of_spelling(text: &[u8]) -> Last
        ensures { result ≡ last_on_line text.now }
    {
        if has_tight_spelling(text) {
            Last::Tight
        } else {
            Last::Loose
        }
    }

    // Whether a space stands between what is last on its line and a token that will be the last behind it.
    #[tactic(auto, unfolding(crate::specs::Layout::gap))]
    #[inline(always)]
    pub(crate) fn wants_space(self, token: &TokenRef<'_>, next: Last) -> bool
        requires { next ≡ last_on_line token.now.text.now }
        ensures { gap self (token_seen token.now) ≡ (if result then ascii.space ∷ [] else []) }
    {
        match self {
            Last::Nothing => false,
            Last::Tight => token.space,
            Last::Loose => token.space || next == Last::Loose,
        }
    }
}
