// What an expansion lends at once.
use pp_tokens::{TokenRef, Tokens};

/// Tokens that no macro touches, where they stand: one that a macro put in, or those of a stretch of the file, of which there is one at
/// least.
#[derive(Clone, Copy, Drop)]
pub enum Lent<'a> {
    Token(TokenRef<'a>),
    Stretch(Tokens<'a>),
}
