// Whether a whole spelling is one token (ISO C 6.4).
ghost use Rattle.std.specs.Prelude.{◌≡◌, ◌++◌, Some, IsTrue};
ghost use Rattle.std.specs.List.{list_all};
ghost use Rattle.pp_tokens.specs.Grammar.{goes_on, is_identifier_byte, kind_of};
ghost use Rattle.pp_tokens.specs.parts.Text.{part_told, whole_kind};

use crate::class::is_identifier_byte;
use crate::marks::{byte_at, number_goes_on};
use crate::part::{What, next_part};
use crate::token::Kind;
use crate::unpaired::Unpaired;

/// The kind of the one preprocessing token that a whole spelling is, or None exactly where it isn't exactly one: where it
/// is empty, white space, a comment, or more than one token (ISO C 6.4; of what `##` makes, 6.10.3.3 paragraph 3). The
/// spelling is of bytes after translation phases 1 and 2. A header name isn't read. Time is linear in the length.
pub fn single_token(text: &[u8]) -> Option<Kind>
    ensures { result ≡ kind_of text.now }
{
    if text.is_empty() {
        return None;
    }
    let mut unpaired = Unpaired::new();
    let (part, length) = next_part(text, 0, false, &mut unpaired);
    whole_kind(part, length, text.len())
}

/// Whether bytes go on with the spelling of an identifier or of a preprocessing number, so that both together are one token of this kind (ISO C
/// 6.4.2.1, 6.4.8). Time is linear in these bytes alone. It isn't known of other kinds.
pub fn goes_on(kind: Kind, text: &[u8], more: &[u8]) -> bool
    ensures goes_on { result ≡ goes_on kind text.now more.now }
    ensures one { IsTrue result → kind_of text.now ≡ Some kind → kind_of (text.now ++ more.now) ≡ Some kind }
{
    match kind {
        Kind::Ident => are_of_identifiers(more),
        Kind::Number => number_goes_on(byte_at(text, text.len().saturating_sub(1)), more),
        _ => false,
    }
}

// Whether each byte may go on with an identifier.
fn are_of_identifiers(bytes: &[u8]) -> bool
    ensures { result ≡ list_all is_identifier_byte bytes.now }
{
    bytes.iter().all(|b| is_identifier_byte(*b))
}

// The kind of a part that is a token and as long as the text.
fn whole_kind(part: What, length: usize, size: usize) -> Option<Kind>
    ensures { result ≡ whole_kind (part_told part, length) size }
{
    match part {
        What::Token(kind) => { if length == size { Some(kind) } else { None } }
        _ => None,
    }
}
