// Pasting (ISO C 6.10.3.3).
ghost use Rattle.std.specs.Prelude.{◌≡◌, ◌⊎◌, ◌++◌, ◌∷◌, [], map, true, false, Ok, Some, None, IfOk, IfErr, IfSome, IsSome, OnOk, List};
ghost use Rattle.pp_tokens.specs.Grammar.{kind_of};
ghost use Rattle.macro_expand.specs.Replacement.{Piece as MarkedPiece, Real, Placemarker, joins_made, pasted, operand_tokens};
ghost use Rattle.macro_expand.specs.Seen.{marked_of, piece_of, paste_operand, pasted_as, ReportsPaste};
ghost use Rattle.macro_expand.specs.parts.Pasting.{joined_from, IsOneToken, MadeIsOne};

use crate::expansion::put;
use crate::marked::{Marked, Piece};
use crate::outcome::{RunError, Spelling};
use base_types::Bytes;
use pp_tokens::{Kind, Token, TokenCow, goes_on, single_token};
use std::alloc::{AllocError, Global};
use std::mem::replace;

// What `##` makes of its two sides. Where a join made the left one, it is known to be one token.
fn paste<'t>(
    alloc: Global,
    t: &Marked,
    left: Option<Marked<'t>>,
    made: bool,
    right: Marked<'t>,
) -> Result<Marked<'t>, RunError>
    requires made { made ≡ true → IfSome left IsOneToken }
    ensures one { IfOk result (λ m. IsSome left.entry → IsOneToken m) }
    ensures ok { IfOk result (λ m. pasted (paste_operand left.entry) (Some (marked_of right.entry)) ≡ Ok (Some (marked_of m))) }
    ensures err { IfErr result (λ e. ReportsPaste e t.now.token.line (pasted (paste_operand left.entry) (Some (marked_of right.entry)))) }
{
    match left {
        None => Ok(right),
        Some(left) => paste_two(alloc, t, left, made, right),
    }
}

// The kind of token that a whole spelling is.
fn spelling_kind(text: &Bytes) -> Option<Kind>
    ensures { result ≡ kind_of text.now }
{
    single_token(text.as_slice())
}

// One spelling after another.
fn joined_text(alloc: Global, left: &[u8], right: &[u8]) -> Result<Bytes, AllocError>
    ensures { IfOk result (λ t. t ≡ left.now ++ right.now) }
{
    let mut text = Vec::with_capacity(alloc, left.len().saturating_add(right.len()))?;
    text.extend_from_slice(left)?;
    text.extend_from_slice(right)?;
    Ok(Bytes::of(text))
}

// The one token that the spellings of two make, where they make one.
fn made_of_two<'t>(
    alloc: Global,
    left: &Marked<'t>,
    right: &Marked<'t>,
) -> Result<Option<Marked<'t>>, AllocError>
    ensures made { IfOk result (λ made. pasted (Some (marked_of left.now)) (Some (marked_of right.now)) ≡ pasted_as left.now right.now made) }
    ensures one { IfOk result (λ made. IfSome made IsOneToken) }
{
    let text = joined_text(alloc, left.token.text(), right.token.text())?;
    let Some(kind) = spelling_kind(&text) else {
        return Ok(None);
    };
    let hidden = left.hidden.common(alloc, &right.hidden)?;
    let token = TokenCow::owned(
        alloc,
        Token {
            kind,
            text,
            line: left.token.line(),
            space: left.token.space(),
        },
    )?;
    Ok(Some(Marked {
        token,
        hidden,
        stamp: 0,
    }))
}

fn not_pasted(alloc: Global, t: &Marked, left: Marked, right: Marked) -> RunError
    ensures { (result ≡ RunError.Memory) ⊎ (result ≡ RunError.Paste left.entry.token.text right.entry.token.text t.now.token.line) }
{
    let Ok(left) = Spelling::copy_of(alloc, left.token.text()) else {
        return RunError::Memory;
    };
    let Ok(right) = Spelling::copy_of(alloc, right.token.text()) else {
        return RunError::Memory;
    };
    RunError::Paste {
        left,
        right,
        line: t.token.line(),
    }
}

// A name or a number that a join made, with what goes on with it: the spelling grows where it is, so a chain of joins costs its length.
fn grown<'t>(alloc: Global, left: Marked<'t>, right: &Marked<'t>) -> Result<Marked<'t>, AllocError>
    requires { kind_of (left.token.text ++ right.now.token.text) ≡ Some left.token.kind }
    ensures one { IfOk result IsOneToken }
    ensures made { IfOk result (λ m. pasted (Some (marked_of left.entry)) (Some (marked_of right.now)) ≡ Ok (Some (marked_of m))) }
{
    let hidden = left.hidden.common(alloc, &right.hidden)?;
    let token = left.token.extended(alloc, right.token.text())?;
    Ok(Marked {
        token,
        hidden,
        stamp: 0,
    })
}

// Two tokens pasted.
fn paste_two<'t>(
    alloc: Global,
    t: &Marked,
    left: Marked<'t>,
    made: bool,
    right: Marked<'t>,
) -> Result<Marked<'t>, RunError>
    requires made { made ≡ true → IsOneToken left }
    ensures one { IfOk result IsOneToken }
    ensures ok { IfOk result (λ m. pasted (Some (marked_of left.entry)) (Some (marked_of right.entry)) ≡ Ok (Some (marked_of m))) }
    ensures err { IfErr result (λ e. ReportsPaste e t.now.token.line (pasted (Some (marked_of left.entry)) (Some (marked_of right.entry)))) }
{
    if made && goes_on(left.token.kind(), left.token.text(), right.token.text()) {
        return Ok(grown(alloc, left, &right)?);
    }
    match made_of_two(alloc, &left, &right)? {
        Some(made) => Ok(made),
        None => Err(not_pasted(alloc, t, left, right)),
    }
}

// Puts out the operand on the left, where there is one.
#[inline(always)]
fn put_operand<'t>(out: &mut Vec<Marked<'t>>, left: Option<Marked<'t>>) -> Result<(), RunError>
    ensures ok { OnOk result (map marked_of out.new.items ≡ map marked_of out.old.items ++ operand_tokens (paste_operand left.entry)) }
    ensures err { IfErr result (λ e. e ≡ RunError.Memory) }
{
    match left {
        None => Ok(()),
        Some(m) => put(out, m),
    }
}

// Pieces that are being joined: the tokens that are whole, the operand on the left, whether a join made it, and whether a `##` follows it.
#[derive(Drop)]
struct Joining<'t> {
    out: Vec<Marked<'t>>,
    left: Option<Marked<'t>>,
    made: bool,
    joining: bool,
}

impl<'t> Joining<'t> {
    // Takes the next piece.
    fn take(&mut self, alloc: Global, t: &Marked, p: Piece<'t>) -> Result<(), RunError>
        requires made { MadeIsOne self.old }
        ensures made { OnOk result (MadeIsOne self.new) }
        ensures ok { OnOk result ((ps : List MarkedPiece) → joined_from self.old (piece_of p.entry ∷ ps) ≡ joined_from self.new ps) }
        ensures err { IfErr result (λ e. (ps : List MarkedPiece) → ReportsPaste e t.now.token.line (joined_from self.old (piece_of p.entry ∷ ps))) }
    {
        match p {
            Piece::Joining => {
                self.joining = true;
                Ok(())
            }
            Piece::Placemarker => self.take_placemarker(),
            Piece::Real(m) => self.take_real(alloc, t, m),
        }
    }

    // A placemarker leaves its join's other side as it is.
    fn take_placemarker(&mut self) -> Result<(), RunError>
        requires made { MadeIsOne self.old }
        ensures made { OnOk result (MadeIsOne self.new) }
        ensures ok { OnOk result ((ps : List MarkedPiece) → joined_from self.old (Placemarker ∷ ps) ≡ joined_from self.new ps) }
        ensures err { IfErr result (λ e. e ≡ RunError.Memory) }
    {
        if self.joining {
            self.joining = false;
            return Ok(());
        }
        put_operand(&mut self.out, self.left.take())
    }

    // A token is pasted to the operand on the left, or comes behind it.
    fn take_real(&mut self, alloc: Global, t: &Marked, m: Marked<'t>) -> Result<(), RunError>
        requires made { MadeIsOne self.old }
        ensures made { OnOk result (MadeIsOne self.new) }
        ensures ok { OnOk result ((ps : List MarkedPiece) → joined_from self.old (Real (marked_of m.entry) ∷ ps) ≡ joined_from self.new ps) }
        ensures err { IfErr result (λ e. (ps : List MarkedPiece) → ReportsPaste e t.now.token.line (joined_from self.old (Real (marked_of m.entry) ∷ ps))) }
    {
        if self.joining {
            return self.paste_on(alloc, t, m);
        }
        self.made = false;
        let left = replace(&mut self.left, Some(m));
        put_operand(&mut self.out, left)
    }

    // Pastes a token to the operand on the left.
    fn paste_on(&mut self, alloc: Global, t: &Marked, right: Marked<'t>) -> Result<(), RunError>
        requires joining { self.old.joining ≡ true }
        requires made { MadeIsOne self.old }
        ensures made { OnOk result (MadeIsOne self.new) }
        ensures ok { OnOk result ((ps : List MarkedPiece) → joined_from self.old (Real (marked_of right.entry) ∷ ps) ≡ joined_from self.new ps) }
        ensures err { IfErr result (λ e. (ps : List MarkedPiece) → ReportsPaste e t.now.token.line (joined_from self.old (Real (marked_of right.entry) ∷ ps))) }
    {
        let left = self.left.take();
        let is_made = left.is_some();
        let made = paste(alloc, t, left, self.made, right)?;
        self.left = Some(made);
        self.made = is_made;
        self.joining = false;
        Ok(())
    }

    // The tokens, with the operand on the left as the last.
    fn end(self) -> Result<Vec<Marked<'t>>, RunError>
        ensures ok { IfOk result (λ ts. joined_from self.entry [] ≡ Ok (map marked_of ts.items)) }
        ensures err { IfErr result (λ e. e ≡ RunError.Memory) }
    {
        let Joining { mut out, left, .. } = self;
        put_operand(&mut out, left)?;
        Ok(out)
    }
}

// The pieces with their joins made from left to right.
pub(crate) fn join_pieces<'t>(
    alloc: Global,
    t: &Marked,
    pieces: Vec<Piece<'t>>,
) -> Result<Vec<Marked<'t>>, RunError>
    ensures ok { IfOk result (λ ts. joins_made None false (map piece_of pieces.entry.items) ≡ Ok (map marked_of ts.items)) }
    ensures err { IfErr result (λ e. ReportsPaste e t.now.token.line (joins_made None false (map piece_of pieces.entry.items))) }
{
    let mut joining = Joining {
        out: Vec::with_capacity(alloc, pieces.len())?,
        left: None,
        made: false,
        joining: false,
    };
    for p in pieces {
        joining.take(alloc, t, p)?;
    }
    joining.end()
}
