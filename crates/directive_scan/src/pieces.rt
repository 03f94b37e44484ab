// The pieces of a file, lent from its lexed form.
ghost use Rattle.std.specs.Prelude.{◌≡◌, ◌<◌, ◌≤◌, ◌+◌, [], length, map, drop, get_or, codes, IfOk};
ghost use Rattle.std.specs.List.{list_any};
ghost use Rattle.pp_tokens.specs.Marks.{is_word};
ghost use Rattle.pp_tokens.specs.Tokens.{token_seen};
ghost use Rattle.directive_scan.specs.Directives.{pieces};
ghost use Rattle.directive_scan.specs.Groups.{malformed_by, outline, role_of};
ghost use Rattle.directive_scan.specs.Gathered.{tokens_at_line};
ghost use Rattle.directive_scan.specs.Names.{directive_told, tokens_behind};
ghost use Rattle.directive_scan.specs.Spots.{AsksOf, piece_seen, directive_seen, role_told};
ghost use Rattle.directive_scan.specs.declared.directive.Piece.{Piece};

use crate::asked::{Asked, asked_at};
use crate::conditional::Malformed;
use crate::directive::Directive;
use crate::name::DirectiveName;
use crate::outline::first_malformed;
use crate::role::{Nesting, nesting_of};
use crate::scanner::directive_with;
use crate::spots::{Spot, spots};
use pp_tokens::{Lexed, TokenRef, Tokens};
use std::alloc::{AllocError, Global};
use std::marker::Model;
use std::sync::Arc;

/// A lexed file, cut into its pieces (ISO C 6.10): its directives, and the runs of text lines between them. No token is
/// copied: a piece is lent, and a directive's tokens are made where it is read. Copies share what they hold.
#[derive(Drop)]
pub struct Pieces {
    parts: Arc<Parts, Global>,
}

// What the pieces of a file and their copies hold.
#[derive(Drop)]
struct Parts {
    // definitions keep the file beyond its pieces
    lexed: Arc<Lexed, Global>,
    spots: Vec<Spot>,
}

impl Model for Pieces {
    ghost use Rattle.std.specs.Prelude.{List, map};
    ghost use Rattle.std.specs.Arc.{arc_value};
    ghost use Rattle.directive_scan.specs.declared.directive.Piece.{Piece};
    ghost use Rattle.std.specs.Prelude.{◌≡◌};
    ghost use Rattle.directive_scan.specs.Directives.{pieces};
    ghost use Rattle.directive_scan.specs.Spots.{piece_at, EachKnowsName};

    ghost Value = { List Piece };

    ghost view = { λ p. let parts = arc_value p.parts in map (piece_at (arc_value parts.lexed)) parts.spots.items };

    ghost invariant = { λ p. let parts = arc_value p.parts in EachKnowsName (arc_value parts.lexed) parts.spots.items
        × (map (piece_at (arc_value parts.lexed)) parts.spots.items ≡ pieces (arc_value parts.lexed).lines) };
}

/// A directive that lies in its file.
#[derive(Clone, Copy, Drop)]
pub struct DirectiveRef<'a> {
    lexed: &'a Arc<Lexed, Global>,
    line: usize,
    name: DirectiveName,
}

/// A piece that lies in its file: the tokens of a run, or a directive with the physical line, from 1, of its `#`.
#[derive(Clone, Copy, Drop)]
pub enum PieceRef<'a> {
    Run(Tokens<'a>),
    Line { at: u32, what: DirectiveRef<'a> },
}

impl Pieces {
    /// The pieces of a lexed file. Time is linear in its lines; the only error is want of memory.
    pub fn of(alloc: Global, lexed: Lexed) -> Result<Pieces, AllocError>
        ensures { IfOk result (λ ps. ps ≡ pieces lexed.lines) }
    {
        let mut spots = spots(alloc, &lexed)?;
        spots.shrink_to_fit();
        Ok(Pieces {
            parts: Arc::new(
                alloc,
                Parts {
                    lexed: Arc::new(alloc, lexed)?,
                    spots,
                },
            )?,
        })
    }

    /// Those of a file without lines: none. The only error is want of memory.
    #[tactic(auto, unfolding(crate::specs::Directives::pieces))]
    pub fn empty(alloc: Global) -> Result<Pieces, AllocError>
        ensures { IfOk result (λ ps. ps ≡ []) }
    {
        Pieces::of(alloc, Lexed::empty(alloc))
    }

    /// A copy, which takes no memory and no time. It is refused only where there are 2^63 copies.
    pub fn copy(&self) -> Result<Pieces, AllocError>
        ensures { IfOk result (λ copy. copy ≡ self.now) }
    {
        Ok(Pieces {
            parts: Arc::try_clone(&self.parts)?,
        })
    }

    /// The file that was cut into them.
    pub fn lexed(&self) -> &Lexed
        ensures { self.now ≡ pieces result.now.lines }
    {
        &self.parts.lexed
    }

    /// How many there are.
    pub fn len(&self) -> usize
        ensures { result ≡ length self.now }
    {
        self.parts.spots.len()
    }

    /// How many bytes of the file its runs of text take at most, for room that is taken beforehand.
    pub fn text_bytes(&self) -> usize {
        self.parts.lexed.text_bytes()
    }

    /// The first malformed line of the file: an `#elif`, `#else` or `#endif` that has no place there, or at the end of
    /// the file the last opening that isn't ended. `None` where its conditionals nest. No token is read.
    pub fn malformed(&self, alloc: Global) -> Result<Option<Malformed>, AllocError>
        ensures { IfOk result (λ found. found ≡ malformed_by (outline role_of self.now)) }
    {
        first_malformed(alloc, &self.parts.spots)
    }

    /// What the piece with a number is to the nesting of conditionals (ISO C 6.10.1). No token is read.
    pub fn nesting(&self, number: usize) -> Nesting
        requires { number < length self.now }
        ensures { (p : Piece) → role_told result ≡ role_of (get_or self.now number p) }
    {
        match self.parts.spots[number] {
            Spot::Text { .. } => Nesting::Single,
            Spot::Line { name, .. } => nesting_of(name),
        }
    }

    /// The piece with a number, from 0.
    pub fn piece(&self, number: usize) -> PieceRef<'_>
        requires { number < length self.now }
        ensures shown { piece_seen result ≡ get_or self.now number (piece_seen result) }
        ensures few { number + 1 ≤ 18446744073709551615 }
    {
        match self.parts.spots[number] {
            Spot::Text { from, end } => {
                PieceRef::Run(self.parts.lexed.tokens(from as usize, end as usize))
            }
            Spot::Line { name, line, at } => PieceRef::Line {
                at,
                what: DirectiveRef {
                    lexed: &self.parts.lexed,
                    line: line as usize,
                    name,
                },
            },
        }
    }
}

impl<'a> DirectiveRef<'a> {
    /// What the directive is, by its name. No token is made.
    pub fn name(&self) -> DirectiveName
        ensures { directive_seen self.now ≡ directive_told result (tokens_behind self.now) }
    {
        self.name
    }

    /// Whether an identifier `__has_include` stands behind the name, as `has_probe` asks of tokens. No token is made.
    pub fn has_probe(&self) -> bool
        ensures { result ≡ list_any (is_word (codes "__has_include")) (tokens_behind self.now) }
    {
        probes_from(self.lexed, self.line, 2)
    }

    /// The directive, with a copy of the tokens that it needs. The only error is want of memory.
    pub fn read(&self, alloc: Global) -> Result<Directive, AllocError>
        ensures { IfOk result (λ d. d ≡ directive_seen self.now) }
    {
        directive_with(alloc, self.lexed, self.line, self.name)
    }

    /// What the line asks, where it is of a conditional. No token is copied.
    pub fn asked(&self) -> Asked<'a>
        ensures { AsksOf result (directive_seen self.now) }
    {
        asked_at(self.lexed, self.line, self.name)
    }
}

// Whether an identifier `__has_include` stands on a line from a place on.
fn probes_from(lexed: &Lexed, line: usize, place: usize) -> bool
    ensures { result ≡ list_any (is_word (codes "__has_include")) (drop place (tokens_at_line lexed.now line)) }
{
    for at in place..lexed.token_count(line) {
        if let Some(token) = lexed.token(line, at) {
            if is_probe(&token) {
                return true;
            }
        }
    }
    false
}

// Whether a token is an identifier `__has_include`.
fn is_probe(token: &TokenRef<'_>) -> bool
    ensures { result ≡ is_word (codes "__has_include") (token_seen token.now) }
{
    token.is_identifier() && token.text == b"__has_include".as_slice()
}
