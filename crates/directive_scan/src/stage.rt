// How the line of a condition is read for the operands of `__has_include`, token by token.
ghost use Rattle.std.specs.Prelude.{◌≡◌, ◌≤◌, Some, ◌+◌, ◌++◌, ◌∷◌, [], false, option_map, List, IfOk};
ghost use Rattle.pp_tokens.specs.declared.Token.{Token};
ghost use Rattle.pp_tokens.specs.Marks.{is_word};
ghost use Rattle.directive_scan.specs.declared.operand.ConditionPart.{ConditionPart};
ghost use Rattle.directive_scan.specs.Operands as reading;
ghost use Rattle.directive_scan.specs.Operands.{Parts, closes, sort_of, operand_of, outside, behind_defined, behind_opening, wanted, within, part_before, probe_before, token_before, parts_from};
ghost use Rattle.directive_scan.specs.parts.PartsSoFar.{sort_told, is_asking, is_opening, stage_told, open_count, count_reached, so_far, reached, inner_before, inner_count};

use crate::directive::Target;
use crate::operand::ConditionPart;
use crate::scanner::header_name;
use base_types::List;
use pp_tokens::{Kind, Token};
use std::alloc::{AllocError, Global};

// What operands are made of.
#[derive(Clone, Copy, Drop)]
enum Sort {
    Asks,
    Defines,
    Opens,
    Closes,
    Plain,
}

// How far a line was read: outside of operands; behind a `defined`; behind a `defined (`; behind a `__has_include` that
// wants its operand; within an operand, behind some of its tokens, in so many of its parentheses.
#[derive(Drop)]
pub enum Stage {
    Outside,
    BehindDefined,
    BehindOpening,
    Wanted(Token),
    Within {
        name: Token,
        tokens: List<Token>,
        depth: usize,
    },
}

// What a token does within an operand: it makes the line malformed, ends the operand, or belongs to it, which is then in
// so many parentheses.
#[derive(Clone, Copy, Drop)]
enum Inner {
    Malformed,
    End,
    Within(usize),
}

// The stage behind a token, with the part that it ends; None where it makes the line malformed.
pub fn next(
    alloc: Global,
    parts: &mut List<ConditionPart>,
    stage: Stage,
    token: &Token,
) -> Result<Option<Stage>, AllocError>
    requires { open_count stage + 1 ≤ 18446744073709551615 }
    ensures shown { IfOk result (λ s. (others : List Token) → reached parts.new s others ≡ so_far parts.old (stage_told stage) (token.now ∷ others)) }
    ensures counted { IfOk result (λ s. count_reached s ≤ open_count stage + 1) }
{
    match stage {
        Stage::Outside => next_outside(alloc, parts, token),
        Stage::BehindDefined => with_written(alloc, parts, token, behind_defined(sort_of(token))),
        Stage::BehindOpening => with_written(alloc, parts, token, behind_opening(sort_of(token))),
        Stage::Wanted(name) => Ok(next_wanted(alloc, name, token)),
        Stage::Within {
            name,
            tokens,
            depth,
        } => next_within(alloc, parts, name, tokens, depth, token),
    }
}

// Outside of operands a `__has_include` wants one, and any other token is written as it is.
fn next_outside(
    alloc: Global,
    parts: &mut List<ConditionPart>,
    token: &Token,
) -> Result<Option<Stage>, AllocError>
    ensures shown { IfOk result (λ s. (others : List Token) → reached parts.new s others ≡ so_far parts.old outside (token.now ∷ others)) }
    ensures counted { IfOk result (λ s. count_reached s ≡ 0) }
{
    let sort = sort_of(token);
    if asks(sort) {
        return Ok(Some(Stage::Wanted(copied(alloc, token)?)));
    }
    with_written(alloc, parts, token, behind_other(sort))
}

// A token is written as it is, and a stage reached.
fn with_written(
    alloc: Global,
    parts: &mut List<ConditionPart>,
    token: &Token,
    stage: Stage,
) -> Result<Option<Stage>, AllocError>
    ensures shown { IfOk result (λ s. (others : List Token) → reached parts.new s others ≡ so_far (parts.old ++ ConditionPart.Written token.now ∷ []) (stage_told stage) others) }
    ensures counted { IfOk result (λ s. count_reached s ≡ open_count stage) }
{
    parts.push(ConditionPart::Written(copied(alloc, token)?))?;
    Ok(Some(stage))
}

// The stage behind a token that is no `__has_include`, outside of operands.
fn behind_other(sort: Sort) -> Stage
    requires { is_asking (sort_told sort) ≡ false }
    ensures shown { (next : reading.Stage → Parts) (t : Token) → token_before next t (sort_told sort) outside ≡ part_before (ConditionPart.Written t) (next (stage_told result)) }
    ensures counted { open_count result ≡ 0 }
{
    match sort {
        Sort::Defines => Stage::BehindDefined,
        Sort::Asks => Stage::Outside,
        Sort::Opens => Stage::Outside,
        Sort::Closes => Stage::Outside,
        Sort::Plain => Stage::Outside,
    }
}

// The stage behind a token that stands behind a `defined`.
fn behind_defined(sort: Sort) -> Stage
    ensures shown { (next : reading.Stage → Parts) (t : Token) → token_before next t (sort_told sort) behind_defined ≡ part_before (ConditionPart.Written t) (next (stage_told result)) }
    ensures counted { open_count result ≡ 0 }
{
    match sort {
        Sort::Defines => Stage::BehindDefined,
        Sort::Opens => Stage::BehindOpening,
        Sort::Asks => Stage::Outside,
        Sort::Closes => Stage::Outside,
        Sort::Plain => Stage::Outside,
    }
}

// The stage behind a token that stands behind a `defined (`.
fn behind_opening(sort: Sort) -> Stage
    ensures shown { (next : reading.Stage → Parts) (t : Token) → token_before next t (sort_told sort) behind_opening ≡ part_before (ConditionPart.Written t) (next (stage_told result)) }
    ensures counted { open_count result ≡ 0 }
{
    match sort {
        Sort::Defines => Stage::BehindDefined,
        Sort::Opens => Stage::Outside,
        Sort::Asks => Stage::Outside,
        Sort::Closes => Stage::Outside,
        Sort::Plain => Stage::Outside,
    }
}

// A `__has_include` that wants its operand gets a `(`, or the line is malformed.
fn next_wanted(alloc: Global, name: Token, token: &Token) -> Option<Stage>
    ensures shown { (parts : List ConditionPart) (others : List Token) → reached parts result others ≡ so_far parts (wanted name) (token.now ∷ others) }
    ensures counted { count_reached result ≡ 0 }
{
    if !opens(sort_of(token)) {
        return None;
    }
    Some(Stage::Within {
        name,
        tokens: List::new(alloc),
        depth: 0,
    })
}

// Within an operand.
fn next_within(
    alloc: Global,
    parts: &mut List<ConditionPart>,
    name: Token,
    tokens: List<Token>,
    depth: usize,
    token: &Token,
) -> Result<Option<Stage>, AllocError>
    requires { depth + 1 ≤ 18446744073709551615 }
    ensures shown { IfOk result (λ s. (others : List Token) → reached parts.new s others ≡ so_far parts.old (within name tokens depth) (token.now ∷ others)) }
    ensures counted { IfOk result (λ s. count_reached s ≤ depth + 1) }
{
    match inner_of(sort_of(token), depth) {
        Inner::Malformed => Ok(None),
        Inner::End => with_operand(alloc, parts, name, tokens),
        Inner::Within(depth) => longer(alloc, name, tokens, depth, token),
    }
}

// What a token is to the operand within that it stands.
fn inner_of(sort: Sort, depth: usize) -> Inner
    requires { depth + 1 ≤ 18446744073709551615 }
    ensures shown { (next : reading.Stage → Parts) (t name : Token) (tokens : List Token) → token_before next t (sort_told sort) (within name tokens depth) ≡ inner_before next t name tokens result }
    ensures counted { inner_count result ≤ depth + 1 }
{
    match sort {
        Sort::Asks => Inner::Malformed,
        Sort::Defines => Inner::Within(depth),
        Sort::Opens => Inner::Within(depth + 1),
        Sort::Closes => closed(depth),
        Sort::Plain => Inner::Within(depth),
    }
}

// What a `)` is to the operand within that it stands.
fn closed(depth: usize) -> Inner
    ensures shown { (next : reading.Stage → Parts) (t name : Token) (tokens : List Token) → token_before next t closes (within name tokens depth) ≡ inner_before next t name tokens result }
    ensures counted { inner_count result ≤ depth }
{
    if depth == 0 {
        return Inner::End;
    }
    Inner::Within(depth - 1)
}

// An operand with one more token.
fn longer(
    alloc: Global,
    name: Token,
    tokens: List<Token>,
    depth: usize,
    token: &Token,
) -> Result<Option<Stage>, AllocError>
    ensures { IfOk result (λ s. s ≡ Some (Stage.Within name (tokens ++ token.now ∷ []) depth)) }
{
    let mut tokens = tokens;
    tokens.push(copied(alloc, token)?)?;
    Ok(Some(Stage::Within {
        name,
        tokens,
        depth,
    }))
}

// A `__has_include` with its tokens as its operand; None where they are none.
fn with_operand(
    alloc: Global,
    parts: &mut List<ConditionPart>,
    name: Token,
    tokens: List<Token>,
) -> Result<Option<Stage>, AllocError>
    ensures shown { IfOk result (λ s. (others : List Token) → reached parts.new s others ≡ option_map (λ more. parts.old ++ more) (probe_before name (operand_of tokens) (parts_from outside others))) }
    ensures counted { IfOk result (λ s. count_reached s ≡ 0) }
{
    match operand_of(alloc, tokens)? {
        Some(target) => {
            parts.push(ConditionPart::Probe { name, target })?;
            Ok(Some(Stage::Outside))
        }
        None => Ok(None),
    }
}

// What the tokens of an operand name: one header name, or what is one once they are expanded.
#[tactic(auto, unfolding(crate::specs::Operands::operand_of))]
fn operand_of(alloc: Global, tokens: List<Token>) -> Result<Option<Target>, AllocError>
    ensures { IfOk result (λ target. target ≡ operand_of tokens) }
{
    match tokens.as_slice() {
        [] => Ok(None),
        [only] if only.kind == Kind::Header => {
            Ok(Some(Target::Plain(header_name(alloc, only.text.as_slice())?)))
        }
        _ => Ok(Some(Target::Computed(tokens))),
    }
}

#[tactic(auto, unfolding(crate::specs::Operands::sort_of))]
fn sort_of(token: &Token) -> Sort
    ensures { sort_told result ≡ sort_of token.now }
{
    if is_word(token, b"__has_include") {
        Sort::Asks
    } else if is_word(token, b"defined") {
        Sort::Defines
    } else if token.is_mark(b"(") {
        Sort::Opens
    } else if token.is_mark(b")") {
        Sort::Closes
    } else {
        Sort::Plain
    }
}

fn asks(sort: Sort) -> bool
    ensures { result ≡ is_asking (sort_told sort) }
{
    matches!(sort, Sort::Asks)
}

fn opens(sort: Sort) -> bool
    ensures { result ≡ is_opening (sort_told sort) }
{
    matches!(sort, Sort::Opens)
}

// Whether a token is this identifier.
pub fn is_word(token: &Token, spelling: &[u8]) -> bool
    ensures { result ≡ is_word spelling.now token.now }
{
    token.is_identifier() && token.text.as_slice() == spelling
}

fn copied(alloc: Global, token: &Token) -> Result<Token, AllocError>
    ensures { IfOk result (λ t. t ≡ token.now) }
{
    token.as_ref().to_token(alloc)
}
