// How the conditionals of a file nest.
ghost use Rattle.std.specs.Prelude.{◌≡◌, ◌++◌, ◌∷◌, [], false, map, IfOk};
ghost use Rattle.std.proofs.Common.{inr};
ghost use Rattle.pp_tokens.specs.Lines.{LexedFile};
ghost use Rattle.directive_scan.specs.Groups.{malformed_by, outline, role_of};
ghost use Rattle.directive_scan.specs.parts.OpenStack.{Steps, branch_step, nesting_step, endif_step, is_else, open_step, unended_last};
ghost use Rattle.directive_scan.specs.Spots.{piece_at, KnowsName, EachKnowsName};

use crate::conditional::{BranchName, Malformed};
use crate::role::{Nesting, nesting_of};
use crate::spots::Spot;
use std::alloc::{AllocError, Global};

/// A conditional that isn't ended yet, by the line of its opening.
#[derive(Clone, Copy)]
struct Open {
    at: u32,
    else_seen: bool,
}

// The first malformed line of a file, by the spots of its pieces: an `#elif`, `#else` or `#endif` that has no place there,
// or at the end of the file the last opening that isn't ended. `None` where its conditionals nest.
pub fn first_malformed(alloc: Global, spots: &[Spot]) -> Result<Option<Malformed>, AllocError>
    ensures { IfOk result (λ found. (file : LexedFile) → EachKnowsName file spots.now → found ≡ malformed_by (outline role_of (map (piece_at file) spots.now))) }
{
    let mut stack: Vec<Open> = Vec::new(alloc);
    for spot in spots {
        if let Some(wrong) = step(&mut stack, spot)? {
            return Ok(Some(wrong));
        }
    }
    Ok(last_unended(&stack))
}

// What is wrong with a piece behind the conditionals that are open before it.
fn step(stack: &mut Vec<Open>, spot: &Spot) -> Result<Option<Malformed>, AllocError>
    ensures { IfOk result (λ found. (file : LexedFile) → KnowsName file spot.now → Steps (open_step stack.old.items (piece_at file spot.now)) found stack.new.items) }
{
    match spot {
        Spot::Text { .. } => Ok(None),
        Spot::Line { at, name, .. } => directive(stack, *at, nesting_of(*name)),
    }
}

fn directive(
    stack: &mut Vec<Open>,
    at: u32,
    nesting: Nesting,
) -> Result<Option<Malformed>, AllocError>
    ensures { IfOk result (λ found. Steps (nesting_step at nesting stack.old.items) found stack.new.items) }
{
    match nesting {
        Nesting::Single => Ok(None),
        Nesting::Opening => opening(stack, at),
        Nesting::Branch(BranchName::Elif) => branch(stack, BranchName::Elif, at),
        Nesting::Branch(BranchName::Else) => branch(stack, BranchName::Else, at),
        Nesting::Branch(BranchName::Endif) => Ok(endif(stack, at)),
    }
}

fn opening(stack: &mut Vec<Open>, at: u32) -> Result<Option<Malformed>, AllocError>
    ensures { IfOk result (λ found. Steps (inr (stack.old.items ++ record { at = at; else_seen = false } ∷ [])) found stack.new.items) }
{
    stack.push(Open {
        at,
        else_seen: false,
    })?;
    Ok(None)
}

// An `#elif` or an `#else`: it begins another group of the conditional opened last.
fn branch(stack: &mut Vec<Open>, name: BranchName, at: u32) -> Result<Option<Malformed>, AllocError>
    ensures { IfOk result (λ found. Steps (branch_step name at stack.old.items) found stack.new.items) }
{
    let Some(open) = stack.pop() else {
        return Ok(Some(Malformed::WithoutIf { name, at }));
    };
    if open.else_seen {
        return Ok(Some(Malformed::AfterElse { name, at }));
    }
    stack.push(Open {
        at: open.at,
        else_seen: names_else(name),
    })?;
    Ok(None)
}

fn names_else(name: BranchName) -> bool
    ensures { result ≡ is_else name }
{
    matches!(name, BranchName::Else)
}

// It ends the conditional opened last.
fn endif(stack: &mut Vec<Open>, at: u32) -> Option<Malformed>
    ensures { Steps (endif_step at stack.old.items) result stack.new.items }
{
    match stack.pop() {
        Some(_) => None,
        None => Some(Malformed::WithoutIf {
            name: BranchName::Endif,
            at,
        }),
    }
}

// The opening of the last conditional that isn't ended.
fn last_unended(stack: &[Open]) -> Option<Malformed>
    ensures { result ≡ unended_last stack.now }
{
    match stack.last() {
        Some(open) => Some(Malformed::Unended { at: open.at }),
        None => None,
    }
}
