// The operands of `__has_include` on the line of a condition (a GNU form).
ghost use Rattle.std.specs.Prelude.{◌≡◌, Some, None, if◌then◌else◌, ◌++◌, ◌∷◌, [], codes, IfOk, OnOk};
ghost use Rattle.std.specs.List.{list_any};
ghost use Rattle.pp_tokens.specs.Marks.{is_word};
ghost use Rattle.directive_scan.specs.Operands.{parts_at_end, parts_of, operands_of, targets_of};
ghost use Rattle.directive_scan.specs.parts.PartsSoFar.{stage_told};

use crate::directive::Target;
use crate::stage::{Stage, is_word, next};
use base_types::List;
use pp_tokens::Token;
use std::alloc::{AllocError, Global};

/// A part of the line of a condition (ISO C 6.10.1): a token as written, or a `__has_include` with its operand in its
/// place.
#[derive(Drop)]
pub enum ConditionPart {
    Written(Token),
    Probe { name: Token, target: Target },
}

/// Whether the line has an identifier `__has_include`. (Most lines have none; their parts are the tokens as written.)
pub fn has_probe(line: &[Token]) -> bool
    ensures { result ≡ list_any (is_word (codes "__has_include")) line.now }
{
    line.iter().any(|token| is_word(token, b"__has_include"))
}

/// The operands of the line's `__has_include`s, in order; None where the line is malformed, as for `parts_of`. Time is
/// linear in the tokens. The only error is want of memory.
pub fn has_operands(alloc: Global, line: &[Token]) -> Result<Option<List<Target>>, AllocError>
    ensures { IfOk result (λ targets. targets ≡ operands_of line.now) }
{
    match parts_of(alloc, line)? {
        Some(parts) => Ok(Some(targets_of(alloc, parts)?)),
        None => Ok(None),
    }
}

// The operands among some parts.
fn targets_of(alloc: Global, parts: List<ConditionPart>) -> Result<List<Target>, AllocError>
    ensures { IfOk result (λ targets. targets ≡ targets_of parts) }
{
    let mut targets = List::new(alloc);
    for part in parts.into_vec() {
        add_target(&mut targets, part)?;
    }
    Ok(targets)
}

#[tactic(auto, unfolding(crate::specs::Operands::targets_of))]
fn add_target(targets: &mut List<Target>, part: ConditionPart) -> Result<(), AllocError>
    ensures { OnOk result (targets.new ≡ targets.old ++ targets_of (part ∷ [])) }
{
    match part {
        ConditionPart::Written(_) => Ok(()),
        ConditionPart::Probe { name: _, target } => {
            targets.push(target)?;
            Ok(())
        }
    }
}

/// The parts of the line of an `#if` or `#elif` (ISO C 6.10.1), each `__has_include` with its operand: `(`, a header name,
/// `)`, or `(`, at least one token with its parentheses balanced, `)`. Behind a `defined`, or a `defined (`, one is written
/// as it is. None exactly where the line is malformed: one has no operand, or stands within another's. Time is linear in
/// the tokens. The only error is want of memory.
pub fn parts_of(alloc: Global, line: &[Token]) -> Result<Option<List<ConditionPart>>, AllocError>
    ensures { IfOk result (λ parts. parts ≡ parts_of line.now) }
{
    let mut parts = List::new(alloc);
    let mut stage = Stage::Outside;
    for token in line {
        match next(alloc, &mut parts, stage, token)? {
            Some(reached) => stage = reached,
            None => return Ok(None),
        }
    }
    if !may_end(&stage) {
        return Ok(None);
    }
    Ok(Some(parts))
}

// Whether a line may end at a stage: outside of operands.
fn may_end(stage: &Stage) -> bool
    ensures { parts_at_end (stage_told stage.now) ≡ if result then Some [] else None }
{
    match stage {
        Stage::Outside => true,
        Stage::BehindDefined => true,
        Stage::BehindOpening => true,
        Stage::Wanted(_) => false,
        Stage::Within { .. } => false,
    }
}
