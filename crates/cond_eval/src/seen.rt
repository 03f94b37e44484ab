// What is known of an expression that was read.
ghost use Rattle.std.specs.Prelude.{◌≡◌, ◌==◌, not, max, option_map, option_and_then};
ghost use Rattle.cond_eval.specs.Arithmetic.{unary_bits, binary_bits, truth};
ghost use Rattle.cond_eval.specs.Expressions.{logical_and, logical_or, one_of, evaluated};
ghost use Rattle.cond_eval.specs.parts.Seen.{seen_constant, seen_enclosed, seen_unary, seen_binary, seen_conditional, deeper, checked_value};

use crate::arithmetic::{binary_bits, binary_unsigned, unary_bits, unary_unsigned};
use crate::operator::{Binary, Unary};
use crate::{CondError, Num};
use base_types::limits::CONDITION_DEPTH_LIMIT;

// The bits of its value, none where an operand that is evaluated divides by 0; whether its type is unsigned; and how deep it
// nests, where one above the limit stands for any more.
#[derive(Clone, Copy, Debug)]
pub struct Seen {
    pub bits: Option<u64>,
    pub unsigned: bool,
    pub depth: u8,
}

// One deeper.
fn deeper(depth: u8) -> u8
    ensures { result ≡ deeper depth }
{
    if depth < CONDITION_DEPTH_LIMIT + 1 {
        depth + 1
    } else {
        CONDITION_DEPTH_LIMIT + 1
    }
}

pub fn seen_constant(number: Num) -> Seen
    ensures { result ≡ seen_constant number }
{
    Seen {
        bits: Some(number.bits),
        unsigned: number.unsigned,
        depth: 0,
    }
}

pub fn seen_enclosed(inside: Seen) -> Seen
    ensures { result ≡ seen_enclosed inside }
{
    Seen {
        bits: inside.bits,
        unsigned: inside.unsigned,
        depth: deeper(inside.depth),
    }
}

// What an operator in front of its operand makes of the operand's bits.
fn bits_of_unary(operator: Unary, bits: Option<u64>) -> Option<u64>
    ensures { result ≡ option_map (unary_bits operator) bits }
{
    match bits {
        Some(bits) => Some(unary_bits(operator, bits)),
        None => None,
    }
}

pub fn seen_unary(operator: Unary, operand: Seen) -> Seen
    ensures { result ≡ seen_unary operator operand }
{
    Seen {
        bits: bits_of_unary(operator, operand.bits),
        unsigned: unary_unsigned(operator, operand.unsigned),
        depth: deeper(operand.depth),
    }
}

// 1 where bits are not 0, and else 0.
fn truth_of(bits: Option<u64>) -> Option<u64>
    ensures { result ≡ option_map (λ b. truth (not (b == 0))) bits }
{
    match bits {
        Some(bits) => Some(if bits != 0 { 1 } else { 0 }),
        None => None,
    }
}

// `&&`, whose right operand is evaluated where the left one isn't 0.
fn logical_and(left: u64, right: Option<u64>) -> Option<u64>
    ensures { result ≡ logical_and left right }
{
    if left == 0 { Some(0) } else { truth_of(right) }
}

// `||`, whose right operand is evaluated where the left one is 0.
fn logical_or(left: u64, right: Option<u64>) -> Option<u64>
    ensures { result ≡ logical_or left right }
{
    if left == 0 { truth_of(right) } else { Some(1) }
}

// What another operator makes of them, whose right operand is evaluated always.
fn plain_bits(
    operator: Binary,
    left_unsigned: bool,
    right_unsigned: bool,
    left: u64,
    right: Option<u64>,
) -> Option<u64>
    ensures { result ≡ option_and_then (λ r. binary_bits operator left_unsigned right_unsigned left r) right }
{
    match right {
        Some(right) => binary_bits(operator, left_unsigned, right_unsigned, left, right),
        None => None,
    }
}

// What an operator makes of the bits of its operands.
fn evaluated(
    operator: Binary,
    left_unsigned: bool,
    right_unsigned: bool,
    left: Option<u64>,
    right: Option<u64>,
) -> Option<u64>
    ensures { result ≡ evaluated operator left_unsigned right_unsigned left right }
{
    let Some(left) = left else {
        return None;
    };
    match operator {
        Binary::LogicalAnd => logical_and(left, right),
        Binary::LogicalOr => logical_or(left, right),
        _ => plain_bits(operator, left_unsigned, right_unsigned, left, right),
    }
}

fn greater(left: u8, right: u8) -> u8
    ensures { result ≡ max left right }
{
    if left < right { right } else { left }
}

pub fn seen_binary(operator: Binary, left: Seen, right: Seen) -> Seen
    ensures { result ≡ seen_binary operator left right }
{
    Seen {
        bits: evaluated(
            operator,
            left.unsigned,
            right.unsigned,
            left.bits,
            right.bits,
        ),
        unsigned: binary_unsigned(operator, left.unsigned, right.unsigned),
        depth: greater(left.depth, right.depth),
    }
}

// The bits of the operand of `?:` that is evaluated.
fn one_of(condition: Option<u64>, then: Option<u64>, other: Option<u64>) -> Option<u64>
    ensures { result ≡ option_and_then (λ a. one_of a then other) condition }
{
    match condition {
        Some(0) => other,
        Some(_) => then,
        None => None,
    }
}

pub fn seen_conditional(condition: Seen, then: Seen, other: Seen) -> Seen
    ensures { result ≡ seen_conditional condition then other }
{
    Seen {
        bits: one_of(condition.bits, then.bits, other.bits),
        unsigned: then.unsigned || other.unsigned,
        depth: deeper(greater(condition.depth, greater(then.depth, other.depth))),
    }
}

/// Its value, where it doesn't nest too deep and divides by 0 nowhere.
pub fn judged(seen: Seen) -> Result<Num, CondError>
    ensures { result ≡ checked_value seen }
{
    if CONDITION_DEPTH_LIMIT < seen.depth {
        return Err(CondError::TooDeep);
    }
    match seen.bits {
        Some(bits) => Ok(Num {
            bits,
            unsigned: seen.unsigned,
        }),
        None => Err(CondError::ZeroDivisor),
    }
}
