// The operators of controlling expressions on 64 bits (ISO C 6.5.3.3, 6.5.5 to 6.5.12).
ghost use Rattle.std.specs.Prelude.{◌≡◌, ◌<◌, ◌||◌, Some, None, false, int_lt};
ghost use Rattle.cond_eval.specs.Arithmetic.{number_of_bits, truth, quotient, remainder, left_by, right_by, shifted_left, shifted_right, sign_bits, where_divisible, unary_bits, binary_bits, unary_unsigned, binary_unsigned};

use crate::operator::{Binary, Unary};

// 1 where something holds, and else 0.
fn truth(holds: bool) -> u64
    ensures { result ≡ truth holds }
{
    if holds { 1 } else { 0 }
}

// What an operator in front of its operand makes of the operand's bits.
pub fn unary_bits(operator: Unary, bits: u64) -> u64
    ensures { result ≡ unary_bits operator bits }
{
    match operator {
        Unary::Plus => bits,
        Unary::Minus => 0u64.wrapping_sub(bits),
        Unary::Not => truth(bits == 0),
        Unary::Complement => !bits,
    }
}

// Whether its result is unsigned.
pub fn unary_unsigned(operator: Unary, unsigned: bool) -> bool
    ensures { result ≡ unary_unsigned operator unsigned }
{
    match operator {
        Unary::Not => false,
        Unary::Plus | Unary::Minus | Unary::Complement => unsigned,
    }
}

// Whether the number that bits stand for is less than another's.
fn is_less(unsigned: bool, left: u64, right: u64) -> bool
    ensures { result ≡ int_lt (number_of_bits unsigned left) (number_of_bits unsigned right) }
{
    if unsigned {
        left < right
    } else {
        left.cast_signed() < right.cast_signed()
    }
}

// None where the divisor is 0.
fn quotient(unsigned: bool, dividend: u64, divisor: u64) -> Option<u64>
    ensures { result ≡ where_divisible divisor (quotient unsigned dividend divisor) }
{
    if divisor == 0 {
        return None;
    }
    if unsigned {
        return Some(dividend / divisor);
    }
    Some(signed_quotient(dividend, divisor))
}

fn signed_quotient(dividend: u64, divisor: u64) -> u64
    requires { 0 < divisor }
    ensures { result ≡ quotient false dividend divisor }
{
    dividend
        .cast_signed()
        .wrapping_div(divisor.cast_signed())
        .cast_unsigned()
}

// None where the divisor is 0.
fn remainder(unsigned: bool, dividend: u64, divisor: u64) -> Option<u64>
    ensures { result ≡ where_divisible divisor (remainder unsigned dividend divisor) }
{
    if divisor == 0 {
        return None;
    }
    if unsigned {
        return Some(dividend % divisor);
    }
    Some(signed_remainder(dividend, divisor))
}

fn signed_remainder(dividend: u64, divisor: u64) -> u64
    requires { 0 < divisor }
    ensures { result ≡ remainder false dividend divisor }
{
    dividend
        .cast_signed()
        .wrapping_rem(divisor.cast_signed())
        .cast_unsigned()
}

// Bits shifted to the left by a count.
#[tactic(auto, unfolding(crate::specs::Arithmetic::shifted_left))]
fn shifted_left(bits: u64, count: u64) -> u64
    ensures { result ≡ shifted_left bits count }
{
    if count < 64 { bits << count } else { 0 }
}

// The bits of 0, or of -1.
fn sign_bits(negative: bool) -> u64
    ensures { result ≡ sign_bits negative }
{
    if negative { u64::MAX } else { 0 }
}

// Bits shifted to the right by a count; those of a negative number keep its sign.
#[tactic(auto, unfolding(crate::specs::Arithmetic::shifted_right))]
fn shifted_right(unsigned: bool, bits: u64, count: u64) -> u64
    ensures { result ≡ shifted_right unsigned bits count }
{
    if unsigned {
        return if count < 64 { bits >> count } else { 0 };
    }
    if count < 64 {
        return (bits.cast_signed() >> count).cast_unsigned();
    }
    sign_bits(bits.cast_signed() < 0)
}

// Bits shifted to the left by the number that a count's bits stand for, to the right where it is negative.
fn shift_left(unsigned: bool, bits: u64, count_unsigned: bool, count: u64) -> u64
    ensures { result ≡ left_by unsigned bits (number_of_bits count_unsigned count) }
{
    if count_unsigned {
        return shifted_left(bits, count);
    }
    if count.cast_signed() < 0 {
        return shifted_right(unsigned, bits, count.wrapping_neg());
    }
    shifted_left(bits, count)
}

// The same to the right.
fn shift_right(unsigned: bool, bits: u64, count_unsigned: bool, count: u64) -> u64
    ensures { result ≡ right_by unsigned bits (number_of_bits count_unsigned count) }
{
    if count_unsigned {
        return shifted_right(unsigned, bits, count);
    }
    if count.cast_signed() < 0 {
        return shifted_left(bits, count.wrapping_neg());
    }
    shifted_right(unsigned, bits, count)
}

// What an operator makes of the bits of two operands that are evaluated; None where it divides by 0.
#[tactic(auto, unfolding(crate::specs::Arithmetic::binary_bits))]
pub fn binary_bits(
    operator: Binary,
    left_unsigned: bool,
    right_unsigned: bool,
    left: u64,
    right: u64,
) -> Option<u64>
    ensures { result ≡ binary_bits operator left_unsigned right_unsigned left right }
{
    let unsigned = left_unsigned || right_unsigned;
    match operator {
        Binary::Multiply => Some(left.wrapping_mul(right)),
        Binary::Divide => quotient(unsigned, left, right),
        Binary::Remainder => remainder(unsigned, left, right),
        Binary::Add => Some(left.wrapping_add(right)),
        Binary::Subtract => Some(left.wrapping_sub(right)),
        Binary::ShiftLeft => Some(shift_left(left_unsigned, left, right_unsigned, right)),
        Binary::ShiftRight => Some(shift_right(left_unsigned, left, right_unsigned, right)),
        Binary::Less => Some(truth(is_less(unsigned, left, right))),
        Binary::Greater => Some(truth(is_less(unsigned, right, left))),
        Binary::LessOrEqual => Some(truth(!is_less(unsigned, right, left))),
        Binary::GreaterOrEqual => Some(truth(!is_less(unsigned, left, right))),
        Binary::Equal => Some(truth(left == right)),
        Binary::NotEqual => Some(truth(left != right)),
        Binary::BitAnd => Some(left & right),
        Binary::BitXor => Some(left ^ right),
        Binary::BitOr => Some(left | right),
        Binary::LogicalAnd => Some(truth(!(left == 0 || right == 0))),
        Binary::LogicalOr => Some(truth(left != 0 || right != 0)),
    }
}

// Whether its result is unsigned.
pub fn binary_unsigned(operator: Binary, left_unsigned: bool, right_unsigned: bool) -> bool
    ensures { result ≡ binary_unsigned operator left_unsigned right_unsigned }
{
    match operator {
        Binary::Multiply
        | Binary::Divide
        | Binary::Remainder
        | Binary::Add
        | Binary::Subtract
        | Binary::BitAnd
        | Binary::BitXor
        | Binary::BitOr => left_unsigned || right_unsigned,
        Binary::ShiftLeft | Binary::ShiftRight => left_unsigned,
        _ => false,
    }
}
