// What stands open around a place in an expression.
use crate::operator::{Binary, Unary};

/// A `(`, or an operator behind its first operands, whose last operand isn't ended.
#[derive(Clone, Copy, Debug)]
pub enum Pending<A> {
    InParentheses,
    BehindPrefix(Unary),
    BehindOperator(Binary, A),
    BehindQuestion(A),
    BehindColon(A, A),
}
