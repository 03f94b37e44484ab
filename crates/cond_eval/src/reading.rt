// Reading an expression: one pass over its lexemes, with what stands open on a stack of its own.
ghost use Rattle.std.specs.Prelude.{◌≡◌, ◌≤◌, ◌<◌, ◌⊎◌, ◌∷◌, [], ℕ, None, Some, MatchOption, IfOk, IfErr};
ghost use Rattle.std.specs.VecDeque.{deque_len};
ghost use Rattle.cond_eval.specs.Reading.{binding, binding_of_open, completed, ended, prefix_of, at_colon, at_closing, at_prefix, at_due, at_read, next_lexeme, read_on, whole_of, alone, made_of, due, read, wrong};
ghost use Rattle.cond_eval.specs.parts.Seen.{values, progress_of, ends_first, IsWrong, IsNone};

use crate::CondError;
use crate::lexeme::Lexeme;
use crate::operator::{Binary, Unary};
use crate::pending::Pending;
use crate::seen::{Seen, seen_binary, seen_conditional, seen_constant, seen_enclosed, seen_unary};
use std::alloc::Global;
use std::collections::VecDeque;

// How tightly an operator binds: 2 for `||`, and up to 11 for `*`, `/` and `%`.
fn binding(operator: Binary) -> u8
    ensures { result ≡ binding operator }
{
    match operator {
        Binary::LogicalOr => 2,
        Binary::LogicalAnd => 3,
        Binary::BitOr => 4,
        Binary::BitXor => 5,
        Binary::BitAnd => 6,
        Binary::Equal | Binary::NotEqual => 7,
        Binary::Less | Binary::Greater | Binary::LessOrEqual | Binary::GreaterOrEqual => 8,
        Binary::ShiftLeft | Binary::ShiftRight => 9,
        Binary::Add | Binary::Subtract => 10,
        Binary::Multiply | Binary::Divide | Binary::Remainder => 11,
    }
}

// How tightly what stands open binds its last operand.
fn binding_of_open(pending: &Pending<Seen>) -> u8
    ensures { result ≡ binding_of_open pending.now }
{
    match pending {
        Pending::InParentheses | Pending::BehindQuestion(_) => 0,
        Pending::BehindColon(_, _) => 1,
        Pending::BehindOperator(operator, _) => binding(*operator),
        Pending::BehindPrefix(_) => 12,
    }
}

// What stands open, with its last operand.
fn completed(pending: Pending<Seen>, last: Seen) -> Seen
    ensures { result ≡ completed values pending last }
{
    match pending {
        Pending::InParentheses => seen_enclosed(last),
        Pending::BehindQuestion(_) => last,
        Pending::BehindColon(condition, then) => seen_conditional(condition, then, last),
        Pending::BehindOperator(operator, left) => seen_binary(operator, left, last),
        Pending::BehindPrefix(operator) => seen_unary(operator, last),
    }
}

// Whether something that binds so tightly ends the operand of what stands open last.
fn ends_last(stack: &VecDeque<Pending<Seen>>, tight: u8) -> bool
    ensures { result ≡ ends_first tight stack.now.items }
{
    match stack.front() {
        Some(pending) => tight <= binding_of_open(pending),
        None => false,
    }
}

// What stands open last, taken off the stack.
fn take_last(stack: &mut VecDeque<Pending<Seen>>) -> Option<Pending<Seen>>
    ensures last { MatchOption result (stack.new.items ≡ stack.old.items) (λ p. stack.old.items ≡ p ∷ stack.new.items) }
    ensures none { MatchOption result (stack.old.items ≡ []) (λ p. deque_len stack.new < deque_len stack.old) }
{
    stack.pop_front()
}

// What an operand belongs to that is ended by something that binds so tightly.
#[inline(always)]
fn end(stack: &mut VecDeque<Pending<Seen>>, tight: u8, operand: Seen) -> Seen
    ensures { record { around = stack.new.items; value = result } ≡ ended values tight stack.old.items operand }
{
    let mut value = operand;
    while ends_last(stack, tight) {
        match take_last(stack) {
            Some(pending) => value = completed(pending, value),
            None => return value,
        }
    }
    value
}

// The operator that a lexeme is where an operand is due.
fn prefix_of(lexeme: Lexeme) -> Option<Unary>
    ensures { result ≡ prefix_of lexeme }
{
    match lexeme {
        Lexeme::Bang => Some(Unary::Not),
        Lexeme::Tilde => Some(Unary::Complement),
        Lexeme::Infix(Binary::Add) => Some(Unary::Plus),
        Lexeme::Infix(Binary::Subtract) => Some(Unary::Minus),
        _ => None,
    }
}

// The next lexeme, where an operand is due.
fn at_due(stack: &mut VecDeque<Pending<Seen>>, lexeme: Lexeme) -> Result<Option<Seen>, CondError>
    ensures ok { IfOk result (λ operand. at_due values stack.old.items lexeme ≡ progress_of stack.new.items operand) }
    ensures err { IfErr result (λ e. IsWrong e (at_due values stack.old.items lexeme)) }
{
    match lexeme {
        Lexeme::Constant(number) => Ok(Some(seen_constant(number))),
        Lexeme::Opening => open(stack, Pending::InParentheses),
        _ => at_prefix(stack, prefix_of(lexeme)),
    }
}

// An operator where an operand is due, or none.
fn at_prefix(
    stack: &mut VecDeque<Pending<Seen>>,
    prefix: Option<Unary>,
) -> Result<Option<Seen>, CondError>
    ensures ok { IfOk result (λ operand. at_prefix values stack.old.items prefix ≡ progress_of stack.new.items operand) }
    ensures err { IfErr result (λ e. IsWrong e (at_prefix values stack.old.items prefix)) }
{
    match prefix {
        Some(operator) => open(stack, Pending::BehindPrefix(operator)),
        None => Err(CondError::Syntax),
    }
}

// Something more stands open, whose operand is due.
fn open(
    stack: &mut VecDeque<Pending<Seen>>,
    pending: Pending<Seen>,
) -> Result<Option<Seen>, CondError>
    ensures ok { IfOk result (λ operand. due (pending ∷ stack.old.items) ≡ progress_of stack.new.items operand) }
    ensures err { IfErr result (λ e. IsWrong e (due (pending ∷ stack.old.items))) }
{
    match stack.push_front(pending) {
        Ok(()) => Ok(None),
        Err(_) => Err(CondError::Memory),
    }
}

// The next lexeme, behind an operand.
fn at_read(
    stack: &mut VecDeque<Pending<Seen>>,
    operand: Seen,
    lexeme: Lexeme,
) -> Result<Option<Seen>, CondError>
    ensures ok { IfOk result (λ next. at_read values (record { around = stack.old.items; value = operand }) lexeme ≡ progress_of stack.new.items next) }
    ensures err { IfErr result (λ e. IsWrong e (at_read values (record { around = stack.old.items; value = operand }) lexeme)) }
{
    match lexeme {
        Lexeme::Infix(operator) => {
            let left = end(stack, binding(operator), operand);
            open(stack, Pending::BehindOperator(operator, left))
        }
        Lexeme::Question => {
            let condition = end(stack, 2, operand);
            open(stack, Pending::BehindQuestion(condition))
        }
        Lexeme::Colon => {
            let then = end(stack, 1, operand);
            at_colon(stack, then)
        }
        Lexeme::Closing => {
            let inside = end(stack, 1, operand);
            at_closing(stack, inside)
        }
        _ => Err(CondError::Syntax),
    }
}

// A `:` behind an operand, which ends that of a `?`.
fn at_colon(stack: &mut VecDeque<Pending<Seen>>, then: Seen) -> Result<Option<Seen>, CondError>
    ensures ok { IfOk result (λ next. at_colon (record { around = stack.old.items; value = then }) ≡ progress_of stack.new.items next) }
    ensures err { IfErr result (λ e. IsWrong e (at_colon (record { around = stack.old.items; value = then }))) }
{
    match stack.pop_front() {
        Some(Pending::BehindQuestion(condition)) => {
            open(stack, Pending::BehindColon(condition, then))
        }
        _ => Err(CondError::Syntax),
    }
}

// A `)` behind an operand.
fn at_closing(stack: &mut VecDeque<Pending<Seen>>, inside: Seen) -> Result<Option<Seen>, CondError>
    ensures ok { IfOk result (λ next. at_closing values (record { around = stack.old.items; value = inside }) ≡ progress_of stack.new.items next) }
    ensures err { IfErr result (λ e. IsWrong e (at_closing values (record { around = stack.old.items; value = inside }))) }
{
    match stack.pop_front() {
        Some(Pending::InParentheses) => Ok(Some(seen_enclosed(inside))),
        _ => Err(CondError::Syntax),
    }
}

// The next lexeme, wherever it stands.
fn next_lexeme(
    stack: &mut VecDeque<Pending<Seen>>,
    operand: Option<Seen>,
    lexeme: Lexeme,
) -> Result<Option<Seen>, CondError>
    ensures ok { IfOk result (λ next. next_lexeme values (progress_of stack.old.items operand) lexeme ≡ progress_of stack.new.items next) }
    ensures err { IfErr result (λ e. IsWrong e (next_lexeme values (progress_of stack.old.items operand) lexeme)) }
{
    match operand {
        None => at_due(stack, lexeme),
        Some(value) => at_read(stack, value, lexeme),
    }
}

// An expression to its end.
fn whole_of(stack: &mut VecDeque<Pending<Seen>>, operand: Option<Seen>) -> Result<Seen, CondError>
    ensures ok { IfOk result (λ s. whole_of values (progress_of stack.old.items operand) ≡ Some s) }
    ensures err { IfErr result (λ e. IsNone e (whole_of values (progress_of stack.old.items operand))) }
{
    let Some(last) = operand else {
        return Err(CondError::Syntax);
    };
    let whole = end(stack, 1, last);
    if stack.is_empty() {
        Ok(whole)
    } else {
        Err(CondError::Syntax)
    }
}

/// What is known of the expression that lexemes spell. `Syntax` where they spell none.
#[tactic(auto, unfolding(crate::specs::Reading::made_of))]
pub fn seen_of(alloc: Global, lexemes: &[Lexeme]) -> Result<Seen, CondError>
    ensures ok { IfOk result (λ s. made_of values lexemes.now ≡ Some s) }
    ensures err { IfErr result (λ e. IsNone e (made_of values lexemes.now)) }
{
    let mut stack = VecDeque::new(alloc);
    let mut operand = None;
    for lexeme in lexemes {
        match next_lexeme(&mut stack, operand, *lexeme) {
            Ok(next) => operand = next,
            Err(error) => return Err(error),
        }
    }
    whole_of(&mut stack, operand)
}
