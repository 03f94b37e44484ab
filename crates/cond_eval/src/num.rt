// Values, and why tokens have none.
use thiserror::Error;

/// A value of 64 bits: without a sign where it is `unsigned`, of `uintmax_t`, and else in two's complement, of `intmax_t` (ISO C
/// 6.10.1 paragraph 4).
#[derive(Clone, Copy, Debug, PartialEq, Eq)]
pub struct Num {
    pub bits: u64,
    pub unsigned: bool,
}

/// Why tokens have no value. First, from left to right, come constants: a number or a literal that is no integer constant
/// (`NotInteger`), or one above 2^64 - 1 (`TooWide`). Then `Syntax`: the tokens are no conditional expression (ISO C 6.5.15,
/// 6.6). Then `TooDeep`: some token lies inside more than 200 expressions in parentheses, unary and conditional ones. Then
/// `ZeroDivisor`: an operand that is evaluated divides by 0. `Memory`: no memory was found.
#[derive(Clone, Copy, Debug, PartialEq, Eq, Drop, Error)]
pub enum CondError {
    #[error("Syntax")]
    Syntax,
    #[error("ZeroDivisor")]
    ZeroDivisor,
    #[error("NotInteger")]
    NotInteger,
    #[error("TooWide")]
    TooWide,
    #[error("TooDeep")]
    TooDeep,
    #[error("Memory")]
    Memory,
}
