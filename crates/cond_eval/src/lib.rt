//! The value of a controlling expression (ISO C 6.6, 6.10.1).
#![tactic(auto)]

mod arithmetic;
mod character;
mod evaluate;
mod law;
mod lexeme;
mod num;
mod number;
mod operator;
mod pending;
mod reading;
mod seen;

pub use evaluate::{value, value_of_lexemes};
pub use law::one_reading;
pub use lexeme::{Lexeme, lexeme_of};
pub use num::{CondError, Num};
pub use operator::Binary;
