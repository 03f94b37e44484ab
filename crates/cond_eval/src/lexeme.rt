// What a token is in an expression.
ghost use Rattle.std.specs.Prelude.{◌≡◌};
ghost use Rattle.pp_tokens.specs.Tokens.{token_seen};
ghost use Rattle.cond_eval.specs.Lexemes.{lexeme_of, punctuator_of, constant_read};

use crate::character::character_value;
use crate::number::number_value;
use crate::operator::Binary;
use crate::{CondError, Num};
use pp_tokens::{Kind, TokenRef};

/// A constant; an operator between two operands, where `+` and `-` are unary too; a `!`, `~`, `?`, `:`, `(` or `)`; or a token
/// that no expression has.
#[derive(Clone, Copy, Debug, PartialEq, Eq)]
pub enum Lexeme {
    Constant(Num),
    Infix(Binary),
    Bang,
    Tilde,
    Question,
    Colon,
    Opening,
    Closing,
    Foreign,
}

// A punctuator, by its spelling.
#[tactic(auto, unfolding(crate::specs::Lexemes::punctuator_of))]
fn punctuator_of(text: &[u8]) -> Lexeme
    ensures { result ≡ punctuator_of text.now }
{
    match text {
        b"(" => Lexeme::Opening,
        b")" => Lexeme::Closing,
        b"&&" => Lexeme::Infix(Binary::LogicalAnd),
        b"||" => Lexeme::Infix(Binary::LogicalOr),
        b"!" => Lexeme::Bang,
        b"==" => Lexeme::Infix(Binary::Equal),
        b"!=" => Lexeme::Infix(Binary::NotEqual),
        b"<" => Lexeme::Infix(Binary::Less),
        b">" => Lexeme::Infix(Binary::Greater),
        b"<=" => Lexeme::Infix(Binary::LessOrEqual),
        b">=" => Lexeme::Infix(Binary::GreaterOrEqual),
        b"?" => Lexeme::Question,
        b":" => Lexeme::Colon,
        b"+" => Lexeme::Infix(Binary::Add),
        b"-" => Lexeme::Infix(Binary::Subtract),
        b"*" => Lexeme::Infix(Binary::Multiply),
        b"/" => Lexeme::Infix(Binary::Divide),
        b"%" => Lexeme::Infix(Binary::Remainder),
        b"&" => Lexeme::Infix(Binary::BitAnd),
        b"|" => Lexeme::Infix(Binary::BitOr),
        b"^" => Lexeme::Infix(Binary::BitXor),
        b"~" => Lexeme::Tilde,
        b"<<" => Lexeme::Infix(Binary::ShiftLeft),
        b">>" => Lexeme::Infix(Binary::ShiftRight),
        _ => Lexeme::Foreign,
    }
}

// The lexeme of a constant that was read.
fn constant(read: Result<Num, CondError>) -> Result<Lexeme, CondError>
    ensures { result ≡ constant_read read }
{
    match read {
        Ok(number) => Ok(Lexeme::Constant(number)),
        Err(error) => Err(error),
    }
}

/// What a token is in an expression, or what is wrong with a constant.
#[tactic(auto, unfolding(crate::specs::Lexemes::lexeme_of))]
pub fn lexeme_of(token: &TokenRef<'_>) -> Result<Lexeme, CondError>
    ensures { result ≡ lexeme_of (token_seen token.now) }
{
    let text = token.text;
    match token.kind {
        Kind::Number => constant(number_value(text)),
        Kind::Char => constant(character_value(text)),
        Kind::Str => Err(CondError::NotInteger),
        Kind::Punct => Ok(punctuator_of(text)),
        Kind::Ident | Kind::Header | Kind::Other => Ok(Lexeme::Foreign),
    }
}
