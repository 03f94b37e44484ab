// The value of a controlling expression.
ghost use Rattle.std.specs.Prelude.{◌≡◌, ◌++◌, ◌∷◌, [], Ok, IfOk, IfErr, OnOk};
ghost use Rattle.cond_eval.specs.Value as spec;
ghost use Rattle.cond_eval.specs.Value.{expression_value, value_in, RefusesCondition};
ghost use Rattle.cond_eval.specs.Reading.{spelled_expression};

use crate::lexeme::{Lexeme, lexeme_of};
use crate::reading::seen_of;
use crate::seen::judged;
use crate::{CondError, Num};
use pp_tokens::Token;
use std::alloc::Global;

/// The value of the controlling expression of an `#if` or `#elif` (ISO C 6.10.1, 6.6), of its tokens after each `defined` was
/// answered and identifiers were made 0; an identifier that is left is `Syntax`. Integer constants are decimal, octal,
/// hexadecimal or, behind `0b`, binary, with a suffix or none (6.4.4.1); a character constant has one character or escape, of a
/// value of at most 127 (6.4.4.4). The operators are those of 6.5.3.3 and 6.5.5 to 6.5.15. Values have 64 bits and wrap: the
/// smallest number divided by -1 is itself, a shift by 64 or more leaves nothing but the sign of a negative number, and a
/// negative count shifts the other way. Operands that `&&`, `||` and `?:` don't evaluate divide by nothing. Time is linear in
/// the tokens and their spellings, and however deep the expression nests, it takes no more of the program's stack.
#[tactic(auto, unfolding(crate::specs::Value::expression_value))]
pub fn value(alloc: Global, tokens: &[Token]) -> Result<Num, CondError>
    ensures ok { IfOk result (λ n. expression_value tokens.now ≡ Ok n) }
    ensures err { IfErr result (λ e. RefusesCondition e (expression_value tokens.now)) }
{
    match lexemes_of(alloc, tokens) {
        Ok(lexemes) => value_of_lexemes(alloc, &lexemes),
        Err(error) => Err(error),
    }
}

// What each token is.
fn lexemes_of(alloc: Global, tokens: &[Token]) -> Result<Vec<Lexeme>, CondError>
    ensures ok { IfOk result (λ lexemes. spec.lexemes_of tokens.now ≡ Ok lexemes.items) }
    ensures err { IfErr result (λ e. RefusesCondition e (spec.lexemes_of tokens.now)) }
{
    let mut lexemes = Vec::new(alloc);
    for token in tokens {
        match lexeme_of(&token.as_ref()) {
            Ok(lexeme) => put(&mut lexemes, lexeme)?,
            Err(error) => return Err(error),
        }
    }
    Ok(lexemes)
}

fn put(lexemes: &mut Vec<Lexeme>, lexeme: Lexeme) -> Result<(), CondError>
    ensures ok { OnOk result (lexemes.new.items ≡ lexemes.old.items ++ lexeme ∷ []) }
    ensures err { IfErr result (λ e. e ≡ CondError.Memory) }
{
    match lexemes.push(lexeme) {
        Ok(()) => Ok(()),
        Err(_) => Err(CondError::Memory),
    }
}

/// The value of the expression that lexemes spell, those of its tokens by [`lexeme_of`](crate::lexeme_of), or why it has none, as for
/// [`value`](crate::value). Time is linear in them.
pub fn value_of_lexemes(alloc: Global, lexemes: &[Lexeme]) -> Result<Num, CondError>
    ensures ok { IfOk result (λ n. value_in (spelled_expression lexemes.now) ≡ Ok n) }
    ensures err { IfErr result (λ e. RefusesCondition e (value_in (spelled_expression lexemes.now))) }
{
    match seen_of(alloc, lexemes) {
        Ok(seen) => judged(seen),
        Err(error) => Err(error),
    }
}
