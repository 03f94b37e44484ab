// Expressions, one on a line.
ghost use Rattle.std.specs.Prelude.{◌≤◌, length};

use base_types::limits::BODY_LIMIT;
use case_texts::{Lines, Wrong, is_heading};
use cond_eval::{CondError, Num, value};
use pp_tokens::{Token, lex};
use std::alloc::{AllocError, Global};

/// Lines of which each is an expression, unless it is empty or a heading.
#[derive(Drop)]
pub struct Expressions;

impl Lines for Expressions {
    fn take(&mut self, alloc: Global, out: &mut String, line: &str) -> Result<(), Wrong> {
        if is_heading(line) {
            return Ok(writeln!(out, "{line}")?);
        }
        let result = result_of(alloc, line.as_bytes())?;
        Ok(writeln!(out, "{line} => {result}")?)
    }
}

// What is printed of an expression.
fn result_of(alloc: Global, line: &[u8]) -> Result<String, Wrong> {
    if line.len() > BODY_LIMIT {
        return Err(Wrong::Form("a text of more than 16 MiB"));
    }
    let tokens = tokens_of(alloc, line)?;
    Ok(shown(alloc, value(alloc, &tokens))?)
}

fn tokens_of(alloc: Global, line: &[u8]) -> Result<Vec<Token>, AllocError>
    requires { length line.now ≤ 16777216 }
{
    let lexed = lex(alloc, line, false)?;
    let mut tokens = Vec::new(alloc);
    for token in lexed.tokens(0, lexed.token_count(0)) {
        tokens.push(token.to_token(alloc)?)?;
    }
    Ok(tokens)
}

fn shown(alloc: Global, value: Result<Num, CondError>) -> Result<String, AllocError> {
    match value {
        Ok(number) if number.unsigned => format!(in alloc; "{}u", number.bits),
        Ok(number) => format!(in alloc; "{}", number.bits.cast_signed()),
        Err(CondError::Memory) => Err(AllocError),
        Err(error) => format!(in alloc; "!{error}"),
    }
}
