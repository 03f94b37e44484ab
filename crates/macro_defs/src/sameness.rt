// When two definitions are the same (ISO C 6.10.3 paragraphs 1 and 2).
ghost use Rattle.std.specs.Prelude.{◌≡◌, bytes_eq};
ghost use Rattle.std.specs.Cmp.Lexicographic.{pointwise};
ghost use Rattle.pp_tokens.specs.Tokens.{token_seen};
ghost use Rattle.macro_defs.specs.MacroDefinition.{without_line, shape_lent};
ghost use Rattle.macro_defs.specs.Runs.{run_tokens};
ghost use Rattle.macro_defs.specs.Sameness.{is_same_kind, is_same_token, is_same_shape};

use crate::run::Run;
use base_types::Bytes;
use pp_tokens::{Kind, TokenRef};

// Whether two forms are the same.
pub(crate) fn same_params(one: Option<(&[Bytes], bool)>, other: Option<(&[Bytes], bool)>) -> bool
    ensures { result ≡ is_same_shape (shape_lent one.entry) (shape_lent other.entry) }
{
    match (one, other) {
        (None, None) => true,
        (Some((names, variadic)), Some((others, last))) => {
            same_names(names, others) && variadic == last
        }
        _ => false,
    }
}

fn same_names(one: &[Bytes], other: &[Bytes]) -> bool
    ensures { result ≡ pointwise bytes_eq one.now other.now }
{
    if one.len() != other.len() {
        return false;
    }
    for (i, name) in one.iter().enumerate() {
        if name.as_slice() != other[i].as_slice() {
            return false;
        }
    }
    true
}

// Whether two replacement lists are the same, whatever the lines.
pub(crate) fn same_tokens(mut one: Run<'_>, mut other: Run<'_>) -> bool
    ensures { result ≡ pointwise (λ a b. is_same_token (without_line a) (without_line b)) (run_tokens one.entry) (run_tokens other.entry) }
{
    while let Some(token) = one.next() {
        let Some(beside) = other.next() else {
            return false;
        };
        if !same_token(&token, &beside) {
            return false;
        }
    }
    other.next().is_none()
}

fn same_token(one: &TokenRef<'_>, other: &TokenRef<'_>) -> bool
    ensures { result ≡ is_same_token (without_line (token_seen one.now)) (without_line (token_seen other.now)) }
{
    same_kind(one.kind, other.kind) && one.text == other.text && one.space == other.space
}

fn same_kind(one: Kind, other: Kind) -> bool
    ensures { result ≡ is_same_kind one other }
{
    one == other
}
