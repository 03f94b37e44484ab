// A function-like macro's replacement list without `#` and `##`: each token is a part of its own (ISO C 6.10.3.1).
ghost use Rattle.std.specs.Prelude.{◌≡◌, ◌<◌, ◌++◌, [], ℕ, true, false, None, map, length, get_or, IfOk, OnOk};
ghost use Rattle.pp_tokens.specs.Tokens.{token_seen};
ghost use Rattle.macro_defs.specs.MacroDefinition.{without_line, has_operators};
ghost use Rattle.macro_defs.specs.declared.definition.Shape.TheVariants.{Object};
ghost use Rattle.macro_defs.specs.Arguments.{parameters_in};
ghost use Rattle.macro_expand.specs.Replacement.{body_parts, stands_alone};
ghost use Rattle.macro_expand.specs.parts.Parts.{operand_part, token_parts, MarksNamed};
ghost use Rattle.macro_expand.specs.parts.Pieces.{arguments_seen, tokens_of_part, tokens_of_parts};
ghost use Rattle.macro_expand.specs.parts.Stamps.{AllAlike, EachAlike};
ghost use Rattle.macro_expand.specs.declared.marked.Marked.{Marked as Kept};
ghost use Rattle.macro_expand.specs.Seen.{marked_of};

use crate::marked::Marked;
use crate::pieces::{Arguments, argument_at, lent_plain, put_copies, put_marked};
use macro_defs::{Definition, Run};
use pp_tokens::TokenRef;
use std::alloc::{AllocError, Global};

// The tokens of such a list, and the definition, which tells the parameter that each names.
#[derive(Clone, Copy, Drop)]
pub(crate) struct TokenParts<'d> {
    definition: &'d Definition,
    tokens: Run<'d>,
}

impl<'d> TokenParts<'d> {
    pub(crate) fn of(d: &'d Definition) -> TokenParts<'d>
        requires function { d.now.shape ≡ Object → ⊥ }
        requires plain { has_operators d.now.shape d.now.body ≡ false }
        ensures { token_parts result ≡ body_parts (parameters_in d.now.shape) d.now.body }
    {
        TokenParts {
            definition: d,
            tokens: d.body(),
        }
    }

    // Whether the list is empty.
    pub(crate) fn are_none(&self) -> bool
        ensures { result ≡ true → token_parts self.now ≡ [] }
    {
        self.tokens.len() == 0
    }

    // For each argument, whether a token names its parameter, so that it is expanded by itself.
    pub(crate) fn standing_alone(
        &self,
        alloc: Global,
        count: usize,
    ) -> Result<Vec<bool>, AllocError>
        ensures length { IfOk result (λ alone. length alone.items ≡ count) }
        ensures each { IfOk result (λ alone. (i : ℕ) → i < count → get_or alone.items i false ≡ stands_alone i None (token_parts self.now)) }
    {
        let mut alone = vec![in alloc; false; count]?;
        for place in 0..self.tokens.len() {
            mark_named(&mut alone, self.definition.parameter_at(place));
        }
        Ok(alone)
    }

    // The tokens that the list gives with a call's arguments put in.
    pub(crate) fn made(
        &self,
        alloc: Global,
        arguments: &Arguments<'_, 'd>,
    ) -> Result<Vec<Marked<'d>>, AllocError>
        ensures tokens { IfOk result (λ out. map marked_of out.items ≡ tokens_of_parts (arguments_seen arguments.now) (token_parts self.now)) }
        ensures alike { (t : Kept) → EachAlike t arguments.now.expanded.now → IfOk result (λ out. AllAlike t out.items) }
    {
        // Mostly each argument is put in once.
        let room = self
            .tokens
            .len()
            .saturating_add(token_count(arguments.expanded));
        let mut out = Vec::with_capacity(alloc, room)?;
        let mut tokens = self.tokens;
        let mut place = 0usize;
        while let Some(t) = tokens.next() {
            put_token(&mut out, arguments, t, self.definition.parameter_at(place))?;
            place += 1;
        }
        Ok(out)
    }
}

// Marks the argument of a parameter.
#[inline(always)]
fn mark_named(alone: &mut Vec<bool>, parameter: Option<usize>)
    ensures { MarksNamed alone.old.items alone.new.items parameter }
{
    if let Some(i) = parameter
        && i < alone.len()
    {
        alone[i] = true;
    }
}

// Puts in a token of the list, or the argument of the parameter that it names.
fn put_token<'t>(
    out: &mut Vec<Marked<'t>>,
    arguments: &Arguments<'_, 't>,
    t: TokenRef<'t>,
    parameter: Option<usize>,
) -> Result<(), AllocError>
    ensures put { OnOk result (map marked_of out.new.items
        ≡ map marked_of out.old.items ++ tokens_of_part (arguments_seen arguments.now) (operand_part None (without_line (token_seen t.entry)) parameter)) }
    ensures alike { (t : Kept) → AllAlike t out.old.items → EachAlike t arguments.now.expanded.now → OnOk result (AllAlike t out.new.items) }
{
    match parameter {
        Some(i) => put_copies(out, t.space, argument_at(arguments.expanded, i)),
        None => put_marked(out, lent_plain(t)),
    }
}

// How many tokens stand in some lists.
fn token_count(lists: &[Vec<Marked>]) -> usize {
    let mut count: usize = 0;
    for list in lists {
        count = count.saturating_add(list.len());
    }
    count
}
