// Runs of text, and the lines of directives that are expanded (ISO C 6.10.3).
ghost use Rattle.std.specs.Prelude.{◌≡◌, ◌≤◌, ◌<◌, ◌+◌, Result, Ok, length, map, IfOk, IfErr, OnOk, IsErrOf, IsTrue};
ghost use Rattle.pp_tokens.specs.Tokens.{rest_of};
ghost use Rattle.macro_defs.specs.Table.{lookup};
ghost use Rattle.macro_expand.specs.declared.outcome.Mode.TheVariants as mode;
ghost use Rattle.macro_expand.specs.declared.stream.Standing.TheVariants.{Going};
ghost use Rattle.macro_expand.specs.Replacement.{unmarked};
ghost use Rattle.macro_expand.specs.Expansion.{expanded_by};
ghost use Rattle.macro_expand.specs.Seen.{ReportsResult, place_of};
ghost use Rattle.macro_expand.specs.Asking.{Failure};
ghost use Rattle.macro_expand.specs.Stream.{Given, given, to_come, at_hand, lent_tokens};
ghost use Rattle.base_types.specs.Limits.{text_limit};
ghost use Rattle.cpp_output.specs.Layout.{put};
ghost use Rattle.cpp_output.specs.Laid.{Laid, after_events};
ghost use Rattle.daemon_cpp.specs.Prep.{text_step, expand_line};
ghost use Rattle.daemon_cpp.specs.parts.Showing.{Goes, Leads, here_seen, TellsError, TellsText, ReportsText, LaysNext, IsOkay, error_line, laid_from};

use crate::diagnostic::Problem;
use crate::kept::{Kept, Places};
use crate::stop::{Stop, refused};
use base_types::List;
use cpp_output::{LayError, Layout};
use macro_defs::{MacroTable, Run};
use macro_expand::{ExpandError, Expander, Lent, Mode, Presumed, Work, expand};
use pp_tokens::{Token, Tokens};
use std::alloc::Global;

/// Reads a run of text: it is expanded, and laid out as it is. An error of the expansion comes before the limit of the text.
pub fn run_text(
    alloc: Global,
    kept: &mut Kept,
    places: Places<'_>,
    tokens: Tokens<'_>,
) -> Result<(), Stop>
    ensures goes { Goes kept.old kept.new places.entry.source.now (here_seen places.entry) (λ state. text_step (rest_of tokens.entry) state) result }
    ensures spends { kept.new.work.left ≤ kept.old.work.left }
    ensures no_fault { IsErrOf result Stop.Fault → ⊥ }
{
    match lay_out(
        alloc,
        &mut kept.layout,
        &kept.macros,
        &mut kept.work,
        places.presumed,
        tokens,
    ) {
        Ok(()) => Ok(()),
        Err(error) => Err(text_stop(alloc, places, &error)),
    }
}

/// The tokens of a directive's line, expanded; what fails is told at that line.
pub fn expand_line(
    alloc: Global,
    kept: &mut Kept,
    places: Places<'_>,
    at: u32,
    mode: Mode,
    tokens: &[Token],
) -> Result<List<Token>, Stop>
    ensures leads { Leads kept.old kept.new places.entry.source.now (here_seen places.entry) (λ state. expand_line at mode tokens.now state) result }
    ensures spends { kept.new.work.left ≤ kept.old.work.left }
    ensures no_fault { IsErrOf result Stop.Fault → ⊥ }
{
    match expand(
        alloc,
        &kept.macros,
        tokens,
        places.presumed,
        mode,
        &mut kept.work,
    ) {
        Ok(expanded) => Ok(expanded),
        Err(error) => Err(expansion_stop(alloc, places, at, &error)),
    }
}

/// Why preprocessing ends where an expansion has an error, told at a line.
pub fn expansion_stop(alloc: Global, places: Places<'_>, at: u32, error: &ExpandError) -> Stop
    ensures { TellsError places.entry.visit.now.place places.entry.source.now at error.now result }
{
    let place = &places.visit.place;
    match error {
        ExpandError::Count { name, line: _ } => {
            refused(alloc, place, at, Problem::WrongCount(name.as_slice()))
        }
        ExpandError::Unclosed { name, line: _ } => {
            refused(alloc, place, at, Problem::UnendedCall(name.as_slice()))
        }
        ExpandError::Paste {
            left,
            right,
            line: _,
        } => {
            let problem = Problem::BadPaste(left.as_slice(), right.as_slice());
            refused(alloc, place, at, problem)
        }
        ExpandError::Deep { line: _ } => refused(alloc, place, at, Problem::DeepArguments),
        ExpandError::Work => refused(alloc, places.source, 0, Problem::WorkLimit),
        ExpandError::Memory => Stop::Memory,
    }
}

// The line of the name whose expansion failed.
fn error_line(error: &ExpandError) -> u32
    ensures { result ≡ error_line error.now }
{
    match error {
        ExpandError::Count { name: _, line } => *line,
        ExpandError::Unclosed { name: _, line } => *line,
        ExpandError::Paste {
            left: _,
            right: _,
            line,
        } => *line,
        ExpandError::Deep { line } => *line,
        ExpandError::Work => 0,
        ExpandError::Memory => 0,
    }
}

// Why a run of text isn't laid out: its expansion has an error, or else its text passes the limit; or no memory was found. An error of
// expansion is in memory of its own, since it is large, and what may be one is moved about for each token.
#[derive(Drop)]
pub enum TextError {
    Expand(Box<ExpandError>),
    Full,
    Memory,
}

// An error of an expansion.
#[cold]
#[tactic(auto, using(crate::proofs::Texts::reports_laid))]
fn in_expansion(alloc: Global, error: ExpandError) -> TextError
    ensures { (output : Laid) (r : Result Given Failure) → ReportsResult error r → ReportsText result (laid_from output r) }
{
    match Box::new(alloc, error) {
        Ok(error) => TextError::Expand(error),
        Err(_) => TextError::Memory,
    }
}

fn text_stop(alloc: Global, places: Places<'_>, error: &TextError) -> Stop
    ensures { TellsText places.entry.visit.now.place places.entry.source.now error.now result }
{
    match error {
        TextError::Expand(error) => expansion_stop(alloc, places, error_line(error), error),
        TextError::Full => refused(alloc, places.source, 0, Problem::TextLimit),
        TextError::Memory => Stop::Memory,
    }
}

// Lays out what a run becomes, part by part: a token, or a stretch of the file that no macro touches.
fn lay_out(
    alloc: Global,
    layout: &mut Layout,
    macros: &MacroTable,
    work: &mut Work,
    here: &Presumed,
    run: Tokens<'_>,
) -> Result<(), TextError>
    ensures ok { OnOk result (laid_from layout.old (given (expanded_by (lookup macros.now) (place_of here.now) mode.Text 0 work.old.left (map unmarked (rest_of run.entry))))
        ≡ Ok (layout.new, work.new.left)) }
    ensures within { OnOk result (length layout.old.text ≤ text_limit → length layout.new.text ≤ text_limit) }
    ensures err { IfErr result (λ e. ReportsText e
        (laid_from layout.old (given (expanded_by (lookup macros.now) (place_of here.now) mode.Text 0 work.old.left (map unmarked (rest_of run.entry)))))) }
    ensures spends { work.new.left ≤ work.old.left }
{
    let mut stream = Expander::over(alloc, macros, Run::Lexed(run), here, Mode::Text);
    while lay_next(alloc, &mut stream, layout, work)? {}
    Ok(())
}

// Lays out what comes next; whether anything did. Most tokens of a text are lent.
#[inline(always)]
fn lay_next(
    alloc: Global,
    stream: &mut Expander<'_>,
    layout: &mut Layout,
    work: &mut Work,
) -> Result<bool, TextError>
    requires { stream.old.standing ≡ Going }
    ensures ok { IfOk result (λ more. LaysNext more (laid_from layout.old (to_come stream.old work.old.left)) layout.new stream.new work.new.left) }
    ensures within { OnOk result (length layout.old.text ≤ text_limit → length layout.new.text ≤ text_limit) }
    ensures few { IfOk result (λ more. IsTrue more → at_hand stream.new + work.new.left < at_hand stream.old + work.old.left) }
    ensures err { IfErr result (λ e. ReportsText e (laid_from layout.old (to_come stream.old work.old.left))) }
    ensures spends { work.new.left ≤ work.old.left }
{
    match stream.lend_more() {
        Some(lent) => match lay_or_end(alloc, stream, layout, work, lent) {
            Ok(()) => Ok(true),
            Err(error) => Err(error),
        },
        None => lay_expanded(alloc, stream, layout, work),
    }
}

// Lays out the next token of an expansion that lends none.
fn lay_expanded(
    alloc: Global,
    stream: &mut Expander<'_>,
    layout: &mut Layout,
    work: &mut Work,
) -> Result<bool, TextError>
    requires { stream.old.standing ≡ Going }
    ensures ok { IfOk result (λ more. LaysNext more (laid_from layout.old (to_come stream.old work.old.left)) layout.new stream.new work.new.left) }
    ensures within { OnOk result (length layout.old.text ≤ text_limit → length layout.new.text ≤ text_limit) }
    ensures few { IfOk result (λ more. IsTrue more → at_hand stream.new + work.new.left < at_hand stream.old + work.old.left) }
    ensures err { IfErr result (λ e. ReportsText e (laid_from layout.old (to_come stream.old work.old.left))) }
    ensures spends { work.new.left ≤ work.old.left }
{
    match stream.expand_next(work) {
        Ok(Some(token)) => match lay_or_end(
            alloc,
            stream,
            layout,
            work,
            Lent::Token(token.as_ref()),
        ) {
            Ok(()) => Ok(true),
            Err(error) => Err(error),
        },
        Ok(None) => Ok(false),
        Err(error) => Err(in_expansion(alloc, error)),
    }
}

// Lays out what is lent. Where the text passes its limit, the rest is expanded, since an error of it comes first.
#[inline(always)]
fn lay_or_end(
    alloc: Global,
    stream: &mut Expander<'_>,
    layout: &mut Layout,
    work: &mut Work,
    lent: Lent<'_>,
) -> Result<(), TextError>
    requires { stream.old.standing ≡ Going }
    ensures ok { OnOk result (layout.new ≡ after_events layout.old (map put (lent_tokens lent.entry))) }
    ensures within { OnOk result (length layout.new.text ≤ text_limit) }
    ensures same { OnOk result (stream.new ≡ stream.old) }
    ensures left { OnOk result (work.new.left ≡ work.old.left) }
    ensures err { IfErr result (λ e. ReportsText e (laid_from (after_events layout.old (map put (lent_tokens lent.entry))) (to_come stream.old work.old.left))) }
    ensures spends { work.new.left ≤ work.old.left }
{
    match lay_lent(layout, lent) {
        Ok(()) => Ok(()),
        Err(LayError::Full) => match expand_rest(stream, work) {
            Ok(()) => Err(TextError::Full),
            Err(error) => Err(in_expansion(alloc, error)),
        },
        Err(LayError::Memory) => Err(TextError::Memory),
    }
}

#[tactic(auto, unfolding(cpp_output::specs::Laid::after_events))]
#[inline(always)]
fn lay_lent(layout: &mut Layout, lent: Lent<'_>) -> Result<(), LayError>
    ensures ok { OnOk result ((layout.new ≡ after_events layout.old (map put (lent_tokens lent.entry))) × (length layout.new.text ≤ text_limit)) }
    ensures full { IsErrOf result LayError.Full → text_limit < length (after_events layout.old (map put (lent_tokens lent.entry))).text }
{
    match lent {
        Lent::Token(token) => layout.put(&token),
        Lent::Stretch(tokens) => layout.stretch(tokens),
    }
}

// Expands what is left, and lays none of it out.
fn expand_rest(stream: &mut Expander<'_>, work: &mut Work) -> Result<(), ExpandError>
    requires { stream.old.standing ≡ Going }
    ensures ok { OnOk result (IsOkay (to_come stream.old work.old.left)) }
    ensures err { IfErr result (λ e. ReportsResult e (to_come stream.old work.old.left)) }
    ensures spends { work.new.left ≤ work.old.left }
{
    while let Some(_) = stream.next(work)? {}
    Ok(())
}
