// The conditions of if-sections (ISO C 6.10.1).
ghost use Rattle.std.specs.Prelude.{◌≡◌, ◌≤◌, ◌∷◌, ℕ, List, Some, false, codes, is_some, IfOk, IfErr, IsErrOf};
ghost use Rattle.std.specs.List.{list_any};
ghost use Rattle.std.specs.Option.{ForSome};
ghost use Rattle.base_types.specs.Causes.{HasCause};
ghost use Rattle.pp_tokens.specs.declared.Token.{Token};
ghost use Rattle.pp_tokens.specs.Marks.{is_word};
ghost use Rattle.pp_tokens.specs.Tokens.{token_seen, rest_of};
ghost use Rattle.directive_scan.specs.Spots.{directive_seen, piece_seen};
ghost use Rattle.macro_defs.specs.Runs.{run_tokens};
ghost use Rattle.tree_model.specs.Paths.{spelled};
ghost use Rattle.search_path.specs.Asks.{header_ask};
ghost use Rattle.daemon_cpp.specs.declared.kept.Kept.{Kept};
ghost use Rattle.daemon_cpp.specs.Prep.{world_of, piece_test, directive_test, condition, parts_condition, answer_parts, probe, probe_named, answered_condition, cond_complaint, name_condition};
ghost use Rattle.daemon_cpp.specs.parts.Controlling.{judged};
ghost use Rattle.daemon_cpp.specs.parts.Showing.{Leads, here_seen, Refuses, part_answered, TellsNothing};

use crate::controlling::{Controlling, read_expanded};
use crate::defined::answer_token;
use crate::diagnostic::Problem;
use crate::header::header_reached;
use crate::kept::{Kept, Places};
use crate::stop::{Stop, refused};
use crate::text::expansion_stop;
use crate::tree::find_file;
use base_types::List;
use cond_eval::CondError;
use directive_scan::{
    Asked, ConditionPart, DirectiveRef, HeaderName, PieceRef, Target, parts_of, parts_without_probe,
};
use macro_defs::Run;
use macro_expand::{Expander, Mode};
use pp_tokens::{Token, TokenRef, Tokens};
use search_path::header_ask;
use std::alloc::Global;
use tree_model::Tree;

/// Whether the group behind a line of a conditional is read, where none before it was.
pub fn test_line<T: Tree>(
    alloc: Global,
    tree: &mut T,
    kept: &mut Kept,
    places: Places<'_>,
    piece: PieceRef<'_>,
) -> Result<bool, Stop>
    ensures same { T.told tree.new ≡ T.told tree.old }
    ensures leads { ForSome (T.told tree.old) (λ told. Leads kept.old kept.new places.entry.source.now (here_seen places.entry)
        (λ state. piece_test (world_of told places.entry.setup.now) (piece_seen piece.entry) state) result) }
    ensures spends { kept.new.work.left ≤ kept.old.work.left }
    ensures cause { HasCause Stop.Fault (T.faults tree.old) (T.faults tree.new) result }
{
    match piece {
        PieceRef::Run(_) => Ok(true),
        PieceRef::Line { at, what } => test_directive_ref(alloc, tree, kept, places, at, what),
    }
}

// A directive on a line. Lines of other directives have no condition.
fn test_directive_ref<T: Tree>(
    alloc: Global,
    tree: &mut T,
    kept: &mut Kept,
    places: Places<'_>,
    at: u32,
    line: DirectiveRef<'_>,
) -> Result<bool, Stop>
    ensures same { T.told tree.new ≡ T.told tree.old }
    ensures leads { ForSome (T.told tree.old) (λ told. Leads kept.old kept.new places.entry.source.now (here_seen places.entry)
        (λ state. directive_test (world_of told places.entry.setup.now) at (directive_seen line.entry) state) result) }
    ensures spends { kept.new.work.left ≤ kept.old.work.left }
    ensures cause { HasCause Stop.Fault (T.faults tree.old) (T.faults tree.new) result }
{
    match line.asked() {
        Asked::If(tokens) => condition(alloc, tree, kept, places, at, tokens),
        Asked::Elif(tokens) => condition(alloc, tree, kept, places, at, tokens),
        Asked::Ifdef(tokens) => name_condition(alloc, kept, places, at, true, tokens),
        Asked::Ifndef(tokens) => name_condition(alloc, kept, places, at, false, tokens),
        Asked::Define(..) | Asked::Nothing => Ok(true),
    }
}

// The condition of an `#if` or `#elif`. A line without `__has_include`, as most are, is expanded without a copy of its tokens.
fn condition<T: Tree>(
    alloc: Global,
    tree: &mut T,
    kept: &mut Kept,
    places: Places<'_>,
    at: u32,
    tokens: Tokens<'_>,
) -> Result<bool, Stop>
    ensures same { T.told tree.new ≡ T.told tree.old }
    ensures leads { ForSome (T.told tree.old) (λ told. Leads kept.old kept.new places.entry.source.now (here_seen places.entry)
        (λ state. condition (world_of told places.entry.setup.now) at (rest_of tokens.entry) state) result) }
    ensures spends { kept.new.work.left ≤ kept.old.work.left }
    ensures cause { HasCause Stop.Fault (T.faults tree.old) (T.faults tree.new) result }
{
    parts_without_probe();
    if !has_probe_word(tokens) {
        return answered_condition(alloc, kept, places, at, Run::Lexed(tokens));
    }
    match tokens.to_list(alloc) {
        Ok(line) => probing_condition(alloc, tree, kept, places, at, line.as_slice()),
        Err(_) => Err(Stop::Memory),
    }
}

// Whether a line has an identifier `__has_include`.
fn has_probe_word(tokens: Tokens<'_>) -> bool
    ensures { result ≡ list_any (is_word (codes "__has_include")) (rest_of tokens.entry) }
{
    for token in tokens {
        if is_probe(&token) {
            return true;
        }
    }
    false
}

fn is_probe(token: &TokenRef<'_>) -> bool
    ensures { result ≡ is_word (codes "__has_include") (token_seen token.now) }
{
    token.is_identifier() && token.text == b"__has_include".as_slice()
}

// The condition of a line that may have `__has_include`s.
fn probing_condition<T: Tree>(
    alloc: Global,
    tree: &mut T,
    kept: &mut Kept,
    places: Places<'_>,
    at: u32,
    tokens: &[Token],
) -> Result<bool, Stop>
    ensures same { T.told tree.new ≡ T.told tree.old }
    ensures leads { ForSome (T.told tree.old) (λ told. Leads kept.old kept.new places.entry.source.now (here_seen places.entry)
        (λ state. condition (world_of told places.entry.setup.now) at tokens.now state) result) }
    ensures spends { kept.new.work.left ≤ kept.old.work.left }
    ensures cause { HasCause Stop.Fault (T.faults tree.old) (T.faults tree.new) result }
{
    match parts_of(alloc, tokens) {
        Ok(Some(parts)) => parts_condition(alloc, tree, kept, places, at, parts),
        Ok(None) => Err(refused(alloc, &places.visit.place, at, Problem::BadProbe)),
        Err(_) => Err(Stop::Memory),
    }
}

// A line by its parts: each `__has_include` is answered, and then the line is expanded.
fn parts_condition<T: Tree>(
    alloc: Global,
    tree: &mut T,
    kept: &mut Kept,
    places: Places<'_>,
    at: u32,
    parts: List<ConditionPart>,
) -> Result<bool, Stop>
    ensures same { T.told tree.new ≡ T.told tree.old }
    ensures leads { ForSome (T.told tree.old) (λ told. Leads kept.old kept.new places.entry.source.now (here_seen places.entry)
        (λ state. parts_condition (world_of told places.entry.setup.now) at (Some parts) state) result) }
    ensures spends { kept.new.work.left ≤ kept.old.work.left }
    ensures cause { HasCause Stop.Fault (T.faults tree.old) (T.faults tree.new) result }
{
    match answer_parts(alloc, tree, kept, places, at, parts) {
        Ok(tokens) => {
            answered_condition(alloc, kept, places, at, Run::Listed(tokens.as_slice()))
        }
        Err(stop) => Err(stop),
    }
}

// The tokens of a line, with each `__has_include` and its operand answered by 1 or 0, from left to right.
fn answer_parts<T: Tree>(
    alloc: Global,
    tree: &mut T,
    kept: &mut Kept,
    places: Places<'_>,
    at: u32,
    parts: List<ConditionPart>,
) -> Result<List<Token>, Stop>
    ensures same { T.told tree.new ≡ T.told tree.old }
    ensures leads { ForSome (T.told tree.old) (λ told. Leads kept.old kept.new places.entry.source.now (here_seen places.entry)
        (λ state. answer_parts (world_of told places.entry.setup.now) at parts state) result) }
    ensures spends { kept.new.work.left ≤ kept.old.work.left }
    ensures cause { HasCause Stop.Fault (T.faults tree.old) (T.faults tree.new) result }
{
    let mut answered = List::new(alloc);
    for part in parts.into_vec() {
        let token = match answer_part(alloc, tree, kept, places, at, part) {
            Ok(token) => token,
            Err(stop) => return Err(stop),
        };
        if answered.push(token).is_err() {
            return Err(Stop::Memory);
        }
    }
    Ok(answered)
}

// A token as written, or the answer in the place of a `__has_include`.
fn answer_part<T: Tree>(
    alloc: Global,
    tree: &mut T,
    kept: &mut Kept,
    places: Places<'_>,
    at: u32,
    part: ConditionPart,
) -> Result<Token, Stop>
    ensures same { T.told tree.new ≡ T.told tree.old }
    ensures leads { ForSome (T.told tree.old) (λ told. Leads kept.old kept.new places.entry.source.now (here_seen places.entry)
        (λ state. part_answered (world_of told places.entry.setup.now) at part state) result) }
    ensures spends { kept.new.work.left ≤ kept.old.work.left }
    ensures cause { HasCause Stop.Fault (T.faults tree.old) (T.faults tree.new) result }
{
    match part {
        ConditionPart::Written(token) => Ok(token),
        ConditionPart::Probe { name, target } => {
            match probe(alloc, tree, kept, places, at, &target) {
                Ok(is_found) => Ok(answer_token(alloc, name, is_found)?),
                Err(stop) => Err(stop),
            }
        }
    }
}

// Whether the file of an operand is found.
fn probe<T: Tree>(
    alloc: Global,
    tree: &mut T,
    kept: &mut Kept,
    places: Places<'_>,
    at: u32,
    target: &Target,
) -> Result<bool, Stop>
    ensures same { T.told tree.new ≡ T.told tree.old }
    ensures leads { ForSome (T.told tree.old) (λ told. Leads kept.old kept.new places.entry.source.now (here_seen places.entry)
        (λ state. probe (world_of told places.entry.setup.now) at target.now state) result) }
    ensures spends { kept.new.work.left ≤ kept.old.work.left }
    ensures cause { HasCause Stop.Fault (T.faults tree.old) (T.faults tree.new) result }
{
    match header_reached(alloc, kept, places, at, target) {
        Ok(Some(header)) => probe_named(alloc, tree, places, &header),
        Ok(None) => Err(refused(alloc, &places.visit.place, at, Problem::BadProbe)),
        Err(stop) => Err(stop),
    }
}

// Whether the file of a header's name is found.
fn probe_named<T: Tree>(
    alloc: Global,
    tree: &mut T,
    places: Places<'_>,
    header: &HeaderName,
) -> Result<bool, Stop>
    ensures same { T.told tree.new ≡ T.told tree.old }
    ensures leads { ForSome (T.told tree.old) (λ told. (kept : Kept) (at : ℕ) → Leads kept kept places.entry.source.now (here_seen places.entry)
        (λ state. probe_named (world_of told places.entry.setup.now) at (Some header.now) state) result) }
    ensures cause { HasCause Stop.Fault (T.faults tree.old) (T.faults tree.new) result }
{
    is_found(alloc, tree, places, header)
}

// Whether a search for a header's name finds a file.
fn is_found<T: Tree>(
    alloc: Global,
    tree: &mut T,
    places: Places<'_>,
    header: &HeaderName,
) -> Result<bool, Stop>
    ensures same { T.told tree.new ≡ T.told tree.old }
    ensures found { ForSome (T.told tree.old) (λ told. IfOk result (λ found. found ≡ is_some ((world_of told places.entry.setup.now).find (header_ask places.entry.visit.now false header.now.angle header.now.name)))) }
    ensures untold { IfErr result TellsNothing }
    ensures cause { HasCause Stop.Fault (T.faults tree.old) (T.faults tree.new) result }
{
    let ask = header_ask(
        alloc,
        places.visit,
        false,
        header.angle,
        header.name.as_slice(),
    )?;
    match find_file(alloc, tree, places.setup, ask) {
        Ok(found) => Ok(found.is_some()),
        Err(stop) => Err(stop),
    }
}

// A line whose operands of `__has_include` were answered. It is read as it is expanded.
fn answered_condition(
    alloc: Global,
    kept: &mut Kept,
    places: Places<'_>,
    at: u32,
    run: Run<'_>,
) -> Result<bool, Stop>
    ensures leads { Leads kept.old kept.new places.entry.source.now (here_seen places.entry) (λ state. answered_condition at (run_tokens run.entry) state) result }
    ensures spends { kept.new.work.left ≤ kept.old.work.left }
    ensures no_fault { IsErrOf result Stop.Fault → ⊥ }
{
    let here = places.presumed;
    let stream = Expander::over(alloc, &kept.macros, run, here, Mode::Condition);
    match read_expanded(alloc, stream, &kept.macros, &mut kept.work) {
        Ok(line) => judged(alloc, places, at, &line),
        Err(error) => Err(expansion_stop(alloc, places, at, &error)),
    }
}

// Whether a line that was read to its end holds: each `defined` has its operand, no `__has_include` is left, and its value isn't 0.
fn judged(alloc: Global, places: Places<'_>, at: u32, line: &Controlling) -> Result<bool, Stop>
    ensures leads { (kept : Kept) → Leads kept kept places.entry.source.now (here_seen places.entry) (λ state. judged at line.now state) result }
    ensures no_fault { IsErrOf result Stop.Fault → ⊥ }
{
    if !line.is_whole() {
        return Err(refused(alloc, &places.visit.place, at, Problem::BadExpression));
    }
    if line.has_probe() {
        return Err(refused(alloc, &places.visit.place, at, Problem::BadProbe));
    }
    match line.value(alloc) {
        Ok(number) => Ok(number.bits != 0),
        Err(error) => Err(unvalued(alloc, places, at, error)),
    }
}

// Why an expression has no value.
fn unvalued(alloc: Global, places: Places<'_>, at: u32, error: CondError) -> Stop
    ensures told { Refuses (record { place = spelled places.entry.visit.now.place; at = at; complaint = cond_complaint error }) result }
    ensures memory { error ≡ CondError.Memory → result ≡ Stop.Memory }
{
    let place = &places.visit.place;
    match error {
        CondError::Syntax => refused(alloc, place, at, Problem::BadExpression),
        CondError::ZeroDivisor => refused(alloc, place, at, Problem::ZeroDivisor),
        CondError::NotInteger => refused(alloc, place, at, Problem::NotInteger),
        CondError::TooWide => refused(alloc, place, at, Problem::TooWide),
        CondError::TooDeep => refused(alloc, place, at, Problem::TooDeep),
        CondError::Memory => Stop::Memory,
    }
}

// The condition of an `#ifdef` or, where it is wanted that the name isn't defined, of an `#ifndef`.
fn name_condition(
    alloc: Global,
    kept: &Kept,
    places: Places<'_>,
    at: u32,
    wanted: bool,
    mut tokens: Tokens<'_>,
) -> Result<bool, Stop>
    ensures leads { Leads kept.now kept.now places.entry.source.now (here_seen places.entry) (λ state. name_condition at wanted (rest_of tokens.entry) state) result }
    ensures no_fault { IsErrOf result Stop.Fault → ⊥ }
{
    match tokens.next() {
        Some(name) => is_as_wanted(alloc, kept, places, at, wanted, name),
        None => Err(refused(alloc, &places.visit.place, at, Problem::NoIdentifier)),
    }
}

// Whether the name that stands first on the line is defined, or isn't, as it is wanted.
fn is_as_wanted(
    alloc: Global,
    kept: &Kept,
    places: Places<'_>,
    at: u32,
    wanted: bool,
    name: TokenRef<'_>,
) -> Result<bool, Stop>
    ensures leads { (others : List Token) → Leads kept.now kept.now places.entry.source.now (here_seen places.entry) (λ state. name_condition at wanted (token_seen name.entry ∷ others) state) result }
    ensures no_fault { IsErrOf result Stop.Fault → ⊥ }
{
    if !name.is_identifier() {
        return Err(refused(alloc, &places.visit.place, at, Problem::NoIdentifier));
    }
    let is_defined = kept.macros.is_defined(name.text);
    Ok(is_defined == wanted)
}
