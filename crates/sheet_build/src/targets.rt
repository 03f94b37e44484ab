// What targets of includes and of probes add to a sheet (ISO C 6.10.2).
ghost use Rattle.std.specs.Prelude.{◌≡◌, ◌∷◌, [], ◌++◌, false, true, map, IfOk, OnOk, IsErrOf};
ghost use Rattle.std.specs.Option.{ForSome};
ghost use Rattle.base_types.specs.Causes.{HasCause};
ghost use Rattle.directive_scan.specs.Operands.{operands_of};
ghost use Rattle.search_path.specs.Search as searches;
ghost use Rattle.sheet_build.specs.Sheet.{asked_so, asked_for, probes_for, quote_form};
ghost use Rattle.sheet_build.specs.parts.Stored.{sheet_of_parts, with_includes, with_probes};
ghost use Rattle.sheet_build.specs.declared.unweighed.Parts.{Parts};

use crate::computed::Computed;
use crate::unweighed::Parts;
use base_types::List;
use directive_scan::{HeaderName, Target, has_operands, has_probe, parts_without_probe};
use pp_tokens::Token;
use search_path::{Form, Setup, Visit, header_ask, search};
use std::alloc::{AllocError, Global};
use tree_model::{Located, Tree, TreeError};

// The target of an include or an include_next: the file that its name finds, or its tokens.
pub fn add_include<T: Tree>(
    alloc: Global,
    tree: &mut T,
    setup: &Setup,
    visit: &Visit,
    next: bool,
    target: Target,
    parts: &mut Parts,
) -> Result<(), TreeError>
    ensures same { T.told tree.new ≡ T.told tree.old }
    ensures adds { ForSome (T.told tree.old) (λ told. OnOk result (sheet_of_parts parts.new ≡ with_includes (searches.search told setup.now) visit.now (asked_so next false target ∷ []) (sheet_of_parts parts.old))) }
    ensures cause { HasCause TreeError.Fault (T.faults tree.old) (T.faults tree.new) result }
    ensures never_large { IsErrOf result TreeError.Large → ⊥ }
    ensures no_read { T.reads tree.new ≡ T.reads tree.old }
{
    match target {
        Target::Plain(header) => add_included(alloc, tree, setup, visit, next, &header, parts),
        Target::Computed(tokens) => Ok(add_computed(next, false, tokens, parts)?),
    }
}

// The file of an include whose name is written, where it is found.
fn add_included<T: Tree>(
    alloc: Global,
    tree: &mut T,
    setup: &Setup,
    visit: &Visit,
    next: bool,
    header: &HeaderName,
    parts: &mut Parts,
) -> Result<(), TreeError>
    ensures same { T.told tree.new ≡ T.told tree.old }
    ensures adds { ForSome (T.told tree.old) (λ told. OnOk result (sheet_of_parts parts.new ≡ with_includes (searches.search told setup.now) visit.now (asked_so next false (Target.Plain header.now) ∷ []) (sheet_of_parts parts.old))) }
    ensures cause { HasCause TreeError.Fault (T.faults tree.old) (T.faults tree.new) result }
    ensures never_large { IsErrOf result TreeError.Large → ⊥ }
    ensures no_read { T.reads tree.new ≡ T.reads tree.old }
{
    match find_header(alloc, tree, setup, visit, next, header)? {
        Some(hit) => {
            parts.plain.push(hit)?;
            Ok(())
        }
        None => Ok(()),
    }
}

// The file that a visited file asks for by a header name; None where none is found.
fn find_header<T: Tree>(
    alloc: Global,
    tree: &mut T,
    setup: &Setup,
    visit: &Visit,
    next: bool,
    header: &HeaderName,
) -> Result<Option<(Visit, Located)>, TreeError>
    ensures same { T.told tree.new ≡ T.told tree.old }
    ensures found { ForSome (T.told tree.old) (λ told. IfOk result (λ hit. hit ≡ searches.search told setup.now (asked_for visit.now next header.now))) }
    ensures cause { HasCause TreeError.Fault (T.faults tree.old) (T.faults tree.new) result }
    ensures never_large { IsErrOf result TreeError.Large → ⊥ }
    ensures no_read { T.reads tree.new ≡ T.reads tree.old }
{
    let name = header.name.as_slice();
    let ask = header_ask(alloc, visit, next, header.angle, name)?;
    search(alloc, tree, setup, &ask)
}

// Tokens that name a file once they are expanded.
fn add_computed(
    next: bool,
    probe: bool,
    tokens: List<Token>,
    parts: &mut Parts,
) -> Result<(), AllocError>
    ensures { OnOk result (parts.new ≡ record parts.old { computed = parts.old.computed ++ record { form = quote_form next; probe = probe; tokens = tokens } ∷ [] }) }
{
    let form = quote_form(next);
    parts.computed.push(Computed::new(form, probe, tokens))?;
    Ok(())
}

// The form of an include, or of an include_next, with its name in quotes.
fn quote_form(next: bool) -> Form
    ensures { result ≡ quote_form next }
{
    if next { Form::NextQuote } else { Form::Quote }
}

// The operands of `__has_include` on the line of a condition. A line without one, as most are, is read without a copy of its tokens.
pub fn add_probes<T: Tree>(
    alloc: Global,
    tree: &mut T,
    setup: &Setup,
    visit: &Visit,
    tokens: &[Token],
    parts: &mut Parts,
) -> Result<(), TreeError>
    ensures same { T.told tree.new ≡ T.told tree.old }
    ensures adds { ForSome (T.told tree.old) (λ told. OnOk result (sheet_of_parts parts.new ≡ with_probes (searches.search told setup.now) visit.now (probes_for (operands_of tokens.now)) (sheet_of_parts parts.old))) }
    ensures cause { HasCause TreeError.Fault (T.faults tree.old) (T.faults tree.new) result }
    ensures never_large { IsErrOf result TreeError.Large → ⊥ }
    ensures no_read { T.reads tree.new ≡ T.reads tree.old }
{
    parts_without_probe();
    if !has_probe(tokens) {
        return Ok(());
    }
    match has_operands(alloc, tokens)? {
        None => Ok(()),
        Some(targets) => add_operands(alloc, tree, setup, visit, targets, parts),
    }
}

// Operands in order.
fn add_operands<T: Tree>(
    alloc: Global,
    tree: &mut T,
    setup: &Setup,
    visit: &Visit,
    targets: List<Target>,
    parts: &mut Parts,
) -> Result<(), TreeError>
    ensures same { T.told tree.new ≡ T.told tree.old }
    ensures adds { ForSome (T.told tree.old) (λ told. OnOk result (sheet_of_parts parts.new ≡ with_probes (searches.search told setup.now) visit.now (map (asked_so false true) targets) (sheet_of_parts parts.old))) }
    ensures cause { HasCause TreeError.Fault (T.faults tree.old) (T.faults tree.new) result }
    ensures never_large { IsErrOf result TreeError.Large → ⊥ }
    ensures no_read { T.reads tree.new ≡ T.reads tree.old }
{
    for target in targets.into_vec() {
        add_operand(alloc, tree, setup, visit, target, parts)?;
    }
    Ok(())
}

// An operand: the file that its name finds, or its tokens.
fn add_operand<T: Tree>(
    alloc: Global,
    tree: &mut T,
    setup: &Setup,
    visit: &Visit,
    target: Target,
    parts: &mut Parts,
) -> Result<(), TreeError>
    ensures same { T.told tree.new ≡ T.told tree.old }
    ensures adds { ForSome (T.told tree.old) (λ told. OnOk result (sheet_of_parts parts.new ≡ with_probes (searches.search told setup.now) visit.now (asked_so false true target ∷ []) (sheet_of_parts parts.old))) }
    ensures cause { HasCause TreeError.Fault (T.faults tree.old) (T.faults tree.new) result }
    ensures never_large { IsErrOf result TreeError.Large → ⊥ }
    ensures no_read { T.reads tree.new ≡ T.reads tree.old }
{
    match target {
        Target::Plain(header) => add_probed(alloc, tree, setup, visit, &header, parts),
        Target::Computed(tokens) => Ok(add_computed(false, true, tokens, parts)?),
    }
}

// The file of an operand whose name is written, where it is found.
fn add_probed<T: Tree>(
    alloc: Global,
    tree: &mut T,
    setup: &Setup,
    visit: &Visit,
    header: &HeaderName,
    parts: &mut Parts,
) -> Result<(), TreeError>
    ensures same { T.told tree.new ≡ T.told tree.old }
    ensures adds { ForSome (T.told tree.old) (λ told. OnOk result (sheet_of_parts parts.new ≡ with_probes (searches.search told setup.now) visit.now (asked_so false true (Target.Plain header.now) ∷ []) (sheet_of_parts parts.old))) }
    ensures cause { HasCause TreeError.Fault (T.faults tree.old) (T.faults tree.new) result }
    ensures never_large { IsErrOf result TreeError.Large → ⊥ }
    ensures no_read { T.reads tree.new ≡ T.reads tree.old }
{
    match find_header(alloc, tree, setup, visit, false, header)? {
        Some((_, located)) => {
            parts.probes.push(located)?;
            Ok(())
        }
        None => Ok(()),
    }
}
