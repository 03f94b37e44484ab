// Definitions (ISO C 6.10.3).
ghost use Rattle.std.specs.Prelude.{◌≡◌, ◌≤◌, ◌-◌, take, drop, Some, OnOk, IfErr, IsErrOf};
ghost use Rattle.std.specs.Arc.{arc_value};
ghost use Rattle.pp_tokens.specs.Lines.{all_tokens};
ghost use Rattle.macro_defs.specs.Defining.{defined_by};
ghost use Rattle.macro_defs.specs.Table.{SetsDefinition};
ghost use Rattle.daemon_cpp.specs.Prep.{define_step, undef_step};
ghost use Rattle.daemon_cpp.specs.parts.Showing.{Goes, here_seen, TellsDefinition};

use crate::diagnostic::Problem;
use crate::kept::{Kept, Places};
use crate::stop::{Stop, refused};
use base_types::Bytes;
use macro_defs::{DefineError, Definition, MacroTable, names_macro, read_shared};
use pp_tokens::{Lexed, Token};
use std::alloc::Global;
use std::sync::Arc;

/// A `#define`: the tokens behind it are those of a file from one number up to another.
pub fn define(
    alloc: Global,
    kept: &mut Kept,
    places: Places<'_>,
    at: u32,
    file: &Arc<Lexed, Global>,
    from: usize,
    end: usize,
) -> Result<(), Stop>
    ensures goes { Goes kept.old kept.new places.entry.source.now (here_seen places.entry) (λ state. define_step at (defined_by (take (end - from) (drop from (all_tokens (arc_value file.now))))) state) result }
    ensures spends { kept.new.work.left ≤ kept.old.work.left }
    ensures no_fault { IsErrOf result Stop.Fault → ⊥ }
{
    match read_shared(alloc, file, from, end) {
        Ok((name, definition)) => set(&mut kept.macros, name, definition),
        Err(error) => Err(definition_stop(alloc, places, at, error)),
    }
}

fn set(macros: &mut MacroTable, name: Bytes, definition: Definition) -> Result<(), Stop>
    ensures sets { OnOk result (SetsDefinition macros.old name (Some definition) macros.new) }
    ensures memory { IfErr result (λ e. e ≡ Stop.Memory) }
{
    match macros.define(name, definition) {
        Ok(()) => Ok(()),
        Err(_) => Err(Stop::Memory),
    }
}

// Why preprocessing ends at a definition that is refused.
fn definition_stop(alloc: Global, places: Places<'_>, at: u32, error: DefineError) -> Stop
    ensures { TellsDefinition places.entry.visit.now.place at error result }
{
    let place = &places.visit.place;
    match error {
        DefineError::Name => refused(alloc, place, at, Problem::BadName),
        DefineError::Params => refused(alloc, place, at, Problem::BadParameters),
        DefineError::PasteEnd => refused(alloc, place, at, Problem::PasteAtEnd),
        DefineError::Hash => refused(alloc, place, at, Problem::LoneHash),
        DefineError::Memory => Stop::Memory,
    }
}

/// A `#undef` (6.10.3.5 paragraph 2).
pub fn undefine(
    alloc: Global,
    kept: &mut Kept,
    places: Places<'_>,
    at: u32,
    tokens: &[Token],
) -> Result<(), Stop>
    ensures goes { Goes kept.old kept.new places.entry.source.now (here_seen places.entry) (λ state. undef_step at tokens.now state) result }
    ensures spends { kept.new.work.left ≤ kept.old.work.left }
    ensures no_fault { IsErrOf result Stop.Fault → ⊥ }
{
    let [name, ..] = tokens else {
        return Err(refused(alloc, &places.visit.place, at, Problem::BadName));
    };
    if !names_macro(&name.as_ref()) {
        return Err(refused(alloc, &places.visit.place, at, Problem::BadName));
    }
    kept.macros.undef(name.text.as_slice());
    Ok(())
}
