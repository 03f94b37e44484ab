// What goes through a job, and the file that is read.
ghost use Rattle.std.specs.Prelude.{◌≡◌, Some, IfOk, OnOk};
ghost use Rattle.macro_defs.specs.Table.{lookup, SetsDefinition};
ghost use Rattle.daemon_cpp.specs.Prep.{first_table, with_word};

use crate::once::OnceMarks;
use base_types::{Bytes, List};
use cpp_output::Layout;
use job_words::MacroWord;
use macro_defs::{Definition, MacroTable};
use macro_expand::{Presumed, Work};
use search_path::{Setup, Visit};
use std::alloc::{AllocError, Global};
use tree_model::CanonPath;

/// What goes through a job: the output so far, the macros in force, the work left, the real paths of the files that are read
/// once, and the places of the files opened, in order and with repeats.
#[derive(Drop)]
pub struct Kept {
    pub layout: Layout,
    pub macros: MacroTable,
    pub work: Work,
    pub once: OnceMarks,
    pub opened: List<CanonPath>,
}

/// What the job's words say of searches, its source by its place, and the file that is read: as one that asks, by its path
/// behind all links, and by what it is presumed to be.
#[derive(Clone, Copy)]
pub struct Places<'a> {
    pub setup: &'a Setup,
    pub source: &'a CanonPath,
    pub visit: &'a Visit,
    pub real: &'a CanonPath,
    pub presumed: &'a Presumed,
}

/// The macros before the first line: those that every translation begins with, and then what the words say, in order.
pub fn first_table(alloc: Global, words: &[MacroWord]) -> Result<MacroTable, AllocError>
    ensures { IfOk result (λ table. lookup table ≡ first_table words.now) }
{
    let mut table = MacroTable::initial(alloc)?;
    for word in words {
        obey(alloc, &mut table, word)?;
    }
    Ok(table)
}

// Does what a word says.
fn obey(alloc: Global, table: &mut MacroTable, word: &MacroWord) -> Result<(), AllocError>
    ensures { OnOk result (lookup table.new ≡ with_word word.now (lookup table.old)) }
{
    match word {
        MacroWord::Define(name, definition) => add(alloc, table, name.as_slice(), definition),
        MacroWord::Undef(name) => {
            table.undef(name.as_slice());
            Ok(())
        }
    }
}

fn add(
    alloc: Global,
    table: &mut MacroTable,
    name: &[u8],
    definition: &Definition,
) -> Result<(), AllocError>
    ensures { OnOk result (SetsDefinition table.old name.now (Some definition.now) table.new) }
{
    let name = Bytes::copy_of(alloc, name)?;
    let definition = definition.copy(alloc)?;
    table.define(name, definition)
}
