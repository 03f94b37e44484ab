// The pieces of a file, taken in order: its definitions, and what its text becomes.
ghost use Rattle.std.specs.Prelude.{◌≡◌, [], map};
ghost use Rattle.pp_tokens.specs.Tokens.{rest_of};
ghost use Rattle.macro_expand.specs.declared.outcome.Mode.TheVariants.{Text};
ghost use Rattle.macro_expand.specs.Seen.{kept_plain};

use base_types::Bytes;
use directive_scan::{Asked, Directive, DirectiveRef};
use macro_defs::{DefineError, MacroTable, Run, names_macro, read_shared};
use macro_expand::{Expander, Mode, Presumed, Standing};
use pp_tokens::{Lexed, Token, Tokens};
use std::alloc::{AllocError, Global};
use std::sync::Arc;

/// The units of work that each run of text has.
pub const UNITS: u64 = 20_000_000;

/// A file that is gone through: its macros so far, its name, and how many definitions were refused.
#[derive(Drop)]
pub struct Unit {
    table: MacroTable,
    here: Presumed,
    refused: u64,
}

impl Unit {
    /// The beginning of a file, with the macros that every translation begins with (ISO C 6.10.8.1).
    pub fn new(alloc: Global, file: &str) -> Result<Unit, AllocError> {
        let here = Presumed {
            name: Bytes::copy_of(alloc, file.as_bytes())?,
            shift: 0,
        };
        Ok(Unit {
            table: MacroTable::initial(alloc)?,
            here,
            refused: 0,
        })
    }

    /// How many definitions were refused so far.
    pub fn refused(&self) -> u64 {
        self.refused
    }

    /// The expansion of a run of text under the definitions so far.
    pub fn expansion<'u>(&'u self, alloc: Global, run: Tokens<'u>) -> Expander<'u>
        ensures { result ≡ record {
          table = self.now.table;
          here = self.now.here;
          mode = Text;
          ready = [];
          pending = map kept_plain (rest_of run.entry);
          standing = Standing.Going;
        } }
    {
        Expander::over(alloc, &self.table, Run::Lexed(run), &self.here, Mode::Text)
    }

    /// A directive is obeyed where it is `#define` or `#undef`.
    pub fn obey(&mut self, alloc: Global, line: DirectiveRef<'_>) -> Result<(), AllocError> {
        match line.asked() {
            Asked::Define(file, from, end) => self.define(alloc, file, from, end),
            Asked::Nothing => self.obey_other(alloc, line),
            _ => Ok(()),
        }
    }

    fn obey_other(&mut self, alloc: Global, line: DirectiveRef<'_>) -> Result<(), AllocError> {
        if let Directive::Undef(rest) = line.read(alloc)? {
            self.undefine(rest.as_slice());
        }
        Ok(())
    }

    // Defines what a line defines; one that defines nothing is counted and passed over.
    fn define(
        &mut self,
        alloc: Global,
        file: &Arc<Lexed, Global>,
        from: usize,
        end: usize,
    ) -> Result<(), AllocError> {
        match read_shared(alloc, file, from, end) {
            Ok((name, definition)) => self.table.define(name, definition),
            Err(DefineError::Memory) => Err(AllocError),
            Err(_) => {
                self.refused = self.refused.saturating_add(1);
                Ok(())
            }
        }
    }

    fn undefine(&mut self, rest: &[Token]) {
        if let Some(name) = rest.first() {
            if names_macro(&name.as_ref()) {
                self.table.undef(name.text.as_slice());
            }
        }
    }
}
