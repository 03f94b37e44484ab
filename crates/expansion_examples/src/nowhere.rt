// A place that isn't known.
ghost use Rattle.std.specs.Prelude.{None};
ghost use Rattle.macro_defs.specs.Table.{lookup};

use base_types::Bytes;
use macro_defs::{Definition, MacroTable};
use macro_expand::Answers;
use std::alloc::{AllocError, Global};

/// Answers for a macro table where neither the file nor a line is known.
#[derive(Drop)]
pub struct Nowhere;

impl Answers<MacroTable> for Nowhere {
    ghost answerer = { λ table. record {
      definition = λ s name. record { answer = lookup table name; state = s };
      file = λ s. record { answer = None; state = s };
      line = λ s line. record { answer = None; state = s };
    } };

    fn definition<'s>(
        &mut self,
        source: &'s MacroTable,
        name: &[u8],
    ) -> Result<Option<&'s Definition>, AllocError> {
        Ok(source.get(name))
    }

    fn lacks(&self, source: &MacroTable, name: &[u8]) -> bool {
        source.get(name).is_none()
    }

    fn file(&mut self, _alloc: Global, _source: &MacroTable) -> Result<Option<Bytes>, AllocError> {
        Ok(None)
    }

    fn line(
        &mut self,
        _alloc: Global,
        _source: &MacroTable,
        _line: u32,
    ) -> Result<Option<Bytes>, AllocError> {
        Ok(None)
    }
}
