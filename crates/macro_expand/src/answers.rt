// Who answers what expansion asks.
ghost use Rattle.std.specs.Prelude.{◌≡◌, pos, ◌+ℤ◌, IfOk, IsTrue, Option, Some, None};
ghost use Rattle.std.specs.Option.{option_copied};
ghost use Rattle.std.specs.Fmt.{signed_decimal};
ghost use Rattle.macro_defs.specs.Table.{lookup};
ghost use Rattle.macro_expand.specs.Answered.{Answerer, table_answerer};
ghost use Rattle.macro_expand.specs.Seen.{place_of};

use base_types::Bytes;
use itoa::Buffer;
use macro_defs::{Definition, MacroTable};
use std::alloc::{AllocError, Global};

/// Where the tokens stand (ISO C 6.10.4): the presumed name of the file, and what is added to a physical line. The name is the form
/// that is shown, and stands between quotes as it is: what stands between those of a `#line`, or the file's path, in which the
/// caller escapes `\`, `"` and newline.
#[derive(Debug, Drop)]
pub struct Presumed {
    pub name: Bytes,
    pub shift: i64,
}

/// An answerer over a source of definitions.
pub trait Answers<S> {
    /// How it answers, from a state to an answer and the state after it.
    ghost answerer: { S → Answerer Self };

    /// The definition that a name has here.
    fn definition<'s>(
        &mut self,
        source: &'s S,
        name: &[u8],
    ) -> Result<Option<&'s Definition>, AllocError>
        ensures answer { IfOk result (λ d. option_copied d ≡ ((answerer source.now).definition self.old name.now).answer) }
        ensures state { IfOk result (λ d. self.new ≡ ((answerer source.now).definition self.old name.now).state) };

    /// Whether a name is known to have no definition, so that nobody asks for it: the answer would be none, and the state the same. `false`
    /// tells nothing.
    fn lacks(&self, source: &S, name: &[u8]) -> bool
        ensures { IsTrue result → (state : Self) → (answerer source.now).definition state name.now ≡ record { answer = None; state = state } };

    /// The presumed name, where it is known.
    fn file(&mut self, alloc: Global, source: &S) -> Result<Option<Bytes>, AllocError>
        ensures answer { IfOk result (λ t. t ≡ ((answerer source.now).file self.old).answer) }
        ensures state { IfOk result (λ t. self.new ≡ ((answerer source.now).file self.old).state) };

    /// The presumed number of a physical line, where it is known.
    fn line(&mut self, alloc: Global, source: &S, line: u32) -> Result<Option<Bytes>, AllocError>
        ensures answer { IfOk result (λ t. t ≡ ((answerer source.now).line self.old line).answer) }
        ensures state { IfOk result (λ t. self.new ≡ ((answerer source.now).line self.old line).state) };
}

/// A macro table at a place.
#[derive(Drop)]
pub struct TablePlace<'p> {
    pub here: &'p Presumed,
}

impl<'p> Answers<MacroTable> for TablePlace<'p> {
    ghost answerer = { λ table. table_answerer (λ s. lookup table) (λ s. place_of s.here.now) };

    fn definition<'s>(
        &mut self,
        source: &'s MacroTable,
        name: &[u8],
    ) -> Result<Option<&'s Definition>, AllocError> {
        Ok(source.get(name))
    }

    fn lacks(&self, source: &MacroTable, name: &[u8]) -> bool {
        source.get(name).is_none()
    }

    fn file(&mut self, alloc: Global, source: &MacroTable) -> Result<Option<Bytes>, AllocError> {
        Ok(Some(Bytes::copy_of(alloc, self.here.name.as_slice())?))
    }

    fn line(
        &mut self,
        alloc: Global,
        source: &MacroTable,
        line: u32,
    ) -> Result<Option<Bytes>, AllocError> {
        Ok(Some(presumed_number(alloc, line, self.here)?))
    }
}

// The decimal text of a presumed line, below zero with a sign.
fn presumed_number(alloc: Global, line: u32, here: &Presumed) -> Result<Bytes, AllocError>
    ensures { IfOk result (λ t. t ≡ signed_decimal (pos line +ℤ here.now.shift)) }
{
    let number = line as i128 + here.shift as i128;
    let mut digits = Buffer::new();
    Bytes::copy_of(alloc, digits.format(number).as_bytes())
}
