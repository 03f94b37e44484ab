// What expansion is asked to do, what it may cost, and how it ends.
ghost use Rattle.std.specs.Prelude.{◌≡◌, IfOk};

use base_types::Bytes;
use std::alloc::{AllocError, Global};
use std::marker::Model;

/// What is expanded: text, or the line of an `#if` or `#elif`, where a `defined` keeps its operand (ISO C 6.10.1).
#[derive(Clone, Copy, Debug, PartialEq, Eq, Drop)]
pub enum Mode {
    Text,
    Condition,
}

/// Units of work that are left. A replacement costs one unit, and one for each token that it puts in.
#[derive(Debug, Drop)]
pub struct Work {
    pub left: u64,
}

/// A spelling that an error names. It is in memory of its own, since what may be an error is moved about for each token, and so is to be
/// small.
#[derive(Debug, Drop)]
pub struct Spelling {
    bytes: Box<Bytes>,
}

impl Model for Spelling {
    ghost use Rattle.std.specs.Prelude.{ℕ, List, box_value};

    ghost Value = { List ℕ };

    ghost view = { λ s. box_value s.bytes };
}

impl Spelling {
    /// A copy of a slice. The only error is want of memory.
    pub(crate) fn copy_of(alloc: Global, slice: &[u8]) -> Result<Spelling, AllocError>
        ensures { IfOk result (λ s. s ≡ slice.now) }
    {
        let copy = Bytes::copy_of(alloc, slice)?;
        match Box::new(alloc, copy) {
            Ok(bytes) => Ok(Spelling { bytes }),
            Err(_) => Err(AllocError),
        }
    }

    pub fn as_slice(&self) -> &[u8]
        ensures { result.now ≡ self.now }
    {
        self.bytes.as_slice()
    }

    pub fn as_bytes(&self) -> &Bytes
        ensures { result.now ≡ self.now }
    {
        &self.bytes
    }
}

/// Why a list of tokens has no expansion. `Count`: a call of the macro `name` has the wrong number of arguments (ISO C
/// 6.10.3 paragraph 4). `Unclosed`: a call doesn't end (6.10.3 paragraph 10). `Paste`: `##` joins two spellings that
/// make no single token (6.10.3.3 paragraph 3). `Deep`: arguments are expanded more than 400 deep. `Work`: a replacement costs
/// more than is left. `Memory`: no memory was found. `line` is that of the name whose call or replacement it is.
#[derive(Debug, Drop)]
pub enum ExpandError {
    Count {
        name: Spelling,
        line: u32,
    },
    Unclosed {
        name: Spelling,
        line: u32,
    },
    Paste {
        left: Spelling,
        right: Spelling,
        line: u32,
    },
    Deep {
        line: u32,
    },
    Work,
    Memory,
}

/// Why an expansion stopped, whoever answers: an error, or a presumed name or line that isn't known.
#[derive(Debug, Drop)]
pub enum RunError {
    Count {
        name: Spelling,
        line: u32,
    },
    Unclosed {
        name: Spelling,
        line: u32,
    },
    Paste {
        left: Spelling,
        right: Spelling,
        line: u32,
    },
    Deep {
        line: u32,
    },
    Work,
    Presumed,
    Memory,
}

impl From<AllocError> for RunError {
    ghost use Rattle.std.specs.Prelude.{◌≡◌};
    ghost use Rattle.macro_expand.specs.declared.outcome.RunError.TheVariants.{Memory};

    ghost from_gives = { λ e r. r ≡ Memory };

    fn from(_e: AllocError) -> RunError {
        RunError::Memory
    }
}
