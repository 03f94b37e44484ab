// What a file is presumed to be (ISO C 6.10.4).
ghost use Rattle.std.specs.Prelude.{◌≡◌, ◌+◌, ◌+ℤ◌, ◌-ℤ◌, ◌≤◌, pos, unwrap_or};

use crate::line::NewLine;
use base_types::Bytes;
use macro_expand::Presumed;
use std::marker::Model;

/// The presumed name of a file, and what is added to a physical line for the presumed one, which has a narrow range.
#[derive(Drop)]
pub struct Numbering {
    presumed: Presumed,
}

impl Model for Numbering {
    ghost use Rattle.std.specs.Prelude.{◌≡◌, ◌≤◌, ℤ, pos, ◌+ℤ◌};
    ghost use Rattle.macro_expand.specs.declared.answers.Presumed.{Presumed};
    ghost use Rattle.daemon_cpp.specs.parts.Narrow.{IsNarrow};

    ghost Value = { Presumed };

    ghost view = { λ n. n.presumed };

    ghost invariant = { λ n. IsNarrow n.presumed.shift };
}

impl Numbering {
    /// A file under its first name, whose presumed lines are the physical ones.
    pub fn first(name: Bytes) -> Numbering
        ensures { result ≡ record { name = name; shift = pos 0 } }
    {
        Numbering {
            presumed: Presumed { name, shift: 0 },
        }
    }

    pub fn presumed(&self) -> &Presumed
        ensures { result.now ≡ self.now }
    {
        &self.presumed
    }

    /// The presumed line behind a physical line.
    pub fn line_behind(&self, at: u32) -> i64
        ensures { result ≡ (pos (at + 1) +ℤ self.now.shift) }
    {
        i64::from(at) + 1 + self.presumed.shift
    }

    /// The line behind a `#line` on a physical line has its number, and the file its name, where it gives one.
    pub fn renumber(&mut self, at: u32, new: NewLine)
        requires { new.number ≤ 2147483647 }
        ensures { self.new ≡ record { name = unwrap_or new.name self.old.name; shift = pos new.number -ℤ pos (at + 1) } }
    {
        self.presumed.shift = i64::from(new.number) - (i64::from(at) + 1);
        if let Some(name) = new.name {
            self.presumed.name = name;
        }
    }
}
