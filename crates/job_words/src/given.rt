// What compile words give.
ghost use Rattle.std.specs.Prelude.{◌≡◌, ◌≤◌, ◌+◌, ◌⊎◌, Some, length, Ok, Err, OnOk, IfErr};
ghost use Rattle.base_types.specs.Limits.{word_limit};
ghost use Rattle.job_words.specs.Words as compile;
ghost use Rattle.job_words.specs.parts.Told.{texts_given, IsText};

use crate::macros::{define_word, undef_word};
use crate::{MacroWord, WordError};
use base_types::{Bytes, List};
use std::alloc::{AllocError, Global};

// An option that takes an operand: a directory for all names, for quoted names, behind those for all, or behind these;
// a file that is included in front of the source; a macro that is defined or undefined; or the output's name.
#[derive(Clone, Copy, Debug, PartialEq, Eq, Drop)]
pub enum Taker {
    Directory,
    QuoteDirectory,
    SystemDirectory,
    AfterDirectory,
    Include,
    Define,
    Undefine,
    Output,
}

// What the words read so far give.
#[derive(Drop)]
pub struct Given {
    pub source: Option<Bytes>,
    pub quote: List<Bytes>,
    pub directories: List<Bytes>,
    pub system: List<Bytes>,
    pub after: List<Bytes>,
    pub macros: List<MacroWord>,
    pub forced: List<Bytes>,
    pub output: Option<Bytes>,
    pub trigraphs: bool,
}

impl Given {
    pub fn nothing(alloc: Global) -> Given
        ensures { result ≡ compile.nothing }
    {
        Given {
            source: None,
            quote: List::new(alloc),
            directories: List::new(alloc),
            system: List::new(alloc),
            after: List::new(alloc),
            macros: List::new(alloc),
            forced: List::new(alloc),
            output: None,
            trigraphs: false,
        }
    }

    // Adds an operand to those of its option, or refuses it.
    pub fn give(&mut self, alloc: Global, taker: Taker, text: &[u8]) -> Result<(), WordError>
        requires { length text.now ≤ word_limit }
        ensures given { OnOk result (compile.give taker text.now self.old ≡ Ok self.new) }
        ensures few { OnOk result (texts_given self.new ≤ texts_given self.old + 1) }
        ensures why { IfErr result (λ e. (e ≡ WordError.Memory) ⊎ (compile.give taker text.now self.old ≡ Err e)) }
    {
        match taker {
            Taker::Define => self.give_macro(define_word(alloc, text)?)?,
            Taker::Undefine => self.give_macro(undef_word(alloc, text)?)?,
            _ => self.give_text(alloc, taker, text)?,
        }
        Ok(())
    }

    // Adds a macro to those of the words in front.
    fn give_macro(&mut self, word: MacroWord) -> Result<(), AllocError>
        ensures given { OnOk result (compile.give_macro (Some word) self.old ≡ Ok self.new) }
        ensures few { OnOk result (texts_given self.new ≡ texts_given self.old) }
    {
        self.macros.push(word)?;
        Ok(())
    }

    // Adds an operand to those of an option that takes any.
    fn give_text(&mut self, alloc: Global, taker: Taker, text: &[u8]) -> Result<(), AllocError>
        requires { IsText taker }
        ensures given { OnOk result (compile.give taker text.now self.old ≡ Ok self.new) }
        ensures few { OnOk result (texts_given self.new ≤ texts_given self.old + 1) }
    {
        let text = Bytes::copy_of(alloc, text)?;
        match taker {
            Taker::Define | Taker::Undefine => unreachable!(),
            Taker::Directory => self.directories.push(text)?,
            Taker::QuoteDirectory => self.quote.push(text)?,
            Taker::SystemDirectory => self.system.push(text)?,
            Taker::AfterDirectory => self.after.push(text)?,
            Taker::Include => self.forced.push(text)?,
            Taker::Output => self.output = Some(text),
        }
        Ok(())
    }
}
