// The other side of a wire, whose answers are written down.
ghost use Rattle.std.specs.Prelude.{◌≡◌, drop, IfOk, OnOk, OnErr};
ghost use Rattle.daemon_serve.specs.Scripted.{first_answer, AnyAnswer};

use crate::answerer::Answerer;
use base_types::Bytes;
use std::alloc::{AllocError, Global};
use std::marker::Model;

/// The other side of a wire, which gives answers from a list in turn, whatever was sent, and then empty ones. It
/// isn't told: it may give any answer.
#[derive(Drop)]
pub struct Scripted {
    answers: Vec<Bytes>,
    given: usize,
}

impl Model for Scripted {
    ghost use Rattle.std.specs.Prelude.{List, ℕ, drop};

    ghost Value = { List (List ℕ) };

    ghost view = { λ s. drop s.given s.answers.items };
}

impl Scripted {
    /// These answers, in turn.
    pub fn new(answers: Vec<Bytes>) -> Scripted
        ensures { result ≡ answers.items }
    {
        Scripted { answers, given: 0 }
    }
}

impl Answerer for Scripted {
    ghost may = { AnyAnswer };

    fn answer(&mut self, alloc: Global, _sent: &[u8]) -> Result<Bytes, AllocError>
        ensures may { IfOk result (λ answer. AnyAnswer _sent.now answer) }
        ensures first { IfOk result (λ answer. answer ≡ first_answer self.old) }
        ensures rest { OnOk result (self.new ≡ drop 1 self.old) }
        ensures err { OnErr result (self.new ≡ self.old) }
    {
        if self.given >= self.answers.len() {
            return Ok(Bytes::new(alloc));
        }
        let answer = Bytes::copy_of(alloc, self.answers[self.given].as_slice())?;
        self.given += 1;
        Ok(answer)
    }
}
