// A run by a list of numbers answers what expansion asks.
ghost use Rattle.std.specs.Prelude.{◌≡◌, IfOk};
ghost use Rattle.std.specs.Option.{option_copied};
ghost use Rattle.symbolic_expand.specs.parts.Enumeration.{choice_at, choices_of};

use crate::run::RunEnd;
use crate::sets::DefSets;
use crate::texts::{TextSet, key_of};
use base_types::Bytes;
use directive_scan::HeaderName;
use macro_defs::Definition;
use macro_expand::Answers;
use std::alloc::{AllocError, Global};
use std::collections::VecDeque;
use std::marker::Model;

/// Answers along a list of numbers: for a name that has definitions, 0 leaves it and k takes its definition number k. Behind the
/// list's end each number is 0.
#[derive(Drop)]
pub(crate) struct Choices<'f> {
    alloc: Global,
    // the numbers still to take
    ahead: VecDeque<usize>,
    // those taken, each with how many there were
    taken: Vec<(usize, usize)>,
    // the presumed name of the file, where it is known
    file: Option<&'f [u8]>,
    // the names asked for
    met: TextSet,
}

impl<'f> Model for Choices<'f> {
    ghost use Rattle.std.specs.Option.{option_copied};
    ghost use Rattle.symbolic_expand.specs.parts.Choosing.{Choosing};

    ghost Value = { Choosing };

    ghost view = { λ c. record { ahead = c.ahead.items; taken = c.taken.items; file = option_copied c.file; met = c.met } };
}

impl<'f> Choices<'f> {
    ghost use Rattle.std.specs.Prelude.{◌≡◌, [], IfOk, OnOk};
    ghost use Rattle.std.specs.Option.{option_copied};
    ghost use Rattle.symbolic_expand.specs.parts.Choosing.{chosen, meeting};

    pub(crate) fn new(
        alloc: Global,
        ahead: VecDeque<usize>,
        file: Option<&'f [u8]>,
        met: TextSet,
    ) -> Choices<'f>
        ensures { result ≡ record { ahead = ahead.items; taken = []; file = option_copied file.entry; met = met } }
    {
        Choices {
            alloc,
            ahead,
            taken: Vec::new(alloc),
            file,
            met,
        }
    }

    // The next number, for a name with these definitions.
    fn choose<'s>(
        &mut self,
        definitions: &'s [Definition],
    ) -> Result<Option<&'s Definition>, AllocError>
        ensures answer { IfOk result (λ d. option_copied d ≡ (chosen definitions.now self.old).answer) }
        ensures state { IfOk result (λ d. self.new ≡ (chosen definitions.now self.old).state) }
    {
        if definitions.is_empty() {
            return Ok(None);
        }
        let count = definitions.len();
        let k = match self.ahead.pop_front() {
            None => 0,
            Some(k) => k,
        };
        self.taken.push((k, count + 1))?;
        Ok(definition_at(definitions, k))
    }

    fn meet(&mut self, name: &[u8]) -> Result<(), AllocError>
        ensures { OnOk result (self.new ≡ meeting name.now self.old) }
    {
        let text = key_of(self.alloc, name)?;
        self.met.insert(text)
    }

    fn file_name(&self, alloc: Global) -> Result<Option<Bytes>, AllocError>
        ensures { IfOk result (λ t. t ≡ self.now.file) }
    {
        match self.file {
            None => Ok(None),
            Some(name) => Ok(Some(Bytes::copy_of(alloc, name)?)),
        }
    }

    /// The end of the run that took all these numbers.
    pub(crate) fn end(self, header: Option<HeaderName>) -> RunEnd
        ensures { (result.header ≡ header) × (result.taken.items ≡ self.entry.taken) × (result.met ≡ self.entry.met) }
    {
        RunEnd {
            header,
            taken: self.taken,
            met: self.met,
        }
    }
}

// The definition that a number takes; 0 takes none.
fn definition_at<'s>(definitions: &'s [Definition], k: usize) -> Option<&'s Definition>
    ensures { option_copied result ≡ choice_at (choices_of definitions.now) k }
{
    if k == 0 {
        return None;
    }
    let i = k - 1;
    if i < definitions.len() {
        Some(&definitions[i])
    } else {
        None
    }
}

impl<'f> Answers<DefSets> for Choices<'f> {
    ghost use Rattle.symbolic_expand.specs.parts.Choosing.{choosing_answerer};
    ghost use Rattle.symbolic_expand.specs.Defined.{sets_of};

    ghost answerer = { λ entries. choosing_answerer (sets_of entries) };

    fn definition<'s>(
        &mut self,
        source: &'s DefSets,
        name: &[u8],
    ) -> Result<Option<&'s Definition>, AllocError> {
        self.meet(name)?;
        self.choose(source.get(name))
    }

    // A name that is met is noted, so each is asked for.
    fn lacks(&self, _source: &DefSets, _name: &[u8]) -> bool {
        false
    }

    fn file(&mut self, alloc: Global, _source: &DefSets) -> Result<Option<Bytes>, AllocError> {
        let name = self.file_name(alloc)?;
        self.meet(b"__FILE__")?;
        Ok(name)
    }

    fn line(
        &mut self,
        _alloc: Global,
        _source: &DefSets,
        _line: u32,
    ) -> Result<Option<Bytes>, AllocError> {
        self.meet(b"__LINE__")?;
        Ok(None)
    }
}
