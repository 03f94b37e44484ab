// The searches that an analysis was told the answers of.
ghost use Rattle.std.specs.Prelude.{◌≡◌};
ghost use Rattle.std.specs.Cmp.{partial_equiv_from_equiv};
ghost use Rattle.std.proofs.Common.{ap};
ghost use Rattle.closure_fixpoint.specs.parts.AskKeys.{form_number, is_same_ask, is_same_ask-Decides, same_ask_equiv, ask_writes};

use indexmap::IndexMap;
use search_path::{Ask, Form, Visit};
use std::alloc::{AllocError, Global};
use std::hash::{Hash, Hasher};
use std::marker::Model;
use tree_model::Located;

/// An ask as a key of a table.
#[derive(Drop)]
pub struct AskKey {
    ask: Ask,
}

impl Model for AskKey {
    ghost use Rattle.search_path.specs.declared.asking.Ask.{Ask as AskSeen};

    ghost Value = { AskSeen };

    ghost view = { λ k. k.ask };
}

impl AskKey {
    pub fn of(ask: Ask) -> AskKey
        ensures { result ≡ ask }
    {
        AskKey { ask }
    }

    pub fn into_ask(self) -> Ask
        ensures { result ≡ self }
    {
        self.ask
    }
}

impl PartialEq for AskKey {
    ghost eq = { is_same_ask };

    ghost laws = { partial_equiv_from_equiv same_ask_equiv };

    fn eq(&self, other: &AskKey) -> bool {
        number_of(self.ask.form) == number_of(other.ask.form)
            && self.ask.from == other.ask.from
            && self.ask.name == other.ask.name
    }
}

impl Eq for AskKey {
    ghost laws = { same_ask_equiv };
}

impl Hash for AskKey {
    ghost hash_input = { ask_writes };

    ghost respects_eq = { λ x y same. ap ask_writes ((is_same_ask-Decides x y).0 same) };

    fn hash<H: Hasher>(&self, state: &mut H) {
        number_of(self.ask.form).hash(state);
        self.ask.from.hash(state);
        self.ask.name.hash(state);
    }
}

// The number of a form.
fn number_of(form: Form) -> u64
    ensures { result ≡ form_number form }
{
    match form {
        Form::Source => 0,
        Form::Forced => 1,
        Form::Quote => 2,
        Form::Angle => 3,
        Form::NextQuote => 4,
        Form::NextAngle => 5,
    }
}

/// Searches with their answers, in order. A look-up takes constant time on average.
#[derive(Drop)]
pub struct Searches {
    told: IndexMap<AskKey, Option<(Visit, Located)>>,
}

impl Model for Searches {
    ghost use Rattle.std.specs.Prelude.{List, Option};
    ghost use Rattle.search_path.specs.Search.{Hit};
    ghost use Rattle.search_path.specs.declared.asking.Ask.{Ask as AskSeen};

    ghost Value = { List (AskSeen × Option Hit) };

    ghost view = { λ s. s.told.entries };
}

impl Searches {
    ghost use Rattle.std.specs.Prelude.{◌≡◌, ◌++◌, ◌∷◌, [], ◌<◌, length, OnOk, OnErr, IfSome, IfNone};
    ghost use Rattle.std.specs.List.{slice_get};
    ghost use Rattle.closure_fixpoint.specs.Asked.{HasAnswer, HasNoAnswer};

    // No searches.
    pub fn new(alloc: Global) -> Searches
        ensures { result ≡ [] }
    {
        Searches {
            told: IndexMap::new(alloc),
        }
    }

    // How many there are.
    pub fn len(&self) -> usize
        ensures { result ≡ length self.now }
    {
        self.told.len()
    }

    // What the search with a number, from 0, found.
    pub fn found_by(&self, number: usize) -> &Option<(Visit, Located)>
        requires { number < length self.now }
        ensures { IfSome (slice_get self.now number) (λ told. result.now ≡ told.1) }
    {
        &self.told[number]
    }

    // The answer to an ask, if it has one.
    pub fn answer_to(&self, ask: &AskKey) -> Option<&Option<(Visit, Located)>>
        ensures some { IfSome result (λ got. HasAnswer self.now ask.now got.now) }
        ensures none { IfNone result (HasNoAnswer self.now ask.now) }
    {
        self.told.get(ask)
    }

    // Adds the answer to an ask that has none.
    pub fn tell(&mut self, ask: Ask, got: Option<(Visit, Located)>) -> Result<(), AllocError>
        requires { HasNoAnswer self.old ask }
        ensures ok { OnOk result (self.new ≡ self.old ++ (ask, got) ∷ []) }
        ensures err { OnErr result (self.new ≡ self.old) }
    {
        match self.told.insert(AskKey::of(ask), got) {
            Ok(_) => return Ok(()),
            Err(_) => return Err(AllocError),
        }
    }
}
