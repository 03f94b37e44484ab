// A set of texts, kept in order of their bytes.
ghost use Rattle.std.specs.Prelude.{◌≡◌, IfOk};

use std::alloc::{AllocError, Global};
use std::collections::BTreeMap;
use std::marker::Model;

/// A set of texts. To add one takes time in the logarithm of their number.
#[derive(Drop)]
pub(crate) struct TextSet {
    kept: BTreeMap<Vec<u8>, ()>,
}

impl Model for TextSet {
    ghost use Rattle.std.specs.Prelude.{ℕ, List};
    ghost use Rattle.symbolic_expand.specs.Texts.{texts_of};

    ghost Value = { List (List ℕ) };

    ghost view = { λ s. texts_of s.kept.entries };
}

impl TextSet {
    ghost use Rattle.std.specs.Prelude.{◌≡◌, OnOk, [], ◌∷◌, MatchOption};
    ghost use Rattle.std.specs.List.Sorted.{IsStrictlySortedBy};
    ghost use Rattle.symbolic_expand.specs.Texts.{text_inserted, text_cmp};

    pub(crate) fn new(alloc: Global) -> TextSet
        ensures { result ≡ [] }
    {
        TextSet {
            kept: BTreeMap::new(alloc),
        }
    }

    pub(crate) fn insert(&mut self, text: Vec<u8>) -> Result<(), AllocError>
        ensures ok { OnOk result (self.new ≡ text_inserted text.items self.old) }
    {
        self.kept.insert(text, ())?;
        Ok(())
    }

    pub(crate) fn len(&self) -> usize
        ensures ordered { IsStrictlySortedBy text_cmp self.now }
    {
        self.kept.len()
    }

    // Takes the first text out.
    pub(crate) fn pop(&mut self) -> Option<Vec<u8>>
        ensures { MatchOption result ((self.old ≡ []) × (self.new ≡ [])) (λ t. self.old ≡ t.items ∷ self.new) }
    {
        match self.kept.pop_first() {
            None => return None,
            Some(entry) => return Some(entry.0),
        }
    }
}

/// The bytes of a text, as a key.
pub(crate) fn key_of(alloc: Global, text: &[u8]) -> Result<Vec<u8>, AllocError>
    ensures { IfOk result (λ key. key.items ≡ text.now) }
{
    text.to_vec(alloc)
}
