// A name by which a table of macros is looked up.
ghost use Rattle.std.specs.Prelude.{ℕ, List, [], ◌∷◌, bytes_eq};
ghost use Rattle.std.specs.Cmp.Lexicographic.{bytes_decides, nat_list_eq_equiv};
ghost use Rattle.std.proofs.Common.{ap};

use base_types::Bytes;
use indexmap::Equivalent;
use std::hash::{Hash, Hasher};

// A name that stands for the equal one in a map.
#[derive(Clone, Copy, PartialEq, Eq, Drop)]
pub(crate) struct Key<'a> {
    pub(crate) text: &'a [u8],
}

// The bytes are written in one call, as those of the names in the map are.
impl<'a> Hash for Key<'a> {
    ghost hash_input = { λ k. k.text.now ∷ [] };

    ghost respects_eq = { λ x y same. ap (λ (name : List ℕ). name ∷ []) ((bytes_decides x.text.now y.text.now).0 same) };

    fn hash<H: Hasher>(&self, state: &mut H) {
        state.write(self.text);
    }
}

impl<'a> Equivalent<Bytes> for Key<'a> {
    ghost equivalent = { λ k name. bytes_eq k.text.now name };

    ghost respects_hash = { λ k name same. ap (λ (text : List ℕ). text ∷ []) ((bytes_decides k.text.now name).0 same) };

    ghost respects_eq = { λ k x y. nat_list_eq_equiv.congr k.text.now x y };

    fn equivalent(&self, name: &Bytes) -> bool {
        self.text == name.as_slice()
    }
}
