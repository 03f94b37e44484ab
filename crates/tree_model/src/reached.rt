// Where the walks of texts from the root end, as a tree remembers it.
ghost use Rattle.std.specs.Prelude.{◌≡◌, None, IfSome, Option};
ghost use Rattle.std.specs.Option.{option_map};
ghost use Rattle.tree_model.specs.Paths.{Text};
ghost use Rattle.tree_model.specs.Trees.{FileTree};
ghost use Rattle.tree_model.specs.Reached.{reached};
ghost use Rattle.tree_model.specs.parts.Remembered as remembered;
ghost use Rattle.tree_model.specs.parts.Remembered.{walks_known, AreTrueWalks};

use crate::{CanonPath, SharedNodes};
use base_types::Bytes;
use std::alloc::Global;
use std::collections::HashMap;
use std::hash::{FoldHasher, Hasher};

/// What the walk of a text from the root reached: a directory, with the nodes walked behind the root and how many links may still be
/// followed, or nothing below which a text locates a file.
#[derive(Drop)]
pub enum Reached {
    Nowhere,
    Dir(CanonPath, SharedNodes, u32),
}

/// What the walks of texts reached. The texts of a search are the directories that it names, so they are few.
#[derive(Drop)]
pub struct Walks {
    // by a number that is made of the text's bytes; of texts with one number the last stays
    known: HashMap<u64, (Bytes, Reached)>,
}

// A number of 64 bits that is made of a text's bytes: other texts seldom have it too.
#[tactic(auto, unfolding(crate::specs::parts::Remembered::number_of))]
pub(crate) fn number_of(text: &[u8]) -> u64
    ensures { result ≡ remembered.number_of text.now }
{
    let mut state = FoldHasher::default();
    state.write(text);
    state.finish()
}

impl Walks {
    /// None that is remembered yet.
    pub fn new(alloc: Global) -> Walks
        ensures { (text : Text) → walks_known result text ≡ None }
    {
        Walks {
            known: HashMap::new(alloc),
        }
    }

    /// What the walk of a text reached, if it is remembered.
    pub fn get(&self, text: &[u8]) -> Option<&Reached>
        ensures { option_map (λ it. it.now) result ≡ walks_known self.now text.now }
    {
        let Some((known, it)) = self.known.get(&number_of(text)) else {
            return None;
        };
        if known.as_slice() != text {
            return None;
        }
        Some(it)
    }

    /// Remembers what the walk of a text reached, if there is memory for it.
    pub fn put(&mut self, text: Bytes, it: Reached)
        ensures { (told : Option FileTree) → AreTrueWalks told (walks_known self.old) → IfSome told (λ tree. it ≡ reached tree text) → AreTrueWalks told (walks_known self.new) }
    {
        let number = number_of(text.as_slice());
        let _ = self.known.insert(number, (text, it));
    }
}
