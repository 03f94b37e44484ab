// What a job's words say of its searches.
ghost use Rattle.std.specs.Prelude.{◌≡◌, ◌↔◌, ◌+◌, ◌<◌, length, IfOk, IsTrue};
ghost use Rattle.std.specs.Cmp.{partial_equiv_from_equiv};
ghost use Rattle.std.proofs.Common.{ap};
ghost use Rattle.search_path.specs.SetupOf.{setup_of};
ghost use Rattle.search_path.specs.Keys.{is_same_setup, is_same_setup-Decides, same_setup_equiv, setup_writes};

use base_types::{Bytes, List};
use std::alloc::{AllocError, Global};
use std::hash::{Hash, Hasher};
use std::marker::Model;
use std::sync::Arc;

/// What a job's words say of its searches: the working directory, the directories of quoted names and those of all
/// names, which together are the chain, and whether trigraphs are read. The chain has fewer than 2^32 directories.
/// Copies share what they hold.
#[derive(Drop)]
pub struct Setup {
    parts: Arc<Parts, Global>,
}

// What a setup and its copies hold.
#[derive(PartialEq, Eq, Hash, Drop)]
struct Parts {
    cwd: Bytes,
    quote: List<Bytes>,
    bracket: List<Bytes>,
    trigraphs: bool,
}

impl Model for Setup {
    ghost use Rattle.std.specs.Prelude.{◌+◌, ◌<◌, length};
    ghost use Rattle.std.specs.Arc.{arc_value};
    ghost use Rattle.search_path.specs.SetupOf.{SetupData, setup_of};

    ghost Value = { SetupData };

    ghost view = { λ s. let parts = arc_value s.parts in setup_of parts.cwd parts.quote parts.bracket parts.trigraphs };

    ghost invariant = { λ s. length (arc_value s.parts).quote + length (arc_value s.parts).bracket < 4294967296 };
}

impl Setup {
    /// A setup of these. Directories are texts as they were written: one that doesn't begin with `/` stands below the
    /// working directory.
    pub fn new(
        alloc: Global,
        cwd: Bytes,
        quote: List<Bytes>,
        bracket: List<Bytes>,
        trigraphs: bool,
    ) -> Result<Setup, AllocError>
        requires { length quote + length bracket < 4294967296 }
        ensures { IfOk result (λ setup. setup ≡ setup_of cwd quote bracket trigraphs) }
    {
        let parts = Parts {
            cwd,
            quote,
            bracket,
            trigraphs,
        };
        Ok(Setup {
            parts: Arc::new(alloc, parts)?,
        })
    }

    /// A copy, which takes no memory and no time. It is refused only where there are 2^63 copies.
    pub fn copy(&self) -> Result<Setup, AllocError>
        ensures { IfOk result (λ copy. copy ≡ self.now) }
    {
        Ok(Setup {
            parts: Arc::try_clone(&self.parts)?,
        })
    }

    /// Whether both say the same.
    pub fn says_same(&self, other: &Setup) -> bool
        ensures { IsTrue result ↔ (self.now ≡ other.now) }
    {
        *self == *other
    }

    /// The working directory, as it was written.
    pub fn cwd(&self) -> &[u8]
        ensures { result.now ≡ self.now.cwd }
    {
        self.parts.cwd.as_slice()
    }

    /// The directories in which only quoted names are searched: the first of the chain.
    pub fn quote(&self) -> &[Bytes]
        ensures directories { result.now ≡ self.now.quote }
        ensures few { length self.now.quote + length self.now.bracket < 4294967296 }
    {
        self.parts.quote.as_slice()
    }

    /// The directories in which all names are searched: the rest of the chain.
    pub fn bracket(&self) -> &[Bytes]
        ensures directories { result.now ≡ self.now.bracket }
        ensures few { length self.now.quote + length self.now.bracket < 4294967296 }
    {
        self.parts.bracket.as_slice()
    }

    /// Whether trigraphs are read (ISO C 5.2.1.1).
    pub fn trigraphs(&self) -> bool
        ensures { result ≡ self.now.trigraphs }
    {
        self.parts.trigraphs
    }
}

impl PartialEq for Setup {
    ghost eq = { is_same_setup };

    ghost laws = { partial_equiv_from_equiv same_setup_equiv };

    fn eq(&self, other: &Setup) -> bool {
        self.parts == other.parts
    }
}

impl Eq for Setup {
    ghost laws = { same_setup_equiv };
}

impl Hash for Setup {
    ghost hash_input = { setup_writes };

    ghost respects_eq = { λ x y same. ap setup_writes ((is_same_setup-Decides x y).0 same) };

    fn hash<H: Hasher>(&self, state: &mut H) {
        self.parts.hash(state);
    }
}
