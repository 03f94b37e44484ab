// Canonical paths.
ghost use Rattle.std.specs.Prelude.{◌≡◌, ◌↔◌, ◌==◌, ℕ, List, [], ◌∷◌, ◌++◌, IfOk, IsTrue};
ghost use Rattle.std.specs.List.{list_all, slice_split};
ghost use Rattle.std.specs.Option.{option_map};
ghost use Rattle.std.proofs.Common.{ap};
ghost use Rattle.std.specs.Ordering.{nat_cmp};
ghost use Rattle.std.specs.Cmp.{partial_equiv_from_equiv};
ghost use Rattle.std.specs.Cmp.Lexicographic.{slice_cmp, lists_equiv, nat_list_eq_equiv};
ghost use Rattle.tree_model.specs.Paths as paths;
ghost use Rattle.base_types.specs.Ascii.{slash};
ghost use Rattle.tree_model.specs.Paths.{spelled, spelled_below, names_of, path_of, parent_spelling, child_of, is_same_path, is_same_path-Decides, IsCanonical, IsSpelling};

use crate::spelling::Spelling;
use base_types::limits::{NAME_LIMIT, PATH_LIMIT};
use std::alloc::{AllocError, Global};
use std::cmp::Ordering;
use std::hash::{Hash, Hasher};
use std::marker::Model;
use std::sync::Arc;

/// A canonical path: `/`, or components each after a `/`, at most 4,096 bytes; a component has 1 to 255 bytes, no
/// `/`, no byte 0, and is neither `.` nor `..`. Contracts see it as its names, the innermost first. Copies share the
/// spelling.
#[derive(Drop)]
pub struct CanonPath {
    // the spelling, or None at the root
    spelling: Option<Arc<Spelling, Global>>,
}

impl Model for CanonPath {
    ghost use Rattle.std.specs.Prelude.{ℕ, List};
    ghost use Rattle.tree_model.specs.Paths.{names_of, IsSpelling};
    ghost use Rattle.tree_model.specs.parts.Stored.{stored, IsBelowRoot};

    ghost Value = { List (List ℕ) };

    ghost view = { λ p. names_of (stored p.spelling) };

    ghost invariant = { λ p. IsSpelling (stored p.spelling) × IsBelowRoot p.spelling };
}

// A byte may stand in a name.
fn is_name_byte(b: u8) -> bool
    ensures { result ≡ paths.is_file_name_byte b }
{
    b != b'/' && b != 0
}

// All bytes may stand in a name.
fn are_name_bytes(text: &[u8]) -> bool
    ensures { result ≡ list_all paths.is_file_name_byte text.now }
{
    for b in text {
        if !is_name_byte(*b) {
            return false;
        }
    }
    true
}

// A text is `.` or `..`.
fn is_dots(text: &[u8]) -> bool
    ensures { result ≡ paths.is_dots text.now }
{
    if text.len() > 2 {
        return false;
    }
    text == b".".as_slice() || text == b"..".as_slice()
}

// A text is a name.
fn is_name(text: &[u8]) -> bool
    ensures { result ≡ paths.is_name text.now }
{
    0 < text.len() && text.len() <= NAME_LIMIT && are_name_bytes(text) && !is_dots(text)
}

// A part whose bytes may all stand in a name is one.
fn is_part_name(part: &[u8]) -> bool
    requires { IsTrue (list_all paths.is_file_name_byte part.now) }
    ensures { result ≡ paths.is_name part.now }
{
    0 < part.len() && part.len() <= NAME_LIMIT && !is_dots(part)
}

// The parts of a text between its slashes are names.
fn are_names(text: &[u8]) -> bool
    ensures { result ≡ list_all paths.is_name (slice_split (λ b. b == slash) text.now) }
{
    let mut start = 0usize;
    for (i, b) in text.iter().enumerate() {
        if *b == b'/' {
            if !is_part_name(&text[start..i]) {
                return false;
            }
            start = i + 1;
        } else if *b == 0 {
            return false;
        }
    }
    is_part_name(&text[start..])
}

// A text spells a canonical path.
fn is_spelling(text: &[u8]) -> bool
    ensures { result ≡ paths.is_spelling text.now }
{
    if text.len() > PATH_LIMIT {
        return false;
    }
    let [first, names @ ..] = text else {
        return false;
    };
    *first == b'/' && (names.is_empty() || are_names(names))
}

// What stands before the last slash.
fn before_last(text: &[u8]) -> &[u8]
    ensures { (above name : List ℕ) → IsTrue (list_all paths.is_file_name_byte name) → text.now ≡ above ++ slash ∷ name → result.now ≡ above }
{
    let mut end = text.len();
    while 0 < end {
        end -= 1;
        if text[end] == b'/' {
            return &text[..end];
        }
    }
    text
}

// The root, which takes no memory.
fn the_root() -> CanonPath
    ensures { result ≡ [] }
{
    CanonPath { spelling: None }
}

// The path below the root that is spelled so.
fn below_root(alloc: Global, spelling: Spelling) -> Result<CanonPath, AllocError>
    requires spelling { IsSpelling spelling }
    requires below { spelling ≡ slash ∷ [] → ⊥ }
    ensures { IfOk result (λ path. path ≡ names_of spelling) }
{
    let spelling = Arc::new(alloc, spelling)?;
    Ok(CanonPath {
        spelling: Some(spelling),
    })
}

impl CanonPath {
    /// The root, `/`. It takes no memory.
    pub fn root(_: Global) -> Result<CanonPath, AllocError>
        ensures { IfOk result (λ path. path ≡ []) }
    {
        Ok(the_root())
    }

    /// The path that a text spells, or None exactly where it spells no canonical path.
    pub fn read(alloc: Global, text: &[u8]) -> Result<Option<CanonPath>, AllocError>
        ensures { IfOk result (λ path. path ≡ path_of text.now) }
    {
        if !is_spelling(text) {
            return Ok(None);
        }
        if text.len() == 1 {
            return Ok(Some(the_root()));
        }
        let spelling = Spelling::copy_of(alloc, text)?;
        let path = below_root(alloc, spelling)?;
        Ok(Some(path))
    }

    /// As `read`, keeping the text itself, with no copy.
    pub fn of(text: Vec<u8>) -> Result<Option<CanonPath>, AllocError>
        ensures { IfOk result (λ path. path ≡ path_of text.items) }
    {
        if !is_spelling(text.as_slice()) {
            return Ok(None);
        }
        if text.len() == 1 {
            return Ok(Some(the_root()));
        }
        let alloc = *text.allocator();
        let path = below_root(alloc, Spelling::of(text))?;
        Ok(Some(path))
    }

    /// The spelling.
    pub fn bytes(&self) -> &[u8]
        ensures value { result.now ≡ spelled self.now }
        ensures canonical { IsCanonical self.now }
    {
        match &self.spelling {
            None => b"/".as_slice(),
            Some(spelling) => spelling.as_slice(),
        }
    }

    // The spelling, empty at the root.
    pub(crate) fn stem(&self) -> &[u8]
        ensures value { result.now ≡ spelled_below self.now }
        ensures canonical { IsCanonical self.now }
    {
        if self.is_root() { &[] } else { self.bytes() }
    }

    /// The spelling of the parent, empty where that is the root, or None at the root.
    pub fn parent_bytes(&self) -> Option<&[u8]>
        ensures value { option_map (λ t. t.now) result ≡ parent_spelling self.now }
        ensures canonical { IsCanonical self.now }
    {
        if self.is_root() {
            return None;
        }
        Some(before_last(self.bytes()))
    }

    /// The directory that holds the path; the root holds itself.
    pub fn parent(&self, alloc: Global) -> Result<CanonPath, AllocError>
        ensures { IfOk result (λ path. path ≡ paths.parent self.now) }
    {
        let above = before_last(self.bytes());
        if above.is_empty() {
            return Ok(the_root());
        }
        let spelling = Spelling::copy_of(alloc, above)?;
        below_root(alloc, spelling)
    }

    /// The path of a name in this directory, or None exactly where the name is none or the path would be too long.
    pub fn child(&self, alloc: Global, name: &[u8]) -> Result<Option<CanonPath>, AllocError>
        ensures { IfOk result (λ path. path ≡ child_of self.now name.now) }
    {
        let stem = self.stem();
        if !is_name(name) || stem.len() + name.len() >= PATH_LIMIT {
            return Ok(None);
        }
        let spelling = Spelling::below(alloc, stem, name)?;
        let path = below_root(alloc, spelling)?;
        Ok(Some(path))
    }

    /// A copy, which shares the spelling. It takes no memory, and is refused only where that is shared 2^63 times.
    pub fn copy(&self, _: Global) -> Result<CanonPath, AllocError>
        ensures { IfOk result (λ path. path ≡ self.now) }
    {
        match &self.spelling {
            None => Ok(the_root()),
            Some(spelling) => {
                let spelling = Arc::try_clone(spelling)?;
                Ok(CanonPath {
                    spelling: Some(spelling),
                })
            }
        }
    }

    /// Whether this is the root.
    pub fn is_root(&self) -> bool
        ensures { IsTrue result ↔ (self.now ≡ []) }
    {
        self.spelling.is_none()
    }

    /// Whether both are the same path.
    pub fn spells_same(&self, other: &CanonPath) -> bool
        ensures { IsTrue result ↔ (self.now ≡ other.now) }
    {
        self.bytes() == other.bytes()
    }

    /// The order of the spellings, byte by byte, for sorting.
    pub fn compare(&self, other: &CanonPath) -> Ordering
        ensures { result ≡ slice_cmp nat_cmp (spelled self.now) (spelled other.now) }
    {
        self.bytes().cmp(other.bytes())
    }
}

impl PartialEq for CanonPath {
    ghost eq = { is_same_path };

    ghost laws = { partial_equiv_from_equiv (lists_equiv nat_list_eq_equiv) };

    fn eq(&self, other: &CanonPath) -> bool {
        self.spells_same(other)
    }
}

impl Eq for CanonPath {
    ghost laws = { lists_equiv nat_list_eq_equiv };
}

// The spelling is written in one call.
impl Hash for CanonPath {
    ghost hash_input = { λ path. spelled path ∷ [] };

    ghost respects_eq = { λ x y same. ap (λ (p : List (List ℕ)). spelled p ∷ []) ((is_same_path-Decides x y).0 same) };

    fn hash<H: Hasher>(&self, state: &mut H) {
        state.write(self.bytes());
    }
}
