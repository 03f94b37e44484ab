// The spellings of paths, as their copies share them: one that isn't long is kept in the value itself, so that it and what counts its
// copies take one block of memory.
ghost use Rattle.std.specs.Prelude.{◌≡◌, ◌≤◌, ◌<◌, ◌+◌, ◌++◌, ◌∷◌, length, take, IfOk};
ghost use Rattle.base_types.specs.Ascii.{slash};
ghost use Rattle.tree_model.specs.parts.Spelled.{kept_bytes, FitsIn};

use std::alloc::{AllocError, Global};
use std::marker::Model;

// The most bytes that are kept in the value: those of most paths of headers.
const ROOM: usize = 94;

#[derive(Drop)]
enum Kept {
    // the bytes, of which so many count
    Inside([u8; 94], u8),
    Outside(Vec<u8>),
}

/// The bytes of a path's spelling.
#[derive(Drop)]
pub struct Spelling {
    kept: Kept,
}

impl Model for Spelling {
    ghost use Rattle.tree_model.specs.Paths.{Text};
    ghost use Rattle.tree_model.specs.parts.Spelled.{kept_bytes, FitsIn};

    ghost Value = { Text };

    ghost view = { λ s. kept_bytes s.kept };

    ghost invariant = { λ s. FitsIn s.kept };
}

impl Spelling {
    // A text itself.
    pub fn of(text: Vec<u8>) -> Spelling
        ensures { result ≡ text.items }
    {
        Spelling {
            kept: Kept::Outside(text),
        }
    }

    // A copy of a text.
    pub fn copy_of(alloc: Global, text: &[u8]) -> Result<Spelling, AllocError>
        ensures { IfOk result (λ spelling. spelling ≡ text.now) }
    {
        let kept = if text.len() <= ROOM {
            inside(text)
        } else {
            Kept::Outside(Vec::from_slice(alloc, text)?)
        };
        Ok(Spelling { kept })
    }

    // A text, and then a name after a slash.
    pub fn below(alloc: Global, stem: &[u8], name: &[u8]) -> Result<Spelling, AllocError>
        requires { length stem.now + length name.now < 4096 }
        ensures { IfOk result (λ spelling. spelling ≡ stem.now ++ slash ∷ name.now) }
    {
        let kept = if stem.len() + name.len() < ROOM {
            inside_below(stem, name)
        } else {
            Kept::Outside(extended(alloc, stem, name)?)
        };
        Ok(Spelling { kept })
    }

    pub fn as_slice(&self) -> &[u8]
        ensures { result.now ≡ self.now }
    {
        match &self.kept {
            Kept::Inside(bytes, count) => &bytes[..*count as usize],
            Kept::Outside(bytes) => bytes.as_slice(),
        }
    }
}

// A text, kept in the value.
fn inside(text: &[u8]) -> Kept
    requires { length text.now ≤ 94 }
    ensures kept { kept_bytes result ≡ text.now }
    ensures fits { FitsIn result }
{
    let mut bytes = [0; 94];
    bytes[..text.len()].copy_from_slice(text);
    Kept::Inside(bytes, text.len() as u8)
}

// A text, and then a name after a slash, kept in the value.
fn inside_below(stem: &[u8], name: &[u8]) -> Kept
    requires { length stem.now + length name.now < 94 }
    ensures kept { kept_bytes result ≡ stem.now ++ slash ∷ name.now }
    ensures fits { FitsIn result }
{
    let mut bytes = [0; 94];
    put_below(&mut bytes, stem, name);
    let count = stem.len() + 1 + name.len();
    Kept::Inside(bytes, count as u8)
}

// Puts a text, and then a name after a slash, at the front.
#[inline(always)]
fn put_below(bytes: &mut [u8; 94], stem: &[u8], name: &[u8])
    requires { length stem.now + length name.now < 94 }
    ensures { take (length stem.now + 1 + length name.now) bytes.new ≡ stem.now ++ slash ∷ name.now }
{
    let at = stem.len();
    bytes[..at].copy_from_slice(stem);
    bytes[at] = b'/';
    bytes[at + 1..at + 1 + name.len()].copy_from_slice(name);
}

/// The same in memory of just that size.
pub fn extended(alloc: Global, stem: &[u8], name: &[u8]) -> Result<Vec<u8>, AllocError>
    ensures { IfOk result (λ longer. longer.items ≡ stem.now ++ slash ∷ name.now) }
{
    let mut longer = Vec::with_capacity(alloc, stem.len() + 1 + name.len())?;
    longer.extend_from_slice(stem)?;
    longer.push(b'/')?;
    longer.extend_from_slice(name)?;
    Ok(longer)
}
