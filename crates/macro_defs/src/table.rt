// A table of macros.
ghost use Rattle.std.specs.Prelude.{◌≡◌, ◌<◌, true, IfOk, OnOk, Some, None};
ghost use Rattle.macro_defs.specs.Table.{one_token, is_always_defined};
ghost use Rattle.macro_defs.specs.parts.NameMarks.{mark_of, has_mark, KeepsMarks};

use crate::key::Key;
use crate::{Definition, Shape};
use base_types::{Bytes, List};
use indexmap::IndexMap;
use pp_tokens::{Kind, Token};
use std::alloc::{AllocError, Global};
use std::marker::Model;

/// The macros that are defined (ISO C 6.10.3.5). Its names stand in the order of their first definitions; a name that was
/// undefined since keeps its place with no definition. A look-up, a definition and an undefinition take constant time on
/// average.
#[derive(Drop)]
pub struct MacroTable {
    entries: IndexMap<Bytes, Option<Definition>>,
    // The marks of all names that were ever put, each at its `mark_of`; none before the first name. Most identifiers of a
    // text name no macro, and an unset mark tells this of most of them without the hashing of a name.
    marks: Vec<bool>,
}

// How many marks a table has once it has a name.
const MARKS: usize = 8192;

// For how many names a table has room before it grows: what most units define with the headers of a C library, and as many as the
// smallest index for 2,048 takes. Room that isn't taken costs no memory page.
const NAMES: usize = 2304;

impl Model for MacroTable {
    ghost use Rattle.macro_defs.specs.Table.{TableEntries, names_ever_defined};
    ghost use Rattle.macro_defs.specs.parts.NameMarks.{AreMarked};

    ghost Value = { TableEntries };

    ghost view = { λ t. t.entries.entries };

    ghost invariant = { λ t. AreMarked t.marks.items (names_ever_defined t.entries.entries) };
}

impl MacroTable {
    ghost use Rattle.std.specs.Prelude.{◌≡◌, length, slice_get, IfOk, OnOk, OnErr, MatchOption, Some, None};
    ghost use Rattle.std.specs.Option.{option_map, option_copied};
    ghost use Rattle.macro_defs.specs.Table.{lookup, names_ever_defined, is_defined_in, with_definition, SetsDefinition, one_token, initial_entries};

    /// The macros that every translation begins with (ISO C 6.10.8.1): `__STDC__`, `__STDC_VERSION__`, `__STDC_HOSTED__`,
    /// `__DATE__` and `__TIME__`, the last two those of the epoch.
    pub fn initial(alloc: Global) -> Result<MacroTable, AllocError>
        ensures { IfOk result (λ t. t ≡ initial_entries) }
    {
        let mut table = MacroTable {
            entries: IndexMap::with_capacity(alloc, NAMES)?,
            marks: Vec::new(alloc),
        };
        table.add(alloc, b"__STDC__", Kind::Number, b"1")?;
        table.add(alloc, b"__STDC_VERSION__", Kind::Number, b"201710L")?;
        table.add(alloc, b"__STDC_HOSTED__", Kind::Number, b"1")?;
        table.add(alloc, b"__DATE__", Kind::Str, b"\"Jan  1 1970\"")?;
        table.add(alloc, b"__TIME__", Kind::Str, b"\"00:00:00\"")?;
        Ok(table)
    }

    // Defines a name as an object-like macro of one token.
    fn add(
        &mut self,
        alloc: Global,
        name: &[u8],
        kind: Kind,
        spelling: &[u8],
    ) -> Result<(), AllocError>
        ensures { OnOk result (self.new ≡ with_definition self.old name.now (one_token kind spelling.now)) }
    {
        let name = Bytes::copy_of(alloc, name)?;
        let definition = one_token_macro(alloc, kind, spelling)?;
        self.put(name, definition)
    }

    // Defines a name.
    fn put(&mut self, name: Bytes, definition: Definition) -> Result<(), AllocError>
        ensures ok { OnOk result (self.new ≡ with_definition self.old name (Some definition)) }
        ensures err { OnErr result (self.new ≡ self.old) }
    {
        set_mark(&mut self.marks, name.as_slice())?;
        match self.entries.insert(name, Some(definition)) {
            Ok(_) => Ok(()),
            Err(_) => Err(AllocError),
        }
    }

    /// Defines a name, whether or not it has a definition. A name that was never defined goes behind all others. After a
    /// refusal the table is as before.
    pub fn define(&mut self, name: Bytes, definition: Definition) -> Result<(), AllocError>
        ensures ok { OnOk result (SetsDefinition self.old name (Some definition) self.new) }
        ensures placed { OnOk result (self.new ≡ with_definition self.old name (Some definition)) }
        ensures err { OnErr result (self.new ≡ self.old) }
    {
        self.put(name, definition)
    }

    /// Takes a name's definition away, if it has one (ISO C 6.10.3.5 paragraph 2). The name keeps its place.
    pub fn undef(&mut self, name: &[u8])
        ensures sets { SetsDefinition self.old name.now None self.new }
        ensures names { names_ever_defined self.new ≡ names_ever_defined self.old }
    {
        if let Some(definition) = self.entries.get_mut(Key { text: name }) {
            clear(definition);
        }
    }

    /// The definition of a name; None exactly where it has none.
    #[inline(always)]
    pub fn get(&self, name: &[u8]) -> Option<&Definition>
        ensures { MatchOption result (lookup self.now name.now ≡ None) (λ d. lookup self.now name.now ≡ Some d.now) }
    {
        if !is_marked(&self.marks, name) {
            return None;
        }
        self.get_hashed(name)
    }

    // The definition of a name, by its hash.
    fn get_hashed(&self, name: &[u8]) -> Option<&Definition>
        ensures { MatchOption result (lookup self.now name.now ≡ None) (λ d. lookup self.now name.now ≡ Some d.now) }
    {
        match self.entries.get(Key { text: name }) {
            Some(definition) => definition.as_ref(),
            None => None,
        }
    }

    /// Whether a name is defined, as `#ifdef`, `#ifndef` and `defined` ask (ISO C 6.10.1): it has a definition, or it is
    /// `__FILE__`, `__LINE__` or `__has_include`, of which `get` knows nothing.
    pub fn is_defined(&self, name: &[u8]) -> bool
        ensures { result ≡ is_defined_in self.now name.now }
    {
        match self.get(name) {
            Some(_definition) => true,
            None => is_always_defined(name),
        }
    }

    /// How many names were ever defined.
    pub fn len(&self) -> usize
        ensures { result ≡ length self.now }
    {
        self.entries.len()
    }

    /// The name at a place, in the order of the first definitions, with its definition, or None where it was undefined
    /// since; None past the last name.
    pub fn entry_at(&self, place: usize) -> Option<(&[u8], Option<&Definition>)>
        ensures { option_map (λ e. (e.0.now, option_copied e.1)) result ≡ slice_get self.now place }
    {
        let (name, definition) = self.entries.get_index(place)?;
        Some((name.as_slice(), definition.as_ref()))
    }
}

// Takes a definition away.
fn clear(definition: &mut Option<Definition>)
    ensures { definition.new ≡ None }
{
    *definition = None;
}

// Sets a name's mark; the first call makes the marks.
fn set_mark(marks: &mut Vec<bool>, name: &[u8]) -> Result<(), AllocError>
    ensures set { OnOk result (has_mark marks.new.items name.now ≡ true) }
    ensures keeps { KeepsMarks marks.old.items marks.new.items }
{
    if marks.len() < MARKS {
        marks.resize(MARKS, false)?;
    }
    marks[mark_of(name)] = true;
    Ok(())
}

// Whether a name's mark is set.
#[inline(always)]
fn is_marked(marks: &[bool], name: &[u8]) -> bool
    ensures { result ≡ has_mark marks.now name.now }
{
    let place = mark_of(name);
    place < marks.len() && marks[place]
}

// The place of a name's mark, by its length and its first, last and middle byte.
#[inline(always)]
#[tactic(auto, unfolding(crate::specs::parts::NameMarks::mark_of))]
fn mark_of(name: &[u8]) -> usize
    ensures place { result ≡ mark_of name.now }
    ensures within { result < 8192 }
{
    let len = name.len();
    if len == 0 {
        return 0;
    }
    let first = name[0] as usize;
    let last = name[len - 1] as usize;
    let middle = name[len / 2] as usize;
    (7 * first + 67 * last + 1021 * middle + 331 * len.min(255)) % MARKS
}

// Whether a name is defined in every table.
fn is_always_defined(name: &[u8]) -> bool
    ensures { result ≡ is_always_defined name.now }
{
    name == b"__FILE__".as_slice()
        || name == b"__LINE__".as_slice()
        || name == b"__has_include".as_slice()
}

// An object-like macro of one token, written behind white space.
fn one_token_macro(alloc: Global, kind: Kind, spelling: &[u8]) -> Result<Definition, AllocError>
    ensures { IfOk result (λ d. Some d ≡ one_token kind spelling.now) }
{
    let text = Bytes::copy_of(alloc, spelling)?;
    let mut body = List::new(alloc);
    body.push(Token {
        kind,
        text,
        line: 0,
        space: true,
    })?;
    Definition::new(alloc, Shape::Object, body)
}
