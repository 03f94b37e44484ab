// Sets of definitions, by name.
ghost use Rattle.std.specs.Prelude.{◌≡◌, ◌↔◌, IsTrue, Contains, OnOk, OnErr, None, bytes_eq};
ghost use Rattle.std.specs.Map.{lookup as value_of};
ghost use Rattle.symbolic_expand.specs.parts.Stored.{with_more, seen};

use crate::texts::key_of;
use indexmap::IndexMap;
use macro_defs::{Definition, MacroTable};
use std::alloc::{AllocError, Global};
use std::marker::Model;

/// The distinct definitions that each name may have. A look-up takes constant time on average, and so does an addition to a name
/// with few definitions: it compares them one by one.
#[derive(Drop)]
pub struct DefSets {
    names: IndexMap<Vec<u8>, Vec<Definition>>,
}

impl Model for DefSets {
    ghost use Rattle.macro_expand.specs.Choice.{IsDistinct};
    ghost use Rattle.symbolic_expand.specs.Defined.{Defined, sets_of};
    ghost use Rattle.symbolic_expand.specs.parts.Stored.{seen};

    ghost Value = { Defined };

    ghost view = { λ s. seen s.names.entries };

    ghost invariant = { λ s. IsDistinct (sets_of (seen s.names.entries)) };
}

impl DefSets {
    ghost use Rattle.std.specs.Prelude.{◌≡◌, ℕ, ◌+◌, List, [], IfOk, OnOk, OnErr};
    ghost use Rattle.std.specs.Option.{option_to_list};
    ghost use Rattle.macro_defs.specs.Table.{lookup};
    ghost use Rattle.macro_expand.specs.Choice.{IsDistinct, AreAmong};
    ghost use Rattle.symbolic_expand.specs.Defined.{AddsDefinition, sets_of};
    ghost use Rattle.symbolic_expand.specs.parts.Stored.{HasBefore};

    /// Sets in which no name has a definition.
    pub fn new(alloc: Global) -> DefSets
        ensures { result ≡ [] }
    {
        DefSets {
            names: IndexMap::new(alloc),
        }
    }

    /// The definitions that a table has: one for each name that is defined there.
    pub fn of_table(alloc: Global, table: &MacroTable) -> Result<DefSets, AllocError>
        ensures { IfOk result (λ sets. (name : List ℕ) → sets_of sets name ≡ option_to_list (lookup table.now name)) }
    {
        let mut sets = DefSets::new(alloc);
        for place in 0..table.len() {
            sets.add_name_at(alloc, table, place)?;
        }
        Ok(sets)
    }

    // Adds the definition of the name at a place of a table, if it has one.
    fn add_name_at(
        &mut self,
        alloc: Global,
        table: &MacroTable,
        place: usize,
    ) -> Result<(), AllocError>
        requires { HasBefore table.now place self.old }
        ensures { OnOk result (HasBefore table.now (place + 1) self.new) }
    {
        let Some((name, _)) = table.entry_at(place) else {
            return Ok(());
        };
        if let Some(definition) = table.get(name) {
            match self.add(alloc, name, definition) {
                Ok(_) => return Ok(()),
                Err(e) => return Err(e),
            }
        }
        Ok(())
    }

    /// Adds a definition of a name, and answers whether the name didn't have it. Two definitions are the same where their forms and
    /// the kinds, spellings and white space of their tokens are (ISO C 6.10.3 paragraphs 1 and 2). After a refusal, which is want of
    /// memory, the sets are as before.
    pub fn add(
        &mut self,
        alloc: Global,
        name: &[u8],
        definition: &Definition,
    ) -> Result<bool, AllocError>
        ensures ok { IfOk result (λ added. AddsDefinition self.old name.now definition.now added self.new) }
        ensures err { OnErr result (self.new ≡ self.old) }
        ensures grows { AreAmong (sets_of self.old) (sets_of self.new) }
    {
        if has(self.get(name), definition) {
            return Ok(false);
        }
        let copy = definition.copy(alloc)?;
        match add_to(alloc, &mut self.names, name, copy) {
            Ok(()) => return Ok(true),
            Err(e) => return Err(e),
        }
    }

    /// The definitions of a name, in the order in which they were added. Of no name is one there twice.
    pub fn get(&self, name: &[u8]) -> &[Definition]
        ensures same { result.now ≡ sets_of self.now name.now }
        ensures distinct { IsDistinct (sets_of self.now) }
    {
        match self.names.get(name) {
            Some(definitions) => definitions.as_slice(),
            None => &[],
        }
    }

    // What `get` says of all names.
    pub(crate) fn see_distinct(&self)
        ensures { IsDistinct (sets_of self.now) }
    {
        let _ = &self.names;
    }
}

// Whether a definition is one of these.
fn has(definitions: &[Definition], definition: &Definition) -> bool
    ensures { IsTrue result ↔ Contains definitions.now definition.now }
{
    definitions.contains(definition)
}

// Adds a definition behind those of a name.
fn add_to(
    alloc: Global,
    names: &mut IndexMap<Vec<u8>, Vec<Definition>>,
    name: &[u8],
    definition: Definition,
) -> Result<(), AllocError>
    ensures ok { OnOk result (seen names.new.entries ≡ with_more (seen names.old.entries) name.now definition) }
    ensures err { OnErr result (seen names.new.entries ≡ seen names.old.entries) }
{
    if let Some(definitions) = names.get_mut(name) {
        match definitions.push(definition) {
            Ok(()) => return Ok(()),
            Err(_) => return Err(AllocError),
        }
    }
    add_first(alloc, names, name, definition)
}

// Adds a name with one definition.
fn add_first(
    alloc: Global,
    names: &mut IndexMap<Vec<u8>, Vec<Definition>>,
    name: &[u8],
    definition: Definition,
) -> Result<(), AllocError>
    requires { value_of (λ k. bytes_eq name.now k.items) names.old.entries ≡ None }
    ensures ok { OnOk result (seen names.new.entries ≡ with_more (seen names.old.entries) name.now definition) }
    ensures err { OnErr result (seen names.new.entries ≡ seen names.old.entries) }
{
    let key = key_of(alloc, name)?;
    let mut definitions = Vec::new(alloc);
    match definitions.push(definition) {
        Ok(()) => {}
        Err(_) => return Err(AllocError),
    }
    match names.insert(key, definitions) {
        Ok(_) => return Ok(()),
        Err(_) => return Err(AllocError),
    }
}
