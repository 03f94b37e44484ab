// Macros of the compile words.
use base_types::Bytes;
use macro_defs::Definition;

/// What a `-D` or a `-U` says: a name gets a definition, or loses the one that it has.
#[derive(PartialEq, Eq, Drop)]
pub enum MacroWord {
    Define(Bytes, Definition),
    Undef(Bytes),
}
