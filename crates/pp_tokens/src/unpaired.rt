// Quotes and delimiters that have no partner on their line.
ghost use Rattle.std.specs.Prelude.{ℕ, List};
ghost use Rattle.pp_tokens.specs.parts.Unpaired.{KnowsUnpaired};

/// Up to which places of a text it is known that its quotes and the delimiters of its header names have no partner on
/// their line. Where a line has none for one of them, it has none for those behind it, so each line is looked through
/// once for each kind, whatever stands on it.
#[derive(Clone, Copy, Debug, Drop)]
pub struct Unpaired {
    /// `"` as a string's.
    pub strings: usize,
    /// `'`.
    pub characters: usize,
    /// `<` as a header name's.
    pub angles: usize,
    /// `"` as a header name's.
    pub quotes: usize,
}

impl Unpaired {
    /// Nothing is known yet.
    pub fn new() -> Self
        ensures { (text : List ℕ) (at : ℕ) → KnowsUnpaired result text at }
    {
        Unpaired {
            strings: 0,
            characters: 0,
            angles: 0,
            quotes: 0,
        }
    }
}
