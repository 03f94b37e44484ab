// Laws of the definitions.
ghost use Rattle.std.specs.Prelude.{Bool, List, ℕ};
ghost use Rattle.pp_tokens.specs.Lines.{HasOneReading};
ghost use Rattle.pp_tokens.specs.Slices.{EachTokenIsSlice, TokensStandInOrder, OpenCommentIsRest};

/// Each body has exactly one reading.
pub fn one_reading()
    ensures { (trigraphs : Bool) (body : List ℕ) → HasOneReading trigraphs body }
{}

/// Each token is a slice of the text after translation phases 1 and 2, with the physical line of its first byte; the
/// tokens of all lines stand in that text in order, and no two overlap. A comment that never ends is the rest of it.
pub fn tokens_are_slices()
    ensures each { (trigraphs : Bool) (body : List ℕ) → EachTokenIsSlice trigraphs body }
    ensures order { (trigraphs : Bool) (body : List ℕ) → TokensStandInOrder trigraphs body }
    ensures open_comment { (trigraphs : Bool) (body : List ℕ) → OpenCommentIsRest trigraphs body }
{}
