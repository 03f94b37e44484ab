// Whether a header name is due behind the tokens of a logical line so far (ISO C 6.4.7, 6.10.1, 6.10.2).
ghost use Rattle.std.specs.Prelude.{◌≡◌, bytes_eq};
ghost use Rattle.pp_tokens.specs.Lines.{spells_hash};
ghost use Rattle.pp_tokens.specs.parts.Text.{after_word, is_due};

/// What stands on a logical line so far.
#[derive(Clone, Copy, Debug, PartialEq, Eq, Drop)]
pub enum Before {
    /// No token.
    Nothing,
    /// `#` or `%:` alone.
    Hash,
    /// That and `include` or `include_next`.
    Include,
    /// An `if` or `elif` directive.
    Condition,
    /// One that ends with `__has_include`.
    Probe,
    /// One that ends with `__has_include (`.
    Probed,
    /// Anything else.
    Other,
}

#[inline(always)]
pub fn is_due(before: Before) -> bool
    ensures { result ≡ is_due before }
{
    match before {
        Before::Include | Before::Probed => true,
        _ => false,
    }
}

#[tactic(auto, unfolding(crate::specs::parts::Text::after_word))]
/// What stands there with one more token, of this spelling.
#[inline(always)]
pub fn after_word(before: Before, word: &[u8]) -> Before
    ensures { result ≡ after_word before word.now }
{
    match before {
        Before::Other => Before::Other,
        Before::Nothing => after_nothing(word),
        Before::Condition => after_condition(word),
        _ => after_hashed(before, word),
    }
}

// The same in what may be a directive.
#[inline(never)]
#[tactic(auto, unfolding(crate::specs::parts::Text::after_word))]
fn after_hashed(before: Before, word: &[u8]) -> Before
    ensures { result ≡ after_word before word.now }
{
    match before {
        Before::Nothing => after_nothing(word),
        Before::Hash => after_hash(word),
        Before::Include => Before::Other,
        Before::Condition => after_condition(word),
        Before::Probe => {
            if spells(word, b"(") {
                Before::Probed
            } else {
                after_condition(word)
            }
        }
        Before::Probed => after_condition(word),
        Before::Other => Before::Other,
    }
}

/// Whether a word is `#` or its digraph (ISO C 6.4.6).
#[inline(always)]
pub fn spells_hash(word: &[u8]) -> bool
    ensures { result ≡ spells_hash word.now }
{
    match word {
        [b'#'] | [b'%', b':'] => true,
        _ => false,
    }
}

#[tactic(auto, unfolding(crate::specs::parts::Text::after_word))]
#[inline(always)]
fn after_nothing(word: &[u8]) -> Before
    ensures { result ≡ after_word Before.Nothing word.now }
{
    if spells_hash(word) {
        Before::Hash
    } else {
        Before::Other
    }
}

/// Whether a word is this one. Most words aren't even as long.
#[inline(always)]
pub fn spells(word: &[u8], wanted: &[u8]) -> bool
    ensures { result ≡ bytes_eq word.now wanted.now }
{
    word.len() == wanted.len() && word == wanted
}

#[tactic(auto, unfolding(crate::specs::parts::Text::after_word))]
fn after_hash(word: &[u8]) -> Before
    ensures { result ≡ after_word Before.Hash word.now }
{
    if spells(word, b"include") || spells(word, b"include_next") {
        Before::Include
    } else if spells(word, b"if") || spells(word, b"elif") {
        Before::Condition
    } else {
        Before::Other
    }
}

#[tactic(auto, unfolding(crate::specs::parts::Text::after_word))]
#[inline(always)]
fn after_condition(word: &[u8]) -> Before
    ensures { result ≡ after_word Before.Condition word.now }
{
    if spells(word, b"__has_include") {
        Before::Probe
    } else {
        Before::Condition
    }
}
