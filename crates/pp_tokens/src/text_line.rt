// Where a line ends of which no token more is kept: a line of text (ISO C 6.10 paragraph 2), or a directive that asks for no
// file. So only what may end a line or hide a
// newline is read as a part: literals and comments. All other bytes are stepped over one by one, wherever tokens begin.
ghost use Rattle.std.specs.Prelude.{◌≡◌, ℕ, ◌+◌, ◌≤◌, ◌<◌, true, false, not, length, take, drop, get_or, take_while, IsTrue, IfSome};
ghost use Rattle.base_types.specs.Limits.{body_limit};
ghost use Rattle.pp_tokens.specs.DirectiveLines.{may_tell};
ghost use Rattle.pp_tokens.specs.Grammar.{is_white};
ghost use Rattle.pp_tokens.specs.Lined.{spliced_up_to, Rising};
ghost use Rattle.pp_tokens.specs.Lines.{Part, token, first_part, spells_hash};
ghost use Rattle.pp_tokens.specs.declared.token.Kind.TheVariants.{Punct};
ghost use Rattle.pp_tokens.specs.parts.TextLines.{is_ordinary, is_token_part, begins_line, begins_name, asks_nothing, begins_text, is_cut, begins_idle, IsIdleName, IsIdleBehind, IsIdleFrom, EndsText};
ghost use Rattle.pp_tokens.specs.parts.Text.{part_told};
ghost use Rattle.pp_tokens.specs.parts.Unpaired.{KnowsUnpaired};

use crate::class::{is_identifier_start, is_second, is_white};
use crate::due::{Before, spells, spells_hash};
use crate::lexer::{newlines, splices_passed, stretch, white_end};
use crate::marks::byte_at;
use crate::part::{What, next_part};
use crate::quoted::plain_word;
use crate::run::{Ordinary, run_length};
use crate::unpaired::Unpaired;

/// Where the line behind such a line begins, the physical line of that place without its splices, and the physical line
/// of a comment that begins on the line and never ends.
#[derive(Clone, Copy, Drop)]
pub struct LineEnd {
    pub at: usize,
    pub base: usize,
    pub comment: Option<u32>,
}

fn is_token(what: What) -> bool
    ensures { result ≡ is_token_part (part_told what) }
{
    matches!(what, What::Token(_))
}

/// Whether no token stands on the line so far.
pub fn begins_line(before: Before) -> bool
    ensures { result ≡ begins_line before }
{
    matches!(before, Before::Nothing)
}

/// Whether a line has its `#` alone so far.
pub fn begins_name(before: Before) -> bool
    ensures { result ≡ begins_name before }
{
    matches!(before, Before::Hash)
}

/// Whether a line asks for no file, whatever else stands on it.
pub fn asks_nothing(before: Before) -> bool
    ensures { result ≡ asks_nothing before }
{
    matches!(before, Before::Other)
}

/// Whether a `#` stands at a place, with no byte behind it that may go on with a punctuator. So most directives begin.
#[inline(always)]
pub fn is_lone_hash(text: &[u8], at: usize) -> bool
    requires { at < length text.now }
    ensures part { IsTrue result → ◌≡◌ {A = Part × ℕ} (first_part false (drop at text.now)) (token Punct, 1) }
    ensures hash { IsTrue result → IsTrue (spells_hash (take 1 (drop at text.now))) }
{
    text[at] == b'#' && !is_second(byte_at(text, at + 1))
}

/// Whether no directive of this name asks for a file (ISO C 6.10.1, 6.10.2), or changes the presumed name of its own (6.10.4).
#[inline(always)]
pub fn is_idle(name: &[u8]) -> bool
    ensures { result ≡ not (may_tell name.now) }
{
    let asks = (spells(name, b"include") || spells(name, b"include_next"))
        || (spells(name, b"if") || spells(name, b"elif"));
    !(asks || spells(name, b"line"))
}

/// Whether nothing is kept of a line of which this was told before a word and behind it.
#[inline(always)]
pub fn is_cut(whole: bool, before: Before, after: Before, word: &[u8]) -> bool
    ensures { result ≡ is_cut whole before after word.now }
{
    !whole && begins_name(before) && asks_nothing(after) && is_idle(word)
}

// Whether these two bytes tell of a name that begins with them that it is idle. They do of most: the others are `include`, `if`, `elif` and `line`.
#[inline(always)]
fn begins_idle(first: u8, second: u8) -> bool
    ensures { result ≡ begins_idle first second }
{
    !(first == b'i' || (first == b'l' || (first == b'e' && second == b'l')))
}

// Whether such a name stands at a place. It isn't told where a quote behind one of those others may make it part of a literal.
#[inline(always)]
fn is_idle_name(text: &[u8], at: usize) -> bool
    requires { at ≤ length text.now }
    ensures { IsTrue result → IsIdleName text.now at }
{
    if at >= text.len() || !is_identifier_start(text[at]) {
        return false;
    }
    if begins_idle(text[at], byte_at(text, at + 1)) {
        return true;
    }
    let size = plain_word(text, at);
    size > 0 && is_idle(stretch(text, at, size))
}

// Where such a name stands behind white space that may stand at a place; None where another may stand there.
#[inline(always)]
fn idle_name(text: &[u8], from: usize) -> Option<usize>
    requires { from ≤ length text.now }
    ensures { IfSome result (λ name. IsIdleBehind text.now from name) }
{
    let name = white_space_end(text, from);
    if is_idle_name(text, name) {
        return Some(name);
    }
    None
}

/// From where on nothing is kept of a line, where a look at its first token tells that: at an identifier text begins, and behind a lone
/// `#` may be an idle name. So nearly all lines begin.
#[inline(always)]
pub fn idle_from(text: &[u8], at: usize, whole: bool) -> Option<usize>
    requires { at < length text.now }
    ensures { IfSome result (λ from. IsIdleFrom whole text.now at from) }
{
    if is_identifier_start(text[at]) {
        return Some(at);
    }
    if !whole && is_lone_hash(text, at) {
        return idle_name(text, at + 1);
    }
    None
}

// Where white space ends that may stand at a place.
#[inline(always)]
fn white_space_end(text: &[u8], from: usize) -> usize
    requires { from ≤ length text.now }
    ensures later { from ≤ result }
    ensures within { result ≤ length text.now }
    ensures white { (i : ℕ) → from ≤ i → i < result → is_white (get_or text.now i 0) ≡ true }
{
    if from < text.len() && is_white(text[from]) {
        white_end(text, from)
    } else {
        from
    }
}

/// Whether a part is the first token of a line of text.
pub fn begins_text(before: Before, what: What, word: &[u8]) -> bool
    ensures { result ≡ begins_text before (part_told what) word.now }
{
    begins_line(before) && is_token(what) && !spells_hash(word)
}

// How many bytes from a place on end no line and belong to no comment and no literal.
fn ordinary_at(text: &[u8], at: usize) -> usize
    requires { at ≤ length text.now }
    ensures run { result ≡ length (take_while is_ordinary (drop at text.now)) }
    ensures within { at + result ≤ length text.now }
{
    let (_, rest) = text.split_at(at);
    run_length::<Ordinary>(rest)
}

/// The end of a line, from a place on where no header name is due on it, with the physical line of that place and the splices
/// that are known to stand before it. Most lines end where they have no ordinary byte more.
#[inline(always)]
pub fn line_end(
    text: &[u8],
    splices: &[u32],
    from: usize,
    line: usize,
    passed: usize,
    unpaired: &mut Unpaired,
) -> LineEnd
    requires small { length text.now + length splices.now ≤ body_limit + 1 }
    requires rising { Rising 0 splices.now }
    requires within { from ≤ length text.now }
    requires counted { line ≤ from + 1 }
    requires passed { passed ≤ spliced_up_to splices.now from }
    requires known { KnowsUnpaired unpaired.old text.now from }
    ensures end { EndsText text.now splices.now from line result }
    ensures known { KnowsUnpaired unpaired.new text.now result.at }
{
    let run = ordinary_at(text, from);
    let at = from + run;
    if at < text.len() && text[at] == b'\n' {
        return LineEnd {
            at: at + 1,
            base: line + 1,
            comment: None,
        };
    }
    far_end(text, splices, at, line, passed, unpaired)
}

// The same where other parts may stand before it.
#[inline(never)]
fn far_end(
    text: &[u8],
    splices: &[u32],
    from: usize,
    line: usize,
    passed: usize,
    unpaired: &mut Unpaired,
) -> LineEnd
    requires small { length text.now + length splices.now ≤ body_limit + 1 }
    requires rising { Rising 0 splices.now }
    requires within { from ≤ length text.now }
    requires counted { line ≤ from + 1 }
    requires passed { passed ≤ spliced_up_to splices.now from }
    requires known { KnowsUnpaired unpaired.old text.now from }
    ensures end { EndsText text.now splices.now from line result }
    ensures known { KnowsUnpaired unpaired.new text.now result.at }
{
    let mut at = from;
    let mut base = line;
    while at < text.len() {
        let run = ordinary_at(text, at);
        if run > 0 {
            at += run;
            // Most runs end with the line.
            if at < text.len() && text[at] == b'\n' {
                return LineEnd {
                    at: at + 1,
                    base: base + 1,
                    comment: None,
                };
            }
        } else {
            let (what, size) = next_part(text, at, false, unpaired);
            let end = at + size;
            match what {
                What::Newline => {
                    return LineEnd {
                        at: end,
                        base: base + 1,
                        comment: None,
                    };
                }
                What::OpenComment => {
                    let line = base + splices_passed(splices, passed, at);
                    return LineEnd {
                        at: end,
                        base,
                        comment: Some(line as u32),
                    };
                }
                What::White | What::Comment | What::Token(_) => {
                    base += newlines(what, stretch(text, at, size));
                    at = end;
                }
            }
        }
    }
    LineEnd {
        at,
        base,
        comment: None,
    }
}
