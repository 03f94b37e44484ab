// The lexer: a body's logical lines of tokens (ISO C 5.1.1.2, phases 1 to 3; `lexed` in specs/Lines.antt).
//
// `source.rt` makes a text of the body without trigraphs and splices, with the places of the splices. `gather` cuts this text into parts,
// each the longest that may stand there (6.4 paragraph 4): newlines, gaps and tokens. Of a token its place is kept, in 12 bytes, with those of
// all lines in one list; its spelling is a slice of the text, and its line is found by the newlines and splices before it. No token takes
// memory of its own, and time is linear in the body, since a quote or a delimiter without a partner is looked for once a line
// (`unpaired.rt`). What holds between two parts stands in specs/parts/Gathered.antt.
//
// `gather_directives` keeps the tokens of directives alone (6.10 paragraph 2), of all or of those that may ask for a file
// (`kept_alone` in specs/DirectiveLines.antt). It goes as `gather` does up to the first token of a line of text, or the name of a
// directive that isn't kept, and from there to the end of that line by `text_line.rt`, which passes over its tokens. Such a name is looked
// for where the line's `#` stands, so that no token of most such lines is made. What is left of a file from there on stands in
// specs/parts/TextLines.antt.
ghost use Rattle.std.specs.Prelude.{◌≡◌, ◌≤◌, ◌<◌, ◌+◌, ◌-◌, ◌∷◌, ℕ, true, [], None, zero, length, take, drop, get_or, IfOk, slice_get, option_map, option_and_then, take_while};
ghost use Rattle.std.specs.List.{flat_map};
ghost use Rattle.std.specs.Option.{option_map_or};
ghost use Rattle.base_types.specs.Limits.{body_limit};
ghost use Rattle.pp_tokens.specs.parts.Gathered.{newlines, GathersNothing, EndsLine, AddsToken, AddsGap, EndsLastLine, EndsTextLine, DropsLine, IsGathered, IsPart, Gathers, PutsFirst};
ghost use Rattle.pp_tokens.specs.Grammar.{is_white};
ghost use Rattle.pp_tokens.specs.Lined.{lined, spliced_up_to, Rising};
ghost use Rattle.pp_tokens.specs.Lines.{all_tokens, elements, file_of, first_part, lexed};
ghost use Rattle.pp_tokens.specs.DirectiveLines.{kept_alone, directives_alone, asking_alone};
ghost use Rattle.pp_tokens.specs.parts.Packed.{place_told};
ghost use Rattle.pp_tokens.specs.parts.Seen.{seen_file, token_of_place};
ghost use Rattle.pp_tokens.specs.parts.Text.{is_due, part_told};
ghost use Rattle.pp_tokens.specs.parts.Unpaired.{KnowsUnpaired};
ghost use Rattle.pp_tokens.specs.Tokens.{token_seen};

use crate::class::{is_identifier_start, is_text_mark, is_white};
use crate::due::{Before, after_word, is_due};
use crate::excerpt::Excerpt;
use crate::part::{What, next_part};
use crate::place::Place;
use crate::quoted::word_at;
use crate::source::{SourceText, read_source};
use crate::text_line::{begins_line, begins_text, idle_from, is_cut, is_lone_hash, line_end};
use crate::token::{Kind, TokenRef};
use crate::unpaired::Unpaired;
use std::alloc::{AllocError, Global};
use std::marker::Model;

/// The tokens of a file, in logical lines, counted from 0. The spellings are slices of one text, and the tokens of
/// all lines stand one after another.
#[derive(Drop)]
pub struct Lexed {
    text: Vec<u8>,
    places: Vec<Place>,
    ends: Vec<u32>,
    unended: Option<u32>,
}

impl Model for Lexed {
    ghost use Rattle.pp_tokens.specs.Lines.{LexedFile};
    ghost use Rattle.pp_tokens.specs.parts.Seen.{seen_file, Ascends, EachWithin};
    ghost use Rattle.std.specs.Prelude.{length};

    ghost Value = { LexedFile };

    ghost view = { λ l. seen_file l.text.items l.places.items l.ends.items l.unended };

    ghost invariant = { λ l. Ascends 0 l.ends.items (length l.places.items) × EachWithin l.text.items l.places.items };
}

/// `size` bytes of a text, from a place on.
#[inline(always)]
pub fn stretch(text: &[u8], at: usize, size: usize) -> &[u8]
    requires { at + size ≤ length text.now }
    ensures { result.now ≡ take size (drop at text.now) }
{
    let (_, rest) = text.split_at(at);
    let (part, _) = rest.split_at(size);
    part
}

// What is gathered of a text's logical lines so far: its finished lines as `Lexed` has them, and of the line that
// isn't finished what stands on it, whether anything does, and whether white space stands before the next token.
#[derive(Drop)]
struct Gathering {
    places: Vec<Place>,
    ends: Vec<u32>,
    unended: Option<u32>,
    before: Before,
    begun: bool,
    space: bool,
}

impl Gathering {
    // Nothing, with room for so many tokens and lines. Room that isn't taken costs no memory page.
    fn with_room(alloc: Global, tokens: usize, lines: usize) -> Result<Gathering, AllocError>
        ensures { IfOk result (λ g. GathersNothing g) }
    {
        Ok(Gathering {
            places: Vec::with_capacity(alloc, tokens)?,
            ends: Vec::with_capacity(alloc, lines)?,
            unended: None,
            before: Before::Nothing,
            begun: false,
            space: true,
        })
    }

    #[inline(always)]
    fn end_line(&mut self) -> Result<(), AllocError>
        requires { length self.old.places.items ≤ body_limit + 1 }
        ensures { IfOk result (λ u. EndsLine self.old self.new) }
    {
        self.ends.push(self.places.len() as u32)?;
        self.before = Before::Nothing;
        self.begun = false;
        self.space = true;
        Ok(())
    }

    #[inline(always)]
    fn add_token(&mut self, place: Place, spelling: &[u8]) -> Result<(), AllocError>
        ensures { IfOk result (λ u. AddsToken self.old self.new place spelling.now) }
    {
        self.places.push(place)?;
        self.before = after_word(self.before, spelling);
        self.begun = true;
        self.space = false;
        Ok(())
    }

    // White space, or a comment that ends.
    #[inline(always)]
    fn add_white(&mut self)
        ensures { AddsGap self.old self.new None }
    {
        self.begun = true;
        self.space = true;
    }

    // White space or a comment, with its line where it is one that never ends.
    #[inline(always)]
    fn add_gap(&mut self, unended: Option<u32>)
        ensures { AddsGap self.old self.new unended }
    {
        if self.unended.is_none() {
            self.unended = unended;
        }
        self.begun = true;
        self.space = true;
    }

    // One part more of the text, from a place on, and its line.
    #[inline(always)]
    fn add(
        &mut self,
        text: &[u8],
        what: What,
        at: usize,
        size: usize,
        line: u32,
    ) -> Result<(), AllocError>
        requires small { length text.now ≤ body_limit + 1 }
        requires within { at + size ≤ length text.now }
        requires some { 0 < size }
        requires part { IsPart (part_told what) (take size (drop at text.now)) }
        requires short { size ≤ body_limit + newlines (take size (drop at text.now)) }
        requires few { length self.old.places.items ≤ at }
        requires gathered { IsGathered text.now self.old }
        ensures { IfOk result (λ u. Gathers text.now self.old self.new (part_told what) (take size (drop at text.now)) line) }
    {
        match what {
            What::Newline => self.end_line(),
            What::Token(kind) => {
                let place = Place::new(at, size, line, kind, self.space);
                self.add_token(place, stretch(text, at, size))
            }
            What::White | What::Comment => {
                self.add_white();
                Ok(())
            }
            What::OpenComment => {
                self.add_gap(Some(line));
                Ok(())
            }
        }
    }

    // Nothing is kept of the present line.
    fn drop_line(&mut self)
        ensures { DropsLine self.old self.new }
    {
        match self.ends.last() {
            Some(end) => self.places.truncate(*end as usize),
            None => self.places.truncate(0),
        }
    }

    // A line of text is finished, with the line of a comment on it that never ends.
    fn end_text(&mut self, comment: Option<u32>) -> Result<(), AllocError>
        requires { length self.old.places.items ≤ body_limit + 1 }
        ensures { IfOk result (λ u. EndsTextLine self.old self.new comment) }
    {
        self.add_gap(comment);
        self.end_line()
    }

    // The last line needs no newline.
    fn end_last_line(&mut self) -> Result<(), AllocError>
        requires { length self.old.places.items ≤ body_limit + 1 }
        ensures { IfOk result (λ u. EndsLastLine self.old self.new) }
    {
        if self.begun { self.end_line() } else { Ok(()) }
    }
}

/// How many splices stand at a place or before it, where at least `passed` are known to.
#[inline(always)]
pub fn splices_passed(splices: &[u32], passed: usize, at: usize) -> usize
    requires rising { Rising 0 splices.now }
    requires passed { passed ≤ spliced_up_to splices.now at }
    ensures { result ≡ spliced_up_to splices.now at }
{
    let mut count = passed;
    while count < splices.len() && splices[count] as usize <= at {
        count += 1;
    }
    count
}

/// Where the white space ends that stands at a place.
#[inline(always)]
pub fn white_end(text: &[u8], at: usize) -> usize
    requires within { at < length text.now }
    requires white { is_white (get_or text.now at 0) ≡ true }
    ensures later { at < result }
    ensures within { result ≤ length text.now }
    ensures white { (i : ℕ) → at ≤ i → i < result → is_white (get_or text.now i 0) ≡ true }
{
    let mut end = at + 1;
    while end < text.len() && is_white(text[end]) {
        end += 1;
    }
    end
}

// How many bytes a text has in which a byte counts the newlines.
const SHORT: usize = 255;

// How many newlines stand in a short text: so few that a byte counts them, and the processor counts many bytes at once.
#[inline(always)]
fn newlines_in_short(part: &[u8]) -> u8
    requires { length part.now ≤ 255 }
    ensures { result ≡ newlines part.now }
{
    let mut count = 0u8;
    for byte in part {
        if *byte == b'\n' {
            count += 1;
        }
    }
    count
}

// How many newlines stand in a text.
#[inline(never)]
fn newlines_within(part: &[u8]) -> usize
    ensures { result ≡ newlines part.now }
{
    let mut count = 0usize;
    let mut at = 0usize;
    while at < part.len() {
        let (_, rest) = part.split_at(at);
        let (short, _) = rest.split_at(rest.len().min(SHORT));
        count += newlines_in_short(short) as usize;
        at += short.len();
    }
    count
}

/// How many newlines a part has: a newline is one, and of the others only a comment may have any.
#[inline(always)]
pub fn newlines(what: What, part: &[u8]) -> usize
    requires part { IsPart (part_told what) part.now }
    ensures { result ≡ newlines part.now }
{
    match what {
        What::Newline => 1,
        What::Comment | What::OpenComment => newlines_within(part),
        What::White | What::Token(_) => 0,
    }
}

// Gathers a part that stands at a place, on a line: the place behind it, and the line there without splices, where `base` is that of the place.
#[inline(always)]
fn put_part(
    gathering: &mut Gathering,
    text: &[u8],
    at: usize,
    base: usize,
    line: u32,
    part: (What, usize),
) -> Result<(usize, usize), AllocError>
    requires small { length text.now ≤ body_limit + 1 }
    requires short { length text.now ≤ body_limit + newlines text.now }
    requires at { at < length text.now }
    requires base { base ≤ at + 1 }
    requires few { length gathering.old.places.items ≤ at }
    requires gathered { IsGathered text.now gathering.old }
    requires part { (part_told part.0, part.1) ≡ first_part (is_due gathering.old.before) (drop at text.now) }
    ensures { IfOk result (PutsFirst text.now gathering.old gathering.new at base line) }
{
    let (what, size) = part;
    gathering.add(text, what, at, size, line)?;
    Ok((at + size, base + newlines(what, stretch(text, at, size))))
}

// Gathers what stands first from a place on, as `put_part` does. Most parts are words, and punctuators of one byte: they go by a shorter way.
#[inline(always)]
fn put_first(
    gathering: &mut Gathering,
    text: &[u8],
    at: usize,
    base: usize,
    passed: usize,
    unpaired: &mut Unpaired,
) -> Result<(usize, usize), AllocError>
    requires small { length text.now ≤ body_limit + 1 }
    requires short { length text.now ≤ body_limit + newlines text.now }
    requires at { at < length text.now }
    requires base { base ≤ at + 1 }
    requires passed { base + passed ≤ body_limit + 2 }
    requires few { length gathering.old.places.items ≤ at }
    requires gathered { IsGathered text.now gathering.old }
    requires known { KnowsUnpaired unpaired.old text.now at }
    ensures puts { IfOk result (PutsFirst text.now gathering.old gathering.new at base (base + passed)) }
    ensures known { KnowsUnpaired unpaired.new text.now at }
{
    let line = (base + passed) as u32;
    if is_identifier_start(text[at]) {
        let word = word_at(text, at, unpaired);
        put_part(gathering, text, at, base, line, word)
    } else if is_text_mark(text[at]) {
        put_part(
            gathering,
            text,
            at,
            base,
            line,
            (What::Token(Kind::Punct), 1),
        )
    } else {
        let part = next_part(text, at, is_due(gathering.before), unpaired);
        put_part(gathering, text, at, base, line, part)
    }
}

// What is gathered of a whole text.
#[inline(never)]
fn gather(alloc: Global, text: &[u8], splices: &[u32]) -> Result<Gathering, AllocError>
    requires small { length text.now + length splices.now ≤ body_limit + 1 }
    requires short { length text.now ≤ body_limit + newlines text.now }
    requires rising { Rising 0 splices.now }
    ensures file { IfOk result (λ g. seen_file text.now g.places.items g.ends.items g.unended ≡ file_of (elements zero [] (lined splices.now 0 1 text.now))) }
    ensures gathered { IfOk result (λ g. IsGathered text.now g) }
{
    // In C a token and the gap behind it are some five bytes, and a line thirty.
    let mut gathering = Gathering::with_room(alloc, text.len() / 5, text.len() / 30)?;
    let mut unpaired = Unpaired::new();
    // The line of a place is `base`, one more than the newlines before it, and the splices up to it.
    // Newlines and white space, a third of what stands in a text, go before all else.
    let mut base = 1usize;
    let mut passed = 0usize;
    let mut at = 0usize;
    while at < text.len() {
        if is_white(text[at]) {
            gathering.add_white();
            at = white_end(text, at);
        } else if text[at] == b'\n' {
            gathering.end_line()?;
            base += 1;
            at += 1;
        } else {
            passed = splices_passed(splices, passed, at);
            let (end, line) = put_first(&mut gathering, text, at, base, passed, &mut unpaired)?;
            at = end;
            base = line;
        }
    }
    gathering.end_last_line()?;
    Ok(gathering)
}

// Gives room that nothing took back, unless it is little: most texts of a compile command are a few bytes.
fn give_back<T>(list: &mut Vec<T>)
    ensures { list.new.items ≡ list.old.items }
{
    if list.capacity().saturating_sub(list.len()) > 64 {
        list.shrink_to_fit();
    }
}

// The file that a text makes and what is gathered of all of it. Much room that nothing took is given back, where the file is kept.
fn finished(text: Vec<u8>, gathering: Gathering, kept: bool) -> Lexed
    requires gathered { IsGathered text.items gathering }
    ensures { result ≡ seen_file text.items gathering.places.items gathering.ends.items gathering.unended }
{
    let Gathering {
        mut places,
        mut ends,
        unended,
        ..
    } = gathering;
    if kept {
        give_back(&mut places);
        give_back(&mut ends);
    }
    Lexed {
        text,
        places,
        ends,
        unended,
    }
}

/// The tokens of a file's body, of at most 16 MiB, with trigraphs read where that is asked for (ISO C 5.1.1.2,
/// phases 1 to 3). Time is linear in the body; the only error is want of memory.
pub fn lex(alloc: Global, body: &[u8], trigraphs: bool) -> Result<Lexed, AllocError>
    requires small { length body.now ≤ body_limit }
    ensures { IfOk result (λ l. l ≡ lexed trigraphs body.now) }
{
    let copy = copy_of(alloc, body)?;
    lex_body(alloc, copy, trigraphs)
}

// A copy of a body, with room for a last newline.
fn copy_of(alloc: Global, body: &[u8]) -> Result<Vec<u8>, AllocError>
    ensures { IfOk result (λ copy. copy.items ≡ body.now) }
{
    let mut copy = Vec::with_capacity(alloc, body.len() + 1)?;
    copy.extend_from_slice(body)?;
    Ok(copy)
}

/// The same of a body that is given away. Its memory becomes that of the spellings.
pub fn lex_body(alloc: Global, body: Vec<u8>, trigraphs: bool) -> Result<Lexed, AllocError>
    requires small { length body.items ≤ body_limit }
    ensures { IfOk result (λ l. l ≡ lexed trigraphs body.items) }
{
    let SourceText { text, splices } = read_source(alloc, body, trigraphs)?;
    let gathering = gather(alloc, &text, &splices)?;
    Ok(finished(text, gathering, true))
}

// For how many tokens of directives a text of so many bytes has room: they are less than half of most files' tokens, and those that
// may ask for a file less than a fourth of these.
fn directive_room(bytes: usize, whole: bool) -> usize {
    if whole { bytes / 10 } else { bytes / 40 }
}

// What is gathered of a whole text's directives alone: all of it, or what may ask for a file.
#[inline(never)]
fn gather_directives(
    alloc: Global,
    text: &[u8],
    splices: &[u32],
    whole: bool,
) -> Result<Gathering, AllocError>
    requires small { length text.now + length splices.now ≤ body_limit + 1 }
    requires short { length text.now ≤ body_limit + newlines text.now }
    requires rising { Rising 0 splices.now }
    ensures file { IfOk result (λ g. seen_file text.now g.places.items g.ends.items g.unended ≡ kept_alone whole (file_of (elements zero [] (lined splices.now 0 1 text.now)))) }
    ensures gathered { IfOk result (λ g. IsGathered text.now g) }
{
    let tokens = directive_room(text.len(), whole);
    let mut gathering = Gathering::with_room(alloc, tokens, text.len() / 30)?;
    let mut unpaired = Unpaired::new();
    // As in `gather`.
    let mut base = 1usize;
    let mut passed = 0usize;
    let mut at = 0usize;
    while at < text.len() {
        if is_white(text[at]) {
            gathering.add_white();
            at = white_end(text, at);
        } else if text[at] == b'\n' {
            gathering.end_line()?;
            base += 1;
            at += 1;
        } else {
            passed = splices_passed(splices, passed, at);
            if begins_line(gathering.before) {
                if let Some(from) = idle_from(text, at, whole) {
                    let idle = line_end(text, splices, from, base, passed, &mut unpaired);
                    gathering.end_text(idle.comment)?;
                    base = idle.base;
                    at = idle.at;
                } else if is_lone_hash(text, at) {
                    let line = (base + passed) as u32;
                    let hash = (What::Token(Kind::Punct), 1);
                    let (behind, next) = put_part(&mut gathering, text, at, base, line, hash)?;
                    at = behind;
                    base = next;
                } else {
                    let (what, size) = next_part(text, at, is_due(gathering.before), &mut unpaired);
                    let word = stretch(text, at, size);
                    if begins_text(gathering.before, what, word) {
                        let end = line_end(text, splices, at + size, base, passed, &mut unpaired);
                        gathering.end_text(end.comment)?;
                        base = end.base;
                        at = end.at;
                    } else {
                        gathering.add(text, what, at, size, (base + passed) as u32)?;
                        base += newlines(what, word);
                        at += size;
                    }
                }
            } else {
                let before = gathering.before;
                let (end, line) = put_first(&mut gathering, text, at, base, passed, &mut unpaired)?;
                if is_cut(whole, before, gathering.before, stretch(text, at, end - at)) {
                    gathering.drop_line();
                    let rest = line_end(text, splices, end, line, passed, &mut unpaired);
                    gathering.end_text(rest.comment)?;
                    base = rest.base;
                    at = rest.at;
                } else {
                    at = end;
                    base = line;
                }
            }
        }
    }
    gathering.end_last_line()?;
    Ok(gathering)
}

fn lex_kept(alloc: Global, body: Vec<u8>, trigraphs: bool, whole: bool) -> Result<Lexed, AllocError>
    requires small { length body.items ≤ body_limit }
    ensures { IfOk result (λ l. l ≡ kept_alone whole (lexed trigraphs body.items)) }
{
    let SourceText { text, splices } = read_source(alloc, body, trigraphs)?;
    let gathering = gather_directives(alloc, &text, &splices, whole)?;
    Ok(finished(text, gathering, whole))
}

/// The directives of a file's body, of at most 16 MiB: its logical lines as `lex` gives them, but those that begin with no `#`
/// are empty (ISO C 6.10 paragraph 2). Time is linear in the body, and less than `lex` takes; the only error is want of memory.
pub fn lex_directives(alloc: Global, body: Vec<u8>, trigraphs: bool) -> Result<Lexed, AllocError>
    requires small { length body.items ≤ body_limit }
    ensures { IfOk result (λ l. l ≡ directives_alone (lexed trigraphs body.items)) }
{
    lex_kept(alloc, body, trigraphs, true)
}

/// The same of those directives alone that may ask for a file, as `#include` and what begins or goes on with a condition do (ISO C
/// 6.10.1, 6.10.2), or that tell of their own, as `#line` does (6.10.4). Lines with others are empty. Most directives of headers define a
/// macro or end a group, and are passed over as text is.
pub fn lex_asking(alloc: Global, body: Vec<u8>, trigraphs: bool) -> Result<Lexed, AllocError>
    requires small { length body.items ≤ body_limit }
    ensures { IfOk result (λ l. l ≡ asking_alone (lexed trigraphs body.items)) }
{
    lex_kept(alloc, body, trigraphs, false)
}

// The number of the first place of a line.
fn line_start(ends: &[u32], line: usize) -> usize
    requires { line ≤ length ends.now }
    ensures { result ≡ get_or (0 ∷ ends.now) line 0 }
{
    if line == 0 {
        0
    } else {
        ends[line - 1] as usize
    }
}

// The first so many of some places.
fn front(places: &[Place], count: usize) -> &[Place]
    ensures { result.now ≡ take count places.now }
{
    let (front, _) = places.split_at(count.min(places.len()));
    front
}

// Those behind the first so many of some places.
fn behind(places: &[Place], count: usize) -> &[Place]
    ensures { result.now ≡ drop count places.now }
{
    let (_, behind) = places.split_at(count.min(places.len()));
    behind
}

// The token at a place of a text.
#[inline(always)]
pub fn token_of(text: &[u8], place: Place) -> TokenRef<'_>
    requires { (place_told place).start + (place_told place).length ≤ length text.now }
    ensures { token_seen result ≡ token_of_place text.now place }
{
    let (_, behind) = text.split_at(place.start());
    let (text, _) = behind.split_at(place.length());
    TokenRef {
        kind: place.kind(),
        text,
        line: place.line(),
        space: place.space(),
    }
}

impl Lexed {
    /// A file without lines.
    #[tactic(auto, unfolding(crate::specs::parts::Seen::Ascends, crate::specs::parts::Seen::EachWithin, crate::specs::parts::Seen::seen_lines))]
    pub fn empty(alloc: Global) -> Lexed
        ensures { result ≡ record { lines = []; unended = None } }
    {
        Lexed {
            text: Vec::new(alloc),
            places: Vec::new(alloc),
            ends: Vec::new(alloc),
            unended: None,
        }
    }

    /// How many logical lines there are.
    pub fn line_count(&self) -> usize
        ensures { result ≡ length self.now.lines }
    {
        self.ends.len()
    }

    /// How many tokens a line has; none past the last line.
    pub fn token_count(&self, line: usize) -> usize
        ensures { result ≡ option_map_or length (slice_get self.now.lines line) 0 }
    {
        if line < self.ends.len() {
            self.ends[line] as usize - line_start(&self.ends, line)
        } else {
            0
        }
    }

    /// A token by its line and its place there, both from 0; none past the end of the line or the last line.
    pub fn token(&self, line: usize, place: usize) -> Option<TokenRef<'_>>
        ensures { option_map token_seen result ≡ option_and_then (λ ts. slice_get ts place) (slice_get self.now.lines line) }
    {
        if self.ends.len() <= line {
            return None;
        }
        let start = line_start(&self.ends, line);
        if self.ends[line] as usize - start <= place {
            return None;
        }
        Some(token_of(&self.text, self.places[start + place]))
    }

    /// How many tokens stand on the lines before one.
    pub fn tokens_before(&self, line: usize) -> usize
        requires { line ≤ length self.now.lines }
        ensures { result ≡ length (flat_map (λ l. l) (take line self.now.lines)) }
    {
        line_start(&self.ends, line)
    }

    /// A token by its number among those of all lines, from 0; none behind the last.
    pub fn token_at(&self, number: usize) -> Option<TokenRef<'_>>
        ensures { option_map token_seen result ≡ slice_get (all_tokens self.now) number }
    {
        if number >= line_start(&self.ends, self.ends.len()) {
            return None;
        }
        Some(token_of(&self.text, self.places[number]))
    }

    // The tokens from one number up to another, as `token_at` counts them, before the first of them is taken.
    #[inline(always)]
    pub(crate) fn excerpt(&self, from: usize, end: usize) -> Excerpt<'_>
        ensures { result ≡ record { taken = []; rest = take (end - from) (drop from (all_tokens self.now)) } }
    {
        let all = line_start(&self.ends, self.ends.len());
        let places = behind(front(&self.places, all), from);
        Excerpt::over(&self.text, front(places, end.saturating_sub(from)))
    }

    /// How many bytes the text has, with comments and white space.
    pub fn text_bytes(&self) -> usize {
        self.text.len()
    }

    /// The line of a comment that never ends.
    pub fn open_comment(&self) -> Option<u32>
        ensures { result ≡ self.now.unended }
    {
        self.unended
    }
}
