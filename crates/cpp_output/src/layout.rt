// The layout of preprocessed output: a text that grows token by token.
ghost use Rattle.std.specs.Prelude.{◌≡◌, ◌<◌, ◌≤◌, ◌++◌, List, [], Some, length, map, max, slice_get, IfOk, IfSome, OnOk, IsErrOf, IsTrue, IsFalse};
ghost use Rattle.base_types.specs.Limits.{text_limit};
ghost use Rattle.pp_tokens.specs.Tokens.{rest_of, token_seen};
ghost use Rattle.cpp_output.specs.Layout.{Event, enter, back, mark, put, pragma, marker, fresh, newlines_between, last_at, last_on_line, gap, on_line};
ghost use Rattle.cpp_output.specs.Laid.{begun, after_event, after_events, finished};
ghost use Rattle.cpp_output.specs.Excerpts.{before_token, behind_token, with_excerpt, TakesNext};
ghost use Rattle.cpp_output.specs.declared.layout.LayError.TheVariants.{Memory};

use crate::last::Last;
use crate::text::Text;
use base_types::Bytes;
use pp_tokens::{Excerpt, Token, TokenRef, Tokens};
use std::alloc::{AllocError, Global};
use std::marker::Model;

/// Why an output can't go on. The `Layout` that answered it is of no further use.
#[derive(Clone, Copy, Debug, PartialEq, Eq, Drop)]
pub enum LayError {
    /// The text would pass 67,108,864 bytes.
    Full,
    /// There isn't memory for it.
    Memory,
}

impl From<AllocError> for LayError {
    ghost from_gives = { λ _ e. e ≡ Memory };

    fn from(_error: AllocError) -> LayError {
        LayError::Memory
    }
}

// The room that an output begins with, enough for most: one that grows is copied to other pages. Room that isn't taken costs none.
const ROOM: usize = 256 * 1024;

/// A preprocessed output in the making. Its text so far ends in the output line that stands for one physical line
/// of the present file.
#[derive(Drop)]
pub struct Layout {
    text: Text,
    at: u64,
    last: Last,
}

impl Model for Layout {
    ghost use Rattle.std.specs.Prelude.{length, ◌≤◌};
    ghost use Rattle.base_types.specs.Limits.{text_limit};
    ghost use Rattle.cpp_output.specs.Laid.{Laid};

    ghost Value = { Laid };

    ghost view = { λ l. record { text = l.text; at = l.at; last = l.last } };

    ghost invariant = { λ l. length l.text ≤ text_limit };
}

impl Layout {
    /// The output of the source that is shown under a name: its first marker. A name goes into a marker as it is,
    /// so the caller escapes it.
    #[tactic(auto, unfolding(crate::specs::Laid::begun))]
    pub fn begin(alloc: Global, name: &[u8]) -> Result<Layout, LayError>
        ensures ok { IfOk result (λ layout. (layout ≡ begun name.now) × (length layout.text ≤ text_limit)) }
        ensures full { IsErrOf result LayError.Full → text_limit < length (begun name.now).text }
    {
        let mut text = Text::new(alloc);
        text.make_room(ROOM);
        text.append_marker(1, name, b"")?;
        Ok(Layout {
            text,
            at: 1,
            last: Last::Nothing,
        })
    }

    /// Takes room at once for text that has so many bytes in its file: somewhat less, since white space goes. Nothing but time depends
    /// on it.
    pub fn make_room(&mut self, bytes: usize)
        ensures { self.new ≡ self.old }
    {
        self.text.make_room(bytes - bytes / 64);
    }

    /// A file is entered under a name (ISO C 6.10.2).
    #[tactic(auto, unfolding(crate::specs::Laid::after_event, crate::specs::Layout::written, crate::specs::Layout::line_after, crate::specs::Layout::last_after))]
    pub fn enter(&mut self, name: &[u8]) -> Result<(), LayError>
        ensures ok { OnOk result ((self.new ≡ after_event self.old (enter name.now)) × (length self.new.text ≤ text_limit)) }
        ensures full { IsErrOf result LayError.Full → text_limit < length (after_event self.old (enter name.now)).text }
    {
        self.announce(1, name, b" 1", 1)
    }

    /// Back to a file under a name, from the directive on its physical line `at` (0 where no directive led away, as
    /// after a file that is forced before the source). The marker shows the presumed line `shown`, and the output
    /// line behind it stands for the physical line `at + 1`.
    #[tactic(auto, unfolding(crate::specs::Laid::after_event, crate::specs::Layout::written, crate::specs::Layout::line_after, crate::specs::Layout::last_after))]
    pub fn back(&mut self, name: &[u8], shown: i64, at: u32) -> Result<(), LayError>
        ensures ok { OnOk result ((self.new ≡ after_event self.old (back name.now shown at)) × (length self.new.text ≤ text_limit)) }
        ensures full { IsErrOf result LayError.Full → text_limit < length (after_event self.old (back name.now shown at)).text }
    {
        self.announce(shown, name, b" 2", u64::from(at) + 1)
    }

    /// A marker in the same file, behind the directive on its physical line `at` that changed the presumed name or
    /// line (ISO C 6.10.4). The output line behind it stands for the physical line `at + 1`.
    #[tactic(auto, unfolding(crate::specs::Laid::after_event, crate::specs::Layout::written, crate::specs::Layout::line_after, crate::specs::Layout::last_after))]
    pub fn mark(&mut self, name: &[u8], shown: i64, at: u32) -> Result<(), LayError>
        ensures ok { OnOk result ((self.new ≡ after_event self.old (mark name.now shown at)) × (length self.new.text ≤ text_limit)) }
        ensures full { IsErrOf result LayError.Full → text_limit < length (after_event self.old (mark name.now shown at)).text }
    {
        self.announce(shown, name, b"", u64::from(at) + 1)
    }

    /// A token of text: on the present output line, or on a later one where its line is later.
    #[tactic(auto, unfolding(crate::specs::Laid::after_event, crate::specs::Layout::written, crate::specs::Layout::line_after, crate::specs::Layout::last_after))]
    #[inline(always)]
    pub fn put(&mut self, token: &TokenRef<'_>) -> Result<(), LayError>
        ensures ok { OnOk result ((self.new ≡ after_event self.old (put (token_seen token.now))) × (length self.new.text ≤ text_limit)) }
        ensures full { IsErrOf result LayError.Full → text_limit < length (after_event self.old (put (token_seen token.now))).text }
    {
        self.come_to(token.line.into())?;
        self.append_token(token)
    }

    /// Tokens of text, one after another.
    pub fn run(&mut self, tokens: &[Token]) -> Result<(), LayError>
        ensures ok { OnOk result ((self.new ≡ after_events self.old (map put tokens.now)) × (length self.new.text ≤ text_limit)) }
        ensures full { IsErrOf result LayError.Full → text_limit < length (after_events self.old (map put tokens.now)).text }
    {
        // With no tokens, the limit is kept since it was kept before.
        let _ = &self.text;
        for token in tokens {
            self.put(&token.as_ref())?;
        }
        Ok(())
    }

    /// The tokens of a stretch of a lexed file, one after another. What stands in the file as it does in the output is copied at once.
    pub fn stretch(&mut self, tokens: Tokens<'_>) -> Result<(), LayError>
        ensures ok { OnOk result ((self.new ≡ after_events self.old (map put (rest_of tokens.entry))) × (length self.new.text ≤ text_limit)) }
        ensures full { IsErrOf result LayError.Full → text_limit < length (after_events self.old (map put (rest_of tokens.entry))).text }
    {
        let mut excerpt = tokens.excerpt();
        while let Some(token) = excerpt.first() {
            self.take(&mut excerpt, &token)?;
        }
        self.text.append(excerpt.bytes())?;
        Ok(())
    }

    /// A pragma on the physical line `at`, with the tokens behind the word `pragma` (ISO C 6.10.6), on one output
    /// line, whatever their own lines are.
    #[tactic(auto, unfolding(crate::specs::Laid::after_event, crate::specs::Layout::written, crate::specs::Layout::line_after, crate::specs::Layout::last_after))]
    pub fn pragma(&mut self, at: u32, tokens: &[Token]) -> Result<(), LayError>
        ensures ok { OnOk result ((self.new ≡ after_event self.old (pragma at tokens.now)) × (length self.new.text ≤ text_limit)) }
        ensures full { IsErrOf result LayError.Full → text_limit < length (after_event self.old (pragma at tokens.now)).text }
    {
        self.come_to(at.into())?;
        self.text.append(b"#pragma")?;
        self.last = Last::Loose;
        self.append_line(tokens)?;
        self.text.append(b"\n")?;
        self.at = u64::from(at) + 1;
        self.last = Last::Nothing;
        Ok(())
    }

    /// The whole text, with its last line ended.
    pub fn finish(mut self) -> Result<Bytes, LayError>
        ensures ok { IfOk result (λ text. (text ≡ finished self) × (length text ≤ text_limit)) }
        ensures full { IsErrOf result LayError.Full → text_limit < length (finished self) }
    {
        self.end_line()?;
        Ok(self.text.into_bytes())
    }

    // A fresh line: a newline where the present output line isn't empty.
    fn end_line(&mut self) -> Result<(), LayError>
        ensures ok { OnOk result (self.new ≡ record { text = self.old.text ++ fresh self.old.last; at = self.old.at; last = Last.Nothing }) }
        ensures within { length self.new.text ≤ text_limit }
        ensures full { IsErrOf result LayError.Full → text_limit < length (self.old.text ++ fresh self.old.last) }
    {
        if self.last != Last::Nothing {
            self.text.append(b"\n")?;
            self.last = Last::Nothing;
        }
        Ok(())
    }

    // A marker on a line of its own, behind which the output stands for a physical line.
    fn announce(&mut self, shown: i64, name: &[u8], flag: &[u8], at: u64) -> Result<(), LayError>
        ensures ok { OnOk result (self.new ≡ record { text = self.old.text ++ (fresh self.old.last ++ marker shown name.now flag.now); at = at; last = Last.Nothing }) }
        ensures within { length self.new.text ≤ text_limit }
        ensures full { IsErrOf result LayError.Full → text_limit < length (self.old.text ++ (fresh self.old.last ++ marker shown name.now flag.now)) }
    {
        self.end_line()?;
        self.text.append_marker(shown, name, flag)?;
        self.at = at;
        Ok(())
    }

    // On to the output line of a physical line, where that is a later one.
    #[inline(always)]
    fn come_to(&mut self, line: u64) -> Result<(), LayError>
        ensures ok { OnOk result (self.new ≡ record { text = self.old.text ++ newlines_between self.old.at line; at = max self.old.at line; last = last_at self.old.at self.old.last line }) }
        ensures within { length self.new.text ≤ text_limit }
        ensures full { IsErrOf result LayError.Full → text_limit < length (self.old.text ++ newlines_between self.old.at line) }
    {
        if self.at < line {
            self.text.append_newlines(line - self.at)?;
            self.at = line;
            self.last = Last::Nothing;
        }
        Ok(())
    }

    // Takes the first token of an excerpt that isn't written yet: it goes on with the excerpt, or the excerpt is written, with what stands
    // between the two.
    #[inline(always)]
    fn take(&mut self, excerpt: &mut Excerpt<'_>, token: &TokenRef<'_>) -> Result<(), LayError>
        requires first { slice_get excerpt.old.rest 0 ≡ Some (token_seen token.now) }
        ensures ok { OnOk result (TakesNext self.old excerpt.old self.new excerpt.new (token_seen token.now)) }
        ensures full { IsErrOf result LayError.Full → text_limit < length (after_event (with_excerpt self.old excerpt.old) (put (token_seen token.now))).text }
    {
        if self.joins(excerpt, token) {
            return Ok(());
        }
        self.write(excerpt, token)
    }

    // Takes the first token of an excerpt where it stands in the file, behind what was taken before, as it does in the output.
    #[inline(always)]
    fn joins(&mut self, excerpt: &mut Excerpt<'_>, token: &TokenRef<'_>) -> bool
        requires first { slice_get excerpt.old.rest 0 ≡ Some (token_seen token.now) }
        ensures joined { IsTrue result → TakesNext self.old excerpt.old self.new excerpt.new (token_seen token.now) }
        ensures apart { IsFalse result → (self.new ≡ self.old) × (excerpt.new ≡ excerpt.old) }
    {
        let next = Last::of_spelling(token.text);
        let Some(between) = self.before_token(token, next) else {
            return false;
        };
        if !excerpt.join(between) {
            return false;
        }
        self.at = self.at.max(token.line.into());
        self.last = next;
        true
    }

    // What stands in the output before a token, where it is one byte at most.
    #[inline(always)]
    fn before_token(&self, token: &TokenRef<'_>, next: Last) -> Option<&'static [u8]>
        requires { next ≡ last_on_line token.now.text.now }
        ensures { IfSome result (λ bytes. bytes.now ≡ before_token self.now (token_seen token.now)) }
    {
        let line = u64::from(token.line);
        if line <= self.at {
            Some(if self.last.wants_space(token, next) {
                b" "
            } else {
                b""
            })
        } else if line - self.at == 1 {
            Some(b"\n")
        } else {
            None
        }
    }

    // Writes an excerpt and what stands before its next token, with which a new one begins.
    #[inline(always)]
    fn write(&mut self, excerpt: &mut Excerpt<'_>, token: &TokenRef<'_>) -> Result<(), LayError>
        requires first { slice_get excerpt.old.rest 0 ≡ Some (token_seen token.now) }
        ensures ok { OnOk result (TakesNext self.old excerpt.old self.new excerpt.new (token_seen token.now)) }
        ensures full { IsErrOf result LayError.Full → text_limit < length (after_event (with_excerpt self.old excerpt.old) (put (token_seen token.now))).text }
    {
        self.append_before(excerpt.bytes(), token)?;
        excerpt.begin();
        Ok(())
    }

    // Bytes on the present output line, and what stands behind them before a token, which itself is to be written behind it.
    #[inline(always)]
    fn append_before(&mut self, bytes: &[u8], token: &TokenRef<'_>) -> Result<(), LayError>
        ensures ok { OnOk result (self.new ≡ behind_token (self.old.text ++ (bytes.now ++ before_token self.old (token_seen token.now))) self.old (token_seen token.now)) }
        ensures full { IsErrOf result LayError.Full → text_limit < length (self.old.text ++ (bytes.now ++ before_token self.old (token_seen token.now))) }
    {
        self.text.append(bytes)?;
        self.come_to(token.line.into())?;
        self.append_gap(token)
    }

    // What stands before a token on the present output line; the token itself is to be written behind it.
    #[inline(always)]
    fn append_gap(&mut self, token: &TokenRef<'_>) -> Result<(), LayError>
        ensures ok { OnOk result (self.new ≡ record { text = self.old.text ++ gap self.old.last (token_seen token.now); at = self.old.at; last = last_on_line token.now.text.now }) }
        ensures within { length self.new.text ≤ text_limit }
        ensures full { IsErrOf result LayError.Full → text_limit < length (self.old.text ++ gap self.old.last (token_seen token.now)) }
    {
        let next = Last::of_spelling(token.text);
        if self.last.wants_space(token, next) {
            self.text.append(b" ")?;
        }
        self.last = next;
        Ok(())
    }

    // A token on the present output line.
    #[inline(always)]
    fn append_token(&mut self, token: &TokenRef<'_>) -> Result<(), LayError>
        ensures ok { OnOk result (self.new ≡ record { text = self.old.text ++ (gap self.old.last (token_seen token.now) ++ token.now.text.now); at = self.old.at; last = last_on_line token.now.text.now }) }
        ensures within { length self.new.text ≤ text_limit }
        ensures full { IsErrOf result LayError.Full → text_limit < length (self.old.text ++ (gap self.old.last (token_seen token.now) ++ token.now.text.now)) }
    {
        self.append_gap(token)?;
        self.text.append(token.text)?;
        Ok(())
    }

    // Tokens on the present output line, whatever their own lines are.
    fn append_line(&mut self, tokens: &[Token]) -> Result<(), LayError>
        ensures ok { OnOk result (self.new.text ≡ self.old.text ++ on_line self.old.last tokens.now) }
        ensures full { IsErrOf result LayError.Full → text_limit < length (self.old.text ++ on_line self.old.last tokens.now) }
    {
        for token in tokens {
            self.append_token(&token.as_ref())?;
        }
        Ok(())
    }
}
