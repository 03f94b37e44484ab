// Tokens of a stretch of a lexed file, on their way to a copy.
ghost use Rattle.std.specs.Prelude.{◌≡◌, ◌≤◌, ◌+◌, ◌++◌, ◌∷◌, [], take, drop, length, map, slice_get, IsTrue, IsFalse, MatchOption};
ghost use Rattle.std.specs.Option.{option_map};
ghost use Rattle.pp_tokens.specs.Tokens.{token_seen};
ghost use Rattle.pp_tokens.specs.Excerpts.{TakesBehind, TakesAlone};
ghost use Rattle.pp_tokens.specs.parts.Seen.{EachWithin, token_of_place};

use crate::lexer::{stretch, token_of};
use crate::place::Place;
use crate::token::TokenRef;
use std::marker::Model;

/// Tokens of a stretch of a lexed file on their way to a copy: the bytes of the file's text that spell the last ones that were taken, with
/// what stands between them there, and the tokens that are still to come. So what is to be copied as it stands is copied at once.
#[derive(Drop)]
pub struct Excerpt<'a> {
    text: &'a [u8],
    places: &'a [Place],
    start: usize,
    end: usize,
}

impl<'a> Model for Excerpt<'a> {
    ghost use Rattle.std.specs.Prelude.{◌-◌, ◌≤◌, take, drop, length, map};
    ghost use Rattle.pp_tokens.specs.Excerpts.{Excerpted};
    ghost use Rattle.pp_tokens.specs.parts.Seen.{EachWithin, token_of_place};

    ghost Value = { Excerpted };

    ghost view = { λ e. record {
      taken = take (e.end - e.start) (drop e.start e.text.now);
      rest = map (token_of_place e.text.now) e.places.now;
    } };

    ghost invariant = { λ e. (e.start ≤ e.end) × (e.end ≤ length e.text.now) × EachWithin e.text.now e.places.now };
}

impl<'a> Excerpt<'a> {
    // The tokens at these places of a text, before the first of them is taken.
    #[inline(always)]
    pub(crate) fn over(text: &'a [u8], places: &'a [Place]) -> Excerpt<'a>
        requires { EachWithin text.now places.now }
        ensures { result ≡ record { taken = []; rest = map (token_of_place text.now) places.now } }
    {
        Excerpt {
            text,
            places,
            start: 0,
            end: 0,
        }
    }

    /// The first of the tokens that are still to come.
    #[inline(always)]
    pub fn first(&self) -> Option<TokenRef<'a>>
        ensures { option_map token_seen result ≡ slice_get self.now.rest 0 }
    {
        match first_of(self.places) {
            Some((place, _)) => Some(token_of(self.text, place)),
            None => None,
        }
    }

    /// The bytes that spell what was taken.
    #[inline(always)]
    pub fn bytes(&self) -> &'a [u8]
        ensures { result.now ≡ self.now.taken }
    {
        stretch(self.text, self.start, self.end - self.start)
    }

    /// Takes the first token where these bytes, of which there is one at most, and nothing else stand in the file between it and what was
    /// taken before. `false` leaves everything as it is, and doesn't tell what stands there.
    #[inline(always)]
    pub fn join(&mut self, between: &[u8]) -> bool
        ensures joined { IsTrue result → TakesBehind between.now self.old self.new }
        ensures apart { IsFalse result → self.new ≡ self.old }
    {
        let Some((place, rest)) = first_of(self.places) else {
            return false;
        };
        let start = place.start();
        if !stands_between(self.text, self.end, start, between) {
            return false;
        }
        self.end = start + place.length();
        self.places = rest;
        true
    }

    /// Takes the first token alone: what was taken before is forgotten.
    #[inline(always)]
    pub fn begin(&mut self)
        ensures alone { TakesAlone self.old self.new }
        ensures none { self.old.rest ≡ [] → self.new ≡ self.old }
    {
        if let Some((place, rest)) = first_of(self.places) {
            let start = place.start();
            self.start = start;
            self.end = start + place.length();
            self.places = rest;
        }
    }
}

// The first of some places, and those behind it.
#[inline(always)]
fn first_of(places: &[Place]) -> Option<(Place, &[Place])>
    ensures { MatchOption result (places.now ≡ []) (λ p. places.now ≡ p.0 ∷ p.1.now) }
{
    match places {
        [first, rest @ ..] => Some((*first, rest)),
        [] => None,
    }
}

// Whether these bytes, none or one, are what stands in a text from one place up to another.
#[inline(always)]
fn stands_between(text: &[u8], end: usize, start: usize, between: &[u8]) -> bool
    requires within { start ≤ length text.now }
    ensures { IsTrue result → (end + length between.now ≡ start) × (take (length between.now) (drop end text.now) ≡ between.now) }
{
    match between {
        [] => end == start,
        [byte] => end < start && start - end == 1 && text[end] == *byte,
        _ => false,
    }
}
