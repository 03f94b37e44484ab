// Where a token stands in the text, and what it is.
ghost use Rattle.std.specs.Prelude.{◌≡◌, ◌<◌, ◌≤◌};
ghost use Rattle.base_types.specs.Limits.{body_limit};
ghost use Rattle.pp_tokens.specs.parts.Packed.{place_told};

use crate::token::Kind;

/// Where a token stands in the text, and what it is, in 12 bytes, since the memory of a file's tokens is what its reading
/// touches most. Its start is at most 2^24, and is kept twice as large, and one more where white space stands before the token. Its length is from
/// 1 to 2^24: one less than it is kept, in two parts.
#[derive(Clone, Copy, Drop)]
pub struct Place {
    spot: u32,
    line: u32,
    low: u16,
    high: u8,
    kind: Kind,
}

const _: () = prove!(size_of::<Place>() == 12);

impl Place {
    #[inline(always)]
    pub fn new(start: usize, length: usize, line: u32, kind: Kind, space: bool) -> Place
        requires start { start ≤ body_limit }
        requires some { 0 < length }
        requires small { length ≤ body_limit }
        ensures { place_told result ≡ record { start = start; length = length; line = line; kind = kind; space = space } }
    {
        let less = length - 1;
        Place {
            spot: start as u32 * 2 + u32::from(space),
            line,
            low: (less % 65536) as u16,
            high: (less / 65536) as u8,
            kind,
        }
    }

    #[inline(always)]
    pub fn start(self) -> usize
        ensures { result ≡ (place_told self).start }
    {
        (self.spot / 2) as usize
    }

    #[inline(always)]
    pub fn length(self) -> usize
        ensures { result ≡ (place_told self).length }
    {
        self.low as usize + self.high as usize * 65536 + 1
    }

    #[inline(always)]
    pub fn line(self) -> u32
        ensures { result ≡ (place_told self).line }
    {
        self.line
    }

    #[inline(always)]
    pub fn kind(self) -> Kind
        ensures { result ≡ (place_told self).kind }
    {
        self.kind
    }

    #[inline(always)]
    pub fn space(self) -> bool
        ensures { result ≡ (place_told self).space }
    {
        self.spot % 2 == 1
    }
}
