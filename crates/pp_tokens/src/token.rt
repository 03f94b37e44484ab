// A preprocessing token, owned or borrowed.
ghost use Rattle.std.specs.Prelude.{◌≡◌, IfOk};
ghost use Rattle.pp_tokens.specs.Marks.{names, punctuates, is_identifier, is_string, is_literal, is_punctuator, is_mark, is_hash, is_pasting, is_reserved};
ghost use Rattle.pp_tokens.specs.Tokens.{token_seen};

use base_types::Bytes;
use std::alloc::{AllocError, Global};

/// The kind of a preprocessing token (ISO C 6.4). `Header` is read in the places of 6.4.7 alone; `Other` is a
/// byte that is in no other kind, a quote without its partner among them.
#[derive(Clone, Copy, Debug, PartialEq, Eq, Drop)]
pub enum Kind {
    Ident,
    Number,
    Char,
    Str,
    Punct,
    Header,
    Other,
}

/// A preprocessing token: its kind, its spelling, the physical line of its first byte, from 1, and whether white
/// space stands before it or it is the first of its logical line.
#[derive(Debug, Drop)]
pub struct Token {
    pub text: Bytes,
    pub line: u32,
    pub kind: Kind,
    pub space: bool,
}

// Whether the kind is that of identifiers.
#[inline(always)]
pub(crate) fn names(kind: Kind) -> bool
    ensures { result ≡ names kind }
{
    matches!(kind, Kind::Ident)
}

// Whether the kind is that of punctuators.
#[inline(always)]
pub(crate) fn punctuates(kind: Kind) -> bool
    ensures { result ≡ punctuates kind }
{
    matches!(kind, Kind::Punct)
}

impl Token {
    /// Whether it is an identifier (ISO C 6.4.2).
    pub fn is_identifier(&self) -> bool
        ensures { result ≡ is_identifier self.now }
    {
        names(self.kind)
    }

    /// Whether it is a string literal (ISO C 6.4.5).
    pub fn is_string(&self) -> bool
        ensures { result ≡ is_string self.now }
    {
        self.kind == Kind::Str
    }

    /// Whether it is a string literal or a character constant (ISO C 6.4.5, 6.4.4.4).
    pub fn is_literal(&self) -> bool
        ensures { result ≡ is_literal self.now }
    {
        matches!(self.kind, Kind::Str | Kind::Char)
    }

    /// Whether it is a punctuator (ISO C 6.4.6).
    pub fn is_punctuator(&self) -> bool
        ensures { result ≡ is_punctuator self.now }
    {
        punctuates(self.kind)
    }

    /// Whether it is the punctuator with this spelling (ISO C 6.4.6).
    pub fn is_mark(&self, spelling: &[u8]) -> bool
        ensures { result ≡ is_mark spelling.now self.now }
    {
        self.is_punctuator() && self.text.as_slice() == spelling
    }

    /// Whether it is a `#`, or its digraph (ISO C 6.4.6, 6.10.3.2).
    pub fn is_hash(&self) -> bool
        ensures { result ≡ is_hash self.now }
    {
        self.is_mark(b"#") || self.is_mark(b"%:")
    }

    /// Whether it is a `##`, or its digraph (ISO C 6.4.6, 6.10.3.3).
    pub fn is_pasting(&self) -> bool
        ensures { result ≡ is_pasting self.now }
    {
        self.is_mark(b"##") || self.is_mark(b"%:%:")
    }

    /// Whether it is an identifier that begins with two underscores (ISO C 7.1.3).
    pub fn is_reserved(&self) -> bool
        ensures { result ≡ is_reserved self.now }
    {
        self.is_identifier() && self.text.as_slice().starts_with(b"__")
    }

    /// The token, lent.
    pub fn as_ref(&self) -> TokenRef<'_>
        ensures { token_seen result ≡ self.now }
    {
        TokenRef {
            kind: self.kind,
            text: self.text.as_slice(),
            line: self.line,
            space: self.space,
        }
    }
}

/// A preprocessing token whose spelling is a slice of a file's text.
#[derive(Clone, Copy, Debug, Drop)]
pub struct TokenRef<'a> {
    pub kind: Kind,
    pub text: &'a [u8],
    pub line: u32,
    pub space: bool,
}

impl<'a> TokenRef<'a> {
    /// Whether it is an identifier (ISO C 6.4.2).
    pub fn is_identifier(&self) -> bool
        ensures { result ≡ is_identifier (token_seen self.now) }
    {
        names(self.kind)
    }

    /// Whether it is the punctuator with this spelling (ISO C 6.4.6).
    pub fn is_mark(&self, spelling: &[u8]) -> bool
        ensures { result ≡ is_mark spelling.now (token_seen self.now) }
    {
        punctuates(self.kind) && self.text == spelling
    }

    /// Whether it is an identifier that begins with two underscores (ISO C 7.1.3).
    pub fn is_reserved(&self) -> bool
        ensures { result ≡ is_reserved (token_seen self.now) }
    {
        names(self.kind) && self.text.starts_with(b"__")
    }

    /// A token that owns a copy of the spelling.
    pub fn to_token(&self, alloc: Global) -> Result<Token, AllocError>
        ensures { IfOk result (λ t. t ≡ token_seen self.now) }
    {
        let text = Bytes::copy_of(alloc, self.text)?;
        Ok(Token {
            kind: self.kind,
            text,
            line: self.line,
            space: self.space,
        })
    }
}
