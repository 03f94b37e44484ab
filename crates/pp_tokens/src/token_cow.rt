// A preprocessing token whose spelling is lent or owned.
ghost use Rattle.std.specs.Prelude.{◌≡◌, ◌++◌, IfOk, IfSome};
ghost use Rattle.pp_tokens.specs.Marks.{is_identifier, is_literal, is_mark};
ghost use Rattle.pp_tokens.specs.Tokens.{token_seen, bytes_of_spelling};

use crate::token::{Kind, Token, TokenRef, names, punctuates};
use base_types::Bytes;
use std::alloc::{AllocError, Global};
use std::marker::Model;
use std::rc::Rc;

// An owned spelling is shared, so that a token is small, and a copy of it costs nothing.
#[derive(Drop)]
enum Spelling<'a> {
    Lent(&'a [u8]),
    Owned(Rc<Bytes>),
}

/// A preprocessing token on its way: its spelling is a slice of a file's text or of a macro's replacement list, or its own, where no
/// text has it, as what `#` and `##` make (ISO C 6.10.3.2, 6.10.3.3). Contracts see the token, and not who owns the spelling.
#[derive(Drop)]
pub struct TokenCow<'a> {
    kind: Kind,
    spelling: Spelling<'a>,
    line: u32,
    space: bool,
}

impl<'a> Model for TokenCow<'a> {
    ghost use Rattle.pp_tokens.specs.declared.token.Token.{Token};
    ghost use Rattle.pp_tokens.specs.Tokens.{bytes_of_spelling};

    ghost Value = { Token };

    ghost view = { λ t. record { kind = t.kind; text = bytes_of_spelling t.spelling; line = t.line; space = t.space } };
}

impl<'a> TokenCow<'a> {
    /// A token whose spelling stays where it is.
    pub fn lent(token: TokenRef<'a>) -> TokenCow<'a>
        ensures { result ≡ token_seen token.entry }
    {
        TokenCow {
            kind: token.kind,
            spelling: Spelling::Lent(token.text),
            line: token.line,
            space: token.space,
        }
    }

    /// A token with a spelling of its own.
    pub fn owned(alloc: Global, token: Token) -> Result<TokenCow<'a>, AllocError>
        ensures { IfOk result (λ t. t ≡ token) }
    {
        Ok(TokenCow {
            kind: token.kind,
            spelling: Spelling::Owned(Rc::new(alloc, token.text)?),
            line: token.line,
            space: token.space,
        })
    }

    pub fn kind(&self) -> Kind
        ensures { result ≡ self.now.kind }
    {
        self.kind
    }

    pub fn text(&self) -> &[u8]
        ensures { result.now ≡ self.now.text }
    {
        match &self.spelling {
            Spelling::Lent(text) => text,
            Spelling::Owned(text) => text.as_slice(),
        }
    }

    pub fn line(&self) -> u32
        ensures { result ≡ self.now.line }
    {
        self.line
    }

    pub fn space(&self) -> bool
        ensures { result ≡ self.now.space }
    {
        self.space
    }

    /// The token, lent.
    pub fn as_ref(&self) -> TokenRef<'_>
        ensures { token_seen result ≡ self.now }
    {
        TokenRef {
            kind: self.kind,
            text: self.text(),
            line: self.line,
            space: self.space,
        }
    }

    /// The token, lent by the text that its spelling stands in; none where it has a spelling of its own.
    #[inline(always)]
    pub fn as_lent(&self) -> Option<TokenRef<'a>>
        ensures { IfSome result (λ t. token_seen t ≡ self.now) }
    {
        match &self.spelling {
            Spelling::Lent(text) => Some(TokenRef {
                kind: self.kind,
                text,
                line: self.line,
                space: self.space,
            }),
            Spelling::Owned(_) => None,
        }
    }

    /// Whether it is an identifier (ISO C 6.4.2).
    pub fn is_identifier(&self) -> bool
        ensures { result ≡ is_identifier self.now }
    {
        names(self.kind)
    }

    /// Whether it is a string literal or a character constant (ISO C 6.4.5, 6.4.4.4).
    pub fn is_literal(&self) -> bool
        ensures { result ≡ is_literal self.now }
    {
        matches!(self.kind, Kind::Str | Kind::Char)
    }

    /// Whether it is the punctuator with this spelling (ISO C 6.4.6).
    pub fn is_mark(&self, spelling: &[u8]) -> bool
        ensures { result ≡ is_mark spelling.now self.now }
    {
        punctuates(self.kind) && self.text() == spelling
    }

    /// The same token on another line.
    pub fn set_line(&mut self, line: u32)
        ensures { self.new ≡ record self.old { line = line } }
    {
        self.line = line;
    }

    /// The same token with white space before it, or with none.
    pub fn set_space(&mut self, space: bool)
        ensures { self.new ≡ record self.old { space = space } }
    {
        self.space = space;
    }

    /// The same token again, which shares the spelling. It takes no memory.
    pub fn copy(&self) -> Result<TokenCow<'a>, AllocError>
        ensures { IfOk result (λ t. t ≡ self.now) }
    {
        Ok(TokenCow {
            kind: self.kind,
            spelling: shared(&self.spelling)?,
            line: self.line,
            space: self.space,
        })
    }

    /// The token with more bytes behind its spelling. Where it has a spelling of its own that no copy shares, the bytes are added
    /// to this one, at a constant cost each on average.
    pub fn extended(self, alloc: Global, more: &[u8]) -> Result<TokenCow<'a>, AllocError>
        ensures { IfOk result (λ t. t ≡ record self.entry { text = self.entry.text ++ more.now }) }
    {
        let TokenCow {
            kind,
            spelling,
            line,
            space,
        } = self;
        let mut text = own_text(alloc, spelling)?;
        text.extend(more)?;
        TokenCow::owned(
            alloc,
            Token {
                kind,
                text,
                line,
                space,
            },
        )
    }

    /// A token that owns a copy of the spelling.
    pub fn to_token(&self, alloc: Global) -> Result<Token, AllocError>
        ensures { IfOk result (λ t. t ≡ self.now) }
    {
        self.as_ref().to_token(alloc)
    }
}

// The bytes of a spelling, with no copy where nobody shares them.
fn own_text(alloc: Global, spelling: Spelling<'_>) -> Result<Bytes, AllocError>
    ensures { IfOk result (λ text. text ≡ bytes_of_spelling spelling.entry) }
{
    match spelling {
        Spelling::Lent(text) => Bytes::copy_of(alloc, text),
        Spelling::Owned(text) => match Rc::try_unwrap(text) {
            Ok(text) => Ok(text),
            Err(text) => Bytes::copy_of(alloc, text.as_slice()),
        },
    }
}

fn shared<'a>(spelling: &Spelling<'a>) -> Result<Spelling<'a>, AllocError>
    ensures { IfOk result (λ s. bytes_of_spelling s ≡ bytes_of_spelling spelling.now) }
{
    match spelling {
        Spelling::Lent(text) => Ok(Spelling::Lent(text)),
        Spelling::Owned(text) => Ok(Spelling::Owned(text.clone()?)),
    }
}
