//! Tokens of a script's text.
ghost use Rattle.std.specs.Prelude.{◌≡◌, IfOk};

use crate::keyword::Keyword;
use crate::symbol::Symbol;
use std::alloc::Global;
use sym_base::{NoMemory, Text};

/// What a token is. A name's text is the token's slice of the source.
#[derive(PartialEq, Eq, Drop)]
pub enum TokenKind {
    /// A letter or `_`, then letters, digits and `_`: 1 to 64 bytes that are no keyword.
    Name,
    /// A number of 0 to 10^12.
    Number(i64),
    /// What stands between two `"`, its escapes `\"` and `\\` decoded: UTF-8 without LF.
    Str(Text),
    Word(Keyword),
    Sign(Symbol),
}

/// A token: its kind, the place of its first byte, and the place after its last one. Places count
/// bytes from 0, and those of a text take its quotes in.
#[derive(PartialEq, Eq, Drop)]
pub struct Token {
    pub kind: TokenKind,
    pub at: u32,
    pub end: u32,
}

impl TokenKind {
    /// An equal kind of its own.
    pub fn copy(&self, alloc: Global) -> Result<TokenKind, NoMemory>
        ensures { IfOk result (λ k. k ≡ self.now) }
    {
        match self {
            TokenKind::Name => Ok(TokenKind::Name),
            TokenKind::Number(number) => Ok(TokenKind::Number(*number)),
            TokenKind::Str(text) => Ok(TokenKind::Str(text.copy(alloc)?)),
            TokenKind::Word(keyword) => Ok(TokenKind::Word(*keyword)),
            TokenKind::Sign(symbol) => Ok(TokenKind::Sign(*symbol)),
        }
    }
}

impl Token {
    /// An equal token of its own.
    pub fn copy(&self, alloc: Global) -> Result<Token, NoMemory>
        ensures { IfOk result (λ t. t ≡ self.now) }
    {
        Ok(Token {
            kind: self.kind.copy(alloc)?,
            at: self.at,
            end: self.end,
        })
    }
}
