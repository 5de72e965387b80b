//! Where reading stands.
ghost use Rattle.std.specs.Prelude.{◌≡◌, true};
ghost use Rattle.sym_parse.specs.Lexemes.{are_sound};

use sym_lex::Token;

/// The tokens that are left of a source, and what was counted before them.
#[derive(Drop)]
pub struct Cursor<'a> {
    pub source: &'a [u8],
    pub rest: &'a [Token],
    /// The statements of the update that were begun.
    pub statements: usize,
    /// The operands of the expression that is being read.
    pub operands: usize,
    ghost sound: { are_sound source.now rest.now ≡ true },
}
