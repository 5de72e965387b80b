//! What is found at the start of a text.

use crate::token::TokenKind;

/// The token with which a text begins, and how many bytes it has.
#[derive(Drop)]
pub struct Found {
    pub kind: TokenKind,
    pub size: usize,
}

/// What stands between the quotes of a text, decoded, and how many bytes it takes together with its
/// closing quote.
#[derive(Drop)]
pub struct Body {
    pub text: Vec<u8>,
    pub size: usize,
}
