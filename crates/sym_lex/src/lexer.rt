//! The tokens of a text.
ghost use Rattle.std.specs.Prelude.{◌≡◌, ◌<◌, ◌^◌, length, true, Ok, Err, IfOk, IfErr};
ghost use Rattle.sym_lex.specs.Lexing.{lexed, Answers, IfFault};
ghost use Rattle.sym_lex.specs.Rules.{LexResult, Reads};
ghost use Rattle.sym_lex.specs.Terminals.{are_in_order, are_sound};

use crate::error::LexErr;
use crate::find::find_token;
use crate::scan::gap_size;
use crate::token::Token;
use std::alloc::Global;

fn all_tokens(alloc: Global, bytes: &[u8]) -> Result<Vec<Token>, LexErr>
    requires { length bytes.now < 2 ^ 32 }
    ensures { Answers (λ v. v.items) result (lexed bytes.now) }
{
    let mut tokens = Vec::new(alloc);
    let mut at = 0;
    'text: while at < bytes.len() {
        let (_, rest) = bytes.split_at(at);
        let gap = gap_size(rest);
        if gap > 0 {
            at += gap;
            continue;
        }
        let found = match find_token(alloc, rest, at as u32) {
            Ok(found) => found,
            Err(err) => return Err(err),
        };
        let end = at + found.size;
        tokens.push(Token {
            kind: found.kind,
            at: at as u32,
            end: end as u32,
        })?;
        at = end;
    }
    Ok(tokens)
}

/// The tokens of a text of fewer than 2^32 bytes, in order, or the first fault in it.
///
/// Blanks (space, tab, CR, LF) and comments (from `#` to the next LF or the end) separate tokens.
/// Each token is the longest one at its place.
///
/// # Errors
///
/// `Fault` with the kind and the place of the first fault; `NoMemory` where an allocation failed.
pub fn lex(alloc: Global, bytes: &[u8]) -> Result<Vec<Token>, LexErr>
    requires { length bytes.now < 2 ^ 32 }
    ensures tokens { IfOk result (λ v. Reads 0 bytes.now (Ok v.items)) }
    ensures fault { IfErr result (λ e. IfFault e (λ f. Reads 0 bytes.now (Err f))) }
    ensures only { (r : LexResult) → Reads 0 bytes.now r → Answers (λ v. v.items) result r }
    ensures exact { Answers (λ v. v.items) result (lexed bytes.now) }
    ensures sound { IfOk result (λ v. are_sound bytes.now v.items ≡ true) }
    ensures in_order { IfOk result (λ v. are_in_order v.items ≡ true) }
{
    all_tokens(alloc, bytes)
}
