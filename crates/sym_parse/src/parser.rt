//! The one script of a text.
ghost use Rattle.std.specs.Prelude.{◌≡◌, ◌<◌, ◌^◌, ℕ, length, Err, true, IfOk, IfErr, IsErrOf};
ghost use Rattle.sym_base.specs.Lawful.{IsLawful};
ghost use Rattle.sym_base.specs.Trees.{ScriptTree, script_tree};
ghost use Rattle.sym_lex.specs.declared.error.LexFault.{LexFault};
ghost use Rattle.sym_lex.specs.Rules.{Reads};
ghost use Rattle.sym_lex.specs.Terminals.{are_sound};
ghost use Rattle.sym_parse.specs.Answers.{Gives, IsScriptOf, ended, parsed, place_of_left, refusal};
ghost use Rattle.sym_parse.specs.Lexemes.{lexemes_of};
ghost use Rattle.sym_parse.specs.Limits.{most};
ghost use Rattle.sym_parse.specs.Parsing.Scripts as spec;
ghost use Rattle.sym_parse.specs.Places.{IsPassed, IsRefusedAt, IsUnexpected};
ghost use Rattle.sym_parse.specs.declared.error.LimitKind.{LimitKind};

use crate::error::ParseErr;
use crate::script::script;
use crate::state::Cursor;
use crate::stop::Stop;
use std::alloc::Global;
use sym_base::Script;
use sym_lex::{LexErr, Token, lex};

/// The place of the token from which `left` tokens are left, or the text's length.
fn place(bytes: &[u8], tokens: &[Token], left: usize) -> u32
    requires { length bytes.now < 2 ^ 32 }
    ensures { result ≡ place_of_left (length bytes.now) tokens.now left }
{
    match tokens.get(tokens.len().saturating_sub(left)) {
        Some(token) => token.at,
        None => bytes.len() as u32,
    }
}

/// Why the tokens are no script.
fn refused(bytes: &[u8], tokens: &[Token], stop: Stop) -> ParseErr
    requires { length bytes.now < 2 ^ 32 }
    ensures { result ≡ refusal (length bytes.now) tokens.now stop }
{
    match stop {
        Stop::Expected(left) => ParseErr::Expected {
            at: place(bytes, tokens, left),
        },
        Stop::Limit(left, which) => ParseErr::Limit {
            at: place(bytes, tokens, left),
            which,
        },
        Stop::NoMemory => ParseErr::NoMemory,
    }
}

/// The script of a text's tokens.
fn parse_tokens(alloc: Global, bytes: &[u8], tokens: &[Token]) -> Result<Script, ParseErr>
    requires small { length bytes.now < 2 ^ 32 }
    requires sound { are_sound bytes.now tokens.now ≡ true }
    ensures { Gives result
        (ended (length bytes.now) tokens.now
        (spec.script most (spec.start (lexemes_of bytes.now tokens.now)))) }
{
    let mut cursor = Cursor {
        source: bytes,
        rest: tokens,
        statements: 0,
        operands: 0,
    };
    match script(alloc, &mut cursor) {
        Ok(script) => Ok(script),
        Err(stop) => Err(refused(bytes, tokens, stop)),
    }
}

#[tactic(auto, unfolding(crate::specs::Answers::parsed))]
fn parse_text(alloc: Global, bytes: &[u8]) -> Result<Script, ParseErr>
    requires { length bytes.now < 2 ^ 32 }
    ensures { Gives result (parsed bytes.now) }
{
    let tokens = match lex(alloc, bytes) {
        Ok(tokens) => tokens,
        Err(LexErr::Fault(fault)) => return Err(ParseErr::Lex(fault)),
        Err(LexErr::NoMemory) => return Err(ParseErr::NoMemory),
    };
    parse_tokens(alloc, bytes, tokens.as_slice())
}

/// The script of a text of fewer than 2^32 bytes, by the grammar of docs/LANGUAGE.md.
///
/// # Errors
///
/// `Lex` with the first lexical fault, wherever it stands in the text. Else, at the first token at
/// which reading can't go on, or at the text's end: `Expected` where no sentence of the grammar
/// goes on so, and `Limit` where the token begins a thing that passes its number. `NoMemory` where
/// an allocation failed.
pub fn parse(alloc: Global, bytes: &[u8]) -> Result<Script, ParseErr>
    requires { length bytes.now < 2 ^ 32 }
    ensures accepted { IfOk result (λ s. IsScriptOf bytes.now (script_tree s)) }
    ensures one { IfOk result
        (λ s. (other : ScriptTree) → IsScriptOf bytes.now other → other ≡ script_tree s) }
    ensures complete { (tree : ScriptTree) → IsScriptOf bytes.now tree →
        IfErr result (λ e. e ≡ ParseErr.NoMemory) }
    ensures lawful { IfOk result (λ s. IsLawful (script_tree s)) }
    ensures fault { (f : LexFault) → IsErrOf result (ParseErr.Lex f) → Reads 0 bytes.now (Err f) }
    ensures faults_first { (f : LexFault) → Reads 0 bytes.now (Err f) →
        Gives result (Err (ParseErr.Lex f)) }
    ensures unexpected { (at : ℕ) → IsErrOf result (ParseErr.Expected at) →
        IsUnexpected bytes.now at }
    ensures expected { (at : ℕ) → IsUnexpected bytes.now at → IsRefusedAt at result }
    ensures passed { (at : ℕ) (which : LimitKind) → IsErrOf result (ParseErr.Limit at which) →
        IsPassed bytes.now at which }
    ensures limited { (at : ℕ) (which : LimitKind) → IsPassed bytes.now at which →
        Gives result (Err (ParseErr.Limit at which)) }
    ensures exact { Gives result (parsed bytes.now) }
{
    parse_text(alloc, bytes)
}
