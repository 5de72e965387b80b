//! Laws of the lexical rules.
ghost use Rattle.std.specs.Prelude.{◌≡◌, ◌↔◌, ℕ, List};
ghost use Rattle.sym_lex.specs.Lexing.{lexed};
ghost use Rattle.sym_lex.specs.Rules.{LexResult, Reads};

/// Every text reads as one list of tokens or as one first fault, never as both and never as two:
/// what it reads as by the rules is what the lexer's function finds.
pub fn every_text_reads_once()
    ensures { (text : List ℕ) (r : LexResult) → Reads 0 text r ↔ (lexed text ≡ r) }
{}
