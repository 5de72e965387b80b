//! Laws of reading.
ghost use Rattle.std.specs.Prelude.{ℕ, ◌≤◌, List};
ghost use Rattle.sym_parse.specs.Lexemes.{Lexeme};
ghost use Rattle.sym_parse.specs.Parsing.Scripts.{script, start};
ghost use Rattle.sym_parse.specs.Sentences.{IsKeptBy};
ghost use Rattle.sym_parse.specs.declared.error.LimitKind.{LimitKind};

/// Limits don't change what is read before them: with wider limits the same script is read, or
/// reading stops at the same token; and where a limit is passed, it comes at least as far.
pub fn limits_change_nothing_before_them()
    ensures { (limits wider : LimitKind → ℕ) → ((k : LimitKind) → limits k ≤ wider k) →
        (ls : List Lexeme) → IsKeptBy (script limits (start ls)) (script wider (start ls)) }
{}
