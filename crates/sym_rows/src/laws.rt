//! Laws of the rows of bytes.
ghost use Rattle.std.specs.Prelude.{◌≡◌, ◌++◌, ◌∷◌, [], ℕ, List, true};
ghost use Rattle.std.specs.List.{All, concat, flat_map};
ghost use Rattle.sym_rows.specs.Rows.{BeginsLine, EndsBetween, EndsInQuotes, EndsOutside, HasNoQuote, IsPiece, is_line_end, marked_rows, rows_of};

/// Bytes whose reading ends between rows can be cut off. An LF that is read outside quotes may end
/// the first piece, begin the second, or be left out; a CR does there what an LF does.
pub fn rows_are_those_of_both_parts()
    ensures between { (a b : List ℕ) → EndsBetween a → rows_of (a ++ b) ≡ rows_of a ++ rows_of b }
    ensures lf_ends { (a b : List ℕ) → EndsOutside a →
        rows_of (a ++ 10 ∷ b) ≡ rows_of (a ++ 10 ∷ []) ++ rows_of b }
    ensures lf_begins { (a b : List ℕ) → EndsOutside a →
        rows_of (a ++ 10 ∷ b) ≡ rows_of a ++ rows_of (10 ∷ b) }
    ensures lf_parts { (a b : List ℕ) → EndsOutside a →
        rows_of (a ++ 10 ∷ b) ≡ rows_of a ++ rows_of b }
    ensures cr { (a b : List ℕ) → EndsOutside a → rows_of (a ++ 13 ∷ b) ≡ rows_of (a ++ 10 ∷ b) }
    ensures line { (a b : List ℕ) → EndsOutside a → BeginsLine b →
        rows_of (a ++ b) ≡ rows_of a ++ rows_of b }
{}

/// Bytes without quotes end outside quotes.
pub fn no_quote_ends_outside()
    ensures { (a : List ℕ) → HasNoQuote a → EndsOutside a }
{}

/// The rows of pieces that are read one after the other are the rows of each, and together they are
/// a piece. A reader of `csv` over a piece finds no byte-order mark to pass over.
pub fn pieces_are_read_in_turn()
    ensures rows { (pieces : List (List ℕ)) → All IsPiece pieces →
        rows_of (concat pieces) ≡ flat_map rows_of pieces }
    ensures piece { (pieces : List (List ℕ)) → All IsPiece pieces → IsPiece (concat pieces) }
    ensures no_mark { (bytes : List ℕ) → BeginsLine bytes → marked_rows bytes ≡ rows_of bytes }
{}

/// A quote after bytes that end within quotes closes them, and the rows stay the same.
pub fn a_quote_closes_quotes()
    ensures rows { (bytes : List ℕ) → EndsInQuotes bytes →
        rows_of (bytes ++ 34 ∷ []) ≡ rows_of bytes }
    ensures ends { (bytes : List ℕ) → EndsInQuotes bytes → EndsOutside (bytes ++ 34 ∷ []) }
{}
