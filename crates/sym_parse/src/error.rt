//! Why a text is refused.
ghost use Rattle.std.specs.Prelude.{◌≡◌};
ghost use Rattle.sym_parse.specs.Limits.{most};

use sym_base::{
    CELLS_MAX, COLUMNS_MAX, DEPTH_MAX, ENUMS_MAX, FIELDS_MAX, GROUP_FIELDS_MAX, LABELS_MAX,
    OPERANDS_MAX, PARAMETERS_MAX, PARTS_MAX, STATEMENTS_MAX, TESTS_MAX,
};
use sym_lex::LexFault;
use thiserror::Error;

/// What may be counted too high. Where one token passes two numbers, the kind that stands first
/// here is answered.
#[derive(Clone, Copy, Debug, PartialEq, Eq)]
pub enum LimitKind {
    /// The enums of a script.
    Enums,
    /// The labels of an enum.
    Labels,
    /// The fields of a script.
    Fields,
    /// The cells of a script.
    Cells,
    /// The tests of a script.
    Tests,
    /// The parameters of a test.
    Parameters,
    /// The parts of a hold cell.
    Parts,
    /// The statements of the update, nested ones included.
    Statements,
    /// The `if` statements, parentheses, calls, `not` and unary `-` that are open at once.
    Depth,
    /// The numbers, texts and names of an expression, a call's name included.
    Operands,
    /// The columns of the report.
    Columns,
    /// The fields of the group line.
    GroupFields,
}

impl LimitKind {
    // The most of this kind.
    pub(crate) fn most(self) -> usize
        ensures { result ≡ most self }
    {
        match self {
            LimitKind::Enums => ENUMS_MAX,
            LimitKind::Labels => LABELS_MAX,
            LimitKind::Fields => FIELDS_MAX,
            LimitKind::Cells => CELLS_MAX,
            LimitKind::Tests => TESTS_MAX,
            LimitKind::Parameters => PARAMETERS_MAX,
            LimitKind::Parts => PARTS_MAX,
            LimitKind::Statements => STATEMENTS_MAX,
            LimitKind::Depth => DEPTH_MAX,
            LimitKind::Operands => OPERANDS_MAX,
            LimitKind::Columns => COLUMNS_MAX,
            LimitKind::GroupFields => GROUP_FIELDS_MAX,
        }
    }
}

/// Why `parse` gives no script. Places count bytes from 0.
#[derive(Debug, PartialEq, Eq, Drop, Error)]
pub enum ParseErr {
    /// The text breaks the lexical rules: here first.
    #[error("Lex")]
    Lex(LexFault),
    /// No sentence of the grammar goes on with the token at this place, or ends at the text's end.
    #[error("Expected")]
    Expected { at: u32 },
    /// The token at this place begins a thing that passes its number.
    #[error("Limit")]
    Limit { at: u32, which: LimitKind },
    /// An allocation failed.
    #[error("NoMemory")]
    NoMemory,
}
