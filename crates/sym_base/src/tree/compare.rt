//! How two numbers are compared.
ghost use Rattle.std.specs.Prelude.{◌≡◌};
ghost use Rattle.sym_base.specs.Comparing.{compares};

/// A comparison of two whole numbers.
#[derive(Clone, Copy, PartialEq, Eq)]
pub enum Compare {
    Eq,
    Ne,
    Lt,
    Le,
    Gt,
    Ge,
}

impl Compare {
    /// Whether `left` compares so with `right`.
    pub fn holds(self, left: i128, right: i128) -> bool
        ensures { result ≡ compares self left right }
    {
        match self {
            Compare::Eq => left == right,
            Compare::Ne => left != right,
            Compare::Lt => left < right,
            Compare::Le => left <= right,
            Compare::Gt => left > right,
            Compare::Ge => left >= right,
        }
    }
}
