//! What meets on the board.
ghost use Rattle.std.specs.Prelude.{ℕ, IfOk};

use std::alloc::Global;
use sym_base::NoMemory;

/// A piece of work on neighbouring chunks of an input, which can be joined with the piece on its
/// right.
pub trait Piece: Sized + Send + Drop {
    /// What the chunks are cut from.
    type Input;

    // Whether a piece stands for the chunks from lo up to but without hi of an input.
    ghost stands_for: { Self.Input → ℕ → ℕ → Self → Type 0 };

    /// The piece of both together.
    ///
    /// Condition: the two pieces stand for neighbouring intervals of `input`, this one for the left
    /// of them. `Err` says that an allocation failed, and nothing else.
    fn join(self, alloc: Global, input: &Self::Input, right: Self) -> Result<Self, NoMemory>
        requires { (lo : ℕ) × (mid : ℕ) × (hi : ℕ)
            × stands_for input.now lo mid self × stands_for input.now mid hi right }
        ensures { IfOk result (λ p. (lo : ℕ) (mid : ℕ) (hi : ℕ) →
            stands_for input.now lo mid self → stands_for input.now mid hi right
            → stands_for input.now lo hi p) };
}
