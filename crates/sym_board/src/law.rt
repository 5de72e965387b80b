//! The rule of a board's table, and the names of its steps.
ghost use Rattle.sym_board.specs.Plays.{claimed, arrived, crowned};
ghost use Rattle.sym_board.specs.Rule.{Keeps, first_view};
ghost use Rattle.sym_board.specs.Steps.{less_one, one_pass, with_counts, spent};

use crate::piece::Piece;
use crate::view::{About, View};
use atomic_table::{Join, Play, Split, TableRule};
use std::marker::PhantomData;

/// The rule: the board's state is orderly, and so it is lawful.
pub struct Law<P> {
    marker: PhantomData<P>,
}

impl<P: Piece> TableRule<Option<P>, View<P::Input>, About<P::Input>> for Law<P> {
    ghost holds = { Keeps P.stands_for };

    ghost first = { first_view };
}

pub(crate) struct Claim;

impl<S, I> Play<Option<S>, View<I>> for Claim {
    ghost then = { claimed };
}

pub(crate) struct Arrive;

impl<P: Piece> Play<Option<P>, View<P::Input>> for Arrive {
    ghost then = { arrived P.stands_for };
}

pub(crate) struct Crown;

impl<S, I> Play<Option<S>, View<I>> for Crown {
    ghost then = { crowned };
}

pub(crate) struct Cut;

impl<I> Split<View<I>> for Cut {
    ghost left = { less_one };

    ghost right = { one_pass };
}

pub(crate) struct Merge;

impl<I> Join<View<I>> for Merge {
    ghost both = { with_counts };

    ghost spent = { spent };
}
