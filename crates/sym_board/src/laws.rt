//! What holds of every board, whatever its callers' threads do. Each function does nothing: its
//! clause is the law.
ghost use Rattle.sym_board.specs.Nodes.{NodesAreNumbered};
ghost use Rattle.sym_board.specs.Laws.{RuleIsLawful, LawfulIsRule, StepsKeepLawful, ChunksLieOnce, AddingClaims, SettingArrivesFirst, SettingArrivesSecond, SettingCrowns, CuttingSplits, MergingJoins, EndingCloses};

use crate::piece::Piece;

/// The nodes of the tree are the numbers below 2n - 1: from the root down, each node of two chunks
/// or more has a left child with half its chunks, rounded up, and a right child with the rest.
pub fn nodes_are_numbered()
    ensures { NodesAreNumbered }
{}

/// Between any two atomic steps the state of a board is lawful.
pub fn board_is_lawful<P: Piece>()
    ensures { RuleIsLawful P.stands_for }
{}

/// The rule that each atomic step keeps asks no more than a lawful state.
pub fn rule_asks_no_more<P: Piece>()
    ensures { LawfulIsRule P.stands_for }
{}

/// Each kind of step leads from a lawful state to a lawful state.
pub fn steps_keep_lawful<P: Piece>()
    ensures { StepsKeepLawful P.stands_for }
{}

/// In a lawful state each claimed chunk lies in exactly one hand or one piece at home.
pub fn chunks_lie_once<P: Piece>()
    ensures { ChunksLieOnce P.stands_for }
{}

/// The atomic step of `claim` is a claim.
pub fn claim_is_a_step<P: Piece>()
    ensures { AddingClaims P.stands_for }
{}

/// The atomic step of `deliver` is a first arrival where the parent's word lacks the sibling's.
pub fn arrival_alone_is_a_step<P: Piece>()
    ensures { SettingArrivesFirst P.stands_for }
{}

/// The atomic step of `deliver` is a second arrival where the parent's word has the sibling's.
pub fn arrival_after_the_sibling_is_a_step<P: Piece>()
    ensures { SettingArrivesSecond P.stands_for }
{}

/// The atomic step of `deliver` is the crowning where the root is in the hand.
pub fn crowning_is_a_step<P: Piece>()
    ensures { SettingCrowns P.stands_for }
{}

/// Each pass that `new` cuts off comes by a split.
pub fn cutting_is_a_step<P: Piece>()
    ensures { CuttingSplits P.stands_for }
{}

/// Each pass that `close` merges goes by a join.
pub fn merging_is_a_step<P: Piece>()
    ensures { MergingJoins P.stands_for }
{}

/// A table ends by a close, with however many passes.
pub fn closing_is_a_step<P: Piece>()
    ensures { EndingCloses P.stands_for }
{}
