//! A board of few leaves.
ghost use Rattle.std.specs.Prelude.{◌≡◌, ℕ, ◌+◌, ◌-◌, ◌<◌, true, false, None, Some, All, IfOk, IfSome, vec_len, slice_index};
ghost use Rattle.sym_board.specs.Arrived.{LeavesAlone, FindsSibling};
ghost use Rattle.sym_board.specs.Passes.{IsPassOf, IsFree, IsNewPassOf, StandsForHand, KeepsClaims};

use std::alloc::Global;
use std::test::Fail;
use sym_base::NoMemory;
use sym_board::{Arrived, Board, Interval, LEAVES_MAX, Made, Pass, Piece};

// The list of a row of leaves.
#[derive(Drop)]
struct Row(Vec<u32>);

impl Piece for Row {
    type Input = ();

    ghost stands_for = { λ _ lo hi p. (vec_len p.0 + lo ≡ hi)
        × ((k : ℕ) → k < vec_len p.0 → slice_index p.0.items k ≡ lo + k) };

    fn join(self, _alloc: Global, _input: &(), right: Row) -> Result<Row, NoMemory> {
        let Row(mut items) = self;
        items.extend_from_slice(right.0.as_slice())?;
        Ok(Row(items))
    }
}

// The piece of leaf i.
fn leaf(alloc: Global, i: u32) -> Result<Row, NoMemory>
    requires { i < LEAVES_MAX }
    ensures { IfOk result (λ p. ⟦<Row as Piece>⟧.stands_for tt i (i + 1) p) }
{
    let mut items = Vec::new(alloc);
    items.push(i)?;
    Ok(Row(items))
}

// Claims and carries so many leaves. Says whether there were as many.
fn carry_leaves(
    alloc: Global,
    board: &Board<Row>,
    pass: &mut Pass<Row>,
    count: u32,
) -> Result<bool, NoMemory>
    requires { IsPassOf board.now pass.old × IsFree pass.old }
    ensures { IfOk result (λ more. IsPassOf board.now pass.new × (more ≡ true → IsFree pass.new)) }
{
    'leaves: for _leaf in 0..count {
        let Some(i) = board.claim(pass) else {
            return Ok(false);
        };
        let piece = leaf(alloc, i)?;
        board.carry(alloc, &(), pass, piece)?;
    }
    Ok(true)
}

// The last pass of a row of passes.
fn next_pass(board: &Board<Row>, passes: &mut Vec<Pass<Row>>) -> Option<Pass<Row>>
    requires { All (λ p. IsNewPassOf board.now p) passes.old.items }
    ensures rest { All (λ p. IsNewPassOf board.now p) passes.new.items }
    ensures pass { IfSome result (λ p. IsPassOf board.now p × IsFree p) }
{
    passes.pop()
}

// Whether the row is that of the leaves from `lo` up to `hi`.
fn is_row(row: &Row, lo: u32, hi: u32) -> bool {
    let mut same = row.0.len() == hi.saturating_sub(lo) as usize;
    for (number, i) in row.0.iter().zip(lo..hi) {
        same = same && *number == i;
    }
    same
}

#[test]
fn one_leaf_is_the_root(rt: HostRuntime) -> Result<(), Fail> {
    let Made { board, mut passes } = Board::new(rt.alloc(), &(), 1, 1)?;
    let Some(mut pass) = next_pass(&board, &mut passes) else {
        panic!(rt; "found no pass, wanted one")
    };
    assert_eq!(rt; (pass.hand(), pass.ended()), (None, false));
    let Some(i) = board.claim(&mut pass) else {
        panic!(rt; "found no leaf, wanted one")
    };
    assert_eq!(rt; (i, pass.hand()), (0, Some(Interval { lo: 0, hi: 1 })));
    let piece = leaf(rt.alloc(), i)?;
    let crowned = matches!(board.deliver(&mut pass, piece), Arrived::Crowned);
    assert!(rt; crowned, "found no root, wanted that of one leaf");
    assert_eq!(rt; (pass.hand(), pass.ended()), (None, false));
    let mut all = Vec::new(rt.alloc());
    all.push(pass)?;
    let Some(row) = board.close(all) else {
        panic!(rt; "found an open board, wanted it closed")
    };
    assert_eq!(rt; row.0.as_slice(), [0].as_slice());
    Ok(())
}

// The first child that arrives waits, and the second one gets both pieces, left and right.
fn meet(
    board: &Board<Row>,
    first: &mut Pass<Row>,
    first_piece: Row,
    second: &mut Pass<Row>,
    second_piece: Row,
) -> Option<(Row, Row)>
    requires passes { IsPassOf board.now first.old × IsPassOf board.now second.old }
    requires first { StandsForHand ⟦<Row as Piece>⟧.stands_for board.now first.old first_piece }
    requires second { StandsForHand ⟦<Row as Piece>⟧.stands_for board.now second.old second_piece }
    ensures passes { IsPassOf board.now first.new × IsPassOf board.now second.new }
    ensures claims { KeepsClaims first.old first.new × KeepsClaims second.old second.new }
    ensures met { IfSome result (λ p. LeavesAlone board.now first.old first.new
        × FindsSibling ⟦<Row as Piece>⟧.stands_for board.now second.old second.new p.0 p.1) }
{
    let Arrived::Left = board.deliver(first, first_piece) else {
        return None;
    };
    let Arrived::Pair(left, right) = board.deliver(second, second_piece) else {
        return None;
    };
    Some((left, right))
}

// Leaves 0 and 1 meet, the third pass carries the others and finds no sixth one, and the board is
// closed.
fn finish_five(
    alloc: Global,
    board: Board<Row>,
    mut first: Pass<Row>,
    first_piece: Row,
    mut second: Pass<Row>,
    second_piece: Row,
    mut third: Pass<Row>,
) -> Result<Option<Row>, NoMemory>
    requires passes { IsPassOf board first × IsPassOf board second }
    requires third { IsPassOf board third × IsFree third }
    requires first { StandsForHand ⟦<Row as Piece>⟧.stands_for board first first_piece }
    requires second { StandsForHand ⟦<Row as Piece>⟧.stands_for board second second_piece }
{
    let Some((left, right)) = meet(&board, &mut first, first_piece, &mut second, second_piece)
    else {
        return Ok(None);
    };
    let met = is_row(&left, 0, 1) && is_row(&right, 1, 2);
    if !met || second.hand() != Some(Interval { lo: 0, hi: 2 }) {
        return Ok(None);
    }
    let piece = left.join(alloc, &(), right)?;
    board.carry(alloc, &(), &mut second, piece)?;
    if !carry_leaves(alloc, &board, &mut third, 3)? || board.claim(&mut third).is_some() {
        return Ok(None);
    }
    let mut all = Vec::new(alloc);
    all.push(first)?;
    all.push(second)?;
    all.push(third)?;
    Ok(board.close(all))
}

#[test]
fn two_leaves_meet_in_either_order(rt: HostRuntime) -> Result<(), Fail> {
    for left_first in [true, false] {
        let Made { board, mut passes } = Board::new(rt.alloc(), &(), 5, 3)?;
        let (Some(mut a), Some(mut b), Some(c)) = (
            next_pass(&board, &mut passes),
            next_pass(&board, &mut passes),
            next_pass(&board, &mut passes),
        ) else {
            panic!(rt; "found too few passes, wanted 3")
        };
        let (Some(i), Some(j)) = (board.claim(&mut a), board.claim(&mut b)) else {
            panic!(rt; "found too few leaves, wanted one for each pass")
        };
        let (zero, one) = (leaf(rt.alloc(), i)?, leaf(rt.alloc(), j)?);
        let closed = if left_first {
            finish_five(rt.alloc(), board, a, zero, b, one, c)?
        } else {
            finish_five(rt.alloc(), board, b, one, a, zero, c)?
        };
        let Some(row) = closed else {
            panic!(rt; "found an open board, wanted it closed")
        };
        assert_eq!(rt; row.0.as_slice(), [0, 1, 2, 3, 4].as_slice());
    }
    Ok(())
}

#[test]
fn three_leaves_have_five_nodes(rt: HostRuntime) -> Result<(), Fail> {
    let Made { board, mut passes } = Board::new(rt.alloc(), &(), 3, 3)?;
    let (Some(mut a), Some(mut b), Some(mut c)) = (
        next_pass(&board, &mut passes),
        next_pass(&board, &mut passes),
        next_pass(&board, &mut passes),
    ) else {
        panic!(rt; "found too few passes, wanted 3")
    };
    let (Some(i), Some(j), Some(k)) = (
        board.claim(&mut a),
        board.claim(&mut b),
        board.claim(&mut c),
    ) else {
        panic!(rt; "found too few leaves, wanted one for each pass")
    };
    assert_eq!(rt; a.hand(), Some(Interval { lo: 0, hi: 1 }));
    assert_eq!(rt; b.hand(), Some(Interval { lo: 1, hi: 2 }));
    assert_eq!(rt; c.hand(), Some(Interval { lo: 2, hi: 3 }));
    let (zero, one, two) = (
        leaf(rt.alloc(), i)?,
        leaf(rt.alloc(), j)?,
        leaf(rt.alloc(), k)?,
    );
    let Some((left, right)) = meet(&board, &mut a, zero, &mut b, one) else {
        panic!(rt; "found no two pieces, wanted those of two children")
    };
    assert_eq!(rt; b.hand(), Some(Interval { lo: 0, hi: 2 }));
    let piece = left.join(rt.alloc(), &(), right)?;
    let Some((left, right)) = meet(&board, &mut c, two, &mut b, piece) else {
        panic!(rt; "found no two pieces, wanted those of two children")
    };
    assert_eq!(rt; left.0.as_slice(), [0, 1].as_slice());
    assert_eq!(rt; right.0.as_slice(), [2].as_slice());
    assert_eq!(rt; b.hand(), Some(Interval { lo: 0, hi: 3 }));
    Ok(())
}

#[test]
fn a_leaf_that_is_missing_leaves_the_board_open(rt: HostRuntime) -> Result<(), Fail> {
    for in_hand in [false, true] {
        let Made { board, mut passes } = Board::new(rt.alloc(), &(), 5, 1)?;
        let Some(mut pass) = next_pass(&board, &mut passes) else {
            panic!(rt; "found no pass, wanted one")
        };
        let carried = carry_leaves(rt.alloc(), &board, &mut pass, 4)?;
        assert!(rt; carried, "found less than 4 leaves");
        if in_hand {
            assert_eq!(rt; board.claim(&mut pass), Some(4));
        }
        let mut all = Vec::new(rt.alloc());
        all.push(pass)?;
        let closed = board.close(all).is_some();
        assert!(rt;
            !closed,
            "found a closed board, wanted a leaf to be missing"
        );
    }
    Ok(())
}
