//! Sets of labels and the forms of enum cells.
use std::alloc::{AllocError, Global};
use std::test::Fail;
use sym_base::{Cell, Cells, State};
use sym_enum::{EnumForm, LabelSet, PulledLabels};

/// The labels of a set, and any above 31 that it might have.
fn labels_of(alloc: Global, set: &LabelSet) -> Result<Vec<u8>, AllocError> {
    let mut labels = Vec::new(alloc);
    'labels: for label in 0..64u8 {
        if set.has(label) {
            labels.push(label)?;
        }
    }
    Ok(labels)
}

#[test]
fn sets_of_labels_by_their_members(rt: HostRuntime) -> Result<(), Fail> {
    let alloc = rt.alloc();
    let all = LabelSet::full(3);
    let (one, rest) = all.split(1);
    let most = LabelSet::one(31);
    let (none, same) = all.split(40);
    let rows: [(LabelSet, &[u8]); 8] = [
        (all, &[0, 1, 2]),
        (one, &[1]),
        (rest, &[0, 2]),
        (most, &[31]),
        (one.unite(&rest), &[0, 1, 2]),
        (one.meet(&rest), &[]),
        (none, &[]),
        (same, &[0, 1, 2]),
    ];
    for (set, wanted) in rows {
        assert_eq!(rt; labels_of(alloc, &set)?.as_slice(), wanted);
    }
    assert_eq!(rt; labels_of(alloc, &LabelSet::full(32))?.len(), 32);
    let only = (one.only(), rest.only(), most.only());
    assert_eq!(rt; only, (Some(1), None, Some(31)));
    let empty = (one.is_empty(), none.is_empty());
    assert_eq!(rt; empty, (false, true));
    Ok(())
}

/// What a form is: a label, or the cell of which it is a copy.
#[derive(Clone, Copy, Debug, PartialEq, Eq)]
enum Said {
    Label(u8),
    Cell(u16),
}

fn shown(form: &EnumForm) -> Said {
    match form {
        EnumForm::Const(label) => Said::Label(*label),
        EnumForm::Copy(cell) => Said::Cell(*cell),
    }
}

#[test]
fn forms_at_a_state_and_through_an_earlier_form(rt: HostRuntime) -> Result<(), Fail> {
    let mut cells = Cells::new(rt.alloc());
    cells.push(Cell::Int(7))?;
    cells.push(Cell::Enum(3))?;
    let state = State { cells };
    let (two, copy) = (EnumForm::Const(2), EnumForm::Copy(1));
    assert_eq!(rt; (two.value(&state), copy.value(&state)), (2, 3));
    assert_eq!(rt; EnumForm::Copy(0).value(&state), 0);
    assert_eq!(rt; shown(&EnumForm::Copy(4).through(&copy)), Said::Cell(1));
    assert_eq!(rt; shown(&two.through(&copy)), Said::Label(2));
    Ok(())
}

/// The cell of which a set of labels is pulled, and its only label.
#[derive(Clone, Copy, Debug, PartialEq, Eq)]
enum Pull {
    All,
    Never,
    In(u16, Option<u8>),
}

fn pulled(set: &LabelSet, form: &EnumForm) -> Pull {
    match EnumForm::pull(set, form) {
        PulledLabels::All => Pull::All,
        PulledLabels::Never => Pull::Never,
        PulledLabels::In { cell, set } => Pull::In(cell, set.only()),
    }
}

#[test]
fn a_constant_pulls_all_or_none_and_a_copy_its_cell(rt: HostRuntime) {
    let set = LabelSet::one(2);
    assert_eq!(rt; pulled(&set, &EnumForm::Const(2)), Pull::All);
    assert_eq!(rt; pulled(&set, &EnumForm::Const(3)), Pull::Never);
    assert_eq!(rt; pulled(&set, &EnumForm::Copy(5)), Pull::In(5, Some(2)));
}
