//! The forms of hold cells.
use std::alloc::Global;
use std::test::Fail;
use sym_base::{Cell, NoMemory, Sequence, State, Value, Values};
use sym_pred::HoldForm;

fn parts(alloc: Global, value: i64) -> Result<Values, NoMemory> {
    let mut parts = Values::new(alloc);
    parts.push(Value::Num(value))?;
    Ok(parts)
}

/// The parts of a form, or the cell of which it is a copy.
fn shown(form: &HoldForm) -> (&[Value], Option<u16>) {
    match form {
        HoldForm::Const(parts) => (parts.as_slice(), None),
        HoldForm::Copy(cell) => (&[], Some(*cell)),
    }
}

#[test]
fn a_form_gives_its_parts_or_those_of_the_copied_cell(rt: HostRuntime) -> Result<(), Fail> {
    let alloc = rt.alloc();
    let mut cells = Sequence::new(alloc);
    cells.push(Cell::Int(3))?;
    cells.push(Cell::Hold(parts(alloc, 7)?))?;
    let state = State { cells };
    let fixed = HoldForm::Const(parts(alloc, 5)?);
    let (own, copied) = (
        fixed.value(alloc, &state)?,
        HoldForm::Copy(1).value(alloc, &state)?,
    );
    assert_eq!(rt; own.as_slice(), [Value::Num(5)].as_slice());
    assert_eq!(rt; copied.as_slice(), [Value::Num(7)].as_slice());
    Ok(())
}

#[test]
fn a_copy_becomes_the_form_of_the_copied_cell(rt: HostRuntime) -> Result<(), Fail> {
    let alloc = rt.alloc();
    let inner = HoldForm::Copy(2);
    let fixed = HoldForm::Const(parts(alloc, 5)?);
    let through = HoldForm::Copy(1).through(alloc, &inner)?;
    assert_eq!(rt; shown(&through), shown(&inner));
    let through = HoldForm::Copy(1).through(alloc, &fixed)?;
    assert_eq!(rt; shown(&through), shown(&fixed));
    let through = fixed.through(alloc, &inner)?;
    assert_eq!(rt; shown(&through), shown(&fixed));
    let copied = fixed.copy(alloc)?;
    assert_eq!(rt; shown(&copied), shown(&fixed));
    let through = HoldForm::Copy(1).go_through(alloc, &fixed)?;
    assert_eq!(rt; shown(&through), shown(&fixed));
    let through = copied.go_through(alloc, &inner)?;
    assert_eq!(rt; shown(&through), shown(&fixed));
    Ok(())
}
