//! A list cell to which two paths push a number each, one after the other.
ghost use Rattle.std.specs.Prelude.{◌≡◌, ◌∷◌, ◌++◌, [], List, IfOk};
ghost use Rattle.sym_base.specs.declared.values.state.State.{State as OneState};
ghost use Rattle.sym_base.specs.declared.values.value.Value.{Value as OneValue};
ghost use Rattle.sym_base.specs.declared.values.value.Value.TheVariants.{Num};
ghost use Rattle.sym_int.specs.Elements.{CanGoThrough, Covers, led_to};
ghost use Rattle.sym_int.specs.Lines.{form_value};
ghost use Rattle.sym_uses.specs.ListForms.{numbers_at};

use std::alloc::Global;
use sym_base::NoMemory;
use sym_int::{IntForm, IntForms};
use sym_vector::ListForm;

/// The list form of two paths, of which the first pushes `first`, and the second `second` in terms
/// of the state after the first. `context` has the forms that the first path leaves to the integer
/// cells.
pub fn pushed_in_turn(
    alloc: Global,
    first: IntForm,
    second: IntForm,
    context: &IntForms,
) -> Result<ListForm<IntForm>, NoMemory>
    requires { CanGoThrough second context.now }
    ensures { IfOk result (λ form. (state : OneState) (old : List OneValue) →
        Covers context.now state →
        numbers_at form state old ≡
        old ++ Num (form_value first state) ∷
        Num (form_value second (led_to context.now state)) ∷ []) }
{
    let left = ListForm::same(alloc).push(alloc, first)?;
    let right = ListForm::same(alloc).push(alloc, second)?;
    Ok(right.go_through(left, context)?)
}

#[cfg(test)]
mod tests {
    use super::*;
    use std::test::Fail;
    use sym_base::Sequence;
    use sym_int::{Line, Number, Span};

    /// The first path adds 1 to cell 0, which was 0 to 9, and both push `2x + 1`.
    #[test]
    fn a_number_is_pushed_before_and_after_a_change(rt: HostRuntime) -> Result<(), Fail> {
        let alloc = rt.alloc();
        let mut forms = Sequence::new(alloc);
        forms.push(IntForm::Line(Line::of(0, 1, 1)))?;
        let mut spans = Sequence::new(alloc);
        spans.push(Span { lo: 0, hi: 9 })?;
        let context = IntForms { forms, spans };
        let pushed = IntForm::Line(Line::of(0, 2, 1));
        let form = pushed_in_turn(alloc, pushed, pushed, &context)?;
        let later = Line::new(0, 2, 3).ok_or("line")?;
        assert!(rt; form.len() == 2);
        assert!(rt; form.at(0) == Some(&pushed));
        assert!(rt; form.at(1) == Some(&IntForm::Line(later)));
        Ok(())
    }

    /// Where cell 0 is known to hold 4, `2x + 1` is 9.
    #[test]
    fn a_number_is_known_where_its_cell_is(rt: HostRuntime) -> Result<(), Fail> {
        let alloc = rt.alloc();
        let pushed = IntForm::Line(Line::of(0, 2, 1));
        let mut form = ListForm::same(alloc).push(alloc, pushed)?;
        let nine = IntForm::Const(Number { value: 9 });
        let known = form.fixed(alloc, 0, 4)?;
        assert!(rt; known.at(0) == Some(&nine));
        form.fix(0, 4);
        assert!(rt; form == known);
        Ok(())
    }

    /// A constant goes through every context, so that one of no cells serves it.
    #[test]
    fn constants_need_no_context(rt: HostRuntime) -> Result<(), Fail> {
        let alloc = rt.alloc();
        let context = IntForms {
            forms: Sequence::new(alloc),
            spans: Sequence::new(alloc),
        };
        let seven = IntForm::Const(Number { value: 7 });
        let form = pushed_in_turn(alloc, seven, seven, &context)?;
        assert!(rt; form.len() == 2 && form.at(1) == Some(&seven));
        assert!(rt; form.copy(alloc)? == form);
        Ok(())
    }
}
