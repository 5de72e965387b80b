//! Integer forms as the elements of list forms.
ghost use Rattle.std.specs.Prelude.{◌≡◌, ℤ, IfOk, slice_get};
ghost use Rattle.sym_base.specs.declared.values.state.State.{State as OneState};
ghost use Rattle.sym_base.specs.declared.values.value.Value.TheVariants.{Num};
ghost use Rattle.sym_int.specs.Elements.{Covers, InSpans, StaysOn, CanGoThrough, CanFix, GoesThroughTo, IsFixedTo, IsOnSpans, led_to};
ghost use Rattle.sym_base.specs.States.{HoldsInt, with_int};
ghost use Rattle.sym_int.specs.Lines.{form_value, wide_on, wide_cell, wide_value};

use crate::form::{IntForm, Number};
use crate::span::Span;
use crate::wide::Wide;
use std::alloc::Global;
use sym_base::{Element, NoMemory, Plain, Sequence};

/// A list of integer forms.
pub type FormList = Sequence<IntForm>;

/// A list of spans.
pub type Spans = Sequence<Span>;

/// What an earlier path says of the integer cells: the form of each cell, and the span in which
/// the cell lies before the path. Both lists have one entry for each cell; where a cell isn't an
/// integer cell, these are the constant 0 and the span from 0 to 0.
#[derive(PartialEq, Eq, Drop)]
pub struct IntForms {
    pub forms: FormList,
    pub spans: Spans,
}

impl Plain for IntForm {
    fn copied(&self, _alloc: Global) -> Result<IntForm, NoMemory> {
        Ok(*self)
    }
}

impl Plain for Span {
    fn copied(&self, _alloc: Global) -> Result<Span, NoMemory> {
        Ok(*self)
    }
}

impl IntForms {
    /// Equal forms and spans of their own.
    pub fn copy(&self, alloc: Global) -> Result<IntForms, NoMemory>
        ensures { IfOk result (λ forms. forms ≡ self.now) }
    {
        Ok(IntForms {
            forms: self.forms.copy(alloc)?,
            spans: self.spans.copy(alloc)?,
        })
    }
}

/// The form on the span of the cell that it names.
fn taken_on(wide: &Wide, spans: &Spans) -> IntForm
    requires { StaysOn (wide_on wide.now) (wide_cell wide.now) (slice_get spans.now) }
    ensures form { IsOnSpans (wide_on wide.now) (wide_cell wide.now) (slice_get spans.now) result }
    ensures value { (state : OneState) → InSpans spans.now state →
        form_value result state ≡ wide_value wide.now state }
{
    match wide {
        Wide::Const(number) => IntForm::Const(Number {
            value: number.value as i64,
        }),
        Wide::Line(line) => match spans.get(line.cell as usize) {
            Some(span) => wide.taken(span),
            None => unreachable!(),
        },
    }
}

/// What a form becomes through a context.
fn led_through(form: &IntForm, context: &IntForms) -> IntForm
    requires { CanGoThrough form.now context.now }
    ensures element { GoesThroughTo form.now context.now result }
    ensures value { (state : OneState) → Covers context.now state →
        form_value result state ≡ form_value form.now (led_to context.now state) }
{
    match form {
        IntForm::Const(_) => *form,
        IntForm::Line(line) => match context.forms.get(line.cell as usize) {
            Some(inner) => {
                let wide = IntForm::through(form, inner);
                taken_on(&wide, &context.spans)
            }
            None => unreachable!(),
        },
    }
}

/// What a form becomes where the integer cell with this number holds `value`.
fn fixed_at(form: &IntForm, cell: u16, value: i64) -> IntForm
    requires { CanFix form.now cell value }
    ensures element { IsFixedTo form.now cell value result }
    ensures value { (state : OneState) (x : ℤ) → HoldsInt state cell x →
        form_value result state ≡ form_value form.now (with_int state cell value) }
{
    match form {
        IntForm::Const(_) => *form,
        IntForm::Line(line) => {
            if line.cell != cell {
                return *form;
            }
            let value = line.at(value) as i64;
            IntForm::Const(Number { value })
        }
    }
}

/// An integer form is its number at each state.
impl Element for IntForm {
    type Context = IntForms;

    ghost value_at = { λ form state. Num (form_value form state) };

    ghost covers = { Covers };

    ghost leads_to = { led_to };

    ghost can_go_through = { CanGoThrough };

    ghost can_fix = { CanFix };

    ghost goes_through_to = { GoesThroughTo };

    ghost is_fixed_to = { IsFixedTo };

    fn copy(&self, _alloc: Global) -> Result<IntForm, NoMemory> {
        Ok(*self)
    }

    fn go_through(&mut self, context: &IntForms) {
        *self = led_through(self, context);
    }

    fn fix(&mut self, cell: u16, value: i64) {
        *self = fixed_at(self, cell, value);
    }
}
