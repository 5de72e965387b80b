//! A path's constraint narrowed in one cell, and its forms taken on it, in place.
ghost use Rattle.std.specs.Prelude.{◌≡◌, ℤ, All, map, slice_get, slice_set};
ghost use Rattle.std.specs.List.{AllZip};
ghost use Rattle.sym_path.specs.Narrowing.{with_label, end_with_label, CanPutNumber, CanPutAtEnd, NumberIsPut, NumberIsPutAtEnd, LabelsNarrowed, NumbersNarrowed, GivesWhere, NarrowsLabels, NarrowsNumbers};
ghost use Rattle.sym_check.specs.Plan.ScriptPlans.{script_plan};
ghost use Rattle.sym_check.specs.Plan.WellFormed.{IsWellFormed};
ghost use Rattle.sym_path.specs.Changing.{GoesOn};
ghost use Rattle.sym_path.specs.Fitting.{PathFits};
ghost use Rattle.sym_path.specs.declared.part.Part.TheVariants as part;
ghost use Rattle.sym_path.specs.declared.path.PathEnd.TheVariants.{Ended};
ghost use Rattle.sym_base.specs.declared.values.state.Fault.{Fault as OneFault};

use crate::form::{Form, Forms};
use crate::part::Part;
use crate::path::{Path, PathEnd};
use std::mem;
use sym_base::{Element, Fault, FaultKind, Sequence};
use sym_check::Plan;
use sym_enum::{EnumForm, LabelSet};
use sym_int::Span;

impl Form {
    /// Puts the label in the place of the enum cell with this number.
    fn put_label(&mut self, cell: u16, label: u8)
        ensures { self.new ≡ with_label cell label self.old }
    {
        if let Form::Enum(EnumForm::Copy(own)) = self {
            if *own == cell {
                *self = Form::Enum(EnumForm::Const(label));
            }
        }
    }

    /// Puts the number in the place of the integer cell with this number.
    fn put_number(&mut self, cell: u16, value: i64)
        requires { CanPutNumber cell value self.old }
        ensures { NumberIsPut cell value self.old self.new }
    {
        match self {
            Form::Int(form) => form.fix(cell, value),
            Form::Nums(added) => added.fix(cell, value),
            Form::Enum(_) => {}
            Form::Hold(_) => {}
            Form::Words(_) => {}
        }
    }
}

/// Puts the label in the place of the enum cell in each form.
fn put_labels(forms: &mut [Form], cell: u16, label: u8)
    ensures { forms.new ≡ map (with_label cell label) forms.old }
{
    'forms: for form in forms.iter_mut() {
        form.put_label(cell, label);
    }
}

/// Puts the number in the place of the integer cell in each form.
fn put_numbers(forms: &mut [Form], cell: u16, value: i64)
    requires { All (CanPutNumber cell value) forms.old }
    ensures { AllZip (NumberIsPut cell value) forms.old forms.new }
{
    'forms: for form in forms.iter_mut() {
        form.put_number(cell, value);
    }
}

pub(crate) fn labels_put(forms: Forms, cell: u16, label: u8) -> Forms
    ensures { result ≡ map (with_label cell label) forms }
{
    let mut items = forms.into_vec();
    put_labels(&mut items, cell, label);
    Sequence::of(items)
}

pub(crate) fn numbers_put(forms: Forms, cell: u16, value: i64) -> Forms
    requires { All (CanPutNumber cell value) forms }
    ensures { AllZip (NumberIsPut cell value) forms result }
{
    let mut items = forms.into_vec();
    put_numbers(&mut items, cell, value);
    Sequence::of(items)
}

/// What stands in the place of an end while that is changed.
fn no_end() -> PathEnd {
    PathEnd::Ended(Fault {
        kind: FaultKind::Arith,
        no: 0,
    })
}

impl PathEnd {
    /// Puts the label in the place of the enum cell with this number.
    fn with_label(self, cell: u16, label: u8) -> PathEnd
        ensures { result ≡ end_with_label cell label self }
    {
        match self {
            PathEnd::Next(forms) => PathEnd::Next(labels_put(forms, cell, label)),
            PathEnd::Ended(fault) => PathEnd::Ended(fault),
        }
    }

    /// Puts the number in the place of the integer cell with this number.
    fn with_number(self, cell: u16, value: i64) -> PathEnd
        requires { CanPutAtEnd cell value self }
        ensures { NumberIsPutAtEnd cell value self result }
    {
        match self {
            PathEnd::Next(forms) => PathEnd::Next(numbers_put(forms, cell, value)),
            PathEnd::Ended(fault) => PathEnd::Ended(fault),
        }
    }
}

impl Path {
    /// Puts the set in the place of the part of an enum cell, and its only label in the place of
    /// the cell.
    fn set_labels(&mut self, cell: u16, set: LabelSet)
        ensures { LabelsNarrowed cell set self.old self.new }
    {
        self.when.set(usize::from(cell), Part::Set(set));
        if let Some(label) = set.only() {
            let end = mem::replace(&mut self.end, no_end());
            self.end = end.with_label(cell, label);
        }
    }

    /// Puts the span in the place of the part of an integer cell, and its only number in the place
    /// of the cell.
    fn set_numbers(&mut self, cell: u16, span: &Span)
        requires { span.now.lo ≡ span.now.hi → CanPutAtEnd cell span.now.lo self.old.end }
        ensures { NumbersNarrowed cell span.now self.old self.new }
    {
        self.when.set(usize::from(cell), Part::Span(*span));
        if span.lo == span.hi {
            let end = mem::replace(&mut self.end, no_end());
            self.end = end.with_number(cell, span.lo);
        }
    }

    /// Narrows the labels of an enum cell to a set with some of them, and takes the forms on it.
    /// What the path gives stays the same where the cell's label is in the set, and it gives
    /// nothing elsewhere. It takes no memory.
    pub fn narrow_labels(&mut self, _plan: &Plan, cell: u16, set: LabelSet)
        requires fits { PathFits (script_plan _plan.now) self.old }
        requires narrower { NarrowsLabels set (slice_get self.old.when cell) }
        ensures fits { PathFits (script_plan _plan.now) self.new }
        ensures gives { GivesWhere self.old cell (part.Set set) self.new }
        ensures next { GoesOn self.old.end → GoesOn self.new.end }
        ensures ended { (fault : OneFault) →
            self.old.end ≡ Ended fault → self.new.end ≡ Ended fault }
        ensures when { self.new.when ≡ slice_set self.old.when cell (part.Set set) }
    {
        self.set_labels(cell, set);
    }

    /// Narrows the numbers of an integer cell to a span within them, and takes the forms on it.
    /// What the path gives stays the same where the cell's number is in the span, and it gives
    /// nothing elsewhere. It takes no memory.
    pub fn narrow_numbers(&mut self, _plan: &Plan, cell: u16, span: &Span)
        requires known { IsWellFormed (script_plan _plan.now) }
        requires fits { PathFits (script_plan _plan.now) self.old }
        requires narrower { NarrowsNumbers span.now (slice_get self.old.when cell) }
        ensures fits { PathFits (script_plan _plan.now) self.new }
        ensures gives { GivesWhere self.old cell (part.Span span.now) self.new }
        ensures next { GoesOn self.old.end → GoesOn self.new.end }
        ensures ended { (fault : OneFault) →
            self.old.end ≡ Ended fault → self.new.end ≡ Ended fault }
        ensures when { self.new.when ≡ slice_set self.old.when cell (part.Span span.now) }
    {
        self.set_numbers(cell, span);
    }
}
