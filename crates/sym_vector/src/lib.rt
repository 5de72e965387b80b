//! List cells: what a path makes of the list that one of them holds.
#![tactic(auto)]

ghost use Rattle.std.specs.Prelude.{◌≡◌, ℤ, [], ◌∷◌, ◌++◌, All, IfOk, length, take, drop, slice_get, option_copied, ◌==◌, List};
ghost use Rattle.std.specs.List.{AllZip};
ghost use Rattle.sym_base.specs.States.{HoldsInt, with_int};
ghost use Rattle.sym_base.specs.declared.values.state.State.{State as OneState};
ghost use Rattle.sym_base.specs.declared.values.value.Value.{Value as OneValue};
ghost use Rattle.sym_vector.specs.Lists.{list_at};

use std::alloc::Global;
use std::marker::Model;
use sym_base::{Element, NoMemory};

/// The list of a cell in terms of the state at the start of a path: the old list of that cell with
/// the elements `added` after it. A contract sees the list of the added elements.
#[derive(Drop)]
pub struct ListForm<E> {
    added: Vec<E>,
}

impl<E> Model for ListForm<E> {
    ghost use Rattle.std.specs.Prelude.{List};

    ghost Value = { List E };

    ghost view = { λ form. form.added.items };
}

impl<E: PartialEq> PartialEq for ListForm<E> {
    ghost use Rattle.std.specs.Cmp.Lexicographic.{pointwise, lists_per};

    ghost eq = { pointwise E.eq };

    ghost laws = { lists_per E.laws };

    fn eq(&self, other: &ListForm<E>) -> bool {
        self.added == other.added
    }
}

impl<E: Eq> Eq for ListForm<E> {
    ghost use Rattle.std.specs.Cmp.Lexicographic.{lists_equiv};

    ghost laws = { lists_equiv E.Eq.laws };
}

impl<E: Element> ListForm<E> {
    /// The form that adds nothing to the old list. It takes no memory.
    pub fn same(alloc: Global) -> ListForm<E>
        ensures { result ≡ [] }
    {
        ListForm {
            added: Vec::new(alloc),
        }
    }

    /// The number of added elements.
    pub fn len(&self) -> usize
        ensures { result ≡ length self.now }
    {
        self.added.len()
    }

    /// Whether no element is added.
    pub fn is_empty(&self) -> bool
        ensures { result ≡ (length self.now == 0) }
    {
        self.added.is_empty()
    }

    /// The added element at `index`, counted from 0; `None` where at most `index` are added.
    pub fn at(&self, index: usize) -> Option<&E>
        ensures { option_copied result ≡ slice_get self.now index }
    {
        self.added.as_slice().get(index)
    }

    /// The form with `element` after the others. The first one takes memory for one alone: most
    /// forms of a short run have one. After an `Err` both the form and the element are dropped.
    pub fn push(self, _alloc: Global, element: E) -> Result<ListForm<E>, NoMemory>
        ensures { IfOk result (λ form. form ≡ self ++ element ∷ []) }
    {
        let mut added = self.added;
        if added.is_empty() {
            added.reserve_exact(1)?;
        }
        added.push(element)?;
        Ok(ListForm { added })
    }

    /// An equal form of its own.
    pub fn copy(&self, alloc: Global) -> Result<ListForm<E>, NoMemory>
        ensures { IfOk result (λ form. form ≡ self.now) }
    {
        let mut added = Vec::with_capacity(alloc, self.added.len())?;
        'elements: for element in self.added.as_slice() {
            added.push(element.copy(alloc)?)?;
        }
        Ok(ListForm { added })
    }

    /// This form after the form `left` of the same cell: the elements of `left`, and then each of
    /// these taken through the context. After an `Err` the arguments are as before.
    pub fn through(
        &self,
        alloc: Global,
        left: &ListForm<E>,
        context: &E::Context,
    ) -> Result<ListForm<E>, NoMemory>
        requires { All (λ element. E.can_go_through element context.now) self.now }
        ensures first { IfOk result (λ form. take (length left.now) form ≡ left.now) }
        ensures elements { IfOk result (λ form.
            AllZip (λ old new. E.goes_through_to old context.now new)
            self.now (drop (length left.now) form)) }
        ensures values { IfOk result (λ form.
            AllZip (λ old new. (state : OneState) → E.covers context.now state →
            E.value_at new state ≡ E.value_at old (E.leads_to context.now state))
            self.now (drop (length left.now) form)) }

        // The list that the form gives is what this form makes, at the state that the context
        // leads to, of the list that `left` gives.
        ensures composed { IfOk result (λ form. (state : OneState) (old : List OneValue) →
            E.covers context.now state →
            list_at E.value_at form state old ≡
            list_at E.value_at self.now (E.leads_to context.now state)
            (list_at E.value_at left.now state old)) }
    {
        self.copy(alloc)?.go_through(left.copy(alloc)?, context)
    }

    /// `through` of a form and a left form that are given away: their elements are moved. After an
    /// `Err` both are dropped.
    pub fn go_through(
        self,
        left: ListForm<E>,
        context: &E::Context,
    ) -> Result<ListForm<E>, NoMemory>
        requires { All (λ element. E.can_go_through element context.now) self }
        ensures first { IfOk result (λ form. take (length left) form ≡ left) }
        ensures elements { IfOk result (λ form.
            AllZip (λ old new. E.goes_through_to old context.now new)
            self (drop (length left) form)) }
        ensures values { IfOk result (λ form.
            AllZip (λ old new. (state : OneState) → E.covers context.now state →
            E.value_at new state ≡ E.value_at old (E.leads_to context.now state))
            self (drop (length left) form)) }
        ensures composed { IfOk result (λ form. (state : OneState) (old : List OneValue) →
            E.covers context.now state →
            list_at E.value_at form state old ≡
            list_at E.value_at self (E.leads_to context.now state)
            (list_at E.value_at left state old)) }
    {
        let mut these = self.added;
        lead_each(&mut these, context);
        let mut added = left.added;
        added.append(&mut these)?;
        Ok(ListForm { added })
    }

    /// The form with the integer cell of number `cell` replaced by `value` in each element. After
    /// an `Err` the form is as before.
    pub fn fixed(&self, alloc: Global, cell: u16, value: i64) -> Result<ListForm<E>, NoMemory>
        requires { All (λ element. E.can_fix element cell value) self.now }
        ensures elements { IfOk result (λ form.
            AllZip (λ old new. E.is_fixed_to old cell value new) self.now form) }
        ensures each { IfOk result (λ form.
            AllZip (λ old new. (state : OneState) (x : ℤ) → HoldsInt state cell x →
            E.value_at new state ≡ E.value_at old (with_int state cell value))
            self.now form) }
        ensures list { IfOk result (λ form. (state : OneState) (x : ℤ) (old : List OneValue) →
            HoldsInt state cell x →
            list_at E.value_at form state old ≡
            list_at E.value_at self.now (with_int state cell value) old) }
    {
        let mut form = self.copy(alloc)?;
        form.fix(cell, value);
        Ok(form)
    }

    /// `fixed` in place. It takes no memory.
    pub fn fix(&mut self, cell: u16, value: i64)
        requires { All (λ element. E.can_fix element cell value) self.old }
        ensures elements { AllZip (λ old new. E.is_fixed_to old cell value new) self.old self.new }
        ensures each { AllZip (λ old new. (state : OneState) (x : ℤ) → HoldsInt state cell x →
            E.value_at new state ≡ E.value_at old (with_int state cell value))
            self.old self.new }
        ensures list { (state : OneState) (x : ℤ) (old : List OneValue) →
            HoldsInt state cell x →
            list_at E.value_at self.new state old ≡
            list_at E.value_at self.old (with_int state cell value) old }
    {
        fix_each(&mut self.added, cell, value);
    }
}

/// Makes each element what it becomes through the context.
fn lead_each<E: Element>(elements: &mut [E], context: &E::Context)
    requires { All (λ element. E.can_go_through element context.now) elements.old }
    ensures elements { AllZip (λ old new. E.goes_through_to old context.now new)
        elements.old elements.new }
    ensures values { AllZip (λ old new. (state : OneState) → E.covers context.now state →
        E.value_at new state ≡ E.value_at old (E.leads_to context.now state))
        elements.old elements.new }
{
    'these: for element in elements.iter_mut() {
        element.go_through(context);
    }
}

/// Makes each element what it becomes where the integer cell holds `value`.
fn fix_each<E: Element>(elements: &mut [E], cell: u16, value: i64)
    requires { All (λ element. E.can_fix element cell value) elements.old }
    ensures elements { AllZip (λ old new. E.is_fixed_to old cell value new)
        elements.old elements.new }
    ensures values { AllZip (λ old new. (state : OneState) (x : ℤ) → HoldsInt state cell x →
        E.value_at new state ≡ E.value_at old (with_int state cell value))
        elements.old elements.new }
{
    'each: for element in elements.iter_mut() {
        element.fix(cell, value);
    }
}
