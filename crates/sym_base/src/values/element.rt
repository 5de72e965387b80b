//! What a list form is a list of: elements whose value depends on the state.
ghost use Rattle.std.specs.Prelude.{◌≡◌, ℕ, ℤ, IfOk};
ghost use Rattle.sym_base.specs.declared.values.state.State.{State as OneState};
ghost use Rattle.sym_base.specs.declared.values.value.Value.{Value as OneValue};
ghost use Rattle.sym_base.specs.declared.values.value.Value.TheVariants.{Word};
ghost use Rattle.sym_base.specs.States.{HoldsInt, with_int};

use crate::values::memory::NoMemory;
use crate::values::text::Text;
use std::alloc::Global;

/// An element of a list form: an expression over an unknown state.
pub trait Element: Sized + Drop {
    /// What an earlier path says of the state that the element is read at.
    type Context;

    // The element's value at a state.
    ghost value_at: { Self → OneState → OneValue };

    // The states that a context speaks of.
    ghost covers: { Self.Context → OneState → Type 0 };

    // The state that a context makes of a state that it covers.
    ghost leads_to: { Self.Context → OneState → OneState };

    // The condition of `through` and `go_through`.
    ghost can_go_through: { Self → Self.Context → Type 0 };

    // The condition of `fixed` and `fix`.
    ghost can_fix: { Self → ℕ → ℤ → Type 0 };

    // What an element becomes through a context.
    ghost goes_through_to: { Self → Self.Context → Self → Type 0 };

    // What an element becomes where the integer cell with this number holds this.
    ghost is_fixed_to: { Self → ℕ → ℤ → Self → Type 0 };

    /// An equal element of its own.
    fn copy(&self, alloc: Global) -> Result<Self, NoMemory>
        ensures { IfOk result (λ e. e ≡ self.now) };

    /// Makes the element what it becomes through the context. It takes no memory.
    fn go_through(&mut self, context: &Self::Context)
        requires { can_go_through self.old context.now }
        ensures element { goes_through_to self.old context.now self.new }
        ensures value { (state : OneState) → covers context.now state →
            value_at self.new state ≡ value_at self.old (leads_to context.now state) };

    /// Makes the element what it becomes where the integer cell with this number holds `value`. It
    /// takes no memory.
    fn fix(&mut self, cell: u16, value: i64)
        requires { can_fix self.old cell value }
        ensures element { is_fixed_to self.old cell value self.new }
        ensures value { (state : OneState) (x : ℤ) → HoldsInt state cell x →
            value_at self.new state ≡ value_at self.old (with_int state cell value) };

    /// The element that this one becomes through the context: its value at each state that the
    /// context covers is this element's value at the state that the context makes of it.
    fn through(&self, alloc: Global, context: &Self::Context) -> Result<Self, NoMemory>
        requires { can_go_through self.now context.now }
        ensures element { IfOk result (goes_through_to self.now context.now) }
        ensures value { IfOk result (λ e. (state : OneState) → covers context.now state →
            value_at e state ≡ value_at self.now (leads_to context.now state)) }
    {
        let mut element = self.copy(alloc)?;
        element.go_through(context);
        Ok(element)
    }

    /// The element that this one becomes where the integer cell with this number holds `value`:
    /// its value at each state is this element's value at the state in which the cell holds that.
    fn fixed(&self, alloc: Global, cell: u16, value: i64) -> Result<Self, NoMemory>
        requires { can_fix self.now cell value }
        ensures element { IfOk result (is_fixed_to self.now cell value) }
        ensures value { IfOk result (λ e. (state : OneState) (x : ℤ) → HoldsInt state cell x →
            value_at e state ≡ value_at self.now (with_int state cell value)) }
    {
        let mut element = self.copy(alloc)?;
        element.fix(cell, value);
        Ok(element)
    }
}

/// A text is the same at every state.
impl Element for Text {
    type Context = ();

    ghost value_at = { λ text _. Word text };

    ghost covers = { λ _ _. Unit {0} };

    ghost leads_to = { λ _ state. state };

    ghost can_go_through = { λ _ _. Unit {0} };

    ghost can_fix = { λ _ _ _. Unit {0} };

    ghost goes_through_to = { λ text _ after. after ≡ text };

    ghost is_fixed_to = { λ text _ _ after. after ≡ text };

    fn copy(&self, alloc: Global) -> Result<Text, NoMemory> {
        Text::copy(self, alloc)
    }

    fn go_through(&mut self, _context: &()) {}

    fn fix(&mut self, _cell: u16, _value: i64) {}
}
