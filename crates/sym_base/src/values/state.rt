//! The state of a group, and how a group stands after some records.
ghost use Rattle.std.specs.Prelude.{◌≡◌, IfOk};
ghost use Rattle.sym_base.specs.States.{label_at, number_at, parts_at, with_int};

use crate::values::memory::NoMemory;
use crate::values::sequence::{Plain, Sequence};
use crate::values::text::Words;
use crate::values::value::{Nums, Value, Values};
use std::alloc::Global;

/// What one cell of a state holds.
#[derive(PartialEq, Eq, Drop)]
pub enum Cell {
    /// The number of a label of the cell's enum, counted from 0.
    Enum(u8),
    /// A whole number in the cell's range.
    Int(i64),
    /// The parts of a hold cell, in order of declaration.
    Hold(Values),
    /// The numbers pushed so far, the oldest first.
    Nums(Nums),
    /// The words pushed so far, the oldest first.
    Words(Words),
}

/// A list of cells.
pub type Cells = Sequence<Cell>;

/// A state: one cell for each `state` declaration of the script, in order.
#[derive(PartialEq, Eq)]
pub struct State {
    pub cells: Cells,
}

impl Drop for State {
    fn drop(self) {
        let State { cells: _cells } = self;
    }
}

/// Why a group ended early.
#[derive(Clone, Copy, Debug, PartialEq, Eq)]
pub enum FaultKind {
    /// A number outside the range of the cell with this number, counted from 0, was assigned
    /// or pushed to it.
    Over(u16),
    /// A step of an expression left the range of numbers or divided by zero.
    Arith,
}

/// The end of a group by a fault.
#[derive(Clone, Copy, Debug, PartialEq, Eq)]
pub struct Fault {
    pub kind: FaultKind,
    /// The number of the record at which it came.
    pub no: u64,
}

/// How a group stands after some records.
#[derive(PartialEq, Eq, Drop)]
pub enum Outcome {
    Going(State),
    Ended(Fault),
}

impl Cell {
    /// An equal cell of its own.
    pub fn copy(&self, alloc: Global) -> Result<Cell, NoMemory>
        ensures { IfOk result (λ c. c ≡ self.now) }
    {
        match self {
            Cell::Enum(label) => Ok(Cell::Enum(*label)),
            Cell::Int(number) => Ok(Cell::Int(*number)),
            Cell::Hold(parts) => Ok(Cell::Hold(parts.copy(alloc)?)),
            Cell::Nums(numbers) => Ok(Cell::Nums(numbers.copy(alloc)?)),
            Cell::Words(words) => Ok(Cell::Words(words.copy(alloc)?)),
        }
    }
}

impl Cell {
    // Makes this an integer cell with this number. A number has no memory to give up.
    fn set_int(&mut self, number: i64)
        ensures { self.new ≡ Cell.Int number }
    {
        match self {
            Cell::Int(held) => *held = number,
            Cell::Enum(_) | Cell::Hold(_) | Cell::Nums(_) | Cell::Words(_) => {
                *self = Cell::Int(number);
            }
        }
    }
}

impl Plain for Cell {
    fn copied(&self, alloc: Global) -> Result<Cell, NoMemory> {
        self.copy(alloc)
    }
}

impl State {
    /// An equal state of its own.
    pub fn copy(&self, alloc: Global) -> Result<State, NoMemory>
        ensures { IfOk result (λ s. s ≡ self.now) }
    {
        Ok(State {
            cells: self.cells.copy(alloc)?,
        })
    }

    /// The label of the enum cell with this number, counted from 0; 0 where no enum cell has it.
    pub fn label_at(&self, cell: u16) -> u8
        ensures { result ≡ label_at self.now cell }
    {
        match self.cells.get(usize::from(cell)) {
            Some(Cell::Enum(label)) => *label,
            _ => 0,
        }
    }

    /// The number in the integer cell with this number, counted from 0; 0 where no integer cell
    /// has it.
    pub fn number_at(&self, cell: u16) -> i64
        ensures { result ≡ number_at self.now cell }
    {
        match self.cells.get(usize::from(cell)) {
            Some(Cell::Int(number)) => *number,
            _ => 0,
        }
    }

    /// The parts in the hold cell with this number, counted from 0; none where no hold cell has it.
    pub fn parts_at(&self, cell: u16) -> &[Value]
        ensures { result.now ≡ parts_at self.now cell }
    {
        match self.cells.get(usize::from(cell)) {
            Some(Cell::Hold(parts)) => parts.as_slice(),
            _ => &[],
        }
    }

    /// Puts a number into the cell with this number, counted from 0, which becomes an integer cell.
    /// Where the state has no such cell, it is as before.
    pub fn set_int(&mut self, cell: u16, number: i64)
        ensures { self.new ≡ with_int self.old cell number }
    {
        if let Some(cell) = self.cells.get_mut(usize::from(cell)) {
            cell.set_int(number);
        }
    }
}

impl Outcome {
    /// An equal outcome of its own.
    pub fn copy(&self, alloc: Global) -> Result<Outcome, NoMemory>
        ensures { IfOk result (λ o. o ≡ self.now) }
    {
        match self {
            Outcome::Going(state) => Ok(Outcome::Going(state.copy(alloc)?)),
            Outcome::Ended(fault) => Ok(Outcome::Ended(*fault)),
        }
    }
}
