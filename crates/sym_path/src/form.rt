//! What a path makes of one cell.
ghost use Rattle.std.specs.Prelude.{◌≡◌, IfOk};

use std::alloc::Global;
use sym_base::{NoMemory, Plain, Sequence, Text};
use sym_enum::EnumForm;
use sym_int::IntForm;
use sym_pred::HoldForm;
use sym_vector::ListForm;

/// What one cell holds after a path, over the state before it.
#[derive(PartialEq, Eq, Drop)]
pub enum Form {
    Enum(EnumForm),
    Int(IntForm),
    Hold(HoldForm),
    /// The old list of the cell with these numbers after it.
    Nums(ListForm<IntForm>),
    /// The old list of the cell with these words after it.
    Words(ListForm<Text>),
}

/// One form for each cell.
pub type Forms = Sequence<Form>;

impl Form {
    /// An equal form of its own.
    pub fn copy(&self, alloc: Global) -> Result<Form, NoMemory>
        ensures { IfOk result (λ form. form ≡ self.now) }
    {
        match self {
            Form::Enum(form) => Ok(Form::Enum(*form)),
            Form::Int(form) => Ok(Form::Int(*form)),
            Form::Hold(form) => Ok(Form::Hold(form.copy(alloc)?)),
            Form::Nums(form) => Ok(Form::Nums(form.copy(alloc)?)),
            Form::Words(form) => Ok(Form::Words(form.copy(alloc)?)),
        }
    }
}

impl Plain for Form {
    fn copied(&self, alloc: Global) -> Result<Form, NoMemory> {
        self.copy(alloc)
    }
}
