//! The line that `check` writes of a script.
ghost use Rattle.std.specs.Prelude.{◌≡◌, IfOk};
ghost use Rattle.sym_check.specs.Checking.CheckedScripts.{checked_plan};
ghost use Rattle.sym_message.specs.CheckLines.{check_line};

use crate::number_texts::push_number;
use std::alloc::Global;
use sym_base::NoMemory;
use sym_check::Checked;

/// The numbers of cells and of tests of a script, and its path bound, in one line.
pub fn check_line(alloc: Global, checked: &Checked) -> Result<Vec<u8>, NoMemory>
    ensures { IfOk result (λ line. line.items ≡ check_line (checked_plan checked.now)) }
{
    let plan = checked.plan();
    let mut line = Vec::new(alloc);
    push_number(&mut line, "cells ", plan.cells.len() as u128)?;
    push_number(&mut line, " tests ", plan.tests.len() as u128)?;
    push_number(&mut line, " paths ", u128::from(checked.path_bound()))?;
    line.extend_from_slice(b"\n")?;
    Ok(line)
}
