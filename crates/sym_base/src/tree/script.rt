//! A whole script.
ghost use Rattle.std.specs.Prelude.{◌≡◌, IfOk};
ghost use Rattle.sym_base.specs.Trees.{script_tree};

use crate::tree::declaration::{ColumnDecls, EnumDecls, FieldDecls, StateDecls, TestDecls};
use crate::tree::name::Names;
use crate::tree::statement::Stmts;
use crate::values::memory::NoMemory;
use std::alloc::Global;

/// A script: its declarations in order, its update and its report.
pub struct Script {
    pub enums: EnumDecls,
    pub fields: FieldDecls,
    /// The fields whose values tell groups apart, in the line's order; without a group line there
    /// are none, and all records are of one group.
    pub group: Names,
    pub states: StateDecls,
    pub tests: TestDecls,
    pub update: Stmts,
    pub columns: ColumnDecls,
}

impl Drop for Script {
    fn drop(self) {
        let Script {
            enums: _enums,
            fields: _fields,
            group: _group,
            states: _states,
            tests: _tests,
            update: _update,
            columns: _columns,
        } = self;
    }
}

impl Script {
    /// An equal script of its own.
    pub fn copy(&self, alloc: Global) -> Result<Script, NoMemory>
        ensures { IfOk result (λ s. script_tree s ≡ script_tree self.now) }
    {
        let enums = self.enums.copy(alloc)?;
        let fields = self.fields.copy(alloc)?;
        let group = self.group.copy(alloc)?;
        let states = self.states.copy(alloc)?;
        let tests = self.tests.copy(alloc)?;
        let update = self.update.copy(alloc)?;
        let columns = self.columns.copy(alloc)?;
        Ok(Script {
            enums,
            fields,
            group,
            states,
            tests,
            update,
            columns,
        })
    }
}
