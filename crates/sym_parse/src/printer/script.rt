//! A whole script.
ghost use Rattle.std.specs.Prelude.{◌≡◌, ◌++◌, IfOk, OnOk, map, ◌≤◌};
ghost use Rattle.std.specs.List.{flat_map};
ghost use Rattle.sym_base.specs.Lawful.{IsLawful};
ghost use Rattle.sym_base.specs.Limits.{max_depth};
ghost use Rattle.sym_base.specs.Sizes.{stmts_depth};
ghost use Rattle.sym_base.specs.Trees.{column_tree, script_tree, stmts_tree, test_tree};
ghost use Rattle.sym_parse.specs.Bare.{IsTextOf, ParsesAs};
ghost use Rattle.sym_parse.specs.Printed.{column_of, report_of, script_text, test_of, text, update_of};

use crate::printer::declaration::print_group;
use crate::printer::item::print_all;
use crate::printer::statement::print_stmts;
use crate::printer::token::put;
use std::alloc::Global;
use sym_base::{ColumnDecl, NoMemory, Script, Stmts, TestDecl};

#[tactic(auto, using(crate::proofs::Printout::Appended::flat_map_map))]
fn print_tests(out: &mut Vec<u8>, tests: &[TestDecl]) -> Result<(), NoMemory>
    ensures { OnOk result
        (out.new.items ≡ out.old.items ++ text (flat_map test_of (map test_tree tests.now))) }
{
    print_all(out, tests)
}

#[tactic(auto, using(crate::proofs::Printout::Appended::flat_map_map))]
fn print_columns(out: &mut Vec<u8>, columns: &[ColumnDecl]) -> Result<(), NoMemory>
    ensures { OnOk result
        (out.new.items ≡ out.old.items ++ text (flat_map column_of (map column_tree columns.now))) }
{
    print_all(out, columns)
}

#[tactic(auto, using(crate::proofs::Printout::Appended::text_append))]
fn print_update(out: &mut Vec<u8>, update: &Stmts) -> Result<(), NoMemory>
    requires { stmts_depth (stmts_tree update.now) ≤ max_depth }
    ensures { OnOk result
        (out.new.items ≡ out.old.items ++ text (update_of (stmts_tree update.now))) }
{
    put(out, b"update {\n")?;
    print_stmts(out, update, 1)?;
    put(out, b"}\n")
}

#[tactic(auto, using(crate::proofs::Printout::Appended::text_append))]
fn print_report(out: &mut Vec<u8>, columns: &[ColumnDecl]) -> Result<(), NoMemory>
    ensures { OnOk result
        (out.new.items ≡ out.old.items ++ text (report_of (map column_tree columns.now))) }
{
    put(out, b"report {\n")?;
    print_columns(out, columns)?;
    put(out, b"}\n")
}

#[tactic(auto, using(crate::proofs::Printout::Appended::text_append), unfolding(crate::specs::Printed::script_text, crate::specs::Printed::script))]
fn print_script(alloc: Global, script: &Script) -> Result<Vec<u8>, NoMemory>
    requires { stmts_depth (stmts_tree script.now.update) ≤ max_depth }
    ensures { IfOk result (λ printed. printed.items ≡ script_text (script_tree script.now)) }
{
    let mut out = Vec::new(alloc);
    print_all(&mut out, script.enums.as_slice())?;
    print_all(&mut out, script.fields.as_slice())?;
    print_group(&mut out, script.group.as_slice())?;
    print_all(&mut out, script.states.as_slice())?;
    print_tests(&mut out, script.tests.as_slice())?;
    print_update(&mut out, &script.update)?;
    print_report(&mut out, script.columns.as_slice())?;
    Ok(out)
}

/// The script's text in its one printed form: a declaration a line, parentheses exactly where the
/// tree needs them. It is the text of a script that is the same, places aside, so where it has
/// fewer than 2^32 bytes, `parse` of it gives that script.
pub fn print(alloc: Global, script: &Script) -> Result<Vec<u8>, NoMemory>
    requires { IsLawful (script_tree script.now) }
    ensures text { IfOk result (λ printed. printed.items ≡ script_text (script_tree script.now)) }
    ensures again { IfOk result (λ printed. IsTextOf printed.items (script_tree script.now)) }
    ensures parses { IfOk result (λ printed. ParsesAs printed.items (script_tree script.now)) }
{
    print_script(alloc, script)
}
