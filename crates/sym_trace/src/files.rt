//! The trace over all files.
ghost use Rattle.std.specs.Prelude.{◌≡◌, ◌≤◌, ℕ, List, IfOk, IfErr, length, map};
ghost use Rattle.std.specs.String.{string_bytes};
ghost use Rattle.sym_base.specs.declared.limits.TheConstants as limit;
ghost use Rattle.sym_check.specs.Checking.CheckedScripts.{checked_plan, checked_tree};
ghost use Rattle.sym_files.specs.FileRecords.{plain_rules};
ghost use Rattle.sym_files.specs.Options.{InRange};
ghost use Rattle.sym_files.specs.Passing.{AllRead, StopsPass};
ghost use Rattle.sym_trace.specs.TraceReports.{trace_heads};
ghost use Rattle.sym_trace.specs.Tracing.{AreTraceRows, IsTraceReport};

use crate::forms::{begin_report, end_report};
use crate::rounds::{TraceRounds, Traces};
use crate::rows::trace_heads;
use std::alloc::Global;
use std::marker::{Brand, PhantomData};
use std::sync::Wait;
use std::thread::Threads;
use sym_base::Store;
use sym_check::Checked;
use sym_files::{Options, PassErr, each_round};
use sym_plain::Groups;
use sym_report::{Heads, ReportForm};

/// Which records a trace shows, and the form that their rows go to.
#[derive(Drop)]
pub struct TraceForm {
    /// Each record whose number this one divides is shown.
    pub every: u64,
    pub form: Box<dyn ReportForm>,
}

/// A form with the report of a trace, and whether one of the rows is faulty.
#[derive(Drop)]
pub struct Traced {
    pub form: Box<dyn ReportForm>,
    pub faulty: bool,
}

// A script, and the names above the rows of its trace.
#[derive(Clone, Copy)]
struct Headed<'a> {
    checked: &'a Checked,
    heads: &'a Heads,
}

// Appends the rows of a trace, where the type says what stays the same.
fn trace_rounds<S: Traces, T: Threads + Wait + Sync, F: Store>(
    rt: &T,
    alloc: Global,
    script: &Headed<'_>,
    files: &mut F,
    names: &[String],
    options: &Options,
    trace: TraceForm,
) -> Result<Traced, PassErr>
    requires options { InRange options.now }
    requires few { length names.now ≤ limit.FILES_MAX }
    requires some { 1 ≤ trace.every }
    requires heads { let checked = script.now.checked.now in
        script.now.heads.now ≡ trace_heads (checked_tree checked) (checked_plan checked) }
    requires by { S.by ≡ record {
      tree = checked_tree script.now.checked.now;
      every = trace.every;
      texts = texts trace.form;
      begun = gathered trace.form;
    } }
    ensures traced { let tree = checked_tree script.now.checked.now in
        let p = checked_plan script.now.checked.now in
        let names = map string_bytes names.now in
        let rules = plain_rules options.now.max_bytes in
        let before = gathered trace.form in
        IfOk result (λ traced. AllRead p rules (F.holds files.old) names 1
        (AreTraceRows tree p trace.every (texts trace.form) before (gathered traced.form)
        traced.faulty)) }
    ensures texts { IfOk result (λ traced. texts traced.form ≡ texts trace.form) }
    ensures stopped { let p = checked_plan script.now.checked.now in
        let names = map string_bytes names.now in
        let rules = plain_rules options.now.max_bytes in
        let before = F.faults files.old in
        let after = F.faults files.new in
        IfErr result (StopsPass p rules (F.holds files.old) names before after) }
    ensures same { F.holds files.new ≡ F.holds files.old }
    ensures later { (other : List ℕ) → F.faults files.old other ≤ F.faults files.new other }
{
    let Headed { checked, heads } = *script;
    let TraceForm { every, form } = trace;
    let mut rounds = TraceRounds::<S> {
        checked,
        heads,
        every,
        workers: options.workers,
        groups: Groups::new(alloc),
        form,
        faulty: false,
        of: PhantomData,
    };
    each_round(rt, alloc, checked, files, names, options, 1, &mut rounds)?;
    Ok(Traced {
        form: rounds.form,
        faulty: rounds.faulty,
    })
}

/// Appends the report of the trace of the records of the files of these names, in order: for each
/// record whose number `every` of the trace divides, its number and how its group stands after it. It
/// gives the form back, and says whether one of the rows is faulty.
///
/// Rows are read as they are. A round is worked by parts, at once, by `scan_round` of `sym_scan`,
/// and the rows of a round go to the form before the next round is worked on. A round of which no
/// record is shown is worked as in a run, by `led` of `sym_engine`.
///
/// # Errors
///
/// Those of `each_round` of `sym_files`, in the same order. The form is dropped.
pub fn trace_files<T: Threads + Wait + Sync, F: Store>(
    rt: &T,
    alloc: Global,
    checked: &Checked,
    files: &mut F,
    names: &[String],
    options: &Options,
    trace: TraceForm,
) -> Result<Traced, PassErr>
    requires options { InRange options.now }
    requires few { length names.now ≤ limit.FILES_MAX }
    requires some { 1 ≤ trace.every }
    ensures traced { let tree = checked_tree checked.now in let p = checked_plan checked.now in
        let names = map string_bytes names.now in
        let rules = plain_rules options.now.max_bytes in
        let before = gathered trace.form in
        IfOk result (λ traced. AllRead p rules (F.holds files.old) names 1
        (IsTraceReport tree p trace.every (texts trace.form) before (gathered traced.form)
        traced.faulty)) }
    ensures stopped { let p = checked_plan checked.now in
        let names = map string_bytes names.now in
        let rules = plain_rules options.now.max_bytes in
        let before = F.faults files.old in
        let after = F.faults files.new in
        IfErr result (StopsPass p rules (F.holds files.old) names before after) }
    ensures same { F.holds files.new ≡ F.holds files.old }
    ensures later { (other : List ℕ) → F.faults files.old other ≤ F.faults files.new other }
{
    let heads = trace_heads(alloc, checked)?;
    let script = Headed {
        checked,
        heads: &heads,
    };
    let mut trace = trace;
    begin_report(alloc, &mut trace.form, &heads)?;
    let mut traced = trace_rounds::<Brand, T, F>(rt, alloc, &script, files, names, options, trace)?;
    end_report(alloc, &mut traced.form, &heads)?;
    Ok(traced)
}
