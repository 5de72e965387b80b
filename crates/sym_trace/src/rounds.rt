//! Rounds whose trace goes to a form.
ghost use Rattle.sym_check.specs.Checking.CheckedScripts.{checked_plan, checked_tree};
ghost use Rattle.sym_trace.specs.Tracing.{IsTracing, Tracer, Tracing, some_tracing};

use crate::parts::scan_shown;
use crate::row_writer::write_rows;
use std::alloc::Global;
use std::marker::{Brand, PhantomData};
use std::mem;
use std::sync::Wait;
use std::thread::Threads;
use sym_base::NoMemory;
use sym_check::Checked;
use sym_files::{Rounds, Took, Work};
use sym_plain::Groups;
use sym_report::{Heads, ReportForm};
use sym_scan::Scanned;

/// What stays the same from round to round. Of a value that takes rounds nothing is known but what
/// it stands for, so what stays the same belongs to its type. Each call picks it.
pub(crate) trait Traces {
    ghost by: { Tracing };
}

impl Traces for Brand {
    ghost by = { some_tracing };
}

/// What takes the rounds of a trace: the script and the names above its rows, which numbers are
/// shown, how many workers work on a round, the groups after the rounds so far, the form that has
/// their rows, and whether one of these is faulty.
#[derive(Drop)]
pub(crate) struct TraceRounds<'a, S> {
    pub(crate) checked: &'a Checked,
    pub(crate) heads: &'a Heads,
    pub(crate) every: u64,
    pub(crate) workers: u32,
    pub(crate) groups: Groups,
    pub(crate) form: Box<dyn ReportForm>,
    pub(crate) faulty: bool,
    pub(crate) of: PhantomData<S>,
}

impl<'a, S: Traces> Rounds for TraceRounds<'a, S> {
    ghost shown = { λ _ row. row };

    ghost stands = { λ rounds p _ records.
        let seen : Tracer = record {
          tree = checked_tree rounds.checked.now;
          plan = checked_plan rounds.checked.now;
          heads = rounds.heads.now;
          every = rounds.every;
          workers = rounds.workers;
          groups = rounds.groups;
          texts = (ReportForm-box rounds.form).texts rounds.form.value;
          gathered = (ReportForm-box rounds.form).gathered rounds.form.value;
          faulty = rounds.faulty;
        } in
        IsTracing S.by p seen records };

    // It tells no one of rounds.
    ghost told = { λ _ _ _ _ _. Unit {0} };

    fn take<T: Threads + Wait + Sync>(
        &mut self,
        rt: &T,
        alloc: Global,
        work: &Work,
    ) -> Result<Took, NoMemory> {
        let _plan = self.checked.plan();
        let groups = mem::replace(&mut self.groups, Groups::new(alloc));
        match scan_shown(rt, alloc, work, self.workers, self.every, groups)? {
            Scanned::Done { rows, groups } => {
                self.groups = groups;
                let found = write_rows(
                    alloc,
                    self.checked,
                    self.heads,
                    rows.as_slice(),
                    &mut self.form,
                )?;
                self.faulty |= found;
                Ok(Took::Done)
            }
            Scanned::Bad(bad) => Ok(Took::Bad(bad)),
        }
    }
}
