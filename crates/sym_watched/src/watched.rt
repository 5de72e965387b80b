//! Rounds that lead groups on, and whose partials are published.
ghost use Rattle.std.specs.Prelude.{◌≡◌, ◌+◌, ◌++◌, IfOk, OnOk, length, map, slice_get};
ghost use Rattle.sym_check.specs.Checking.CheckedScripts.{checked_plan, checked_tree};
ghost use Rattle.sym_report.specs.Appending.{listed};
ghost use Rattle.sym_report.specs.ReportRows.{row_of};
ghost use Rattle.sym_files.specs.Taking.{rows_of};
ghost use Rattle.sym_watched.specs.Watching.{IsWatched, ToldAt, start_of, watching};

use crate::news::News;
use std::alloc::Global;
use std::mem;
use std::sync::Wait;
use std::thread::Threads;
use sym_base::NoMemory;
use sym_check::Checked;
use sym_files::{Rounds, Took, Work};
use sym_plain::Groups;
use sym_report::{Row, report_row};
use sym_run::Applied;
use sym_table::Chunk;
use sym_watch::{Partial, ReportRows};
use sym_workers::Gate;

/// What a pass is asked for: the script, the gate that has each round lead groups on, and how many
/// workers do it.
#[derive(Drop)]
pub(crate) struct Task<'a, G> {
    pub(crate) checked: &'a Checked,
    pub(crate) gate: &'a G,
    pub(crate) workers: u32,
}

/// A pass that is watched: the groups of the rounds so far, the number of the last record, and what
/// was published and told. Whoever has it ends the publisher.
pub(crate) struct Watched<'a, G> {
    pub(crate) task: Task<'a, G>,
    pub(crate) groups: Groups,
    pub(crate) border: u64,
    pub(crate) news: News,
}

// How many rows chunks have.
fn count_rows(chunks: &[Chunk]) -> Result<u64, NoMemory>
    ensures { IfOk result (λ n. n ≡ length (rows_of chunks.now)) }
{
    let mut count: u64 = 0;
    'chunks: for chunk in chunks {
        count = count.checked_add(chunk.rows.len() as u64).ok_or(NoMemory)?;
    }
    Ok(count)
}

// The number of the last record of chunks, by that of the last one before them.
fn border_after(border: u64, chunks: &[Chunk]) -> Result<u64, NoMemory>
    ensures { IfOk result (λ n. n ≡ border + length (rows_of chunks.now)) }
{
    let rows = count_rows(chunks)?;
    match border.checked_add(rows) {
        Some(next) => Ok(next),
        None => Err(NoMemory),
    }
}

// Puts the report row of the group at an index behind others, if there is one.
fn push_row(
    alloc: Global,
    checked: &Checked,
    groups: &Groups,
    index: usize,
    rows: &mut Vec<Row>,
) -> Result<(), NoMemory>
    ensures { let row = row_of (checked_tree checked.now) (checked_plan checked.now) in
        OnOk result (rows.new.items
        ≡ rows.old.items ++ map row (listed (slice_get groups.now index))) }
{
    if let Some((key, outcome)) = groups.at(index) {
        rows.push(report_row(alloc, checked, key, outcome)?)?;
    }
    Ok(())
}

// The report rows of groups.
fn report_rows(alloc: Global, checked: &Checked, groups: &Groups) -> Result<ReportRows, NoMemory>
    ensures { let row = row_of (checked_tree checked.now) (checked_plan checked.now) in
        IfOk result (λ r. r ≡ map row groups.now) }
{
    let mut rows = Vec::with_capacity(alloc, groups.len())?;
    'groups: for index in 0..groups.len() {
        push_row(alloc, checked, groups, index, &mut rows)?;
    }
    Ok(ReportRows::of(rows))
}

impl<'a, G: Gate> Rounds for Watched<'a, G> {
    ghost shown = { λ w. G.shown w.task.gate.now };

    ghost stands = { λ w p _ records. IsWatched p (checked_plan w.task.checked.now) w.groups
        w.task.workers w.border w.news.publisher.list records };

    ghost told = { λ first w p point rounds.
        let olds = map (λ o. (Observer-box o).log o.value) first.news.observers.items in
        let news = map (λ o. (Observer-box o).log o.value) w.news.observers.items in
        ToldAt p (start_of (checked_tree first.task.checked.now) olds)
        (watching (checked_tree w.task.checked.now) w.groups w.border
        w.news.publisher.list w.news.untold news) point rounds };

    // The gate has the round lead the groups on, and their partial is published. Beside the work
    // the observers are told of the partial of the round before.
    fn take<T: Threads + Wait + Sync>(
        &mut self,
        rt: &T,
        alloc: Global,
        work: &Work,
    ) -> Result<Took, NoMemory> {
        let border = border_after(self.border, work.chunks.as_slice())?;
        let gate = self.task.gate;
        let workers = self.task.workers;
        let groups = mem::replace(&mut self.groups, Groups::new(alloc));
        let applied = self
            .news
            .lead_round(rt, alloc, gate, work, workers, groups)?;
        match applied {
            Applied::Done(groups) => {
                let shown = report_rows(alloc, self.task.checked, &groups)?;
                let partial = Partial {
                    upto: border,
                    rows: shown,
                };
                self.news.publish(rt, alloc, partial)?;
                self.groups = groups;
                self.border = border;
                Ok(Took::Done)
            }
            Applied::Bad(bad) => Ok(Took::Bad(bad)),
        }
    }
}
