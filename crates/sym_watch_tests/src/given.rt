//! Partials as the tests give them, and how a test publishes and looks.
ghost use Rattle.std.specs.Prelude.{◌≡◌, ◌≤◌, IfOk, OnOk, OnErr};
ghost use Rattle.std.specs.Option.{ForSome};
ghost use Rattle.sym_plain.specs.Shown.{last};

use std::alloc::Global;
use std::sync::Wait;
use sym_base::{Columns, NoMemory};
use sym_report::{Row, RowBody};
use sym_watch::{Looked, Partial, Publisher, ReportRows, Watcher};

/// A partial with one row, which says its border.
pub(crate) fn partial_to(alloc: Global, border: u64) -> Result<Partial, NoMemory>
    ensures { IfOk result (λ p. p.upto ≡ border) }
{
    let mut rows = ReportRows::new(alloc);
    rows.push(Row {
        keys: Columns::new(alloc),
        body: RowBody::Arith { no: border },
    })?;
    Ok(Partial { upto: border, rows })
}

/// Publishes the partial to a border that is no lower than those before it.
pub(crate) fn publish_to<T: Wait>(
    rt: &T,
    alloc: Global,
    publisher: &mut Publisher,
    border: u64,
) -> Result<(), NoMemory>
    requires { ForSome (last publisher.old.list) (λ p. p.upto ≤ border) }
    ensures of { publisher.new.of ≡ publisher.old.of }
    ensures ok { OnOk result (ForSome (last publisher.new.list) (λ p. p.upto ≤ border)) }
{
    let partial = partial_to(alloc, border)?;
    publisher.publish(rt, alloc, partial)
}

/// Whether a look sees the partial to this border, or nothing.
pub(crate) fn sees(
    alloc: Global,
    watcher: &mut Watcher,
    border: Option<u64>,
) -> Result<bool, NoMemory>
    ensures { watcher.new.of ≡ watcher.old.of }
{
    let looked = watcher.look(alloc)?;
    let wanted = match border {
        Some(border) => Looked::Seen(partial_to(alloc, border)?),
        None => Looked::Nothing,
    };
    Ok(looked == wanted)
}
