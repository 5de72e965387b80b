//! A thread that looks while another one publishes.
ghost use Rattle.std.specs.Prelude.{◌≡◌, []};

use crate::given::{partial_to, publish_to, sees};
use std::alloc::Global;
use std::process::Abort;
use std::sync::Wait;
use std::test::Fail;
use std::thread::{Threads, join};
use sym_base::NoMemory;
use sym_watch::{Looked, Publisher, Watch, Watcher, watch};

const BORDERS: u64 = 2_000;

const LOOKS: u32 = 20_000;

// Publishes the partials to 1 up to the last border.
fn publish_all<T: Wait>(rt: &T, alloc: Global, publisher: &mut Publisher) -> Result<(), NoMemory>
    requires { publisher.old.list ≡ [] }
{
    'borders: for border in 0..BORDERS {
        publish_to(rt, alloc, publisher, border + 1)?;
    }
    Ok(())
}

// Looks again and again; whether each look saw a partial as it was published, to a border no lower
// than those before it.
fn look_often(alloc: Global, watcher: &mut Watcher) -> Result<bool, NoMemory> {
    let mut border = 0;
    let mut held = true;
    'looks: for _look in 0..LOOKS {
        if let Looked::Seen(partial) = watcher.look(alloc)? {
            held = held && border <= partial.upto && partial == partial_to(alloc, partial.upto)?;
            border = partial.upto;
        }
    }
    Ok(held)
}

// As `look_often`, and hands the watcher back.
fn look_beside(alloc: Global, watcher: Watcher) -> (Watcher, Result<bool, NoMemory>) {
    let mut watcher = watcher;
    let held = look_often(alloc, &mut watcher);
    (watcher, held)
}

// Whether all looks beside the publishes held, and one after them saw the last partial.
fn looks_hold<T: Threads + Wait + Sync>(
    rt: &T,
    alloc: Global,
    publisher: &mut Publisher,
    watcher: Watcher,
) -> Result<bool, NoMemory>
    requires { publisher.old.list ≡ [] }
{
    let (published, (watcher, held)) = join(
        rt,
        move || -> Result<(), NoMemory>
            requires { publisher.now.list ≡ [] }
        { publish_all(rt, alloc, publisher) },
        move || look_beside(alloc, watcher),
    );
    published?;
    let mut watcher = watcher;
    let last = sees(alloc, &mut watcher, Some(BORDERS))?;
    Ok(held? && last)
}

#[test]
fn borders_never_fall_beside_publishes(rt: HostRuntime) -> Result<(), Fail> {
    let Watch {
        mut publisher,
        mut watchers,
    } = watch(&rt, rt.alloc(), 1)?;
    let held = match watchers.pop() {
        Some(watcher) => looks_hold(&rt, rt.alloc(), &mut publisher, watcher),
        None => Ok(false),
    };
    publisher.end(&rt);
    assert!(rt; held?);
    Ok(())
}
