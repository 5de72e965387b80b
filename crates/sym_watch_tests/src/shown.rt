//! What a caller knows of a partial that a watcher shows: it was published.
ghost use Rattle.std.specs.Prelude.{◌≡◌, [], IfOk, IfSome, Contains};

use crate::given::publish_to;
use std::alloc::Global;
use std::process::Abort;
use std::sync::Wait;
use std::test::Fail;
use sym_base::NoMemory;
use sym_watch::{Looked, Partial, Publisher, Watch, Watcher, watch};

/// The newest partial, if there is one and the watcher has seen no more than its publisher has
/// published. So it is one that was published.
fn look_published(
    alloc: Global,
    publisher: &Publisher,
    watcher: &mut Watcher,
) -> Result<Option<Partial>, NoMemory>
    requires { watcher.old.of ≡ publisher.now.of }
    ensures of { watcher.new.of ≡ watcher.old.of }
    ensures published { IfOk result (λ shown. IfSome shown (Contains publisher.now.list)) }
{
    let looked = watcher.look(alloc)?;
    if !watcher.is_within(publisher) {
        return Ok(None);
    }
    match looked {
        Looked::Nothing => Ok(None),
        Looked::Seen(partial) => Ok(Some(partial)),
    }
}

// Publishes two partials. The borders that are shown before them, between them and after them.
fn borders_shown<T: Wait>(
    rt: &T,
    alloc: Global,
    publisher: &mut Publisher,
    watcher: &mut Watcher,
) -> Result<[Option<u64>; 3], NoMemory>
    requires of { watcher.old.of ≡ publisher.old.of }
    requires empty { publisher.old.list ≡ [] }
{
    let before = look_published(alloc, publisher, watcher)?;
    publish_to(rt, alloc, publisher, 5)?;
    let between = look_published(alloc, publisher, watcher)?;
    publish_to(rt, alloc, publisher, 9)?;
    let after = look_published(alloc, publisher, watcher)?;
    Ok([before, between, after].map(|shown| shown.map(|partial| partial.upto)))
}

#[test]
fn a_watcher_shows_what_was_published(rt: HostRuntime) -> Result<(), Fail> {
    let Watch {
        mut publisher,
        mut watchers,
    } = watch(&rt, rt.alloc(), 1)?;
    let borders = match watchers.first_mut() {
        Some(watcher) => borders_shown(&rt, rt.alloc(), &mut publisher, watcher),
        None => Err(NoMemory),
    };
    publisher.end(&rt);
    assert_eq!(rt; borders?, [None, Some(5), Some(9)]);
    Ok(())
}
