//! What is published, told and seen, one step after the other.
ghost use Rattle.std.specs.Prelude.{◌≡◌, ◌≤◌, [], All};

use crate::given::{publish_to, sees};
use std::alloc::Global;
use std::process::Abort;
use std::sync::Wait;
use std::test::Fail;
use sym_base::NoMemory;
use sym_watch::{Looked, Publisher, WATCHERS_MAX, Watch, Watcher, watch};

/// One step of a course.
#[derive(Clone, Copy)]
enum Step {
    /// The partial to this border is published.
    Publish(u64),
    /// The watcher is told of all that was published.
    Learn,
    /// It looks, and sees the partial to this border, or nothing.
    Look(Option<u64>),
}

use Step::{Learn, Look, Publish};

const COURSES: [&[Step]; 5] = [
    // Before anything is published.
    &[Look(None), Look(None)],
    &[Learn, Look(None)],
    // The newest is seen, once the watcher was told of it and also before.
    &[
        Look(None),
        Publish(5),
        Publish(9),
        Learn,
        Look(Some(9)),
        Look(Some(9)),
    ],
    &[
        Publish(5),
        Look(Some(5)),
        Learn,
        Publish(9),
        Look(Some(9)),
        Learn,
        Look(Some(9)),
    ],
    // Borders may stand still.
    &[
        Publish(0),
        Publish(0),
        Look(Some(0)),
        Publish(0),
        Learn,
        Look(Some(0)),
        Publish(1),
        Look(Some(1)),
    ],
];

// Whether the course goes as it says.
fn holds<T: Wait>(
    rt: &T,
    alloc: Global,
    publisher: &mut Publisher,
    watcher: &mut Watcher,
    course: &[Step],
) -> Result<bool, NoMemory>
    requires of { watcher.old.of ≡ publisher.old.of }
    requires empty { publisher.old.list ≡ [] }
{
    let mut border = 0;
    let mut held = true;
    'steps: for step in course {
        match *step {
            Publish(next) => {
                if next < border {
                    return Ok(false);
                }
                publish_to(rt, alloc, publisher, next)?;
                border = next;
            }
            Learn => watcher.learn(publisher.tell()),
            Look(seen) => held = sees(alloc, watcher, seen)? && held,
        }
    }
    Ok(held)
}

// Whether a course holds with a publisher and a watcher of its own.
fn holds_anew<T: Wait>(rt: &T, alloc: Global, course: &[Step]) -> Result<bool, NoMemory> {
    let Watch {
        mut publisher,
        mut watchers,
    } = watch(rt, alloc, 1)?;
    let held = match watchers.first_mut() {
        Some(watcher) => holds(rt, alloc, &mut publisher, watcher, course),
        None => Ok(false),
    };
    publisher.end(rt);
    held
}

#[test]
fn a_look_sees_the_newest(rt: HostRuntime) -> Result<(), Fail> {
    'courses: for course in COURSES {
        assert!(rt; holds_anew(&rt, rt.alloc(), course)?);
    }
    Ok(())
}

// Publishes two partials; whether each watcher sees nothing before and the second after.
fn each_sees<T: Wait>(
    rt: &T,
    alloc: Global,
    publisher: &mut Publisher,
    watchers: &mut Vec<Watcher>,
) -> Result<bool, NoMemory>
    requires empty { publisher.old.list ≡ [] }
{
    let mut held = true;
    'before: for watcher in watchers.iter_mut() {
        held = sees(alloc, watcher, None)? && held;
    }
    publish_to(rt, alloc, publisher, 64)?;
    publish_to(rt, alloc, publisher, 130)?;
    'after: for watcher in watchers.iter_mut() {
        held = sees(alloc, watcher, Some(130))? && held;
    }
    Ok(held)
}

#[test]
fn as_many_watchers_as_may_be_see_the_newest(rt: HostRuntime) -> Result<(), Fail> {
    let Watch {
        mut publisher,
        mut watchers,
    } = watch(&rt, rt.alloc(), WATCHERS_MAX)?;
    let held = each_sees(&rt, rt.alloc(), &mut publisher, &mut watchers);
    publisher.end(&rt);
    assert!(rt; held?);
    Ok(())
}

#[test]
fn a_look_after_the_end_returns(rt: HostRuntime) -> Result<(), Fail> {
    let Watch {
        mut publisher,
        mut watchers,
    } = watch(&rt, rt.alloc(), 1)?;
    let published = publish_to(&rt, rt.alloc(), &mut publisher, 7);
    publisher.end(&rt);
    published?;
    let mut watcher = watchers.pop().ok_or("a watcher")?;
    assert!(rt; watcher.look(rt.alloc()) != Ok(Looked::Nothing));
    Ok(())
}
