//! Observers that are told of partials.
ghost use Rattle.std.specs.Prelude.{◌≡◌, [], ◌∷◌, map, OnOk, OnErr};
ghost use Rattle.sym_watch.specs.Logs.{grown};
ghost use Rattle.sym_watched.specs.Partials.{AllGrew, AllGrewPart};

use std::alloc::Global;
use sym_base::NoMemory;
use sym_watch::{Looked, Observer, Partial, Watcher};

// Tells one observer.
fn tell_one(
    alloc: Global,
    observer: &mut Box<dyn Observer + Send>,
    partial: &Partial,
) -> Result<(), NoMemory>
    ensures ok { OnOk result (log observer.new ≡ grown (partial.now ∷ []) (log observer.old)) }
    ensures err { OnErr result (log observer.new ≡ log observer.old) }
{
    observer.tell(alloc, partial)
}

/// Tells each observer of the partial, in order, up to the first one that finds no memory.
pub(crate) fn tell_all(
    alloc: Global,
    observers: &mut Vec<Box<dyn Observer + Send>>,
    partial: &Partial,
) -> Result<(), NoMemory>
    ensures ok { let olds = map (λ o. log o) observers.old.items in
        let news = map (λ o. log o) observers.new.items in
        OnOk result (AllGrew olds news (partial.now ∷ [])) }
    ensures err { let olds = map (λ o. log o) observers.old.items in
        let news = map (λ o. log o) observers.new.items in
        OnErr result (AllGrewPart olds news (partial.now ∷ [])) }
{
    'all: for i in 0..observers.len() {
        tell_one(alloc, &mut observers[i], partial)?;
    }
    Ok(())
}

/// The watcher looks, and the observers are told of what it saw; where that is another than the
/// copy, they are told of the copy.
pub(crate) fn tell_seen(
    alloc: Global,
    watcher: &mut Watcher,
    observers: &mut Vec<Box<dyn Observer + Send>>,
    copy: &Partial,
) -> Result<(), NoMemory>
    ensures of { watcher.new.of ≡ watcher.old.of }
    ensures ok { let olds = map (λ o. log o) observers.old.items in
        let news = map (λ o. log o) observers.new.items in
        OnOk result (AllGrew olds news (copy.now ∷ [])) }
    ensures err { let olds = map (λ o. log o) observers.old.items in
        let news = map (λ o. log o) observers.new.items in
        OnErr result (AllGrewPart olds news (copy.now ∷ [])) }
{
    if let Looked::Seen(seen) = watcher.look(alloc)? {
        if seen.is_same(copy) {
            return tell_all(alloc, observers, &seen);
        }
    }
    tell_all(alloc, observers, copy)
}
