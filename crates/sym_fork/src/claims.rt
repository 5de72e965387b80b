//! A call for each index, by threads that take the next one each.
ghost use Rattle.std.specs.Prelude.{◌≡◌, ℕ, ◌<◌, None, IfOk, IfSome, vec_len};
ghost use Rattle.std.specs.List.{All};
ghost use Rattle.sym_fork.specs.Slots.{AreGiven, AreSlots, IsGiven};

use crate::indices::map_indices;
use std::alloc::{AllocError, Global};
use std::sync::atomic::{AtomicUsize, Ordering};
use std::thread::Threads;

// What `call` returns at the indices below `count` that this thread takes, beside each its index.
fn claimed<X: Drop, F: Fn(usize, usize) -> X>(
    alloc: Global,
    next: &AtomicUsize,
    thread: usize,
    count: usize,
    call: &F,
) -> Result<Vec<(usize, X)>, AllocError>
    requires { (thread i : ℕ) → i < count → F.pre call.now thread i }
    ensures { IfOk result (λ made. All (λ one. IsGiven F.Fn call.now one.0 one.1) made.items) }
{
    let mut made = Vec::new(alloc);
    'indices: for _ in 0..count {
        let index = next.fetch_add(1, Ordering::SeqCst);
        if index >= count {
            return Ok(made);
        }
        made.push((index, call(thread, index)))?;
    }
    Ok(made)
}

// Puts results in the slots of their indices.
fn put_made<X: Drop, F: Fn(usize, usize) -> X>(
    slots: &mut Vec<Option<X>>,
    made: Vec<(usize, X)>,
    call: &F,
)
    requires slots { AreSlots (IsGiven F.Fn call.now) slots.old.items }
    requires made { All (λ one. IsGiven F.Fn call.now one.0 one.1) made.items }
    ensures len { vec_len slots.new ≡ vec_len slots.old }
    ensures slots { AreSlots (IsGiven F.Fn call.now) slots.new.items }
{
    'made: for (index, result) in made {
        if index < slots.len() {
            slots[index] = Some(result);
        }
    }
}

// So many slots with nothing in them.
fn empty_slots<X: Drop>(alloc: Global, count: usize) -> Result<Vec<Option<X>>, AllocError>
    ensures len { IfOk result (λ slots. vec_len slots ≡ count) }
    ensures empty { IfOk result (λ slots. All (λ slot. slot ≡ None) slots.items) }
{
    let mut slots = Vec::with_capacity(alloc, count)?;
    'slots: for _ in 0..count {
        slots.push(None)?;
    }
    Ok(slots)
}

// What is in a slot, or, where nothing is, what `call` returns at its index.
fn value_of<X, F: Fn(usize, usize) -> X>(slot: Option<X>, index: usize, call: &F) -> X
    requires call { F.pre call.now 0 index }
    requires slot { IfSome slot (IsGiven F.Fn call.now index) }
    ensures { IsGiven F.Fn call.now index result }
{
    match slot {
        Some(result) => result,
        None => call(0, index),
    }
}

// What is in the slots, and where nothing is, what `call` returns at the slot's index.
fn filled<X: Drop, F: Fn(usize, usize) -> X>(
    alloc: Global,
    slots: Vec<Option<X>>,
    call: &F,
) -> Result<Vec<X>, AllocError>
    requires calls { (i : ℕ) → i < vec_len slots → F.pre call.now 0 i }
    requires slots { AreSlots (IsGiven F.Fn call.now) slots.items }
    ensures len { IfOk result (λ results. vec_len results ≡ vec_len slots) }
    ensures each { IfOk result (λ results.
        AreGiven F.Fn call.now (vec_len slots) results.items) }
{
    let mut results = Vec::with_capacity(alloc, slots.len())?;
    'slots: for slot in slots {
        let index = results.len();
        results.push(value_of(slot, index, call))?;
    }
    Ok(results)
}

/// What `call` returns at 0 to `count - 1`, in order. Beside the index it is given the number of its
/// thread. So many threads, but no more than there are indices, take the next index each, until none
/// is left, and this one waits for them: a thread that gets on more slowly takes fewer. With one
/// thread none is made. `Err` says that an allocation failed.
pub fn map_claimed<R: Threads + Sync, X: Send + Drop, F: Fn(usize, usize) -> X + Sync>(
    rt: &R,
    alloc: Global,
    count: usize,
    threads: usize,
    call: &F,
) -> Result<Vec<X>, AllocError>
    requires { (thread i : ℕ) → i < count → F.pre call.now thread i }
    ensures len { IfOk result (λ results. vec_len results ≡ count) }
    ensures each { IfOk result (λ results. AreGiven F.Fn call.now count results.items) }
{
    let next = AtomicUsize::new(0);
    let parts = map_indices(
        rt,
        alloc,
        threads.min(count),
        &|thread: usize| -> Result<Vec<(usize, X)>, AllocError>
            requires { (thread i : ℕ) → i < count → F.pre call.now thread i }
            ensures { IfOk result (λ made.
                All (λ one. IsGiven F.Fn call.entry.now one.0 one.1) made.items) }
        { claimed(alloc, &next, thread, count, call) },
    )?;
    let mut slots = empty_slots(alloc, count)?;
    'parts: for part in parts {
        put_made(&mut slots, part?, call);
    }
    filled(alloc, slots, call)
}
