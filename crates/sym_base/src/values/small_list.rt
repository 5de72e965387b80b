//! A list whose first item, when alone, lies inline.
ghost use Rattle.std.specs.Prelude.{◌≡◌, ◌↔◌, ◌<◌, ◌≤◌, ◌++◌, ◌∷◌, [], IsSome, IfSome, IfOk, OnOk, OnErr, length, take, slice_get, slice_set, option_copied, ◌==◌, vec_len, vec_capacity};
ghost use Rattle.std.specs.List.{IsItemAtMut, insert as insert_at, remove as remove_at};
ghost use Rattle.std.specs.Option.{option_copied_mut};
ghost use Rattle.std.specs.Hash as fed;
ghost use Rattle.std.specs.Hash.{items_Alike};
ghost use Rattle.std.specs.Cmp.Lexicographic.{pointwise, lists_equiv, lists_per, slice_cmp, slice_partial_cmp, lists_total, lists_ties, lists_agrees, lists_po};
ghost use Rattle.sym_base.specs.SmallLists.{items_of, IsSound, IsOne, IsMany};

use crate::values::memory::NoMemory;
use crate::values::sequence::Plain;
use arrayvec::ArrayVec;
use std::alloc::Global;
use std::cmp::Ordering;
use std::hash::{Hash, Hasher};
use std::marker::Model;
use std::mem;

/// Where the items of a list lie.
enum Items<T> {
    /// Exactly one item.
    One(ArrayVec<T, 1, Global>),
    /// Any number of items.
    Many(Vec<T>),
}

/// A list whose first item, when alone, lies inline: no item or one takes no memory of the list's
/// own. A contract sees the list of its items.
pub struct SmallList<T> {
    items: Items<T>,
}

impl<T: Drop> Drop for SmallList<T> {
    fn drop(self) {
        let SmallList { items } = self;
        match items {
            Items::One(_one) => {}
            Items::Many(_items) => {}
        }
    }
}

impl<T> Model for SmallList<T> {
    ghost use Rattle.std.specs.Prelude.{List};
    ghost use Rattle.sym_base.specs.SmallLists.{items_of, IsSound};

    ghost Value = { List T };

    ghost view = { λ s. items_of s.items };

    ghost invariant = { λ s. IsSound s.items };
}

impl<T> Items<T> {
    ghost use Rattle.std.specs.Borrow.{sem};
    ghost use Rattle.sym_base.specs.SmallLending.{lends_place};

    fn one(alloc: Global, item: T) -> Items<T>
        ensures items { items_of result ≡ item ∷ [] }
        ensures sound { IsSound result }
    {
        Items::One(ArrayVec::from_array_in(alloc, [item]))
    }

    fn as_slice(&self) -> &[T]
        ensures { result.now ≡ items_of self.now }
    {
        match self {
            Items::One(one) => one.as_slice(),
            Items::Many(items) => items.as_slice(),
        }
    }

    fn get_mut(&mut self, index: usize) -> Option<&mut T>
        ensures* writes_back { sem 𝓛 (lends_place T.row self.entry index result) }
        ensures found { IsSome result ↔ (index < length (items_of self.old)) }
        ensures item { IsItemAtMut (items_of self.old) index result }
    {
        match self {
            Items::One(one) => one.get_mut(index),
            Items::Many(items) => items.get_mut(index),
        }
    }
}

impl<T: Drop> Items<T> {
    /// Moves an item that is alone to memory with room for more.
    fn spill(&mut self) -> Result<(), NoMemory>
        requires { IsSound self.old }
        ensures items { items_of self.new ≡ items_of self.old }
        ensures ok { OnOk result (IsMany self.new) }
        ensures err { OnErr result (self.new ≡ self.old) }
    {
        if let Items::One(one) = &*self {
            let mut many = Vec::with_capacity(*one.allocator(), 4)?;
            let empty = Vec::new(*one.allocator());
            match mem::replace(self, Items::Many(empty)) {
                Items::One(one) => match one.into_inner() {
                    Ok(array) => {
                        let [item] = array;
                        many.push_reserved(item);
                    }
                    Err(_inline) => unreachable!(),
                },
                Items::Many(_items) => unreachable!(),
            }
            if let Items::Many(items) = self {
                *items = many;
            }
        }
        Ok(())
    }
}

impl<T: Drop> Items<T> {
    /// What memory is taken from, where there is no item and no memory yet.
    fn unused(&self) -> Option<Global>
        ensures { IfSome result (λ alloc. items_of self.now ≡ []) }
    {
        match self {
            Items::One(_) => None,
            Items::Many(items) => {
                if items.is_empty() && items.capacity() == 0 {
                    return Some(*items.allocator());
                }
                None
            }
        }
    }

    /// Puts an item alone in the place of all items.
    fn put_one(&mut self, alloc: Global, item: T)
        ensures items { items_of self.new ≡ item ∷ [] }
        ensures sound { IsSound self.new }
    {
        match mem::replace(self, Items::one(alloc, item)) {
            Items::One(_one) => {}
            Items::Many(_items) => {}
        }
    }

    fn push(&mut self, item: T) -> Result<(), NoMemory>
        requires { IsSound self.old }
        ensures ok { OnOk result (items_of self.new ≡ items_of self.old ++ item ∷ []) }
        ensures err { OnErr result (items_of self.new ≡ items_of self.old) }
        ensures sound { IsSound self.new }
    {
        if let Some(alloc) = self.unused() {
            self.put_one(alloc, item);
            return Ok(());
        }
        self.spill()?;
        if let Items::Many(items) = self {
            items.push(item)?;
        }
        Ok(())
    }

    fn insert(&mut self, index: usize, item: T) -> Result<(), NoMemory>
        requires sound { IsSound self.old }
        requires index { index ≤ length (items_of self.old) }
        ensures ok { OnOk result (items_of self.new ≡ insert_at (items_of self.old) index item) }
        ensures err { OnErr result (items_of self.new ≡ items_of self.old) }
        ensures sound { IsSound self.new }
    {
        if let Some(alloc) = self.unused() {
            self.put_one(alloc, item);
            return Ok(());
        }
        self.spill()?;
        if let Items::Many(items) = self {
            items.insert(index, item)?;
        }
        Ok(())
    }

    fn remove(&mut self, index: usize)
        requires { IsSound self.old }
        ensures items { items_of self.new ≡ remove_at (items_of self.old) index }
        ensures sound { IsSound self.new }
    {
        match self {
            Items::One(_) => {
                if index == 0 {
                    self.truncate(0);
                }
            }
            Items::Many(items) => {
                if index < items.len() {
                    items.remove(index);
                }
            }
        }
    }

    fn truncate(&mut self, count: usize)
        requires { IsSound self.old }
        ensures items { items_of self.new ≡ take count (items_of self.old) }
        ensures sound { IsSound self.new }
    {
        match self {
            Items::One(one) => {
                if count == 0 {
                    let empty = Vec::new(*one.allocator());
                    match mem::replace(self, Items::Many(empty)) {
                        Items::One(_one) => {}
                        Items::Many(_items) => {}
                    }
                }
            }
            Items::Many(items) => items.truncate(count),
        }
    }
}

impl<T> SmallList<T> {
    /// The list of no items. It takes no memory.
    pub fn new(alloc: Global) -> SmallList<T>
        ensures { result ≡ [] }
    {
        SmallList {
            items: Items::Many(Vec::new(alloc)),
        }
    }

    /// The list of a vector's items. It takes no memory.
    pub fn of(items: Vec<T>) -> SmallList<T>
        ensures { result ≡ items.items }
    {
        SmallList {
            items: Items::Many(items),
        }
    }

    /// The number of items.
    pub fn len(&self) -> usize
        ensures { result ≡ length self.now }
    {
        self.items.as_slice().len()
    }

    /// Whether there are no items.
    pub fn is_empty(&self) -> bool
        ensures { result ≡ (length self.now == 0) }
    {
        self.items.as_slice().is_empty()
    }

    /// The items in order.
    pub fn as_slice(&self) -> &[T]
        ensures { result.now ≡ self.now }
    {
        self.items.as_slice()
    }

    /// The item at `index`, counted from 0; `None` where there are at most `index` items.
    pub fn get(&self, index: usize) -> Option<&T>
        ensures { option_copied result ≡ slice_get self.now index }
    {
        self.items.as_slice().get(index)
    }
}

impl<T> SmallList<T> {
    ghost use Rattle.std.specs.Borrow.{sem};
    ghost use Rattle.sym_base.specs.Lending.{lends_small_item};

    /// The item at `index`, counted from 0, which can be written; `None` where there are at most
    /// `index` items.
    pub fn get_mut(&mut self, index: usize) -> Option<&mut T>
        ensures* writes_back { sem 𝓛 (lends_small_item T.row self.entry index result) }
        ensures item { option_copied_mut result ≡ slice_get self.old index }
        ensures found { IsSome result ↔ (index < length self.old) }
    {
        self.items.get_mut(index)
    }
}

impl<T: Drop> SmallList<T> {
    /// Adds an item as the last one. The first takes no memory, unless the list has some. After an
    /// `Err` the list is as before, and the item is dropped.
    pub fn push(&mut self, item: T) -> Result<(), NoMemory>
        ensures ok { OnOk result (self.new ≡ self.old ++ item ∷ []) }
        ensures err { OnErr result (self.new ≡ self.old) }
    {
        self.items.push(item)
    }

    /// Puts an item in at `index`, before those that are there or come after. After an `Err` the
    /// list is as before, and the item is dropped.
    pub fn insert(&mut self, index: usize, item: T) -> Result<(), NoMemory>
        requires { index ≤ length self.old }
        ensures ok { OnOk result (self.new ≡ insert_at self.old index item) }
        ensures err { OnErr result (self.new ≡ self.old) }
    {
        self.items.insert(index, item)
    }

    /// Drops the item at `index`, counted from 0. Where there are at most `index` items, the list
    /// is as before.
    pub fn remove(&mut self, index: usize)
        ensures { self.new ≡ remove_at self.old index }
    {
        self.items.remove(index);
    }

    /// Puts an item in the place of the one at `index`, counted from 0. Where there are at most
    /// `index` items, the list is as before.
    pub fn set(&mut self, index: usize, item: T)
        ensures { self.new ≡ slice_set self.old index item }
    {
        if let Some(place) = self.items.get_mut(index) {
            *place = item;
        }
    }

    /// Puts an item in the place of the one at `index`, counted from 0, and gives that one. Where
    /// there are at most `index` items, the list is as before, and the item is dropped.
    pub fn replace(&mut self, index: usize, item: T) -> Option<T>
        ensures old { result ≡ slice_get self.old index }
        ensures new { self.new ≡ slice_set self.old index item }
    {
        let place = self.items.get_mut(index)?;
        Some(mem::replace(place, item))
    }

    /// Drops all but the first `count` items. A list that has memory keeps it.
    #[inline(never)]
    pub fn truncate(&mut self, count: usize)
        ensures { self.new ≡ take count self.old }
    {
        self.items.truncate(count);
    }
}

/// Copies of the items.
fn copies<T: Plain>(alloc: Global, items: &[T]) -> Result<Vec<T>, NoMemory>
    ensures { IfOk result (λ c. c.items ≡ items.now) }
{
    let mut copied = Vec::with_capacity(alloc, items.len())?;
    'items: for item in items {
        copied.push(item.copied(alloc)?)?;
    }
    Ok(copied)
}

impl<T: Plain> SmallList<T> {
    /// An equal list of its own. Of one item it takes only what a copy of that item takes.
    pub fn copy(&self, alloc: Global) -> Result<SmallList<T>, NoMemory>
        ensures { IfOk result (λ c. c ≡ self.now) }
    {
        let items = self.items.as_slice();
        if items.len() == 1 {
            return Ok(SmallList {
                items: Items::one(alloc, items[0].copied(alloc)?),
            });
        }
        Ok(SmallList {
            items: Items::Many(copies(alloc, items)?),
        })
    }
}

impl<T: Plain> Plain for SmallList<T> {
    fn copied(&self, alloc: Global) -> Result<SmallList<T>, NoMemory> {
        self.copy(alloc)
    }
}

impl<T: PartialEq> PartialEq for SmallList<T> {
    ghost eq = { pointwise T.eq };

    ghost laws = { lists_per T.laws };

    fn eq(&self, other: &SmallList<T>) -> bool {
        let items = self.items.as_slice();
        let others = other.items.as_slice();
        if items.len() == 1 && others.len() == 1 {
            return items[0] == others[0];
        }
        items == others
    }
}

impl<T: Eq> Eq for SmallList<T> {
    ghost laws = { lists_equiv T.Eq.laws };
}

impl<T: PartialOrd> PartialOrd for SmallList<T> {
    ghost partial_cmp = { slice_partial_cmp T.partial_cmp };

    ghost laws = { lists_po T.PartialOrd.laws };

    fn partial_cmp(&self, other: &SmallList<T>) -> Option<Ordering> {
        self.items.as_slice().partial_cmp(other.items.as_slice())
    }
}

impl<T: Ord> Ord for SmallList<T> {
    ghost cmp = { slice_cmp T.cmp };

    ghost total = { lists_total T.total };

    ghost matches_partial_cmp = { lists_agrees T.matches_partial_cmp };

    ghost matches_eq = { lists_ties T.cmp T.matches_eq };

    fn cmp(&self, other: &SmallList<T>) -> Ordering {
        self.items.as_slice().cmp(other.items.as_slice())
    }
}

impl<T: Hash> Hash for SmallList<T> {
    ghost hash_input = { fed.slice T.hash_input };

    ghost respects_eq = { (items_Alike (record { fed = T.respects_eq })).fed };

    fn hash<H: Hasher>(&self, state: &mut H) {
        self.items.as_slice().hash(state);
    }
}
