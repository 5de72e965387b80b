//! Lists in memory of their own, and values that can be copied.
ghost use Rattle.std.specs.Prelude.{◌≡◌, ◌↔◌, ◌<◌, ◌++◌, ◌∷◌, [], IsSome, IfOk, OnOk, OnErr, length, slice_get, slice_set, option_copied, ◌==◌, refl};
ghost use Rattle.std.specs.Option.{option_copied_mut};
ghost use Rattle.std.specs.Hash as fed;
ghost use Rattle.std.specs.Hash.{items_Alike};
ghost use Rattle.std.specs.Cmp.Lexicographic.{pointwise, lists_equiv, lists_per, slice_cmp, slice_partial_cmp, lists_total, lists_ties, lists_agrees, lists_po};

use crate::values::memory::NoMemory;
use std::alloc::Global;
use std::cmp::Ordering;
use std::hash::{Hash, Hasher};
use std::marker::Model;
use std::mem;

/// A value with no resource but memory, which can be copied.
pub trait Plain: Sized + Drop {
    /// An equal value of its own.
    fn copied(&self, alloc: Global) -> Result<Self, NoMemory>
        ensures { IfOk result (λ c. c ≡ self.now) };
}

/// A list over a vector. A contract sees the list of its items.
pub struct Sequence<T> {
    items: Vec<T>,
}

impl<T: Drop> Drop for Sequence<T> {
    fn drop(self) {
        let Sequence { items: _items } = self;
    }
}

impl<T> Model for Sequence<T> {
    ghost use Rattle.std.specs.Prelude.{List};

    ghost Value = { List T };

    ghost view = { λ s. s.items.items };
}

impl<T> Sequence<T> {
    /// The list of no items. It takes no memory until an item is pushed.
    pub fn new(alloc: Global) -> Sequence<T>
        ensures { result ≡ [] }
    {
        Sequence {
            items: Vec::new(alloc),
        }
    }

    /// The list of a vector's items. It takes no memory.
    pub fn of(items: Vec<T>) -> Sequence<T>
        ensures { result ≡ items.items }
    {
        Sequence { items }
    }

    /// The vector of the items. It takes no memory.
    pub fn into_vec(self) -> Vec<T>
        ensures { result.items ≡ self }
    {
        let Sequence { items } = self;
        items
    }

    /// The number of items.
    pub fn len(&self) -> usize
        ensures { result ≡ length self.now }
    {
        self.items.len()
    }

    /// Whether there are no items.
    pub fn is_empty(&self) -> bool
        ensures { result ≡ (length self.now == 0) }
    {
        self.items.is_empty()
    }

    /// The items in order.
    pub fn as_slice(&self) -> &[T]
        ensures { result.now ≡ self.now }
    {
        self.items.as_slice()
    }

    /// The item at `index`, counted from 0; `None` where there are at most `index` items.
    pub fn get(&self, index: usize) -> Option<&T>
        ensures { option_copied result ≡ slice_get self.now index }
    {
        self.items.as_slice().get(index)
    }
}

impl<T> Sequence<T> {
    ghost use Rattle.std.specs.Borrow.{sem};
    ghost use Rattle.sym_base.specs.Lending.{lends_item};

    /// The item at `index`, counted from 0, which can be written; `None` where there are at most
    /// `index` items.
    pub fn get_mut(&mut self, index: usize) -> Option<&mut T>
        ensures* writes_back { sem 𝓛 (lends_item T.row self.entry index result) }
        ensures item { option_copied_mut result ≡ slice_get self.old index }
        ensures found { IsSome result ↔ (index < length self.old) }
    {
        self.items.get_mut(index)
    }
}

impl<T: Drop> Sequence<T> {
    /// Adds an item as the last one. After an `Err` the list is as before, and the item is
    /// dropped.
    pub fn push(&mut self, item: T) -> Result<(), NoMemory>
        ensures ok { OnOk result (self.new ≡ self.old ++ item ∷ []) }
        ensures err { OnErr result (self.new ≡ self.old) }
    {
        self.items.push(item)?;
        Ok(())
    }

    /// Puts an item in the place of the one at `index`, counted from 0. Where there are at most
    /// `index` items, the list is as before.
    pub fn set(&mut self, index: usize, item: T)
        ensures { self.new ≡ slice_set self.old index item }
    {
        if let Some(place) = self.items.get_mut(index) {
            *place = item;
        }
    }

    /// Puts an item in the place of the one at `index`, counted from 0, and gives that one. Where
    /// there are at most `index` items, the list is as before, and the item is dropped.
    pub fn replace(&mut self, index: usize, item: T) -> Option<T>
        ensures old { result ≡ slice_get self.old index }
        ensures new { self.new ≡ slice_set self.old index item }
    {
        let place = self.items.get_mut(index)?;
        Some(mem::replace(place, item))
    }
}

impl<T: Plain> Sequence<T> {
    /// An equal list of its own.
    pub fn copy(&self, alloc: Global) -> Result<Sequence<T>, NoMemory>
        ensures { IfOk result (λ c. c ≡ self.now) }
    {
        let mut items = Vec::with_capacity(alloc, self.items.len())?;
        'items: for item in self.items.as_slice() {
            items.push(item.copied(alloc)?)?;
        }
        Ok(Sequence { items })
    }
}

impl<T: Plain> Plain for Sequence<T> {
    fn copied(&self, alloc: Global) -> Result<Sequence<T>, NoMemory> {
        self.copy(alloc)
    }
}

impl Plain for i64 {
    fn copied(&self, _alloc: Global) -> Result<i64, NoMemory> {
        Ok(*self)
    }
}

impl Plain for u16 {
    fn copied(&self, _alloc: Global) -> Result<u16, NoMemory> {
        Ok(*self)
    }
}

impl Plain for u64 {
    fn copied(&self, _alloc: Global) -> Result<u64, NoMemory> {
        Ok(*self)
    }
}

impl<T: PartialEq> PartialEq for Sequence<T> {
    ghost eq = { pointwise T.eq };

    ghost laws = { lists_per T.laws };

    fn eq(&self, other: &Sequence<T>) -> bool {
        self.items == other.items
    }
}

impl<T: Eq> Eq for Sequence<T> {
    ghost laws = { lists_equiv T.Eq.laws };
}

impl<T: PartialOrd> PartialOrd for Sequence<T> {
    ghost partial_cmp = { slice_partial_cmp T.partial_cmp };

    ghost laws = { lists_po T.PartialOrd.laws };

    fn partial_cmp(&self, other: &Sequence<T>) -> Option<Ordering> {
        self.items.partial_cmp(&other.items)
    }
}

impl<T: Ord> Ord for Sequence<T> {
    ghost cmp = { slice_cmp T.cmp };

    ghost total = { lists_total T.total };

    ghost matches_partial_cmp = { lists_agrees T.matches_partial_cmp };

    ghost matches_eq = { lists_ties T.cmp T.matches_eq };

    fn cmp(&self, other: &Sequence<T>) -> Ordering {
        self.items.cmp(&other.items)
    }
}

impl<T: Hash> Hash for Sequence<T> {
    ghost hash_input = { fed.slice T.hash_input };

    ghost respects_eq = { (items_Alike (record { fed = T.respects_eq })).fed };

    fn hash<H: Hasher>(&self, state: &mut H) {
        self.items.hash(state);
    }
}
