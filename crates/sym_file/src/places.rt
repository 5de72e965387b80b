//! Where the chains of groups stand in texts of saved runs.
ghost use Rattle.std.specs.Prelude.{◌≡◌, ◌∷◌, ◌++◌, [], IfOk, IfSome, None, OnOk, Some, is_some, length, slice_get};
ghost use Rattle.std.specs.Map.{keys_of, lookup};
ghost use Rattle.std.specs.Map.Iter.{deref_pair};
ghost use Rattle.std.specs.Option.{option_map};
ghost use Rattle.sym_base.specs.declared.values.value.Key.{Key as OneKey};
ghost use Rattle.sym_check.specs.Meaning.Groups.{is_key};
ghost use Rattle.sym_plain.specs.Pairs.{HaveDistinctKeys};
ghost use Rattle.sym_file.specs.Places.{placed};

use indexmap::IndexMap;
use std::alloc::Global;
use std::marker::Model;
use sym_base::{Key, NoMemory};

/// A place in the text of this number, with the bytes from it on, and how many of them come after
/// the chain that stands there.
#[derive(Drop)]
pub(crate) struct Place<'a> {
    pub(crate) text: usize,
    pub(crate) at: &'a [u8],
    pub(crate) rest: usize,
}

impl<'a> Model for Place<'a> {
    ghost use Rattle.sym_file.specs.Places.{ChainPlace};

    ghost Value = { ChainPlace };

    ghost view = { λ p. record { text = p.text; at = p.at.now; rest = p.rest } };
}

/// The places of a key's chains, in order.
#[derive(Drop)]
pub(crate) struct Places<'a> {
    pub(crate) items: Vec<Place<'a>>,
}

impl<'a> Model for Places<'a> {
    ghost use Rattle.std.specs.Prelude.{List};
    ghost use Rattle.sym_file.specs.Places.{ChainPlace};

    ghost Value = { List ChainPlace };

    ghost view = { λ p. p.items.items };
}

/// The numbers of a saved run's first record, and of the record after its last.
#[derive(Drop)]
pub(crate) struct Span {
    pub(crate) first: u64,
    pub(crate) next: u64,
}

impl Model for Span {
    ghost use Rattle.sym_file.specs.Places.{Span as OneSpan};

    ghost Value = { OneSpan };

    ghost view = { λ s. record { first = s.first; next = s.next } };
}

impl<'a> Places<'a> {
    /// One place.
    fn one(alloc: Global, place: Place<'a>) -> Result<Places<'a>, NoMemory>
        ensures { IfOk result (λ places. places ≡ place.entry ∷ []) }
    {
        let mut items = Vec::new(alloc);
        items.push(place)?;
        Ok(Places { items })
    }

    /// A place more. After an `Err` the places are as before.
    fn push(&mut self, place: Place<'a>) -> Result<(), NoMemory>
        ensures { OnOk result (self.new ≡ self.old ++ place.entry ∷ []) }
    {
        self.items.push(place)?;
        Ok(())
    }
}

/// Places of chains by key. A contract sees a list of pairs with distinct keys.
pub(crate) struct KeyPlaces<'a> {
    map: IndexMap<Key, Places<'a>>,
}

// Written here so that functions that own one don't prove it for each type inside.
impl<'a> Drop for KeyPlaces<'a> {
    fn drop(self) {
        let KeyPlaces { map: _map } = self;
    }
}

impl<'a> Model for KeyPlaces<'a> {
    ghost use Rattle.std.specs.Prelude.{List};
    ghost use Rattle.sym_base.specs.declared.values.value.Key.{Key as OneKey};
    ghost use Rattle.sym_file.specs.Places.{ChainPlace};
    ghost use Rattle.sym_plain.specs.Pairs.{HaveDistinctKeys};

    ghost Value = { List (OneKey × List ChainPlace) };

    ghost view = { λ p. p.map.entries };

    ghost invariant = { λ p. HaveDistinctKeys p.map.entries };
}

/// Puts a place after those of the key at an index.
fn push_at<'a>(
    map: &mut IndexMap<Key, Places<'a>>,
    index: usize,
    place: Place<'a>,
) -> Result<(), NoMemory>
    requires distinct { HaveDistinctKeys map.old.entries }
    ensures places { (key : OneKey) → slice_get (keys_of map.old.entries) index ≡ Some key →
        OnOk result (map.new.entries ≡ placed map.old.entries (key, place.entry)) }
    ensures distinct { HaveDistinctKeys map.new.entries }
{
    match map.get_index_mut(index) {
        Some(places) => places.push(place),
        None => Ok(()),
    }
}

impl<'a> KeyPlaces<'a> {
    /// No places. It takes no memory.
    pub(crate) fn new(alloc: Global) -> KeyPlaces<'a>
        ensures { result ≡ [] }
    {
        KeyPlaces {
            map: IndexMap::new(alloc),
        }
    }

    /// The number of keys.
    pub(crate) fn len(&self) -> usize
        ensures len { result ≡ length self.now }
        ensures distinct { HaveDistinctKeys self.now }
    {
        self.map.len()
    }

    /// The key at `index`, counted from 0, with its places; `None` exactly where `index >= len`.
    pub(crate) fn at(&self, index: usize) -> Option<(&Key, &Places<'a>)>
        ensures { option_map deref_pair result ≡ slice_get self.now index }
    {
        self.map.get_index(index)
    }

    /// The index of the key, counted from 0; `None` exactly where it has no places.
    pub(crate) fn index_of(&self, key: &Key) -> Option<usize>
        ensures index { IfSome result (λ i. slice_get (keys_of self.now) i ≡ Some key.now) }
        ensures found { is_some result ≡ is_some (lookup (is_key key.now) self.now) }
        ensures distinct { HaveDistinctKeys self.now }
    {
        self.map.get_index_of(key)
    }

    /// A key more, which goes last. `index_of` tells whether it is new.
    pub(crate) fn begin(
        &mut self,
        alloc: Global,
        key: Key,
        place: Place<'a>,
    ) -> Result<(), NoMemory>
        requires new { lookup (is_key key) self.old ≡ None }
        ensures { OnOk result (self.new ≡ placed self.old (key, place.entry)) }
    {
        let places = Places::one(alloc, place)?;
        self.map.insert(key, places)?;
        Ok(())
    }

    /// Puts a place after those of the key at an index.
    pub(crate) fn push_at(&mut self, index: usize, place: Place<'a>) -> Result<(), NoMemory>
        ensures { (key : OneKey) → slice_get (keys_of self.old) index ≡ Some key →
            OnOk result (self.new ≡ placed self.old (key, place.entry)) }
    {
        push_at(&mut self.map, index, place)
    }

    /// The keys with their places, in order. It takes no memory.
    pub(crate) fn into_map(self) -> IndexMap<Key, Places<'a>>
        ensures { result.entries ≡ self.entry }
    {
        let KeyPlaces { map } = self;
        map
    }
}
