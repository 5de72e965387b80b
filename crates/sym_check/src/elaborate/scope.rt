//! What names stand for, and the scopes in which they do.
ghost use Rattle.std.specs.Prelude.{◌≡◌, ◌-◌, ◌++◌, ◌∷◌, [], IfOk, OnOk, OnErr, length, option_copied, take};
ghost use Rattle.std.specs.String.{string_bytes};
ghost use Rattle.sym_check.specs.Checking.Places.{ArePlaces};
ghost use Rattle.sym_check.specs.Rules.Scopes.{Scope as Names, find, shows, visible};
ghost use Rattle.sym_check.specs.declared.elaborate.scope.Entry.{Entry as OneEntry};

use crate::plan::script::{KindPlan, KindPlans};
use std::alloc::Global;
use std::collections::BTreeMap;
use std::marker::Model;
use sym_base::{NoMemory, Text};

/// What has a value that no cell takes part in, by its number, counted from 0.
#[derive(Clone, Copy, PartialEq, Eq)]
pub enum Variable {
    Field(u16),
    Local(u16),
    Param(u16),
}

/// What a name stands for; things by their numbers, counted from 0.
#[derive(Drop)]
pub enum Meaning {
    /// A name in its own declaration.
    Unfinished,
    Enum(u16),
    /// An enum and the label's number in it.
    Label(u16, u8),
    Value(KindPlan, Variable),
    IntCell(u16),
    /// An enum cell and its enum.
    EnumCell(u16, u16),
    /// A hold cell and the kinds of its parts.
    HoldCell(u16, KindPlans),
    NumsCell(u16),
    WordsCell(u16),
    /// A test and the kinds of its parameters.
    Test(u16, KindPlans),
}

/// A name and what it stands for.
#[derive(Drop)]
pub struct Entry {
    pub name: Text,
    pub meaning: Meaning,
}

/// The place of the first entry of each name, counted from 0.
type Places = BTreeMap<String, usize>;

/// Where names are looked up: the entries in their order, and their places by name. A contract sees
/// the entries.
#[derive(Drop)]
pub struct Scope {
    entries: Vec<Entry>,
    places: Places,
}

impl Model for Scope {
    ghost use Rattle.std.specs.Prelude.{List};
    ghost use Rattle.sym_check.specs.Checking.Places.{ArePlaces};
    ghost use Rattle.sym_check.specs.declared.elaborate.scope.Entry.{Entry as OneEntry};

    ghost Value = { List OneEntry };

    ghost view = { λ s. s.entries.items };

    ghost invariant = { λ s. ArePlaces s.places s.entries.items };
}

/// The parts of a script that see some of its names, and the names that the update doesn't see.
#[derive(Clone, Copy, PartialEq, Eq)]
pub enum View {
    Tests,
    Update,
    Hidden,
    Report,
}

impl Meaning {
    /// An equal meaning of its own.
    pub fn copy(&self, alloc: Global) -> Result<Meaning, NoMemory>
        ensures { IfOk result (λ m. m ≡ self.now) }
    {
        match self {
            Meaning::Unfinished => Ok(Meaning::Unfinished),
            Meaning::Enum(number) => Ok(Meaning::Enum(*number)),
            Meaning::Label(of, label) => Ok(Meaning::Label(*of, *label)),
            Meaning::Value(kind, variable) => Ok(Meaning::Value(*kind, *variable)),
            Meaning::IntCell(cell) => Ok(Meaning::IntCell(*cell)),
            Meaning::EnumCell(cell, of) => Ok(Meaning::EnumCell(*cell, *of)),
            Meaning::HoldCell(cell, kinds) => Ok(Meaning::HoldCell(*cell, kinds.copy(alloc)?)),
            Meaning::NumsCell(cell) => Ok(Meaning::NumsCell(*cell)),
            Meaning::WordsCell(cell) => Ok(Meaning::WordsCell(*cell)),
            Meaning::Test(test, kinds) => Ok(Meaning::Test(*test, kinds.copy(alloc)?)),
        }
    }
}

impl Entry {
    /// An equal entry of its own.
    pub fn copy(&self, alloc: Global) -> Result<Entry, NoMemory>
        ensures { IfOk result (λ e. e ≡ self.now) }
    {
        let name = self.name.copy(alloc)?;
        let meaning = self.meaning.copy(alloc)?;
        Ok(Entry { name, meaning })
    }
}

// Adds the place of an entry of this name, unless an earlier one has the name. After an `Err` the
// places are as before.
fn add(places: &mut Places, name: String, place: usize) -> Result<(), NoMemory>
    ensures ok { OnOk result ((s : Names) (e : OneEntry) → length s ≡ place →
        e.name ≡ string_bytes name → ArePlaces places.old s → ArePlaces places.new (s ++ e ∷ [])) }
    ensures err { OnErr result (places.new.entries ≡ places.old.entries) }
{
    if places.contains_key(name.as_str()) {
        return Ok(());
    }
    let _older = places.insert(name, place)?;
    Ok(())
}

// Takes the place of the last entry, which has this name, away. An earlier one of the name stays.
fn forget(places: &mut Places, name: &str, place: usize)
    ensures { (s : Names) (e : OneEntry) → length s ≡ place → e.name ≡ name.now →
        ArePlaces places.old (s ++ e ∷ []) → ArePlaces places.new s }
{
    if places.get(name) == Some(&place) {
        let _place = places.remove(name);
    }
}

impl Scope {
    /// The scope of no names. It takes no memory until a name is added.
    pub(crate) fn new(alloc: Global) -> Scope
        ensures { result ≡ [] }
    {
        Scope {
            entries: Vec::new(alloc),
            places: BTreeMap::new(alloc),
        }
    }

    /// The number of entries.
    pub(crate) fn len(&self) -> usize
        ensures { result ≡ length self.now }
    {
        self.entries.len()
    }

    /// Adds an entry as the last one.
    pub(crate) fn push(&mut self, alloc: Global, entry: Entry) -> Result<(), NoMemory>
        ensures { OnOk result (self.new ≡ self.old ++ entry ∷ []) }
    {
        let name = String::from_str(alloc, entry.name.as_str())?;
        let Scope { entries, places } = self;
        entries.reserve(1)?;
        add(places, name, entries.len())?;
        entries.push_reserved(entry);
        Ok(())
    }

    // Takes the last entry away.
    fn pop(&mut self)
        ensures { self.new ≡ take (length self.old - 1) self.old }
    {
        let Scope { entries, places } = self;
        let Some(entry) = entries.pop() else {
            return;
        };
        forget(places, entry.name.as_str(), entries.len());
    }

    /// Takes the entries away that came after the first so many.
    pub(crate) fn truncate(&mut self, count: usize)
        ensures { self.new ≡ take count self.old }
    {
        'entries: while self.len() > count {
            self.pop();
        }
    }

    /// Adds the entries of another scope behind these.
    pub(crate) fn append(&mut self, alloc: Global, other: Scope) -> Result<(), NoMemory>
        ensures { OnOk result (self.new ≡ self.old ++ other) }
    {
        'entries: for entry in other.entries {
            self.push(alloc, entry)?;
        }
        Ok(())
    }
}

/// What the name stands for; `None` where it stands for nothing.
pub(crate) fn found<'a>(scope: &'a Scope, name: &str) -> Option<&'a Meaning>
    ensures { option_copied result ≡ find scope.now name.now }
{
    let place = scope.places.get(name)?;
    let entry = scope.entries.as_slice().get(*place)?;
    Some(&entry.meaning)
}

impl View {
    /// Whether the names of such things are in the view.
    pub(crate) fn shows(self, meaning: &Meaning) -> bool
        ensures { result ≡ shows self meaning.now }
    {
        match self {
            View::Tests => matches!(meaning, Meaning::Label(..)),
            View::Update => !matches!(meaning, Meaning::Enum(..)),
            View::Hidden => matches!(meaning, Meaning::Enum(..)),
            View::Report => match meaning {
                Meaning::IntCell(..)
                | Meaning::EnumCell(..)
                | Meaning::HoldCell(..)
                | Meaning::NumsCell(..)
                | Meaning::WordsCell(..) => true,
                Meaning::Unfinished
                | Meaning::Enum(..)
                | Meaning::Label(..)
                | Meaning::Value(..)
                | Meaning::Test(..) => false,
            },
        }
    }
}

/// The names of a scope that are in the view.
pub(crate) fn seen(alloc: Global, view: View, scope: &Scope) -> Result<Scope, NoMemory>
    ensures { IfOk result (λ s. s ≡ visible view scope.now) }
{
    let mut names = Scope::new(alloc);
    'entries: for entry in scope.entries.as_slice() {
        if view.shows(&entry.meaning) {
            names.push(alloc, entry.copy(alloc)?)?;
        }
    }
    Ok(names)
}
