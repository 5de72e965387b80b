//! What is known of the tests on one hold cell.
ghost use Rattle.std.specs.Prelude.{◌≡◌, ◌==◌, ◌<◌, ◌≤◌, ◌↔◌, ◌++◌, ◌⊎◌, Any, Bool, not, List, IfOk, OnOk, IfSome, IfNone, IsSome, IsNone, IsTrue, MatchOption, None, OnErr, length, slice_get, slice_index_or, option_copied};
ghost use Rattle.sym_pred.specs.declared.literal.Literal.{Literal as OneLiteral};
ghost use Rattle.sym_pred.specs.Facts.{Atom};
ghost use Rattle.std.specs.FinMap.{empty, get, insert, remove, len as count_of};
ghost use Rattle.sym_pred.specs.Literals.{literals, atom_of};
ghost use Rattle.sym_base.specs.Tests.{Truth};
ghost use Rattle.sym_pred.specs.Meaning.{Stands, Admits, Clash, Unite};
ghost use Rattle.sym_pred.specs.Answers.{IsAdded, AdmitsAdded, IsWith, AreWith, AreAgainst};
ghost use Rattle.sym_pred.specs.Places.{IsInOrder, IsPlace};
ghost use Rattle.sym_pred.specs.Differences.{IsDifference};
ghost use Rattle.sym_pred.specs.Merges.{ClashIn, IsMerged};
ghost use Rattle.sym_base.specs.declared.values.value.Value.{Value as OneValue};

use crate::literal::Literal;
use std::alloc::Global;
use std::cmp::Ordering;
use std::marker::Model;
use sym_base::{NoMemory, SmallList, Values};

/// Literals with no two of the same test and arguments, in order: by test, and then by arguments,
/// numbers by size, then words by bytes, then labels by number. A contract sees the finite map from
/// a test with its arguments to the outcome, so that equal facts are equal values.
#[derive(Drop)]
pub struct Facts {
    literals: SmallList<Literal>,
}

impl Model for Facts {
    ghost use Rattle.sym_pred.specs.Facts.{FactMap, fact_map_code};

    ghost Value = { FactMap };

    ghost coded = { fact_map_code };

    ghost use Rattle.std.specs.Prelude.{map};
    ghost use Rattle.std.specs.FinMap.{from_sorted};
    ghost use Rattle.sym_pred.specs.Literals.{entry_of};
    ghost use Rattle.sym_pred.specs.Places.{IsInOrder};

    ghost view = { λ facts. from_sorted (map entry_of facts.literals) };

    ghost invariant = { λ facts. IsInOrder facts.literals };
}

impl PartialEq for Facts {
    ghost use Rattle.std.specs.Ordering.{on};
    ghost use Rattle.std.specs.Cmp.{on_per};
    ghost use Rattle.std.specs.Cmp.Lexicographic.{pointwise, lists_per};
    ghost use Rattle.sym_pred.specs.Literals.{literals};
    ghost use Rattle.sym_pred.specs.contracts.literal.LiteralPartialEq.TheImpl.Laws.{laws-law};

    ghost eq = { on literals (pointwise ⟦<Literal as PartialEq>⟧.eq) };

    ghost laws = { on_per literals (lists_per laws-law) };

    fn eq(&self, other: &Facts) -> bool {
        self.literals == other.literals
    }
}

impl Eq for Facts {
    ghost use Rattle.std.specs.Cmp.{on_equiv};
    ghost use Rattle.std.specs.Cmp.Lexicographic.{lists_equiv};
    ghost use Rattle.sym_pred.specs.Literals.{literals};
    ghost use Rattle.sym_pred.specs.contracts.literal.LiteralEq.TheImpl.Laws.{laws-law};

    ghost laws = { on_equiv literals (lists_equiv laws-law) };
}

/// What adding a literal to facts comes to.
#[derive(Drop)]
pub enum Added {
    /// The literal stands in the facts.
    Same,
    /// The facts with the literal, which no literal of the same test and arguments was in.
    Longer(Facts),
    /// The literal stands with the other outcome.
    Against,
}

impl Added {
    /// An equal answer of its own.
    pub fn copy(&self, alloc: Global) -> Result<Added, NoMemory>
        ensures { IfOk result (λ added. added ≡ self.now) }
    {
        match self {
            Added::Same => Ok(Added::Same),
            Added::Longer(facts) => Ok(Added::Longer(facts.copy(alloc)?)),
            Added::Against => Ok(Added::Against),
        }
    }
}

/// The place of the literal with this test and these arguments, or where it would stand.
fn place(literals: &[Literal], test: u16, args: &Values) -> Result<usize, usize>
    requires { IsInOrder literals.now }
    ensures { IsPlace literals.now (test, args.now) result }
{
    literals.binary_search_by(|literal| literal.order(test, args))
}

/// The literals of both lists in order; `None` where one of them stands in the other with the
/// other outcome.
fn merge(
    alloc: Global,
    left: &[Literal],
    right: &[Literal],
) -> Result<Option<Vec<Literal>>, NoMemory>
    requires left_order { IsInOrder left.now }
    requires right_order { IsInOrder right.now }
    ensures { IfOk result (λ found. MatchOption found (ClashIn left.now right.now)
        (λ all. IsMerged left.now right.now all.items)) }
{
    let mut all = Vec::new(alloc);
    let (mut done, mut gone) = (0, 0);
    'literals: while done < left.len() && gone < right.len() {
        let (one, other) = (&left[done], &right[gone]);
        match one.order(other.test, &other.args) {
            Ordering::Less => {
                all.push(one.copy(alloc)?)?;
                done += 1;
            }
            Ordering::Greater => {
                all.push(other.copy(alloc)?)?;
                gone += 1;
            }
            Ordering::Equal => {
                if one.outcome != other.outcome {
                    return Ok(None);
                }
                all.push(one.copy(alloc)?)?;
                done += 1;
                gone += 1;
            }
        }
    }
    push_copies(alloc, &mut all, &left[done..])?;
    push_copies(alloc, &mut all, &right[gone..])?;
    Ok(Some(all))
}

/// Puts copies of the literals after the others. After an `Err` some may be there.
fn push_copies(alloc: Global, all: &mut Vec<Literal>, literals: &[Literal]) -> Result<(), NoMemory>
    ensures { OnOk result (all.new.items ≡ all.old.items ++ literals.now) }
{
    'literals: for literal in literals {
        all.push(literal.copy(alloc)?)?;
    }
    Ok(())
}

/// How two lists of literals differ.
#[derive(Clone, Copy)]
enum Difference {
    Nothing,
    /// In the outcome at this place alone.
    One(usize),
    Many,
}

/// How two lists of literals differ.
fn compare(left: &[Literal], right: &[Literal]) -> Difference
    ensures { IsDifference left.now right.now result }
{
    if left.len() != right.len() {
        return Difference::Many;
    }
    let mut found = None;
    'places: for index in 0..left.len() {
        let (first, second) = (&left[index], &right[index]);
        if first.order(second.test, &second.args).is_ne() {
            return Difference::Many;
        }
        if first.outcome != second.outcome {
            if found.is_some() {
                return Difference::Many;
            }
            found = Some(index);
        }
    }
    match found {
        None => Difference::Nothing,
        Some(index) => Difference::One(index),
    }
}

impl Facts {
    /// No facts. It takes no memory.
    pub fn none(alloc: Global) -> Facts
        ensures { result ≡ empty }
    {
        Facts {
            literals: SmallList::new(alloc),
        }
    }

    /// The facts of these literals; `None` exactly where they aren't in order, or two of them have
    /// the same test and arguments. It takes no memory.
    pub fn of(items: Vec<Literal>) -> Option<Facts>
        ensures { MatchOption result (¬ (IsInOrder items.items))
            (λ facts. literals facts ≡ items.items) }
    {
        if is_in_order(items.as_slice()) {
            Some(Facts {
                literals: SmallList::of(items),
            })
        } else {
            None
        }
    }

    /// The literals in order. It takes no memory.
    pub fn into_list(self) -> SmallList<Literal>
        ensures { result ≡ literals self }
    {
        self.literals
    }

    /// The outcome that stands for this test and these arguments; `None` where none does.
    pub fn says(&self, test: u16, args: &Values) -> Option<bool>
        ensures { result ≡ get self.now (test, args.now) }
    {
        let literals = self.literals.as_slice();
        match place(literals, test, args) {
            Ok(index) => Some(literals[index].outcome),
            Err(_) => None,
        }
    }

    /// The number of literals.
    pub fn len(&self) -> usize
        ensures { result ≡ count_of self.now }
    {
        self.literals.len()
    }

    /// Whether nothing is known.
    pub fn is_empty(&self) -> bool
        ensures { result ≡ (count_of self.now == 0) }
    {
        self.literals.is_empty()
    }

    /// The literal at `index` in order, counted from 0; `None` where there are at most `index`.
    pub fn at(&self, index: usize) -> Option<&Literal>
        ensures { option_copied result ≡ slice_get (literals self.now) index }
    {
        self.literals.get(index)
    }

    /// The facts with `literal` added. The literal is dropped unless they are `Longer`; after an
    /// `Err` it is dropped, and these facts are as before.
    pub fn add(&self, alloc: Global, literal: Literal) -> Result<Added, NoMemory>
        ensures added { IfOk result (IsAdded self.now literal) }
        ensures admits { IfOk result (λ added. (truth : Truth) (parts : List OneValue) →
            AdmitsAdded truth self.now literal parts added) }
    {
        match place(self.literals.as_slice(), literal.test, &literal.args) {
            Ok(index) => {
                if self.literals.as_slice()[index].outcome == literal.outcome {
                    return Ok(Added::Same);
                }
                Ok(Added::Against)
            }
            Err(index) => Ok(Added::Longer(self.copy(alloc)?.longer(index, literal)?)),
        }
    }

    /// The facts with a literal added whose test and arguments have no outcome yet. After an `Err`
    /// both are dropped.
    pub fn with(self, literal: Literal) -> Result<Facts, NoMemory>
        requires { get self (atom_of literal) ≡ None }
        ensures facts { IfOk result (λ facts.
            facts ≡ insert self (atom_of literal) literal.outcome) }
        ensures admits { IfOk result (λ facts. (truth : Truth) (parts : List OneValue) →
            Admits truth facts parts ↔ (Admits truth self parts ×
            (truth literal.test literal.args parts ≡ literal.outcome))) }
    {
        match place(self.literals.as_slice(), literal.test, &literal.args) {
            Ok(_) => unreachable!(),
            Err(index) => Ok(self.longer(index, literal)?),
        }
    }

    /// The facts with `literal` put in at the place where it would stand.
    fn longer(self, index: usize, literal: Literal) -> Result<Facts, NoMemory>
        requires { IsPlace (literals self) (atom_of literal) (Err index) }
        ensures { IfOk result (λ facts. facts ≡ insert self (atom_of literal) literal.outcome) }
    {
        let mut literals = self.literals;
        literals.insert(index, literal)?;
        Ok(Facts { literals })
    }

    /// Whether the literal stands with the other outcome. It takes no memory.
    pub fn is_against(&self, literal: &Literal) -> bool
        ensures { IsTrue result ↔
            Stands self.now (atom_of literal.now) (not literal.now.outcome) }
    {
        match self.says(literal.test, &literal.args) {
            Some(outcome) => outcome != literal.outcome,
            None => false,
        }
    }

    /// Whether a literal of one stands in the other with the other outcome. It takes no memory.
    pub fn clashes(&self, other: &Facts) -> bool
        ensures { IsTrue result ↔ Clash self.now other.now }
    {
        has_clash(self.literals.as_slice(), other)
    }

    /// The literals of both; `None` where a literal of one stands in the other with the other
    /// outcome. After an `Err` both are as before.
    pub fn meet(&self, alloc: Global, other: &Facts) -> Result<Option<Facts>, NoMemory>
        ensures none { IfOk result (λ met. IsNone met ↔ Clash self.now other.now) }
        ensures literals { IfOk result (λ met. IfSome met (λ facts.
            (atom : Atom) (outcome : Bool) → Stands facts atom outcome ↔
            (Stands self.now atom outcome ⊎ Stands other.now atom outcome))) }

        // What they admit is what both admit, and where there are none nothing is admitted by both.
        ensures admits { IfOk result (λ met. IfSome met (λ facts.
            (truth : Truth) (parts : List OneValue) → Admits truth facts parts ↔
            (Admits truth self.now parts × Admits truth other.now parts))) }
        ensures nothing { IfOk result (λ met. IfNone met
            ((truth : Truth) (parts : List OneValue) →
            Admits truth self.now parts → ¬ (Admits truth other.now parts))) }
    {
        if self.clashes(other) {
            return Ok(None);
        }
        match merge(alloc, self.literals.as_slice(), other.literals.as_slice())? {
            None => Ok(None),
            Some(all) => Ok(Some(Facts {
                literals: SmallList::of(all),
            })),
        }
    }

    /// `meet` of facts that are given away: their literals are moved, and copies of the others'
    /// are put between them. It takes no memory where no literal is new. After an `Err`, and where
    /// there are none, they are dropped.
    pub fn met_with(self, alloc: Global, other: &Facts) -> Result<Option<Facts>, NoMemory>
        ensures none { IfOk result (λ met. IsNone met ↔ Clash self other.now) }
        ensures literals { IfOk result (λ met. IfSome met (λ facts.
            (atom : Atom) (outcome : Bool) → Stands facts atom outcome ↔
            (Stands self atom outcome ⊎ Stands other.now atom outcome))) }
        ensures admits { IfOk result (λ met. IfSome met (λ facts.
            (truth : Truth) (parts : List OneValue) → Admits truth facts parts ↔
            (Admits truth self parts × Admits truth other.now parts))) }
        ensures nothing { IfOk result (λ met. IfNone met
            ((truth : Truth) (parts : List OneValue) →
            Admits truth self parts → ¬ (Admits truth other.now parts))) }

        // `NoMemory` is returned only where a literal of the other is new.
        ensures memory { OnErr result
            (Any (λ literal. get self (atom_of literal) ≡ None) (literals other.now)) }
    {
        with_all(alloc, self, other.literals.as_slice())
    }

    /// The facts with a copy of the literal; `None` where it stands with the other outcome. After
    /// an `Err` they are dropped.
    fn with_copy(self, alloc: Global, literal: &Literal) -> Result<Option<Facts>, NoMemory>
        ensures found { IfOk result (λ found. MatchOption found
            (Stands self (atom_of literal.now) (not literal.now.outcome))
            (IsWith self literal.now)) }
        ensures memory { OnErr result (get self (atom_of literal.now) ≡ None) }
    {
        match self.says(literal.test, &literal.args) {
            Some(outcome) => {
                if outcome == literal.outcome {
                    return Ok(Some(self));
                }
                Ok(None)
            }
            None => Ok(Some(self.with(literal.copy(alloc)?)?)),
        }
    }

    /// Whether the two have the same tests and arguments and differ in exactly one outcome, or are
    /// equal. It takes no memory.
    pub fn unites(&self, other: &Facts) -> bool
        ensures { IsTrue result ↔ Unite self.now other.now }
    {
        match compare(self.literals.as_slice(), other.literals.as_slice()) {
            Difference::Nothing => true,
            Difference::One(_) => true,
            Difference::Many => false,
        }
    }

    /// The literals in both; `None` where `unites` is false. After an `Err` both are as before.
    pub fn unite(&self, alloc: Global, other: &Facts) -> Result<Option<Facts>, NoMemory>
        ensures none { IfOk result (λ union. IsSome union ↔ Unite self.now other.now) }
        ensures literals { IfOk result (λ union. IfSome union (λ facts.
            (atom : Atom) (outcome : Bool) → Stands facts atom outcome ↔
            (Stands self.now atom outcome × Stands other.now atom outcome))) }

        // They admit what either of the two admits.
        ensures admits { IfOk result (λ union. IfSome union (λ facts.
            (truth : Truth) (parts : List OneValue) → Admits truth facts parts ↔
            (Admits truth self.now parts ⊎ Admits truth other.now parts))) }
    {
        if !self.unites(other) {
            return Ok(None);
        }
        Ok(self.copy(alloc)?.united_with(other))
    }

    /// `unite` of facts that are given away: the literal that differs is taken out of their list.
    /// It takes no memory.
    pub fn united_with(self, other: &Facts) -> Option<Facts>
        ensures none { IsSome result ↔ Unite self other.now }
        ensures literals { IfSome result (λ facts.
            (atom : Atom) (outcome : Bool) → Stands facts atom outcome ↔
            (Stands self atom outcome × Stands other.now atom outcome)) }
        ensures admits { IfSome result (λ facts.
            (truth : Truth) (parts : List OneValue) → Admits truth facts parts ↔
            (Admits truth self parts ⊎ Admits truth other.now parts)) }
    {
        match compare(self.literals.as_slice(), other.literals.as_slice()) {
            Difference::Nothing => Some(self),
            Difference::One(index) => Some(self.without(index)),
            Difference::Many => None,
        }
    }

    /// The facts without the literal at this place. It takes no memory.
    fn without(self, index: usize) -> Facts
        requires { index < length (literals self) }
        ensures { (d : OneLiteral) →
            result ≡ remove self (atom_of (slice_index_or (literals self) index d)) }
    {
        let mut literals = self.literals;
        literals.remove(index);
        Facts { literals }
    }

    /// Equal facts of their own.
    pub fn copy(&self, alloc: Global) -> Result<Facts, NoMemory>
        ensures { IfOk result (λ facts. facts ≡ self.now) }
    {
        Ok(Facts {
            literals: self.literals.copy(alloc)?,
        })
    }
}

/// Whether the literals are in order, no two with the same test and arguments.
fn is_in_order(literals: &[Literal]) -> bool
    ensures { IsTrue result ↔ IsInOrder literals.now }
{
    'places: for index in 1..literals.len() {
        let (before, after) = (&literals[index - 1], &literals[index]);
        if !before.order(after.test, &after.args).is_lt() {
            return false;
        }
    }
    true
}

/// The facts with copies of the literals; `None` where one of these stands with the other outcome
/// in the facts, or is among the literals with it.
fn with_all(alloc: Global, facts: Facts, literals: &[Literal]) -> Result<Option<Facts>, NoMemory>
    ensures found { IfOk result (λ found.
        MatchOption found (AreAgainst facts literals.now) (AreWith facts literals.now)) }
    ensures memory { OnErr result
        (Any (λ literal. get facts (atom_of literal) ≡ None) literals.now) }
{
    let mut facts = facts;
    'literals: for literal in literals {
        match facts.with_copy(alloc, literal)? {
            Some(more) => facts = more,
            None => return Ok(None),
        }
    }
    Ok(Some(facts))
}

/// Whether one of the literals stands in the facts with the other outcome.
fn has_clash(literals: &[Literal], other: &Facts) -> bool
    ensures { IsTrue result ↔
        Any (λ literal. Stands other.now (atom_of literal) (not literal.outcome)) literals.now }
{
    'literals: for literal in literals {
        if other.is_against(literal) {
            return true;
        }
    }
    false
}
