//! The plan of a whole script. Contracts see it as the plain data of `specs/ScriptPlans.antt`.
ghost use Rattle.std.specs.Prelude.{◌≡◌, IfOk, map};
ghost use Rattle.sym_check.specs.Plan.Ranges.{is_clamped, landed, range_at, range_of};
ghost use Rattle.sym_check.specs.Plan.ScriptPlans.{test_plan, column_plan, script_plan};
ghost use Rattle.sym_check.specs.Meaning.Validity.{enum_labels};

use crate::plan::condition::Cond;
use crate::plan::range::Range;
use crate::plan::show::Show;
use crate::plan::statement::Dos;
use std::alloc::Global;
use sym_base::{FaultKind, NoMemory, Plain, Sequence, Text, Texts, Value, Values};

/// An enum: the texts of its labels, which are numbered from 0 in this order.
#[derive(Drop)]
pub struct EnumPlan {
    pub labels: Texts,
}

/// The kind of a value.
#[derive(Clone, Copy, PartialEq, Eq)]
pub enum KindPlan {
    Num,
    Word,
    /// A label of the enum with this number, counted from 0.
    Label(u16),
}

/// A field of the records.
#[derive(Drop)]
pub struct FieldPlan {
    /// The text of its column in a file's header.
    pub header: Text,
    pub kind: KindPlan,
    /// The value of an empty text.
    pub default: Option<Value>,
}

/// What a cell holds, and what it holds at first. Ranges have both ends in them.
#[derive(Drop)]
pub enum CellPlan {
    Int {
        lo: i64,
        hi: i64,
        first: i64,
        /// Whether a number outside the range becomes the nearest end, in place of a fault.
        clamp: bool,
    },
    Nums {
        lo: i64,
        hi: i64,
        /// The same, of a number that is pushed.
        clamp: bool,
    },
    Words,
    Hold {
        kinds: KindPlans,
        first: Values,
    },
    Enum {
        of: u16,
        first: u8,
    },
}

/// A test: the kinds of its parameters, and the condition that it answers.
#[derive(Drop)]
pub struct TestPlan {
    pub params: KindPlans,
    pub body: Cond,
}

/// A column of the report.
#[derive(Drop)]
pub struct ColumnPlan {
    pub name: Text,
    pub value: Show,
}

/// The enums, in order of declaration.
pub type EnumPlans = Sequence<EnumPlan>;

/// The kinds of a hold cell's parts or of a test's parameters, in order.
pub type KindPlans = Sequence<KindPlan>;

/// The fields, in order of declaration.
pub type FieldPlans = Sequence<FieldPlan>;

/// The numbers of fields, counted from 0.
pub type FieldNos = Sequence<u16>;

/// The cells, in order of declaration.
pub type CellPlans = Sequence<CellPlan>;

/// The tests, in order of declaration.
pub type TestPlans = Sequence<TestPlan>;

/// The columns of the report, in order.
pub type ColumnPlans = Sequence<ColumnPlan>;

/// A script with its names resolved to numbers.
pub struct Plan {
    pub enums: EnumPlans,
    pub fields: FieldPlans,
    /// The fields whose values tell one group from another, in the group line's order; all records
    /// are of one group where there are none.
    pub group: FieldNos,
    pub cells: CellPlans,
    pub tests: TestPlans,
    pub update: Dos,
    pub columns: ColumnPlans,
}

// Written here so that the crates above don't prove it for each type inside.
impl Drop for Plan {
    fn drop(self) {
        let Plan {
            enums: _enums,
            fields: _fields,
            group: _group,
            cells: _cells,
            tests: _tests,
            update: _update,
            columns: _columns,
        } = self;
    }
}

/// The names of the labels of the enum with this number; none where there is no such enum.
pub fn enum_labels(enums: &[EnumPlan], of: u16) -> &[Text]
    ensures { result.now ≡ enum_labels enums.now of }
{
    match enums.get(usize::from(of)) {
        Some(found) => found.labels.as_slice(),
        None => &[],
    }
}

impl EnumPlan {
    /// An equal enum of its own.
    pub fn copy(&self, alloc: Global) -> Result<EnumPlan, NoMemory>
        ensures { IfOk result (λ e. e ≡ self.now) }
    {
        let labels = self.labels.copy(alloc)?;
        Ok(EnumPlan { labels })
    }
}

impl Plain for EnumPlan {
    fn copied(&self, alloc: Global) -> Result<EnumPlan, NoMemory> {
        self.copy(alloc)
    }
}

impl Plain for KindPlan {
    fn copied(&self, _alloc: Global) -> Result<KindPlan, NoMemory> {
        Ok(*self)
    }
}

fn copy_default(alloc: Global, default: &Option<Value>) -> Result<Option<Value>, NoMemory>
    ensures { IfOk result (λ d. d ≡ default.now) }
{
    match default {
        Some(value) => Ok(Some(value.copy(alloc)?)),
        None => Ok(None),
    }
}

impl FieldPlan {
    /// An equal field of its own.
    pub fn copy(&self, alloc: Global) -> Result<FieldPlan, NoMemory>
        ensures { IfOk result (λ f. f ≡ self.now) }
    {
        let header = self.header.copy(alloc)?;
        let default = copy_default(alloc, &self.default)?;
        Ok(FieldPlan {
            header,
            kind: self.kind,
            default,
        })
    }
}

impl Plain for FieldPlan {
    fn copied(&self, alloc: Global) -> Result<FieldPlan, NoMemory> {
        self.copy(alloc)
    }
}

impl CellPlan {
    /// The range of an integer cell or of a list of numbers; other cells have none.
    pub fn range(&self) -> Option<Range>
        ensures { result ≡ range_of self.now }
    {
        match self {
            CellPlan::Int { lo, hi, clamp, .. } | CellPlan::Nums { lo, hi, clamp } => Some(Range {
                lo: *lo,
                hi: *hi,
                clamps: *clamp,
            }),
            CellPlan::Words | CellPlan::Hold { .. } | CellPlan::Enum { .. } => None,
        }
    }

    /// An equal cell of its own.
    pub fn copy(&self, alloc: Global) -> Result<CellPlan, NoMemory>
        ensures { IfOk result (λ c. c ≡ self.now) }
    {
        match self {
            CellPlan::Int {
                lo,
                hi,
                first,
                clamp,
            } => Ok(CellPlan::Int {
                lo: *lo,
                hi: *hi,
                first: *first,
                clamp: *clamp,
            }),
            CellPlan::Nums { lo, hi, clamp } => Ok(CellPlan::Nums {
                lo: *lo,
                hi: *hi,
                clamp: *clamp,
            }),
            CellPlan::Words => Ok(CellPlan::Words),
            CellPlan::Hold { kinds, first } => {
                let kinds = kinds.copy(alloc)?;
                let first = first.copy(alloc)?;
                Ok(CellPlan::Hold { kinds, first })
            }
            CellPlan::Enum { of, first } => Ok(CellPlan::Enum {
                of: *of,
                first: *first,
            }),
        }
    }
}

impl Plain for CellPlan {
    fn copied(&self, alloc: Global) -> Result<CellPlan, NoMemory> {
        self.copy(alloc)
    }
}

impl TestPlan {
    /// An equal test of its own.
    pub fn copy(&self, alloc: Global) -> Result<TestPlan, NoMemory>
        ensures { IfOk result (λ t. test_plan t ≡ test_plan self.now) }
    {
        let params = self.params.copy(alloc)?;
        let body = self.body.copy(alloc)?;
        Ok(TestPlan { params, body })
    }
}

impl ColumnPlan {
    /// An equal column of its own.
    pub fn copy(&self, alloc: Global) -> Result<ColumnPlan, NoMemory>
        ensures { IfOk result (λ c. column_plan c ≡ column_plan self.now) }
    {
        let name = self.name.copy(alloc)?;
        let value = self.value.copy(alloc)?;
        Ok(ColumnPlan { name, value })
    }
}

/// Equal tests of their own.
pub fn copy_test_plans(alloc: Global, tests: &TestPlans) -> Result<TestPlans, NoMemory>
    ensures { IfOk result (λ t. map test_plan t ≡ map test_plan tests.now) }
{
    let mut copied = Vec::with_capacity(alloc, tests.len())?;
    'tests: for test in tests.as_slice() {
        let test = test.copy(alloc)?;
        copied.push(test)?;
    }
    Ok(Sequence::of(copied))
}

/// Equal columns of their own.
pub fn copy_column_plans(alloc: Global, columns: &ColumnPlans) -> Result<ColumnPlans, NoMemory>
    ensures { IfOk result (λ c. map column_plan c ≡ map column_plan columns.now) }
{
    let mut copied = Vec::with_capacity(alloc, columns.len())?;
    'columns: for column in columns.as_slice() {
        let column = column.copy(alloc)?;
        copied.push(column)?;
    }
    Ok(Sequence::of(copied))
}

impl Plan {
    /// The range of the cell with this number; none where the cell has none, or there is no such
    /// cell.
    pub fn range_at(&self, cell: u16) -> Option<Range>
        ensures { result ≡ range_at (script_plan self.now).cells cell }
    {
        match self.cells.get(usize::from(cell)) {
            Some(found) => found.range(),
            None => None,
        }
    }

    /// Whether the cell with this number takes the nearest end in place of a number outside its
    /// range.
    pub fn is_clamped(&self, cell: u16) -> bool
        ensures { result ≡ is_clamped (script_plan self.now).cells cell }
    {
        match self.range_at(cell) {
            Some(range) => range.clamps,
            None => false,
        }
    }

    /// What the cell with this number keeps of a number that is stored in it: the number itself
    /// in the cell's range, or the nearest end where the range clamps. `Err` has the fault that
    /// ends the group where the cell keeps nothing.
    pub fn landed(&self, cell: u16, number: i128) -> Result<i64, FaultKind>
        ensures { result ≡ landed (script_plan self.now).cells cell number }
    {
        let kept = match self.range_at(cell) {
            Some(range) => range.kept(number),
            None => None,
        };
        kept.ok_or(FaultKind::Over(cell))
    }

    /// An equal plan of its own.
    pub fn copy(&self, alloc: Global) -> Result<Plan, NoMemory>
        ensures { IfOk result (λ p. script_plan p ≡ script_plan self.now) }
    {
        let enums = self.enums.copy(alloc)?;
        let fields = self.fields.copy(alloc)?;
        let group = self.group.copy(alloc)?;
        let cells = self.cells.copy(alloc)?;
        let tests = copy_test_plans(alloc, &self.tests)?;
        let update = self.update.copy(alloc)?;
        let columns = copy_column_plans(alloc, &self.columns)?;
        Ok(Plan {
            enums,
            fields,
            group,
            cells,
            tests,
            update,
            columns,
        })
    }
}
