//! Declarations of a script.
ghost use Rattle.std.specs.Prelude.{◌≡◌, IfOk, map};
ghost use Rattle.sym_base.specs.Trees.{test_tree, column_tree};

use crate::tree::expression::Expr;
use crate::tree::name::{Name, Names};
use crate::values::memory::NoMemory;
use crate::values::sequence::{Plain, Sequence};
use crate::values::text::Text;
use std::alloc::Global;

/// An enum and its labels, which are numbered from 0 in this order.
#[derive(PartialEq, Eq)]
pub struct EnumDecl {
    pub name: Name,
    pub labels: Names,
}

impl Drop for EnumDecl {
    fn drop(self) {
        let EnumDecl {
            name: _name,
            labels: _labels,
        } = self;
    }
}

/// The kind of a value, as it is written.
#[derive(PartialEq, Eq)]
pub enum KindRef {
    Num,
    Word,
    /// A label of the enum of this name.
    Named(Name),
}

impl Drop for KindRef {
    fn drop(self) {
        match self {
            KindRef::Num => {}
            KindRef::Word => {}
            KindRef::Named(_held) => {}
        }
    }
}

/// A value, as it is written.
#[derive(PartialEq, Eq)]
pub enum Literal {
    Num { value: i64, at: u32 },
    Text { text: Text, at: u32 },
    /// A label.
    Named(Name),
}

impl Drop for Literal {
    fn drop(self) {
        match self {
            Literal::Num { value: _, at: _ } => {}
            Literal::Text { text: _text, at: _ } => {}
            Literal::Named(_held) => {}
        }
    }
}

/// A field of the records.
#[derive(PartialEq, Eq)]
pub struct FieldDecl {
    pub name: Name,
    /// The text of its column in a file's header, where that isn't the name.
    pub header: Option<Text>,
    pub kind: KindRef,
    /// The value of an empty text.
    pub default: Option<Literal>,
}

impl Drop for FieldDecl {
    fn drop(self) {
        let FieldDecl {
            name: _name,
            header: _header,
            kind: _kind,
            default: _default,
        } = self;
    }
}

/// A part of a hold cell: its kind and its first value.
#[derive(PartialEq, Eq)]
pub struct Part {
    pub kind: KindRef,
    pub first: Literal,
}

impl Drop for Part {
    fn drop(self) {
        let Part {
            kind: _kind,
            first: _first,
        } = self;
    }
}

/// What a cell holds, and what it holds at first. Ranges have both ends in them.
#[derive(PartialEq, Eq)]
pub enum CellDecl {
    Int {
        lo: i64,
        hi: i64,
        first: i64,
        /// Whether a number outside the range becomes the nearest end, in place of a fault.
        clamp: bool,
    },
    Nums {
        lo: i64,
        hi: i64,
        /// The same, of a number that is pushed.
        clamp: bool,
    },
    Words,
    Hold(Parts),
    Enum {
        of: Name,
        first: Name,
    },
}

impl Drop for CellDecl {
    fn drop(self) {
        match self {
            CellDecl::Int {
                lo: _,
                hi: _,
                first: _,
                clamp: _,
            } => {}
            CellDecl::Nums {
                lo: _,
                hi: _,
                clamp: _,
            } => {}
            CellDecl::Words => {}
            CellDecl::Hold(_held) => {}
            CellDecl::Enum {
                of: _of,
                first: _first,
            } => {}
        }
    }
}

/// A cell of the state.
#[derive(PartialEq, Eq)]
pub struct StateDecl {
    pub name: Name,
    pub cell: CellDecl,
}

impl Drop for StateDecl {
    fn drop(self) {
        let StateDecl {
            name: _name,
            cell: _cell,
        } = self;
    }
}

/// A parameter of a test.
#[derive(PartialEq, Eq)]
pub struct Param {
    pub name: Name,
    pub kind: KindRef,
}

impl Drop for Param {
    fn drop(self) {
        let Param {
            name: _name,
            kind: _kind,
        } = self;
    }
}

/// A test on the parts of a hold cell and further arguments.
pub struct TestDecl {
    pub name: Name,
    pub params: Params,
    pub body: Expr,
}

impl Drop for TestDecl {
    fn drop(self) {
        let TestDecl {
            name: _name,
            params: _params,
            body: _body,
        } = self;
    }
}

/// A column of the report.
pub struct ColumnDecl {
    pub name: Name,
    pub value: Expr,
}

impl Drop for ColumnDecl {
    fn drop(self) {
        let ColumnDecl {
            name: _name,
            value: _value,
        } = self;
    }
}

/// The enums, in order of declaration.
pub type EnumDecls = Sequence<EnumDecl>;

/// The fields, in order of declaration.
pub type FieldDecls = Sequence<FieldDecl>;

/// The parts of a hold cell, in order.
pub type Parts = Sequence<Part>;

/// The cells, in order of declaration.
pub type StateDecls = Sequence<StateDecl>;

/// The parameters of a test, in order.
pub type Params = Sequence<Param>;

/// The tests, in order of declaration.
pub type TestDecls = Sequence<TestDecl>;

/// The columns of the report, in order.
pub type ColumnDecls = Sequence<ColumnDecl>;

impl EnumDecl {
    /// An equal declaration of its own.
    pub fn copy(&self, alloc: Global) -> Result<EnumDecl, NoMemory>
        ensures { IfOk result (λ d. d ≡ self.now) }
    {
        let name = self.name.copy(alloc)?;
        let labels = self.labels.copy(alloc)?;
        Ok(EnumDecl { name, labels })
    }
}

impl Plain for EnumDecl {
    fn copied(&self, alloc: Global) -> Result<EnumDecl, NoMemory> {
        self.copy(alloc)
    }
}

impl KindRef {
    /// An equal kind of its own.
    pub fn copy(&self, alloc: Global) -> Result<KindRef, NoMemory>
        ensures { IfOk result (λ k. k ≡ self.now) }
    {
        match self {
            KindRef::Num => Ok(KindRef::Num),
            KindRef::Word => Ok(KindRef::Word),
            KindRef::Named(name) => Ok(KindRef::Named(name.copy(alloc)?)),
        }
    }
}

impl Literal {
    /// An equal literal of its own.
    pub fn copy(&self, alloc: Global) -> Result<Literal, NoMemory>
        ensures { IfOk result (λ l. l ≡ self.now) }
    {
        match self {
            Literal::Num { value, at } => Ok(Literal::Num {
                value: *value,
                at: *at,
            }),
            Literal::Text { text, at } => Ok(Literal::Text {
                text: text.copy(alloc)?,
                at: *at,
            }),
            Literal::Named(name) => Ok(Literal::Named(name.copy(alloc)?)),
        }
    }
}

fn copy_header(alloc: Global, header: &Option<Text>) -> Result<Option<Text>, NoMemory>
    ensures { IfOk result (λ h. h ≡ header.now) }
{
    match header {
        Some(text) => Ok(Some(text.copy(alloc)?)),
        None => Ok(None),
    }
}

fn copy_default(alloc: Global, default: &Option<Literal>) -> Result<Option<Literal>, NoMemory>
    ensures { IfOk result (λ d. d ≡ default.now) }
{
    match default {
        Some(literal) => Ok(Some(literal.copy(alloc)?)),
        None => Ok(None),
    }
}

impl FieldDecl {
    /// An equal declaration of its own.
    pub fn copy(&self, alloc: Global) -> Result<FieldDecl, NoMemory>
        ensures { IfOk result (λ d. d ≡ self.now) }
    {
        let name = self.name.copy(alloc)?;
        let header = copy_header(alloc, &self.header)?;
        let kind = self.kind.copy(alloc)?;
        let default = copy_default(alloc, &self.default)?;
        Ok(FieldDecl {
            name,
            header,
            kind,
            default,
        })
    }
}

impl Plain for FieldDecl {
    fn copied(&self, alloc: Global) -> Result<FieldDecl, NoMemory> {
        self.copy(alloc)
    }
}

impl Part {
    /// An equal part of its own.
    pub fn copy(&self, alloc: Global) -> Result<Part, NoMemory>
        ensures { IfOk result (λ p. p ≡ self.now) }
    {
        let kind = self.kind.copy(alloc)?;
        let first = self.first.copy(alloc)?;
        Ok(Part { kind, first })
    }
}

impl Plain for Part {
    fn copied(&self, alloc: Global) -> Result<Part, NoMemory> {
        self.copy(alloc)
    }
}

impl CellDecl {
    /// An equal declaration of its own.
    pub fn copy(&self, alloc: Global) -> Result<CellDecl, NoMemory>
        ensures { IfOk result (λ d. d ≡ self.now) }
    {
        match self {
            CellDecl::Int {
                lo,
                hi,
                first,
                clamp,
            } => Ok(CellDecl::Int {
                lo: *lo,
                hi: *hi,
                first: *first,
                clamp: *clamp,
            }),
            CellDecl::Nums { lo, hi, clamp } => Ok(CellDecl::Nums {
                lo: *lo,
                hi: *hi,
                clamp: *clamp,
            }),
            CellDecl::Words => Ok(CellDecl::Words),
            CellDecl::Hold(parts) => Ok(CellDecl::Hold(parts.copy(alloc)?)),
            CellDecl::Enum { of, first } => {
                let of = of.copy(alloc)?;
                let first = first.copy(alloc)?;
                Ok(CellDecl::Enum { of, first })
            }
        }
    }
}

impl StateDecl {
    /// An equal declaration of its own.
    pub fn copy(&self, alloc: Global) -> Result<StateDecl, NoMemory>
        ensures { IfOk result (λ d. d ≡ self.now) }
    {
        let name = self.name.copy(alloc)?;
        let cell = self.cell.copy(alloc)?;
        Ok(StateDecl { name, cell })
    }
}

impl Plain for StateDecl {
    fn copied(&self, alloc: Global) -> Result<StateDecl, NoMemory> {
        self.copy(alloc)
    }
}

impl Param {
    /// An equal parameter of its own.
    pub fn copy(&self, alloc: Global) -> Result<Param, NoMemory>
        ensures { IfOk result (λ p. p ≡ self.now) }
    {
        let name = self.name.copy(alloc)?;
        let kind = self.kind.copy(alloc)?;
        Ok(Param { name, kind })
    }
}

impl Plain for Param {
    fn copied(&self, alloc: Global) -> Result<Param, NoMemory> {
        self.copy(alloc)
    }
}

impl TestDecl {
    /// An equal declaration of its own.
    pub fn copy(&self, alloc: Global) -> Result<TestDecl, NoMemory>
        ensures { IfOk result (λ d. test_tree d ≡ test_tree self.now) }
    {
        let name = self.name.copy(alloc)?;
        let params = self.params.copy(alloc)?;
        let body = self.body.copy(alloc)?;
        Ok(TestDecl { name, params, body })
    }
}

impl ColumnDecl {
    /// An equal declaration of its own.
    pub fn copy(&self, alloc: Global) -> Result<ColumnDecl, NoMemory>
        ensures { IfOk result (λ d. column_tree d ≡ column_tree self.now) }
    {
        let name = self.name.copy(alloc)?;
        let value = self.value.copy(alloc)?;
        Ok(ColumnDecl { name, value })
    }
}

impl Sequence<TestDecl> {
    /// Equal test declarations of their own.
    pub fn copy(&self, alloc: Global) -> Result<TestDecls, NoMemory>
        ensures { IfOk result (λ t. map test_tree t ≡ map test_tree self.now) }
    {
        let mut copied = Vec::with_capacity(alloc, self.len())?;
        'tests: for test in self.as_slice() {
            let test = test.copy(alloc)?;
            copied.push(test)?;
        }
        Ok(Sequence::of(copied))
    }
}

impl Sequence<ColumnDecl> {
    /// Equal columns of their own.
    pub fn copy(&self, alloc: Global) -> Result<ColumnDecls, NoMemory>
        ensures { IfOk result (λ c. map column_tree c ≡ map column_tree self.now) }
    {
        let mut copied = Vec::with_capacity(alloc, self.len())?;
        'columns: for column in self.as_slice() {
            let column = column.copy(alloc)?;
            copied.push(column)?;
        }
        Ok(Sequence::of(copied))
    }
}
