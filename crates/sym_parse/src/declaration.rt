//! Declarations and the columns of the report.
ghost use Rattle.std.specs.Prelude.{◌≡◌, ◌-◌, ◌<◌, ◌≤◌, ◌≤ℤ◌, pos, length, map, Ok, IfOk, OnOk, vec_len};
ghost use Rattle.std.specs.Bool.{OnTrue};
ghost use Rattle.sym_base.specs.Trees.{column_tree, test_tree};
ghost use Rattle.sym_parse.specs.declared.error.LimitKind.TheVariants as limit;
ghost use Rattle.sym_parse.specs.Limits.{most};
ghost use Rattle.sym_parse.specs.Parsing.Declarations as spec;
ghost use Rattle.sym_parse.specs.Steps.{Parses, sees_name, separated};
ghost use Rattle.sym_parse.specs.Steps as steps;
ghost use Rattle.sym_parse.specs.Views.{input};

use crate::error::LimitKind;
use crate::expression::expression;
use crate::state::Cursor;
use crate::stop::Stop;
use std::alloc::Global;
use sym_base::{
    CellDecl, ColumnDecl, DEPTH_MAX, EnumDecl, FieldDecl, KindRef, Literal, Name, Names,
    PARAMETERS_MAX, PARTS_MAX, Param, Part, Sequence, StateDecl, TestDecl, Text,
};
use sym_lex::{Keyword, Symbol};

/// A number with an optional `-`.
#[tactic(auto, unfolding(crate::specs::Parsing::Declarations::num))]
fn num(cursor: &mut Cursor<'_>) -> Result<i64, Stop>
    ensures reads { Parses (λ n. n) (spec.num (input cursor.old)) result (input cursor.new) }
    ensures shorter { OnOk result (length cursor.new.rest.now < length cursor.old.rest.now) }
{
    if !cursor.is_sign(Symbol::Minus) {
        return cursor.number();
    }
    cursor.bump();
    let size = cursor.number()?;
    Ok(-size)
}

/// A number, a text or a label.
#[tactic(auto, unfolding(crate::specs::Parsing::Declarations::literal_value))]
fn literal(alloc: Global, cursor: &mut Cursor<'_>) -> Result<Literal, Stop>
    ensures reads { Parses (λ v. v) (spec.literal_value (input cursor.old))
        result (input cursor.new) }
    ensures shorter { OnOk result (length cursor.new.rest.now < length cursor.old.rest.now) }
{
    let at = cursor.place();
    if cursor.is_text() {
        let text = cursor.text(alloc)?;
        return Ok(Literal::Text { text, at });
    }
    if cursor.is_name() {
        return Ok(Literal::Named(cursor.name(alloc)?));
    }
    let value = num(cursor)?;
    Ok(Literal::Num { value, at })
}

#[tactic(auto, unfolding(crate::specs::Parsing::Declarations::begins_kind))]
fn begins_kind(cursor: &Cursor<'_>) -> bool
    ensures { result ≡ spec.begins_kind (input cursor.now) }
{
    cursor.is_name() || cursor.is_word(Keyword::Num) || cursor.is_word(Keyword::Word)
}

/// `num`, `word` or the name of an enum.
#[tactic(auto, unfolding(crate::specs::Parsing::Declarations::kind_ref))]
fn kind(alloc: Global, cursor: &mut Cursor<'_>) -> Result<KindRef, Stop>
    ensures reads { Parses (λ k. k) (spec.kind_ref (input cursor.old)) result (input cursor.new) }
    ensures shorter { OnOk result (length cursor.new.rest.now < length cursor.old.rest.now) }
{
    if cursor.is_word(Keyword::Num) {
        cursor.bump();
        return Ok(KindRef::Num);
    }
    if cursor.is_word(Keyword::Word) {
        cursor.bump();
        return Ok(KindRef::Word);
    }
    Ok(KindRef::Named(cursor.name(alloc)?))
}

/// `, NAME` as often as a comma stands next.
#[tactic(auto, using(crate::proofs::Lists::separated_goes))]
fn names_from(
    alloc: Global,
    cursor: &mut Cursor<'_>,
    which: LimitKind,
    mut found: Vec<Name>,
) -> Result<Vec<Name>, Stop>
    ensures reads { Parses (λ v. v.items)
        (separated which sees_name steps.name (most which - length found.items) found.items
        (input cursor.old)) result (input cursor.new) }
    ensures shorter { OnOk result (length cursor.new.rest.now ≤ length cursor.old.rest.now) }
{
    if !cursor.is_sign(Symbol::Comma) {
        return Ok(found);
    }
    cursor.bump();
    cursor.one_more(found.len(), which.most(), which, cursor.is_name())?;
    let name = cursor.name(alloc)?;
    found.push(name)?;
    names_from(alloc, cursor, which, found)
}

/// `NAME {, NAME}`, which are counted as this kind.
#[tactic(auto, unfolding(crate::specs::Parsing::Declarations::names))]
fn names(alloc: Global, cursor: &mut Cursor<'_>, which: LimitKind) -> Result<Vec<Name>, Stop>
    ensures reads { Parses (λ v. v.items) (spec.names most which (input cursor.old))
        result (input cursor.new) }
    ensures shorter { OnOk result (length cursor.new.rest.now < length cursor.old.rest.now) }
{
    let mut found = Vec::new(alloc);
    let first = cursor.name(alloc)?;
    found.push(first)?;
    names_from(alloc, cursor, which, found)
}

/// `enum NAME { NAME {, NAME} }`
#[tactic(auto, unfolding(crate::specs::Parsing::Declarations::enum_decl))]
pub fn enum_decl(alloc: Global, cursor: &mut Cursor<'_>) -> Result<EnumDecl, Stop>
    ensures reads { Parses (λ d. d) (spec.enum_decl most (input cursor.old))
        result (input cursor.new) }
    ensures shorter { OnOk result (length cursor.new.rest.now < length cursor.old.rest.now) }
{
    cursor.word(Keyword::Enum)?;
    let name = cursor.name(alloc)?;
    cursor.sign(Symbol::OpenBrace)?;
    let labels = Sequence::of(names(alloc, cursor, LimitKind::Labels)?);
    cursor.sign(Symbol::CloseBrace)?;
    Ok(EnumDecl { name, labels })
}

/// `from TEXT`, or nothing.
#[tactic(auto, unfolding(crate::specs::Parsing::Declarations::header))]
fn header(alloc: Global, cursor: &mut Cursor<'_>) -> Result<Option<Text>, Stop>
    ensures reads { Parses (λ h. h) (spec.header (input cursor.old)) result (input cursor.new) }
    ensures shorter { OnOk result (length cursor.new.rest.now ≤ length cursor.old.rest.now) }
{
    if !cursor.is_word(Keyword::From) {
        return Ok(None);
    }
    cursor.bump();
    Ok(Some(cursor.text(alloc)?))
}

/// `else literal`, or nothing.
#[tactic(auto, unfolding(crate::specs::Parsing::Declarations::default_value))]
fn default(alloc: Global, cursor: &mut Cursor<'_>) -> Result<Option<Literal>, Stop>
    ensures reads { Parses (λ d. d) (spec.default_value (input cursor.old))
        result (input cursor.new) }
    ensures shorter { OnOk result (length cursor.new.rest.now ≤ length cursor.old.rest.now) }
{
    if !cursor.is_word(Keyword::Else) {
        return Ok(None);
    }
    cursor.bump();
    Ok(Some(literal(alloc, cursor)?))
}

/// `field NAME [from TEXT] : kind [else literal] ;`
#[tactic(auto, unfolding(crate::specs::Parsing::Declarations::field))]
pub fn field(alloc: Global, cursor: &mut Cursor<'_>) -> Result<FieldDecl, Stop>
    ensures reads { Parses (λ d. d) (spec.field (input cursor.old)) result (input cursor.new) }
    ensures shorter { OnOk result (length cursor.new.rest.now < length cursor.old.rest.now) }
{
    cursor.word(Keyword::Field)?;
    let name = cursor.name(alloc)?;
    let header = header(alloc, cursor)?;
    cursor.sign(Symbol::Colon)?;
    let kind = kind(alloc, cursor)?;
    let default = default(alloc, cursor)?;
    cursor.sign(Symbol::Semicolon)?;
    Ok(FieldDecl {
        name,
        header,
        kind,
        default,
    })
}

/// `group NAME {, NAME} ;`, or nothing.
#[tactic(auto, unfolding(crate::specs::Parsing::Declarations::group))]
pub fn group(alloc: Global, cursor: &mut Cursor<'_>) -> Result<Names, Stop>
    ensures reads { Parses (λ g. g) (spec.group most (input cursor.old)) result (input cursor.new) }
    ensures shorter { OnOk result (length cursor.new.rest.now ≤ length cursor.old.rest.now) }
{
    if !cursor.is_word(Keyword::Group) {
        return Ok(Sequence::new(alloc));
    }
    cursor.bump();
    let names = Sequence::of(names(alloc, cursor, LimitKind::GroupFields)?);
    cursor.sign(Symbol::Semicolon)?;
    Ok(names)
}

/// `[ num .. num ]`
#[tactic(auto, unfolding(crate::specs::Parsing::Declarations::range))]
fn range(cursor: &mut Cursor<'_>) -> Result<(i64, i64), Stop>
    ensures reads { Parses (λ r. (r.0, r.1)) (spec.range (input cursor.old))
        result (input cursor.new) }
    ensures shorter { OnOk result (length cursor.new.rest.now < length cursor.old.rest.now) }
{
    cursor.sign(Symbol::OpenBracket)?;
    let lo = num(cursor)?;
    cursor.sign(Symbol::DotDot)?;
    let hi = num(cursor)?;
    cursor.sign(Symbol::CloseBracket)?;
    Ok((lo, hi))
}

/// Whether `clamp` stands next, which is taken.
#[tactic(auto, unfolding(crate::specs::Parsing::Declarations::clamp))]
fn clamp(cursor: &mut Cursor<'_>) -> bool
    ensures reads { spec.clamp (input cursor.old) ≡ Ok (result, input cursor.new) }
    ensures shorter { length cursor.new.rest.now ≤ length cursor.old.rest.now }
{
    if !cursor.is_word(Keyword::Clamp) {
        return false;
    }
    cursor.bump();
    true
}

/// `kind = literal`
#[tactic(auto, unfolding(crate::specs::Parsing::Declarations::part))]
fn part(alloc: Global, cursor: &mut Cursor<'_>) -> Result<Part, Stop>
    ensures reads { Parses (λ p. p) (spec.part (input cursor.old)) result (input cursor.new) }
    ensures shorter { OnOk result (length cursor.new.rest.now < length cursor.old.rest.now) }
{
    let kind = kind(alloc, cursor)?;
    cursor.sign(Symbol::Assign)?;
    let first = literal(alloc, cursor)?;
    Ok(Part { kind, first })
}

/// `, kind = literal` as often as a comma stands next.
#[tactic(auto, using(crate::proofs::Lists::separated_goes))]
fn parts_from(
    alloc: Global,
    cursor: &mut Cursor<'_>,
    mut found: Vec<Part>,
) -> Result<Vec<Part>, Stop>
    ensures reads { Parses (λ v. v.items)
        (separated limit.Parts spec.begins_kind spec.part (PARTS_MAX - length found.items)
        found.items (input cursor.old)) result (input cursor.new) }
    ensures shorter { OnOk result (length cursor.new.rest.now ≤ length cursor.old.rest.now) }
{
    if !cursor.is_sign(Symbol::Comma) {
        return Ok(found);
    }
    cursor.bump();
    cursor.one_more(
        found.len(),
        PARTS_MAX,
        LimitKind::Parts,
        begins_kind(cursor),
    )?;
    let part = part(alloc, cursor)?;
    found.push(part)?;
    parts_from(alloc, cursor, found)
}

/// `kind = literal {, kind = literal}`
#[tactic(auto, unfolding(crate::specs::Parsing::Declarations::parts))]
fn parts(alloc: Global, cursor: &mut Cursor<'_>) -> Result<Vec<Part>, Stop>
    ensures reads { Parses (λ v. v.items) (spec.parts most (input cursor.old))
        result (input cursor.new) }
    ensures shorter { OnOk result (length cursor.new.rest.now < length cursor.old.rest.now) }
{
    let mut found = Vec::new(alloc);
    let first = part(alloc, cursor)?;
    found.push(first)?;
    parts_from(alloc, cursor, found)
}

#[tactic(auto, unfolding(crate::specs::Parsing::Declarations::int_cell))]
fn int_cell(cursor: &mut Cursor<'_>) -> Result<CellDecl, Stop>
    ensures reads { Parses (λ c. c) (spec.int_cell most (input cursor.old))
        result (input cursor.new) }
    ensures shorter { OnOk result (length cursor.new.rest.now < length cursor.old.rest.now) }
{
    cursor.word(Keyword::Int)?;
    let (lo, hi) = range(cursor)?;
    cursor.sign(Symbol::Assign)?;
    let first = num(cursor)?;
    let clamp = clamp(cursor);
    Ok(CellDecl::Int {
        lo,
        hi,
        first,
        clamp,
    })
}

#[tactic(auto, unfolding(crate::specs::Parsing::Declarations::nums_cell))]
fn nums_cell(cursor: &mut Cursor<'_>) -> Result<CellDecl, Stop>
    ensures reads { Parses (λ c. c) (spec.nums_cell most (input cursor.old))
        result (input cursor.new) }
    ensures shorter { OnOk result (length cursor.new.rest.now < length cursor.old.rest.now) }
{
    cursor.word(Keyword::Nums)?;
    let (lo, hi) = range(cursor)?;
    let clamp = clamp(cursor);
    Ok(CellDecl::Nums { lo, hi, clamp })
}

#[tactic(auto, unfolding(crate::specs::Parsing::Declarations::hold_cell))]
fn hold_cell(alloc: Global, cursor: &mut Cursor<'_>) -> Result<CellDecl, Stop>
    ensures reads { Parses (λ c. c) (spec.hold_cell most (input cursor.old))
        result (input cursor.new) }
    ensures shorter { OnOk result (length cursor.new.rest.now < length cursor.old.rest.now) }
{
    cursor.word(Keyword::Hold)?;
    cursor.sign(Symbol::OpenParen)?;
    let parts = Sequence::of(parts(alloc, cursor)?);
    cursor.sign(Symbol::CloseParen)?;
    Ok(CellDecl::Hold(parts))
}

#[tactic(auto, unfolding(crate::specs::Parsing::Declarations::label_cell))]
fn label_cell(alloc: Global, cursor: &mut Cursor<'_>) -> Result<CellDecl, Stop>
    ensures reads { Parses (λ c. c) (spec.label_cell most (input cursor.old))
        result (input cursor.new) }
    ensures shorter { OnOk result (length cursor.new.rest.now < length cursor.old.rest.now) }
{
    let of = cursor.name(alloc)?;
    cursor.sign(Symbol::Assign)?;
    let first = cursor.name(alloc)?;
    Ok(CellDecl::Enum { of, first })
}

/// What a cell holds.
#[tactic(auto, unfolding(crate::specs::Parsing::Declarations::cell_decl))]
fn cell(alloc: Global, cursor: &mut Cursor<'_>) -> Result<CellDecl, Stop>
    ensures reads { Parses (λ c. c) (spec.cell_decl most (input cursor.old))
        result (input cursor.new) }
    ensures shorter { OnOk result (length cursor.new.rest.now < length cursor.old.rest.now) }
{
    if cursor.is_word(Keyword::Int) {
        return int_cell(cursor);
    }
    if cursor.is_word(Keyword::Nums) {
        return nums_cell(cursor);
    }
    if cursor.is_word(Keyword::Words) {
        cursor.bump();
        return Ok(CellDecl::Words);
    }
    if cursor.is_word(Keyword::Hold) {
        return hold_cell(alloc, cursor);
    }
    label_cell(alloc, cursor)
}

/// `state NAME : cell ;`
#[tactic(auto, unfolding(crate::specs::Parsing::Declarations::state))]
pub fn state(alloc: Global, cursor: &mut Cursor<'_>) -> Result<StateDecl, Stop>
    ensures reads { Parses (λ d. d) (spec.state most (input cursor.old)) result (input cursor.new) }
    ensures shorter { OnOk result (length cursor.new.rest.now < length cursor.old.rest.now) }
{
    cursor.word(Keyword::State)?;
    let name = cursor.name(alloc)?;
    cursor.sign(Symbol::Colon)?;
    let cell = cell(alloc, cursor)?;
    cursor.sign(Symbol::Semicolon)?;
    Ok(StateDecl { name, cell })
}

/// `NAME : kind`
#[tactic(auto, unfolding(crate::specs::Parsing::Declarations::param))]
fn param(alloc: Global, cursor: &mut Cursor<'_>) -> Result<Param, Stop>
    ensures reads { Parses (λ p. p) (spec.param (input cursor.old)) result (input cursor.new) }
    ensures shorter { OnOk result (length cursor.new.rest.now < length cursor.old.rest.now) }
{
    let name = cursor.name(alloc)?;
    cursor.sign(Symbol::Colon)?;
    let kind = kind(alloc, cursor)?;
    Ok(Param { name, kind })
}

/// `, NAME : kind` as often as a comma stands next.
#[tactic(auto, using(crate::proofs::Lists::separated_goes))]
fn params_from(
    alloc: Global,
    cursor: &mut Cursor<'_>,
    mut found: Vec<Param>,
) -> Result<Vec<Param>, Stop>
    ensures reads { Parses (λ v. v.items)
        (separated limit.Parameters sees_name spec.param (PARAMETERS_MAX - length found.items)
        found.items (input cursor.old)) result (input cursor.new) }
    ensures shorter { OnOk result (length cursor.new.rest.now ≤ length cursor.old.rest.now) }
{
    if !cursor.is_sign(Symbol::Comma) {
        return Ok(found);
    }
    cursor.bump();
    cursor.one_more(
        found.len(),
        PARAMETERS_MAX,
        LimitKind::Parameters,
        cursor.is_name(),
    )?;
    let param = param(alloc, cursor)?;
    found.push(param)?;
    params_from(alloc, cursor, found)
}

/// `NAME : kind {, NAME : kind}`
#[tactic(auto, unfolding(crate::specs::Parsing::Declarations::params))]
fn params(alloc: Global, cursor: &mut Cursor<'_>) -> Result<Vec<Param>, Stop>
    ensures reads { Parses (λ v. v.items) (spec.params most (input cursor.old))
        result (input cursor.new) }
    ensures shorter { OnOk result (length cursor.new.rest.now < length cursor.old.rest.now) }
{
    let mut found = Vec::new(alloc);
    let first = param(alloc, cursor)?;
    found.push(first)?;
    params_from(alloc, cursor, found)
}

/// `test NAME ( param {, param} ) = expr ;`
#[tactic(auto, unfolding(crate::specs::Parsing::Declarations::test_decl))]
pub fn test_decl(alloc: Global, cursor: &mut Cursor<'_>) -> Result<TestDecl, Stop>
    ensures reads { Parses test_tree (spec.test_decl most (input cursor.old))
        result (input cursor.new) }
    ensures shorter { OnOk result (length cursor.new.rest.now < length cursor.old.rest.now) }
{
    cursor.word(Keyword::Test)?;
    let name = cursor.name(alloc)?;
    cursor.sign(Symbol::OpenParen)?;
    let params = Sequence::of(params(alloc, cursor)?);
    cursor.sign(Symbol::CloseParen)?;
    cursor.sign(Symbol::Assign)?;
    let body = expression(alloc, cursor, DEPTH_MAX)?;
    cursor.sign(Symbol::Semicolon)?;
    Ok(TestDecl { name, params, body })
}

/// `NAME = expr ;`
#[tactic(auto, unfolding(crate::specs::Parsing::Declarations::column))]
pub fn column(alloc: Global, cursor: &mut Cursor<'_>) -> Result<ColumnDecl, Stop>
    ensures reads { Parses column_tree (spec.column most (input cursor.old))
        result (input cursor.new) }
    ensures shorter { OnOk result (length cursor.new.rest.now < length cursor.old.rest.now) }
{
    let name = cursor.name(alloc)?;
    cursor.sign(Symbol::Assign)?;
    let value = expression(alloc, cursor, DEPTH_MAX)?;
    cursor.sign(Symbol::Semicolon)?;
    Ok(ColumnDecl { name, value })
}
