//! Writing values, parts, forms and paths. Each function appends to the text.
ghost use Rattle.std.specs.Prelude.{◌≡◌, ◌++◌, List, ℕ, OnOk};
ghost use Rattle.std.specs.List.{All, flat_map};
ghost use Rattle.sym_pred.specs.Literals.{literals};
ghost use Rattle.sym_file.specs.Stored.{AreStored, IsStoredEnd, IsStoredFault, IsStoredForm, IsStoredHoldForm, IsStoredLabelForm, IsStoredLiteral, IsStoredNumber, IsStoredPart, IsStoredPath, IsStoredSegment, IsStoredText, IsStoredValue};
ghost use Rattle.sym_file.specs.Texts.{added_text, counted, end_text, facts_text, form_text, hold_form_text, label_form_text, literal_text, fault_text, listed, number_text, part_text, path_text, segment_text, spaced, value_text, word_text};

use itoa::{Buffer, Integer};
use sym_base::{Element, Fault, FaultKind, NoMemory, Text, Value};
use sym_enum::{EnumForm, LabelSet};
use sym_int::IntForm;
use sym_path::{Form, Part, Path, PathEnd, Segment};
use sym_pred::{Facts, HoldForm, Literal};
use sym_vector::ListForm;

/// What has a text in a file.
pub(crate) trait Item {
    /// Its text.
    ghost text: { Self → List ℕ };

    /// What its type keeps of it.
    ghost stored: { Self → Type 0 };

    /// Appends the text.
    fn put(&self, out: &mut Vec<u8>) -> Result<(), NoMemory>
        ensures text { OnOk result (out.new.items ≡ out.old.items ++ text self.now) }
        ensures stored { OnOk result (stored self.now) };
}

/// Appends these bytes.
pub(crate) fn put(out: &mut Vec<u8>, bytes: &[u8]) -> Result<(), NoMemory>
    ensures { OnOk result (out.new.items ≡ out.old.items ++ bytes.now) }
{
    out.extend_from_slice(bytes)?;
    Ok(())
}

/// Appends a number.
pub(crate) fn put_number<I: Integer>(out: &mut Vec<u8>, number: I) -> Result<(), NoMemory>
    ensures { OnOk result (out.new.items ≡ out.old.items ++ I.text number) }
{
    let mut buffer = Buffer::new();
    put(out, buffer.format(number).as_bytes())
}

/// Appends the items one after another.
pub(crate) fn put_all<T: Item>(out: &mut Vec<u8>, items: &[T]) -> Result<(), NoMemory>
    ensures text { OnOk result (out.new.items ≡ out.old.items ++ flat_map T.text items.now) }
    ensures stored { OnOk result (All T.stored items.now) }
{
    'items: for item in items {
        item.put(out)?;
    }
    Ok(())
}

/// Appends the items, each after a space.
pub(crate) fn put_spaced<T: Item>(out: &mut Vec<u8>, items: &[T]) -> Result<(), NoMemory>
    ensures text { OnOk result (out.new.items ≡ out.old.items ++ spaced T.text items.now) }
    ensures stored { OnOk result (All T.stored items.now) }
{
    'items: for item in items {
        put(out, b" ")?;
        item.put(out)?;
    }
    Ok(())
}

/// Appends a text after its number of bytes.
#[tactic(auto, unfolding(crate::specs::Texts::counted))]
fn put_counted(out: &mut Vec<u8>, text: &str) -> Result<(), NoMemory>
    ensures text { OnOk result (out.new.items ≡ out.old.items ++ counted text.now) }
    ensures stored { OnOk result (IsStoredText text.now) }
{
    put_number(out, text.len())?;
    put(out, b":")?;
    put(out, text.as_bytes())
}

impl Item for Text {
    ghost text = { word_text };

    ghost stored = { IsStoredText };

    fn put(&self, out: &mut Vec<u8>) -> Result<(), NoMemory> {
        put(out, b"w")?;
        put_counted(out, self.as_str())
    }
}

impl Item for Value {
    ghost text = { value_text };

    ghost stored = { IsStoredValue };

    #[tactic(auto, unfolding(crate::specs::Texts::value_text))]
    fn put(&self, out: &mut Vec<u8>) -> Result<(), NoMemory> {
        match self {
            Value::Num(number) => {
                put(out, b"n")?;
                put_number(out, *number)
            }
            Value::Label(label) => {
                put(out, b"l")?;
                put_number(out, *label)
            }
            Value::Word(word) => word.put(out),
        }
    }
}

impl Item for Literal {
    ghost text = { literal_text };

    ghost stored = { IsStoredLiteral };

    #[tactic(auto, unfolding(crate::specs::Texts::literal_text))]
    fn put(&self, out: &mut Vec<u8>) -> Result<(), NoMemory> {
        put(out, b"t")?;
        put_number(out, self.test)?;
        put(out, if self.outcome { b" yes" } else { b" no" })?;
        put_spaced(out, self.args.as_slice())
    }
}

/// Appends the literals of facts, each after a space.
fn put_literals(out: &mut Vec<u8>, facts: &Facts) -> Result<(), NoMemory>
    ensures text { OnOk result
        (out.new.items ≡ out.old.items ++ spaced literal_text (literals facts.now)) }
    ensures stored { OnOk result (AreStored IsStoredLiteral (literals facts.now)) }
{
    'literals: for index in 0..facts.len() {
        if let Some(literal) = facts.at(index) {
            put(out, b" ")?;
            literal.put(out)?;
        }
    }
    Ok(())
}

fn put_facts(out: &mut Vec<u8>, facts: &Facts) -> Result<(), NoMemory>
    ensures text { OnOk result (out.new.items ≡ out.old.items ++ facts_text (literals facts.now)) }
    ensures stored { OnOk result (AreStored IsStoredLiteral (literals facts.now)) }
{
    put(out, b"f")?;
    put_number(out, facts.len())?;
    put_literals(out, facts)
}

/// The sum of 2 to the power of each label of a set.
fn bits_of(set: &LabelSet) -> u32
    ensures { result ≡ set.now.bits }
{
    let mut bits: u32 = 0;
    'labels: for label in 0..32u8 {
        if set.has(label) {
            bits |= 1 << label;
        }
    }
    bits
}

impl Item for Part {
    ghost text = { part_text };

    ghost stored = { IsStoredPart };

    #[tactic(auto, unfolding(crate::specs::Texts::part_text))]
    fn put(&self, out: &mut Vec<u8>) -> Result<(), NoMemory> {
        match self {
            Part::Set(set) => {
                put(out, b"e")?;
                put_number(out, bits_of(set))
            }
            Part::Span(span) => {
                put(out, b"i")?;
                put_number(out, span.lo)?;
                put(out, b"..")?;
                put_number(out, span.hi)
            }
            Part::Facts(facts) => put_facts(out, facts),
            Part::Free => put(out, b"v"),
        }
    }
}

impl Item for IntForm {
    ghost text = { number_text };

    ghost stored = { IsStoredNumber };

    #[tactic(auto, unfolding(crate::specs::Texts::number_text))]
    fn put(&self, out: &mut Vec<u8>) -> Result<(), NoMemory> {
        match self {
            IntForm::Const(number) => {
                put(out, b"n")?;
                put_number(out, number.value)
            }
            IntForm::Line(line) => {
                put(out, b"x")?;
                put_number(out, line.cell)?;
                put(out, b",")?;
                put_number(out, line.a)?;
                put(out, b",")?;
                put_number(out, line.offset())
            }
        }
    }
}

fn put_label_form(out: &mut Vec<u8>, form: &EnumForm) -> Result<(), NoMemory>
    ensures text { OnOk result (out.new.items ≡ out.old.items ++ label_form_text form.now) }
    ensures stored { OnOk result (IsStoredLabelForm form.now) }
{
    match form {
        EnumForm::Const(label) => {
            put(out, b"c")?;
            put_number(out, *label)
        }
        EnumForm::Copy(cell) => {
            put(out, b"k")?;
            put_number(out, *cell)
        }
    }
}

fn put_hold_form(out: &mut Vec<u8>, form: &HoldForm) -> Result<(), NoMemory>
    ensures text { OnOk result (out.new.items ≡ out.old.items ++ hold_form_text form.now) }
    ensures stored { OnOk result (IsStoredHoldForm form.now) }
{
    match form {
        HoldForm::Const(parts) => {
            put(out, b"h")?;
            put_spaced(out, parts.as_slice())
        }
        HoldForm::Copy(cell) => {
            put(out, b"k")?;
            put_number(out, *cell)
        }
    }
}

/// Appends the elements that a form adds to a list, each after a space.
fn put_elements<E: Element + Item>(out: &mut Vec<u8>, form: &ListForm<E>) -> Result<(), NoMemory>
    ensures text { OnOk result (out.new.items ≡ out.old.items ++ spaced E.text form.now) }
    ensures stored { OnOk result (AreStored E.stored form.now) }
{
    'elements: for index in 0..form.len() {
        if let Some(element) = form.at(index) {
            put(out, b" ")?;
            element.put(out)?;
        }
    }
    Ok(())
}

/// Appends the elements that a form adds to a list, after their number.
fn put_added<E: Element + Item>(out: &mut Vec<u8>, form: &ListForm<E>) -> Result<(), NoMemory>
    ensures text { OnOk result (out.new.items ≡ out.old.items ++ added_text E.text form.now) }
    ensures stored { OnOk result (AreStored E.stored form.now) }
{
    put(out, b"a")?;
    put_number(out, form.len())?;
    put_elements(out, form)
}

impl Item for Form {
    ghost text = { form_text };

    ghost stored = { IsStoredForm };

    #[tactic(auto, unfolding(crate::specs::Texts::form_text))]
    fn put(&self, out: &mut Vec<u8>) -> Result<(), NoMemory> {
        match self {
            Form::Enum(form) => put_label_form(out, form),
            Form::Int(form) => form.put(out),
            Form::Hold(form) => put_hold_form(out, form),
            Form::Nums(form) => put_added(out, form),
            Form::Words(form) => put_added(out, form),
        }
    }
}

fn put_fault(out: &mut Vec<u8>, fault: &Fault) -> Result<(), NoMemory>
    ensures text { OnOk result
        (out.new.items ≡ out.old.items ++ fault_text fault.now.kind fault.now.no) }
    ensures stored { OnOk result (IsStoredFault fault.now.kind fault.now.no) }
{
    match fault.kind {
        FaultKind::Over(cell) => {
            put(out, b"over ")?;
            put_number(out, cell)?;
            put(out, b" ")?;
        }
        FaultKind::Arith => put(out, b"arith ")?,
    }
    put_number(out, fault.no)
}

#[tactic(auto, unfolding(crate::specs::Texts::end_text))]
fn put_end(out: &mut Vec<u8>, end: &PathEnd) -> Result<(), NoMemory>
    ensures text { OnOk result (out.new.items ≡ out.old.items ++ end_text end.now) }
    ensures stored { OnOk result (IsStoredEnd end.now) }
{
    match end {
        PathEnd::Next(forms) => {
            put(out, b"next")?;
            put_spaced(out, forms.as_slice())
        }
        PathEnd::Ended(fault) => put_fault(out, fault),
    }
}

impl Item for Path {
    ghost text = { path_text };

    ghost stored = { IsStoredPath };

    #[tactic(auto, unfolding(crate::specs::Texts::path_text))]
    fn put(&self, out: &mut Vec<u8>) -> Result<(), NoMemory> {
        put(out, b"when")?;
        put_spaced(out, self.when.as_slice())?;
        put(out, b"\n")?;
        put_end(out, &self.end)?;
        put(out, b"\n")
    }
}

/// Appends a word, the number of the items and the end of the line, and then the items.
pub(crate) fn put_listed<T: Item>(
    out: &mut Vec<u8>,
    word: &[u8],
    items: &[T],
) -> Result<(), NoMemory>
    ensures text { OnOk result (out.new.items ≡ out.old.items ++ listed word.now T.text items.now) }
    ensures stored { OnOk result (AreStored T.stored items.now) }
{
    put(out, word)?;
    put_number(out, items.len())?;
    put(out, b"\n")?;
    put_all(out, items)
}

impl Item for Segment {
    ghost text = { segment_text };

    ghost stored = { IsStoredSegment };

    #[tactic(auto, unfolding(crate::specs::Texts::segment_text))]
    fn put(&self, out: &mut Vec<u8>) -> Result<(), NoMemory> {
        put_listed(out, b"segment ", self.paths())
    }
}
