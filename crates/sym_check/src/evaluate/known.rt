//! What the names of an expression stand for.
ghost use Rattle.std.specs.Prelude.{◌≡◌, slice_get, option_copied};
ghost use Rattle.sym_check.specs.Meaning.FixedValues.{value_number, value_word, value_label, word_of, label_of};
ghost use Rattle.sym_check.specs.Checking.KnownValues.{known_values};
ghost use Rattle.sym_check.specs.Meaning.Updates.{environment};

use crate::plan::expression::{LabelOf, WordOf};
use sym_base::{Record, Value, Values};

/// The fields of a record, the locals so far, and in the body of a test its parameters: the parts
/// of a hold cell and the arguments after them.
#[derive(Drop)]
pub struct Known<'a> {
    pub fields: &'a [Value],
    pub locals: &'a [Value],
    pub parts: &'a [Value],
    pub args: &'a [Value],
}

/// The fields of the record, and the locals so far.
#[inline(always)]
pub fn known_in<'a>(rec: &'a Record, locals: &'a Values) -> Known<'a>
    ensures { known_values result ≡ environment rec.now locals.now }
{
    Known {
        fields: rec.fields.as_slice(),
        locals: locals.as_slice(),
        parts: &[],
        args: &[],
    }
}

fn number_in(value: Option<&Value>) -> i64
    ensures { result ≡ value_number (option_copied value.entry) }
{
    match value {
        Some(Value::Num(number)) => *number,
        _ => 0,
    }
}

fn word_in(value: Option<&Value>) -> &str
    ensures { result.now ≡ value_word (option_copied value.entry) }
{
    match value {
        Some(Value::Word(text)) => text.as_str(),
        _ => "",
    }
}

fn label_in(value: Option<&Value>) -> u8
    ensures { result ≡ value_label (option_copied value.entry) }
{
    match value {
        Some(Value::Label(label)) => *label,
        _ => 0,
    }
}

impl<'a> Known<'a> {
    fn field(&self, field: u16) -> Option<&'a Value>
        ensures { option_copied result ≡ slice_get (known_values self.now).fields field }
    {
        self.fields.get(usize::from(field))
    }

    fn local(&self, local: u16) -> Option<&'a Value>
        ensures { option_copied result ≡ slice_get (known_values self.now).locals local }
    {
        self.locals.get(usize::from(local))
    }

    #[inline(always)]
    fn param(&self, param: u16) -> Option<&'a Value>
        ensures { option_copied result ≡ slice_get (known_values self.now).params param }
    {
        let param = usize::from(param);
        if param < self.parts.len() {
            self.parts.get(param)
        } else {
            self.args.get(param - self.parts.len())
        }
    }

    /// The number of a field; 0 where no number field has this number.
    #[inline(always)]
    pub(crate) fn field_number(&self, field: u16) -> i64
        ensures { result ≡ value_number (slice_get (known_values self.now).fields field) }
    {
        number_in(self.field(field))
    }

    /// The number of a local; 0 where no number has this number.
    #[inline(always)]
    pub(crate) fn local_number(&self, local: u16) -> i64
        ensures { result ≡ value_number (slice_get (known_values self.now).locals local) }
    {
        number_in(self.local(local))
    }

    /// The number of a parameter; 0 where no number has this number.
    #[inline(always)]
    pub(crate) fn param_number(&self, param: u16) -> i64
        ensures { result ≡ value_number (slice_get (known_values self.now).params param) }
    {
        number_in(self.param(param))
    }

    /// The word of an expression.
    pub fn word(&self, word: &'a WordOf) -> &'a str
        ensures { result.now ≡ word_of (known_values self.now) word.now }
    {
        match word {
            WordOf::Lit(text) => text.as_str(),
            WordOf::Field(field) => word_in(self.field(*field)),
            WordOf::Local(local) => word_in(self.local(*local)),
            WordOf::Param(param) => word_in(self.param(*param)),
        }
    }

    /// The label of an expression.
    pub fn label(&self, label: &LabelOf) -> u8
        ensures { result ≡ label_of (known_values self.now) label.now }
    {
        match label {
            LabelOf::Lit(label) => *label,
            LabelOf::Field(field) => label_in(self.field(*field)),
            LabelOf::Local(local) => label_in(self.local(*local)),
            LabelOf::Param(param) => label_in(self.param(*param)),
        }
    }
}
