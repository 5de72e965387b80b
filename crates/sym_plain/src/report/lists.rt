//! What report functions give of lists.
ghost use Rattle.std.specs.Prelude.{◌≡◌, ◌+ℤ◌, IfOk, pos, fold, option_copied, slice_get};
ghost use Rattle.sym_plain.specs.Shown.{least, greatest, last, number_column, word_column, of_nums, of_words};

use std::alloc::Global;
use sym_base::{Column, NoMemory, Text};
use sym_check::ShowFn;

// No sum of numbers that memory holds leaves 128 bits.
fn sum(numbers: &[i64]) -> i128
    ensures { result ≡ fold ◌+ℤ◌ (pos 0) numbers.now }
{
    let mut sum = 0;
    'numbers: for number in numbers {
        sum += *number as i128;
    }
    sum
}

fn least(numbers: &[i64]) -> Option<i64>
    ensures { result ≡ least numbers.now }
{
    let (first, rest) = numbers.split_first()?;
    let mut least = *first;
    'rest: for number in rest {
        least = least.min(*number);
    }
    Some(least)
}

fn greatest(numbers: &[i64]) -> Option<i64>
    ensures { result ≡ greatest numbers.now }
{
    let (first, rest) = numbers.split_first()?;
    let mut greatest = *first;
    'rest: for number in rest {
        greatest = greatest.max(*number);
    }
    Some(greatest)
}

fn number_column(number: Option<i64>) -> Column
    ensures { result ≡ number_column number }
{
    match number {
        Some(number) => Column::Num(number as i128),
        None => Column::Nothing,
    }
}

fn first_number(numbers: &[i64]) -> Option<i64>
    ensures { result ≡ slice_get numbers.now 0 }
{
    numbers.get(0).copied()
}

fn last_number(numbers: &[i64]) -> Option<i64>
    ensures { result ≡ last numbers.now }
{
    numbers.get(numbers.len().saturating_sub(1)).copied()
}

/// What a report function gives of numbers.
pub(crate) fn of_nums(function: ShowFn, numbers: &[i64]) -> Column
    ensures { result ≡ of_nums function numbers.now }
{
    match function {
        ShowFn::Count => Column::Num(numbers.len() as i128),
        ShowFn::Sum => Column::Num(sum(numbers)),
        ShowFn::Min => number_column(least(numbers)),
        ShowFn::Max => number_column(greatest(numbers)),
        ShowFn::First => number_column(first_number(numbers)),
        ShowFn::Last => number_column(last_number(numbers)),
    }
}

fn word_column(alloc: Global, word: Option<&Text>) -> Result<Column, NoMemory>
    ensures { IfOk result (λ c. c ≡ word_column (option_copied word.entry)) }
{
    match word {
        Some(word) => Ok(Column::Word(word.copy(alloc)?)),
        None => Ok(Column::Nothing),
    }
}

/// What a report function gives of words.
pub(crate) fn of_words(alloc: Global, function: ShowFn, words: &[Text]) -> Result<Column, NoMemory>
    ensures { IfOk result (λ c. c ≡ of_words function words.now) }
{
    match function {
        ShowFn::Count => Ok(Column::Num(words.len() as i128)),
        ShowFn::First => word_column(alloc, words.get(0)),
        ShowFn::Last => word_column(alloc, words.get(words.len().saturating_sub(1))),
        ShowFn::Sum | ShowFn::Min | ShowFn::Max => Ok(Column::Nothing),
    }
}
