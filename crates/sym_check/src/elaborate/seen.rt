//! What report expressions come to.
ghost use Rattle.std.specs.Prelude.{◌<◌, length};

use crate::plan::script::KindPlans;
use crate::plan::show::Show;

/// A hold cell and the kinds of its parts, of which there are few enough for their numbers.
#[derive(Drop)]
pub struct HoldParts {
    pub cell: u16,
    pub kinds: KindPlans,
    pub ghost few: { length kinds < 65536 },
}

/// What a report expression comes to. A hold cell has no value as a whole.
#[derive(Drop)]
pub enum Seen {
    /// A number that stands in the text, and its place.
    Numeral(i64, u32),
    /// A calculated number, or that of a cell.
    Number(Show),
    Word(Show),
    /// A cell that lists numbers.
    NumList(u16),
    /// A cell that lists words.
    WordList(u16),
    Parts(HoldParts),
}
