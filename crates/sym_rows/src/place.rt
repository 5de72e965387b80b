//! Where reading stands in a row.
ghost use Rattle.std.specs.Prelude.{◌≡◌, ◌||◌, ◌==◌, false};
ghost use Rattle.sym_rows.specs.Places.{inside, is_between, is_quoted, next_step, place_of, start};
ghost use Rattle.sym_rows.specs.Rows.{is_line_end};

/// Where reading stands, as far as where rows end.
#[derive(Clone, Copy, PartialEq, Eq)]
pub enum Place {
    /// No row is begun.
    Between,
    /// No byte of the field is read.
    Start,
    /// The field is read, outside quotes.
    Inside,
    /// Within quotes.
    Quoted,
    /// After a quote that ends the quoted part, unless another quote is next.
    AfterQuote,
}

/// The place after a byte, and whether the byte ends a row.
#[derive(Clone, Copy)]
pub struct Step {
    pub at: Place,
    pub ends: bool,
}

/// Whether the byte ends a line.
pub fn is_line_end(byte: u8) -> bool
    ensures { result ≡ is_line_end byte }
{
    (byte == b'\r') | (byte == b'\n')
}

fn goes(at: Place) -> Step
    ensures { result ≡ record { at = at; ends = false } }
{
    Step { at, ends: false }
}

fn inside(byte: u8) -> Step
    ensures { result ≡ inside byte }
{
    if byte == b',' {
        goes(Place::Start)
    } else if is_line_end(byte) {
        Step {
            at: Place::Between,
            ends: true,
        }
    } else {
        goes(Place::Inside)
    }
}

fn start(byte: u8) -> Step
    ensures { result ≡ start byte }
{
    if byte == b'"' {
        goes(Place::Quoted)
    } else {
        inside(byte)
    }
}

/// The place after a byte, and whether the byte ends a row.
pub fn next_step(at: Place, byte: u8) -> Step
    ensures { result ≡ next_step at byte }
{
    match at {
        Place::Between => {
            if is_line_end(byte) {
                goes(Place::Between)
            } else {
                start(byte)
            }
        }
        Place::Start => start(byte),
        Place::Inside => inside(byte),
        Place::Quoted => {
            if byte == b'"' {
                goes(Place::AfterQuote)
            } else {
                goes(Place::Quoted)
            }
        }
        Place::AfterQuote => {
            if byte == b'"' {
                goes(Place::Quoted)
            } else {
                inside(byte)
            }
        }
    }
}

/// The place after a byte that is read outside quotes and is none.
pub fn place_of(byte: u8) -> Place
    ensures { result ≡ place_of byte }
{
    if is_line_end(byte) {
        Place::Between
    } else if byte == b',' {
        Place::Start
    } else {
        Place::Inside
    }
}

/// Whether no row is begun.
pub fn is_between(at: Place) -> bool
    ensures { result ≡ is_between at }
{
    match at {
        Place::Between => true,
        Place::Start | Place::Inside | Place::Quoted | Place::AfterQuote => false,
    }
}

/// Whether the place is within quotes.
pub fn is_quoted(at: Place) -> bool
    ensures { result ≡ is_quoted at }
{
    match at {
        Place::Quoted => true,
        Place::Between | Place::Start | Place::Inside | Place::AfterQuote => false,
    }
}
