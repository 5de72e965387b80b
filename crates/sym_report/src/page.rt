//! Rows of CSV, as `csv` writes them.
ghost use Rattle.std.specs.Prelude.{◌≡◌, ◌++◌, [], OnOk};
ghost use Rattle.csv.specs.Records.{fields_of};
ghost use Rattle.csv.specs.Writing.{writer_pending, writer_under};
ghost use Rattle.sym_report.specs.Csvs.{csv_line};
ghost use Rattle.sym_report.specs.Pages.{IsAfterRow, IsBetweenRows};

use csv::{ByteRecord, Writer, WriterBuilder};
use std::alloc::Global;
use std::marker::Model;
use sym_base::NoMemory;

// A page with more bytes than this is full.
const PAGE_BYTES: usize = 65536;

/// Rows that `csv` has written. Making a writer costs more than writing a row, so one writer writes
/// many; a contract sees their bytes.
#[derive(Drop)]
pub(crate) struct Page {
    writer: Writer<Vec<u8>>,
}

impl Model for Page {
    ghost use Rattle.std.specs.Prelude.{List, ℕ};
    ghost use Rattle.csv.specs.Writing.{writer_under};
    ghost use Rattle.sym_report.specs.Pages.{IsBetweenRows};

    ghost Value = { List ℕ };

    ghost view = { λ p. (writer_under p.writer).items };

    ghost invariant = { λ p. IsBetweenRows p.writer };
}

// A writer that has written nothing. It takes no memory.
fn new_writer(alloc: Global) -> Writer<Vec<u8>>
    ensures empty { (writer_under result).items ≡ [] }
    ensures between { IsBetweenRows result }
{
    WriterBuilder::new()
        .flexible(true)
        .from_writer(Vec::new(alloc))
}

// Puts a new writer in its place. A writer has a buffer of 8 KiB, and a function clears the memory of
// its locals when it is called: so this isn't inlined where a row is written.
#[cold]
#[inline(never)]
fn renew(writer: &mut Writer<Vec<u8>>, alloc: Global)
    ensures empty { (writer_under writer.new).items ≡ [] }
    ensures between { IsBetweenRows writer.new }
{
    *writer = new_writer(alloc);
}

// Writes a row, of which the writer may keep a part or all. Where memory runs out, it may be within
// the row.
fn put_row(writer: &mut Writer<Vec<u8>>, row: &ByteRecord) -> Result<(), NoMemory>
    requires { IsBetweenRows writer.old }
    ensures text { let old = (writer_under writer.old).items in
        let sent = (writer_under writer.new).items in
        OnOk result (sent ++ writer_pending writer.new ≡ old ++ csv_line (fields_of row.now)) }
    ensures after { OnOk result (IsAfterRow writer.new) }
{
    match writer.write_byte_record(row) {
        Ok(()) => Ok(()),
        Err(_) => Err(NoMemory),
    }
}

// Sends what the writer keeps.
fn send_kept(writer: &mut Writer<Vec<u8>>) -> Result<(), NoMemory>
    requires { IsAfterRow writer.old }
    ensures text { let sent = (writer_under writer.old).items in
        OnOk result ((writer_under writer.new).items ≡ sent ++ writer_pending writer.old) }
    ensures between { OnOk result (IsBetweenRows writer.new) }
{
    match writer.flush() {
        Ok(()) => Ok(()),
        Err(_) => Err(NoMemory),
    }
}

// Writes a row. Where memory runs out, the writer may be within the row.
fn write_row(writer: &mut Writer<Vec<u8>>, row: &ByteRecord) -> Result<(), NoMemory>
    requires { IsBetweenRows writer.old }
    ensures text { let old = (writer_under writer.old).items in
        OnOk result ((writer_under writer.new).items ≡ old ++ csv_line (fields_of row.now)) }
    ensures between { OnOk result (IsBetweenRows writer.new) }
{
    put_row(writer, row)?;
    send_kept(writer)
}

impl Page {
    /// A page with no rows. It takes no memory.
    pub(crate) fn new(alloc: Global) -> Page
        ensures { result ≡ [] }
    {
        Page {
            writer: new_writer(alloc),
        }
    }

    /// The bytes of the rows.
    pub(crate) fn bytes(&self) -> &[u8]
        ensures { result.now ≡ self.now }
    {
        self.writer.get_ref()
    }

    /// Begins a new page if this one is full.
    pub(crate) fn turn(&mut self, alloc: Global) {
        if self.bytes().len() > PAGE_BYTES {
            renew(&mut self.writer, alloc);
        }
    }

    /// Adds what `csv` writes of these fields. After an `Err` the page has no rows.
    pub(crate) fn add(&mut self, alloc: Global, row: &ByteRecord) -> Result<(), NoMemory>
        ensures { OnOk result (self.new ≡ self.old ++ csv_line (fields_of row.now)) }
    {
        match write_row(&mut self.writer, row) {
            Ok(()) => Ok(()),
            Err(refused) => {
                renew(&mut self.writer, alloc);
                Err(refused)
            }
        }
    }
}
