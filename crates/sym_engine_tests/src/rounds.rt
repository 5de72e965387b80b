//! Rounds over files, by example: how files are cut, and rows that are read as another one.
ghost use Rattle.std.specs.Prelude.{◌≡◌, IfOk};
ghost use Rattle.std.specs.List.{All};
ghost use Rattle.std.specs.Option.{unwrap_or};
ghost use Rattle.sym_check.specs.Checking.CheckedScripts.{checked_plan};
ghost use Rattle.sym_table.specs.ChunkRecords.{chunk_records};
ghost use Rattle.sym_table.specs.Rows.{FitsChunk};
ghost use Rattle.sym_files.specs.Rounds.{round_records, shown_chunk};
ghost use Rattle.sym_engine_tests.specs.Rounds.{Reads};

use std::alloc::Global;
use std::slice;
use std::sync::Wait;
use std::test::Fail;
use std::thread::Threads;
use sym_base::{FILE_MAX_DEFAULT, MemStore, NoMemory};
use sym_check::Checked;
use sym_engine::{
    CHUNK_DEFAULT, LIMIT_DEFAULT, Options, PassErr, Rounds, Took, WORKERS_DEFAULT, Work, each_round,
};
use sym_given::{
    Row as Case, ThreadedCase, bytes_differ, check_rows, check_threaded_cases, difference,
};
use sym_table::{Bad, BadCause, Chunk, Chunks, Cutter, Decoded, Row, RowCursor, RowView, decode};

/// The number of chunks in each round. Each row is read as `one`, where there is one.
#[derive(Drop)]
struct Noted {
    rounds: Vec<usize>,
    one: Option<Row>,
}

// The row that is read in place of a row.
fn shown<'a>(one: &'a Option<Row>, row: RowView<'a>) -> RowView<'a>
    ensures { result ≡ unwrap_or one.now row.entry }
{
    match one {
        Some(shown) => shown.view(),
        None => row,
    }
}

// Reads the rows of a chunk.
fn read_chunk(
    alloc: Global,
    checked: &Checked,
    chunk: &Chunk,
    one: &Option<Row>,
) -> Result<Took, NoMemory>
    requires { FitsChunk (checked_plan checked.now).fields chunk.now }
    ensures { let as_shown = shown_chunk (unwrap_or one.now) chunk.now in
        IfOk result (Reads (chunk_records (checked_plan checked.now) as_shown)) }
{
    let mut no = chunk.first_no;
    let mut cursor = RowCursor::over(alloc, slice::from_ref(chunk))?;
    let mut held = Row::with_room(alloc)?;
    'rows: for _index in 0..chunk.rows.len() {
        if !cursor.read(&mut held)? {
            return Ok(Took::Done);
        }
        let row = shown(one, held.view());
        match decode(alloc, checked, &chunk.header, &row, no)? {
            Decoded::Is(_) => no += 1,
            Decoded::Bad(bad) => return Ok(Took::Bad(bad)),
        }
    }
    Ok(Took::Done)
}

// Reads the rows of chunks, in order.
pub(crate) fn read_chunks(
    alloc: Global,
    checked: &Checked,
    chunks: &[Chunk],
    one: &Option<Row>,
) -> Result<Took, NoMemory>
    requires { All (FitsChunk (checked_plan checked.now).fields) chunks.now }
    ensures { let read = round_records (checked_plan checked.now) (unwrap_or one.now) chunks.now in
        IfOk result (Reads read) }
{
    'chunks: for chunk in chunks {
        match read_chunk(alloc, checked, chunk, one)? {
            Took::Done => {}
            Took::Bad(bad) => return Ok(Took::Bad(bad)),
        }
    }
    Ok(Took::Done)
}

impl Rounds for Noted {
    ghost shown = { λ noted row. unwrap_or noted.one row };

    // It stands for any records.
    ghost stands = { λ _ _ _ _. Unit {0} };

    // It tells no one of rounds.
    ghost told = { λ _ _ _ _ _. Unit {0} };

    fn take<T: Threads + Wait + Sync>(
        &mut self,
        _rt: &T,
        alloc: Global,
        work: &Work,
    ) -> Result<Took, NoMemory> {
        let chunks = work.chunks.as_slice();
        self.rounds.push(chunks.len())?;
        read_chunks(alloc, &work.checked, chunks, &self.one)
    }
}

/// Two files of so many rows, each of which has the text of the second; how many rows a chunk has;
/// the field that is read in place of each row, where there is one; the chunks of each round; and
/// the number after the last record, or the first problem.
struct Cut(
    [usize; 2],
    &'static str,
    u32,
    Option<&'static str>,
    &'static [usize],
    Result<u64, PassErr>,
);

const SCRIPT: &str = "field n: num; state k: int [0..9] = 0; update { k = n; } report { k = k; }";

/// The first row of the first file is no record.
const FIRST: PassErr = PassErr::Bad {
    file: 0,
    bad: Bad {
        no: 1,
        cause: BadCause::Number(0),
    },
};

/// The first row of the second file is no record.
const SECOND: PassErr = PassErr::Bad {
    file: 1,
    bad: Bad {
        no: 1,
        cause: BadCause::Number(0),
    },
};

const CUTS: [Cut; 8] = [
    Cut([65, 3], "1\n", 1, None, &[64, 1, 3], Ok(69)),
    Cut([130, 0], "1\n", 1, None, &[64, 64, 2], Ok(131)),
    Cut([130, 1], "1\n", 2, None, &[64, 1, 1], Ok(132)),
    Cut([64, 64], "1\n", 1, None, &[64, 64], Ok(129)),
    Cut([0, 65], "1\n", CHUNK_DEFAULT, None, &[1], Ok(66)),
    Cut([65, 1], "x\n", 1, None, &[64], Err(FIRST)),
    Cut([65, 1], "x\n", 1, Some("7"), &[64, 1, 1], Ok(67)),
    Cut([0, 2], "1\n", 1, Some("x"), &[2], Err(SECOND)),
];

// A header and so many rows.
fn text_of(alloc: Global, rows: usize, row: &str) -> Result<String, NoMemory> {
    let mut text = String::from_str(alloc, "n\n")?;
    'rows: for _row in 0..rows {
        text.push_str(row)?;
    }
    Ok(text)
}

fn store(alloc: Global, rows: [usize; 2], row: &str) -> Result<MemStore, NoMemory> {
    let mut store = MemStore::new(alloc);
    store.add(alloc, "a", text_of(alloc, rows[0], row)?.as_bytes())?;
    store.add(alloc, "b", text_of(alloc, rows[1], row)?.as_bytes())?;
    Ok(store)
}

fn noting(alloc: Global, one: Option<&str>) -> Result<Noted, NoMemory> {
    let one = match one {
        Some(field) => Some(Row::from_fields(alloc, &[field.as_bytes()])?),
        None => None,
    };
    let rounds = Vec::new(alloc);
    Ok(Noted { rounds, one })
}

fn taken<T: Threads + Wait + Sync>(
    rt: &T,
    alloc: Global,
    checked: &Checked,
    files: &mut MemStore,
    chunk: u32,
    noted: &mut Noted,
) -> Result<Option<Result<u64, PassErr>>, NoMemory> {
    if chunk < 1 || chunk > CHUNK_DEFAULT {
        return Ok(None);
    }
    let options = Options {
        chunk,
        limit: LIMIT_DEFAULT,
        workers: WORKERS_DEFAULT,
        max_bytes: FILE_MAX_DEFAULT,
    };
    let mut names = Vec::new(alloc);
    names.push(String::from_str(alloc, "a")?)?;
    names.push(String::from_str(alloc, "b")?)?;
    let names = names.as_slice();
    Ok(Some(each_round(rt, alloc, checked, files, names, &options, 1, noted)))
}

impl ThreadedCase for Cut {
    fn script(&self) -> &str {
        SCRIPT
    }

    fn differs<T: Threads + Wait + Sync>(
        &self,
        rt: &T,
        alloc: Global,
        checked: &Checked,
    ) -> Result<Option<String>, NoMemory> {
        let Cut(rows, row, chunk, one, rounds, wanted) = self;
        let mut noted = noting(alloc, *one)?;
        let mut files = store(alloc, *rows, row)?;
        let found = taken(rt, alloc, checked, &mut files, *chunk, &mut noted)?;
        let told = difference(alloc, &found, &Some(*wanted))?;
        if told.is_some() {
            return Ok(told);
        }
        difference(alloc, &noted.rounds.as_slice(), rounds)
    }
}

#[test]
fn files_are_cut_into_rounds_of_up_to_64_chunks(rt: HostRuntime) -> Result<(), Fail> {
    check_threaded_cases(&rt, rt.alloc(), &CUTS)
}

/// The limit of a work, and the text of its file, which is cut into chunks of two rows.
struct Shared(u32, &'static str);

const SHARED: [Shared; 1] = [Shared(3, "n\n1\n2\n3\n")];

fn work_of(alloc: Global, checked: &Checked, shared: &Shared) -> Result<Option<Work>, NoMemory> {
    let Shared(limit, text) = shared;
    if text.len() > 16 {
        return Ok(None);
    }
    let Ok(mut cutter) = Cutter::open(alloc, checked, text.as_bytes(), 1, 2) else {
        return Ok(None);
    };
    let mut chunks = Chunks::new(alloc);
    'chunks: for _number in 0..2 {
        if let Some(chunk) = cutter.next(alloc)? {
            chunks.push(chunk)?;
        }
    }
    Ok(Some(Work {
        checked: checked.copy(alloc)?,
        chunks,
        limit: *limit,
    }))
}

// A chunk of rows of one field as a text: the number of its first row, and each field.
fn push_chunk(alloc: Global, text: &mut Vec<u8>, chunk: &Chunk) -> Result<(), NoMemory> {
    let first_no = chunk.first_no;
    text.extend_from_slice(format!(in alloc; "{first_no}:")?.as_bytes())?;
    let mut cursor = RowCursor::over(alloc, slice::from_ref(chunk))?;
    let mut row = Row::with_room(alloc)?;
    'rows: for _row in 0..chunk.rows.len() {
        if !cursor.read(&mut row)? {
            return Ok(());
        }
        text.extend_from_slice(row.get(0).unwrap_or(b""))?;
        text.push(b';')?;
    }
    Ok(())
}

fn work_differs(
    alloc: Global,
    work: &Work,
    checked: &Checked,
    limit: u32,
) -> Result<Option<String>, NoMemory> {
    let found = (work.limit, work.checked.path_bound());
    let told = difference(alloc, &found, &(limit, checked.path_bound()))?;
    if told.is_some() {
        return Ok(told);
    }
    let mut text = Vec::new(alloc);
    'chunks: for chunk in work.chunks.as_slice() {
        push_chunk(alloc, &mut text, chunk)?;
    }
    bytes_differ(alloc, text.as_slice(), b"1:1;2;3:3;")
}

impl Case for Shared {
    fn differs(&self, alloc: Global, checked: &Checked) -> Result<Option<String>, NoMemory> {
        match work_of(alloc, checked, self)? {
            Some(work) => work_differs(alloc, &work.copy(alloc)?, checked, self.0),
            None => Ok(Some(String::from_str(alloc, "found no work, wanted its copy")?)),
        }
    }
}

#[test]
fn a_copy_of_work_has_its_chunks(rt: HostRuntime) -> Result<(), Fail> {
    check_rows(rt.alloc(), SCRIPT, &SHARED)
}
