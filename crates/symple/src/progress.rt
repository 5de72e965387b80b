//! The observer that shows how far a run has come.
ghost use Rattle.std.specs.Prelude.{◌≡◌, None};

use crate::stream::StreamSink;
use itoa::Buffer;
use std::alloc::Global;
use std::rt::Stderr;
use sym_base::{NoMemory, Sink, write_all};
use sym_watch::{Observer, Partial};

/// Writes a line on standard error for each partial that it is told of: how many records a run has
/// taken, and how many groups they have. It passes over a stream that fails, and doesn't tell its
/// log.
#[derive(Drop)]
pub struct Progress {
    sink: StreamSink<Stderr>,
    last: Option<u64>,
}

impl Progress {
    /// An observer that writes on this stream, and wasn't told of anything.
    pub fn new(stream: Stderr) -> Progress
        ensures { result.last ≡ None }
    {
        Progress {
            sink: StreamSink::new(stream),
            last: None,
        }
    }
}

// Writes the line of so many records and groups, up to the first write that fails.
fn write_line<S: Sink>(sink: &mut S, records: u64, groups: u64) {
    let mut record_digits = Buffer::new();
    let mut group_digits = Buffer::new();
    let pieces = [
        "symple: ",
        record_digits.format(records),
        " records, ",
        group_digits.format(groups),
        " groups\n",
    ];
    'pieces: for piece in pieces {
        if write_all(sink, piece.as_bytes()).is_err() {
            return;
        }
    }
}

impl Observer for Progress {
    ghost use Rattle.std.specs.Prelude.{None};

    ghost log = { λ _. None };

    ghost last = { λ progress. progress.last };

    fn tell(&mut self, _alloc: Global, partial: &Partial) -> Result<(), NoMemory> {
        write_line(&mut self.sink, partial.upto, partial.rows.len() as u64);
        self.last = Some(partial.upto);
        Ok(())
    }

    fn last(&self) -> Option<u64> {
        self.last
    }
}

#[cfg(test)]
mod tests {
    use super::*;
    use std::test::Fail;
    use sym_base::MemSink;

    #[test]
    fn a_line_is_written_and_a_sink_that_fails_is_passed_over(rt: HostRuntime) -> Result<(), Fail> {
        let alloc = rt.alloc();
        let mut sink = MemSink::new(alloc, 100);
        sink.fail_at(alloc, 8)?;
        write_line(&mut sink, 64, 1);
        let first = b"symple: 64 records, 1 groups\n";
        assert_eq!(rt; sink.bytes(), first.as_slice());
        write_line(&mut sink, 128, 12);
        let part = b"symple: 64 records, 1 groups\nsymple: 128";
        assert_eq!(rt; sink.bytes(), part.as_slice());
        Ok(())
    }
}
