//! Whole lists of bytes into a sink.
ghost use Rattle.std.specs.Prelude.{◌≡◌, ℕ, ◌≤◌, OnOk, OnErr, IsErrOf};
ghost use Rattle.sym_base.specs.Counts.{Rose};
ghost use Rattle.sym_base.specs.Transfers.{appended, AppendsPrefix};

use crate::edge::sink::{Sink, SinkErr};

/// Appends all bytes to the sink. It takes no memory of its own.
///
/// # Errors
///
/// `Failed` where a write failed and `NoMemory` where the sink's own memory ended; the first of
/// the bytes, any number of them, have then been appended.
pub fn write_all<O: Sink>(sink: &mut O, bytes: &[u8]) -> Result<(), SinkErr>
    ensures ok { OnOk result (O.written sink.new ≡ appended (O.written sink.old) bytes.now) }
    ensures err { OnErr result (AppendsPrefix (O.written sink.old) (O.written sink.new) bytes.now) }
    ensures later { O.faults sink.old ≤ O.faults sink.new }
    ensures later_short { O.short sink.old ≤ O.short sink.new }
    ensures failed { IsErrOf result SinkErr.Failed → Rose (O.faults sink.old) (O.faults sink.new) }
    ensures no_memory { IsErrOf result SinkErr.NoMemory →
        Rose (O.short sink.old) (O.short sink.new) }
{
    let mut done: usize = 0;
    'pieces: while done < bytes.len() {
        let count = match sink.write_some(&bytes[done..]) {
            Ok(count) => count,
            Err(error) => return Err(error),
        };
        done += count;
    }
    Ok(())
}
