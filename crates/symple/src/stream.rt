//! A stream of output, as a sink.
ghost use Rattle.std.specs.Prelude.{◌≡◌, ◌≤◌, None, length, IfSome, IfOk, IfErr, OnErr};
ghost use Rattle.symple.specs.Counting.{after_failed_write, after_write, unwritten_stream};

use crate::interrupts::TRIES;
use std::io::{ErrorKind, Write};
use std::marker::Model;
use sym_base::{Sink, SinkErr};

/// A stream that is written to, as standard output. It doesn't tell what was written. It keeps no
/// bytes back: what a write took is in the stream. A contract sees how many bytes the stream took,
/// and how many writes failed.
#[derive(Drop)]
pub struct StreamSink<W: Write> {
    stream: W,
    taken: u64,
    faults: u64,
}

impl<W: Write> Model for StreamSink<W> {
    ghost use Rattle.symple.specs.Counting.{Stream};

    ghost Value = { Stream };

    ghost view = { λ s. record { taken = s.taken; faults = s.faults } };
}

impl<W: Write> StreamSink<W> {
    /// A sink over this stream, which took nothing yet, and with no write that failed.
    pub fn new(stream: W) -> StreamSink<W>
        ensures { result ≡ unwritten_stream }
    {
        StreamSink {
            stream,
            taken: 0,
            faults: 0,
        }
    }
}

impl<W: Write> Sink for StreamSink<W> {
    ghost written = { λ _. None };

    ghost faults = { λ s. s.faults };

    ghost short = { λ _. 0 };

    /// Writes as many bytes as the stream takes at once, and counts them. A stream that takes none
    /// of some bytes has failed.
    fn write_some(&mut self, bytes: &[u8]) -> Result<usize, SinkErr>
        ensures bound { IfOk result (λ k. k ≤ length bytes.now) }
        ensures some { IfOk result (λ k. k ≡ 0 → length bytes.now ≡ 0) }
        ensures later { self.old.faults ≤ self.new.faults }
        ensures taken { IfOk result (λ k. self.new ≡ after_write self.old k) }
        ensures fault { OnErr result (self.new ≡ after_failed_write self.old) }
        ensures only_failed { IfErr result (λ error. error ≡ SinkErr.Failed) }
    {
        match write_piece(&mut self.stream, bytes) {
            Some(count) => {
                self.taken = self.taken.saturating_add(count as u64);
                Ok(count)
            }
            None => {
                self.faults = self.faults.saturating_add(1);
                Err(SinkErr::Failed)
            }
        }
    }
}

// One write to a stream, tried again where a signal interrupts it: the number of bytes that it
// took, and None where it failed or took none of some bytes.
fn write_piece<W: Write>(stream: &mut W, bytes: &[u8]) -> Option<usize>
    ensures bound { IfSome result (λ k. k ≤ length bytes.now) }
    ensures some { IfSome result (λ k. k ≡ 0 → length bytes.now ≡ 0) }
{
    'tries: for _ in 0..TRIES {
        match stream.write(bytes) {
            Ok(0) if !bytes.is_empty() => return None,
            Ok(count) => return Some(count),
            Err(error) if error.kind() == ErrorKind::Interrupted => {}
            Err(_) => return None,
        }
    }
    None
}

#[cfg(test)]
mod tests {
    use super::*;
    use std::io;
    use std::test::Fail;
    use sym_base::write_all;

    // A stream of 8 bytes of room, which takes at most 3 bytes at once, and then takes none.
    #[derive(Drop)]
    struct Narrow {
        taken: Vec<u8>,
    }

    impl Write for Narrow {
        fn write(&mut self, bytes: &[u8]) -> io::Result<usize> {
            let room = 8usize.saturating_sub(self.taken.len());
            let count = bytes.len().min(room).min(3);
            self.taken.extend_from_slice(&bytes[..count])?;
            Ok(count)
        }

        fn flush(&mut self) -> io::Result<()> {
            Ok(())
        }
    }

    #[test]
    fn a_stream_is_written_whole_and_one_that_takes_nothing_has_failed(
        rt: HostRuntime,
    ) -> Result<(), Fail> {
        let mut sink = StreamSink::new(Narrow {
            taken: Vec::new(rt.alloc()),
        });
        assert_eq!(rt; write_all(&mut sink, b"01234"), Ok(()));
        assert_eq!(rt; sink.write_some(b""), Ok(0));
        assert_eq!(rt; sink.taken, 5);
        assert_eq!(rt; sink.faults, 0);
        assert_eq!(rt; write_all(&mut sink, b"5678"), Err(SinkErr::Failed));
        assert_eq!(rt; sink.taken, 8);
        assert_eq!(rt; sink.faults, 1);
        assert_eq!(rt; sink.stream.taken.as_slice(), b"01234567".as_slice());
        Ok(())
    }
}
