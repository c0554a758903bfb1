// The trusted edge: what std's readers and writers report of their bytes is passed on.
ghost use Rattle.std.specs.Prelude.{◌≡◌, false};
ghost use Rattle.c5_io.specs.Adapters.{reader_of, source_faults, writer_of, sink_faults};
ghost use Rattle.c5_io.specs.Adapters.{is_flushed};

use crate::{Failed, Sink, Source};
use std::io::{Read, Write};

/// A source over a reader of std.
#[derive(Drop)]
pub struct StdSource<R: Read> {
    reader: R,
    faults: u64,
}

impl<R: Read> StdSource<R> {
    /// Each `Err` of the reader is a fault.
    pub fn new(reader: R) -> Self
        ensures reader { reader_of result ≡ reader }
        ensures faults { source_faults result ≡ 0 }
    {
        StdSource { reader, faults: 0 }
    }
}

impl<R: Read> Source for StdSource<R> {
    ghost left = { λ s. R.remaining (reader_of s) };

    ghost faults = { λ s. source_faults s };

    fn read(&mut self, into: &mut [u8]) -> Result<usize, Failed> {
        match self.reader.read(into) {
            Ok(count) => Ok(count),
            Err(_) => {
                self.faults = self.faults.saturating_add(1);
                Err(Failed)
            }
        }
    }
}

/// A sink over a writer of std.
#[derive(Drop)]
pub struct StdSink<W: Write> {
    writer: W,
    faults: u64,
    flushed: bool,
}

impl<W: Write> StdSink<W> {
    /// Each `Err` of the writer is a fault, and so is a write of 0 bytes of a piece that isn't
    /// empty.
    pub fn new(writer: W) -> Self
        ensures writer { writer_of result ≡ writer }
        ensures faults { sink_faults result ≡ 0 }
        ensures flushed { is_flushed result ≡ false }
    {
        StdSink {
            writer,
            faults: 0,
            flushed: false,
        }
    }
}

impl<W: Write> Sink for StdSink<W> {
    ghost held = { λ s. W.contents (writer_of s) };

    ghost faults = { λ s. sink_faults s };

    ghost flushed = { λ s. is_flushed s };

    fn write(&mut self, piece: &[u8]) -> Result<usize, Failed> {
        self.flushed = false;
        if let Ok(count) = self.writer.write(piece)
            && (count > 0 || piece.is_empty())
        {
            return Ok(count);
        }
        self.faults = self.faults.saturating_add(1);
        Err(Failed)
    }

    fn flush(&mut self) -> Result<(), Failed> {
        self.flushed = self.writer.flush().is_ok();
        if self.flushed {
            return Ok(());
        }
        self.faults = self.faults.saturating_add(1);
        Err(Failed)
    }
}
