ghost use Rattle.std.specs.Prelude.{◌≡◌};
ghost use Rattle.rif_script.specs.Standard.{flushed_bytes};

use crate::failed::Failed;
use crate::sink::Sink;
use crate::source::Source;
use std::io::{Read, Write};

/// A source over a reader. It tells what is left where the reader does: a standard stream doesn't.
#[derive(Drop)]
pub struct StdSource<R: Read> {
    reader: R,
    faults: u64,
}

impl<R: Read> StdSource<R> {
    /// A source of what the reader gives, without a fault so far.
    pub fn new(reader: R) -> StdSource<R>
        ensures left { ⟦<StdSource<R> as Source>⟧.left result ≡ R.remaining reader }
        ensures faults { ⟦<StdSource<R> as Source>⟧.faults result ≡ 0 }
    {
        StdSource { reader, faults: 0 }
    }
}

/// Each error of the reader is a fault.
impl<R: Read> Source for StdSource<R> {
    ghost left = { λ source. R.remaining source.reader };

    ghost faults = { λ source. source.faults };

    fn take(&mut self, buf: &mut [u8]) -> Result<usize, Failed> {
        let answer = self.reader.read(buf).map_err(|_| Failed);
        self.faults += u64::from(answer.is_err());
        answer
    }
}

/// A sink over a writer, which it flushes after each write. It tells what was written where the writer
/// does: a standard stream doesn't.
#[derive(Drop)]
pub struct StdSink<W: Write> {
    writer: W,
    faults: u64,
    /// How many of the bytes that the writer took last couldn't be flushed. Where there are some, the
    /// sink takes no more.
    unflushed: usize,
}

impl<W: Write> StdSink<W> {
    /// A sink to the writer, without a fault so far.
    pub fn new(writer: W) -> StdSink<W>
        ensures written { ⟦<StdSink<W> as Sink>⟧.written result ≡ W.contents writer }
        ensures faults { ⟦<StdSink<W> as Sink>⟧.faults result ≡ 0 }
    {
        StdSink {
            writer,
            faults: 0,
            unflushed: 0,
        }
    }
}

/// Each error of the writer is a fault, and so is a write of nothing, where the piece isn't empty.
impl<W: Write> Sink for StdSink<W> {
    ghost written = { λ sink. flushed_bytes sink.unflushed (W.contents sink.writer) };

    ghost faults = { λ sink. sink.faults };

    fn give(&mut self, piece: &[u8]) -> Result<usize, Failed> {
        if self.unflushed == 0
            && let Ok(count) = self.writer.write(piece)
            && (count > 0 || piece.is_empty())
        {
            if self.writer.flush().is_ok() {
                return Ok(count);
            }
            self.unflushed = count;
        }
        self.faults += 1;
        Err(Failed)
    }
}
