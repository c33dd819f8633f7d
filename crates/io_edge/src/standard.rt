ghost use Rattle.std.specs.Prelude.{◌≡◌, ◌<◌, ◌≤◌, None, length, take, IfOk, IfSome};
ghost use Rattle.std.specs.Io.KnownBytes.{Appends, ReadConsumes};
ghost use Rattle.io_edge.specs.Faults.{faults_after};
ghost use Rattle.io_edge.specs.Standard.{sink_faults, sink_writer, source_faults, source_reader};

use crate::{Failed, Sink, Source};
use std::io::{Read, Write};

/// A source that reads standard input, or another reader. It doesn't tell its bytes.
#[derive(Drop)]
pub struct StdSource<R> {
    reader: R,
    faults: u64,
}

impl<R> StdSource<R> {
    /// Returns a source that has not failed so far.
    pub fn new(reader: R) -> StdSource<R>
        ensures reader { source_reader result ≡ reader }
        ensures faults { source_faults result ≡ 0 }
    {
        StdSource { reader, faults: 0 }
    }
}

impl<R: Read> Source for StdSource<R> {
    ghost left = { λ _. None };

    ghost faults = { source_faults };

    fn read(&mut self, buffer: &mut [u8]) -> Result<usize, Failed>
        requires { 0 < length buffer.old }
        ensures bound { IfOk result (λ n. n ≤ length buffer.new) }
        ensures faults { source_faults self.new ≡ faults_after result (source_faults self.old) }
        ensures reader { ReadConsumes (R.remaining (source_reader self.old)) (R.remaining (source_reader self.new)) result buffer.new }
    {
        match self.reader.read(buffer) {
            Ok(n) => Ok(n),
            Err(_) => {
                self.faults = self.faults.saturating_add(1);
                Err(Failed)
            }
        }
    }
}

/// A sink that writes to standard output, or to another writer. It doesn't tell its bytes. It flushes each piece, and a
/// flush that fails is a write that fails. So is a write that takes nothing.
#[derive(Drop)]
pub struct StdSink<W> {
    writer: W,
    faults: u64,
}

impl<W> StdSink<W> {
    /// Returns a sink that has not failed so far.
    pub fn new(writer: W) -> StdSink<W>
        ensures writer { sink_writer result ≡ writer }
        ensures faults { sink_faults result ≡ 0 }
    {
        StdSink { writer, faults: 0 }
    }
}

/// Writes the first bytes of the piece, flushes them, and returns how many they are. None means that the write or the flush
/// failed, or that the write took nothing.
fn write_flushed<W: Write>(writer: &mut W, piece: &[u8]) -> Option<usize>
    ensures some { IfSome result (λ n. 1 ≤ n) }
    ensures bound { IfSome result (λ n. n ≤ length piece.now) }
    ensures writer { IfSome result (λ n. Appends (W.contents writer.old) (W.contents writer.new) (take n piece.now)) }
{
    let n = writer.write(piece).ok()?;
    writer.flush().ok()?;
    if n == 0 { None } else { Some(n) }
}

impl<W: Write> Sink for StdSink<W> {
    ghost written = { λ _. None };

    ghost faults = { sink_faults };

    ghost broken = { λ _. 0 };

    fn write(&mut self, piece: &[u8]) -> Result<usize, Failed>
        requires { 0 < length piece.now }
        ensures some { IfOk result (λ n. 1 ≤ n) }
        ensures bound { IfOk result (λ n. n ≤ length piece.now) }
        ensures faults { sink_faults self.new ≡ faults_after result (sink_faults self.old) }
        ensures writer { IfOk result (λ n. Appends (W.contents (sink_writer self.old)) (W.contents (sink_writer self.new)) (take n piece.now)) }
    {
        match write_flushed(&mut self.writer, piece) {
            Some(n) => Ok(n),
            None => {
                self.faults = self.faults.saturating_add(1);
                Err(Failed)
            }
        }
    }
}
