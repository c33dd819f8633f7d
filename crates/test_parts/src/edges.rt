use crate::wanted::{are_bytes, ensure};
use io_edge::{
    Failed, MemSink, MemSource, ReadFault, Sink, Source, StdSink, StdSource, read_all, write_all,
};
use std::alloc::Global;
use std::io::{Error, ErrorKind, Read, Write};
use std::process::Abort;

const TEXT: &[u8] = b"ttm 1\nend\n";

/// Makes a source of the text, whose listed reads fail.
fn source(rt: &impl Abort, alloc: Global, chunk: usize, fails: &[u64]) -> MemSource {
    let bytes = Vec::from_slice(alloc, TEXT).expect(rt, "bytes");
    let fails = Vec::from_slice(alloc, fails).expect(rt, "numbers");
    MemSource::new(bytes, chunk.max(1), fails)
}

/// Makes a sink of `room` bytes, whose listed writes fail.
fn sink(rt: &impl Abort, alloc: Global, room: usize, chunk: usize, fails: &[u64]) -> MemSink {
    let fails = Vec::from_slice(alloc, fails).expect(rt, "numbers");
    MemSink::new(alloc, room, chunk.max(1), fails).expect(rt, "a sink")
}

/// What a reading ends with: bytes, or a fault.
type ReadBytes = Result<&'static [u8], ReadFault>;

/// Asserts what a reading of the source ends with, of no more bytes than the limit.
fn assert_read<S: Source>(
    rt: &impl Abort,
    alloc: Global,
    source: &mut S,
    limit: u32,
    want: ReadBytes,
) {
    match read_all(alloc, source, limit as usize) {
        Ok(bytes) => ensure(rt, want == Ok(bytes.as_slice())),
        Err(fault) => ensure(rt, want == Err(fault)),
    }
}

/// The number of bytes that a read moves at most, the reads that fail, the limit in bytes, what the reading ends with, and which bytes
/// another one then gives, if it is to be tried.
type Reading = (usize, &'static [u64], u32, ReadBytes, Option<&'static [u8]>);

const READINGS: &[Reading] = &[
    // ten bytes, four at a time, take three reads, and a fourth finds the end
    (4, &[1], 10, Err(ReadFault::Failed), None),
    (4, &[2], 10, Err(ReadFault::Failed), None),
    (4, &[3], 10, Err(ReadFault::Failed), None),
    (4, &[4], 10, Err(ReadFault::Failed), None),
    (4, &[5], 10, Ok(TEXT), None),
    // however many bytes a read moves
    (1, &[], 5000, Ok(TEXT), Some(b"")),
    (3, &[], 5000, Ok(TEXT), Some(b"")),
    (10, &[], 5000, Ok(TEXT), Some(b"")),
    (5000, &[], 5000, Ok(TEXT), Some(b"")),
    // the text is longer than the limit, or as long
    (1, &[], 9, Err(ReadFault::TooLong), Some(b"")),
    (1, &[], 0, Err(ReadFault::TooLong), Some(b"tm 1\nend\n")),
    (1, &[], 10, Ok(TEXT), Some(b"")),
];

/// Asserts that the reading ends as the row tells.
fn assert_reading(rt: &impl Abort, alloc: Global, row: &Reading) {
    let (chunk, fails, limit, want, left) = *row;
    let mut source = source(rt, alloc, chunk, fails);
    assert_read(rt, alloc, &mut source, limit, want);
    if let Some(left) = left {
        assert_read(rt, alloc, &mut source, 10, Ok(left));
    }
}

#[test]
fn sources_are_read_whole_or_fault(rt: HostRuntime) {
    let alloc = rt.alloc();
    let rt = &rt;
    for row in READINGS {
        assert_reading(rt, alloc, row);
    }
}

/// The room of a sink in bytes, the number of bytes that a write moves at most, the writes that fail, how often the text is written whole,
/// and what has gone out once it is written again: that breaks off at a listed write, or for lack of room.
type Writing = (usize, usize, &'static [u64], u32, &'static [u8]);

const TWICE: &[u8] = b"ttm 1\nend\nttm 1\nend\n";

const WRITINGS: &[Writing] = &[
    (10, 1, &[1], 0, b""),
    (10, 1, &[4], 0, b"ttm"),
    (10, 4, &[3], 0, b"ttm 1\nen"),
    (7, 4, &[9], 0, b"ttm 1\ne"),
    (0, 4, &[9], 0, b""),
    // however many bytes a write moves
    (20, 1, &[], 2, TWICE),
    (20, 3, &[], 2, TWICE),
    (20, 10, &[], 2, TWICE),
    (20, 5000, &[], 2, TWICE),
];

/// Asserts that the writing ends as the row tells.
fn assert_writing(rt: &impl Abort, alloc: Global, row: &Writing) {
    let (room, chunk, fails, times, want) = *row;
    let mut sink = sink(rt, alloc, room, chunk, fails);
    for time in 0..times.saturating_add(1) {
        ensure(rt, write_all(&mut sink, TEXT).is_ok() == (time < times));
    }
    are_bytes(rt, sink.bytes(), want);
}

#[test]
fn sinks_take_all_or_break_off(rt: HostRuntime) {
    let alloc = rt.alloc();
    let rt = &rt;
    for row in WRITINGS {
        assert_writing(rt, alloc, row);
    }
}

/// A reader and writer whose calls from a number on fail, and that takes nothing at all where it is `full`.
#[derive(Drop)]
struct Flaky {
    calls: u32,
    good: u32,
    full: bool,
}

impl Flaky {
    /// Counts a call, and returns whether it fails.
    fn fails(&mut self) -> bool {
        self.calls = self.calls.saturating_add(1);
        self.calls > self.good
    }
}

impl Read for Flaky {
    fn read(&mut self, buffer: &mut [u8]) -> std::io::Result<usize> {
        if self.fails() {
            return Err(Error::from(ErrorKind::Other));
        }
        match buffer {
            [byte, ..] => {
                *byte = b'x';
                Ok(1)
            }
            [] => Ok(0),
        }
    }
}

impl Write for Flaky {
    fn write(&mut self, piece: &[u8]) -> std::io::Result<usize> {
        if self.fails() {
            return Err(Error::from(ErrorKind::Other));
        }
        Ok(if self.full { 0 } else { piece.len() })
    }

    fn flush(&mut self) -> std::io::Result<()> {
        if self.fails() {
            return Err(Error::from(ErrorKind::Other));
        }
        Ok(())
    }
}

#[test]
fn faults_of_a_reader(rt: HostRuntime) {
    let mut input = StdSource::new(Flaky {
        calls: 0,
        good: 3,
        full: false,
    });
    assert_read(&rt, rt.alloc(), &mut input, 9, Err(ReadFault::Failed));
    let mut text = StdSource::new(TEXT);
    assert_read(&rt, rt.alloc(), &mut text, 10, Ok(TEXT));
}

/// The number of calls that go well, whether nothing is taken, and what comes of a write. Each piece is written and flushed: two calls.
type Written = (u32, bool, Result<usize, Failed>);

const WRITES: &[Written] = &[
    (2, false, Ok(4)),
    (1, false, Err(Failed)),
    (0, false, Err(Failed)),
    (2, true, Err(Failed)),
];

/// Asserts that a write of four bytes ends as the row tells.
fn assert_write(rt: &impl Abort, row: &Written) {
    let (good, full, want) = *row;
    let mut output = StdSink::new(Flaky {
        calls: 0,
        good,
        full,
    });
    ensure(rt, output.write(b"text") == want);
}

#[test]
fn faults_of_a_writer(rt: HostRuntime) {
    for row in WRITES {
        assert_write(&rt, row);
    }
}
