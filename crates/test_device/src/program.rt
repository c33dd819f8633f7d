//! The program by words and bytes in memory.

ghost use Rattle.std.specs.Prelude.{◌≤◌};

use crate::threaded::watch::{Watch, WatchedSink};
use command_words::Words;
use io_edge::{MemSink, MemSource};
use std::alloc::Global;
use std::io;
use std::sync::Wait;
use std::thread::Threads;
use test_cases::{Case, no_memory};
use thread_program::ttm_top;

/// The room for the output of a case, in bytes.
const ROOM: usize = 1 << 22;

/// The outcome of a run.
#[derive(Drop)]
pub struct Outcome {
    pub status: u8,
    pub output: MemSink,
}

fn words_of(alloc: Global, case: &Case) -> io::Result<Words> {
    let mut words = Words::new(alloc);
    for word in &case.words {
        words.push(word.as_str()).map_err(no_memory)?;
    }
    Ok(words)
}

/// Makes the source of a case's text. A read moves at most `chunk` bytes.
fn source_of(case: &Case, chunk: usize) -> io::Result<MemSource>
    requires { 1 ≤ chunk }
{
    let text = case.text.clone()?;
    Ok(MemSource::new(text, chunk, case.read_fails.clone()?))
}

/// Makes the sink of a case's output. A write moves at most `chunk` bytes.
fn sink_of(alloc: Global, case: &Case, chunk: usize) -> io::Result<MemSink>
    requires { 1 ≤ chunk }
{
    let fails = case.write_fails.clone()?;
    MemSink::new(alloc, ROOM, chunk, fails).map_err(no_memory)
}

/// Runs a case. A read or a write moves at most `chunk` bytes, and at least one.
pub fn outcome_of(
    rt: &(impl Threads + Wait + Sync + Print),
    alloc: Global,
    case: &Case,
    chunk: usize,
    watch: &Watch,
) -> io::Result<Outcome> {
    let chunk = chunk.max(1);
    let sink = sink_of(alloc, case, chunk)?;
    let mut source = source_of(case, chunk)?;
    let words = words_of(alloc, case)?;
    let mut sink = WatchedSink { sink, watch };
    let status = ttm_top(rt, alloc, &words, &mut source, &mut sink, watch);
    let WatchedSink {
        sink: output,
        watch: _,
    } = sink;
    Ok(Outcome {
        status: status.code(),
        output,
    })
}

/// Prints an outcome. A last line without a line feed gets one: the number of bytes tells.
pub fn print_outcome(rt: &impl Print, name: &str, outcome: &Outcome) -> io::Result<()> {
    let status = outcome.status;
    let output = outcome.output.bytes();
    let count = output.len();
    let text = str::from_utf8(output).unwrap_or("no text");
    let is_whole = text.is_empty() || text.ends_with('\n');
    let end = if is_whole { "" } else { "\n" };
    print!(rt; "case {name}, status {status}, {count} bytes\n{text}{end}")
}

/// Returns whether an outcome is the same as that of the run before it.
fn is_known(before: &Option<Outcome>, outcome: &Outcome) -> bool {
    match before {
        Some(before) => {
            before.status == outcome.status && before.output.bytes() == outcome.output.bytes()
        }
        None => false,
    }
}

/// Prints an outcome, unless it is the same as the one `before`, and what the watch saw.
fn print_new(
    rt: &impl Print,
    case: &Case,
    before: &Option<Outcome>,
    outcome: &Outcome,
    watch: &Watch,
) -> io::Result<()> {
    if !is_known(before, outcome) {
        print_outcome(rt, case.name.as_str(), outcome)?;
    }
    watch.print(rt, case)
}

/// Runs a case with `chunk` bytes that a read or a write moves at most. Prints the outcome, unless it is the same as the one `before`, in
/// whose place it is kept.
fn run_by(
    rt: &(impl Threads + Wait + Sync + Print),
    alloc: Global,
    case: &Case,
    chunk: usize,
    before: &mut Option<Outcome>,
) -> io::Result<()> {
    let watch = Watch::new(case.watched);
    let outcome = outcome_of(rt, alloc, case, chunk, &watch)?;
    let printed = print_new(rt, case, before, &outcome, &watch);
    *before = Some(outcome);
    printed
}

/// Runs a case with each number of bytes that a read or a write moves at most. Prints the first outcome, and any that isn't the same as the
/// one before.
pub fn run(
    rt: &(impl Threads + Wait + Sync + Print),
    alloc: Global,
    case: &Case,
) -> io::Result<()> {
    let mut before = None;
    for chunk in &case.chunks {
        run_by(rt, alloc, case, *chunk as usize, &mut before)?;
    }
    Ok(())
}
