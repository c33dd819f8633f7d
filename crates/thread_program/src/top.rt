ghost use Rattle.std.specs.Prelude.{◌≡◌, IfOk, OnErr};
ghost use Rattle.io_edge.specs.Written.{Writes};
ghost use Rattle.command_words.specs.Forms.{form_of};
ghost use Rattle.report_text.specs.WriteFault.{faults_after_writing};
ghost use Rattle.program_edges.specs.Edges.{Edge, IsUntouched};
ghost use Rattle.simulator.specs.Ends.{EndsWith};
ghost use Rattle.simulator.specs.Outcomes.{text_of};
ghost use Rattle.thread_program.specs.Counted.{EndsCounted, HasRunLoad, counts_text, load_counts};
ghost use Rattle.thread_program.specs.Launches.{launch_of};
ghost use Rattle.thread_program.specs.Threaded.{ComesThreaded, Launched};

use crate::counts::write_counts;
use crate::crowd::run_threads;
use crate::drawn::read_drawn;
use crate::launch::{Launch, read_launch};
use command_words::Words;
use io_edge::{Sink, Source};
use program_edges::{Status, status_after};
use report_text::WriteFault;
use simulator::{Device, Input, Outcome, Told, read_input, sim_top, write_outcome};
use std::alloc::Global;
use std::sync::Wait;
use std::thread::Threads;
use ttm_base::NoMemory;
use worker_pool::Gate;

/// Reads a script from `source`, and runs it on threads.
fn outcome_of<R: Threads + Wait + Sync, S: Source, G: Gate + Sync>(
    rt: &R,
    alloc: Global,
    source: &mut S,
    gate: &G,
) -> Result<Outcome, NoMemory>
    ensures comes { IfOk result (ComesThreaded (record { before = S.left source.old; after = S.left source.new; faults_before = S.faults source.old; faults_after = S.faults source.new })) }
    ensures faults { OnErr result (S.faults source.new ≡ S.faults source.old) }
{
    match read_input(alloc, source)? {
        Input::Read(script) => {
            let device = run_threads(rt, alloc, script, gate)?;
            Ok(Outcome::Ran { device, turns: 0 })
        }
        Input::Bad { line, rule } => Ok(Outcome::BadScript { line, rule }),
        Input::Failed => Ok(Outcome::ReadFault),
    }
}

/// Runs the script that `source` gives on threads, and then writes the text of its outcome to `sink`.
///
/// # Errors
///
/// `NoMemory` if memory runs out before the run has ended; nothing is written then.
pub fn tell_run<R: Threads + Wait + Sync, S: Source, K: Sink, G: Gate + Sync>(
    rt: &R,
    alloc: Global,
    source: &mut S,
    sink: &mut K,
    gate: &G,
) -> Result<Told, NoMemory>
    ensures comes { IfOk result (λ told. ComesThreaded (record { before = S.left source.old; after = S.left source.new; faults_before = S.faults source.old; faults_after = S.faults source.new }) told.outcome) }
    ensures text { IfOk result (λ told. Writes told.written (K.written sink.old) (K.written sink.new) (text_of told.outcome)) }
    ensures faults { IfOk result (λ told. K.faults sink.new ≡ faults_after_writing told.written (K.faults sink.old)) }
    ensures source { OnErr result (S.faults source.new ≡ S.faults source.old) }
    ensures nothing { OnErr result (IsUntouched (record { before = K.written sink.old; after = K.written sink.new; faults_before = K.faults sink.old; faults_after = K.faults sink.new })) }
{
    let outcome = outcome_of(rt, alloc, source, gate)?;
    let written = write_outcome(alloc, &outcome, sink);
    Ok(Told { outcome, written })
}

/// Runs the script that `source` gives on threads, and returns the exit status.
fn run_top<R: Threads + Wait + Sync, S: Source, K: Sink, G: Gate + Sync>(
    rt: &R,
    alloc: Global,
    source: &mut S,
    sink: &mut K,
    gate: &G,
) -> Status
    ensures { EndsWith (ComesThreaded (record { before = S.left source.old; after = S.left source.new; faults_before = S.faults source.old; faults_after = S.faults source.new }))
        (record { before = S.left source.old; after = S.left source.new; faults_before = S.faults source.old; faults_after = S.faults source.new })
        (record { before = K.written sink.old; after = K.written sink.new; faults_before = K.faults sink.old; faults_after = K.faults sink.new }) result }
{
    match tell_run(rt, alloc, source, sink, gate) {
        Ok(Told { outcome, written }) => status_after(outcome.status(), written),
        Err(NoMemory) => Status::NoMemory,
    }
}

/// Draws a script from `number`, and runs it on threads.
fn run_drawn<R: Threads + Wait + Sync, G: Gate + Sync>(
    rt: &R,
    alloc: Global,
    number: u64,
    gate: &G,
) -> Result<Device, NoMemory>
    ensures { IfOk result (HasRunLoad number) }
{
    let script = read_drawn(alloc, number)?;
    run_threads(rt, alloc, script, gate)
}

/// A device that has run a drawn script, and how the writing of its counts ended.
#[derive(Drop)]
pub struct ToldCounts {
    pub device: Device,
    pub written: Result<(), WriteFault>,
}

/// Draws a script from `number`, runs it on threads, and then writes the counts of the run to `sink`.
///
/// # Errors
///
/// `NoMemory` if memory runs out before the run has ended; nothing is written then.
pub fn tell_counts<R: Threads + Wait + Sync, K: Sink, G: Gate + Sync>(
    rt: &R,
    alloc: Global,
    number: u64,
    sink: &mut K,
    gate: &G,
) -> Result<ToldCounts, NoMemory>
    ensures ran { IfOk result (λ told. HasRunLoad number told.device) }
    ensures text { IfOk result (λ told. Writes told.written (K.written sink.old) (K.written sink.new) (counts_text number load_counts)) }
    ensures faults { IfOk result (λ told. K.faults sink.new ≡ faults_after_writing told.written (K.faults sink.old)) }
    ensures nothing { OnErr result (IsUntouched (record { before = K.written sink.old; after = K.written sink.new; faults_before = K.faults sink.old; faults_after = K.faults sink.new })) }
{
    let device = run_drawn(rt, alloc, number, gate)?;
    let written = write_counts(alloc, number, &device, sink);
    Ok(ToldCounts { device, written })
}

/// Runs the script that is drawn from `number` on threads, and returns the exit status.
fn gen_top<R: Threads + Wait + Sync, K: Sink, G: Gate + Sync>(
    rt: &R,
    alloc: Global,
    number: u64,
    sink: &mut K,
    gate: &G,
) -> Status
    ensures { EndsCounted number
        (record { before = K.written sink.old; after = K.written sink.new; faults_before = K.faults sink.old; faults_after = K.faults sink.new }) result }
{
    match tell_counts(rt, alloc, number, sink, gate) {
        Ok(
            ToldCounts {
                device: _device,
                written,
            },
        ) => status_after(Status::Done, written),
        Err(NoMemory) => Status::NoMemory,
    }
}

/// Does what the command line asks, on threads where it asks for them, and returns the exit status.
pub fn ttm_top<R: Threads + Wait + Sync, S: Source, K: Sink, G: Gate + Sync>(
    rt: &R,
    alloc: Global,
    words: &Words,
    source: &mut S,
    sink: &mut K,
    gate: &G,
) -> Status
    ensures { Launched (launch_of words.now) (form_of words.now)
        (record { before = S.left source.old; after = S.left source.new; faults_before = S.faults source.old; faults_after = S.faults source.new })
        (record { before = K.written sink.old; after = K.written sink.new; faults_before = K.faults sink.old; faults_after = K.faults sink.new }) result }
{
    match read_launch(words) {
        Some(Launch::Run) => run_top(rt, alloc, source, sink, gate),
        Some(Launch::Gen(number)) => gen_top(rt, alloc, number, sink, gate),
        None => sim_top(alloc, words, source, sink),
    }
}
