ghost use Rattle.std.specs.Prelude.{◌≡◌, IfOk, IsTrue, OnErr};
ghost use Rattle.journal_model.specs.scripts.ScriptRules.{is_script};
ghost use Rattle.io_edge.specs.Written.{Writes};
ghost use Rattle.command_words.specs.Forms.{form_of};
ghost use Rattle.report_text.specs.WriteFault.{faults_after_writing};
ghost use Rattle.program_edges.specs.Edges.{Edge, IsUntouched};
ghost use Rattle.simulator.specs.Ends.{Comes, ComesChecked, ComesSim, ComesRun, Ends};
ghost use Rattle.simulator.specs.Outcomes.{text_of};

use crate::input::{Input, read_input};
use crate::outcome::Outcome;
use crate::tell::write_outcome;
use check_program::read_finding;
use command_words::{Form, Words, read_words};
use io_edge::{Sink, Source};
use journal_model::Script;
use program_edges::{Status, status_after};
use report_text::WriteFault;
use sim_drive::{Device, drive, turn_limit};
use std::alloc::Global;
use std::mem::ManuallyDrop;
use ttm_base::NoMemory;

/// Runs `script` for `turns` turns, or up to its limit where none are given.
fn run_script(alloc: Global, turns: Option<u64>, script: Script) -> Result<Outcome, NoMemory>
    requires fits { IsTrue (is_script script) }
    ensures ran { IfOk result (ComesRun script turns) }
{
    let mut device = Device::new(alloc, script)?;
    let allowed = turns.unwrap_or(turn_limit(device.script()));
    let turns = drive(alloc, &mut device, allowed)?;
    let _legal = device.journal();
    Ok(Outcome::Ran { device, turns })
}

/// Reads a script from `source`, and runs it.
fn simulate<S: Source>(
    alloc: Global,
    turns: Option<u64>,
    source: &mut S,
) -> Result<Outcome, NoMemory>
    ensures comes { IfOk result (ComesSim turns (record { before = S.left source.old; after = S.left source.new; faults_before = S.faults source.old; faults_after = S.faults source.new })) }
    ensures faults { OnErr result (S.faults source.new ≡ S.faults source.old) }
{
    match read_input(alloc, source)? {
        Input::Read(script) => run_script(alloc, turns, script),
        Input::Bad { line, rule } => Ok(Outcome::BadScript { line, rule }),
        Input::Failed => Ok(Outcome::ReadFault),
    }
}

/// Reads a script and the report after it from `source`, and judges the report.
fn judge<S: Source>(alloc: Global, source: &mut S) -> Result<Outcome, NoMemory>
    ensures comes { IfOk result (ComesChecked (record { before = S.left source.old; after = S.left source.new; faults_before = S.faults source.old; faults_after = S.faults source.new })) }
    ensures faults { OnErr result (S.faults source.new ≡ S.faults source.old) }
{
    let finding = read_finding(alloc, source)?;
    Ok(Outcome::Judged(finding))
}

/// Returns the outcome of what the command line asks, with the bytes of `source`.
fn outcome_of<S: Source>(alloc: Global, words: &Words, source: &mut S) -> Result<Outcome, NoMemory>
    ensures comes { IfOk result (Comes (form_of words.now) (record { before = S.left source.old; after = S.left source.new; faults_before = S.faults source.old; faults_after = S.faults source.new })) }
    ensures faults { OnErr result (S.faults source.new ≡ S.faults source.old) }
{
    match read_words(words) {
        None => Ok(Outcome::Usage),
        Some(Form::Help) => Ok(Outcome::Help),
        Some(Form::Version) => Ok(Outcome::Version),
        Some(Form::Sim(turns)) => simulate(alloc, turns, source),
        Some(Form::Check) => judge(alloc, source),
    }
}

/// The outcome of a command line and a source, and how the writing of its text ended.
#[derive(Drop)]
pub struct Told {
    pub outcome: Outcome,
    pub written: Result<(), WriteFault>,
}

/// Finds the outcome of the command line and the source, and then writes its text to `sink`.
///
/// # Errors
///
/// Lack of memory for the outcome, even in the middle of a run; nothing is written.
pub fn tell_outcome<S: Source, K: Sink>(
    alloc: Global,
    words: &Words,
    source: &mut S,
    sink: &mut K,
) -> Result<Told, NoMemory>
    ensures comes { IfOk result (λ told. Comes (form_of words.now) (record { before = S.left source.old; after = S.left source.new; faults_before = S.faults source.old; faults_after = S.faults source.new }) told.outcome) }
    ensures text { IfOk result (λ told. Writes told.written (K.written sink.old) (K.written sink.new) (text_of told.outcome)) }
    ensures faults { IfOk result (λ told. K.faults sink.new ≡ faults_after_writing told.written (K.faults sink.old)) }
    ensures source { OnErr result (S.faults source.new ≡ S.faults source.old) }
    ensures nothing { OnErr result (IsUntouched (record { before = K.written sink.old; after = K.written sink.new; faults_before = K.faults sink.old; faults_after = K.faults sink.new })) }
{
    let outcome = outcome_of(alloc, words, source)?;
    let written = write_outcome(alloc, &outcome, sink);
    Ok(Told { outcome, written })
}

/// Does what the command line asks: runs the script that `source` gives and writes the report of what it did to `sink`, or judges the report that
/// follows the script and writes the verdict. Returns the exit status. The outcome isn't dropped: the program ends, and its memory goes back
/// as a whole.
pub fn sim_top<S: Source, K: Sink>(
    alloc: Global,
    words: &Words,
    source: &mut S,
    sink: &mut K,
) -> Status
    ensures { Ends (form_of words.now)
        (record { before = S.left source.old; after = S.left source.new; faults_before = S.faults source.old; faults_after = S.faults source.new })
        (record { before = K.written sink.old; after = K.written sink.new; faults_before = K.faults sink.old; faults_after = K.faults sink.new }) result }
{
    match tell_outcome(alloc, words, source, sink) {
        Ok(Told { outcome, written }) => {
            let status = outcome.status();
            let _kept = ManuallyDrop::new(outcome);
            status_after(status, written)
        }
        Err(NoMemory) => Status::NoMemory,
    }
}
