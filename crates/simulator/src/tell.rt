ghost use Rattle.std.specs.Prelude.{◌≡◌, ◌++◌, ◌∷◌, [], IfOk, codes, decimal, string_bytes};
ghost use Rattle.io_edge.specs.Written.{Writes};
ghost use Rattle.journal_model.specs.scripts.Words.{line as line_of};
ghost use Rattle.journal_model.specs.reports.ReportText.{report};
ghost use Rattle.report_text.specs.WriteFault.{faults_after_writing};
ghost use Rattle.simulator.specs.Outcomes.{help_text, run_text, text_of};

use crate::outcome::Outcome;
use check_program::write_finding;
use io_edge::Sink;
use program_edges::{write_bad_script, write_text};
use report_text::{WriteFault, write_report};
use sim_drive::Device;
use std::alloc::Global;
use ttm_base::NoMemory;

const HELP: &[u8] = b"Runs a script of a graphics memory manager (TTM), and reports each step.

ttm sim              reads a script from standard input, and writes its report:
                     ttm sim < examples/one_page_eviction.ttm
ttm sim --turns N    the same, in at most N turns: ttm sim --turns 100 < examples/one_page_eviction.ttm
ttm run              runs the script on threads, one for each actor: ttm run < examples/eviction_to_tt.ttm
ttm gen N            runs a script drawn from the number N on threads, and counts what came of it: ttm gen 1
ttm check            reads a script and a report behind it, and tells whether the report is right:
                     cat examples/one_page_eviction.ttm examples/one_page_eviction.report | ttm check
ttm --help           this text
ttm --version        the version

The exit status is 0 (done), 2 (unknown words), 3 (the input is no script), 4 (a read failed),
5 (a write failed), 6 (no memory), 7 (not over after N turns) or 8 (the report isn't right).
Scripts and reports are described in docs/SPECIFICATION.md.
";

fn unfinished_line(alloc: Global, turns: u64) -> Result<String, NoMemory>
    ensures { IfOk result (λ text. string_bytes text ≡ line_of (codes "unfinished" ∷ decimal turns ∷ [])) }
{
    Ok(format!(in alloc; "unfinished {turns}\n")?)
}

fn write_unfinished<K: Sink>(alloc: Global, turns: u64, sink: &mut K) -> Result<(), WriteFault>
    ensures text { Writes result (K.written sink.old) (K.written sink.new) (line_of (codes "unfinished" ∷ decimal turns ∷ [])) }
    ensures faults { K.faults sink.new ≡ faults_after_writing result (K.faults sink.old) }
{
    let text = unfinished_line(alloc, turns)?;
    write_text(text.as_bytes(), sink)
}

/// Writes the report of `device`.
fn write_device<K: Sink>(alloc: Global, device: &Device, sink: &mut K) -> Result<(), WriteFault>
    ensures text { Writes result (K.written sink.old) (K.written sink.new) (report device.now.script device.now.journal) }
    ensures faults { K.faults sink.new ≡ faults_after_writing result (K.faults sink.old) }
{
    let accounts = device.accounts();
    let _held = device.rooms().parts();
    write_report(alloc, device.script(), device.journal(), &accounts, sink)
}

fn write_unfinished_run<K: Sink>(
    alloc: Global,
    device: &Device,
    turns: u64,
    sink: &mut K,
) -> Result<(), WriteFault>
    ensures text { Writes result (K.written sink.old) (K.written sink.new) (line_of (codes "unfinished" ∷ decimal turns ∷ []) ++ report device.now.script device.now.journal) }
    ensures faults { K.faults sink.new ≡ faults_after_writing result (K.faults sink.old) }
{
    write_unfinished(alloc, turns, sink)?;
    write_device(alloc, device, sink)
}

fn write_run<K: Sink>(
    alloc: Global,
    device: &Device,
    turns: u64,
    sink: &mut K,
) -> Result<(), WriteFault>
    ensures text { Writes result (K.written sink.old) (K.written sink.new) (run_text device.now turns) }
    ensures faults { K.faults sink.new ≡ faults_after_writing result (K.faults sink.old) }
{
    if device.over() {
        write_device(alloc, device, sink)
    } else {
        write_unfinished_run(alloc, device, turns, sink)
    }
}

/// Writes the text of `outcome` to `sink`.
pub fn write_outcome<K: Sink>(
    alloc: Global,
    outcome: &Outcome,
    sink: &mut K,
) -> Result<(), WriteFault>
    ensures text { Writes result (K.written sink.old) (K.written sink.new) (text_of outcome.now) }
    ensures faults { K.faults sink.new ≡ faults_after_writing result (K.faults sink.old) }
{
    match outcome {
        Outcome::Usage => write_text(b"usage\n", sink),
        Outcome::Help => write_text(HELP, sink),
        Outcome::Version => write_text(b"ttm 0.1.0\n", sink),
        Outcome::ReadFault => write_text(b"read fault\n", sink),
        Outcome::BadScript { line, rule } => write_bad_script(alloc, *line, *rule, sink),
        Outcome::Ran { device, turns } => write_run(alloc, device, *turns, sink),
        Outcome::Judged(finding) => write_finding(alloc, *finding, sink),
    }
}
