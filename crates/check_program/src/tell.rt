//! The verdict, as it is written.

ghost use Rattle.std.specs.Prelude.{◌≡◌, IfOk, string_bytes};
ghost use Rattle.io_edge.specs.Written.{Writes};
ghost use Rattle.report_text.specs.WriteFault.{faults_after_writing};
ghost use Rattle.check_program.specs.Finds.{rejected_text, text_of};

use crate::finding::Finding;
use io_edge::Sink;
use program_edges::{write_bad_script, write_text};
use report_text::WriteFault;
use std::alloc::Global;
use ttm_base::NoMemory;

fn rejected_line(alloc: Global, entry: u64, rule: u32) -> Result<String, NoMemory>
    ensures { IfOk result (λ text. string_bytes text ≡ rejected_text entry rule) }
{
    Ok(format!(in alloc; "rejected: entry {entry}, rule {rule}\n")?)
}

fn write_rejected<K: Sink>(
    alloc: Global,
    entry: u64,
    rule: u32,
    sink: &mut K,
) -> Result<(), WriteFault>
    ensures text { Writes result (K.written sink.old) (K.written sink.new) (rejected_text entry rule) }
    ensures faults { K.faults sink.new ≡ faults_after_writing result (K.faults sink.old) }
{
    let text = rejected_line(alloc, entry, rule)?;
    write_text(text.as_bytes(), sink)
}

/// Writes the line that is due for `finding`.
pub fn write_finding<K: Sink>(
    alloc: Global,
    finding: Finding,
    sink: &mut K,
) -> Result<(), WriteFault>
    ensures text { Writes result (K.written sink.old) (K.written sink.new) (text_of finding) }
    ensures faults { K.faults sink.new ≡ faults_after_writing result (K.faults sink.old) }
{
    match finding {
        Finding::ReadFault => write_text(b"read fault\n", sink),
        Finding::BadScript { line, rule } => write_bad_script(alloc, line, rule, sink),
        Finding::Accepted => write_text(b"valid\n", sink),
        Finding::Rejected { entry, rule } => write_rejected(alloc, entry, rule.number(), sink),
    }
}
