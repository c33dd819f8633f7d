ghost use Rattle.std.specs.Prelude.{◌≡◌, IfOk, string_bytes};
ghost use Rattle.io_edge.specs.Written.{Writes};
ghost use Rattle.report_text.specs.WriteFault.{faults_after_writing};
ghost use Rattle.program_edges.specs.Texts.{bad_script_text};

use io_edge::{Sink, write_all};
use report_text::WriteFault;
use std::alloc::Global;
use ttm_base::NoMemory;

fn bad_script_line(alloc: Global, line: u32, rule: u32) -> Result<String, NoMemory>
    ensures { IfOk result (λ text. string_bytes text ≡ bad_script_text line rule) }
{
    Ok(format!(in alloc; "bad script: line {line}, rule {rule}\n")?)
}

/// Writes `text` as one piece.
pub fn write_text<K: Sink>(text: &[u8], sink: &mut K) -> Result<(), WriteFault>
    ensures text { Writes result (K.written sink.old) (K.written sink.new) text.now }
    ensures faults { K.faults sink.new ≡ faults_after_writing result (K.faults sink.old) }
{
    write_all(sink, text)?;
    Ok(())
}

/// Writes the line that names the first broken line of a script and the rule.
pub fn write_bad_script<K: Sink>(
    alloc: Global,
    line: u32,
    rule: u32,
    sink: &mut K,
) -> Result<(), WriteFault>
    ensures text { Writes result (K.written sink.old) (K.written sink.new) (bad_script_text line rule) }
    ensures faults { K.faults sink.new ≡ faults_after_writing result (K.faults sink.old) }
{
    let text = bad_script_line(alloc, line, rule)?;
    write_text(text.as_bytes(), sink)
}
