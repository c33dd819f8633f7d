ghost use Rattle.std.specs.Prelude.{◌≡◌, ◌++◌, ◌∷◌, [], IfOk, OnOk, decimal};
ghost use Rattle.io_edge.specs.Written.{Writes};
ghost use Rattle.journal_model.specs.scripts.Words.{line};
ghost use Rattle.report_text.specs.WriteFault.{faults_after_writing};
ghost use Rattle.generated_load.specs.Loads.{IsLoad};
ghost use Rattle.thread_program.specs.Counted.{HasRunLoad, counts_text, load_counts};
ghost use Rattle.thread_program.specs.Ran.{IsThreaded};

use io_edge::Sink;
use itoa::Buffer;
use plain_memory::{answers, command_count, mismatches};
use program_edges::write_text;
use report_text::WriteFault;
use simulator::Device;
use std::alloc::Global;
use ttm_base::NoMemory;

/// The counts of a run.
#[derive(Clone, Copy, PartialEq, Eq)]
pub struct Counts {
    pub threads: u64,
    pub commands: u64,
    /// The number of results and refusals.
    pub results: u64,
    /// The number of reads that show other bytes than a memory where each buffer has its own place for good.
    pub mismatches: u64,
}

fn counts_of(alloc: Global, device: &Device) -> Result<Counts, NoMemory>
    requires load { IsLoad device.now.script }
    requires ran { IsThreaded device.now.script device.now }
    ensures { IfOk result (λ counts. counts ≡ load_counts) }
{
    let script = device.script();
    let journal = device.journal();
    Ok(Counts {
        threads: script.threads.len() as u64,
        commands: command_count(script),
        results: answers(journal),
        mismatches: mismatches(alloc, script, journal)?,
    })
}

/// Appends a line with `name` and `number` to `text`.
fn put_count(text: &mut Vec<u8>, name: &[u8], number: u64) -> Result<(), NoMemory>
    ensures { OnOk result (text.new.items ≡ text.old.items ++ line (name.now ∷ decimal number ∷ [])) }
{
    let mut digits = Buffer::new();
    text.extend_from_slice(name)?;
    text.push(b' ')?;
    text.extend_from_slice(digits.format(number).as_bytes())?;
    text.push(b'\n')?;
    Ok(())
}

fn counts_text(alloc: Global, number: u64, counts: Counts) -> Result<Vec<u8>, NoMemory>
    ensures { IfOk result (λ text. text.items ≡ counts_text number counts) }
{
    let mut text = Vec::new(alloc);
    put_count(&mut text, b"gen", number)?;
    put_count(&mut text, b"threads", counts.threads)?;
    put_count(&mut text, b"commands", counts.commands)?;
    put_count(&mut text, b"results", counts.results)?;
    put_count(&mut text, b"mismatches", counts.mismatches)?;
    Ok(text)
}

/// Writes the counts of a run of the script that was drawn from `number` to `sink`.
pub(crate) fn write_counts<K: Sink>(
    alloc: Global,
    number: u64,
    device: &Device,
    sink: &mut K,
) -> Result<(), WriteFault>
    requires { HasRunLoad number device.now }
    ensures text { Writes result (K.written sink.old) (K.written sink.new) (counts_text number load_counts) }
    ensures faults { K.faults sink.new ≡ faults_after_writing result (K.faults sink.old) }
{
    let counts = counts_of(alloc, device)?;
    let text = counts_text(alloc, number, counts)?;
    write_text(text.as_slice(), sink)
}
