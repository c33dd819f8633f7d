//! Lines that map, and commands that go through mappings or name addresses.

ghost use Rattle.std.specs.Prelude.{◌≡◌, ◌≤◌, ◌<◌, ◌+◌, [], true, false, OnOk, IfOk, length, nat_lt, sum_by, unwrap_or};
ghost use Rattle.std.specs.List.{list_any, list_all};
ghost use Rattle.journal_model.specs.declared.script.MarkKind.TheVariants as mark;
ghost use Rattle.journal_model.specs.rules.Commands.{commands_of};
ghost use Rattle.journal_model.specs.marks.ByName.{job_by_name};
ghost use Rattle.journal_model.specs.scripts.MarkRules as words;
ghost use Rattle.journal_model.specs.scripts.MarkRules.{thread_mappings_at_end};
ghost use Rattle.journal_model.specs.scripts.LineRules.{lacks_number, has_range_fault, is_too_long, lacks_page, len_of_vop_word};
ghost use Rattle.journal_model.specs.scripts.FirstFault.{mark_here, with_access, with_mark, with_mark_line, with_line};
ghost use Rattle.gpu_spaces.specs.Inside.{is_inside};
ghost use Rattle.script_rules.specs.script_mappings.ThreadMappingLists.{IsThreadMappings};
ghost use Rattle.script_text.specs.Steps.{IsClean, thread_mappings_next, has_few_pages};

use crate::reader::put_job;
use crate::values::{engine_of, first_of, zero_of};
use journal_model::line::{Access, EngineWord, Line, Progress, VOpWord, VOpWords};
use journal_model::{Command, Mark, MarkKind, Ops, VOp};
use script_rules::script_mappings::ThreadMappings;
use script_rules::{addressed_lens_within, vops_of};
use std::alloc::Global;
use ttm_base::limits::MAX_OP_BYTES;
use ttm_base::{BufId, NoMemory};

/// Returns a mark of this `kind` after the commands so far of the thread at work.
fn mark_of(progress: &Progress, kind: MarkKind) -> Mark
    requires threads { length progress.now.script.threads ≤ 16 }
    requires commands { length (commands_of progress.now.script (length progress.now.script.threads)) ≤ 4096 }
    ensures { result ≡ mark_here progress.now.script kind }
{
    let threads = progress.script.threads.items();
    let after = match threads.last() {
        Some(commands) => commands.len() as u32,
        None => 0,
    };
    Mark {
        thread: threads.len() as u32,
        after,
        kind,
    }
}

fn put_mark(progress: &mut Progress, kind: MarkKind) -> Result<(), NoMemory>
    requires threads { length progress.old.script.threads ≤ 16 }
    requires commands { length (commands_of progress.old.script (length progress.old.script.threads)) ≤ 4096 }
    ensures { OnOk result (progress.new ≡ with_mark progress.old kind) }
{
    let mark = mark_of(progress, kind);
    progress.script.marks.push(mark)?;
    Ok(())
}

/// Adds a mark that has a line of its own.
pub fn put_mark_line(progress: &mut Progress, kind: MarkKind) -> Result<(), NoMemory>
    requires threads { length progress.old.script.threads ≤ 16 }
    requires commands { length (commands_of progress.old.script (length progress.old.script.threads)) ≤ 4096 }
    requires lines { progress.old.lines < 4096 }
    ensures { OnOk result (progress.new ≡ with_mark_line progress.old kind) }
{
    put_mark(progress, kind)?;
    progress.lines += 1;
    Ok(())
}

/// Adds the mark of a peek or poke. An access without a mapping has none.
pub fn put_access(progress: &mut Progress, access: Access) -> Result<(), NoMemory>
    requires threads { length progress.old.script.threads ≤ 16 }
    requires commands { length (commands_of progress.old.script (length progress.old.script.threads)) ≤ 4096 }
    ensures ok { OnOk result (progress.new ≡ with_access progress.old access) }
    ensures lines { OnOk result (progress.new.lines ≡ progress.old.lines) }
{
    match access {
        Access::Direct => Ok(()),
        Access::Mapped => put_mark(progress, MarkKind::Mapped),
    }
}

/// Returns the job by name, whose pages are all mapped.
fn job_of(alloc: Global, thread_mappings: &ThreadMappings, ops: &[VOp]) -> Result<Ops, NoMemory>
    requires { list_all is_inside ops.now ≡ true }
    ensures { IfOk result (λ job. job ≡ unwrap_or (job_by_name thread_mappings.now.regions ops.now) []) }
{
    match thread_mappings.space().job(alloc, ops)? {
        Some(job) => Ok(job),
        None => Ok(Ops::new(alloc)),
    }
}

/// Returns the sum of the lengths of `ops` in bytes, which is no more than `left`.
fn lens(left: u64, ops: &[VOpWord]) -> u64
    requires { nat_lt left (sum_by len_of_vop_word ops.now) ≡ false }
    ensures { result ≡ sum_by len_of_vop_word ops.now }
{
    match addressed_lens_within(left, ops) {
        Some(lens) => lens,
        None => 0,
    }
}

/// Adds a job that was written with addresses.
pub fn put_vsubmit(
    alloc: Global,
    thread_mappings: &ThreadMappings,
    progress: &mut Progress,
    engine: EngineWord,
    words: VOpWords,
) -> Result<(), NoMemory>
    requires threads { length progress.old.script.threads ≤ 16 }
    requires commands { length (commands_of progress.old.script (length progress.old.script.threads)) ≤ 4096 }
    requires lines { progress.old.lines < 4096 }
    requires before { progress.old.lens ≤ 67108864 }
    requires clean { IsClean progress.old (Line.Vsubmit engine words) }
    requires thread_mappings { thread_mappings.now.regions ≡ (thread_mappings_at_end progress.old.script).regions }
    ensures { OnOk result (progress.new ≡ with_line progress.old (Line.Vsubmit engine words)) }
{
    let lens = lens(u64::from(MAX_OP_BYTES) - progress.lens, words.items());
    let vops = vops_of(alloc, words.items())?;
    let ops = job_of(alloc, thread_mappings, vops.items())?;
    put_mark(progress, MarkKind::Vsubmit { ops: vops })?;
    let engine = engine_of(engine);
    put_job(progress, Command::Submit { engine, ops }, lens)
}

fn vmap(
    alloc: Global,
    thread_mappings: &mut ThreadMappings,
    va: Option<u32>,
    n: Option<u32>,
    b: Option<BufId>,
    off: Option<u32>,
) -> Result<(), NoMemory>
    requires some { 1 ≤ unwrap_or n 0 }
    requires inside { unwrap_or va 0 + unwrap_or n 0 ≤ 1048576 }
    requires pages { unwrap_or off 0 + unwrap_or n 0 ≤ 4096 }
    ensures { OnOk result ((d : words.ThreadMappings) → IsThreadMappings thread_mappings.old d → IsThreadMappings thread_mappings.new (thread_mappings_next d (Line.Vmap va n b off))) }
{
    thread_mappings.vmap(alloc, zero_of(va), zero_of(n), first_of(b), zero_of(off))
}

fn vunmap(
    alloc: Global,
    thread_mappings: &mut ThreadMappings,
    va: Option<u32>,
    n: Option<u32>,
) -> Result<(), NoMemory>
    requires some { 1 ≤ unwrap_or n 0 }
    requires inside { unwrap_or va 0 + unwrap_or n 0 ≤ 1048576 }
    ensures { OnOk result ((d : words.ThreadMappings) → IsThreadMappings thread_mappings.old d → IsThreadMappings thread_mappings.new (thread_mappings_next d (Line.Vunmap va n))) }
{
    thread_mappings.vunmap(alloc, zero_of(va), zero_of(n))
}

/// Makes `thread_mappings` what the thread at work has mapped after `line`, which breaks no rule.
pub fn follow(
    alloc: Global,
    thread_mappings: &mut ThreadMappings,
    progress: &Progress,
    line: &Line,
) -> Result<(), NoMemory>
    requires clean { IsClean progress.now line.now }
    requires pages { list_all has_few_pages progress.now.script.buffers ≡ true }
    ensures { OnOk result ((d : words.ThreadMappings) → IsThreadMappings thread_mappings.old d → IsThreadMappings thread_mappings.new (thread_mappings_next d line.now)) }
{
    match line {
        Line::Thread => *thread_mappings = ThreadMappings::new(alloc),
        Line::Map { b } => thread_mappings.map(first_of(*b))?,
        Line::Unmap { b } => thread_mappings.unmap(first_of(*b)),
        Line::Vmap { va, n, b, off } => vmap(alloc, thread_mappings, *va, *n, *b, *off)?,
        Line::Vunmap { va, n } => vunmap(alloc, thread_mappings, *va, *n)?,
        _ => {}
    }
    Ok(())
}
