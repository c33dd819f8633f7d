#![tactic(auto, using(ttm_base::proofs::ListLaws::set_same))]

ghost use Rattle.std.specs.Prelude.{◌≡◌, [], Some, None, unwrap_or, OnOk, OnErr, map, option_to_list, slice_set};
ghost use Rattle.ttm_base.specs.declared.Usage.TheVariants as usage;
ghost use Rattle.journal_model.specs.rules.State.{changed, target_of, with_target};
ghost use Rattle.journal_model.specs.rules.ApplyPages.{with_loc, with_spans, with_kernel_fences, with_fence, without_frame, without_frames, bound, unbound};
ghost use Rattle.journal_model.specs.rules.ApplyVictims.{leaves_tt};
ghost use Rattle.journal_model.specs.rules.ApplyMoves.{moved, table_left};
ghost use Rattle.rules_state.specs.parts.Undo.{without_last_fence};

use journal_model::{Buffers, Table, Targets};
use state_words::{drop_frames, set_target};
use std::alloc::Global;
use ttm_base::{BufId, Fence, ItemList, JobId, Loc, Mem, NoMemory, Spans, Usage};

/// Replaces the item at `index` with `item`, if the list has one there.
pub fn put_item<T: Drop>(items: &mut ItemList<T>, index: u32, item: T)
    ensures { items.new ≡ slice_set items.old index item }
{
    let index = index as usize;
    if index < items.len() {
        items.set(index, item);
    }
}

/// Sets the place of page `page` of buffer `b` to `place`, if the buffer is live and has the page.
pub fn set_page(buffers: &mut Buffers, b: BufId, page: u32, place: Loc)
    ensures { buffers.new ≡ changed (with_loc page place) buffers.old b }
{
    let index = b.0 as usize;
    if index < buffers.len() {
        if let Some(buffer) = buffers.get_mut(index) {
            if (page as usize) < buffer.table.len() {
                buffer.table.set(page as usize, place);
            }
        }
    }
}

/// Gives buffer `b` the target `spans` in the memory type `mem`, if it is live, and a fence that everyone waits for, if there is a `job`.
/// Without memory for the fence it leaves `buffers` as they were.
pub fn give_target(
    buffers: &mut Buffers,
    b: BufId,
    mem: Mem,
    spans: Spans,
    job: Option<JobId>,
) -> Result<(), NoMemory>
    ensures ok { OnOk result (buffers.new ≡ changed (λ x. with_kernel_fences (option_to_list job) (with_spans mem (Some spans) x)) buffers.old b) }
    ensures err { OnErr result (buffers.new ≡ buffers.old) }
{
    let index = b.0 as usize;
    if index < buffers.len() {
        if let Some(buffer) = buffers.get_mut(index) {
            if let Some(job) = job {
                buffer.fences.push(Fence {
                    job,
                    usage: Usage::Kernel,
                })?;
            }
            set_target(&mut buffer.targets, mem, Some(spans));
        }
    }
    Ok(())
}

/// Takes the target in the memory type `mem` from buffer `b`, if the buffer is live.
pub fn drop_target(buffers: &mut Buffers, b: BufId, mem: Mem)
    ensures { buffers.new ≡ changed (with_spans mem None) buffers.old b }
{
    let index = b.0 as usize;
    if index < buffers.len() {
        if let Some(buffer) = buffers.get_mut(index) {
            set_target(&mut buffer.targets, mem, None);
        }
    }
}

/// Takes the frames from buffer `b`, if it is live.
pub fn depopulate(buffers: &mut Buffers, b: BufId)
    ensures { buffers.new ≡ changed without_frames buffers.old b }
{
    let index = b.0 as usize;
    if index < buffers.len() {
        if let Some(buffer) = buffers.get_mut(index) {
            drop_frames(&mut buffer.table);
        }
    }
}

/// Gives a live buffer `b` in TT an empty target in SYSTEM, to which the victim goes.
pub fn leave_tt(alloc: Global, buffers: &mut Buffers, b: BufId)
    ensures { buffers.new ≡ changed (λ x. leaves_tt x.mem x) buffers.old b }
{
    let index = b.0 as usize;
    if index < buffers.len() {
        if let Some(buffer) = buffers.get_mut(index) {
            if let Mem::Tt = buffer.mem {
                buffer.targets.system = Some(Spans::new(alloc));
            }
        }
    }
}

/// Takes `target` out and returns its spans, none if there is no target.
fn take_target(alloc: Global, target: &mut Option<Spans>) -> Spans
    ensures value { result ≡ unwrap_or target.old [] }
    ensures after { target.new ≡ None }
{
    match target.take() {
        Some(spans) => spans,
        None => Spans::new(alloc),
    }
}

/// Carries buffer `b` from SYSTEM to its target in TT, if it is live.
pub fn bind(alloc: Global, buffers: &mut Buffers, b: BufId)
    ensures { buffers.new ≡ changed bound buffers.old b }
{
    let index = b.0 as usize;
    if index < buffers.len() {
        if let Some(buffer) = buffers.get_mut(index) {
            buffer.mem = Mem::Tt;
            buffer.spans = take_target(alloc, &mut buffer.targets.tt);
        }
    }
}

/// Carries buffer `b` from TT to SYSTEM, if it is live. It has no spans and no target in SYSTEM then.
pub fn unbind(alloc: Global, buffers: &mut Buffers, b: BufId)
    ensures { buffers.new ≡ changed unbound buffers.old b }
{
    let index = b.0 as usize;
    if index < buffers.len() {
        if let Some(buffer) = buffers.get_mut(index) {
            buffer.mem = Mem::System;
            buffer.spans = Spans::new(alloc);
            buffer.targets.system = None;
        }
    }
}

/// Takes the last fence from buffer `b`, if it is live.
pub fn drop_last_fence(buffers: &mut Buffers, b: BufId)
    ensures { buffers.new ≡ changed without_last_fence buffers.old b }
{
    let index = b.0 as usize;
    if index < buffers.len() {
        if let Some(buffer) = buffers.get_mut(index) {
            buffer.fences.drop_last();
        }
    }
}

/// Adds the fence of `job` with `usage` to buffer `b`, if it is live. Without memory it leaves `buffers` as they were.
pub fn add_fence(buffers: &mut Buffers, b: BufId, job: JobId, usage: Usage) -> Result<(), NoMemory>
    ensures ok { OnOk result (buffers.new ≡ changed (with_fence job usage) buffers.old b) }
    ensures err { OnErr result (buffers.new ≡ buffers.old) }
{
    let index = b.0 as usize;
    if index < buffers.len() {
        if let Some(buffer) = buffers.get_mut(index) {
            buffer.fences.push(Fence { job, usage })?;
        }
    }
    Ok(())
}

/// Takes the frames and slots out of the page table of a buffer that leaves TT, where its frames stay behind. Out of any other memory type
/// `mem` the table stays as it is.
fn leave_table(mem: Mem, table: &mut Table)
    ensures { table.new ≡ table_left mem table.old }
{
    if let Mem::Tt = mem {
        for i in 0..table.len() {
            table.set(i, Loc::Zero);
        }
    }
}

/// Takes the target of the memory type `mem` out and returns its spans, none if there is no target.
fn take_spans(alloc: Global, targets: &mut Targets, mem: Mem) -> Spans
    ensures value { result ≡ unwrap_or (target_of mem targets.old) [] }
    ensures after { targets.new ≡ with_target mem None targets.old }
{
    match mem {
        Mem::System => take_target(alloc, &mut targets.system),
        Mem::Tt => take_target(alloc, &mut targets.tt),
        Mem::Vram => take_target(alloc, &mut targets.vram),
    }
}

/// Carries buffer `b` to its target in the memory type `mem` by the move `job`, whose fence it adds, if the buffer is live. Without memory
/// for the fence it leaves `buffers` as they were.
pub fn carry(
    alloc: Global,
    buffers: &mut Buffers,
    b: BufId,
    mem: Mem,
    job: JobId,
) -> Result<(), NoMemory>
    ensures ok { OnOk result (buffers.new ≡ changed (moved mem job) buffers.old b) }
    ensures err { OnErr result (buffers.new ≡ buffers.old) }
{
    let index = b.0 as usize;
    if index < buffers.len() {
        if let Some(buffer) = buffers.get_mut(index) {
            buffer.fences.push(Fence {
                job,
                usage: Usage::Kernel,
            })?;
            leave_table(buffer.mem, &mut buffer.table);
            buffer.spans = take_spans(alloc, &mut buffer.targets, mem);
            buffer.mem = mem;
        }
    }
    Ok(())
}
