ghost use Rattle.std.specs.Prelude.{◌≡◌, ℕ, ◌+◌, ◌<◌, ◌≤◌, ◌^◌, ◌∷◌, [], IfOk, filter, filter_map, find, flat_map, length, not, option_to_list, replicate, slice_index_or, false, true};
ghost use Rattle.journal_model.specs.statements.Account.{count_free};
ghost use Rattle.ttm_base.specs.ListWords.{count_from};
ghost use Rattle.journal_model.specs.rules.Holds as words;
ghost use Rattle.journal_model.specs.rules.Places as places;
ghost use Rattle.rules_holds.specs.Held.{frames_of_slot, slots_of_slot};
ghost use Rattle.rules_holds.specs.Marked.{AreMarked};

use journal_model::{Buffer, Core, Ghost, Script};
use rules_state::{frame_of, slot_of};
use std::alloc::Global;
use ttm_base::{Loc, NoMemory};

/// The number of marks that are looked at at once.
const STRIDE: usize = 64;

/// Returns `size` marks, none of them set.
fn unmarked(alloc: Global, size: u32) -> Result<Vec<bool>, NoMemory>
    ensures { IfOk result (λ marks. marks.items ≡ replicate size false) }
{
    let marks = vec![in alloc; false; size as usize]?;
    Ok(marks)
}

/// Sets the mark of `number`. A number past the marks has none.
#[tactic(auto, using(crate::proofs::MarkLaws::marked_one, crate::proofs::MarkLaws::marked_past))]
fn mark(marks: &mut Vec<bool>, number: u32)
    ensures { AreMarked marks.old.items (number ∷ []) marks.new.items }
{
    let at = number as usize;
    if at < marks.len() {
        marks[at] = true;
    }
}

/// Sets the mark of each of `numbers`.
fn mark_all(marks: &mut Vec<bool>, numbers: &[u32])
    ensures { AreMarked marks.old.items numbers.now marks.new.items }
{
    for n in numbers {
        mark(marks, *n);
    }
}

/// Sets the mark of the frame in which a page at `loc` lies, if it lies in one.
#[tactic(auto, using(crate::proofs::MarkLaws::marked_nothing))]
fn mark_frame(marks: &mut Vec<bool>, loc: Loc)
    ensures { AreMarked marks.old.items (option_to_list (places.frame_of loc)) marks.new.items }
{
    if let Some(number) = frame_of(loc) {
        mark(marks, number);
    }
}

/// Sets the mark of each frame in the page table `table`.
fn mark_frames(marks: &mut Vec<bool>, table: &[Loc])
    ensures { AreMarked marks.old.items (filter_map places.frame_of table.now) marks.new.items }
{
    for loc in table {
        mark_frame(marks, *loc);
    }
}

/// Sets the mark of the swap slot in which a page at `loc` lies, if it lies in one.
#[tactic(auto, using(crate::proofs::MarkLaws::marked_nothing))]
fn mark_slot(marks: &mut Vec<bool>, loc: Loc)
    ensures { AreMarked marks.old.items (option_to_list (places.slot_of loc)) marks.new.items }
{
    if let Some(number) = slot_of(loc) {
        mark(marks, number);
    }
}

/// Sets the mark of each swap slot in the page table `table`.
fn mark_slots(marks: &mut Vec<bool>, table: &[Loc])
    ensures { AreMarked marks.old.items (filter_map places.slot_of table.now) marks.new.items }
{
    for loc in table {
        mark_slot(marks, *loc);
    }
}

/// Returns the page table of the live buffer in `slot`, an empty one if no buffer is there.
fn table_of(slot: &Option<Buffer>) -> &[Loc]
    ensures frames { filter_map places.frame_of result.now ≡ frames_of_slot slot.now }
    ensures slots { filter_map places.slot_of result.now ≡ slots_of_slot slot.now }
{
    match slot {
        Some(buffer) => buffer.table.items(),
        None => &[],
    }
}

/// Sets the marks of the frames of the live buffers among `buffers`.
fn mark_live_frames(marks: &mut Vec<bool>, buffers: &[Option<Buffer>])
    ensures { AreMarked marks.old.items (flat_map frames_of_slot buffers.now) marks.new.items }
{
    for slot in buffers {
        mark_frames(marks, table_of(slot));
    }
}

/// Sets the marks of the swap slots of the live buffers among `buffers`.
fn mark_live_slots(marks: &mut Vec<bool>, buffers: &[Option<Buffer>])
    ensures { AreMarked marks.old.items (flat_map slots_of_slot buffers.now) marks.new.items }
{
    for slot in buffers {
        mark_slots(marks, table_of(slot));
    }
}

/// Sets the marks of the frames of `ghosts`.
fn mark_ghost_frames(marks: &mut Vec<bool>, ghosts: &[Ghost])
    ensures { AreMarked marks.old.items (flat_map (λ g. g.frames) ghosts.now) marks.new.items }
{
    for g in ghosts {
        mark_all(marks, g.frames.items());
    }
}

/// Returns marks for the frames, set where a frame is held.
pub(super) fn frame_marks(
    alloc: Global,
    script: &Script,
    core: &Core,
) -> Result<Vec<bool>, NoMemory>
    ensures small { IfOk result (λ marks. length marks.items < 2 ^ 32) }
    ensures marked { IfOk result (λ marks. AreMarked (replicate script.now.sizes.frames false) (words.held_frames core.now) marks.items) }
{
    let mut marks = unmarked(alloc, script.sizes.frames)?;
    mark_live_frames(&mut marks, core.buffers.items());
    mark_ghost_frames(&mut marks, core.ghosts.items());
    Ok(marks)
}

/// Returns marks for the swap slots, set where a slot is held.
pub(super) fn slot_marks(alloc: Global, script: &Script, core: &Core) -> Result<Vec<bool>, NoMemory>
    ensures small { IfOk result (λ marks. length marks.items < 2 ^ 32) }
    ensures marked { IfOk result (λ marks. AreMarked (replicate script.now.sizes.swap false) (words.held_slots core.now) marks.items) }
{
    let mut marks = unmarked(alloc, script.sizes.swap)?;
    mark_live_slots(&mut marks, core.buffers.items());
    Ok(marks)
}

/// Returns whether all of the 64 marks from `start` on are set.
fn are_set(marks: &[bool], start: usize) -> bool
    requires { start + 64 ≤ length marks.now }
    ensures { result ≡ true → (n : ℕ) → start ≤ n → n < start + 64 → slice_index_or marks.now n false ≡ true }
{
    let mut all = true;
    for n in start..start + STRIDE {
        all &= marks[n];
    }
    all
}

/// Returns a number of marks at the front that are all set, a multiple of how many are looked at at once.
fn set_front(marks: &[bool]) -> usize
    ensures within { result ≤ length marks.now }
    ensures set { (n : ℕ) → n < result → slice_index_or marks.now n false ≡ true }
{
    let mut front = 0;
    while marks.len() - front >= STRIDE && are_set(marks, front) {
        front += STRIDE;
    }
    front
}

/// Returns the lowest number whose mark isn't set, or `None` if all are set.
fn lowest_unmarked(marks: &[bool]) -> Option<u32>
    requires { length marks.now < 2 ^ 32 }
    ensures { result ≡ find (λ n. not (slice_index_or marks.now n false)) (count_from 1 (length marks.now) 0) }
{
    for n in set_front(marks)..marks.len() {
        if !marks[n] {
            return Some(n as u32);
        }
    }
    None
}

/// Counts the marks that aren't set.
#[tactic(auto, using(crate::proofs::CountLaws::count_more))]
fn count_unmarked(marks: &[bool]) -> u64
    ensures { result ≡ length (filter (λ n. not (slice_index_or marks.now n false)) (count_from 1 (length marks.now) 0)) }
{
    let mut count = 0;
    for n in 0..marks.len() {
        if !marks[n] {
            count += 1;
        }
    }
    count
}

/// Returns the lowest free frame, or `None` if no frame is free.
pub fn free_frame(alloc: Global, script: &Script, core: &Core) -> Result<Option<u32>, NoMemory>
    ensures { IfOk result (λ frame. frame ≡ words.free_frame script.now core.now) }
{
    let marks = frame_marks(alloc, script, core)?;
    Ok(lowest_unmarked(&marks))
}

/// Returns the lowest free swap slot, or `None` if no slot is free.
pub fn free_slot(alloc: Global, script: &Script, core: &Core) -> Result<Option<u32>, NoMemory>
    ensures { IfOk result (λ slot. slot ≡ words.free_slot script.now core.now) }
{
    let marks = slot_marks(alloc, script, core)?;
    Ok(lowest_unmarked(&marks))
}

/// Counts the free frames.
pub fn count_free_frames(alloc: Global, script: &Script, core: &Core) -> Result<u64, NoMemory>
    ensures { IfOk result (λ count. count ≡ count_free (words.held_frames core.now) script.now.sizes.frames) }
{
    let marks = frame_marks(alloc, script, core)?;
    Ok(count_unmarked(&marks))
}

/// Counts the free swap slots.
pub fn count_free_slots(alloc: Global, script: &Script, core: &Core) -> Result<u64, NoMemory>
    ensures { IfOk result (λ count. count ≡ count_free (words.held_slots core.now) script.now.sizes.swap) }
{
    let marks = slot_marks(alloc, script, core)?;
    Ok(count_unmarked(&marks))
}
