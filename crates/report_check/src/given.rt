//! What frames and swap slots are free once whole page tables come, go or move.

ghost use Rattle.std.specs.Prelude.{◌≡◌, ℕ, ◌∷◌, ◌==◌, [], IfSome, filter, filter_map, flat_map, option_to_list};
ghost use Rattle.journal_model.specs.declared.script.Script.{Script};
ghost use Rattle.journal_model.specs.rules.ApplyCommands as commands;
ghost use Rattle.journal_model.specs.rules.ApplyJobs as jobs;
ghost use Rattle.journal_model.specs.rules.ApplyMoves as moves;
ghost use Rattle.journal_model.specs.rules.ApplyPages as pages;
ghost use Rattle.journal_model.specs.rules.Places as places;
ghost use Rattle.laws.specs.law_owners.OneOwner.{HaveOneOwner};
ghost use Rattle.rules_holds.specs.Free.{AreFree};
ghost use Rattle.rules_holds.specs.Marked.{AreMarked};

use journal_model::{Ghost, Left, State};
use rules_holds::{FreeNumbers, FreeSets};
use rules_state::{frame_of, live_in, slot_of};
use ttm_base::{BufId, Loc, Mem};

/// Makes `number` free.
#[tactic(auto, using(crate::proofs::GivenLaws::given_one))]
fn give(free: &mut FreeNumbers, number: u32)
    ensures { AreMarked free.old (number ∷ []) free.new }
{
    free.give(number);
}

/// Makes each of `numbers` free.
fn give_all(free: &mut FreeNumbers, numbers: &[u32])
    ensures { AreMarked free.old numbers.now free.new }
{
    for n in numbers {
        give(free, *n);
    }
}

/// Makes the frame free in which a page at `loc` lies, if it lies in one.
#[tactic(auto, using(rules_holds::proofs::MarkLaws::marked_nothing))]
fn give_frame(free: &mut FreeNumbers, loc: Loc)
    ensures { AreMarked free.old (option_to_list (places.frame_of loc)) free.new }
{
    if let Some(frame) = frame_of(loc) {
        give(free, frame);
    }
}

/// Makes each frame in the page table `table` free.
fn give_frames(free: &mut FreeNumbers, table: &[Loc])
    ensures { AreMarked free.old (filter_map places.frame_of table.now) free.new }
{
    for loc in table {
        give_frame(free, *loc);
    }
}

/// Makes the swap slot free in which a page at `loc` lies, if it lies in one.
#[tactic(auto, using(rules_holds::proofs::MarkLaws::marked_nothing))]
fn give_slot(free: &mut FreeNumbers, loc: Loc)
    ensures { AreMarked free.old (option_to_list (places.slot_of loc)) free.new }
{
    if let Some(slot) = slot_of(loc) {
        give(free, slot);
    }
}

/// Makes each swap slot in the page table `table` free.
fn give_slots(free: &mut FreeNumbers, table: &[Loc])
    ensures { AreMarked free.old (filter_map places.slot_of table.now) free.new }
{
    for loc in table {
        give_slot(free, *loc);
    }
}

/// Makes the frames of those of `ghosts` free whose number is `num`.
fn give_ghosts(free: &mut FreeNumbers, ghosts: &[Ghost], num: u64)
    ensures { AreMarked free.old (flat_map (λ h. h.frames) (filter (λ h. h.num == num) ghosts.now)) free.new }
{
    for g in ghosts {
        if g.num == num {
            give_all(free, g.frames.items());
        }
    }
}

/// Returns what is free once buffer `b` is made, or `None` if it is live.
pub(super) fn free_after_new(state: &State, free: FreeSets, b: BufId) -> Option<FreeSets>
    ensures { (script : Script) (thread : ℕ) → HaveOneOwner script state.now.core → AreFree script state.now.core free → IfSome result (AreFree script (commands.after_new script state.now thread b).core) }
{
    match live_in(state.core.buffers.items(), b) {
        Some(_) => None,
        None => Some(free),
    }
}

/// Returns what is free once buffer `b` is freed and leaves the ghost `g`, or none if `g` is 0; `None` if it isn't live.
pub(super) fn free_after_free(state: &State, free: FreeSets, b: BufId, g: u64) -> Option<FreeSets>
    ensures { (script : Script) (thread : ℕ) → HaveOneOwner script state.now.core → AreFree script state.now.core free → IfSome result (AreFree script (commands.after_free state.now thread b g).core) }
{
    let buffer = live_in(state.core.buffers.items(), b)?;
    let mut free = free;
    give_slots(&mut free.slots, buffer.table.items());
    if g != 0 {
        return Some(free);
    }
    give_frames(&mut free.frames, buffer.table.items());
    Some(free)
}

/// Returns what is free once buffer `b` gives back its frames, or `None` if it isn't live.
pub(super) fn free_after_depopulate(state: &State, free: FreeSets, b: BufId) -> Option<FreeSets>
    ensures { (script : Script) → HaveOneOwner script state.now.core → AreFree script state.now.core free → IfSome result (AreFree script (pages.after_depopulate state.now b).core) }
{
    let buffer = live_in(state.core.buffers.items(), b)?;
    let mut free = free;
    give_frames(&mut free.frames, buffer.table.items());
    Some(free)
}

/// Returns what is free once buffer `b` moves, or `None` if it isn't live. Out of TT its page table stays behind.
pub(super) fn free_after_move(
    state: &State,
    free: FreeSets,
    b: BufId,
    left: Left,
) -> Option<FreeSets>
    ensures { (script : Script) (mem : Mem) (num : ℕ) → HaveOneOwner script state.now.core → AreFree script state.now.core free → IfSome result (AreFree script (moves.after_move script state.now b mem num left).core) }
{
    let buffer = live_in(state.core.buffers.items(), b)?;
    let mut free = free;
    let Mem::Tt = buffer.mem else {
        return Some(free);
    };
    give_slots(&mut free.slots, buffer.table.items());
    match left {
        Left::Now => {
            give_frames(&mut free.frames, buffer.table.items());
            Some(free)
        }
        Left::Ghost(_) => Some(free),
    }
}

/// Returns what is free once the ghost `g` is gone.
pub(super) fn free_after_reap(state: &State, free: FreeSets, g: u64) -> FreeSets
    ensures { (script : Script) → HaveOneOwner script state.now.core → AreFree script state.now.core free → AreFree script (jobs.after_reap state.now g).core result }
{
    let mut free = free;
    give_ghosts(&mut free.frames, state.core.ghosts.items(), g);
    free
}
