ghost use Rattle.std.specs.Prelude.{◌≡◌, ◌<◌, find, nat_lt, length, option_map, slice_get, unwrap_or, IfOk, OnOk, OnErr};
ghost use Rattle.ttm_base.specs.declared.Actor.TheVariants as actor;
ghost use Rattle.ttm_base.specs.declared.Loc.TheVariants as place;
ghost use Rattle.journal_model.specs.declared.state.Stage.TheVariants as stage;
ghost use Rattle.journal_model.specs.declared.state.Task.TheVariants as task;
ghost use Rattle.journal_model.specs.rules.State.{buffer};
ghost use Rattle.journal_model.specs.rules.Dry as dry;
ghost use Rattle.journal_model.specs.rules.PageSteps as words;
ghost use Rattle.journal_model.specs.rules.Places.{loc_of};
ghost use Rattle.journal_model.specs.rules.Tasks.{stage_of, task_of};
ghost use Rattle.room_state.specs.turns.Turns.{state_behind};
ghost use Rattle.room_state.specs.turns.Acting.{made_unless};
ghost use Rattle.room_state.specs.turns.Turns.{after_step, entry_of, step_of};
ghost use Rattle.swap_core.specs.Due.{ghost_before_frame};

use crate::buffers::{live, swap_victim};
use journal_model::{Kind, Task, Why};
use room_representation::Ghost;
use room_state::turns::{Rooms, Step, turn};
use state_words::filled_by;
use ttm_base::{Actor, BufId, Loc, Need, NoMemory};

/// Returns where page `page` stands.
fn loc_at(places: &[Loc], page: u32) -> Loc
    ensures { result ≡ unwrap_or (slice_get places.now page) place.Zero }
{
    match places.get(page as usize) {
        Some(loc) => *loc,
        None => Loc::Zero,
    }
}

/// Returns the entry that gives the next page of buffer `b` without a frame the frame `frame`. Takes constant time.
fn filled_with(rooms: &Rooms, b: BufId, frame: u32) -> Kind
    ensures { result ≡ words.filled_by b (words.page_to_fill (buffer (state_behind rooms.now) b)) frame (loc_of (buffer (state_behind rooms.now) b) (words.page_to_fill (buffer (state_behind rooms.now) b))) }
{
    match live(rooms, b) {
        Some(bo) => {
            let page = bo.table.first_unfilled().unwrap_or(0);
            filled_by(b, page, frame, loc_at(bo.table.places(), page))
        }
        None => Kind::Populate { b, page: 0, frame },
    }
}

/// Returns the number of the first of `ghosts` that holds a frame, or None where none does.
fn first_with_frame(ghosts: &[Ghost]) -> Option<u64>
    ensures { result ≡ option_map (λ g. g.num) (find (λ g. nat_lt 0 (length g.frames)) ghosts.now) }
{
    match ghosts.iter().find(|g| g.frames.len() > 0) {
        Some(first) => Some(first.num),
        None => None,
    }
}

/// Returns what is next where no victim is left: to wait for a ghost that will give a frame, or the entry that no pages are available.
fn next_without_victim(rooms: &Rooms, b: BufId) -> Result<Kind, Need>
    ensures { result ≡ words.step_without_victim (state_behind rooms.now) b }
{
    match first_with_frame(rooms.ghosts()) {
        Some(g) => Err(Need::Ghost(g)),
        None => Ok(Kind::NoPages { b }),
    }
}

/// Returns what is next where no frame is free: to catch a victim for swap, if a slot is free and there is a victim, else what is next without one.
fn next_without_frame(rooms: &Rooms, b: BufId) -> Result<Kind, Need>
    ensures { result ≡ words.step_without_frame rooms.now.script (state_behind rooms.now) b }
{
    if rooms.free_slot().is_none() {
        return next_without_victim(rooms, b);
    }
    match swap_victim(rooms) {
        Some(v) => Ok(Kind::Catch {
            b: v,
            why: Why::Swap,
        }),
        None => next_without_victim(rooms, b),
    }
}

/// Returns what is next for filling buffer `b`: its next page with the lowest free frame; without one, a victim for swap.
fn next_of_fill(rooms: &Rooms, b: BufId) -> Result<Kind, Need>
    ensures { result ≡ words.step_of_fill rooms.now.script (state_behind rooms.now) b }
{
    match rooms.free_frame() {
        Some(frame) => Ok(filled_with(rooms, b, frame)),
        None => next_without_frame(rooms, b),
    }
}

/// Fills buffer `b`, which `thread` fills: its next page gets the lowest free frame, with zeros or with the bytes of its slot (ttm_tt_populate,
/// ttm_tt_swapin). Where no frame is free a buffer is caught for swap, and where none can be the fill fails, or a ghost that will give a frame is
/// returned, to wait for.
///
/// # Errors
///
/// Lack of memory; nothing is changed.
pub fn fill_buffer(rooms: &mut Rooms, thread: u32, b: BufId) -> Result<Step, NoMemory>
    requires { task_of rooms.old.script (state_behind rooms.old) thread ≡ task.Fill b }
    ensures step { IfOk result (λ step. step ≡ step_of (entry_of rooms.old (actor.Thread thread))) }
    ensures waits { IfOk result (λ step. step ≡ made_unless (ghost_before_frame rooms.old.script (state_behind rooms.old))) }
    ensures made { OnOk result (rooms.new ≡ after_step rooms.old (entry_of rooms.old (actor.Thread thread))) }
    ensures err { OnErr result (rooms.new ≡ rooms.old) }
{
    let next = next_of_fill(rooms, b);
    turn(rooms, Actor::Thread(thread), next)
}

/// Fills the buffer that `thread` fills, in the stage Fill: its next page gets the lowest free frame, with zeros or with the bytes of its slot
/// (ttm_tt_populate, ttm_tt_swapin). Where no frame is free a buffer is caught for swap, and where none can be the fill fails.
///
/// # Errors
///
/// Lack of memory; nothing is changed.
pub fn fill(rooms: &mut Rooms, thread: u32) -> Result<Step, NoMemory>
    requires { stage_of (task_of rooms.old.script (state_behind rooms.old) thread) ≡ stage.Fill }
    ensures step { IfOk result (λ step. step ≡ step_of (entry_of rooms.old (actor.Thread thread))) }
    ensures waits { IfOk result (λ step. step ≡ made_unless (ghost_before_frame rooms.old.script (state_behind rooms.old))) }
    ensures made { OnOk result (rooms.new ≡ after_step rooms.old (entry_of rooms.old (actor.Thread thread))) }
    ensures err { OnErr result (rooms.new ≡ rooms.old) }
{
    let Task::Fill(b) = rooms.task(thread) else {
        unreachable!()
    };
    fill_buffer(rooms, thread, b)
}
