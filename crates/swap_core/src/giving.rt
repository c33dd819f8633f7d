ghost use Rattle.std.specs.Prelude.{◌≡◌, true, IfOk, OnOk, OnErr};
ghost use Rattle.ttm_base.specs.declared.Actor.TheVariants as actor;
ghost use Rattle.journal_model.specs.declared.state.Task.TheVariants as task;
ghost use Rattle.journal_model.specs.rules.Tasks.{task_of};
ghost use Rattle.room_state.specs.turns.Turns.{state_behind};
ghost use Rattle.room_state.specs.declared.turns.Step.TheVariants as answer;
ghost use Rattle.room_state.specs.turns.Turns.{after_step, entry_of, step_of};
ghost use Rattle.swap_core.specs.Due.{depopulate_due};

use crate::buffers::has_frame_in_vram;
use journal_model::{Kind, Task};
use room_state::turns::{Rooms, Step, make};
use ttm_base::{Actor, BufId, NoMemory};

/// Returns whether a Depopulate of `thread` is due: a buffer that gives back what its search took stands in VRAM and has a frame. Takes time as
/// `Rooms::task` does.
pub fn is_depopulate_due(rooms: &Rooms, thread: u32) -> bool
    ensures { result ≡ depopulate_due rooms.now.script (state_behind rooms.now) thread }
{
    match rooms.task(thread) {
        Task::GiveBack(b) => has_frame_in_vram(rooms, b),
        _ => false,
    }
}

/// Gives back the frames of buffer `b` in VRAM, whose move failed, once the Depopulate of `thread` is due (ttm_tt_unpopulate).
///
/// # Errors
///
/// Lack of memory; nothing is changed.
pub fn give_back_frames(rooms: &mut Rooms, thread: u32, b: BufId) -> Result<Step, NoMemory>
    requires task { task_of rooms.old.script (state_behind rooms.old) thread ≡ task.GiveBack b }
    requires due { depopulate_due rooms.old.script (state_behind rooms.old) thread ≡ true }
    ensures step { IfOk result (λ step. step ≡ step_of (entry_of rooms.old (actor.Thread thread))) }
    ensures always { IfOk result (λ step. step ≡ answer.Made) }
    ensures made { OnOk result (rooms.new ≡ after_step rooms.old (entry_of rooms.old (actor.Thread thread))) }
    ensures err { OnErr result (rooms.new ≡ rooms.old) }
{
    make(rooms, Actor::Thread(thread), Kind::Depopulate { b })
}

/// Gives back the frames of a buffer in VRAM whose move failed, once its Depopulate is due (ttm_tt_unpopulate).
///
/// # Errors
///
/// Lack of memory; nothing is changed.
pub fn depopulate(rooms: &mut Rooms, thread: u32) -> Result<Step, NoMemory>
    requires { depopulate_due rooms.old.script (state_behind rooms.old) thread ≡ true }
    ensures step { IfOk result (λ step. step ≡ step_of (entry_of rooms.old (actor.Thread thread))) }
    ensures always { IfOk result (λ step. step ≡ answer.Made) }
    ensures made { OnOk result (rooms.new ≡ after_step rooms.old (entry_of rooms.old (actor.Thread thread))) }
    ensures err { OnErr result (rooms.new ≡ rooms.old) }
{
    let Task::GiveBack(b) = rooms.task(thread) else {
        unreachable!()
    };
    give_back_frames(rooms, thread, b)
}
