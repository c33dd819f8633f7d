ghost use Rattle.std.specs.Prelude.{◌≡◌, ◌<◌, Ok, true, IfOk, OnOk, OnErr, length};
ghost use Rattle.ttm_base.specs.declared.Actor.TheVariants as actor;
ghost use Rattle.journal_model.specs.declared.script.Command.TheVariants as command;
ghost use Rattle.journal_model.specs.rules.Next.{step_of_act};
ghost use Rattle.room_state.specs.turns.Turns.{state_behind};
ghost use Rattle.room_state.specs.declared.turns.Step.TheVariants as answer;
ghost use Rattle.room_state.specs.turns.Acting.{free_due};
ghost use Rattle.room_state.specs.turns.Turns.{after_step, entry_of, step_of};

use journal_model::{Command, Kind, Task};
use room_state::turns::{Rooms, Step, make};
use ttm_base::{Actor, BufId, NoMemory, Usage};

/// Returns whether a Free of `thread` is due: its command frees a buffer and is at work, since that buffer is held. Takes time as `Rooms::task`
/// does.
pub fn is_free_due(rooms: &Rooms, thread: u32) -> bool
    ensures { result ≡ free_due rooms.now.script (state_behind rooms.now) thread }
{
    match rooms.task(thread) {
        Task::Act => matches!(rooms.command(thread), Some(Command::Free { .. })),
        _ => false,
    }
}

/// Returns the entry that frees buffer `b`: one whose jobs aren't done leaves a ghost.
fn kind_of_free(rooms: &Rooms, b: BufId) -> Kind
    requires { b.0 < length rooms.now.script.buffers }
    ensures { step_of_act rooms.now.script (state_behind rooms.now) (command.Free b) ≡ Ok result }
{
    let g = match rooms.need(b, Usage::Write) {
        None => 0,
        Some(_job) => rooms.next_ghost(),
    };
    Kind::Free { b, g }
}

/// Frees the buffer of the command of `thread`, once its Free is due (ttm_bo_release). Where jobs that use it aren't done, a new ghost holds what it
/// held.
///
/// # Errors
///
/// Lack of memory; nothing is changed.
pub fn hold(rooms: &mut Rooms, thread: u32) -> Result<Step, NoMemory>
    requires { free_due rooms.old.script (state_behind rooms.old) thread ≡ true }
    ensures step { IfOk result (λ step. step ≡ step_of (entry_of rooms.old (actor.Thread thread))) }
    ensures always { IfOk result (λ step. step ≡ answer.Made) }
    ensures made { OnOk result (rooms.new ≡ after_step rooms.old (entry_of rooms.old (actor.Thread thread))) }
    ensures err { OnErr result (rooms.new ≡ rooms.old) }
{
    let _legal = rooms.journal();
    let Some(Command::Free { b }) = rooms.command(thread) else {
        unreachable!()
    };
    let kind = kind_of_free(rooms, *b);
    make(rooms, Actor::Thread(thread), kind)
}
