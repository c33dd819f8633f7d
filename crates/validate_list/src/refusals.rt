ghost use Rattle.std.specs.Prelude.{◌≡◌, true, Some, IfOk, OnOk, OnErr};
ghost use Rattle.ttm_base.specs.declared.Actor.TheVariants as actor;
ghost use Rattle.journal_model.specs.rules.Tasks.{task_of};
ghost use Rattle.room_state.specs.turns.Turns.{state_behind};
ghost use Rattle.room_state.specs.declared.turns.Step.TheVariants as answer;
ghost use Rattle.room_state.specs.turns.Acting.{gives_up};
ghost use Rattle.room_state.specs.turns.Turns.{after_step, entry_of, step_of};
ghost use Rattle.validate_list.specs.Acts.{denied};

use journal_model::{Kind, Task};
use room_state::turns::{Rooms, Step, make};
use ttm_base::{Actor, Deny, NoMemory};

/// Refuses the command of `thread` for the reason `deny`, which is its task: what it asks may not be done, or a search found no pages and has nothing
/// left to give back.
///
/// # Errors
///
/// Lack of memory; nothing is changed.
pub fn refuse_for(rooms: &mut Rooms, thread: u32, deny: Deny) -> Result<Step, NoMemory>
    requires { denied (task_of rooms.old.script (state_behind rooms.old) thread) ≡ Some deny }
    ensures step { IfOk result (λ step. step ≡ step_of (entry_of rooms.old (actor.Thread thread))) }
    ensures always { IfOk result (λ step. step ≡ answer.Made) }
    ensures made { OnOk result (rooms.new ≡ after_step rooms.old (entry_of rooms.old (actor.Thread thread))) }
    ensures err { OnErr result (rooms.new ≡ rooms.old) }
{
    make(rooms, Actor::Thread(thread), Kind::Refused { deny })
}

/// Refuses a command, in the stage Fail, whose search found no pages. Its buffer has no frame to give back and no target.
///
/// # Errors
///
/// Lack of memory; nothing is changed.
pub fn refuse(rooms: &mut Rooms, thread: u32) -> Result<Step, NoMemory>
    requires { gives_up (task_of rooms.old.script (state_behind rooms.old) thread) ≡ true }
    ensures step { IfOk result (λ step. step ≡ step_of (entry_of rooms.old (actor.Thread thread))) }
    ensures always { IfOk result (λ step. step ≡ answer.Made) }
    ensures made { OnOk result (rooms.new ≡ after_step rooms.old (entry_of rooms.old (actor.Thread thread))) }
    ensures err { OnErr result (rooms.new ≡ rooms.old) }
{
    let Task::GiveUp(deny) = rooms.task(thread) else {
        unreachable!()
    };
    refuse_for(rooms, thread, deny)
}
