ghost use Rattle.std.specs.Prelude.{◌≡◌, ◌≢◌, Some, IfOk, IsSome, OnOk, OnErr, option_map};
ghost use Rattle.ttm_base.specs.declared.Actor.TheVariants as actor;
ghost use Rattle.ttm_base.specs.declared.Need.TheVariants as need;
ghost use Rattle.journal_model.specs.declared.state.Stage.TheVariants as stage;
ghost use Rattle.journal_model.specs.declared.state.Task.TheVariants as task;
ghost use Rattle.journal_model.specs.rules.State.{course};
ghost use Rattle.journal_model.specs.rules.Next as words;
ghost use Rattle.journal_model.specs.rules.Tasks.{task_of, stage_of};
ghost use Rattle.room_state.specs.turns.Turns.{state_behind};
ghost use Rattle.room_state.specs.turns.Acting.{holder_awaited, made_unless};
ghost use Rattle.room_state.specs.turns.Turns.{after_step, entry_of, step_of};

use crate::buffers::{holder_of, is_live};
use crate::enact::{Next, enact};
use journal_model::{Course, Kind, Task};
use room_state::turns::{Rooms, Step};
use ttm_base::{BufId, Deny, Need, NoMemory, Stamp};
use ww_ticket::{Decision, decide};

/// Returns what a thread with the ticket `mine` does at the live buffer `b`, which it wants to hold (wait-die): it reserves one that has no holder,
/// backs off from an older holder if it holds something itself, and waits for any other.
fn wait_die(course: &Course, mine: Stamp, b: BufId, holder: Option<Stamp>) -> Next
    requires ticket { course.now.stamp ≡ Some mine }
    requires other { holder ≢ Some mine }
    ensures { result ≡ words.step_of_holder course.now b holder }
{
    match decide(mine, course.held.len() > 0, holder) {
        Decision::Take => Ok(Kind::Reserve { b }),
        Decision::Backoff(s) => Ok(Kind::Backoff { b, s }),
        Decision::Wait(s) => Err(Need::Holder(s)),
    }
}

/// Returns the step of `thread` at buffer `b`, which it wants to hold.
fn next_of_lock(rooms: &Rooms, thread: u32, b: BufId) -> Next
    requires { task_of rooms.now.script (state_behind rooms.now) thread ≡ task.Lock b }
    ensures { result ≡ words.step_of_lock (state_behind rooms.now) (course (state_behind rooms.now) thread) b }
{
    let _legal = rooms.journal();
    if !is_live(rooms, b) {
        return Ok(Kind::Refused {
            deny: Deny::NoBuffer,
        });
    }
    let course = rooms.course(thread);
    let Some(mine) = course.stamp else {
        unreachable!()
    };
    wait_die(course, mine, b, holder_of(rooms, b))
}

/// Reserves buffer `b`, the next that the command of `thread` names, backs off from an older holder, or returns the holder to wait for (`wait_die`).
/// Where that buffer isn't live the command is refused.
///
/// # Errors
///
/// Lack of memory; nothing is changed.
pub fn lock_buffer(rooms: &mut Rooms, thread: u32, b: BufId) -> Result<Step, NoMemory>
    requires { task_of rooms.old.script (state_behind rooms.old) thread ≡ task.Lock b }
    ensures step { IfOk result (λ step. step ≡ step_of (entry_of rooms.old (actor.Thread thread))) }
    ensures made { OnOk result (rooms.new ≡ after_step rooms.old (entry_of rooms.old (actor.Thread thread))) }
    ensures err { OnErr result (rooms.new ≡ rooms.old) }
{
    let next = next_of_lock(rooms, thread, b);
    enact(rooms, thread, next)
}

/// Reserves the next buffer that the command of `thread` names, in the stage Lock, backs off from an older holder, or waits for the holder
/// (`wait_die`). Where that buffer isn't live the command is refused.
///
/// # Errors
///
/// Lack of memory; nothing is changed.
pub fn lock(rooms: &mut Rooms, thread: u32) -> Result<Step, NoMemory>
    requires { stage_of (task_of rooms.old.script (state_behind rooms.old) thread) ≡ stage.Lock }
    ensures step { IfOk result (λ step. step ≡ step_of (entry_of rooms.old (actor.Thread thread))) }
    ensures waits { IfOk result (λ step. step ≡ made_unless (option_map need.Holder (holder_awaited rooms.old.script (state_behind rooms.old) thread))) }
    ensures made { OnOk result (rooms.new ≡ after_step rooms.old (entry_of rooms.old (actor.Thread thread))) }
    ensures err { OnErr result (rooms.new ≡ rooms.old) }
{
    let Task::Lock(b) = rooms.task(thread) else {
        unreachable!()
    };
    lock_buffer(rooms, thread, b)
}
