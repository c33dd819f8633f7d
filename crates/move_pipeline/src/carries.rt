ghost use Rattle.std.specs.Prelude.{◌≡◌, ◌≤◌, Ok, true, IfOk, IsSome, OnOk, OnErr, option_map};
ghost use Rattle.ttm_base.specs.declared.Actor.TheVariants as actor;
ghost use Rattle.ttm_base.specs.declared.Need.TheVariants as need;
ghost use Rattle.journal_model.specs.declared.state.Stage.TheVariants as stage;
ghost use Rattle.journal_model.specs.declared.state.Task.TheVariants as task;
ghost use Rattle.journal_model.specs.rules.PageSteps as words;
ghost use Rattle.journal_model.specs.rules.State as state;
ghost use Rattle.journal_model.specs.rules.Tasks.{task_of, stage_of};
ghost use Rattle.room_state.specs.turns.Turns.{state_behind};
ghost use Rattle.room_state.specs.declared.turns.Step.TheVariants as answer;
ghost use Rattle.room_state.specs.turns.Acting.{is_untake, job_before_unbind, made_unless};
ghost use Rattle.room_state.specs.turns.Turns.{after_step, entry_of, step_of};

use journal_model::{Kind, Left, Task};
use room_state::turns::{Rooms, Step, make};
use state_words::{is_caught, target_to_untake};
use ttm_base::{Actor, BufId, Mem, Need, NoMemory, Usage};

/// Moves buffer `b`, which `thread` binds, from SYSTEM to the pages of TT that were found for it.
///
/// # Errors
///
/// Lack of memory; nothing is changed.
pub fn bind(rooms: &mut Rooms, thread: u32, b: BufId) -> Result<Step, NoMemory>
    requires { task_of rooms.old.script (state_behind rooms.old) thread ≡ task.Bind b }
    ensures step { IfOk result (λ step. step ≡ step_of (entry_of rooms.old (actor.Thread thread))) }
    ensures made { OnOk result (rooms.new ≡ after_step rooms.old (entry_of rooms.old (actor.Thread thread))) }
    ensures err { OnErr result (rooms.new ≡ rooms.old) }
{
    make(rooms, Actor::Thread(thread), Kind::Bind { b })
}

/// Moves buffer `b`, which `thread` unbinds, back to SYSTEM, once no job uses it; until then, returns the job to wait for.
///
/// # Errors
///
/// Lack of memory; nothing is changed.
pub fn unbind(rooms: &mut Rooms, thread: u32, b: BufId) -> Result<Step, NoMemory>
    requires { task_of rooms.old.script (state_behind rooms.old) thread ≡ task.Unbind b }
    ensures step { IfOk result (λ step. step ≡ step_of (entry_of rooms.old (actor.Thread thread))) }
    ensures made { OnOk result (rooms.new ≡ after_step rooms.old (entry_of rooms.old (actor.Thread thread))) }
    ensures err { OnErr result (rooms.new ≡ rooms.old) }
{
    let _legal = rooms.journal();
    if let Some(job) = rooms.need(b, Usage::Kernel) {
        return Ok(Step::Need(Need::Fence(job)));
    }
    make(rooms, Actor::Thread(thread), Kind::Unbind { b })
}

/// Returns the entry of a job that moves buffer `b` to its target in `mem`. What it leaves in VRAM is free at once if it is a victim, else a
/// ghost's.
fn kind_of_move(rooms: &Rooms, thread: u32, b: BufId, mem: Mem) -> Kind
    requires { IsSome (state.course_of (state_behind rooms.now) thread) }
    ensures { words.step_of_move (state_behind rooms.now) (state.course (state_behind rooms.now) thread) b mem ≡ Ok result }
{
    let left = if is_caught(rooms.course(thread), b) {
        Left::Now
    } else {
        Left::Ghost(rooms.next_ghost())
    };
    Kind::Move {
        b,
        mem,
        num: rooms.next_job(0),
        left,
    }
}

/// Moves buffer `b`, which `thread` moves by a job, to its target in `mem`: the move engine copies its pages.
///
/// # Errors
///
/// Lack of memory; nothing is changed.
pub fn move_to_target(rooms: &mut Rooms, thread: u32, b: BufId, mem: Mem) -> Result<Step, NoMemory>
    requires { task_of rooms.old.script (state_behind rooms.old) thread ≡ task.Move b mem }
    ensures step { IfOk result (λ step. step ≡ step_of (entry_of rooms.old (actor.Thread thread))) }
    ensures made { OnOk result (rooms.new ≡ after_step rooms.old (entry_of rooms.old (actor.Thread thread))) }
    ensures err { OnErr result (rooms.new ≡ rooms.old) }
{
    let kind = kind_of_move(rooms, thread, b, mem);
    make(rooms, Actor::Thread(thread), kind)
}

/// Moves a buffer to what was found for it, in the stage Carry: from SYSTEM to TT, back, or by a job of the move engine. It isn't unbound while a
/// job uses it.
///
/// # Errors
///
/// Lack of memory; nothing is changed.
pub fn carry(rooms: &mut Rooms, thread: u32) -> Result<Step, NoMemory>
    requires { stage_of (task_of rooms.old.script (state_behind rooms.old) thread) ≡ stage.Carry }
    ensures step { IfOk result (λ step. step ≡ step_of (entry_of rooms.old (actor.Thread thread))) }
    ensures waits { IfOk result (λ step. step ≡ made_unless (option_map need.Fence (job_before_unbind (state_behind rooms.old) (task_of rooms.old.script (state_behind rooms.old) thread)))) }
    ensures made { OnOk result (rooms.new ≡ after_step rooms.old (entry_of rooms.old (actor.Thread thread))) }
    ensures err { OnErr result (rooms.new ≡ rooms.old) }
{
    match rooms.task(thread) {
        Task::Bind(b) => bind(rooms, thread, b),
        Task::Unbind(b) => unbind(rooms, thread, b),
        Task::Move { b, mem } => move_to_target(rooms, thread, b, mem),
        _ => unreachable!(),
    }
}

/// Gives back the target that a failed search took for buffer `b`, once `thread` has no frame of it to give back.
///
/// # Errors
///
/// Lack of memory; nothing is changed.
pub fn release_target(rooms: &mut Rooms, thread: u32, b: BufId) -> Result<Step, NoMemory>
    requires task { task_of rooms.old.script (state_behind rooms.old) thread ≡ task.GiveBack b }
    requires untake { is_untake (state_behind rooms.old) (task.GiveBack b) ≡ true }
    ensures step { IfOk result (λ step. step ≡ step_of (entry_of rooms.old (actor.Thread thread))) }
    ensures always { IfOk result (λ step. step ≡ answer.Made) }
    ensures made { OnOk result (rooms.new ≡ after_step rooms.old (entry_of rooms.old (actor.Thread thread))) }
    ensures err { OnErr result (rooms.new ≡ rooms.old) }
{
    let _legal = rooms.journal();
    let mem = target_to_untake(&rooms.lent(b).targets);
    make(rooms, Actor::Thread(thread), Kind::Untake { b, mem })
}

/// Gives back a target that a failed search took, in the stage Fail, where there is one and no Depopulate is due.
///
/// # Errors
///
/// Lack of memory; nothing is changed.
pub fn untake(rooms: &mut Rooms, thread: u32) -> Result<Step, NoMemory>
    requires { is_untake (state_behind rooms.old) (task_of rooms.old.script (state_behind rooms.old) thread) ≡ true }
    ensures step { IfOk result (λ step. step ≡ step_of (entry_of rooms.old (actor.Thread thread))) }
    ensures always { IfOk result (λ step. step ≡ answer.Made) }
    ensures made { OnOk result (rooms.new ≡ after_step rooms.old (entry_of rooms.old (actor.Thread thread))) }
    ensures err { OnErr result (rooms.new ≡ rooms.old) }
{
    let Task::GiveBack(b) = rooms.task(thread) else {
        unreachable!()
    };
    release_target(rooms, thread, b)
}
