ghost use Rattle.std.specs.Prelude.{◌≡◌, ◌≤◌, ◌<◌, Ok, Some, false, IfOk, OnOk, OnErr, length, option_map};
ghost use Rattle.ttm_base.specs.declared.Actor.TheVariants as actor;
ghost use Rattle.ttm_base.specs.declared.Need.TheVariants as need;
ghost use Rattle.journal_model.specs.declared.script.Command.TheVariants as command;
ghost use Rattle.journal_model.specs.declared.entry.Kind.TheVariants as kind;
ghost use Rattle.journal_model.specs.declared.entry.Shown.TheVariants as shown;
ghost use Rattle.journal_model.specs.declared.state.Stage.TheVariants as stage;
ghost use Rattle.journal_model.specs.declared.state.Task.TheVariants as task;
ghost use Rattle.journal_model.specs.rules.Tasks.{task_of, stage_of};
ghost use Rattle.laws.specs.lemma_bytes_told.Told.{IsThere};
ghost use Rattle.room_state.specs.turns.Turns.{state_behind};
ghost use Rattle.room_state.specs.turns.Acting.{entry_by, free_due, job_awaited, made_unless, swap_due, swaps};
ghost use Rattle.room_state.specs.turns.Turns.{after_step, entry_of, step_of};
ghost use Rattle.validate_list.specs.Acts.{act_of, IsActing};

use crate::enact::{Next, enact};
use crate::refusals::refuse_for;
use copy_packet::ProbeBytes;
use journal_model::{Bytes, Command, Kind, Shown, Task};
use room_state::turns::{Rooms, Step, make};
use state_words::unless_waiting;
use std::alloc::Global;
use ttm_base::{Actor, BufId, Deny, Need, NoMemory, Usage};

/// Returns an answer that shows nothing.
fn plain() -> Kind
    ensures { result ≡ kind.Result shown.Plain }
{
    Kind::Result {
        shown: Shown::Plain,
    }
}

/// Returns the answer that shows `len` bytes of buffer `b` from `off` on, or the job that changes them, to wait for first.
fn next_of_read(
    alloc: Global,
    rooms: &Rooms,
    b: BufId,
    off: u32,
    len: u32,
) -> Result<Next, NoMemory>
    requires live { IsThere (state_behind rooms.now) b }
    requires declared { b.0 < length rooms.now.script.buffers }
    requires short { len ≤ 256 }
    ensures { IfOk result (λ next. next ≡ act_of rooms.now (command.Read b off len)) }
{
    if let Some(job) = rooms.need(b, Usage::Read) {
        return Ok(Err(Need::Fence(job)));
    }
    let mut seen = ProbeBytes::new(alloc)?;
    rooms.shown(b, off, len, &mut seen);
    let bytes = Bytes::from_slice(alloc, seen.bytes())?;
    let shown = Shown::Read(bytes);
    Ok(Ok(Kind::Result { shown }))
}

/// Returns the answer that shows where buffer `b` stands.
fn kind_of_find(rooms: &Rooms, b: BufId) -> Result<Kind, NoMemory>
    requires { IsThere (state_behind rooms.now) b }
    ensures { IfOk result (λ shows. act_of rooms.now (command.Find b) ≡ Ok shows) }
{
    let bo = rooms.lent(b);
    let spans = bo.spans.copy()?;
    let shown = Shown::Find { mem: bo.mem, spans };
    Ok(Kind::Result { shown })
}

/// Returns the answer of a swapout that can swap out nothing more: a plain one where all of the buffer is swapped out, or a refusal where no slot is
/// free.
fn kind_of_swapped(rooms: &Rooms, b: BufId) -> Kind
    requires live { IsThere (state_behind rooms.now) b }
    requires done { swaps rooms.now.script (state_behind rooms.now) (Some (command.SwapOut b)) ≡ false }
    ensures { act_of rooms.now (command.SwapOut b) ≡ Ok result }
{
    if rooms.lent(b).table.has_frame() {
        Kind::Refused { deny: Deny::NoSwap }
    } else {
        plain()
    }
}

/// Returns what `command` does itself, once all its buffers are held, in place and filled.
fn next_of_command(alloc: Global, rooms: &Rooms, command: &Command) -> Result<Next, NoMemory>
    requires { IsActing rooms.now command.now }
    ensures { IfOk result (λ next. next ≡ act_of rooms.now command.now) }
{
    match command {
        Command::Submit { engine, .. } => Ok(Ok(Kind::Arm {
            engine: *engine,
            num: rooms.next_job(*engine),
        })),
        Command::SwapOut { b } => Ok(Ok(kind_of_swapped(rooms, *b))),
        Command::Write { b, .. } => Ok(unless_waiting(rooms.need(*b, Usage::Write), plain())),
        Command::Read { b, off, len } => next_of_read(alloc, rooms, *b, *off, *len),
        Command::Find { b } => Ok(Ok(kind_of_find(rooms, *b)?)),
        Command::Free { .. } => unreachable!(),
        _ => Ok(Ok(plain())),
    }
}

/// Returns the next step of `thread`, whose command itself is at work.
fn next_of_act(alloc: Global, rooms: &Rooms, thread: u32) -> Result<Next, NoMemory>
    requires act { task_of rooms.now.script (state_behind rooms.now) thread ≡ task.Act }
    requires no_free { free_due rooms.now.script (state_behind rooms.now) thread ≡ false }
    requires no_swap { swap_due rooms.now.script (state_behind rooms.now) thread ≡ false }
    ensures { IfOk result (λ next. entry_of rooms.now (actor.Thread thread) ≡ entry_by thread next) }
{
    let _legal = rooms.journal();
    let Some(command) = rooms.command(thread) else {
        unreachable!()
    };
    next_of_command(alloc, rooms, command)
}

/// Answers the command of `thread`, which has done all that it is for, with an answer that shows nothing.
///
/// # Errors
///
/// Lack of memory; nothing is changed.
pub fn answer(rooms: &mut Rooms, thread: u32) -> Result<Step, NoMemory>
    requires { task_of rooms.old.script (state_behind rooms.old) thread ≡ task.Answer }
    ensures step { IfOk result (λ step. step ≡ step_of (entry_of rooms.old (actor.Thread thread))) }
    ensures made { OnOk result (rooms.new ≡ after_step rooms.old (entry_of rooms.old (actor.Thread thread))) }
    ensures err { OnErr result (rooms.new ≡ rooms.old) }
{
    make(rooms, Actor::Thread(thread), plain())
}

/// Does what the command of `thread` is for, which is itself at work, or returns the job to wait for first. Neither a Free nor a SwapOut of a page is
/// due: those are made by others.
///
/// # Errors
///
/// Lack of memory; nothing is changed.
pub fn perform(alloc: Global, rooms: &mut Rooms, thread: u32) -> Result<Step, NoMemory>
    requires act { task_of rooms.old.script (state_behind rooms.old) thread ≡ task.Act }
    requires no_free { free_due rooms.old.script (state_behind rooms.old) thread ≡ false }
    requires no_swap { swap_due rooms.old.script (state_behind rooms.old) thread ≡ false }
    ensures step { IfOk result (λ step. step ≡ step_of (entry_of rooms.old (actor.Thread thread))) }
    ensures made { OnOk result (rooms.new ≡ after_step rooms.old (entry_of rooms.old (actor.Thread thread))) }
    ensures err { OnErr result (rooms.new ≡ rooms.old) }
{
    let next = next_of_act(alloc, rooms, thread)?;
    enact(rooms, thread, next)
}

/// Makes the next entry of a command that does what it is for, in the stage Act, once all its buffers are held, in place and filled, and then its
/// answer. A command that may not be asked of its buffer is refused. Neither a Free nor a SwapOut of a page is due: those are made by others.
///
/// # Errors
///
/// Lack of memory; nothing is changed.
pub fn act(alloc: Global, rooms: &mut Rooms, thread: u32) -> Result<Step, NoMemory>
    requires act { stage_of (task_of rooms.old.script (state_behind rooms.old) thread) ≡ stage.Act }
    requires no_free { free_due rooms.old.script (state_behind rooms.old) thread ≡ false }
    requires no_swap { swap_due rooms.old.script (state_behind rooms.old) thread ≡ false }
    ensures step { IfOk result (λ step. step ≡ step_of (entry_of rooms.old (actor.Thread thread))) }
    ensures waits { IfOk result (λ step. step ≡ made_unless (option_map need.Fence (job_awaited rooms.old.script (state_behind rooms.old) thread))) }
    ensures made { OnOk result (rooms.new ≡ after_step rooms.old (entry_of rooms.old (actor.Thread thread))) }
    ensures err { OnErr result (rooms.new ≡ rooms.old) }
{
    match rooms.task(thread) {
        Task::Answer => answer(rooms, thread),
        Task::Refuse(deny) => refuse_for(rooms, thread, deny),
        Task::Act => perform(alloc, rooms, thread),
        _ => unreachable!(),
    }
}
