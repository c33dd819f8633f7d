//! Whether an actor has nothing to do, which is found without a turn.
ghost use Rattle.std.specs.Prelude.{◌≡◌, Err, IsTrue, is_none};
ghost use Rattle.journal_model.specs.rules.Commands.{command_at_work};
ghost use Rattle.journal_model.specs.rules.Legal.{next_entry, state_of, world_of};
ghost use Rattle.journal_model.specs.rules.Next.{head_of};
ghost use Rattle.room_representation.specs.Held.{AreHeld};
ghost use Rattle.room_state.specs.turns.Turns.{entry_of, state_behind};
ghost use Rattle.room_device.specs.Idle.{is_idle as idle_in, work_of};

use journal_model::{Entry, Script};
use room_queries::{first_ghost, head};
use room_representation::Parts;
use room_state::turns::Rooms;
use state_words::commands_of;
use ttm_base::Actor;

/// Returns whether `thread` has no command left. A thread that the script doesn't have has none.
fn has_no_command(parts: &Parts, script: &Script, before: &[Entry], thread: u32) -> bool
    requires { AreHeld script.now before.now parts.now }
    ensures { result ≡ is_none (command_at_work script.now (state_of script.now before.now) thread) }
{
    if thread == 0 || parts.courses.len() < thread as usize {
        return true;
    }
    let answered = parts.courses.get(thread as usize - 1).answered;
    commands_of(script, thread).get(answered as usize).is_none()
}

/// Returns whether `engine` has no job that isn't done. An engine that the script doesn't have has none.
fn has_no_job(parts: &Parts, script: &Script, before: &[Entry], engine: u32) -> bool
    requires { AreHeld script.now before.now parts.now }
    ensures { result ≡ is_none (head_of (state_of script.now before.now) engine) }
{
    if engine > script.sizes.engines {
        return true;
    }
    head(parts, script, before, engine).is_none()
}

/// Returns whether the actor `who` has nothing to do in the state that `parts` tell.
fn is_idle_in(parts: &Parts, script: &Script, before: &[Entry], who: Actor) -> bool
    requires { AreHeld script.now before.now parts.now }
    ensures idle { result ≡ idle_in script.now (state_of script.now before.now) who }
    ensures needs { IsTrue result → next_entry script.now (world_of script.now before.now) who ≡ Err (work_of who) }
{
    match who {
        Actor::Thread(thread) => has_no_command(parts, script, before, thread),
        Actor::Engine(engine) => has_no_job(parts, script, before, engine),
        Actor::Reaper => first_ghost(parts, script, before).is_none(),
    }
}

/// Returns whether the actor `who` has nothing to do: the thread has no command left, the engine no job that isn't done, the reaper no ghost. Such
/// an actor has no entry. Takes constant time.
pub fn is_idle(rooms: &Rooms, who: Actor) -> bool
    ensures idle { result ≡ idle_in rooms.now.script (state_behind rooms.now) who }
    ensures needs { IsTrue result → entry_of rooms.now who ≡ Err (work_of who) }
{
    is_idle_in(rooms.parts(), rooms.script(), rooms.journal(), who)
}
