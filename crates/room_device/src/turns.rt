ghost use Rattle.std.specs.Prelude.{◌≡◌, IfOk, OnOk, OnErr};
ghost use Rattle.ttm_base.specs.declared.Actor.TheVariants as actor;
ghost use Rattle.room_state.specs.turns.Turns.{after_step, entry_of, step_of};

use crate::engines::run;
use crate::threads::turn_of_thread;
use ghost_destroy::reap_first;
use room_state::turns::{Rooms, Step};
use std::alloc::Global;
use ttm_base::{Actor, Need, NoMemory};

/// Takes a turn of `engine`. An engine that the script doesn't have never has a job.
fn turn_of_engine(alloc: Global, rooms: &mut Rooms, engine: u32) -> Result<Step, NoMemory>
    ensures step { IfOk result (λ step. step ≡ step_of (entry_of rooms.old (actor.Engine engine))) }
    ensures made { OnOk result (rooms.new ≡ after_step rooms.old (entry_of rooms.old (actor.Engine engine))) }
    ensures err { OnErr result (rooms.new ≡ rooms.old) }
{
    let _legal = rooms.journal();
    if engine > rooms.script().sizes.engines {
        return Ok(Step::Need(Need::NoJob));
    }
    run(alloc, rooms, engine)
}

/// Takes a turn of the actor `who`: appends its one legal entry, or returns what it needs first. A thread that the script doesn't have needs a
/// command, and an engine that it doesn't have needs a job.
///
/// # Errors
///
/// Lack of memory; nothing is changed.
pub fn turn(alloc: Global, rooms: &mut Rooms, who: Actor) -> Result<Step, NoMemory>
    ensures step { IfOk result (λ step. step ≡ step_of (entry_of rooms.old who)) }
    ensures made { OnOk result (rooms.new ≡ after_step rooms.old (entry_of rooms.old who)) }
    ensures err { OnErr result (rooms.new ≡ rooms.old) }
{
    match who {
        Actor::Thread(thread) => turn_of_thread(alloc, rooms, thread),
        Actor::Engine(engine) => turn_of_engine(alloc, rooms, engine),
        Actor::Reaper => reap_first(rooms),
    }
}
