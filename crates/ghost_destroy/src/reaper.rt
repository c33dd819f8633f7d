ghost use Rattle.std.specs.Prelude.{◌≡◌, IfOk, OnOk, OnErr};
ghost use Rattle.ttm_base.specs.declared.Actor.TheVariants as actor;
ghost use Rattle.journal_model.specs.rules.Next.{step_of_reaper};
ghost use Rattle.room_state.specs.turns.Turns.{state_behind};
ghost use Rattle.room_state.specs.turns.Acting.{made_unless};
ghost use Rattle.room_state.specs.turns.Turns.{after_step, entry_of, step_of};
ghost use Rattle.ghost_destroy.specs.Ends.{reaper_needs};

use journal_model::Kind;
use room_state::turns::{Rooms, Step, turn};
use ttm_base::{Actor, Need, NoMemory};

/// Returns the entry that ends the first ghost, once the job that it waits for is done; until then, that job.
fn next_end(rooms: &Rooms) -> Result<Kind, Need>
    ensures { result ≡ step_of_reaper (state_behind rooms.now) }
{
    match (rooms.first_ghost(), rooms.ghost_need(0)) {
        (None, _) => Err(Need::NoGhost),
        (Some(_), Some(job)) => Err(Need::Fence(job)),
        (Some(g), None) => Ok(Kind::Reap { g }),
    }
}

/// Ends the first ghost, which is the oldest: what it holds is free again (ttm_bo_delayed_delete).
///
/// # Errors
///
/// Lack of memory; nothing is changed.
pub fn reap_first(rooms: &mut Rooms) -> Result<Step, NoMemory>
    ensures step { IfOk result (λ step. step ≡ step_of (entry_of rooms.old actor.Reaper)) }
    ensures waits { IfOk result (λ step. step ≡ made_unless (reaper_needs (state_behind rooms.old))) }
    ensures made { OnOk result (rooms.new ≡ after_step rooms.old (entry_of rooms.old actor.Reaper)) }
    ensures err { OnErr result (rooms.new ≡ rooms.old) }
{
    let next = next_end(rooms);
    turn(rooms, Actor::Reaper, next)
}
