ghost use Rattle.std.specs.Prelude.{◌≡◌, IfOk, OnOk, OnErr};
ghost use Rattle.ttm_base.specs.declared.Actor.TheVariants as actor;
ghost use Rattle.room_state.specs.turns.Acting.{entry_by};
ghost use Rattle.room_state.specs.turns.Turns.{after_step, entry_of, step_of};

use journal_model::Kind;
use room_state::turns::{Rooms, Step, make};
use ttm_base::{Actor, Need, NoMemory};

/// The next entry of a thread, or what it needs first.
pub(crate) type Next = Result<Kind, Need>;

/// Makes the next entry of `thread`, or returns what it needs first.
pub(crate) fn enact(rooms: &mut Rooms, thread: u32, next: Next) -> Result<Step, NoMemory>
    requires { entry_of rooms.old (actor.Thread thread) ≡ entry_by thread next }
    ensures step { IfOk result (λ step. step ≡ step_of (entry_of rooms.old (actor.Thread thread))) }
    ensures made { OnOk result (rooms.new ≡ after_step rooms.old (entry_of rooms.old (actor.Thread thread))) }
    ensures err { OnErr result (rooms.new ≡ rooms.old) }
{
    match next {
        Ok(kind) => make(rooms, Actor::Thread(thread), kind),
        Err(need) => Ok(Step::Need(need)),
    }
}
