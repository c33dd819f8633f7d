ghost use Rattle.std.specs.Prelude.{◌≡◌};
ghost use Rattle.journal_model.specs.rules.State as state;
ghost use Rattle.room_state.specs.turns.Turns.{state_behind};

use room_state::turns::Rooms;
use ttm_base::{BufId, Stamp};

/// Returns whether buffer `b` is live.
pub(crate) fn is_live(rooms: &Rooms, b: BufId) -> bool
    ensures { result ≡ state.is_live (state_behind rooms.now) b }
{
    let bos = &rooms.parts().bos;
    if (b.0 as usize) < bos.len() {
        bos.get(b).alive
    } else {
        false
    }
}

/// Returns the ticket that holds buffer `b`, or None where it has no holder.
pub(crate) fn holder_of(rooms: &Rooms, b: BufId) -> Option<Stamp>
    ensures { result ≡ (state.reservation (state_behind rooms.now) b).holder }
{
    let bos = &rooms.parts().bos;
    if (b.0 as usize) < bos.len() {
        bos.get(b).resv.holder()
    } else {
        None
    }
}
