ghost use Rattle.std.specs.Prelude.{◌≡◌, false};
ghost use Rattle.resource_core.specs.Resources.{holds};
ghost use Rattle.room_representation.specs.lemma_spans.Calls.{given, passed_on};

use resource_core::Manager;
use ttm_base::Owner;

/// Makes the spans of the owner `from`, if it holds some, those of `to`, which holds none.
pub fn pass_on<M: Manager>(room: &mut M, from: Owner, to: Owner)
    requires { holds to (M.resources room.old).held ≡ false }
    ensures held { M.resources room.new ≡ passed_on from to (M.resources room.old) }
    ensures rule { M.choice room.new ≡ M.choice room.old }
{
    if room.holds(from) {
        room.pass(from, to);
    }
}

/// Frees the spans of `owner`, if it holds some.
pub fn give_back<M: Manager>(room: &mut M, owner: Owner)
    ensures held { M.resources room.new ≡ given owner (M.resources room.old) }
    ensures rule { M.choice room.new ≡ M.choice room.old }
{
    if room.holds(owner) {
        room.give(owner);
    }
}
