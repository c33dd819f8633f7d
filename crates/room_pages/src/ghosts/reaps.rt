ghost use Rattle.std.specs.Prelude.{◌≡◌, ◌∷◌, ◌++◌, []};
ghost use Rattle.ttm_base.specs.declared.Actor.TheVariants as actor;
ghost use Rattle.journal_model.specs.declared.entry.Kind.TheVariants as kind;
ghost use Rattle.journal_model.specs.rules.Legal.{IsLegalNext, world_of};
ghost use Rattle.room_representation.specs.Held.{AreHeld};
ghost use Rattle.room_representation.specs.Nexts.{Next};

use crate::binding::{give_back, give_mapped};
use crate::ghosts::pages::give_all;
use room_representation::Parts;
use ttm_base::Owner;

/// Destroys the first ghost: all that it has is free, and its pages of TT are no longer mapped.
pub fn reap(parts: &mut Parts, g: u64)
    ghost w: { Next }
    requires held { AreHeld w.script w.before parts.old }
    requires is { w.entry ≡ record { who = actor.Reaper; kind = kind.Reap g } }
    requires next { IsLegalNext w.script (world_of w.script w.before) w.entry }
    ensures { AreHeld w.script (w.before ++ w.entry ∷ []) parts.new }
{
    give_back(&mut parts.vram, Owner::Ghost(g));
    give_mapped(&mut parts.stores.aper, &mut parts.tt, Owner::Ghost(g));
    give_all(&mut parts.pool, parts.ghosts.get(0).frames.items());
    parts.ghosts.drop_first();
}
