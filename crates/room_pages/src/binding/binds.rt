ghost use Rattle.std.specs.Prelude.{◌≡◌, ◌∷◌, ◌++◌, []};
ghost use Rattle.ttm_base.specs.declared.Actor.TheVariants as actor;
ghost use Rattle.journal_model.specs.declared.entry.Kind.TheVariants as kind;
ghost use Rattle.journal_model.specs.rules.Legal.{IsLegalNext, world_of};
ghost use Rattle.lru_bulk.specs.Lists.{relisted};
ghost use Rattle.room_representation.specs.Held.{AreHeld};
ghost use Rattle.room_representation.specs.Nexts.{Next};

use crate::binding::apertures::{give_mapped, map_target};
use lru_bulk::Lru;
use room_representation::Parts;
use ttm_base::{BufId, Mem, Owner};

/// Moves buffer `b` to the list of the memory type `mem`, if it is on a list.
pub fn relist(lru: &mut Lru, b: BufId, mem: Mem)
    ensures { lru.new ≡ relisted lru.old b mem }
{
    if lru.is_listed(b) {
        lru.relist(b, mem);
    }
}

/// Moves buffer `b` from SYSTEM to its target in TT: its frames stay, and are mapped there.
pub fn bind(parts: &mut Parts, thread: u32, b: BufId)
    ghost w: { Next }
    requires held { AreHeld w.script w.before parts.old }
    requires is { w.entry ≡ record { who = actor.Thread thread; kind = kind.Bind b } }
    requires next { IsLegalNext w.script (world_of w.script w.before) w.entry }
    ensures { AreHeld w.script (w.before ++ w.entry ∷ []) parts.new }
{
    parts.lru.members_stand_once();
    let bo = parts.bos.get(b);
    map_target(&mut parts.stores.aper, &mut parts.tt, b, bo.table.places());
    parts.bos.bind(b);
    relist(&mut parts.lru, b, Mem::Tt);
}

/// Moves buffer `b` from TT to SYSTEM: its frames stay, and its pages of TT are free.
pub fn unbind(parts: &mut Parts, thread: u32, b: BufId)
    ghost w: { Next }
    requires held { AreHeld w.script w.before parts.old }
    requires is { w.entry ≡ record { who = actor.Thread thread; kind = kind.Unbind b } }
    requires next { IsLegalNext w.script (world_of w.script w.before) w.entry }
    ensures { AreHeld w.script (w.before ++ w.entry ∷ []) parts.new }
{
    parts.lru.members_stand_once();
    give_mapped(&mut parts.stores.aper, &mut parts.tt, Owner::Live(b));
    parts.bos.unbind(b);
    relist(&mut parts.lru, b, Mem::System);
}
