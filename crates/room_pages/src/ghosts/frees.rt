ghost use Rattle.std.specs.Prelude.{◌≡◌, ◌∷◌, ◌++◌, [], OnOk, OnErr};
ghost use Rattle.ttm_base.specs.declared.Actor.TheVariants as actor;
ghost use Rattle.journal_model.specs.declared.entry.Kind.TheVariants as kind;
ghost use Rattle.journal_model.specs.rules.Legal.{IsLegalNext, world_of};
ghost use Rattle.room_representation.specs.Held.{AreHeld};
ghost use Rattle.room_representation.specs.Nexts.{Next};
ghost use Rattle.room_pages.specs.ghosts.Leaving.{off_list};

use crate::binding::{give_back, give_mapped, pass_on};
use crate::ghosts::courses::has_freed;
use crate::ghosts::leaving::ghost_of;
use crate::ghosts::pages::drop_slots;
use crate::give_frames;
use lru_bulk::Lru;
use room_representation::Parts;
use std::alloc::Global;
use ttm_base::{BufId, NoMemory, Owner};

/// Takes buffer `b` off its list, if it is on one.
fn take_off(lru: &mut Lru, b: BufId)
    ensures { lru.new ≡ off_list lru.old b }
{
    if lru.is_listed(b) {
        lru.remove(b);
    }
}

/// Frees buffer `b`, whose jobs are done: all that it has is free, and its pages of TT are no longer mapped.
fn free_idle(parts: &mut Parts, thread: u32, b: BufId)
    ghost w: { Next }
    requires held { AreHeld w.script w.before parts.old }
    requires is { w.entry ≡ record { who = actor.Thread thread; kind = kind.Free b 0 } }
    requires next { IsLegalNext w.script (world_of w.script w.before) w.entry }
    ensures { AreHeld w.script (w.before ++ w.entry ∷ []) parts.new }
{
    parts.lru.members_stand_once();
    let bo = parts.bos.get(b);
    give_back(&mut parts.vram, Owner::Live(b));
    give_mapped(&mut parts.stores.aper, &mut parts.tt, Owner::Live(b));
    give_frames(&mut parts.pool, bo.table.places());
    drop_slots(&mut parts.swap, bo.table.places());
    parts.bos.kill(b);
    take_off(&mut parts.lru, b);
    has_freed(&mut parts.courses, thread, b);
}

/// Frees buffer `b`. Where jobs still use it, ghost number `g` takes over its spans and frames, which stay mapped, and its jobs; else `g` is 0.
pub fn free(parts: &mut Parts, alloc: Global, thread: u32, b: BufId, g: u64) -> Result<(), NoMemory>
    ghost w: { Next }
    requires held { AreHeld w.script w.before parts.old }
    requires is { w.entry ≡ record { who = actor.Thread thread; kind = kind.Free b g } }
    requires next { IsLegalNext w.script (world_of w.script w.before) w.entry }
    ensures ok { OnOk result (AreHeld w.script (w.before ++ w.entry ∷ []) parts.new) }
    ensures err { OnErr result (AreHeld w.script w.before parts.new) }
{
    if g == 0 {
        free_idle(parts, thread, b);
        return Ok(());
    }
    parts.lru.members_stand_once();
    let bo = parts.bos.get(b);
    let left = ghost_of(alloc, bo, g)?;
    parts.ghosts.push(left)?;
    pass_on(&mut parts.vram, Owner::Live(b), Owner::Ghost(g));
    pass_on(&mut parts.tt, Owner::Live(b), Owner::Ghost(g));
    drop_slots(&mut parts.swap, bo.table.places());
    parts.bos.kill(b);
    take_off(&mut parts.lru, b);
    has_freed(&mut parts.courses, thread, b);
    parts.last_ghost = g;
    Ok(())
}
