ghost use Rattle.std.specs.Prelude.{◌≡◌, ◌∷◌, ◌++◌, [], OnOk, OnErr};
ghost use Rattle.ttm_base.specs.declared.Actor.TheVariants as actor;
ghost use Rattle.journal_model.specs.declared.entry.Kind.TheVariants as kind;
ghost use Rattle.journal_model.specs.rules.Legal.{IsLegalNext, world_of};
ghost use Rattle.room_representation.specs.Held.{AreHeld};
ghost use Rattle.room_representation.specs.Nexts.{Next};

use room_representation::Parts;
use room_representation::steps::{
    begin_anew, give_ticket, go_on, held_by, hold, hold_for, release_all, stamp_of,
};
use std::alloc::Global;
use ttm_base::{BufId, Deny, NoMemory, Stamp};

/// Draws a ticket for the command of `thread`.
pub fn ticket(parts: &mut Parts, thread: u32, stamp: Stamp)
    ghost w: { Next }
    requires held { AreHeld w.script w.before parts.old }
    requires is { w.entry ≡ record { who = actor.Thread thread; kind = kind.Ticket stamp } }
    requires next { IsLegalNext w.script (world_of w.script w.before) w.entry }
    ensures { AreHeld w.script (w.before ++ w.entry ∷ []) parts.new }
{
    let drawn = parts.tickets.draw();
    give_ticket(&mut parts.courses, thread, drawn);
}

/// Reserves buffer `b` for the ticket of `thread`.
pub fn reserve(parts: &mut Parts, thread: u32, b: BufId) -> Result<(), NoMemory>
    ghost w: { Next }
    requires held { AreHeld w.script w.before parts.old }
    requires is { w.entry ≡ record { who = actor.Thread thread; kind = kind.Reserve b } }
    requires next { IsLegalNext w.script (world_of w.script w.before) w.entry }
    ensures ok { OnOk result (AreHeld w.script (w.before ++ w.entry ∷ []) parts.new) }
    ensures err { OnErr result (AreHeld w.script w.before parts.new) }
{
    let stamp = stamp_of(&parts.courses, thread);
    hold(&mut parts.courses, thread, b)?;
    hold_for(&mut parts.bos, b, stamp);
    Ok(())
}

/// Releases all that `thread` holds, since the holder of buffer `b`, which it wants, is older. Its ticket stays.
pub fn back_off(parts: &mut Parts, thread: u32, b: BufId, holder: Stamp)
    ghost w: { Next }
    requires held { AreHeld w.script w.before parts.old }
    requires is { w.entry ≡ record { who = actor.Thread thread; kind = kind.Backoff b holder } }
    requires next { IsLegalNext w.script (world_of w.script w.before) w.entry }
    ensures { AreHeld w.script (w.before ++ w.entry ∷ []) parts.new }
{
    let held = held_by(&parts.courses, thread);
    release_all(&mut parts.bos, held);
    begin_anew(&mut parts.courses, thread, b);
}

/// Refuses the command of `thread`: it releases its buffers, which keep their places in the lists.
pub fn refuse(parts: &mut Parts, alloc: Global, thread: u32, deny: Deny)
    ghost w: { Next }
    requires held { AreHeld w.script w.before parts.old }
    requires is { w.entry ≡ record { who = actor.Thread thread; kind = kind.Refused deny } }
    requires next { IsLegalNext w.script (world_of w.script w.before) w.entry }
    ensures { AreHeld w.script (w.before ++ w.entry ∷ []) parts.new }
{
    let held = held_by(&parts.courses, thread);
    release_all(&mut parts.bos, held);
    go_on(&mut parts.courses, alloc, thread);
}
