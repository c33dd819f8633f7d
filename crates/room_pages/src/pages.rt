ghost use Rattle.std.specs.Prelude.{◌≡◌, ◌∷◌, ◌++◌, []};
ghost use Rattle.ttm_base.specs.declared.Actor.TheVariants as actor;
ghost use Rattle.journal_model.specs.declared.entry.Kind.TheVariants as kind;
ghost use Rattle.journal_model.specs.rules.Legal.{IsLegalNext, world_of};
ghost use Rattle.room_representation.specs.Held.{AreHeld};
ghost use Rattle.room_representation.specs.Nexts.{Next};

use crate::frames::{frame_of_page, give_frames};
use byte_store::PAGE;
use room_representation::Parts;
use ttm_base::{BufId, Loc};

/// Gives back the frames of buffer `b`, which stands in VRAM, since its bytes aren't in them.
pub fn depopulate(parts: &mut Parts, thread: u32, b: BufId)
    ghost w: { Next }
    requires held { AreHeld w.script w.before parts.old }
    requires is { w.entry ≡ record { who = actor.Thread thread; kind = kind.Depopulate b } }
    requires next { IsLegalNext w.script (world_of w.script w.before) w.entry }
    ensures { AreHeld w.script (w.before ++ w.entry ∷ []) parts.new }
{
    let bo = parts.bos.get(b);
    give_frames(&mut parts.pool, bo.table.places());
    parts.bos.drop_frames(b);
}

/// Copies page `page` of buffer `b` from its frame to the lowest free slot, and frees the frame.
pub fn swap_out(parts: &mut Parts, thread: u32, b: BufId, page: u32, slot: u32)
    ghost w: { Next }
    requires held { AreHeld w.script w.before parts.old }
    requires is { w.entry ≡ record { who = actor.Thread thread; kind = kind.SwapOut b page slot } }
    requires next { IsLegalNext w.script (world_of w.script w.before) w.entry }
    ensures { AreHeld w.script (w.before ++ w.entry ∷ []) parts.new }
{
    let bo = parts.bos.get(b);
    let frame = frame_of_page(bo.table.places(), page);
    let bytes = parts.stores.frames.part(PAGE * frame as u64, PAGE);
    let _taken = parts.swap.put(bytes);
    parts.pool.give(frame);
    parts.bos.set_page(b, page, Loc::Slot(slot));
}
