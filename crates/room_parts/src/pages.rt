ghost use Rattle.std.specs.Prelude.{◌≡◌, ◌∷◌, ◌++◌, []};
ghost use Rattle.ttm_base.specs.declared.Actor.TheVariants as actor;
ghost use Rattle.journal_model.specs.declared.entry.Kind.TheVariants as kind;
ghost use Rattle.journal_model.specs.rules.Legal.{IsLegalNext, world_of};
ghost use Rattle.room_representation.specs.Held.{AreHeld};
ghost use Rattle.room_representation.specs.Nexts.{Next};

use byte_store::PAGE;
use room_representation::Parts;
use ttm_base::{BufId, Loc};

/// Gives page `page` of buffer `b`, which was never written, a frame of zeros: the lowest free one, `frame`.
pub fn populate(parts: &mut Parts, thread: u32, b: BufId, page: u32, frame: u32)
    ghost w: { Next }
    requires held { AreHeld w.script w.before parts.old }
    requires is { w.entry ≡ record { who = actor.Thread thread; kind = kind.Populate b page frame } }
    requires next { IsLegalNext w.script (world_of w.script w.before) w.entry }
    ensures { AreHeld w.script (w.before ++ w.entry ∷ []) parts.new }
{
    let _taken = parts.pool.take();
    parts.stores.frames.zero_page(frame);
    parts.bos.set_page(b, page, Loc::Frame(frame));
}

/// Brings page `page` of buffer `b` back from its swap slot into the lowest free frame, and frees the slot.
pub fn swap_in(parts: &mut Parts, thread: u32, b: BufId, page: u32, slot: u32, frame: u32)
    ghost w: { Next }
    requires held { AreHeld w.script w.before parts.old }
    requires is { w.entry ≡ record { who = actor.Thread thread; kind = kind.SwapIn b page slot frame } }
    requires next { IsLegalNext w.script (world_of w.script w.before) w.entry }
    ensures { AreHeld w.script (w.before ++ w.entry ∷ []) parts.new }
{
    let _taken = parts.pool.take();
    let bytes = parts.swap.page(slot);
    parts
        .stores
        .frames
        .copy_page_part(PAGE * frame as u64, bytes);
    parts.swap.drop_slot(slot);
    parts.bos.set_page(b, page, Loc::Frame(frame));
}
