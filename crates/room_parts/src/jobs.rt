ghost use Rattle.std.specs.Prelude.{◌≡◌, ◌∷◌, ◌++◌, [], OnOk, OnErr};
ghost use Rattle.ttm_base.specs.declared.Actor.TheVariants as actor;
ghost use Rattle.journal_model.specs.declared.entry.Kind.TheVariants as kind;
ghost use Rattle.journal_model.specs.rules.Legal.{IsLegalNext, world_of};
ghost use Rattle.room_representation.specs.Held.{AreHeld};
ghost use Rattle.room_representation.specs.Nexts.{Next};

use copy_packet::ProbeBytes;
use room_representation::Parts;
use std::alloc::Global;
use ttm_base::NoMemory;

/// Marks job `num` of context `ctx` as done: it leaves its ring, and the timeline counts it.
pub fn done(parts: &mut Parts, ctx: u32, num: u64)
    ghost w: { Next }
    requires held { AreHeld w.script w.before parts.old }
    requires is { w.entry ≡ record { who = actor.Engine ctx; kind = kind.Done num } }
    requires next { IsLegalNext w.script (world_of w.script w.before) w.entry }
    ensures { AreHeld w.script (w.before ++ w.entry ∷ []) parts.new }
{
    parts.rings.finish(ctx);
    parts.timeline.done(ctx);
}

/// Runs the next packet, `k`, of the head of context `ctx`. What a probe shows is in the entry already.
pub fn packet(
    parts: &mut Parts,
    alloc: Global,
    ctx: u32,
    num: u64,
    k: u32,
    piece: &[u8],
) -> Result<(), NoMemory>
    ghost w: { Next }
    requires held { AreHeld w.script w.before parts.old }
    requires is { w.entry ≡ record { who = actor.Engine ctx; kind = kind.Packet num k piece.now } }
    requires next { IsLegalNext w.script (world_of w.script w.before) w.entry }
    ensures ok { OnOk result (AreHeld w.script (w.before ++ w.entry ∷ []) parts.new) }
    ensures err { OnErr result (AreHeld w.script w.before parts.new) }
{
    let mut out = ProbeBytes::new(alloc)?;
    let _ = parts.rings.run_next(ctx, &mut parts.stores, &mut out);
    Ok(())
}
