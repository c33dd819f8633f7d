ghost use Rattle.std.specs.Prelude.{◌≡◌, ◌∷◌, ◌++◌, [], Some, OnOk, OnErr};
ghost use Rattle.ttm_base.specs.declared.Actor.TheVariants as actor;
ghost use Rattle.ttm_base.specs.declared.Mem.TheVariants.{Tt as InTt, Vram as InVram};
ghost use Rattle.ttm_base.specs.declared.JobId.{JobId as Id};
ghost use Rattle.ttm_base.specs.declared.Owner.TheVariants as owner;
ghost use Rattle.journal_model.specs.declared.entry.Kind.TheVariants as kind;
ghost use Rattle.journal_model.specs.rules.Legal.{IsLegalNext, world_of};
ghost use Rattle.resource_core.specs.Vram.{spans_of_kind};
ghost use Rattle.room_representation.specs.lemma_spans.Calls.{taken, untaken};
ghost use Rattle.room_parts.specs.Takes.{CanHold};
ghost use Rattle.room_representation.specs.Held.{AreHeld};
ghost use Rattle.room_representation.specs.Nexts.{Next};
ghost use Rattle.room_parts.specs.MoveSets.{with_move_fence, CanJoin};

use bo_table::BoTable;
use fence_core::Timeline;
use resource_core::{Manager, RangeRoom, VramRoom};
use room_representation::Parts;
use room_representation::steps::end_search;
use ttm_base::{BufId, JobId, Mem, NoMemory, Owner, Spans, Usage};

/// Gives the target of buffer `b` back to VRAM, if it is there.
fn give_vram(room: &mut VramRoom, b: BufId, mem: Mem)
    ensures held { room.new.resources ≡ untaken InVram mem b room.old.resources }
    ensures rule { spans_of_kind room.new.kind ≡ spans_of_kind room.old.kind }
{
    let held = room.holds(Owner::Target(b));
    if mem == Mem::Vram && held {
        room.give(Owner::Target(b));
    }
}

/// Gives the target of buffer `b` back to TT, if it is there.
fn give_tt(room: &mut RangeRoom, b: BufId, mem: Mem)
    ensures { room.new ≡ untaken InTt mem b room.old }
{
    let held = room.holds(Owner::Target(b));
    if mem == Mem::Tt && held {
        room.give(Owner::Target(b));
    }
}

/// Gives the target of buffer `b` in `mem` back, since its search failed further on.
pub fn untake(parts: &mut Parts, thread: u32, b: BufId, mem: Mem)
    ghost w: { Next }
    requires held { AreHeld w.script w.before parts.old }
    requires is { w.entry ≡ record { who = actor.Thread thread; kind = kind.Untake b mem } }
    requires next { IsLegalNext w.script (world_of w.script w.before) w.entry }
    ensures { AreHeld w.script (w.before ++ w.entry ∷ []) parts.new }
{
    give_vram(&mut parts.vram, b, mem);
    give_tt(&mut parts.tt, b, mem);
    parts.bos.set_target(b, mem, None);
}

/// Lets the manager of the memory type `mem` hold `spans` for the target of buffer `b`. SYSTEM has no manager.
fn hold_target(
    vram: &mut VramRoom,
    tt: &mut RangeRoom,
    b: BufId,
    mem: Mem,
    spans: &Spans,
) -> Result<(), NoMemory>
    requires vram { mem ≡ InVram → CanHold (owner.Target b) spans.now vram.old.resources }
    requires tt { mem ≡ InTt → CanHold (owner.Target b) spans.now tt.old }
    ensures vram { OnOk result (vram.new.resources ≡ taken InVram mem b spans.now vram.old.resources) }
    ensures tt { OnOk result (tt.new ≡ taken InTt mem b spans.now tt.old) }
    ensures rule { spans_of_kind vram.new.kind ≡ spans_of_kind vram.old.kind }
    ensures same_vram { OnErr result (vram.new.resources ≡ vram.old.resources) }
    ensures same_tt { OnErr result (tt.new ≡ tt.old) }
{
    match mem {
        Mem::Vram => vram.hold(Owner::Target(b), spans),
        Mem::Tt => tt.hold(Owner::Target(b), spans),
        Mem::System => Ok(()),
    }
}

/// Adds the move fence to the fences of buffer `b`, where its target is in VRAM and the fence isn't signalled.
fn add_move_fence(bos: &mut BoTable, b: BufId, mem: Mem, timeline: &Timeline, fence: Option<JobId>)
    requires { (i : Id) → fence ≡ Some i → CanJoin timeline.now bos.old.fences b i }
    ensures { bos.new ≡ record bos.old { fences = with_move_fence mem timeline.now fence bos.old.fences b } }
{
    let Some(job) = fence else {
        return;
    };
    let signalled = timeline.signalled(job);
    if mem == Mem::Vram && !signalled {
        bos.add_fence(b, job, Usage::Kernel);
    }
}

/// Takes the pages `spans`, which were found for buffer `b`, as its target in the memory type `mem`.
pub fn take(
    parts: &mut Parts,
    thread: u32,
    b: BufId,
    mem: Mem,
    spans: &Spans,
) -> Result<(), NoMemory>
    ghost w: { Next }
    requires held { AreHeld w.script w.before parts.old }
    requires is { w.entry ≡ record { who = actor.Thread thread; kind = kind.Take b mem spans.now } }
    requires next { IsLegalNext w.script (world_of w.script w.before) w.entry }
    ensures ok { OnOk result (AreHeld w.script (w.before ++ w.entry ∷ []) parts.new) }
    ensures err { OnErr result (AreHeld w.script w.before parts.new) }
{
    let target = spans.copy()?;
    hold_target(&mut parts.vram, &mut parts.tt, b, mem, spans)?;
    parts.bos.set_target(b, mem, Some(target));
    let fence = parts.vram.move_fence();
    add_move_fence(&mut parts.bos, b, mem, &parts.timeline, fence);
    end_search(&mut parts.courses, thread, b);
    Ok(())
}
