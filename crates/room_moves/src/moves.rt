ghost use Rattle.std.specs.Prelude.{◌≡◌, ◌∷◌, ◌++◌, [], OnOk, OnErr};
ghost use Rattle.ttm_base.specs.declared.Actor.TheVariants as actor;
ghost use Rattle.journal_model.specs.declared.entry.Kind.TheVariants as kind;
ghost use Rattle.journal_model.specs.rules.ApplyMoves.{last_ghost_left};
ghost use Rattle.journal_model.specs.rules.Legal.{IsLegalNext, world_of};
ghost use Rattle.room_representation.specs.Held.{AreHeld};
ghost use Rattle.room_representation.specs.Nexts.{Next};

use crate::ghosts::ghost_left;
use crate::managers::{carry_spans, keep_move_fence};
use crate::mappings::map_target;
use crate::packets::move_packets;
use crate::starts::{start_job, waits_of};
use journal_model::Left;
use room_pages::binding::relist;
use room_representation::Parts;
use std::alloc::Global;
use ttm_base::{BufId, JobId, Mem, NoMemory, Usage};

/// The context of the move engine.
const MOVES: u32 = 0;

/// Returns the number of the last ghost after a move, where `before` was the last.
fn last_ghost(left: Left, before: u64) -> u64
    ensures { result ≡ last_ghost_left left before }
{
    match left {
        Left::Now => before,
        Left::Ghost(num) => num,
    }
}

/// Moves buffer `b` to its target in `mem`: job `num` of the move engine copies each page, and the buffer stands there at once. What it leaves is
/// free after the move fence, or a ghost's until the job is done.
pub fn move_buffer(
    parts: &mut Parts,
    alloc: Global,
    thread: u32,
    b: BufId,
    mem: Mem,
    num: u64,
    left: Left,
) -> Result<(), NoMemory>
    ghost w: { Next }
    requires held { AreHeld w.script w.before parts.old }
    requires is { w.entry ≡ record { who = actor.Thread thread; kind = kind.Move b mem num left } }
    requires next { IsLegalNext w.script (world_of w.script w.before) w.entry }
    ensures ok { OnOk result (AreHeld w.script (w.before ++ w.entry ∷ []) parts.new) }
    ensures err { OnErr result (AreHeld w.script w.before parts.new) }
{
    parts.lru.members_stand_once();
    let job = JobId { ctx: MOVES, num };
    let contexts = parts.timeline.contexts();
    let bo = parts.bos.get(b);
    let packets = move_packets(alloc, bo, mem)?;
    let waits = waits_of(alloc, contexts, bo)?;
    let ghost_object = ghost_left(alloc, contexts, bo, job, left)?;
    start_job(
        &mut parts.rings,
        &mut parts.ghosts,
        job,
        waits,
        packets,
        ghost_object,
    )?;
    map_target(&mut parts.stores.aper, bo, mem);
    let _emitted = parts.timeline.emit(MOVES);
    carry_spans(&mut parts.vram, Mem::Vram, mem, b, left);
    carry_spans(&mut parts.tt, Mem::Tt, mem, b, left);
    keep_move_fence(&mut parts.vram, job, left);
    parts.bos.carry(b, mem);
    parts.bos.add_fence(b, job, Usage::Kernel);
    relist(&mut parts.lru, b, mem);
    parts.last_ghost = last_ghost(left, parts.last_ghost);
    Ok(())
}
