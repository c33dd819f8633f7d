ghost use Rattle.std.specs.Prelude.{◌≡◌, ◌∷◌, ◌++◌, [], OnOk, OnErr};
ghost use Rattle.ttm_base.specs.declared.Actor.TheVariants as actor;
ghost use Rattle.journal_model.specs.declared.entry.Kind.TheVariants as kind;
ghost use Rattle.journal_model.specs.rules.Legal.{IsLegalNext, world_of};
ghost use Rattle.room_representation.specs.Held.{AreHeld};
ghost use Rattle.room_representation.specs.Nexts.{Next};

use crate::packets::packets_of;
use crate::uses::{add_uses, waits_at};
use crate::work::command_at_work;
use journal_model::Script;
use room_representation::Parts;
use room_representation::steps::has_made;
use state_words::{named_in, ops_of};
use std::alloc::Global;
use ttm_base::{JobId, NoMemory};

/// Emits the job number `num` of the command of `thread` on `engine`: its packets name the pages of its buffers as they stand now, it waits for jobs
/// that use these buffers, and it becomes one of them.
pub fn arm(
    parts: &mut Parts,
    alloc: Global,
    script: &Script,
    thread: u32,
    engine: u32,
    num: u64,
) -> Result<(), NoMemory>
    ghost w: { Next }
    requires held { AreHeld script.now w.before parts.old }
    requires is { w.entry ≡ record { who = actor.Thread thread; kind = kind.Arm engine num } }
    requires next { IsLegalNext script.now (world_of script.now w.before) w.entry }
    ensures ok { OnOk result (AreHeld script.now (w.before ++ w.entry ∷ []) parts.new) }
    ensures err { OnErr result (AreHeld script.now w.before parts.new) }
{
    let command = command_at_work(script, &parts.courses, thread);
    let ops = ops_of(command);
    let bs = named_in(command);
    let waits = waits_at(alloc, &parts.bos, parts.timeline.contexts(), ops, bs)?;
    let packets = packets_of(alloc, &parts.bos, ops)?;
    let job = JobId { ctx: engine, num };
    parts.rings.push(job, waits, packets)?;
    let _emitted = parts.timeline.emit(engine);
    add_uses(&mut parts.bos, job, ops, bs);
    has_made(&mut parts.courses, thread);
    Ok(())
}
