//! What an engine does with the job at the head of its context (drm_sched's run_job and the device behind it): it runs packet after packet, and
//! then the job ends.
ghost use Rattle.std.specs.Prelude.{◌≡◌, ◌≤◌, IfOk, OnOk, OnErr};
ghost use Rattle.ttm_base.specs.declared.Actor.TheVariants as actor;
ghost use Rattle.room_queries.specs.Heads.{head_piece};
ghost use Rattle.room_state.specs.turns.Turns.{state_behind, world_behind};
ghost use Rattle.room_state.specs.turns.Acting.{made_unless};
ghost use Rattle.room_state.specs.turns.Turns.{after_step, entry_by, entry_of, step_of};
ghost use Rattle.room_device.specs.Needs.{engine_needs};

use copy_packet::ProbeBytes;
use journal_model::{Bytes, Kind};
use room_state::turns::{Rooms, Step, turn};
use std::alloc::Global;
use ttm_base::{Actor, Need, NoMemory};

/// Returns the bytes that the next packet of the head of `engine` shows.
fn shown_next(alloc: Global, rooms: &Rooms, engine: u32) -> Result<Bytes, NoMemory>
    requires { engine ≤ rooms.now.script.sizes.engines }
    ensures { IfOk result (λ bytes. bytes ≡ head_piece (world_behind rooms.now) engine) }
{
    let mut seen = ProbeBytes::new(alloc)?;
    rooms.probe(engine, &mut seen);
    let mut bytes = Bytes::new(alloc);
    bytes.extend(seen.bytes())?;
    Ok(bytes)
}

/// Returns the entry that runs the head's next packet, once what the job waits for is done; after the last packet, the entry that ends the job.
fn next_of_head(alloc: Global, rooms: &Rooms, engine: u32) -> Result<Result<Kind, Need>, NoMemory>
    requires { engine ≤ rooms.now.script.sizes.engines }
    ensures { IfOk result (λ next. entry_of rooms.now (actor.Engine engine) ≡ entry_by (actor.Engine engine) next) }
{
    let Some(head) = rooms.head(engine) else {
        return Ok(Err(Need::NoJob));
    };
    let num = head.num;
    let Some(k) = rooms.head_packet(engine) else {
        return Ok(Ok(Kind::Done { num }));
    };
    if let Some(job) = rooms.head_need(engine) {
        return Ok(Err(Need::Fence(job)));
    }
    let piece = shown_next(alloc, rooms, engine)?;
    Ok(Ok(Kind::Packet { num, k, piece }))
}

/// Makes the next entry of the engine of a context, with the first job of it that isn't done: a packet runs, or the job ends after its last one.
/// Context 0 is that of moves.
///
/// # Errors
///
/// Lack of memory; nothing is changed.
pub(crate) fn run(alloc: Global, rooms: &mut Rooms, engine: u32) -> Result<Step, NoMemory>
    requires { engine ≤ rooms.old.script.sizes.engines }
    ensures step { IfOk result (λ step. step ≡ step_of (entry_of rooms.old (actor.Engine engine))) }
    ensures waits { IfOk result (λ step. step ≡ made_unless (engine_needs (state_behind rooms.old) engine)) }
    ensures made { OnOk result (rooms.new ≡ after_step rooms.old (entry_of rooms.old (actor.Engine engine))) }
    ensures err { OnErr result (rooms.new ≡ rooms.old) }
{
    let next = next_of_head(alloc, rooms, engine)?;
    turn(rooms, Actor::Engine(engine), next)
}
