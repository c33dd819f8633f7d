ghost use Rattle.std.specs.Prelude.{◌≡◌, ◌^◌, ◌<◌, ◌++◌, IfOk, OnOk, OnErr, length, option_to_list, replicate};
ghost use Rattle.ttm_base.specs.declared.Usage.TheVariants as usage;
ghost use Rattle.fence_core.specs.Fences.{all_added, nothing_kept};
ghost use Rattle.copy_engine.specs.Pushes.{with_pushed};

use bo_table::Bo;
use copy_engine::Rings;
use fence_core::FenceSet;
use room_representation::{Ghost, Ghosts};
use std::alloc::Global;
use ttm_base::{JobId, NoMemory, Packet, Usage};

/// Returns the set of all jobs that use the buffer `bo`: a move waits for each of them.
pub(crate) fn waits_of(alloc: Global, contexts: u32, bo: &Bo) -> Result<FenceSet, NoMemory>
    requires { length bo.now.resv.fences ≡ contexts }
    ensures { IfOk result (λ set. set ≡ all_added usage.Read (replicate contexts nothing_kept) bo.now.resv.fences) }
{
    let mut waits = FenceSet::new(alloc, contexts)?;
    waits.add_all(bo.resv.fences(), Usage::Read);
    Ok(waits)
}

/// Appends a ghost, if there is one, to the others.
fn push_ghost(ghosts: &mut Ghosts, ghost_object: Option<Ghost>) -> Result<(), NoMemory>
    ensures ok { OnOk result (ghosts.new ≡ ghosts.old ++ option_to_list ghost_object) }
    ensures err { OnErr result (ghosts.new ≡ ghosts.old) }
{
    match ghost_object {
        Some(object) => ghosts.push(object),
        None => Ok(()),
    }
}

/// Puts `job` in its ring, and appends the ghost that waits for it to the others: does both, or neither where memory is refused.
pub(crate) fn start_job(
    rings: &mut Rings,
    ghosts: &mut Ghosts,
    job: JobId,
    waits: FenceSet,
    packets: Vec<Packet>,
    ghost_object: Option<Ghost>,
) -> Result<(), NoMemory>
    requires known { job.ctx < length rings.old }
    requires num { 0 < job.num }
    requires waits { length waits ≡ length rings.old }
    requires few { length packets.items < 2 ^ 32 }
    ensures rings { OnOk result (rings.new ≡ with_pushed rings.old (record { job = job; waits = waits; packets = packets.items; ran = 0 })) }
    ensures ghosts { OnOk result (ghosts.new ≡ ghosts.old ++ option_to_list ghost_object) }
    ensures same_rings { OnErr result (rings.new ≡ rings.old) }
    ensures same_ghosts { OnErr result (ghosts.new ≡ ghosts.old) }
{
    let before = ghosts.len();
    push_ghost(ghosts, ghost_object)?;
    if let Err(refused) = rings.push(job, waits, packets) {
        ghosts.truncate(before);
        return Err(refused);
    }
    Ok(())
}
