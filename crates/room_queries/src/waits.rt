ghost use Rattle.std.specs.Prelude.{◌≡◌, ◌<◌, ◌≤◌, length, option_and_then, option_map, slice_get};
ghost use Rattle.journal_model.specs.rules.State.{buffer};
ghost use Rattle.journal_model.specs.rules.Next.{head_of};
ghost use Rattle.journal_model.specs.rules.Waits.{waited_for};
ghost use Rattle.journal_model.specs.rules.Legal.{state_of};
ghost use Rattle.room_representation.specs.Held.{AreHeld};
ghost use Rattle.room_queries.specs.Uses as words;
ghost use Rattle.room_queries.specs.Uses.{jobs_before};

use journal_model::{Entry, Script};
use room_representation::Parts;
use ttm_base::{BufId, JobId, Usage};

/// Returns the usage that covers the jobs to wait for before a use as `usage` tells: all of them before a write or a move, those that change the
/// buffer before a read (dma_resv_usage_rw).
fn covering(usage: Usage) -> Usage
    ensures { result ≡ words.covering usage }
{
    match usage {
        Usage::Read => Usage::Write,
        Usage::Write | Usage::Kernel => Usage::Read,
    }
}

/// Returns the job to wait for before the declared buffer `b`, live or dead, is used as `usage` tells, or None where there is none. Takes time by
/// contexts.
pub fn need(
    parts: &Parts,
    script: &Script,
    before: &[Entry],
    b: BufId,
    usage: Usage,
) -> Option<JobId>
    requires held { AreHeld script.now before.now parts.now }
    requires declared { b.0 < length script.now.buffers }
    ensures { result ≡ waited_for (state_of script.now before.now).core (jobs_before usage (buffer (state_of script.now before.now) b)) }
{
    parts.bos.get(b).resv.need(covering(usage), &parts.timeline)
}

/// Returns the job that a ghost waits for, by its place `at` in the order of making, or None where there is none. Takes time by contexts.
pub fn ghost_need(parts: &Parts, script: &Script, before: &[Entry], at: usize) -> Option<JobId>
    requires { AreHeld script.now before.now parts.now }
    ensures { result ≡ option_and_then (λ g. waited_for (state_of script.now before.now).core g.jobs) (slice_get (state_of script.now before.now).core.ghosts at) }
{
    if at < parts.ghosts.len() {
        parts.ghosts.get(at).jobs.need(Usage::Read, &parts.timeline)
    } else {
        None
    }
}

/// Returns the number of the first ghost, which is reaped next, or None where there is no ghost. Takes constant time.
pub fn first_ghost(parts: &Parts, script: &Script, before: &[Entry]) -> Option<u64>
    requires { AreHeld script.now before.now parts.now }
    ensures { result ≡ option_map (λ g. g.num) (slice_get (state_of script.now before.now).core.ghosts 0) }
{
    if parts.ghosts.len() == 0 {
        return None;
    }
    Some(parts.ghosts.get(0).num)
}

/// Returns the job that the head of context `ctx` waits for, or None where there is none. Takes time by contexts.
pub fn head_need(parts: &Parts, script: &Script, before: &[Entry], ctx: u32) -> Option<JobId>
    requires held { AreHeld script.now before.now parts.now }
    requires known { ctx ≤ script.now.sizes.engines }
    ensures { result ≡ option_and_then (λ j. waited_for (state_of script.now before.now).core j.waits) (head_of (state_of script.now before.now) ctx) }
{
    if parts.rings.head(ctx).is_none() {
        return None;
    }
    parts.rings.ready(ctx, &parts.timeline)
}
