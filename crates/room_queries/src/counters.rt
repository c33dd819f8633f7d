ghost use Rattle.std.specs.Prelude.{◌≡◌, ◌+◌, ◌≤◌};
ghost use Rattle.journal_model.specs.rules.Holds as holds;
ghost use Rattle.journal_model.specs.rules.PageSteps as steps;
ghost use Rattle.journal_model.specs.rules.Legal.{state_of};
ghost use Rattle.room_representation.specs.Held.{AreHeld};

use journal_model::{Entry, Script};
use room_representation::Parts;
use ttm_base::Stamp;

/// Returns the lowest free frame, or None where all are held.
pub fn free_frame(parts: &Parts, script: &Script, before: &[Entry]) -> Option<u32>
    requires { AreHeld script.now before.now parts.now }
    ensures { result ≡ holds.free_frame script.now (state_of script.now before.now).core }
{
    parts.pool.first()
}

/// Returns the lowest free slot, or None where all are held.
pub fn free_slot(parts: &Parts, script: &Script, before: &[Entry]) -> Option<u32>
    requires { AreHeld script.now before.now parts.now }
    ensures { result ≡ holds.free_slot script.now (state_of script.now before.now).core }
{
    parts.swap.first()
}

/// Returns the stamp of the next ticket. Takes constant time.
pub fn next_stamp(parts: &Parts, script: &Script, before: &[Entry]) -> Stamp
    requires { AreHeld script.now before.now parts.now }
    ensures { result.0 ≡ (state_of script.now before.now).last_stamp + 1 }
{
    parts.tickets.next()
}

/// Returns the number of the next job of context `ctx`. Takes constant time.
pub fn next_job(parts: &Parts, script: &Script, before: &[Entry], ctx: u32) -> u64
    requires held { AreHeld script.now before.now parts.now }
    requires known { ctx ≤ script.now.sizes.engines }
    ensures { result ≡ steps.next_job (state_of script.now before.now) ctx }
{
    parts.timeline.next(ctx)
}

/// Returns the number of the next ghost. Takes constant time.
pub fn next_ghost(parts: &Parts, script: &Script, before: &[Entry]) -> u64
    requires { AreHeld script.now before.now parts.now }
    ensures { result ≡ steps.next_ghost (state_of script.now before.now) }
{
    parts.last_ghost + 1
}
