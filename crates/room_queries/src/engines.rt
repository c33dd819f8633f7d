ghost use Rattle.std.specs.Prelude.{◌≡◌, ◌≤◌, option_map};
ghost use Rattle.journal_model.specs.rules.Next.{head_of};
ghost use Rattle.journal_model.specs.rules.Legal.{state_of};
ghost use Rattle.room_representation.specs.Held.{AreHeld};
ghost use Rattle.room_queries.specs.Heads.{number_left};

use journal_model::{Entry, Script};
use room_representation::Parts;
use ttm_base::JobId;

/// Returns the job at the head of context `ctx`, or None where it has none. Takes constant time.
pub fn head(parts: &Parts, script: &Script, before: &[Entry], ctx: u32) -> Option<JobId>
    requires held { AreHeld script.now before.now parts.now }
    requires known { ctx ≤ script.now.sizes.engines }
    ensures { result ≡ option_map (λ j. j.id) (head_of (state_of script.now before.now) ctx) }
{
    parts.rings.head(ctx)
}

/// Returns the number of the next packet of the head of context `ctx`, or None where no packet or no job is left. Takes constant time.
pub fn head_packet(parts: &Parts, script: &Script, before: &[Entry], ctx: u32) -> Option<u32>
    requires held { AreHeld script.now before.now parts.now }
    requires known { ctx ≤ script.now.sizes.engines }
    ensures { result ≡ number_left (head_of (state_of script.now before.now) ctx) }
{
    if parts.rings.head(ctx).is_none() {
        return None;
    }
    match parts.rings.next_packet(ctx) {
        Some(_packet) => Some(parts.rings.ran(ctx)),
        None => None,
    }
}
