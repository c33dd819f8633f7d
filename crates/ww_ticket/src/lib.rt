//! Tickets by which threads order their reservations, and the decision of a thread at a buffer that it wants: wait-die, as
//! `ww_mutex` and `dma_resv` do.
#![tactic(auto)]

ghost use Rattle.std.specs.Prelude.{◌≡◌, ◌≢◌, ◌+◌, ◌^◌, ◌<◌, ◌≤◌, ◌↔◌, ◌⊎◌, Some, None, IsTrue, IsNone, false};
ghost use Rattle.ttm_base.specs.declared.Stamp.{Stamp};
ghost use Rattle.ww_ticket.specs.declared.Decision.TheVariants as decision;

use ttm_base::Stamp;

/// A counter of tickets. Its value is the number of tickets that were drawn.
#[derive(Drop)]
pub struct Tickets {
    drawn: u64,
    ghost few: { drawn ≤ 2 ^ 63 },
}

impl std::marker::Model for Tickets {
    ghost use Rattle.std.specs.Prelude.{ℕ};

    ghost Value = { ℕ };

    ghost view = { λ t. t.drawn };
}

impl Tickets {
    /// Returns a counter from which no ticket was drawn.
    pub fn new() -> Tickets
        ensures { result ≡ 0 }
    {
        Tickets { drawn: 0 }
    }

    /// Draws the next ticket. The first one is 1.
    pub fn draw(&mut self) -> Stamp
        requires { self.old < 2 ^ 63 }
        ensures stamp { result.0 ≡ self.old + 1 }
        ensures drawn { self.new ≡ self.old + 1 }
    {
        self.drawn += 1;
        Stamp(self.drawn)
    }

    /// Returns the ticket that `draw` would give.
    pub fn next(&self) -> Stamp
        ensures { result.0 ≡ self.now + 1 }
    {
        Stamp(self.drawn + 1)
    }
}

/// The decision of a thread at a buffer that it wants to reserve.
#[derive(Clone, Copy, PartialEq, Eq)]
pub enum Decision {
    /// Take the reservation: no ticket holds it.
    Take,
    /// Wait until this ticket, the holder, releases the reservation.
    Wait(Stamp),
    /// Release all reservations, and wait until this ticket, the holder, releases the reservation.
    Backoff(Stamp),
}

/// Decides what the thread with the ticket `mine` does at a buffer: a younger thread, whose stamp is greater, backs off from
/// an older holder if it holds any reservation; any other waits. So an older thread never waits for a younger one that waits
/// for it.
pub fn decide(mine: Stamp, holds: bool, holder: Option<Stamp>) -> Decision
    requires { holder ≢ Some mine }
    ensures take { (result ≡ decision.Take) ↔ (holder ≡ None) }
    ensures backoff { (s : Stamp) → (result ≡ decision.Backoff s) ↔ ((holder ≡ Some s) × (s.0 < mine.0) × IsTrue holds) }
    ensures wait { (s : Stamp) → (result ≡ decision.Wait s) ↔ ((holder ≡ Some s) × ((mine.0 < s.0) ⊎ (holds ≡ false))) }
{
    match holder {
        None => Decision::Take,
        Some(holder) if holder.0 < mine.0 && holds => Decision::Backoff(holder),
        Some(holder) => Decision::Wait(holder),
    }
}
