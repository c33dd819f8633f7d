ghost use Rattle.std.specs.Prelude.{◌≡◌};
ghost use Rattle.journal_model.specs.rules.Dry as words;
ghost use Rattle.journal_model.specs.rules.Search as searches;
ghost use Rattle.journal_model.specs.rules.State.{new_buffer};

use crate::commands::declared_pages;
use crate::placement::reach_of;
use journal_model::{Cause, Reservation, Script, Why};
use place_list::spans::{intersects, length_of};
use ttm_base::{BufId, Mem, Place, Span};

/// Returns for what a victim of a place in the memory type `mem` is caught.
pub fn why_of(mem: Mem) -> Why
    ensures { result ≡ searches.why_of mem }
{
    match mem {
        Mem::Vram => Why::Vram,
        Mem::Tt => Why::Tt,
        Mem::System => Why::Swap,
    }
}

/// Returns whether `place` has at least as many pages as buffer `b`.
pub fn is_long_enough(script: &Script, b: BufId, place: Place) -> bool
    ensures { result ≡ words.is_long_enough script.now b place }
{
    declared_pages(script, b) <= length_of(reach_of(script, place))
}

/// Returns whether a buffer with this `reservation` is neither pinned nor reserved.
pub fn is_loose(reservation: Reservation) -> bool
    ensures { result ≡ words.is_loose reservation }
{
    reservation.pins == 0 && reservation.holder.is_none()
}

/// Returns why a buffer with this `reservation` that stands in `spans` can't be evicted for `place`: the first cause that holds.
pub fn cause_of(script: &Script, place: Place, reservation: Reservation, spans: &[Span]) -> Cause
    ensures { result ≡ words.cause_of script.now place reservation (record (new_buffer 0) { spans = spans.now }) }
{
    if reservation.pins > 0 {
        return Cause::Pinned;
    }
    match reservation.holder {
        Some(stamp) => Cause::Reserved(stamp),
        None => {
            if intersects(spans, reach_of(script, place)) {
                Cause::Skipped
            } else {
                Cause::Outside
            }
        }
    }
}
