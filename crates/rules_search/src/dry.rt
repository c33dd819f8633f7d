ghost use Rattle.std.specs.Prelude.{◌≡◌, ◌≤◌, ◌^◌, ◌&&◌, IfOk, length, option_copied, option_and_then};
ghost use Rattle.journal_model.specs.rules.State.{buffer, reservation};
ghost use Rattle.journal_model.specs.rules.Dry as words;

use journal_model::{Buffer, CauseRow, Causes, Ghost, Reservation, Script, State};
use rules_holds::ghost_spans;
use rules_state::{
    Standing, cause_of, has_buffer, in_order, intersects, is_loose, live_in, reach_of,
    reservation_in, same_mem,
};
use std::alloc::Global;
use ttm_base::{BufId, Mem, NoMemory, Place};

/// Returns whether buffer `b` stands in `place`, is neither pinned nor held, and wasn't skipped.
pub fn is_evictable(script: &Script, state: &State, skips: &[BufId], place: Place, b: BufId) -> bool
    ensures { result ≡ words.is_evictable script.now state.now skips.now place b }
{
    match live_in(state.core.buffers.items(), b) {
        Some(buffer) => {
            same_mem(buffer.mem, place.mem)
                && intersects(buffer.spans.items(), reach_of(script, place))
                && is_loose(reservation_in(state.reservations.items(), b))
                && !has_buffer(skips, b)
        }
        None => false,
    }
}

/// Returns the first evictable buffer, in eviction order, or `None` if there is none.
pub fn victim(
    alloc: Global,
    script: &Script,
    state: &State,
    skips: &[BufId],
    place: Place,
) -> Result<Option<BufId>, NoMemory>
    ensures { IfOk result (λ found. found ≡ words.victim script.now state.now skips.now place) }
{
    let bs = in_order(alloc, state, place.mem)?;
    let found = bs
        .items()
        .iter()
        .copied()
        .find(|b| is_evictable(script, state, skips, place, *b));
    Ok(found)
}

/// Returns the first ghost that holds a page that `place` reaches, or `None` if there is none.
pub fn ghost_in<'a>(script: &Script, state: &'a State, place: Place) -> Option<&'a Ghost>
    ensures { option_copied result ≡ words.ghost_in script.now state.now place }
{
    let reach = reach_of(script, place);
    state
        .core
        .ghosts
        .items()
        .iter()
        .find(|g| intersects(ghost_spans(place.mem, g), reach))
}

/// Returns whether buffer `b` may give its frames to swap.
fn is_swappable(state: &State, b: BufId) -> bool
    ensures { result ≡ (words.is_loose (reservation state.now b) && words.has_frame (buffer state.now b)) }
{
    match live_in(state.core.buffers.items(), b) {
        Some(buffer) => is_loose(reservation_in(state.reservations.items(), b))
            && buffer.has_frame(),
        None => false,
    }
}

/// Returns the first buffer that may give its frames to swap: in SYSTEM by priority, then in TT. `None` if there is none.
pub fn swap_victim(alloc: Global, state: &State) -> Result<Option<BufId>, NoMemory>
    ensures { IfOk result (λ found. found ≡ words.swap_victim state.now) }
{
    let mut bs = in_order(alloc, state, Mem::System)?;
    let others = in_order(alloc, state, Mem::Tt)?;
    bs.extend(others.items())?;
    let found = bs.items().iter().copied().find(|b| is_swappable(state, *b));
    Ok(found)
}

/// Returns the first ghost that holds a frame, or `None` if there is none.
pub fn ghost_with_frame(state: &State) -> Option<&Ghost>
    ensures { option_copied result ≡ words.ghost_with_frame state.now }
{
    state
        .core
        .ghosts
        .items()
        .iter()
        .find(|g| g.frames.len() > 0)
}

/// Returns the cause of the declared buffer `b`, if it is live and has its resource or a target in the place's manager.
fn row_of(
    script: &Script,
    reservations: &[Reservation],
    place: Place,
    b: BufId,
    slot: &Option<Buffer>,
) -> Option<CauseRow>
    ensures { result ≡ option_and_then (λ x. words.cause_row script.now reservations.now place (b, x)) slot.now }
{
    match slot {
        Some(buffer) if same_mem(buffer.mem, place.mem) || buffer.has_target(place.mem) => {
            Some(CauseRow {
                b,
                cause: cause_of(
                    script,
                    place,
                    reservation_in(reservations, b),
                    buffer.spans.items(),
                ),
            })
        }
        _ => None,
    }
}

/// Lists each live buffer with its resource or a target in the place's manager, in declared order, with the cause why it can't be evicted.
pub fn causes(
    alloc: Global,
    script: &Script,
    state: &State,
    place: Place,
) -> Result<Causes, NoMemory>
    requires { length state.now.core.buffers ≤ 2 ^ 32 }
    ensures { IfOk result (λ rows. rows ≡ words.causes script.now state.now place) }
{
    let mut rows = Causes::new(alloc);
    let slots = state.core.buffers.items();
    for i in 0..slots.len() {
        let b = BufId(i as u32);
        if let Some(row) = row_of(script, state.reservations.items(), place, b, &slots[i]) {
            rows.push(row)?;
        }
    }
    Ok(rows)
}
