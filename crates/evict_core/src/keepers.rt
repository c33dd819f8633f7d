ghost use Rattle.std.specs.Prelude.{◌≡◌, false, IfOk, option_map};
ghost use Rattle.journal_model.specs.rules.Dry as words;
ghost use Rattle.room_state.specs.turns.Turns.{state_behind};
ghost use Rattle.evict_core.specs.Rows as rows_of;

use bo_table::Bo;
use journal_model::{CauseRow, Causes, Script};
use resource_core::Manager;
use room_representation::Ghost;
use room_state::turns::Rooms;
use state_words::{cause_of, intersects, reach_of, same_mem, target_of};
use std::alloc::Global;
use ttm_base::{BufId, Mem, NoMemory, Place, Span};

/// Returns the spans of a ghost in the memory type `mem`.
fn ghost_spans(mem: Mem, left: &Ghost) -> &[Span]
    ensures { result.now ≡ rows_of.ghost_spans mem left.now }
{
    match mem {
        Mem::System => &[],
        Mem::Tt => left.tt.items(),
        Mem::Vram => left.vram.items(),
    }
}

/// Returns whether a ghost holds pages of `within` in the memory type `mem`.
fn holds_in(mem: Mem, within: Span, left: &Ghost) -> bool
    ensures { result ≡ rows_of.holds_in mem within left.now }
{
    intersects(ghost_spans(mem, left), within)
}

/// Returns the number of the first ghost that holds pages of `within` in the memory type `mem`, or None where none does.
fn number_in(ghosts: &[Ghost], mem: Mem, within: Span) -> Option<u64>
    ensures { result ≡ option_map (λ g. g.num) (rows_of.ghost_in mem within ghosts.now) }
{
    match ghosts.iter().find(|g| holds_in(mem, within, g)) {
        Some(left) => Some(left.num),
        None => None,
    }
}

/// Returns whether ghosts hold pages of the memory type `mem`, by the count of its manager. Takes time by what is held there, however many
/// ghosts there are elsewhere.
fn ghosts_hold(rooms: &Rooms, mem: Mem) -> bool
    ensures { result ≡ false → rows_of.HoldNone mem (state_behind rooms.now).core.ghosts }
{
    let parts = rooms.parts();
    if parts.ghosts.items().is_empty() {
        return false;
    }
    match mem {
        Mem::System => false,
        Mem::Tt => parts.tt.lengths().ghosts > 0,
        Mem::Vram => parts.vram.lengths().ghosts > 0,
    }
}

/// Returns the number of the first ghost that holds a page that `place` reaches, or None where none does.
pub(crate) fn ghost_in(rooms: &Rooms, place: Place) -> Option<u64>
    ensures { result ≡ option_map (λ g. g.num) (words.ghost_in rooms.now.script (state_behind rooms.now) place) }
{
    if !ghosts_hold(rooms, place.mem) {
        return None;
    }
    number_in(rooms.ghosts(), place.mem, reach_of(rooms.script(), place))
}

/// Returns whether the buffer `bo` is live and has its resource or a target in the manager of `place`.
fn is_kept_in(place: Place, bo: &Bo) -> bool
    ensures { result ≡ rows_of.is_kept_in place bo.now }
{
    bo.alive && (same_mem(bo.mem, place.mem) || target_of(place.mem, &bo.targets).is_some())
}

/// Returns buffer `b` with its cause, or None where it has neither its resource nor a target in the manager of `place`.
fn row_in(script: &Script, place: Place, b: BufId, bo: &Bo) -> Option<CauseRow>
    ensures { result ≡ rows_of.row_in script.now place b bo.now }
{
    if is_kept_in(place, bo) {
        Some(CauseRow {
            b,
            cause: cause_of(script, place, bo.reservation(), bo.spans.items()),
        })
    } else {
        None
    }
}

/// Returns each live buffer with its resource or a target in the manager of `place`, in declared order, with the cause.
///
/// # Errors
///
/// Lack of memory.
pub(crate) fn causes(alloc: Global, rooms: &Rooms, place: Place) -> Result<Causes, NoMemory>
    ensures { IfOk result (λ rows. rows ≡ words.causes rooms.now.script (state_behind rooms.now) place) }
{
    let _legal = rooms.journal();
    let bos = rooms.bos();
    let mut rows = Causes::new(alloc);
    for i in 0..bos.len() {
        let b = BufId(i as u32);
        if let Some(row) = row_in(rooms.script(), place, b, bos.get(b)) {
            rows.push(row)?;
        }
    }
    Ok(rows)
}
