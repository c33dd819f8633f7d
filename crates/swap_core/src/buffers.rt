ghost use Rattle.std.specs.Prelude.{◌≡◌, ◌&&◌, option_copied};
ghost use Rattle.ttm_base.specs.declared.Mem.TheVariants.{Vram};
ghost use Rattle.ttm_base.specs.Reach.{same_mem};
ghost use Rattle.journal_model.specs.rules.State.{buffer, reservation};
ghost use Rattle.journal_model.specs.rules.Dry as words;
ghost use Rattle.room_state.specs.turns.Turns.{state_behind};
ghost use Rattle.swap_core.specs.Lent.{IsLent};

use bo_table::Bo;
use room_state::turns::{BufferTest, Rooms, first_passing};
use state_words::is_loose;
use ttm_base::{BufId, Mem};

/// Returns buffer `b`, or None where it isn't live.
pub(crate) fn live(rooms: &Rooms, b: BufId) -> Option<&Bo>
    ensures { IsLent (state_behind rooms.now) b (option_copied result) }
{
    let bos = &rooms.parts().bos;
    if b.0 as usize >= bos.len() {
        return None;
    }
    let bo = bos.get(b);
    if bo.alive { Some(bo) } else { None }
}

/// Returns whether buffer `b` has a frame.
pub(crate) fn has_frame(rooms: &Rooms, b: BufId) -> bool
    ensures { result ≡ words.has_frame (buffer (state_behind rooms.now) b) }
{
    match live(rooms, b) {
        Some(bo) => bo.table.has_frame(),
        None => false,
    }
}

/// Returns whether buffer `b` stands in VRAM and has a frame: one that gives back what its search took then gives back its frames first. Takes
/// constant time.
pub fn has_frame_in_vram(rooms: &Rooms, b: BufId) -> bool
    ensures { result ≡ (same_mem (buffer (state_behind rooms.now) b).mem Vram && words.has_frame (buffer (state_behind rooms.now) b)) }
{
    match live(rooms, b) {
        Some(bo) => matches!(bo.mem, Mem::Vram) && bo.table.has_frame(),
        None => false,
    }
}

/// The test for a buffer that may give its frames to swap: it has a frame, and is neither pinned nor reserved.
#[derive(Drop)]
struct Swappable<'a> {
    rooms: &'a Rooms,
}

impl<'a> BufferTest for Swappable<'a> {
    ghost accepts = { λ t b. words.is_loose (reservation (state_behind t.rooms.now) b) && words.has_frame (buffer (state_behind t.rooms.now) b) };

    fn passes(&self, b: BufId) -> bool {
        match live(self.rooms, b) {
            Some(bo) => bo.table.has_frame() && is_loose(bo.reservation()),
            None => false,
        }
    }
}

/// Returns the first buffer that may give its frames to swap: in SYSTEM by priority, then in TT (ttm_device_swapout).
pub(crate) fn swap_victim(rooms: &Rooms) -> Option<BufId>
    ensures { result ≡ words.swap_victim (state_behind rooms.now) }
{
    let test = Swappable { rooms };
    let lru = rooms.lru();
    let first = first_passing(lru, Mem::System, &test);
    if first.is_some() {
        return first;
    }
    first_passing(lru, Mem::Tt, &test)
}
