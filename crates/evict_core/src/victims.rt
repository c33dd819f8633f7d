ghost use Rattle.std.specs.Prelude.{◌≡◌};
ghost use Rattle.journal_model.specs.rules.Dry as words;
ghost use Rattle.room_state.specs.turns.Turns.{state_behind};
ghost use Rattle.evict_core.specs.Walks as walks;

use bo_table::Bo;
use room_state::turns::{BufferTest, Rooms, first_passing};
use state_words::{has_buffer, intersects, is_loose, reach_of, same_mem};
use ttm_base::limits::MAX_BUFFERS;
use ttm_base::{BufId, Mem, Place, Span};

/// The test for a victim: the buffer stands in a place, is neither pinned nor reserved, and wasn't skipped.
#[derive(Drop)]
struct Evictable<'a> {
    rooms: &'a Rooms,
    mem: Mem,
    /// The pages that the place reaches.
    within: Span,
    skips: &'a [BufId],
    /// A mark at the number of each skipped buffer, so that a search needn't look for each buffer among the skipped ones.
    marks: [bool; MAX_BUFFERS],
}

/// Returns a mark at the number of each buffer of `skips`.
fn marks_of(skips: &[BufId]) -> [bool; MAX_BUFFERS]
    ensures { walks.AreMarks skips.now result }
{
    let mut marks = [false; MAX_BUFFERS];
    for b in skips {
        let at = b.0 as usize;
        if at < MAX_BUFFERS {
            marks[at] = true;
        }
    }
    marks
}

/// Returns whether buffer `b` was skipped, by its mark where there is one for its number.
fn was_skipped(skips: &[BufId], marks: &[bool; MAX_BUFFERS], b: BufId) -> bool
    ensures { result ≡ walks.was_skipped skips.now marks.now b }
{
    let at = b.0 as usize;
    if at < MAX_BUFFERS {
        marks[at]
    } else {
        has_buffer(skips, b)
    }
}

/// Returns whether the buffer `bo` is live and stands in pages of `within` in the memory type `mem`.
fn stands_in(bo: &Bo, mem: Mem, within: Span) -> bool
    ensures { result ≡ walks.stands_in bo.now mem within }
{
    bo.alive && same_mem(bo.mem, mem) && intersects(bo.spans.items(), within)
}

impl<'a> BufferTest for Evictable<'a> {
    ghost accepts = { λ t b. walks.is_evictable_in (state_behind t.rooms.now) t.mem t.within (walks.was_skipped t.skips.now t.marks b) b };

    fn passes(&self, b: BufId) -> bool {
        let _legal = self.rooms.journal();
        if was_skipped(self.skips, &self.marks, b) {
            return false;
        }
        let bos = self.rooms.bos();
        if b.0 as usize >= bos.len() {
            return false;
        }
        let bo = bos.get(b);
        let loose = is_loose(bo.reservation());
        let stands = stands_in(bo, self.mem, self.within);
        stands && loose
    }
}

/// Returns the buffer that is evicted for `place`: the first evictable one, in order of priority from 0 on.
pub(crate) fn victim(rooms: &Rooms, skips: &[BufId], place: Place) -> Option<BufId>
    ensures { result ≡ words.victim rooms.now.script (state_behind rooms.now) skips.now place }
{
    let test = Evictable {
        rooms,
        mem: place.mem,
        within: reach_of(rooms.script(), place),
        skips,
        marks: marks_of(skips),
    };
    first_passing(rooms.lru(), place.mem, &test)
}
