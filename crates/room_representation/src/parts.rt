use bo_table::BoTable;
use copy_engine::Rings;
use copy_packet::Stores;
use fence_core::{FenceSet, Timeline};
use item_queue::ItemQueue;
use journal_model::{Courses, Frames};
use lru_bulk::Lru;
use page_pool::PagePool;
use resource_core::{RangeRoom, VramRoom};
use swap_store::SwapStore;
use ttm_base::Spans;
use ww_ticket::Tickets;

/// A ghost: what a moved or freed buffer left behind, until its jobs are done (the ghost object of ttm_bo_move_accel_cleanup).
#[derive(Drop)]
pub struct Ghost {
    /// The ghost's number, one above the last.
    pub num: u64,
    /// Pages of VRAM that the ghost still holds.
    pub vram: Spans,
    /// Pages of TT that the ghost still holds; its frames are mapped there.
    pub tt: Spans,
    /// The ghost's frames, page by page.
    pub frames: Frames,
    /// The jobs that the ghost waits for.
    pub jobs: FenceSet,
}

/// Ghosts in order of making; the first is reaped next.
pub type Ghosts = ItemQueue<Ghost>;

/// All parts of the device: the only copy of the state that they keep.
pub struct Parts {
    /// Buffers by declared number, with their reservations and the jobs that use them.
    pub bos: BoTable,
    /// The timeline: how far the jobs of each context are.
    pub timeline: Timeline,
    /// The jobs that aren't done.
    pub rings: Rings,
    /// The ghosts, in order of making.
    pub ghosts: Ghosts,
    /// The holders of VRAM's pages, and the move fence.
    pub vram: VramRoom,
    /// The holders of TT's pages.
    pub tt: RangeRoom,
    /// The frames that are held.
    pub pool: PagePool,
    /// The slots that are held, and their bytes.
    pub swap: SwapStore,
    /// The bytes of VRAM and frames, and the aperture.
    pub stores: Stores,
    /// The twelve lists of buffers in eviction order.
    pub lru: Lru,
    /// The courses of the threads.
    pub courses: Courses,
    /// The stamps that were drawn.
    pub tickets: Tickets,
    /// The last ghost's number.
    pub last_ghost: u64,
}

/// Written by hand, and only names the fields: a derived drop is proved once more in each crate that lets a value go.
impl Drop for Parts {
    fn drop(self) {
        let Self {
            bos: _,
            timeline: _,
            rings: _,
            ghosts: _,
            vram: _,
            tt: _,
            pool: _,
            swap: _,
            stores: _,
            lru: _,
            courses: _,
            tickets: _,
            last_ghost: _,
        } = self;
    }
}
