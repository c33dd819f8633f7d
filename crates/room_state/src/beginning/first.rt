ghost use Rattle.std.specs.Prelude.{◌≡◌, ◌≤◌, IfOk, IsTrue, [], length, map};
ghost use Rattle.room_representation.specs.lemma_spans.Owned.{kind_of};
ghost use Rattle.journal_model.specs.rules.State as words;
ghost use Rattle.journal_model.specs.scripts.ScriptRules.{is_script};
ghost use Rattle.room_representation.specs.Held.{AreHeld};
ghost use Rattle.room_state.specs.beginning.First as first;

use aperture_table::Aperture;
use bo_table::BoTable;
use byte_store::ByteStore;
use copy_engine::Rings;
use copy_packet::Stores;
use fence_core::Timeline;
use journal_model::{Commands, Courses, Script, Sizes};
use lru_bulk::Lru;
use page_pool::PagePool;
use resource_core::{PagesKind, RangeRoom, VramRoom};
use room_representation::{Ghosts, Parts};
use state_words::first_courses;
use std::alloc::Global;
use swap_store::SwapStore;
use ttm_base::NoMemory;
use ww_ticket::Tickets;

/// The number of groups of buffers.
const GROUPS: u32 = 16;

/// The buffers, and their lists in eviction order.
#[derive(Drop)]
struct Buffers {
    bos: BoTable,
    lru: Lru,
}

/// Pages, frames and slots: which of them are held, by what, and their bytes.
#[derive(Drop)]
struct Memory {
    vram: VramRoom,
    tt: RangeRoom,
    pool: PagePool,
    swap: SwapStore,
    stores: Stores,
}

/// The state of engines and threads.
#[derive(Drop)]
struct Work {
    timeline: Timeline,
    rings: Rings,
    courses: Courses,
}

/// Returns how VRAM's pages are kept: as buddy blocks where `sizes` asks for them, else as ranges.
fn pages_kind(sizes: &Sizes) -> PagesKind
    ensures { result ≡ kind_of sizes.now.buddy }
{
    if sizes.buddy {
        PagesKind::Blocks
    } else {
        PagesKind::Ranges
    }
}

/// Makes VRAM and frames with pages of zeros, and an aperture that maps nothing.
fn first_stores(alloc: Global, sizes: &Sizes) -> Result<Stores, NoMemory>
    ensures { IfOk result (λ stores. stores ≡ first.first_stores sizes.now) }
{
    let vram = ByteStore::new(alloc, sizes.vram)?;
    let frames = ByteStore::new(alloc, sizes.frames)?;
    let aper = Aperture::new(alloc, sizes.tt)?;
    Ok(Stores { vram, frames, aper })
}

/// Makes the managers of pages, frames and slots, with all of them free.
fn first_memory(alloc: Global, sizes: &Sizes) -> Result<Memory, NoMemory>
    ensures { IfOk result (λ memory. memory ≡ first.first_memory sizes.now) }
{
    let kind = pages_kind(sizes);
    let vram = VramRoom::new(alloc, sizes.vram, kind)?;
    let tt = RangeRoom::new(alloc, sizes.tt)?;
    let pool = PagePool::new(alloc, sizes.frames)?;
    let swap = SwapStore::new(alloc, sizes.swap)?;
    let stores = first_stores(alloc, sizes)?;
    Ok(Memory {
        vram,
        tt,
        pool,
        swap,
        stores,
    })
}

/// Makes the table of buffers with all buffers dead, and the LRU lists, all empty.
fn first_buffers(alloc: Global, script: &Script) -> Result<Buffers, NoMemory>
    requires engines { script.now.sizes.engines ≤ 8 }
    requires buffers { length script.now.buffers ≤ 256 }
    ensures { IfOk result (λ buffers. buffers ≡ first.first_buffers script.now) }
{
    let bos = BoTable::new(alloc, script.buffers.items(), script.sizes.engines + 1)?;
    let lru = Lru::new(alloc, script.buffers.len() as u32, GROUPS)?;
    Ok(Buffers { bos, lru })
}

/// Makes the timeline and the rings without a job, and puts each thread at its first command.
fn first_work(alloc: Global, script: &Script) -> Result<Work, NoMemory>
    requires { script.now.sizes.engines ≤ 8 }
    ensures { IfOk result (λ work. work ≡ first.first_work script.now) }
{
    let timeline = Timeline::new(alloc, script.sizes.engines + 1)?;
    let rings = Rings::new(alloc, script.sizes.engines + 1)?;
    let courses = first_courses(alloc, script.threads.items())?;
    Ok(Work {
        timeline,
        rings,
        courses,
    })
}

/// Makes the parts for the start of a run: all buffers dead, all pages, frames and slots free, no job, and each thread at its first command.
///
/// # Errors
///
/// Lack of memory.
pub fn first_parts(alloc: Global, script: &Script) -> Result<Parts, NoMemory>
    requires { IsTrue (is_script script.now) }
    ensures { IfOk result (λ parts. AreHeld script.now [] parts) }
{
    let buffers = first_buffers(alloc, script)?;
    let work = first_work(alloc, script)?;
    let memory = first_memory(alloc, &script.sizes)?;
    let ghosts = Ghosts::new(alloc);
    let tickets = Tickets::new();
    Ok(Parts {
        bos: buffers.bos,
        timeline: work.timeline,
        rings: work.rings,
        ghosts,
        vram: memory.vram,
        tt: memory.tt,
        pool: memory.pool,
        swap: memory.swap,
        stores: memory.stores,
        lru: buffers.lru,
        courses: work.courses,
        tickets,
        last_ghost: 0,
    })
}
