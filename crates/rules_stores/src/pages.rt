ghost use Rattle.std.specs.Prelude.{◌≡◌, Some, drop, flat_map};
ghost use Rattle.ttm_base.specs.Pages.{translated};
ghost use Rattle.journal_model.specs.rules.Places as words;
ghost use Rattle.journal_model.specs.rules.Places.{frame_of};
ghost use Rattle.rules_stores.specs.Maps as maps;

use journal_model::{Buffer, Core, Ghost};
use rules_holds::has_page;
use rules_state::{length_of, live_in, loc_of, page_at};
use ttm_base::{BufId, Loc, Mem, PagePlace, Span};

/// A page that has bytes: a page of VRAM, a frame, or a swap slot. A page of zeros stands nowhere.
#[derive(Clone, Copy)]
pub enum StorePage {
    Nowhere,
    Vram(u32),
    Frame(u32),
    Slot(u32),
}

impl StorePage {
    ghost use Rattle.std.specs.Prelude.{◌≡◌};
    ghost use Rattle.journal_model.specs.rules.Places as words;
    ghost use Rattle.rules_stores.specs.StorePages.{page_of};

    /// Returns the page with the bytes of a page that the page table has at `loc`.
    fn in_table(loc: Loc) -> StorePage
        ensures { page_of result ≡ words.page_in_table loc }
    {
        match loc {
            Loc::Zero => StorePage::Nowhere,
            Loc::Frame(f) => StorePage::Frame(f),
            Loc::Slot(k) => StorePage::Slot(k),
        }
    }

    /// Returns the page with the bytes of page `i` of `buffer`.
    fn of_buffer(buffer: &Buffer, i: u32) -> StorePage
        ensures { page_of result ≡ words.page_at buffer.now i }
    {
        match buffer.mem {
            Mem::Vram => match page_at(buffer.spans.items(), i) {
                Some(p) => StorePage::Vram(p),
                None => StorePage::Nowhere,
            },
            Mem::Tt | Mem::System => StorePage::in_table(loc_of(buffer, i)),
        }
    }

    /// Returns the page with the bytes of page `i` of buffer `b`: nowhere if the buffer isn't live.
    pub fn of(core: &Core, b: BufId, i: u32) -> StorePage
        ensures { page_of result ≡ words.place_of core.now b i }
    {
        match live_in(core.buffers.items(), b) {
            Some(buffer) => StorePage::of_buffer(buffer, i),
            None => StorePage::Nowhere,
        }
    }

    /// Returns the page that a packet names. A page of TT stands for the frame to which it is mapped.
    pub fn named(core: &Core, place: PagePlace) -> StorePage
        ensures { page_of result ≡ translated (words.aperture core.now) place }
    {
        match place {
            PagePlace::Vram(p) => StorePage::Vram(p),
            PagePlace::Frame(f) => StorePage::Frame(f),
            PagePlace::Aper(p) => match mapped_frame(core, p) {
                Some(f) => StorePage::Frame(f),
                None => StorePage::Nowhere,
            },
        }
    }
}

/// Returns the items after the first `count`.
fn behind<T>(items: &[T], count: usize) -> &[T]
    ensures { result.now ≡ drop count items.now }
{
    &items[items.len().min(count)..]
}

/// Returns the frame at `page`, if the span has it. `table` is the part of a page table that begins with the span's first page.
fn frame_by_table(span: Span, table: &[Loc], page: u32) -> Option<u32>
    ensures { result ≡ maps.at_span frame_of span table.now page }
{
    if !has_page(page, span) {
        return None;
    }
    match table.get((page - span.start) as usize) {
        Some(loc) => rules_state::frame_of(*loc),
        None => None,
    }
}

/// Returns the frame at `page` of `spans`, whose pages have the page table `table`, or `None` if there is none.
fn frame_in_table(spans: &[Span], table: &[Loc], page: u32) -> Option<u32>
    ensures { result ≡ maps.frame_in_table spans.now table.now page }
{
    let mut rest = table;
    for span in spans {
        if let Some(f) = frame_by_table(*span, rest, page) {
            return Some(f);
        }
        rest = behind(rest, length_of(*span) as usize);
    }
    None
}

/// Returns the frame at `page`, if the span has it. `frames` is the part of a list of frames that begins with the span's first page.
fn frame_by_list(span: Span, frames: &[u32], page: u32) -> Option<u32>
    ensures { result ≡ maps.at_span (λ f. Some f) span frames.now page }
{
    if !has_page(page, span) {
        return None;
    }
    frames.get((page - span.start) as usize).copied()
}

/// Returns the frame at `page` of `spans`, whose pages have the frames `frames`, or `None` if there is none.
fn frame_in_frames(spans: &[Span], frames: &[u32], page: u32) -> Option<u32>
    ensures { result ≡ maps.frame_in_frames spans.now frames.now page }
{
    let mut rest = frames;
    for span in spans {
        if let Some(f) = frame_by_list(*span, rest, page) {
            return Some(f);
        }
        rest = behind(rest, length_of(*span) as usize);
    }
    None
}

/// Returns the frame at `page` of TT if a live buffer in `slot` has the page.
fn frame_of_live(slot: &Option<Buffer>, page: u32) -> Option<u32>
    ensures { result ≡ maps.frame_beside page (maps.live_mapped slot.now) }
{
    match slot {
        Some(buffer) => match buffer.mem {
            Mem::Tt => frame_in_table(buffer.spans.items(), buffer.table.items(), page),
            Mem::Vram | Mem::System => None,
        },
        None => None,
    }
}

/// Returns the frame at `page` of TT if some live buffer has the page.
fn frame_in_buffers(buffers: &[Option<Buffer>], page: u32) -> Option<u32>
    ensures { result ≡ maps.frame_beside page (flat_map maps.live_mapped buffers.now) }
{
    for slot in buffers {
        if let Some(f) = frame_of_live(slot, page) {
            return Some(f);
        }
    }
    None
}

/// Returns the frame at `page` of TT if the ghost `left` has the page.
fn frame_of_ghost(left: &Ghost, page: u32) -> Option<u32>
    ensures { result ≡ maps.frame_beside page (maps.ghost_mapped left.now) }
{
    frame_in_frames(left.tt.items(), left.frames.items(), page)
}

/// Returns the frame at `page` of TT if some ghost has the page.
fn frame_in_ghosts(ghosts: &[Ghost], page: u32) -> Option<u32>
    ensures { result ≡ maps.frame_beside page (flat_map maps.ghost_mapped ghosts.now) }
{
    for left in ghosts {
        if let Some(f) = frame_of_ghost(left, page) {
            return Some(f);
        }
    }
    None
}

/// Returns the frame to which `page` of TT is mapped, or `None` if it is mapped to none.
#[tactic(auto, using(crate::proofs::MapLaws::aperture_is))]
fn mapped_frame(core: &Core, page: u32) -> Option<u32>
    ensures { result ≡ words.aperture core.now page }
{
    match frame_in_buffers(core.buffers.items(), page) {
        Some(f) => Some(f),
        None => frame_in_ghosts(core.ghosts.items(), page),
    }
}
