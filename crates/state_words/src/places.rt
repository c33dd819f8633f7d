ghost use Rattle.std.specs.Prelude.{◌≡◌, map, slice_get};
ghost use Rattle.journal_model.specs.rules.ApplyMoves as moves;
ghost use Rattle.journal_model.specs.rules.ApplyPages.{without_frame};
ghost use Rattle.journal_model.specs.rules.Places as words;

use journal_model::Table;
use ttm_base::limits::PAGE_BYTES;
use ttm_base::{Loc, Mem, Packet, PagePlace, Span};

/// Returns the page of the spans at position `i`, or None where they have no more than `i` pages.
pub fn page_at(spans: &[Span], i: u32) -> Option<u32>
    ensures { result ≡ slice_get (words.pages_of spans.now) i }
{
    let mut left = i;
    for span in spans {
        let pages = span.end.saturating_sub(span.start);
        if left < pages {
            return Some(span.start + left);
        }
        left -= pages;
    }
    None
}

/// Returns the page of the spans at position `i`, or 0 where they have no more than `i` pages.
pub fn page_of_spans(spans: &[Span], i: u32) -> u32
    ensures { result ≡ words.page_of_spans spans.now i }
{
    page_at(spans, i).unwrap_or(0)
}

/// Returns the frame where a page is, or None where it is elsewhere.
pub fn frame_of(loc: Loc) -> Option<u32>
    ensures { result ≡ words.frame_of loc }
{
    match loc {
        Loc::Frame(frame) => Some(frame),
        Loc::Slot(_) | Loc::Zero => None,
    }
}

/// Returns whether the page is in a frame.
pub fn is_frame(loc: Loc) -> bool
    ensures { result ≡ words.is_frame loc }
{
    frame_of(loc).is_some()
}

/// Returns the swap slot where a page is, or None where it is elsewhere.
pub fn slot_of(loc: Loc) -> Option<u32>
    ensures { result ≡ words.slot_of loc }
{
    match loc {
        Loc::Slot(slot) => Some(slot),
        Loc::Frame(_) | Loc::Zero => None,
    }
}

/// Returns the name that packets use for the page at position `i` of spans.
pub fn name_in_spans(mem: Mem, spans: &[Span], i: u32) -> PagePlace
    ensures { result ≡ words.name_in_spans mem spans.now i }
{
    match mem {
        Mem::Vram => PagePlace::Vram(page_of_spans(spans, i)),
        Mem::Tt => PagePlace::Aper(page_of_spans(spans, i)),
        Mem::System => PagePlace::Frame(0),
    }
}

/// Returns the packet that copies the page `from` to the page `to`.
pub fn copy_of_page(to: PagePlace, from: PagePlace) -> Packet
    ensures { result ≡ moves.copy_of_page to from }
{
    Packet::Copy {
        to,
        toff: 0,
        from,
        foff: 0,
        len: PAGE_BYTES,
    }
}

/// Returns the place of a page at `place` once its frame was given back: a slot stays.
fn without_its_frame(place: Loc) -> Loc
    ensures { result ≡ without_frame place }
{
    match place {
        Loc::Frame(_) | Loc::Zero => Loc::Zero,
        Loc::Slot(slot) => Loc::Slot(slot),
    }
}

/// Takes the frames out of a page table. Slots stay.
pub fn drop_frames(table: &mut Table)
    ensures { table.new ≡ map without_frame table.old }
{
    for i in 0..table.len() {
        table.set(i, without_its_frame(table.at(i)));
    }
}
