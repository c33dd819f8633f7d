use crate::maps::scripts::{A, B, MapLine, maps_of};
use crate::wanted::ensure;
use cpu_maps::CpuMaps;
use std::process::Abort;
use ttm_base::{BufId, PagePlace};

/// For each of a buffer's two pages a place, or none.
type Pages = (Option<PagePlace>, Option<PagePlace>);

/// An event that mappings see.
#[derive(Clone, Copy)]
enum Event {
    /// A thread reads or writes those pages of a buffer that have a place here.
    Access(u32, BufId, Pages),
    /// A page is swapped out.
    PageLeaves(BufId, u32),
    /// A buffer moves, or is freed.
    BufferLeaves(BufId),
    Unmap(u32, BufId),
}

const NONE: Pages = (None, None);

const FRAMES: Pages = (Some(PagePlace::Frame(0)), Some(PagePlace::Frame(1)));

const VRAM: Pages = (Some(PagePlace::Vram(0)), Some(PagePlace::Vram(1)));

const FIRST_FRAME: Pages = (Some(PagePlace::Frame(0)), None);

const LAST_FRAME: Pages = (None, Some(PagePlace::Frame(1)));

/// Asserts that the page's entry in a thread's mapping is the one that is wanted.
fn assert_entry(rt: &impl Abort, entry: Option<PagePlace>, want: Option<PagePlace>) {
    ensure(rt, entry == want);
}

/// Asserts that the entries of a thread's mapping are these.
fn assert_entries(rt: &impl Abort, maps: &CpuMaps, thread: u32, b: BufId, want: &Pages) {
    assert_entry(rt, maps.entry(thread, b, 0), want.0);
    assert_entry(rt, maps.entry(thread, b, 1), want.1);
}

/// Which of a buffer's two pages fault.
type Faults = (bool, bool);

const BOTH: Faults = (true, true);

const FIRST: Faults = (true, false);

const NEITHER: Faults = (false, false);

/// Reads or writes a page, if it has a place here, and returns whether it faults.
fn access(maps: &mut CpuMaps, thread: u32, b: BufId, page: u32, place: Option<PagePlace>) -> bool {
    let Some(place) = place else {
        return false;
    };
    let faults = maps.entry(thread, b, page).is_none();
    maps.fault_in(thread, b, page, place);
    faults
}

/// Makes `event` happen, and returns which pages fault.
fn take_event(maps: &mut CpuMaps, event: Event) -> Faults {
    match event {
        Event::Access(thread, b, (first, last)) => {
            let faults = access(maps, thread, b, 0, first);
            return (faults, access(maps, thread, b, 1, last));
        }
        Event::PageLeaves(b, page) => maps.drop_page(b, page),
        Event::BufferLeaves(b) => maps.drop_buffer(b),
        Event::Unmap(thread, b) => maps.unmap(thread, b),
    }
    NEITHER
}

/// A buffer is written and read in SYSTEM, read in VRAM, to which it comes through TT, and evicted and read: each access with the pages that
/// fault, and the entries after it.
const ONE_BUFFER: &[(Event, Faults, Pages)] = &[
    (Event::Access(1, A, FRAMES), BOTH, FRAMES),
    (Event::Access(1, A, FIRST_FRAME), NEITHER, FRAMES),
    (Event::BufferLeaves(A), NEITHER, NONE),
    (Event::BufferLeaves(A), NEITHER, NONE),
    (Event::Access(1, A, VRAM), BOTH, VRAM),
    (Event::BufferLeaves(A), NEITHER, NONE),
    (Event::Access(1, A, FIRST_FRAME), FIRST, FIRST_FRAME),
];

/// Asserts that the event faults on these pages and leaves these entries.
fn assert_faults(rt: &impl Abort, maps: &mut CpuMaps, event: Event, faults: Faults, want: &Pages) {
    ensure(rt, take_event(maps, event) == faults);
    assert_entries(rt, maps, 1, A, want);
}

#[test]
fn accesses_fault_once(rt: HostRuntime) {
    let mut maps = maps_of(&rt, rt.alloc(), &[MapLine::Map(1, A)]);
    for (event, faults, want) in ONE_BUFFER {
        assert_faults(&rt, &mut maps, *event, *faults, want);
    }
}

/// Two threads map a buffer, and the first another one, too: the entries of the three mappings after each event.
const TWO_BUFFERS: &[(Event, (Pages, Pages, Pages))] = &[
    (Event::Access(1, A, FRAMES), (FRAMES, NONE, NONE)),
    (Event::Access(2, A, FRAMES), (FRAMES, FRAMES, NONE)),
    (Event::Access(1, B, VRAM), (FRAMES, FRAMES, VRAM)),
    (Event::PageLeaves(A, 0), (LAST_FRAME, LAST_FRAME, VRAM)),
    (Event::PageLeaves(A, 2), (LAST_FRAME, LAST_FRAME, VRAM)),
    (Event::Access(2, A, FIRST_FRAME), (LAST_FRAME, FRAMES, VRAM)),
    (Event::Access(2, B, VRAM), (LAST_FRAME, FRAMES, VRAM)),
    (Event::Unmap(2, B), (LAST_FRAME, FRAMES, VRAM)),
    (Event::Unmap(1, A), (NONE, FRAMES, VRAM)),
    (Event::BufferLeaves(A), (NONE, NONE, VRAM)),
    (Event::BufferLeaves(B), (NONE, NONE, NONE)),
];

/// Asserts that the event leaves these entries.
fn assert_left(rt: &impl Abort, maps: &mut CpuMaps, event: Event, want: &(Pages, Pages, Pages)) {
    take_event(maps, event);
    assert_entries(rt, maps, 1, A, &want.0);
    assert_entries(rt, maps, 2, A, &want.1);
    assert_entries(rt, maps, 1, B, &want.2);
}

#[test]
fn all_mappings_of_a_buffer_lose_a_page(rt: HostRuntime) {
    let lines = [MapLine::Map(1, A), MapLine::Map(1, B), MapLine::Map(2, A)];
    let mut maps = maps_of(&rt, rt.alloc(), &lines);
    for (event, want) in TWO_BUFFERS {
        assert_left(&rt, &mut maps, *event, want);
    }
}
