use crate::wanted::ensure;
use cpu_maps::{Area, CpuMaps, Entries};
use journal_model::{
    CommandLists, Decl, Decls, Mark, MarkKind, Marks, Name, Script, Sizes, TurnLines,
};
use std::alloc::Global;
use std::process::Abort;
use ttm_base::{BufId, FlaggedPlaces, Placement};

pub const A: BufId = BufId(0);

pub const B: BufId = BufId(1);

const SIZES: Sizes = Sizes {
    buddy: false,
    vram: 2,
    tt: 8,
    frames: 8,
    swap: 0,
    engines: 0,
};

/// A line of a thread that maps a buffer, or that unmaps it.
#[derive(Clone, Copy)]
pub enum MapLine {
    Map(u32, BufId),
    Unmap(u32, BufId),
}

/// Returns the mark of `line`.
fn mark_of(line: MapLine) -> Mark {
    let (thread, kind) = match line {
        MapLine::Map(thread, b) => (thread, MarkKind::Map { b }),
        MapLine::Unmap(thread, b) => (thread, MarkKind::Unmap { b }),
    };
    Mark {
        thread,
        after: 0,
        kind,
    }
}

/// Declares buffers of these pages, each of this priority.
pub fn declared(rt: &impl Abort, alloc: Global, prio: u32, pages: &[u32]) -> Decls {
    let mut buffers = Decls::new(alloc);
    for pages in pages {
        let decl = Decl {
            name: Name::new(alloc),
            pages: *pages,
            prio,
            group: None,
            align: 1,
            placement: Placement {
                list: FlaggedPlaces::new(alloc),
            },
        };
        buffers.push(decl).expect(rt, "a buffer");
    }
    buffers
}

/// Returns the marks of `lines`.
fn marks_of(rt: &impl Abort, alloc: Global, lines: &[MapLine]) -> Marks {
    let mut marks = Marks::new(alloc);
    for line in lines {
        marks.push(mark_of(*line)).expect(rt, "a line");
    }
    marks
}

/// Makes the mappings of a script with two buffers and these lines.
pub fn maps_of(rt: &impl Abort, alloc: Global, lines: &[MapLine]) -> CpuMaps {
    let script = Script {
        version: 2,
        sizes: SIZES,
        buffers: declared(rt, alloc, 1, &[2, 2]),
        threads: CommandLists::new(alloc),
        turns: TurnLines::new(alloc),
        marks: marks_of(rt, alloc, lines),
    };
    CpuMaps::new(alloc, &script).expect(rt, "mappings")
}

/// Returns whether there are two pages, without an entry.
fn are_two(entries: &Entries) -> bool {
    entries.pages() == 2 && entries.get(0).is_none() && entries.get(1).is_none()
}

/// Returns whether the mapping is of this thread and buffer, with two pages.
fn is_area(area: &Area, want: &(u32, BufId)) -> bool {
    (area.thread, area.b) == *want && are_two(&area.entries)
}

/// Asserts that the mappings are of these threads and buffers, with two pages each.
fn assert_areas(rt: &impl Abort, maps: &CpuMaps, want: &[(u32, BufId)]) {
    let areas = maps.areas();
    ensure(rt, areas.len() == want.len());
    for place in 0..areas.len() {
        ensure(rt, is_area(&areas[place], &want[place]));
    }
}

/// A buffer that a thread maps again has the same mapping; that of another thread is another.
#[test]
fn one_mapping_for_each_buffer_of_a_thread(rt: HostRuntime) {
    let rt = &rt;
    let alloc = rt.alloc();
    assert_areas(rt, &maps_of(rt, alloc, &[]), &[]);
    let lines = [
        MapLine::Map(1, B),
        MapLine::Map(1, A),
        MapLine::Unmap(1, B),
        MapLine::Map(1, B),
        MapLine::Map(3, B),
    ];
    let maps = maps_of(rt, alloc, &lines);
    assert_areas(rt, &maps, &[(1, B), (1, A), (3, B)]);
}
