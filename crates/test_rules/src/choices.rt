use crate::making::{core_of, ensure, ghost_in_vram, list, one, script_of};
use journal_model::{Buffers, Core, Jobs, Script};
use rules_choice::choice;
use std::alloc::Global;
use std::process::Abort;
use ttm_base::{BufId, Mem, NoMemory, Place, Span};

/// Makes a core in which a ghost holds pages of VRAM.
fn core_with(rt: &impl Abort, alloc: Global, held: &[Span]) -> Core {
    let left = ghost_in_vram(alloc, 1, list(rt, alloc, held));
    core_of(Buffers::new(alloc), Jobs::new(alloc), one(rt, alloc, left))
}

/// A request for pages of VRAM, what of it is held, and the pages that are to be found.
#[derive(Clone, Copy)]
struct Case {
    buffer: BufId,
    held: &'static [Span],
    place: Place,
    want: &'static [Span],
}

/// A place in VRAM.
const ANYWHERE: Place = Place {
    mem: Mem::Vram,
    first: 0,
    last: 0,
    topdown: false,
    contig: false,
};

const TOPDOWN: Place = Place {
    topdown: true,
    ..ANYWHERE
};

const CONTIG: Place = Place {
    contig: true,
    ..ANYWHERE
};

/// Asserts that the place has the pages for a case that are wanted: none where it has no choice.
fn assert_choice(rt: &impl Abort, alloc: Global, script: &Script, core: &Core, case: &Case) {
    match choice(alloc, script, core, case.buffer, case.place) {
        Ok(Some(pages)) => ensure(rt, pages.items() == case.want),
        Ok(None) => ensure(rt, case.want.is_empty()),
        Err(NoMemory) => ensure(rt, false),
    }
}

/// Asserts that each case of a script has the answer that is wanted.
fn assert_choices(rt: &impl Abort, alloc: Global, script: &str, cases: &[Case]) {
    let script = script_of(rt, alloc, script);
    for case in cases {
        let core = core_with(rt, alloc, case.held);
        assert_choice(rt, alloc, &script, &core, case);
    }
}

/// A range manager of 16 pages, and buffers by pages and alignment.
const RANGE_SCRIPT: &str = "ttm 1
vram range 16
tt 0
frames 0
swap 0
engines 1
buffer a 4 prio 0 group - align 1 want vram busy vram
buffer b 1 prio 0 group - align 1 want vram busy vram
buffer c 4 prio 0 group - align 4 want vram busy vram
buffer d 4 prio 0 group - align 8 want vram busy vram
end
";

/// Four of 16 free pages.
const RANGE: Case = Case {
    buffer: BufId(0),
    held: &[],
    place: ANYWHERE,
    want: &[],
};

const RANGES: &[Case] = &[
    Case {
        buffer: BufId(1),
        held: &[
            Span { start: 0, end: 4 },
            Span { start: 6, end: 10 },
            Span { start: 11, end: 16 },
        ],
        want: &[Span { start: 10, end: 11 }],
        ..RANGE
    },
    Case {
        buffer: BufId(1),
        held: &[
            Span { start: 0, end: 4 },
            Span { start: 6, end: 10 },
            Span { start: 10, end: 11 },
            Span { start: 11, end: 16 },
        ],
        place: TOPDOWN,
        want: &[Span { start: 5, end: 6 }],
        ..RANGE
    },
    Case {
        buffer: BufId(2),
        held: &[Span { start: 0, end: 3 }],
        want: &[Span { start: 4, end: 8 }],
        ..RANGE
    },
    Case {
        buffer: BufId(3),
        place: TOPDOWN,
        want: &[Span { start: 8, end: 12 }],
        ..RANGE
    },
    Case {
        place: Place {
            first: 2,
            last: 5,
            ..ANYWHERE
        },
        ..RANGE
    },
];

/// A buddy manager of 12 pages, and buffers by pages.
const BLOCK_SCRIPT: &str = "ttm 1
vram buddy 12
tt 0
frames 0
swap 0
engines 1
buffer a 3 prio 0 group - align 1 want vram busy vram
buffer b 1 prio 0 group - align 1 want vram busy vram
buffer c 9 prio 0 group - align 1 want vram busy vram
buffer d 2 prio 0 group - align 1 want vram busy vram
end
";

/// Three of 12 free pages, which are a block of 8 and one of 4.
const BLOCK: Case = Case {
    buffer: BufId(0),
    held: &[],
    place: ANYWHERE,
    want: &[],
};

const BLOCKS: &[Case] = &[
    Case {
        want: &[Span { start: 8, end: 10 }, Span { start: 10, end: 11 }],
        ..BLOCK
    },
    Case {
        place: CONTIG,
        want: &[Span { start: 8, end: 11 }],
        ..BLOCK
    },
    Case {
        buffer: BufId(1),
        place: TOPDOWN,
        want: &[Span { start: 11, end: 12 }],
        ..BLOCK
    },
    Case {
        buffer: BufId(2),
        place: CONTIG,
        ..BLOCK
    },
    Case {
        buffer: BufId(3),
        held: &[Span { start: 8, end: 9 }],
        want: &[Span { start: 10, end: 12 }],
        ..BLOCK
    },
];

#[test]
fn managers_answer(rt: HostRuntime) {
    let rt = &rt;
    assert_choices(rt, rt.alloc(), RANGE_SCRIPT, RANGES);
    assert_choices(rt, rt.alloc(), BLOCK_SCRIPT, BLOCKS);
}
