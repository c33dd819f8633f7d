ghost use Rattle.std.specs.Prelude.{◌≡◌, ◌*◌, ◌≤◌, length, IsTrue};
ghost use Rattle.copy_packet.specs.Runs.{CanRun, IsPart};

use crate::copies::bytes::{assert_bytes, assert_within};
use crate::copies::stores::stores;
use crate::wanted::{are_bytes, are_packets, ensure};
use copy_packet::{PagePlaces, PlaceMap, PlaceRow, ProbeBytes, Stores, cut, run, show};
use std::alloc::Global;
use std::process::Abort;
use ttm_base::{BufId, Op, Packet, PagePlace};

/// Returns the row of the pages of buffer `b`.
fn row(rt: &impl Abort, alloc: Global, b: BufId, pages: &[PagePlace]) -> PlaceRow {
    PlaceRow {
        b,
        pages: PagePlaces::from_slice(alloc, pages).expect(rt, "pages"),
    }
}

/// Asserts that operations on buffers that stand in these frames are cut into these packets.
fn assert_cut(
    rt: &impl Abort,
    alloc: Global,
    buffers: &[(BufId, &[PagePlace])],
    ops: &[Op],
    want: &[Packet],
) {
    let mut places = PlaceMap::new(alloc);
    for (b, pages) in buffers {
        places.push(row(rt, alloc, *b, pages)).expect(rt, "a row");
    }
    let packets = cut(alloc, ops, &places).expect(rt, "packets");
    are_packets(rt, packets.as_slice(), want);
}

/// What is done to the stores and to the bytes that are shown, as the calls are named, or bytes that are then to be there.
#[derive(Clone, Copy)]
enum Step {
    Map(u32, u32),
    Copy(u64, &'static [u8]),
    Run(Packet),
    Show(Packet),
    Set(&'static [u8]),
    Frames(u64, &'static [u8]),
    Vram(u64, &'static [u8]),
    Shown(&'static [u8]),
}

/// Returns whether the range is near the start of a page that the stores have.
fn is_near(stores: &Stores, place: PagePlace, off: u32, len: u32) -> bool
    requires vram { length stores.now.vram ≡ 4096 }
    requires frames { length stores.now.frames ≡ 4096 * 8 }
    requires aper { length stores.now.aper ≡ 4 }
    ensures part { IsTrue result → IsPart stores.now place off len }
    ensures few { IsTrue result → len ≤ 100 }
{
    let is_there = match place {
        PagePlace::Vram(page) => page == 0,
        PagePlace::Frame(frame) => frame < 8,
        PagePlace::Aper(page) => {
            page < 4 && matches!(stores.aper.get(page), Some(frame) if frame < 8)
        }
    };
    is_there && off <= 100 && len <= 100
}

/// Returns whether each part of the packet is near the start of a page that the stores have.
fn can_run(stores: &Stores, packet: &Packet) -> bool
    requires vram { length stores.now.vram ≡ 4096 }
    requires frames { length stores.now.frames ≡ 4096 * 8 }
    requires aper { length stores.now.aper ≡ 4 }
    ensures { IsTrue result → CanRun stores.now packet.now }
{
    match *packet {
        Packet::Fill { to, off, len, .. } => is_near(stores, to, off, len),
        Packet::Copy {
            to,
            toff,
            from,
            foff,
            len,
        }
        | Packet::Xor {
            to,
            toff,
            from,
            foff,
            len,
        } => is_near(stores, to, toff, len) && is_near(stores, from, foff, len),
        Packet::Probe { from, off, len } => is_near(stores, from, off, len),
    }
}

/// Takes a step in stores of a page of VRAM, eight frames, and an aperture of four pages.
fn take(rt: &impl Abort, stores: &mut Stores, out: &mut ProbeBytes, step: &Step)
    requires vram { length stores.old.vram ≡ 4096 }
    requires frames { length stores.old.frames ≡ 4096 * 8 }
    requires aper { length stores.old.aper ≡ 4 }
    ensures vram { length stores.new.vram ≡ 4096 }
    ensures frames { length stores.new.frames ≡ 4096 * 8 }
    ensures aper { length stores.new.aper ≡ 4 }
{
    match step {
        Step::Map(page, frame) => {
            ensure(rt, *page < 4);
            stores.aper.set(*page, *frame);
        }
        Step::Copy(at, bytes) => {
            assert_within(rt, *at, bytes.len() as u64, 8);
            stores.frames.copy_page_part(*at, bytes);
        }
        Step::Run(packet) => {
            ensure(rt, can_run(stores, packet));
            run(packet, stores, out);
        }
        Step::Show(packet) => {
            ensure(rt, can_run(stores, packet));
            show(packet, stores, out);
        }
        Step::Set(bytes) => {
            ensure(rt, bytes.len() <= 256);
            out.set(bytes);
        }
        Step::Frames(at, bytes) => {
            assert_within(rt, *at, bytes.len() as u64, 8);
            assert_bytes(rt, &stores.frames, *at, bytes);
        }
        Step::Vram(at, bytes) => {
            assert_within(rt, *at, bytes.len() as u64, 1);
            assert_bytes(rt, &stores.vram, *at, bytes);
        }
        Step::Shown(bytes) => are_bytes(rt, out.bytes(), bytes),
    }
}

/// A packet goes to the frame to which its page is mapped when it runs.
const THROUGH_THE_APERTURE: &[Step] = &[
    Step::Map(3, 5),
    Step::Map(3, 6),
    Step::Run(Packet::Fill {
        to: PagePlace::Aper(3),
        off: 0,
        len: 1,
        byte: 170,
    }),
    Step::Frames(4096 * 5, &[0, 0]),
    Step::Frames(4096 * 6, &[170, 0]),
    Step::Vram(0, &[0, 0]),
    Step::Shown(&[]),
];

const A: BufId = BufId(0);

const B: BufId = BufId(1);

const BUFFERS: &[(BufId, &[PagePlace])] = &[
    (A, &[PagePlace::Frame(0)]),
    (B, &[PagePlace::Frame(1)]),
];

const OPS: &[Op] = &[
    Op::Copy {
        dst: B,
        doff: 4,
        src: A,
        soff: 0,
        len: 2,
    },
    Op::Fill {
        dst: A,
        off: 0,
        len: 1,
        byte: 0xff,
    },
    Op::Probe {
        src: B,
        off: 3,
        len: 4,
    },
];

const COPY: Packet = Packet::Copy {
    to: PagePlace::Frame(1),
    toff: 4,
    from: PagePlace::Frame(0),
    foff: 0,
    len: 2,
};

const FILL: Packet = Packet::Fill {
    to: PagePlace::Frame(0),
    off: 0,
    len: 1,
    byte: 0xff,
};

const PROBE: Packet = Packet::Probe {
    from: PagePlace::Frame(1),
    off: 3,
    len: 4,
};

/// The packets of a job of three operations leave and show the bytes that are wanted.
const THREE_OPS: &[Step] = &[
    Step::Copy(0, &[1, 2]),
    Step::Run(COPY),
    Step::Run(FILL),
    Step::Run(PROBE),
    Step::Shown(&[0, 1, 2, 0]),
    Step::Frames(0, &[0xff, 2, 0]),
    Step::Frames(4096 + 3, &[0, 1, 2, 0]),
];

const BEHIND: &[(BufId, &[PagePlace])] = &[(BufId(7), &[PagePlace::Frame(2), PagePlace::Frame(0)])];

const OVER_THE_BORDER: Op = Op::Fill {
    dst: BufId(7),
    off: 4094,
    len: 4,
    byte: 9,
};

const PIECES: &[Packet] = &[
    Packet::Fill {
        to: PagePlace::Frame(2),
        off: 4094,
        len: 2,
        byte: 9,
    },
    Packet::Fill {
        to: PagePlace::Frame(0),
        off: 0,
        len: 2,
        byte: 9,
    },
];

/// Three operations on a buffer at frame 0 and one at frame 1 are three packets, and an operation is cut where it comes to another page.
#[test]
fn operations_are_cut(rt: HostRuntime) {
    assert_cut(&rt, rt.alloc(), &BUFFERS, &OPS, &[COPY, FILL, PROBE]);
    assert_cut(&rt, rt.alloc(), &BEHIND, &[OVER_THE_BORDER], &PIECES);
}

const TO_VRAM: Packet = Packet::Copy {
    to: PagePlace::Vram(0),
    toff: 20,
    from: PagePlace::Frame(2),
    foff: 10,
    len: 3,
};

const VRAM_SHOWN: Packet = Packet::Probe {
    from: PagePlace::Vram(0),
    off: 19,
    len: 5,
};

const XOR_BACK: Packet = Packet::Xor {
    to: PagePlace::Frame(2),
    toff: 10,
    from: PagePlace::Vram(0),
    foff: 21,
    len: 3,
};

/// Bytes go from a store to the other, and a packet that isn't a probe shows nothing.
const BETWEEN_VRAM_AND_FRAMES: &[Step] = &[
    Step::Copy(4096 * 2 + 10, &[1, 2, 3]),
    Step::Run(TO_VRAM),
    Step::Run(VRAM_SHOWN),
    Step::Shown(&[0, 1, 2, 3, 0]),
    Step::Run(XOR_BACK),
    Step::Frames(4096 * 2 + 9, &[0, 3, 1, 3, 0]),
    Step::Shown(&[]),
    Step::Set(&[4, 5]),
    Step::Shown(&[4, 5]),
];

const LOOK: Packet = Packet::Probe {
    from: PagePlace::Aper(3),
    off: 9,
    len: 5,
};

const CHANGE: Packet = Packet::Fill {
    to: PagePlace::Aper(3),
    off: 10,
    len: 1,
    byte: 9,
};

/// A probe is shown over lent stores, through the aperture; another packet shows nothing and isn't done.
const OVER_LENT_STORES: &[Step] = &[
    Step::Map(3, 2),
    Step::Copy(4096 * 2 + 10, &[1, 2, 3]),
    Step::Show(LOOK),
    Step::Shown(&[0, 1, 2, 3, 0]),
    Step::Show(CHANGE),
    Step::Shown(&[]),
    Step::Frames(4096 * 2 + 9, &[0, 1, 2, 3, 0]),
];

/// Takes the steps in new stores of a page of VRAM, eight frames, and an aperture of four pages.
fn take_all(rt: &impl Abort, alloc: Global, steps: &[Step]) {
    let mut stores = stores(rt, alloc, 1, 8, 4);
    let mut out = ProbeBytes::new(alloc).expect(rt, "bytes");
    for step in steps {
        take(rt, &mut stores, &mut out, step);
    }
    drop(stores);
}

const RUNS: &[&[Step]] = &[
    THROUGH_THE_APERTURE,
    THREE_OPS,
    BETWEEN_VRAM_AND_FRAMES,
    OVER_LENT_STORES,
];

#[test]
fn packets_leave_and_show_bytes(rt: HostRuntime) {
    for steps in RUNS {
        take_all(&rt, rt.alloc(), steps);
    }
}
