ghost use Rattle.std.specs.Prelude.{◌==◌, if◌then◌else◌};
ghost use Rattle.ttm_base.specs.declared.PagePlace.TheVariants as place;

use crate::wanted::{are_packets, ensure};
use op_cutting::{PageNames, cut, packet_count};
use std::alloc::Global;
use std::process::Abort;
use ttm_base::{BufId, ItemList, Op, Packet, PagePlace};

const A: BufId = BufId(0);

const B: BufId = BufId(1);

/// Names of pages by their numbers: buffer 0 is named by pages of VRAM, and each other one by frames.
struct InOrder;

impl PageNames for InOrder {
    ghost names = { λ s b page. if b.0 == 0 then place.Vram page else place.Frame page };

    fn name_of(&self, b: BufId, page: u32) -> PagePlace {
        if b.0 == 0 {
            PagePlace::Vram(page)
        } else {
            PagePlace::Frame(page)
        }
    }
}

/// Asserts that the operation is cut into these packets in a vector.
fn is_cut_in_a_vector(rt: &impl Abort, alloc: Global, op: Op, want: &[Packet]) {
    let mut packets = Vec::new(alloc);
    cut(&mut packets, &InOrder, &[op]).expect(rt, "packets");
    are_packets(rt, packets.as_slice(), want);
}

/// Asserts that the operation is cut into these packets in a list.
fn is_cut_in_a_list(rt: &impl Abort, alloc: Global, op: Op, want: &[Packet]) {
    let mut packets = ItemList::new(alloc);
    cut(&mut packets, &InOrder, &[op]).expect(rt, "packets");
    are_packets(rt, packets.items(), want);
}

/// Asserts that the operation is cut into these packets, and that as many are foretold.
fn is_cut_into(rt: &impl Abort, alloc: Global, op: Op, want: &[Packet]) {
    is_cut_in_a_vector(rt, alloc, op, want);
    is_cut_in_a_list(rt, alloc, op, want);
    ensure(rt, packet_count(&op) as usize == want.len());
}

/// A copy from the frames of B to the pages of A in VRAM.
const COPY: Op = Op::Copy {
    dst: A,
    doff: 100,
    src: B,
    soff: 4000,
    len: 5000,
};

/// The packets of `COPY`. It is cut at both borders: each piece ends where the source or the destination comes to another page.
const COPIES: &[Packet] = &[
    Packet::Copy {
        to: PagePlace::Vram(0),
        toff: 100,
        from: PagePlace::Frame(0),
        foff: 4000,
        len: 96,
    },
    Packet::Copy {
        to: PagePlace::Vram(0),
        toff: 196,
        from: PagePlace::Frame(1),
        foff: 0,
        len: 3900,
    },
    Packet::Copy {
        to: PagePlace::Vram(1),
        toff: 0,
        from: PagePlace::Frame(1),
        foff: 3900,
        len: 196,
    },
    Packet::Copy {
        to: PagePlace::Vram(1),
        toff: 196,
        from: PagePlace::Frame(2),
        foff: 0,
        len: 808,
    },
];

/// An exclusive or of a whole page, which is one packet.
const XOR: Op = Op::Xor {
    dst: B,
    doff: 4096,
    src: A,
    soff: 8192,
    len: 4096,
};

const XORS: &[Packet] = &[Packet::Xor {
    to: PagePlace::Frame(1),
    toff: 0,
    from: PagePlace::Vram(2),
    foff: 0,
    len: 4096,
}];

/// A fill that ends in the next page.
const FILL: Op = Op::Fill {
    dst: B,
    off: 4094,
    len: 4,
    byte: 9,
};

const FILLS: &[Packet] = &[
    Packet::Fill {
        to: PagePlace::Frame(0),
        off: 4094,
        len: 2,
        byte: 9,
    },
    Packet::Fill {
        to: PagePlace::Frame(1),
        off: 0,
        len: 2,
        byte: 9,
    },
];

/// A probe of no bytes, which has no packets.
const PROBE: Op = Op::Probe {
    src: A,
    off: 4095,
    len: 0,
};

/// Operations, and the packets into which each is cut.
const CUTS: &[(Op, &[Packet])] = &[(COPY, COPIES), (XOR, XORS), (FILL, FILLS), (PROBE, &[])];

#[test]
fn operations_are_cut_at_borders(rt: HostRuntime) {
    for (op, want) in CUTS {
        is_cut_into(&rt, rt.alloc(), *op, want);
    }
}
