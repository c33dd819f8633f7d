ghost use Rattle.std.specs.Prelude.{◌≡◌, ◌+◌, ◌≤◌, true};
ghost use Rattle.std.specs.List.{list_all};
ghost use Rattle.gpu_spaces.specs.Inside.{is_inside};

use crate::spaces::requests::Request::{self, Map, Unmap};
use crate::spaces::requests::{A, B, C, answer};
use crate::wanted::{are_ops, ensure};
use gpu_spaces::{Piece, Space};
use journal_model::VOp;
use std::alloc::Global;
use std::process::Abort;
use ttm_base::{BufId, Op};

/// Returns the space after `requests`.
fn space_of(rt: &impl Abort, alloc: Global, requests: &[Request]) -> Space {
    let mut space = Space::new(alloc);
    for asked in requests {
        answer(rt, alloc, &mut space, *asked);
    }
    space
}

/// Asserts that the operations with addresses are these by name: none where a page isn't mapped.
fn assert_job(rt: &impl Abort, alloc: Global, space: &Space, ops: &[VOp], want: &[Op])
    requires { list_all is_inside ops.now ≡ true }
{
    match space.job(alloc, ops).expect(rt, "memory") {
        Some(job) => {
            ensure(rt, job.len() > 0);
            are_ops(rt, job.items(), want);
        }
        None => ensure(rt, want.is_empty()),
    }
}

/// Asserts that the parts are these.
fn are_pieces(rt: &impl Abort, pieces: &[Piece], want: &[(BufId, u32, u32)]) {
    ensure(rt, pieces.len() == want.len());
    for place in 0..pieces.len() {
        let piece = pieces[place];
        ensure(rt, (piece.b, piece.off, piece.len) == want[place]);
    }
}

/// Asserts that the range has these parts: none where a page isn't mapped.
fn assert_pieces(
    rt: &impl Abort,
    alloc: Global,
    space: &Space,
    addr: u64,
    len: u32,
    want: &[(BufId, u32, u32)],
)
    requires { addr + len ≤ 4294967296 }
{
    match space.pieces(alloc, addr, len).expect(rt, "memory") {
        Some(pieces) => {
            ensure(rt, pieces.len() > 0);
            are_pieces(rt, pieces.items(), want);
        }
        None => ensure(rt, want.is_empty()),
    }
}

const TWO: &[Request] = &[Map(16, 4, A, 0), Map(17, 2, B, 0)];

const OVER_A_BORDER: &[VOp] = &[
    VOp::Fill {
        addr: 69630,
        len: 4,
        byte: 0xab,
    },
    VOp::Probe {
        addr: 69630,
        len: 4,
    },
];

const ON_BOTH_SIDES: &[Op] = &[
    Op::Fill {
        dst: A,
        off: 4094,
        len: 2,
        byte: 0xab,
    },
    Op::Fill {
        dst: B,
        off: 0,
        len: 2,
        byte: 0xab,
    },
    Op::Probe {
        src: A,
        off: 4094,
        len: 2,
    },
    Op::Probe {
        src: B,
        off: 0,
        len: 2,
    },
];

#[test]
fn operations_are_cut_at_a_border(rt: HostRuntime) {
    let alloc = rt.alloc();
    let space = space_of(&rt, alloc, TWO);
    assert_job(&rt, alloc, &space, OVER_A_BORDER, ON_BOTH_SIDES);
}

/// The requests of a space with a hole at page 18.
const HOLED: &[Request] = &[Map(16, 4, A, 0), Map(17, 2, B, 0), Unmap(18, 1)];

const IN_THE_HOLE: &[VOp] = &[VOp::Fill {
    addr: 73728,
    len: 1,
    byte: 0,
}];

/// Operations of which the second comes into the hole with its last byte.
const INTO_THE_HOLE: &[VOp] = &[
    VOp::Fill {
        addr: 69630,
        len: 4,
        byte: 1,
    },
    VOp::Probe {
        addr: 73727,
        len: 2,
    },
];

#[test]
fn page_that_is_not_mapped(rt: HostRuntime) {
    let rt = &rt;
    let alloc = rt.alloc();
    let space = space_of(rt, alloc, HOLED);
    assert_job(rt, alloc, &space, IN_THE_HOLE, &[]);
    assert_job(rt, alloc, &space, INTO_THE_HOLE, &[]);
    assert_pieces(rt, alloc, &space, 65535, 1, &[]);
    assert_pieces(rt, alloc, &space, 69632, 8192, &[]);
    assert_pieces(rt, alloc, &space, 81919, 2, &[]);
    assert_pieces(rt, alloc, &space, 69632, 4096, &[(B, 0, 4096)]);
    assert_pieces(rt, alloc, &space, 77824, 4096, &[(A, 12288, 4096)]);
}

const FOUR: &[Request] = &[
    Map(0, 2, A, 1),
    Map(2, 2, A, 5),
    Map(10, 1, B, 0),
    Map(11, 3, C, 2),
];

const COPIES: &[VOp] = &[
    VOp::Copy {
        addr: 8000,
        from: 45000,
        len: 1000,
    },
    VOp::Xor {
        addr: 8000,
        from: 44956,
        len: 200,
    },
];

/// The copies by name. Each part ends where one of the two ranges comes to another mapping.
const COPIES_BY_NAME: &[Op] = &[
    Op::Copy {
        dst: A,
        doff: 12096,
        src: B,
        soff: 4040,
        len: 56,
    },
    Op::Copy {
        dst: A,
        doff: 12152,
        src: C,
        soff: 8192,
        len: 136,
    },
    Op::Copy {
        dst: A,
        doff: 20480,
        src: C,
        soff: 8328,
        len: 808,
    },
    Op::Xor {
        dst: A,
        doff: 12096,
        src: B,
        soff: 3996,
        len: 100,
    },
    Op::Xor {
        dst: A,
        doff: 12196,
        src: C,
        soff: 8192,
        len: 92,
    },
    Op::Xor {
        dst: A,
        doff: 20480,
        src: C,
        soff: 8284,
        len: 8,
    },
];

#[test]
fn copies_are_cut_at_both_borders(rt: HostRuntime) {
    let rt = &rt;
    let alloc = rt.alloc();
    let space = space_of(rt, alloc, FOUR);
    assert_job(rt, alloc, &space, COPIES, COPIES_BY_NAME);
    let all = [(A, 4096, 8192), (A, 20480, 8192)];
    assert_pieces(rt, alloc, &space, 0, 16384, &all);
    assert_pieces(rt, alloc, &space, 8191, 2, &[(A, 12287, 1), (A, 20480, 1)]);
}

#[test]
fn last_byte_of_the_space(rt: HostRuntime) {
    let rt = &rt;
    let alloc = rt.alloc();
    let space = space_of(rt, alloc, &[Map(1_048_575, 1, A, 4095)]);
    assert_pieces(rt, alloc, &space, 4_294_967_295, 1, &[(A, 16_777_215, 1)]);
    assert_pieces(
        rt,
        alloc,
        &space,
        4_294_963_200,
        4096,
        &[(A, 16_773_120, 4096)],
    );
    assert_pieces(rt, alloc, &space, 4_294_963_199, 2, &[]);
}
