ghost use Rattle.std.specs.Prelude.{◌≡◌, ◌+◌, ◌*◌, ◌%◌, ◌≤◌, length};

use crate::wanted::ensure;
use byte_store::ByteStore;
use std::alloc::Global;
use std::process::Abort;

/// Asserts that the store has these bytes from `at` on.
pub fn assert_bytes(rt: &impl Abort, store: &ByteStore, at: u64, want: &[u8])
    requires { at + length want.now ≤ length store.now }
{
    for i in 0..want.len() {
        ensure(rt, store.get(at.saturating_add(i as u64)) == want[i]);
    }
}

/// Asserts that `len` bytes from `at` on are within `pages` pages.
fn assert_inside(rt: &impl Abort, at: u64, len: u64, pages: u32)
    ensures { at + len ≤ 4096 * pages }
{
    let size = 4096 * pages as u64;
    ensure(rt, len <= size && at <= size - len);
}

/// Asserts that `len` bytes from `at` on are at most a page, and within `pages` pages.
pub fn assert_within(rt: &impl Abort, at: u64, len: u64, pages: u32)
    ensures page { len ≤ 4096 }
    ensures within { at + len ≤ 4096 * pages }
{
    ensure(rt, len <= 4096);
    assert_inside(rt, at, len, pages);
}

/// What is done to a store, as its calls are named, or bytes that it is to have from a place on.
#[derive(Clone, Copy)]
enum Step {
    Fill(u64, u64, u8),
    Put(u64, u8),
    CopyPagePart(u64, &'static [u8]),
    CopyWithin(u64, u64, u64),
    XorPagePart(u64, &'static [u8]),
    XorWithin(u64, u64, u64),
    ZeroPage(u32),
    Get(u64, u8),
    Has(u64, &'static [u8]),
}

/// Takes a step in a store of `pages` pages.
fn take(rt: &impl Abort, store: &mut ByteStore, pages: u32, step: Step)
    requires { length store.old ≡ 4096 * pages }
    ensures { length store.new ≡ 4096 * pages }
{
    match step {
        Step::Fill(at, len, byte) => {
            assert_within(rt, at, len, pages);
            store.fill(at, len, byte);
        }
        Step::Put(at, byte) => {
            assert_within(rt, at, 1, pages);
            store.put(at, byte);
        }
        Step::CopyPagePart(at, bytes) => {
            assert_within(rt, at, bytes.len() as u64, pages);
            store.copy_page_part(at, bytes);
        }
        Step::CopyWithin(to, from, len) => {
            assert_inside(rt, to, len, pages);
            assert_inside(rt, from, len, pages);
            store.copy_within(to, from, len);
        }
        Step::XorPagePart(at, bytes) => {
            assert_within(rt, at, bytes.len() as u64, pages);
            store.xor_page_part(at, bytes);
        }
        Step::XorWithin(to, from, len) => {
            assert_within(rt, to, len, pages);
            assert_within(rt, from, len, pages);
            store.xor_within(to, from, len);
        }
        Step::ZeroPage(page) => {
            assert_within(rt, 4096 * page as u64, 4096, pages);
            store.zero_page(page);
        }
        Step::Get(at, byte) => {
            assert_within(rt, at, 1, pages);
            ensure(rt, store.get(at) == byte);
        }
        Step::Has(at, bytes) => {
            assert_within(rt, at, bytes.len() as u64, pages);
            assert_bytes(rt, store, at, bytes);
        }
    }
}

const ON_TWO_PAGES: &[Step] = &[
    Step::Has(4094, &[0, 0, 0, 0]),
    Step::Fill(4093, 5, 7),
    Step::Put(4095, 9),
    Step::Has(4092, &[0, 7, 7, 9, 7, 7, 0]),
    Step::CopyPagePart(4094, &[1, 2, 3]),
    Step::Has(4092, &[0, 7, 1, 2, 3, 7, 0]),
    Step::Get(4096, 3),
    Step::ZeroPage(1),
    Step::Has(4092, &[0, 7, 1, 2, 0, 0, 0]),
    Step::ZeroPage(0),
    Step::Has(4092, &[0, 0, 0, 0, 0, 0, 0]),
];

/// Copies and exclusive ors. Parts that overlap are read before they are written.
const OVERLAPS: &[Step] = &[
    Step::CopyPagePart(0, &[1, 2, 3, 4, 5, 6]),
    Step::CopyWithin(2, 0, 4),
    Step::Has(0, &[1, 2, 1, 2, 3, 4, 0]),
    Step::CopyWithin(0, 1, 5),
    Step::Has(0, &[2, 1, 2, 3, 4, 4, 0]),
    Step::XorPagePart(0, &[0xff, 1]),
    Step::Has(0, &[0xfd, 0, 2, 3, 4, 4, 0]),
    Step::XorWithin(2, 1, 4),
    Step::Has(0, &[0xfd, 0, 2, 1, 7, 0, 0]),
];

const SIXTEEN: &[u8] = &[0, 0, 0, 0, 0, 0, 0, 0, 0, 0, 0, 0, 0, 0, 0, 0];

/// A byte far from others stands between zeros, and pages after it are zeros.
const FAR_BYTE: &[Step] = &[
    Step::Has(4096 * 39, SIXTEEN),
    Step::ZeroPage(39),
    Step::Put(4096 * 20 + 5, 7),
    Step::Has(4096 * 20 + 4, &[0, 7, 0]),
    Step::Has(4096 * 36 + 4, SIXTEEN),
];

/// Bytes are copied to pages that were never written, and zeros from them.
const FAR_COPIES: &[Step] = &[
    Step::Put(4096 * 20 + 5, 7),
    Step::CopyWithin(4096 * 38, 4096 * 20 + 4, 3),
    Step::Has(4096 * 38, &[0, 7, 0]),
    Step::CopyWithin(4096 * 20, 4096 * 39, 8),
    Step::Has(4096 * 20 + 4, &[0, 0, 0]),
];

/// A byte of a page that was never written is a zero in an exclusive or.
const FAR_XOR: &[Step] = &[
    Step::XorPagePart(4096 * 38 + 1, &[7]),
    Step::Has(4096 * 38, &[0, 7, 0]),
];

/// A page that was zeroed has zeros beside what is written to it then, and reads as zeros where it is copied from.
const CLEARED: &[Step] = &[
    Step::Fill(0, 4096, 7),
    Step::Fill(4096, 4096, 7),
    Step::ZeroPage(0),
    Step::CopyWithin(8, 0, 4),
    Step::Has(0, SIXTEEN),
    Step::ZeroPage(0),
    Step::Put(5, 9),
    Step::Has(4, &[0, 9, 0]),
    Step::Has(4090, &[0, 0, 0, 0, 0, 0, 7]),
    Step::ZeroPage(1),
    Step::XorWithin(4096, 5, 1),
    Step::Has(4095, &[0, 9, 0]),
];

/// Parts of two pages. Those that overlap are read before they are written.
const OVER_A_BORDER: &[Step] = &[
    Step::CopyPagePart(4093, &[1, 2, 3, 4, 5, 6]),
    Step::CopyWithin(4095, 4093, 6),
    Step::Has(4092, &[0, 1, 2, 1, 2, 3, 4, 5, 6, 0]),
    Step::CopyWithin(4092, 4094, 7),
    Step::Has(4091, &[0, 2, 1, 2, 3, 4, 5, 6, 5, 6, 0]),
    Step::XorPagePart(4094, &[0xff, 1, 2, 3]),
    Step::Has(4092, &[2, 1, 0xfd, 2, 6, 6, 6, 5, 6, 0]),
    Step::XorWithin(4095, 4093, 4),
    Step::Has(4092, &[2, 1, 0xfd, 3, 0xfb, 4, 0, 5, 6, 0]),
];

/// More bytes than a page has are copied to where some of them stand, behind and in front.
const LONG_COPIES: &[Step] = &[
    Step::Put(1, 7),
    Step::Put(9000, 8),
    Step::CopyWithin(5000, 0, 10000),
    Step::Has(0, &[0, 7, 0]),
    Step::Has(5000, &[0, 7, 0]),
    Step::Has(8999, &[0, 0, 0]),
    Step::Has(13999, &[0, 8, 0]),
    Step::CopyWithin(3, 5000, 10000),
    Step::Has(3, &[0, 7, 0]),
    Step::Has(5000, &[0, 0, 0]),
    Step::Has(9002, &[0, 8, 0]),
    Step::Has(13999, &[0, 8, 0]),
];

/// The number of pages of a store, and the steps in it.
const STORES: &[(u32, &[Step])] = &[
    (2, ON_TWO_PAGES),
    (1, OVERLAPS),
    (40, FAR_BYTE),
    (40, FAR_COPIES),
    (40, FAR_XOR),
    (2, CLEARED),
    (2, OVER_A_BORDER),
    (4, LONG_COPIES),
];

/// Takes the steps in a new store of `pages` pages.
fn take_all(rt: &impl Abort, alloc: Global, pages: u32, steps: &[Step]) {
    let mut store = ByteStore::new(alloc, pages).expect(rt, "pages");
    for step in steps {
        take(rt, &mut store, pages, *step);
    }
}

#[test]
fn bytes_after_each_step(rt: HostRuntime) {
    for (pages, steps) in STORES {
        take_all(&rt, rt.alloc(), *pages, steps);
    }
}
