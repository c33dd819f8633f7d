ghost use Rattle.std.specs.Prelude.{◌≡◌, ◌<◌};

use crate::wanted::{ensure, is_buffer};
use lru_bulk::{Lru, Steps};
use std::marker::Brand;
use std::process::Abort;
use std::sync::ledger::{Blank, Ledger};
use ttm_base::{BufId, Mem};

/// Lists buffer `b`, which may be listed.
fn list(rt: &impl Abort, lru: &mut Lru, b: u32, prio: u32, group: Option<u32>) {
    ensure(rt, prio < 4);
    ensure(rt, lru.can_add(BufId(b), group));
    lru.add(BufId(b), Mem::Vram, prio, group)
        .expect(rt, "a place");
}

/// Lists each buffer of the rows, with its group.
fn list_all(rt: &impl Abort, lru: &mut Lru, prio: u32, rows: &[(u32, Option<u32>)]) {
    for (b, group) in rows {
        list(rt, lru, *b, prio, *group);
    }
}

/// Takes the first buffer off the lists of VRAM, priority 0 first, and returns it.
fn evict(lru: &mut Lru) -> Option<BufId> {
    for prio in 0..4 {
        if let Some(b) = lru.first(Mem::Vram, prio) {
            if lru.is_listed(b) {
                lru.remove(b);
            }
            return Some(b);
        }
    }
    None
}

/// Asserts that buffer `b` stands at the place. Returns the one after it in its list, if it is on one.
fn follows(rt: &impl Abort, lru: &Lru, at: Option<BufId>, b: u32) -> Option<BufId> {
    let b = BufId(b);
    is_buffer(rt, at, Some(b));
    if lru.is_listed(b) { lru.next(b) } else { None }
}

/// Asserts that the buffers of a list of VRAM are these.
fn assert_order(rt: &impl Abort, lru: &Lru, prio: u32, want: &[u32]) {
    ensure(rt, prio < 4);
    let mut at = lru.first(Mem::Vram, prio);
    for b in want {
        at = follows(rt, lru, at, *b);
    }
    is_buffer(rt, at, None);
}

/// Touches buffer `b`, which is listed.
fn touch(rt: &impl Abort, lru: &mut Lru, b: BufId) {
    ensure(rt, lru.is_listed(b));
    lru.touch(b);
}

/// Returns the number at `place` of a list of the odd numbers below 200 and the even ones after them.
fn odd_before_even(place: u32) -> u32
    requires { place < 200 }
{
    if place < 100 {
        2 * place + 1
    } else {
        2 * place - 200
    }
}

/// Asserts that the buffers of the list are the two hundred, the odd ones first.
fn assert_two_hundred(rt: &impl Abort, lru: &Lru) {
    let mut at = lru.first(Mem::Vram, 0);
    for place in 0..200u32 {
        at = follows(rt, lru, at, odd_before_even(place));
    }
    is_buffer(rt, at, None);
}

/// Moves group 0, and counts the steps.
fn moved<L: Ledger>(lru: &mut Lru, blank: Blank)
    requires name { blank.name ≡ L.name }
    requires parts { blank.parts ≡ L.parts }
    requires one_part { blank.parts ≡ 1 }
    requires group { 0 < lru.old.groups }
{
    let mut steps = Steps::<L>::new(blank);
    lru.bulk_tail_counted(0, &mut steps);
}

/// Moves group 0 in a list of VRAM alone, and counts the steps.
fn moved_in<L: Ledger>(lru: &mut Lru, prio: u32, blank: Blank)
    requires name { blank.name ≡ L.name }
    requires parts { blank.parts ≡ L.parts }
    requires one_part { blank.parts ≡ 1 }
    requires prio { prio < 4 }
    requires group { 0 < lru.old.groups }
{
    let mut steps = Steps::<L>::new(blank);
    lru.bulk_tail_in(Mem::Vram, prio, 0, &mut steps);
}

const THREE: &[(u32, Option<u32>)] = &[(0, Some(0)), (1, None), (2, Some(0))];

/// The victims in order, and the buffer that is listed after each, with its priority.
const VICTIMS: &[(u32, u32, u32)] = &[(1, 3, 1), (0, 4, 1), (2, 5, 1), (3, 6, 0), (6, 7, 1)];

/// Evicts the victims, and lists a buffer after each.
fn evict_all(rt: &impl Abort, lru: &mut Lru) {
    for (victim, next, prio) in VICTIMS {
        is_buffer(rt, evict(lru), Some(BufId(*victim)));
        list(rt, lru, *next, *prio, None);
    }
}

#[test]
fn victims_in_priority_and_bulk_order(rt: HostRuntime) {
    let rt = &rt;
    let mut lru = Lru::new(rt.alloc(), 8, 1).expect(rt, "lists");
    list_all(rt, &mut lru, 1, THREE);
    ensure(rt, lru.can_add(BufId(7), Some(0)));
    lru.bulk_tail(0);
    evict_all(rt, &mut lru);
    drop(lru);
}

/// Lists two hundred buffers, of which every other one is of group 0.
fn list_two_hundred(rt: &impl Abort, lru: &mut Lru) {
    for b in 0..200 {
        let group = if b % 2 == 0 { Some(0) } else { None };
        list(rt, lru, b, 0, group);
    }
}

#[test]
fn bulk_of_two_hundred(rt: HostRuntime) {
    let rt = &rt;
    let mut lru = Lru::new(rt.alloc(), 201, 1).expect(rt, "lists");
    list_two_hundred(rt, &mut lru);
    ensure(rt, lru.can_add(BufId(200), Some(0)));
    moved::<Brand>(&mut lru, Blank::new(1));
    assert_two_hundred(rt, &lru);
    drop(lru);
}

const OTHER_LIST: &[(u32, Option<u32>)] = &[(3, Some(0)), (4, None)];

#[test]
fn bulk_of_one_list(rt: HostRuntime) {
    let rt = &rt;
    let mut lru = Lru::new(rt.alloc(), 8, 1).expect(rt, "lists");
    list_all(rt, &mut lru, 1, THREE);
    list_all(rt, &mut lru, 2, OTHER_LIST);
    ensure(rt, lru.can_add(BufId(7), Some(0)));
    moved_in::<Brand>(&mut lru, 1, Blank::new(1));
    assert_order(rt, &lru, 1, &[1, 0, 2]);
    assert_order(rt, &lru, 2, &[3, 4]);
    drop(lru);
}

const FOUR: &[(u32, Option<u32>)] = &[(0, Some(0)), (1, None), (2, Some(0)), (3, None)];

#[test]
fn touched_and_relisted(rt: HostRuntime) {
    let rt = &rt;
    let mut lru = Lru::new(rt.alloc(), 4, 1).expect(rt, "lists");
    list_all(rt, &mut lru, 2, FOUR);
    touch(rt, &mut lru, BufId(0));
    assert_order(rt, &lru, 2, &[2, 0, 1, 3]);
    ensure(rt, lru.is_listed(BufId(2)));
    lru.relist(BufId(2), Mem::Tt);
    is_buffer(rt, lru.first(Mem::Tt, 2), Some(BufId(2)));
    touch(rt, &mut lru, BufId(0));
    assert_order(rt, &lru, 2, &[1, 3, 0]);
    drop(lru);
}
