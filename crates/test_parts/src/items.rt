use crate::wanted::{are_bytes, ensure};
use item_queue::ItemQueue;
use std::process::Abort;
use ttm_base::ItemList;

/// A change of a list.
enum Change {
    Extend(&'static [u8]),
    CutBack(usize),
}

/// Changes of a list that has two items, and what it then has.
const CHANGES: &[(Change, &[u8])] = &[
    (Change::Extend(&[3, 4, 5]), &[1, 2, 3, 4, 5]),
    (Change::Extend(&[]), &[1, 2, 3, 4, 5]),
    (Change::CutBack(9), &[1, 2, 3, 4, 5]),
    (Change::CutBack(5), &[1, 2, 3, 4, 5]),
    (Change::CutBack(2), &[1, 2]),
    (Change::CutBack(0), &[]),
    (Change::Extend(&[6]), &[6]),
];

/// Changes the list, and asserts that it then has these items.
fn assert_change(rt: &impl Abort, list: &mut ItemList<u8>, change: &Change, want: &[u8]) {
    match change {
        Change::Extend(items) => list.extend(items).expect(rt, "items"),
        Change::CutBack(len) => list.truncate(*len),
    }
    are_bytes(rt, list.items(), want);
}

/// A list that grows by slices, and is cut back.
#[test]
fn list_grows_and_is_cut_back(rt: HostRuntime) {
    let rt = &rt;
    let mut list = ItemList::from_slice(rt.alloc(), &[1, 2]).expect(rt, "items");
    for (change, want) in CHANGES {
        assert_change(rt, &mut list, change, want);
    }
}

/// The items that come, the number of the first ones that leave then, the length to which the queue is cut back, and what is left.
type Row = (&'static [u32], u32, usize, &'static [u32]);

const ROWS: &[Row] = &[
    (&[0, 1, 2, 3, 4], 1, 9, &[1, 2, 3, 4]),
    (&[], 2, 9, &[3, 4]),
    (&[5, 6, 7], 1, 9, &[4, 5, 6, 7]),
    (&[], 0, 2, &[4, 5]),
    (&[8], 2, 9, &[8]),
    (&[], 1, 9, &[]),
    (&[9, 10], 0, 1, &[9]),
];

/// Asserts that, once items come and leave and the queue is cut back, it has these items left.
fn assert_row(rt: &impl Abort, queue: &mut ItemQueue<u32>, row: &Row) {
    let (come, leave, kept, left) = *row;
    for item in come {
        queue.push(*item).expect(rt, "an item");
    }
    for _time in 0..leave {
        if queue.len() > 0 {
            queue.drop_first();
        }
    }
    queue.truncate(kept);
    ensure(rt, queue.items() == left);
}

/// A queue that gives up its first items, also more than are left, while others come.
#[test]
fn queue_gives_up_its_first_items(rt: HostRuntime) {
    let mut queue = ItemQueue::new(rt.alloc());
    for row in ROWS {
        assert_row(&rt, &mut queue, row);
    }
}
