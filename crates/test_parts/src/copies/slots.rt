ghost use Rattle.std.specs.Prelude.{◌≡◌, ◌<◌, Some, false, true, length, slice_get, slice_set};

use crate::wanted::{are_bytes, is_number};
use std::process::Abort;
use swap_store::SwapStore;

/// Puts a page of bytes `byte` into the store. Asserts that it goes to `slot`, the lowest free one.
fn puts(rt: &impl Abort, store: &mut SwapStore, byte: u8, slot: u32)
    ensures { store.new.held ≡ slice_set store.old.held slot true }
{
    is_number(rt, store.put(&[byte; 4096]), Some(slot));
}

/// Takes a page out of `slot`. Asserts that its bytes are `byte`.
fn takes(rt: &impl Abort, store: &mut SwapStore, slot: u32, byte: u8)
    requires { slice_get store.old.held slot ≡ Some true }
    ensures { store.new.held ≡ slice_set store.old.held slot false }
{
    let mut into = [0; 4096];
    store.take(slot, &mut into);
    are_bytes(rt, &into, &[byte; 4096]);
}

/// Asserts that `slot` has a page of bytes `byte`.
fn assert_page(rt: &impl Abort, store: &SwapStore, slot: u32, byte: u8)
    requires { slot < length store.now.held }
{
    are_bytes(rt, store.page(slot), &[byte; 4096]);
}

#[test]
fn two_slots(rt: HostRuntime) {
    let rt = &rt;
    let mut store = SwapStore::new(rt.alloc(), 2).expect(rt, "slots");
    assert_page(rt, &store, 1, 0);
    puts(rt, &mut store, 1, 0);
    puts(rt, &mut store, 2, 1);
    is_number(rt, store.put(&[3; 4096]), None);
    is_number(rt, store.first(), None);
    assert_page(rt, &store, 0, 1);
    takes(rt, &mut store, 0, 1);
    assert_page(rt, &store, 0, 1);
    is_number(rt, store.first(), Some(0));
    puts(rt, &mut store, 3, 0);
    takes(rt, &mut store, 0, 3);
    store.drop_slot(1);
    assert_page(rt, &store, 1, 2);
    puts(rt, &mut store, 1, 0);
    assert_page(rt, &store, 0, 1);
    puts(rt, &mut store, 1, 1);
    assert_page(rt, &store, 1, 1);
    drop(store);
}
