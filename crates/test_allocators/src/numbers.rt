ghost use Rattle.std.specs.Prelude.{◌≡◌, Some, false, replicate, slice_get, slice_set, true};

use crate::wanted::ensure;
use free_map::FreeMap;
use page_pool::PagePool;
use std::process::Abort;

/// Asserts that `count` numbers are free, and that `lowest` is the lowest of them.
fn assert_free(rt: &impl Abort, map: &FreeMap, count: u32, lowest: Option<u32>) {
    ensure(rt, map.free() == count);
    ensure(rt, map.first() == lowest);
}

/// Takes a number. Asserts that it is `number`, the lowest free one, that `count` numbers are then free, and that `lowest` is the lowest of
/// them.
fn takes(rt: &impl Abort, map: &mut FreeMap, number: u32, count: u32, lowest: Option<u32>)
    ensures { map.new ≡ slice_set map.old number true }
{
    ensure(rt, map.take() == Some(number));
    assert_free(rt, map, count, lowest);
}

/// Takes all of three numbers, and asserts that there are no more.
fn take_all(rt: &impl Abort, map: &mut FreeMap)
    requires { map.old ≡ replicate 3 false }
    ensures { slice_get map.new 1 ≡ Some true }
{
    takes(rt, map, 0, 2, Some(1));
    takes(rt, map, 1, 1, Some(2));
    takes(rt, map, 2, 0, None);
    ensure(rt, map.take().is_none());
    assert_free(rt, map, 0, None);
}

#[test]
fn lowest_free_of_three(rt: HostRuntime) {
    let rt = &rt;
    let mut map = FreeMap::new(rt.alloc(), 3).expect(rt, "a map");
    assert_free(rt, &map, 3, Some(0));
    take_all(rt, &mut map);
    map.give(1);
    assert_free(rt, &map, 1, Some(1));
    takes(rt, &mut map, 1, 0, None);
}

/// Asserts that `count` frames are free, and that `lowest` is the lowest of them.
fn assert_free_frames(rt: &impl Abort, pool: &PagePool, count: u32, lowest: Option<u32>) {
    ensure(rt, pool.free() == count);
    ensure(rt, pool.first() == lowest);
}

/// Takes a frame. Asserts that it is `frame`, the lowest free one, that `count` frames are then free, and that `lowest` is the lowest of
/// them.
fn takes_frame(rt: &impl Abort, pool: &mut PagePool, frame: u32, count: u32, lowest: Option<u32>)
    ensures { pool.new ≡ slice_set pool.old frame true }
{
    ensure(rt, pool.take() == Some(frame));
    assert_free_frames(rt, pool, count, lowest);
}

/// Takes all of three frames, and asserts that there are no more.
fn take_all_frames(rt: &impl Abort, pool: &mut PagePool)
    requires { pool.old ≡ replicate 3 false }
    ensures { slice_get pool.new 1 ≡ Some true }
{
    takes_frame(rt, pool, 0, 2, Some(1));
    takes_frame(rt, pool, 1, 1, Some(2));
    takes_frame(rt, pool, 2, 0, None);
    ensure(rt, pool.take().is_none());
    assert_free_frames(rt, pool, 0, None);
}

#[test]
fn pool_of_three_frames(rt: HostRuntime) {
    let rt = &rt;
    let mut pool = PagePool::new(rt.alloc(), 3).expect(rt, "a pool");
    assert_free_frames(rt, &pool, 3, Some(0));
    take_all_frames(rt, &mut pool);
    pool.give(1);
    assert_free_frames(rt, &pool, 1, Some(1));
    takes_frame(rt, &mut pool, 1, 0, None);
}
