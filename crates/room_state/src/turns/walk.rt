//! The first buffer of a memory type, in eviction order, that passes a test: a walk along the lists of the LRU
//! (ttm_resource_manager_first, ttm_resource_manager_next).
ghost use Rattle.std.specs.Prelude.{◌≡◌, ◌<◌, Bool, find};
ghost use Rattle.ttm_base.specs.declared.BufId.{BufId};
ghost use Rattle.lru_bulk.specs.Lists.{list_at, list_number};
ghost use Rattle.room_state.specs.turns.Rests.{in_order};

use lru_bulk::Lru;
use ttm_base::{BufId, Mem};

/// The number of priorities.
const PRIORITIES: u32 = 4;

/// A test of buffers.
pub trait BufferTest {
    /// The buffer passes.
    ghost accepts: { Self → BufId → Bool };

    /// Returns whether buffer `b` passes.
    fn passes(&self, b: BufId) -> bool
        ensures { result ≡ accepts self.now b };
}

/// Returns the first buffer that passes `test` on the list of `mem` and `prio`.
fn first_on_list<T: BufferTest>(lru: &Lru, mem: Mem, prio: u32, test: &T) -> Option<BufId>
    requires { prio < 4 }
    ensures { result ≡ find (T.accepts test.now) (list_at lru.now.lists (list_number mem prio)) }
{
    lru.members_stand_once();
    let mut b = lru.first(mem, prio)?;
    loop {
        if test.passes(b) {
            return Some(b);
        }
        b = lru.next(b)?;
    }
}

/// Returns the first buffer of the memory type `mem` that passes `test`, priority 0 first. Each buffer before it costs a constant, beside its
/// test.
pub fn first_passing<T: BufferTest>(lru: &Lru, mem: Mem, test: &T) -> Option<BufId>
    ensures { result ≡ find (T.accepts test.now) (in_order mem lru.now.lists) }
{
    lru.members_stand_once();
    for prio in 0..PRIORITIES {
        let found = first_on_list(lru, mem, prio, test);
        if found.is_some() {
            return found;
        }
    }
    None
}
