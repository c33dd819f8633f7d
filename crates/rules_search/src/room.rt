ghost use Rattle.std.specs.Prelude.{◌≡◌, ◌↔◌, ◌+◌, ◌<◌, ◌≤◌, ◌^◌, IsTrue, nat_le, nat_lt};
ghost use Rattle.std.specs.List.{list_all};
ghost use Rattle.rules_search.specs.Room.{HasRoom, is_short, tests_room};

use journal_model::{Buffer, Decl, Script, State};

/// Returns whether no buffer has more pages than the largest block of a buddy manager that is looked for.
fn have_few_pages(decls: &[Decl]) -> bool
    ensures { result ≡ list_all (λ d. nat_le d.pages 65536) decls.now }
{
    decls.iter().all(|d| d.pages <= 65536)
}

/// Returns whether the page table of a buffer is short enough for the numbers of its pages.
fn is_short(slot: &Option<Buffer>) -> bool
    ensures { result ≡ is_short slot.now }
{
    match slot {
        Some(buffer) => buffer.table.len() <= 1 << 32,
        None => true,
    }
}

/// Returns whether the page tables of all of `slots` are short enough for the numbers of their pages.
fn are_short(slots: &[Option<Buffer>]) -> bool
    ensures { result ≡ list_all is_short slots.now }
{
    slots.iter().all(|slot| is_short(slot))
}

/// Returns whether each of `counters` can be drawn from once more.
fn can_rise(counters: &[u64]) -> bool
    ensures { result ≡ list_all (λ n. nat_lt (n + 1) (2 ^ 64)) counters.now }
{
    counters.iter().all(|n| *n < u64::MAX)
}

/// Returns whether the lists are short and no counter is at its end.
fn tests_room(script: &Script, state: &State) -> bool
    ensures { result ≡ tests_room script.now state.now }
{
    have_few_pages(script.buffers.items())
        && script.threads.len() < 1 << 32
        && are_short(state.core.buffers.items())
        && state.core.buffers.len() <= 1 << 32
        && state.last_stamp < u64::MAX
        && state.last_ghost < u64::MAX
        && can_rise(state.last_jobs.items())
}

/// Returns whether each number of the next entry can be written: buffers have at most 65536 pages, lists are short, and no counter is at
/// its end. So it is in each state that a journal of fewer than 2^64 - 1 entries leads to, for a script that can be written.
pub fn has_room(script: &Script, state: &State) -> bool
    ensures { IsTrue result ↔ HasRoom script.now state.now }
{
    tests_room(script, state)
}
