ghost use Rattle.std.specs.Prelude.{◌≡◌, ◌*◌, ◌<◌, ◌^◌, IfOk};
ghost use Rattle.journal_model.specs.rules.Lists as words;

use journal_model::{BufIds, Script, State};
use place_list::spans::mem_number;
use state_words::declared_group;
use std::alloc::Global;
use ttm_base::{BufId, Mem, NoMemory};

/// Returns the number among the twelve lists of the list for the memory type `mem` and the priority `prio`, which is from 0 to 3.
pub fn list_number(mem: Mem, prio: u32) -> usize
    ensures { result ≡ words.list_number mem prio }
{
    4 * mem_number(mem) as usize + prio as usize
}

/// Returns the buffers on the lists of the memory type `mem` in the order in which victims are looked for.
pub fn in_order(alloc: Global, state: &State, mem: Mem) -> Result<BufIds, NoMemory>
    ensures { IfOk result (λ bs. bs ≡ words.in_order state.now mem) }
{
    let mut bs = BufIds::new(alloc);
    let lists = state.lists.items();
    for prio in 0..4 {
        if let Some(list) = lists.get(list_number(mem, prio)) {
            bs.extend(list.items())?;
        }
    }
    Ok(bs)
}

/// Returns whether both `a` and `b` are groups and the same one.
pub fn same_group(a: Option<u32>, b: Option<u32>) -> bool
    ensures { result ≡ words.same_group a b }
{
    match (a, b) {
        (Some(g), Some(h)) => g == h,
        _ => false,
    }
}

/// Returns whether the buffers `b` and `c` are in one group.
pub fn is_mate(script: &Script, b: BufId, c: BufId) -> bool
    ensures { result ≡ words.is_mate script.now b c }
{
    same_group(declared_group(script, b), declared_group(script, c))
}

/// Returns whether buffer `b` is in the group `group`.
pub fn is_member(script: &Script, group: u32, b: BufId) -> bool
    ensures { result ≡ words.is_member script.now group b }
{
    same_group(declared_group(script, b), Some(group))
}
