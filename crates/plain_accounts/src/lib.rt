//! Counts the pages, frames and slots of a state by how they are held.
#![tactic(auto)]

ghost use Rattle.std.specs.Prelude.{◌≡◌, ◌<◌, IfOk, filter, length, sum_by};
ghost use Rattle.ttm_base.specs.Holes.{is_free_beside as is_free};
ghost use Rattle.ttm_base.specs.ListWords.{count_from};
ghost use Rattle.page_accounts.specs.Accounts.{AreAccountsOf};
ghost use Rattle.page_accounts.specs.Amounts.{amount_of_ghost, amount_where_live, counted};
ghost use Rattle.page_accounts.specs.Counting.{most};

use journal_model::{Core, Script, State};
use page_accounts::{Account, Accounts};
use rules_holds::{count_free_frames, count_free_slots, held_spans, is_free_beside};
use std::alloc::Global;
use ttm_base::{Mem, NoMemory, Span};

/// Counts how the pages, frames and slots of `state` are held.
///
/// # Errors
///
/// Returns `NoMemory` also for a count of 2^64 - 1 or more: no memory holds a state with that many pages.
pub fn accounts_of(alloc: Global, script: &Script, state: &State) -> Result<Accounts, NoMemory>
    ensures { IfOk result (AreAccountsOf script.now state.now.core) }
{
    let core = &state.core;
    let held = count_held(core);
    let vram = held_spans(alloc, Mem::Vram, core)?;
    let tt = held_spans(alloc, Mem::Tt, core)?;
    let free_frames = count_free_frames(alloc, script, core)?;
    let free_slots = count_free_slots(alloc, script, core)?;
    Ok(Accounts {
        vram: with_free(held.vram, count_free_pages(vram.items(), script.sizes.vram))?,
        tt: with_free(held.tt, count_free_pages(tt.items(), script.sizes.tt))?,
        frames: with_free(held.frames, free_frames)?,
        swap: with_free(held.swap, free_slots)?,
    })
}

/// Counts what live buffers, their targets and ghosts hold. Each count saturates at `u64::MAX`.
fn count_held(core: &Core) -> Accounts
    ensures { result ≡ counted (λ what. sum_by (amount_where_live what) core.now.buffers) (λ what. sum_by (amount_of_ghost what) core.now.ghosts) }
{
    let mut accounts = Accounts::new();
    for slot in core.buffers.items() {
        if let Some(x) = slot {
            accounts.add_buffer(x.mem, x.spans.items(), x.table.items(), &x.targets);
        }
    }
    for left in core.ghosts.items() {
        accounts.add_ghost(left.vram.items(), left.tt.items(), left.frames.items());
    }
    accounts
}

/// Returns the account `held` with the number of free ones, or `NoMemory` if a count of it has saturated.
fn with_free(held: Account, free: u64) -> Result<Account, NoMemory>
    ensures free { IfOk result (λ a. a ≡ record held { free = free }) }
    ensures live { IfOk result (λ a. held.live < most) }
    ensures target { IfOk result (λ a. held.target < most) }
    ensures ghosts { IfOk result (λ a. held.ghosts < most) }
{
    if held.live == u64::MAX || held.target == u64::MAX || held.ghosts == u64::MAX {
        return Err(NoMemory);
    }
    Ok(Account { free, ..held })
}

/// Counts the pages below `size` that no span of `held` has.
#[tactic(auto, using(rules_holds::proofs::CountLaws::count_more))]
fn count_free_pages(held: &[Span], size: u32) -> u64
    ensures { result ≡ length (filter (is_free held.now) (count_from 1 size 0)) }
{
    let mut count = 0;
    for page in 0..size {
        if is_free_beside(held, page) {
            count += 1;
        }
    }
    count
}
