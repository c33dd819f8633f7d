use page_accounts::{Account, Accounts};
use resource_core::{Lengths, Manager};
use room_representation::Parts;

/// Returns whether both counts are the same for each owner.
fn is_same(one: Account, other: Account) -> bool {
    (one.free == other.free)
        & (one.live == other.live)
        & (one.target == other.target)
        & (one.ghosts == other.ghosts)
}

/// Returns whether all counts of both are the same.
pub fn are_same_accounts(one: &Accounts, other: &Accounts) -> bool {
    is_same(one.vram, other.vram)
        & is_same(one.tt, other.tt)
        & is_same(one.frames, other.frames)
        & is_same(one.swap, other.swap)
}

/// Returns the account of a memory type whose lists have these lengths.
fn account_of(lengths: Lengths) -> Account {
    Account {
        free: u64::from(lengths.free),
        live: u64::from(lengths.live),
        target: u64::from(lengths.targets),
        ghosts: u64::from(lengths.ghosts),
    }
}

/// Returns whether the managers and the pool keep these counts.
pub fn are_kept(parts: &Parts, accounts: &Accounts) -> bool {
    is_same(account_of(parts.vram.lengths()), accounts.vram)
        & is_same(account_of(parts.tt.lengths()), accounts.tt)
        & (u64::from(parts.pool.free()) == accounts.frames.free)
}
