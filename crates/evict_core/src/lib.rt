//! Eviction on the rooms: which buffer is evicted for a place, what is done where none can be, and how a victim is skipped or released
//! (ttm_mem_evict_first; in 6.12 ttm_lru_walk_for_evict). Each call makes the one entry that the thread makes next, or returns what it needs first.
#![tactic(auto)]

mod keepers;
mod turns;
mod victims;

pub use turns::{
    catch, catch_victim, dry, loose, next_victim, note_dry, release_victim, skip, skip_victim,
};
