//! The parts of a memory manager, and how each of them tells the state and the bytes that a journal leads to: one relation for each part.
#![tactic(auto)]

pub mod lemma_bytes;
pub mod lemma_jobs;
pub mod lemma_lists;
pub mod lemma_spans;
mod parts;
pub mod steps;

pub use parts::{Ghost, Ghosts, Parts};
