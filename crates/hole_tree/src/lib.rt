//! The holes of a range of pages, in two balanced trees (drm_mm's hole trees).
#![tactic(auto)]

mod hole;
mod holes;
mod lean;
mod order;
mod request;
mod search;
mod sort;
mod tree;

pub use holes::{Holes, Neighbours};
pub use request::{aligned_down, aligned_up};
