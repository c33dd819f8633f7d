//! The pages that a place has for a buffer, by plain scans over all pages of a manager: by range as in drm_mm, or by blocks as in
//! drm_buddy.
#![tactic(auto)]

mod alike;
mod blocks;
mod buddy;
mod candidates;
mod choices;
mod pages;
mod ranges;
mod turns;

pub use choices::choice;
