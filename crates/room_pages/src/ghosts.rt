//! The end of a buffer: it is freed, and where jobs still use it, it leaves a ghost, which is reaped once they are done.
mod courses;
mod frees;
mod leaving;
mod pages;
mod reaps;

pub use frees::free;
pub use reaps::reap;
