//! A line of a script by its words, each read as far as it can be: sizes, buffers with their places, threads, commands and jobs.
#![tactic(auto)]

mod addresses;
mod buffers;
mod jobs;
mod parts;
mod places;

pub use parts::line;
