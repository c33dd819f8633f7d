//! Tests of copies: stores of bytes, the aperture, operations cut into packets, packets that run, rings of jobs, and swap slots.

mod apertures;
mod bytes;
mod cuts;
mod packets;
mod rings;
mod slots;
mod stores;
mod swaps;
