//! The parts of a device before its first entry.
mod first;

pub use first::first_parts;
