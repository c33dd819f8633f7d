//! Lemmas on the stores of a device: bytes, frames, slots and the aperture after each kind of entry, and the bytes that commands show.
