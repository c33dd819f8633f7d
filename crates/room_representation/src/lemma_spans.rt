//! Lemmas on the holders of pages of VRAM and TT: what the calls of a manager do to its holdings is what an entry does to the state's.
