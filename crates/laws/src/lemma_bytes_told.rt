//! Lemmas for `crate::law_transparent::legal_journals_are_transparent`: what a thread's entry tells of the buffer that it is on; the shape of
//! buffers, and the numbers of ghosts.
