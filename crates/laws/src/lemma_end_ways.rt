//! A buffer with targets has a holder, and one that is held by name is on its way to where its command wants it.
