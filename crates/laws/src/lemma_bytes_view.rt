//! Lemmas for `crate::law_transparent::legal_journals_are_transparent`: what the law on plain bytes sees of a state, and what an entry does to it.
