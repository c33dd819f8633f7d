//! Lemmas for `crate::law_transparent::legal_journals_are_transparent`: a view of a state by its bytes, and lemmas on it.
