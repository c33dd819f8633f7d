//! Lemmas for `crate::law_transparent::legal_journals_are_transparent`: jobs with operations, and writes.
