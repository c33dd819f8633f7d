//! Lemmas for the entries of engines and for jobs that are emitted: what they do to timeline, rings and stores is what they do to the state;
//! sets of jobs, and ghosts.
