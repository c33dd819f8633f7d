//! Lemmas for threads: the parts of a memory manager may go to another thread.
#![tactic(auto)]
