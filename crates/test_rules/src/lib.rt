//! Tests of the rules of a plain memory manager: its job list, what a state says, the pages of a choice, the next entry of an
//! actor, the state and the bytes after an entry, and whose turn it is.
#![tactic(auto)]

#[cfg(test)]
mod choices;
#[cfg(test)]
mod entries;
#[cfg(test)]
mod jobs;
#[cfg(test)]
mod making;
#[cfg(test)]
mod states;
#[cfg(test)]
mod steps;
#[cfg(test)]
mod stores;
#[cfg(test)]
mod texts;
#[cfg(test)]
mod turns;
