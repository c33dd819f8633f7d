//! Tests of smaller parts: lists of items, jobs by usage, reservations, tickets, lists in eviction order, and edges that fail.
#![tactic(auto)]

#[cfg(test)]
mod copies;
#[cfg(test)]
mod edges;
#[cfg(test)]
mod fences;
#[cfg(test)]
mod items;
#[cfg(test)]
mod lists;
#[cfg(test)]
mod maps;
#[cfg(test)]
mod reservations;
#[cfg(test)]
mod spaces;
#[cfg(test)]
mod tables;
#[cfg(test)]
mod tickets;
#[cfg(test)]
mod wanted;
