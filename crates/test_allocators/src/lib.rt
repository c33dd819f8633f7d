//! Tests of the allocators: holes, ranges, blocks, who holds pages, places and free numbers.
#![tactic(auto)]

#[cfg(test)]
mod blocks;
#[cfg(test)]
mod holes;
#[cfg(test)]
mod numbers;
#[cfg(test)]
mod places;
#[cfg(test)]
mod ranges;
#[cfg(test)]
mod rooms;
#[cfg(test)]
mod tables;
#[cfg(test)]
mod wanted;
