//! Calls of single parts of nodes, whose answers were worked out by hand: tests alone.
#![tactic(auto)]

#[cfg(test)]
mod copies;
#[cfg(test)]
mod due;
#[cfg(test)]
mod hops;
#[cfg(test)]
mod ids;
#[cfg(test)]
mod links;
#[cfg(test)]
mod mirrors;
#[cfg(test)]
mod outside;
#[cfg(test)]
mod policies;
#[cfg(test)]
mod tables;
#[cfg(test)]
mod transactions;
