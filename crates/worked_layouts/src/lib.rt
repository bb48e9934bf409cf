//! Layouts of the wire, whose readings and faults were worked out by hand: tests alone.
#![tactic(auto)]

#[cfg(test)]
mod bodies;
#[cfg(test)]
mod diagnostics;
#[cfg(test)]
mod frames;
#[cfg(test)]
mod headers;
#[cfg(test)]
mod layouts;
#[cfg(test)]
mod notes;
#[cfg(test)]
mod signatures;
#[cfg(test)]
mod stored_values;
