//! Whole calls, whose transcripts and statuses were worked out apart from the program: tests alone.
#![tactic(auto)]

#[cfg(test)]
mod bad_lines;
#[cfg(test)]
mod causes;
#[cfg(test)]
mod events;
#[cfg(test)]
mod faults;
#[cfg(test)]
mod fetches;
#[cfg(test)]
mod limits;
#[cfg(test)]
mod listings;
#[cfg(test)]
mod models;
#[cfg(test)]
mod refusals;
#[cfg(test)]
mod rings;
#[cfg(test)]
mod rows;
#[cfg(test)]
mod traces;
