//! Words and lines of texts, whose readings were worked out by hand: tests alone.
#![tactic(auto)]

#[cfg(test)]
mod faults;
#[cfg(test)]
mod moves;
#[cfg(test)]
mod requests;
#[cfg(test)]
mod runs;
#[cfg(test)]
mod scenarios;
#[cfg(test)]
mod transcripts;
#[cfg(test)]
mod words;
