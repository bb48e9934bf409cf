//! Why requests are refused, by each cause alone and by the first of two: tests alone.
#![tactic(auto)]

#[cfg(test)]
mod fetches;
#[cfg(test)]
mod joins;
#[cfg(test)]
mod kinds;
#[cfg(test)]
mod pairs;
#[cfg(test)]
mod repeats;
#[cfg(test)]
mod stores;
