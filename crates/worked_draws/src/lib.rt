//! Drawn requests, compared with a plain program of what is decided: tests alone.
#![tactic(auto)]

#[cfg(test)]
mod answers;
#[cfg(test)]
mod compared;
#[cfg(test)]
mod draws;
#[cfg(test)]
mod lines;
#[cfg(test)]
mod plain;
#[cfg(test)]
mod requests;
#[cfg(test)]
mod seen;
