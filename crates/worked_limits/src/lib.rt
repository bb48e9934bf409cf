//! Limits of what is stored and answered, each met and passed by one: tests alone.
#![tactic(auto)]

#[cfg(test)]
mod answers;
#[cfg(test)]
mod counts;
#[cfg(test)]
mod kept;
#[cfg(test)]
mod names;
#[cfg(test)]
mod sizes;
#[cfg(test)]
mod user_kinds;
