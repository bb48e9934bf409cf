//! What a peer makes of messages, case by case, worked out by hand: tests alone.
#![tactic(auto)]

#[cfg(test)]
mod answers;
#[cfg(test)]
mod handled;
#[cfg(test)]
mod made;
#[cfg(test)]
mod requests;
#[cfg(test)]
mod ring;
#[cfg(test)]
mod told;
