//! Messages of each code, whole, cut anywhere and changed, with their listings: tests alone.
#![tactic(auto)]

#[cfg(test)]
mod message_changes;
#[cfg(test)]
mod message_listings;
#[cfg(test)]
mod message_parts;
#[cfg(test)]
mod message_prefixes;
#[cfg(test)]
mod messages;
