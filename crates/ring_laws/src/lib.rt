//! Laws of the ring of CHORD-RELOAD (RFC 6940, section 10), for any set of peers.
#![tactic(auto)]

mod laws;

pub use laws::{
    hops_go_nearer_to_the_owner, merging_a_joiner, merging_what_is_enough,
    neighbours_are_the_nearest, one_owner, removing_a_leaver, walks_end_at_the_owner,
};
