//! Laws of whole runs, over every list of events (RFC 6940, sections 7 and 10).
#![tactic(auto)]

mod laws;

pub use laws::{
    clocks_never_fall, decisions_are_those_of_one_map, each_id_has_one_owner,
    fetches_give_the_last_put_in_every_run, nodes_send_what_they_make_hear_or_keep,
    only_what_is_permitted_is_held_in_every_run, owners_have_the_record_of_the_one_map,
    payloads_carry_their_messages, requests_go_to_the_owner, stores_act_once_in_every_run,
    what_goes_on_is_read_as_it_was,
};
