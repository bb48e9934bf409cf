//! What a peer stores and what it is asked: the types, and the meaning of every decision over them.
#![tactic(auto)]

mod answer;
mod laws;
mod limits;
mod record;
mod refusal;
mod request;
mod verdict;

pub use answer::Answer;
pub use laws::{
    decisions_bound_counters, fetches_give_the_last_put, floors_never_fall,
    only_what_is_permitted_is_held, records_keep_their_weight, repeats_get_their_answer,
    stores_act_once,
};
pub use limits::{KIND_WEIGHT, MAX_ANSWER, MAX_KEPT, MAX_WEIGHT, SLOT_WEIGHT};
pub use record::{Held, Kept, KindRecord, Slot};
pub use refusal::Refusal;
pub use request::{Asked, AskedKind, AskedValues, FetchAsked, JoinAsked, StoreAsked, Value};
pub use verdict::{FetchVerdict, StoreVerdict};
