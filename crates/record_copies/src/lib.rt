//! Copies of records between peers: what a Store and its note say of a record, and the record that
//! they say.
#![tactic(auto)]

mod agreeing;
mod copying;
mod giving;
mod keys;
mod laws;
mod noting;
mod rest;
mod rising;
mod slots;
mod sound_kinds;
mod soundness;
mod weighing;

pub use copying::copied_kinds;
pub use giving::given_record;
pub use laws::a_copy_is_read_as_its_record;
pub use noting::noted;
