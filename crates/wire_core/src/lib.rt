//! The base of the wire: a cursor over bytes, and the writing of numbers (RFC 6940, section 6.3.1).
#![tactic(auto)]

mod bad;
mod both_ways;
mod cursor;
mod ids;
mod inner;
mod layout;
mod limits;
mod list;
mod names;
mod numbers;
mod put;
mod signature;

pub use bad::{Bad, DecodeFault, Reason, allowed, given};
pub use both_ways::words_are_layouts;
pub use cursor::Cursor;
pub use inner::{put_inner, take_inner, take_sized};
pub use layout::{
    Decoder, Layout, Plain, Spell, decode, decode_by, decode_whole, encode, put_whole,
};
pub use limits::{MAX_MESSAGE, RESOURCE_ID_LENGTH};
pub use list::{
    list_fits, list_len, put_list, put_vector, take_filled, take_list, take_list_by, take_vector,
    take_vector_by,
};
pub use names::{take_bytes, take_rest};
pub use put::{
    cut_back, put_boolean, put_bytes, put_length, put_u8, put_u16, put_u24, put_u32, put_u64,
    put_u128,
};
pub use signature::{Signature, SignerIdentity, put_signature, take_signature};
