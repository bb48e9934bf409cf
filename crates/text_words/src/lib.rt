//! The words of a line of text, read and printed: decimals, hex, ids, names, separators and lines.
#![tactic(auto)]

mod decimal;
mod hex_word;
mod id;
mod labelled;
mod laws;
mod lines;
mod listed;
mod name;
mod pieces;
mod put;
mod separator;
mod steps;
mod transaction;

pub use decimal::{decimal_of, number_of, put_decimal};
pub use hex_word::{hex_of, number_in_hex_of, put_hex, put_number_in_hex};
pub use id::{id_of, put_id};
pub use labelled::{
    at_name_of, key_name_of, labelled_of, put_at_name, put_key_name, put_labelled, take_labelled,
};
pub use laws::{lines_of_a_text, printed_words, words_of_a_line};
pub use lines::{LINE_FEED, MAX_LINE, first_line, is_passed_over, is_sound_line};
pub use listed::{key_names_of, put_key_names, put_ranges, ranges_of};
pub use name::{MAX_NAME, is_name};
pub use pieces::{Pieces, words_of};
pub use put::all_or_nothing;
pub use separator::{behind, upto};
pub use steps::allowed;
pub use transaction::{put_transaction, transaction_of};
