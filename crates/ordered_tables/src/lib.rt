//! Values in the order of their keys, in std's ordered maps and in lists. Contracts see finite maps.
#![tactic(auto)]

mod key_table;
mod number_table;
mod sorted_table;

pub use key_table::KeyTable;
pub use number_table::NumberTable;
pub use sorted_table::{SortedTable, place_in};
