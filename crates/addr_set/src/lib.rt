//! Sets of addresses: which addresses the items of a list hold, and how the items are read from their texts. A set is
//! kept as sorted intervals of numbers, the two families apart, so that it is asked in logarithmic time.
#![tactic(auto)]

mod intervals;
mod reading;
mod set;
mod spans;

pub use reading::{ItemFault, is_item, item_is_unique, parse_items, readings_are_unique};
pub use set::AddrSet;
