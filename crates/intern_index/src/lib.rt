//! Entries in a slab, each at one place from its birth to its end, found by a hash or by a birth.
#![tactic(auto)]

mod birth_order;
mod birth_table;
mod births;
mod change;
mod entry;
mod index;
mod iter;
mod offer;
mod packed;
mod query;
mod row;
mod size;
mod sweep;
mod table;

pub use birth_order::BirthOrder;
pub use birth_table::BirthTable;
pub use births::Births;
pub use change::Change;
pub use entry::Entry;
pub use index::Index;
pub use iter::Iter;
pub use offer::Offer;
pub use packed::Packed;
pub use query::{Hashes, Query};
pub use size::size_of_one;
