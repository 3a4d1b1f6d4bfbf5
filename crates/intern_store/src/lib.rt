//! What all storages share: names, refusals, and a table with the storage's number and limits.
#![tactic(auto)]

mod entries;
mod names;
mod refusal;
mod store;

pub use entries::{Entries, Finds, Keeps, Pools, Raises, Removes, Seeks, Sweeps, Takes};
pub use names::{EntryKey, Limits, Name, Spot};
pub use refusal::{Refusal, Refused};
pub use store::Store;
