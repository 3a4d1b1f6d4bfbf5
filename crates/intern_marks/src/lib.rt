//! The marks of a collector: which names are registered, which are marked, and which were visited.
#![tactic(auto)]

mod find;
mod flags;
mod found;
pub mod laws;
mod marks;
mod part;
mod slots;
mod storage_marks;

pub use flags::Flags;
pub use marks::Marks;
pub use storage_marks::StorageMarks;
