//! Terms: a head over earlier terms, each kept once, so that equal trees are one term.
#![tactic(auto)]

mod found;
mod handle;
mod iter;
pub mod laws;
mod owed;
mod store;
mod walk;
mod written;

pub use handle::{Term, TermRef};
pub use iter::TermIter;
pub use owed::OwedTerm;
pub use store::TermStore;
