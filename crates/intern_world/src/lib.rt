//! A world of storages, and runs over lists of calls.
#![tactic(auto)]

pub mod laws;
mod turns;
mod world;

pub use intern_calls::{Back, Call, Kind, Reply, Slot, Which};
pub use world::{Numbers, World, run};
