//! Hash tables of places, over whatever lies there.
#![tactic(auto)]

mod buckets;
mod mixing;
mod probe;

pub use buckets::{Buckets, PLACES};
pub use mixing::mix;
pub use probe::{Test, search};
