//! What a walk over the counts tells.
use crate::steps::is_equal;
use intern_store::{Entries, Spot};
use std::process::Abort;

/// Checks that a walk tells the place of an entry, and this count.
pub(crate) fn is_told(rt: &impl Abort, table: &impl Entries, spot: Spot, told: u64, count: u64) {
    is_equal(rt, table.place(spot.birth), Some(spot.place));
    is_equal(rt, told, count);
}
