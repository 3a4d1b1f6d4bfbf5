//! Short words for what a call answers.
use ra_ap_intern::{Collected, Refusal, Refused};
use std::alloc::AllocError;

/// The answer. Where the call was refused, what it gave back is dropped.
pub fn allowed<A, H: Drop>(answer: Result<A, Refused<H>>) -> Result<A, Refusal> {
    answer.map_err(|r| r.why)
}

/// Why the call was refused, if it was.
pub fn refusal<A: Drop>(answer: Result<A, Refusal>) -> Option<Refusal> {
    answer.err()
}

/// What a collection told: the visits, the mark calls, the removed entries. None where there was no
/// memory for it.
pub fn told(answer: Result<Collected, AllocError>) -> Option<(usize, u64, usize)> {
    let collected = answer.ok()?;
    Some((collected.visits, collected.mark_calls, collected.removed))
}
