//! Why a run gave up.
use ra_ap_intern::Refusal;
use std::alloc::AllocError;
use thiserror::Error;

/// Why a run gave up.
#[derive(Clone, Copy, PartialEq, Eq, Debug, Error)]
pub enum Fault {
    /// When a request for memory was refused.
    #[error("out of memory")]
    OutOfMemory(#[from(alloc)] AllocError),
    /// When a new query has no handle, since its storage has given all births.
    #[error("all births are given")]
    NumbersUsedUp,
    /// When a cell is edited after 2^64 - 1 edits.
    #[error("all revisions are used up")]
    RevisionsUsedUp,
}

impl From<Refusal> for Fault {
    fn from(refusal: Refusal) -> Fault {
        match refusal {
            Refusal::NumbersUsedUp => Fault::NumbersUsedUp,
            _ => Fault::OutOfMemory(AllocError),
        }
    }
}
