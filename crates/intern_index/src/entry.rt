//! What lies at a place.
use crate::packed::Packed;

/// A value under its birth, with a payload that may change.
#[derive(Drop)]
pub struct Entry<T, N: Copy> {
    pub(crate) birth: Packed,
    pub(crate) value: T,
    pub(crate) payload: N,
}
