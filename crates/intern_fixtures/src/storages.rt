//! Storages, made and dropped by calls of their own: a test that does it itself is proved for
//! longer.
ghost use Rattle.std.specs.Prelude.{◌<◌};

use ra_ap_intern::{InternSliceStorage, InternStorage, Internable, Limits, SliceInternable};
use std::alloc::Global;

/// A new storage of values, with the largest limits.
pub fn new_values<T: Internable>(alloc: Global, number: u64) -> InternStorage<T> {
    InternStorage::new(alloc, number)
}

/// A new storage of values, with these limits.
pub fn limited_values<T: Internable>(alloc: Global, number: u64, limits: Limits) -> InternStorage<T>
    requires { 0 < limits.top }
{
    InternStorage::with_limits(alloc, number, limits)
}

/// A new storage of slices, with the largest limits.
pub fn new_slices<K: SliceInternable>(alloc: Global, number: u64) -> InternSliceStorage<K> {
    InternSliceStorage::new(alloc, number)
}

/// A new storage of slices, with these limits.
pub fn limited_slices<K: SliceInternable>(
    alloc: Global,
    number: u64,
    limits: Limits,
) -> InternSliceStorage<K>
    requires { 0 < limits.top }
{
    InternSliceStorage::with_limits(alloc, number, limits)
}

/// Drops a storage of values.
pub fn drop_values<T: Internable + Drop>(_storage: InternStorage<T>) {}

/// Drops a storage of slices.
pub fn drop_slices<K: SliceInternable>(_storage: InternSliceStorage<K>)
where
    K::Header: Drop,
{}
