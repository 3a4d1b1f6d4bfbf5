//! Owned handles of slices that must be released.
use crate::kinds::Numbers;
use crate::steps::{Numbered, has_count, intern_new, is_pair, is_reason, own};
use intern_fixtures::{drop_slices, new_slices};
use ra_ap_intern::{InternedSliceRef, Owed, OwedSlice, Refusal, Refused};
use std::process::Abort;

/// Releases a handle, after which the entry has this count.
fn release(rt: &impl Abort, storage: &mut Numbered, owed: OwedSlice<Numbers>, count: u64) {
    let slice = owed.as_ref();
    match owed.release(storage) {
        Ok(()) => has_count(rt, storage, slice, count),
        Err(_) => panic!(rt; "it was refused"),
    }
}

#[test]
fn an_owed_slice_is_released(rt: HostRuntime) {
    let alloc = rt.alloc();
    let mut storage = new_slices(alloc, 7);
    let x = intern_new(&rt, alloc, &mut storage, ("x", &[1, 2]), 0);
    let owed = Owed::from(own(&rt, &mut storage, x, 1));
    let second = owed.clone(&mut storage).expect(&rt, "cloned");
    is_pair(&rt, second.get(&storage), ("x", &[1, 2]));
    assert!(rt; InternedSliceRef::from(&second) == x && second == owed);
    release(&rt, &mut storage, owed, 1);
    release(&rt, &mut storage, second, 0);
    drop_slices(storage);
}

#[test]
fn a_refused_slice_comes_back(rt: HostRuntime) {
    let alloc = rt.alloc();
    let mut storage = new_slices(alloc, 7);
    let mut other = new_slices(alloc, 8);
    let x = intern_new(&rt, alloc, &mut storage, ("x", &[]), 0);
    let owed = Owed::from(own(&rt, &mut storage, x, 1));
    match owed.release(&mut other) {
        Ok(()) => panic!(rt; "it was released"),
        Err(Refused { why, back }) => {
            is_reason(&rt, why, Refusal::Foreign);
            release(&rt, &mut storage, back, 0);
        }
    }
    drop_slices(storage);
    drop_slices(other);
}
