//! Each public call, where it succeeds.
use crate::kinds::Numbers;
use crate::steps::{
    Numbered, clone, decrement, has_count, has_len, intern_again, intern_new, is_equal, own,
    owner_reads, reads, release,
};
use intern_fixtures::{
    a_map_tells_apart, a_set_tells_apart, drop_slices, limited_slices, new_slices,
};
use ra_ap_intern::{Far, Limits, Name, laws};
use std::process::Abort;

#[test]
fn storages(rt: HostRuntime) {
    let alloc = rt.alloc();
    let mut storage = new_slices(alloc, 7);
    is_empty(&rt, &storage, 7);
    let _ = intern_new(&rt, alloc, &mut storage, ("x", &[1]), 0);
    has_len(&rt, &storage, 1);

    let limits = Limits { top: 1, numbers: 1 };
    let mut limited = limited_slices(alloc, 8, limits);
    is_empty(&rt, &limited, 8);
    let _ = intern_new(&rt, alloc, &mut limited, ("y", &[2]), 0);
    has_len(&rt, &limited, 1);
    drop_slices(storage);
    drop_slices(limited);
}

/// The storage has this number, and no entry.
fn is_empty(rt: &impl Abort, storage: &Numbered, number: u64) {
    is_equal(rt, (storage.number(), storage.len()), (number, 0));
}

#[test]
fn references(rt: HostRuntime) {
    let alloc = rt.alloc();
    let mut storage = new_slices(alloc, 7);
    let x = intern_new(&rt, alloc, &mut storage, ("x", &[1, 2]), 0);
    let y = intern_new(&rt, alloc, &mut storage, ("y", &[]), 1);
    let copy = y;
    assert!(rt; copy == y);
    assert!(rt; x != y);
    is_equal(
        &rt,
        y.name(),
        Name {
            storage: 7,
            birth: 1,
        },
    );
    reads(&rt, &storage, x, ("x", &[1, 2]));
    let owned = own(&rt, &mut storage, x, 1);
    drop(owned);
    has_count(&rt, &storage, x, 1);
    decrement(&rt, &mut storage, x, 0);
    drop_slices(storage);
}

#[test]
fn owned_handles(rt: HostRuntime) {
    let alloc = rt.alloc();
    let mut storage = new_slices(alloc, 7);
    let x = intern_new(&rt, alloc, &mut storage, ("x", &[1, 2]), 0);
    let owned = own(&rt, &mut storage, x, 1);
    let second = clone(&rt, &mut storage, &owned, 2);
    owner_reads(&rt, &storage, &second, ("x", &[1, 2]));
    release(&rt, &mut storage, owned, 1);
    release(&rt, &mut storage, second, 0);
    has_len(&rt, &storage, 1);
    drop_slices(storage);
}

#[test]
fn handles_are_ordered_by_their_names(rt: HostRuntime) {
    let alloc = rt.alloc();
    let mut storage = new_slices(alloc, 7);
    let x = intern_new(&rt, alloc, &mut storage, ("x", &[1]), 0);
    let a = intern_new(&rt, alloc, &mut storage, ("a", &[]), 1);
    assert!(rt; x < a && a > x);
    let owned = own(&rt, &mut storage, x, 1);
    let other = own(&rt, &mut storage, a, 1);
    assert!(rt; owned < other && other > owned);
    drop_slices(storage);
}

#[test]
fn a_set_of_references(rt: HostRuntime) {
    let alloc = rt.alloc();
    let mut storage = new_slices(alloc, 1);
    let x = intern_new(&rt, alloc, &mut storage, ("x", &[1]), 0);
    let y = intern_new(&rt, alloc, &mut storage, ("x", &[2]), 1);
    let again = intern_again(&rt, alloc, &mut storage, ("x", &[1]), 0);
    is_equal(&rt, a_set_tells_apart(alloc, x, again, &y), Ok(true));
    drop_slices(storage);
}

#[test]
fn a_map_by_owned_handles(rt: HostRuntime) {
    let alloc = rt.alloc();
    let mut storage = new_slices(alloc, 1);
    let x = intern_new(&rt, alloc, &mut storage, ("x", &[1]), 0);
    let y = intern_new(&rt, alloc, &mut storage, ("x", &[2]), 1);
    let owned = own(&rt, &mut storage, x, 1);
    let second = clone(&rt, &mut storage, &owned, 2);
    let other = own(&rt, &mut storage, y, 1);
    is_equal(
        &rt,
        a_map_tells_apart(alloc, owned, &second, &other),
        Ok(true),
    );
    drop_slices(storage);
}

#[test]
fn laws_are_callable() {
    laws::names_tell_slices::<Numbers>();
    laws::handles_tell_slices::<Numbers, Far>();
    laws::a_slice_that_is_interned_is_read::<Numbers>();
    laws::a_gone_slice_stays_gone::<Numbers>();
    laws::a_slices_birth_is_given_once::<Numbers>();
    laws::a_stored_slice_is_found::<Numbers>();
    laws::owned_slices_are_names::<Numbers>();
    laws::slice_references_are_names::<Numbers>();
}
