//! Handles of another storage, and of slices that are gone.
use crate::steps::{
    Numbered, collect_one, decrement, has_count, has_len, intern_new, is_equal, not_decremented,
    not_owned, own, reads, refused_in_each_way, release,
};
use intern_fixtures::{drop_slices, limited_slices, new_slices};
use ra_ap_intern::{Limits, Refusal};
use std::alloc::Global;
use std::process::Abort;

#[test]
fn a_handle_of_another_storage_is_refused(rt: HostRuntime) {
    let alloc = rt.alloc();
    let mut first = new_slices(alloc, 1);
    let mut second = new_slices(alloc, 2);
    let x = intern_new(&rt, alloc, &mut first, ("x", &[1]), 0);
    let other = intern_new(&rt, alloc, &mut second, ("x", &[1]), 0);
    assert!(rt; x != other);
    let owned = own(&rt, &mut first, x, 1);
    let owned = refused_in_each_way(&rt, &mut second, owned, Refusal::Foreign);
    has_len(&rt, &second, 1);
    has_count(&rt, &second, other, 0);
    reads(&rt, &first, x, ("x", &[1]));
    release(&rt, &mut first, owned, 0);
    drop_slices(first);
    drop_slices(second);
}

#[test]
fn foreign_comes_before_gone(rt: HostRuntime) {
    let alloc = rt.alloc();
    let mut first = new_slices(alloc, 1);
    let mut empty = new_slices(alloc, 2);
    let x = intern_new(&rt, alloc, &mut first, ("x", &[1]), 0);
    let owned = own(&rt, &mut first, x, 1);
    let _ = refused_in_each_way(&rt, &mut empty, owned, Refusal::Foreign);
    has_len(&rt, &empty, 0);
    drop_slices(first);
    drop_slices(empty);
}

#[test]
fn foreign_comes_before_full(rt: HostRuntime) {
    let alloc = rt.alloc();
    let mut first = new_slices(alloc, 1);
    let limits = Limits { top: 1, numbers: 1 };
    let mut full = limited_slices(alloc, 2, limits);
    let x = intern_new(&rt, alloc, &mut first, ("x", &[1]), 0);
    let y = intern_new(&rt, alloc, &mut full, ("y", &[1]), 0);
    let owned = own(&rt, &mut first, x, 1);
    let _ = own(&rt, &mut full, y, 1);
    not_owned(&rt, &mut full, y, Refusal::CountFull);
    let _ = refused_in_each_way(&rt, &mut full, owned, Refusal::Foreign);
    has_count(&rt, &full, y, 1);
    drop_slices(first);
    drop_slices(full);
}

#[test]
fn foreign_comes_before_zero(rt: HostRuntime) {
    let alloc = rt.alloc();
    let mut first = new_slices(alloc, 1);
    let mut second = new_slices(alloc, 2);
    let x = intern_new(&rt, alloc, &mut first, ("x", &[1]), 0);
    let y = intern_new(&rt, alloc, &mut second, ("y", &[1]), 0);
    let owned = own(&rt, &mut first, x, 1);
    not_decremented(&rt, &mut second, y, Refusal::CountZero);
    let _ = refused_in_each_way(&rt, &mut second, owned, Refusal::Foreign);
    has_count(&rt, &second, y, 0);
    drop_slices(first);
    drop_slices(second);
}

#[test]
fn a_slice_that_was_collected_is_gone(rt: HostRuntime) {
    let alloc = rt.alloc();
    let mut storage = new_slices(alloc, 1);
    let mut other = new_slices(alloc, 2);
    let x = intern_new(&rt, alloc, &mut storage, ("x", &[1]), 0);
    let owned = own(&rt, &mut storage, x, 1);
    decrement(&rt, &mut storage, x, 0);
    collect_the_only_one(&rt, alloc, &mut storage);
    let owned = refused_in_each_way(&rt, &mut storage, owned, Refusal::Gone);

    // What is collected in another storage doesn't make it foreign any less.
    let _ = intern_new(&rt, alloc, &mut other, ("y", &[1]), 0);
    collect_the_only_one(&rt, alloc, &mut other);
    let _ = refused_in_each_way(&rt, &mut other, owned, Refusal::Foreign);
    drop_slices(storage);
    drop_slices(other);
}

/// Collects a storage of one slice that nothing counts: no entry is left.
fn collect_the_only_one(rt: &impl Abort, alloc: Global, storage: &mut Numbered) {
    is_equal(rt, collect_one(rt, alloc, storage), Some((0, 0, 1)));
    has_len(rt, storage, 0);
}

#[test]
fn a_birth_not_given_is_gone(rt: HostRuntime) {
    let alloc = rt.alloc();
    let mut longer = new_slices(alloc, 1);
    let mut shorter = new_slices(alloc, 1);
    let _ = intern_new(&rt, alloc, &mut longer, ("x", &[1]), 0);
    let y = intern_new(&rt, alloc, &mut longer, ("y", &[2]), 1);
    let _ = intern_new(&rt, alloc, &mut shorter, ("z", &[3]), 0);
    let owned = own(&rt, &mut longer, y, 1);
    let owned = refused_in_each_way(&rt, &mut shorter, owned, Refusal::Gone);
    has_len(&rt, &shorter, 1);
    release(&rt, &mut longer, owned, 0);
    drop_slices(longer);
    drop_slices(shorter);
}
