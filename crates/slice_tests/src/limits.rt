//! Counts and births at their limits.
use crate::steps::{
    Numbered, clone, decrement, has_count, has_len, intern_again, intern_in_vain, intern_new,
    not_cloned, not_decremented, not_owned, not_released, own, reads, release,
};
use intern_fixtures::{drop_slices, limited_slices, new_slices};
use ra_ap_intern::{Limits, Refusal};

#[test]
fn a_stored_slice_is_found_at_every_limit(rt: HostRuntime) {
    let alloc = rt.alloc();
    let limits = Limits { top: 1, numbers: 1 };
    let mut storage = limited_slices(alloc, 1, limits);
    let a = intern_new(&rt, alloc, &mut storage, ("a", &[1]), 0);
    let _ = own(&rt, &mut storage, a, 1);
    not_owned(&rt, &mut storage, a, Refusal::CountFull);
    assert!(rt; intern_again(&rt, alloc, &mut storage, ("a", &[1]), 0) == a);
    intern_in_vain(&rt, alloc, &mut storage, ("a", &[2]));
    has_count(&rt, &storage, a, 1);
    drop_slices(storage);
}

#[test]
fn a_full_count_is_not_raised(rt: HostRuntime) {
    let alloc = rt.alloc();
    let limits = Limits { top: 2, numbers: 1 };
    let mut storage = limited_slices(alloc, 1, limits);
    let a = intern_new(&rt, alloc, &mut storage, ("a", &[1]), 0);
    let first = own(&rt, &mut storage, a, 1);
    let second = clone(&rt, &mut storage, &first, 2);
    not_owned(&rt, &mut storage, a, Refusal::CountFull);
    not_cloned(&rt, &mut storage, &first, Refusal::CountFull);
    has_count(&rt, &storage, a, 2);
    release(&rt, &mut storage, second, 1);
    let _ = clone(&rt, &mut storage, &first, 2);
    drop_slices(storage);
}

#[test]
fn nothing_is_counted_below_zero(rt: HostRuntime) {
    let alloc = rt.alloc();
    let mut storage = new_slices(alloc, 1);
    let a = intern_new(&rt, alloc, &mut storage, ("a", &[1]), 0);
    not_decremented(&rt, &mut storage, a, Refusal::CountZero);
    let owned = own(&rt, &mut storage, a, 1);
    decrement(&rt, &mut storage, a, 0);
    not_decremented(&rt, &mut storage, a, Refusal::CountZero);
    let _ = not_released(&rt, &mut storage, owned, Refusal::CountZero);
    has_count(&rt, &storage, a, 0);
    drop_slices(storage);
}

#[test]
fn an_entry_stays_when_nothing_counts_it(rt: HostRuntime) {
    let alloc = rt.alloc();
    let mut storage = new_slices(alloc, 1);
    let a = intern_new(&rt, alloc, &mut storage, ("a", &[1]), 0);
    let owned = own(&rt, &mut storage, a, 1);
    release(&rt, &mut storage, owned, 0);
    has_len(&rt, &storage, 1);
    reads(&rt, &storage, a, ("a", &[1]));
    assert!(rt; intern_again(&rt, alloc, &mut storage, ("a", &[1]), 0) == a);
    let _ = own(&rt, &mut storage, a, 1);
    drop_slices(storage);
}

#[test]
fn used_up_births_refuse(rt: HostRuntime) {
    let alloc = rt.alloc();
    let limits = Limits { top: 1, numbers: 0 };
    let mut none: Numbered = limited_slices(alloc, 1, limits);
    intern_in_vain(&rt, alloc, &mut none, ("", &[]));
    intern_in_vain(&rt, alloc, &mut none, ("a", &[1]));

    let limits = Limits { top: 1, numbers: 2 };
    let mut two = limited_slices(alloc, 2, limits);
    let _ = intern_new(&rt, alloc, &mut two, ("a", &[1]), 0);
    let _ = intern_new(&rt, alloc, &mut two, ("b", &[1]), 1);
    intern_in_vain(&rt, alloc, &mut two, ("c", &[1]));
    let _ = intern_again(&rt, alloc, &mut two, ("b", &[1]), 1);
    drop_slices(none);
    drop_slices(two);
}
