//! Storages in counted mode.
use crate::steps::{
    count_down, has_len, has_name, is_same, not_found, not_lowered, not_owned, not_raised,
    not_released, not_taken_over, reads_nothing, refused_in_each_way, stored, take_over,
};
use crate::words::{Words, frees, intern_again, intern_new, not_interned, reads};
use intern_fixtures::{drop_values, limited_values, new_values};
use ra_ap_intern::{Limits, Refusal};

#[test]
fn a_count_lowered_to_zero_is_raised_again(rt: HostRuntime) {
    let alloc = rt.alloc();
    let mut storage = new_values(alloc, 1);
    let x = intern_new(&rt, alloc, &mut storage, "x", 0);
    count_down(&rt, &mut storage, x.as_ref(), 0);
    let x = not_released(&rt, &mut storage, x, Refusal::CountZero);
    has_name(&rt, x.as_ref(), (1, 0));
    has_len(&rt, &storage, 1);

    let again = intern_again(&rt, alloc, &mut storage, "x", (0, 1));
    assert!(rt; x == again);
    drop_values(storage);
}

#[test]
fn a_full_count_and_used_up_births_refuse(rt: HostRuntime) {
    let alloc = rt.alloc();
    let mut storage = limited_values(alloc, 1, Limits { top: 2, numbers: 2 });
    let _ = intern_new(&rt, alloc, &mut storage, "a", 0);
    let _ = intern_again(&rt, alloc, &mut storage, "a", (0, 2));
    not_interned(&rt, alloc, &mut storage, "a", Refusal::CountFull);

    let b = intern_new(&rt, alloc, &mut storage, "b", 1);
    not_interned(&rt, alloc, &mut storage, "c", Refusal::NumbersUsedUp);
    frees(&rt, &mut storage, b, "b");
    not_interned(&rt, alloc, &mut storage, "b", Refusal::NumbersUsedUp);
    drop_values(storage);
}

#[test]
fn a_storage_of_no_births_takes_nothing(rt: HostRuntime) {
    let alloc = rt.alloc();
    let mut storage: Words = limited_values(alloc, 1, Limits { top: 1, numbers: 0 });
    not_interned(&rt, alloc, &mut storage, "a", Refusal::NumbersUsedUp);
    not_interned(&rt, alloc, &mut storage, "", Refusal::NumbersUsedUp);
    has_len(&rt, &storage, 0);
    not_found(&rt, &storage, 0);
    drop_values(storage);
}

#[test]
fn a_freed_value_is_born_anew(rt: HostRuntime) {
    let alloc = rt.alloc();
    let mut storage = new_values(alloc, 1);
    let v = intern_new(&rt, alloc, &mut storage, "v", 0);
    let reference = v.as_ref();
    frees(&rt, &mut storage, v, "v");

    let again = intern_new(&rt, alloc, &mut storage, "v", 1);
    reads_nothing(&rt, &storage, reference);
    not_owned(&rt, &mut storage, reference, Refusal::Gone);
    assert!(rt; reference != again.as_ref());
    drop_values(storage);
}

#[test]
fn a_count_left_behind_is_taken_over(rt: HostRuntime) {
    let alloc = rt.alloc();
    let mut storage = new_values(alloc, 1);
    let k = intern_new(&rt, alloc, &mut storage, "k", 0);
    let reference = k.as_ref();
    drop(k);
    let taken = take_over(&rt, &storage, (0, 1));
    is_same(&rt, taken.as_ref(), reference);
    not_taken_over(&rt, &storage, 1, Refusal::Gone);

    count_down(&rt, &mut storage, reference, 0);
    not_taken_over(&rt, &storage, 0, Refusal::CountZero);
    is_same(&rt, stored(&rt, &storage, 0), reference);
    drop_values(storage);
}

#[test]
fn a_handle_of_a_freed_value_is_refused(rt: HostRuntime) {
    let alloc = rt.alloc();
    let mut storage = new_values(alloc, 1);
    let a = intern_new(&rt, alloc, &mut storage, "k", 0);
    let b = take_over(&rt, &storage, (0, 1));
    frees(&rt, &mut storage, a, "k");
    let b = refused_in_each_way(&rt, &mut storage, b, Refusal::Gone);
    has_name(&rt, b.as_ref(), (1, 0));
    not_found(&rt, &storage, 0);
    drop_values(storage);
}

#[test]
fn a_count_of_zero_is_not_lowered(rt: HostRuntime) {
    let alloc = rt.alloc();
    let mut storage = new_values(alloc, 1);
    let x = intern_new(&rt, alloc, &mut storage, "x", 0);
    count_down(&rt, &mut storage, x.as_ref(), 0);
    let x = not_lowered(&rt, &mut storage, x);
    reads(&rt, &storage, &x, "x");
    drop_values(storage);
}

#[test]
fn a_full_count_is_not_raised_though_births_are_used_up(rt: HostRuntime) {
    let alloc = rt.alloc();
    let mut storage = limited_values(alloc, 1, Limits { top: 1, numbers: 1 });
    let a = intern_new(&rt, alloc, &mut storage, "a", 0);
    not_interned(&rt, alloc, &mut storage, "b", Refusal::NumbersUsedUp);
    not_interned(&rt, alloc, &mut storage, "a", Refusal::CountFull);
    not_raised(&rt, &mut storage, &a, 1);
    reads(&rt, &storage, &a, "a");
    drop_values(storage);
}
