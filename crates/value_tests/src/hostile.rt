//! Handles of another storage. They are refused as such whatever is there at their births.
use crate::steps::{
    count_down, has_name, not_counted_down, not_owned, own, reads_nothing, refused_in_each_way,
};
use crate::strings::{self, collect_the_only_one};
use crate::words::{self, Words};
use intern_fixtures::{drop_values, limited_values, new_values};
use ra_ap_intern::{InternStorage, Internable, Interned, InternedRef, Limits, Refusal};
use std::process::Abort;

/// The limits of a storage of one value, which one handle owns.
const ONE: Limits = Limits { top: 1, numbers: 1 };

#[test]
fn a_reference_of_another_storage_is_refused(rt: HostRuntime) {
    let alloc = rt.alloc();
    let mut first = new_values(alloc, 1);
    let mut second = new_values(alloc, 2);
    let x = words::intern_new(&rt, alloc, &mut first, "x", 0);
    let y = words::intern_new(&rt, alloc, &mut second, "y", 0);
    let reference = x.as_ref();
    assert!(rt; reference != y.as_ref());
    reads_nothing(&rt, &second, reference);
    not_owned(&rt, &mut second, reference, Refusal::Foreign);
    drop_values(first);
    drop_values(second);
}

#[test]
fn a_handle_of_another_storage_is_refused(rt: HostRuntime) {
    let alloc = rt.alloc();
    let mut first = new_values(alloc, 1);
    let mut second: Words = new_values(alloc, 2);
    let x = words::intern_new(&rt, alloc, &mut first, "x", 0);
    let x = refused_in_each_way(&rt, &mut second, x, Refusal::Foreign);
    has_name(&rt, x.as_ref(), (1, 0));
    words::reads(&rt, &first, &x, "x");
    drop_values(first);
    drop_values(second);
}

#[test]
fn foreign_comes_first_for_counted_values(rt: HostRuntime) {
    let alloc = rt.alloc();
    let mut first = new_values(alloc, 1);
    let mut second = limited_values(alloc, 2, ONE);
    let x = words::intern_new(&rt, alloc, &mut first, "x", 0);
    let y = words::intern_new(&rt, alloc, &mut second, "y", 0);
    let x = foreign_at_each_count(&rt, &mut second, y.as_ref(), x);
    let y = words::intern_again(&rt, alloc, &mut second, "y", (0, 1));
    words::frees(&rt, &mut second, y, "y");
    let x = refused_in_each_way(&rt, &mut second, x, Refusal::Foreign);
    words::reads(&rt, &first, &x, "x");
    drop_values(first);
    drop_values(second);
}

#[test]
fn foreign_comes_first_for_collected_values(rt: HostRuntime) {
    let alloc = rt.alloc();
    let mut first = new_values(alloc, 1);
    let mut second = limited_values(alloc, 2, ONE);
    let x = strings::intern_new(&rt, alloc, &mut first, "x", 0);
    let x = own(&rt, &mut first, x, 1);
    let x = refused_in_each_way(&rt, &mut second, x, Refusal::Foreign);
    let y = strings::intern_new(&rt, alloc, &mut second, "y", 0);
    let _ = own(&rt, &mut second, y, 1);
    let x = foreign_at_each_count(&rt, &mut second, y, x);
    collect_the_only_one(&rt, alloc, &mut second);
    let _ = refused_in_each_way(&rt, &mut second, x, Refusal::Foreign);
    drop_values(first);
    drop_values(second);
}

/// A handle of another storage is refused as such though the count at its birth is the greatest,
/// and though it is zero. The handle comes back, and the count is left at zero.
fn foreign_at_each_count<T: Internable + Drop>(
    rt: &impl Abort,
    storage: &mut InternStorage<T>,
    entry: InternedRef<T>,
    foreign: Interned<T>,
) -> Interned<T> {
    not_owned(rt, storage, entry, Refusal::CountFull);
    let foreign = refused_in_each_way(rt, storage, foreign, Refusal::Foreign);
    count_down(rt, storage, entry, 0);
    not_counted_down(rt, storage, entry, Refusal::CountZero);
    refused_in_each_way(rt, storage, foreign, Refusal::Foreign)
}
