//! A list is stored once.
use crate::steps::is_equal;
use ra_ap_intern::InternSliceStorage;
use std::process::Abort;
use use_lists::{ListRef, Lists, find, intern, is_same, read};

/// The list of these numbers under a label, which is stored now.
fn list(rt: &impl Abort, lists: &mut Lists, label: u32, numbers: &[u64]) -> ListRef {
    intern(lists, label, numbers).expect(rt, "memory")
}

/// The list reads this label and these numbers.
fn reads(rt: &impl Abort, lists: &Lists, list: ListRef, label: u32, numbers: &[u64]) {
    is_equal(rt, read(lists, list), Some((label, numbers)));
}

#[test]
fn equal_lists_have_one_handle(rt: HostRuntime) {
    let mut lists = InternSliceStorage::new(rt.alloc(), 1);
    let first = list(&rt, &mut lists, 7, &[1, 2]);
    let again = list(&rt, &mut lists, 7, &[1, 2]);
    let longer = list(&rt, &mut lists, 7, &[1, 2, 3]);
    let other = list(&rt, &mut lists, 8, &[1, 2]);
    let empty = list(&rt, &mut lists, 8, &[]);
    assert!(rt; is_same(&lists, first, again));
    assert!(rt; !is_same(&lists, first, longer));
    assert!(rt; !is_same(&lists, first, other));
    is_equal(&rt, lists.len(), 4);
    reads(&rt, &lists, longer, 7, &[1, 2, 3]);
    reads(&rt, &lists, empty, 8, &[]);
    assert!(rt; find(&lists, 8, &[1, 2]) == Some(other));
    assert!(rt; find(&lists, 8, &[2, 1]).is_none());
}

#[test]
fn a_handle_of_another_store_reads_nothing(rt: HostRuntime) {
    let mut lists = InternSliceStorage::new(rt.alloc(), 1);
    let others = InternSliceStorage::new(rt.alloc(), 2);
    let list = list(&rt, &mut lists, 7, &[1, 2]);
    assert!(rt; read(&others, list).is_none());
}
