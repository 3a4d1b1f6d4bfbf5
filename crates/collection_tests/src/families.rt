//! Families of storages.
use crate::outers::{a_value_over_a_slice, collects_outers, drop_outers};
use crate::pairs::{SlicesLast, Two, collects_slices_last, drop_slices_last, slices_last};
use crate::steps::{collects, collects_values, is_equal, own, release, release_slice};
use crate::texts::{collects_texts, drop_texts, two_texts_and_a_slice};
use intern_fixtures::{GcString, Node, NodeSlice, drop_values, new_slices, new_values};
use ra_ap_intern::{Family, GarbageCollector, InternStorage, NoStorages, Numbered};
use std::alloc::Global;
use std::process::Abort;

/// Whether the storages of a family have distinct numbers is this.
fn are_distinct<F: Family>(rt: &impl Abort, family: &F, answer: bool) {
    is_equal(rt, GarbageCollector::distinct(family), answer);
}

/// The same of two storages.
fn two_are_distinct<A: Family, B: Family>(rt: &impl Abort, family: &Two<A, B>, answer: bool) {
    are_distinct(rt, family, answer);
}

/// The same of a family and one more storage.
fn are_distinct_with<F: Family + Drop>(
    rt: &impl Abort,
    family: F,
    storage: InternStorage<GcString>,
    answer: bool,
) {
    are_distinct(rt, &GarbageCollector::add_storage(family, storage), answer);
}

/// Two storages with these numbers.
fn two_storages(alloc: Global, first: u64, second: u64) -> SlicesLast<Node, NodeSlice> {
    slices_last(new_values(alloc, first), new_slices(alloc, second))
}

#[test]
fn two_storages_are_told_apart_by_their_numbers(rt: HostRuntime) {
    let alloc = rt.alloc();
    are_told_apart(&rt, alloc, (7, 7), false);
    are_told_apart(&rt, alloc, (7, 8), true);
}

/// Whether two storages with these numbers have distinct numbers is this.
fn are_told_apart(rt: &impl Abort, alloc: Global, numbers: (u64, u64), answer: bool) {
    let family = two_storages(alloc, numbers.0, numbers.1);
    two_are_distinct(rt, &family, answer);
    drop_slices_last(family);
}

#[test]
fn a_third_storage_may_have_the_number_of_the_first(rt: HostRuntime) {
    let alloc = rt.alloc();
    are_distinct_with(&rt, two_storages(alloc, 7, 8), new_values(alloc, 7), false);
}

#[test]
fn no_storages_are_distinct(rt: HostRuntime) {
    are_distinct(&rt, &NoStorages, true);
}

#[test]
fn a_family_has_the_numbers_of_its_storages(rt: HostRuntime) {
    let family = two_storages(rt.alloc(), 7, 8);
    has_numbers(&rt, &family, &[7, 8], 9);
    drop_slices_last(family);
}

/// Two storages have each of these numbers, and none has the other.
fn has_numbers<A: Numbered, B: Numbered>(
    rt: &impl Abort,
    family: &Two<A, B>,
    numbers: &[u64],
    other: u64,
) {
    for number in numbers {
        assert!(rt; family.has_number(*number));
    }
    assert!(rt; !family.has_number(other));
}

#[test]
fn a_collection_tells_what_it_did(rt: HostRuntime) {
    let alloc = rt.alloc();
    let (mut family, _, _) = two_texts_and_a_slice(&rt, alloc);
    collects_texts(&rt, alloc, &mut family, None, (2, 0, 1));
    drop_texts(family);
}

#[test]
fn no_storages_are_collected(rt: HostRuntime) {
    collects(&rt, rt.alloc(), &mut NoStorages, (0, 0, 0));
}

#[test]
fn empty_storages_are_collected(rt: HostRuntime) {
    let alloc = rt.alloc();
    let mut storage: InternStorage<Node> = new_values(alloc, 1);
    collects_values(&rt, alloc, &mut storage, (0, 0, 0));
    drop_values(storage);
    let mut family = two_storages(alloc, 1, 2);
    collects_slices_last(&rt, alloc, &mut family, None, (0, 0, 0));
    drop_slices_last(family);
}

#[test]
fn a_second_collection_removes_nothing(rt: HostRuntime) {
    let alloc = rt.alloc();
    let (mut family, text, slice) = two_texts_and_a_slice(&rt, alloc);
    collects_texts(&rt, alloc, &mut family, None, (2, 0, 1));
    collects_texts(&rt, alloc, &mut family, None, (2, 0, 0));
    release(&rt, &mut family.first.second, text);
    release_slice(&rt, &mut family.second, slice);
    collects_texts(&rt, alloc, &mut family, None, (0, 0, 2));
    collects_texts(&rt, alloc, &mut family, None, (0, 0, 0));
    drop_texts(family);
}

#[test]
fn a_second_collection_keeps_what_is_declared(rt: HostRuntime) {
    let alloc = rt.alloc();
    let (mut family, outer, _) = a_value_over_a_slice(&rt, alloc);
    let _ = own(&rt, &mut family.second, outer);
    collects_outers(&rt, alloc, &mut family, None, (2, 1, 0));
    collects_outers(&rt, alloc, &mut family, None, (2, 1, 0));
    drop_outers(family);
}
