//! References that are stale, or of a storage outside.
use crate::kinds::Link;
use crate::nodes::{given_up, intern_leaf, intern_leaves, intern_owned, registers_nodes};
use crate::pairs::{collects_slices_last, drop_slices_last, slices_last};
use crate::steps::{
    collects_values, drop_collector, intern, intern_slice, is_equal, own, own_slice, release,
    release_slice,
};
use intern_fixtures::{drop_values, new_slices, new_values, refusal};
use ra_ap_intern::{GarbageCollector, InternedRef, Refusal};
use std::alloc::Global;
use std::ops::ControlFlow;
use std::process::Abort;

#[test]
fn a_child_in_a_storage_outside_is_passed_over(rt: HostRuntime) {
    let alloc = rt.alloc();
    let mut outside = new_values(alloc, 1);
    let child = intern_leaf(&rt, alloc, &mut outside, 0, 0);
    let mut storage = new_values(alloc, 2);
    let _ = intern_owned(&rt, alloc, &mut storage, &[child], 0);
    assert!(rt; child.get(&storage).is_none());
    is_equal(
        &rt,
        refusal(child.to_owned(&mut storage)),
        Some(Refusal::Foreign),
    );

    let mut gc = GarbageCollector::new(alloc);
    registers_nodes(&rt, &mut gc, &storage);
    is_equal(&rt, gc.mark_interned_alive(child), ControlFlow::Break(()));
    collects_values(&rt, alloc, &mut storage, (1, 1, 0));
    drop_values(outside);
    drop_values(storage);
    drop_collector(gc);
}

#[test]
fn a_value_that_declares_itself_is_collected(rt: HostRuntime) {
    let alloc = rt.alloc();
    let itself = given_up(&rt, alloc, 7, 0);
    let mut storage = new_values(alloc, 7);
    let node = intern_owned(&rt, alloc, &mut storage, &[itself], 0);
    assert!(rt; node.as_ref() == itself);
    collects_values(&rt, alloc, &mut storage, (1, 1, 0));
    release(&rt, &mut storage, node);
    collects_values(&rt, alloc, &mut storage, (0, 0, 1));
    drop_values(storage);
}

#[test]
fn a_collected_child_stays_collected(rt: HostRuntime) {
    let alloc = rt.alloc();
    let mut storage = new_values(alloc, 1);
    let leaf = intern_leaf(&rt, alloc, &mut storage, 5, 0);
    collects_values(&rt, alloc, &mut storage, (0, 0, 1));
    let _ = intern_owned(&rt, alloc, &mut storage, &[leaf], 1);
    collects_values(&rt, alloc, &mut storage, (1, 1, 0));
    let _ = intern_leaf(&rt, alloc, &mut storage, 5, 2);
    collects_values(&rt, alloc, &mut storage, (1, 1, 1));
    drop_values(storage);
}

#[test]
fn a_declared_birth_counts_once_it_is_given(rt: HostRuntime) {
    let alloc = rt.alloc();
    let fifth = given_up(&rt, alloc, 7, 5);
    let mut storage = new_values(alloc, 7);
    let _ = intern_owned(&rt, alloc, &mut storage, &[fifth], 0);
    collects_values(&rt, alloc, &mut storage, (1, 1, 0));
    intern_leaves(&rt, alloc, &mut storage, 1, 6);
    collects_values(&rt, alloc, &mut storage, (2, 1, 4));
    drop_values(storage);
}

#[test]
fn a_declared_birth_is_found_wherever_its_entry_is(rt: HostRuntime) {
    let alloc = rt.alloc();
    let second = given_up(&rt, alloc, 7, 1);
    let mut storage = new_values(alloc, 7);
    let _ = intern_leaf(&rt, alloc, &mut storage, 0, 0);
    collects_values(&rt, alloc, &mut storage, (0, 0, 1));
    let leaf = intern_leaf(&rt, alloc, &mut storage, 1, 1);
    assert!(rt; leaf == second);
    let _ = intern_owned(&rt, alloc, &mut storage, &[second], 2);
    let _ = intern_leaf(&rt, alloc, &mut storage, 3, 3);
    collects_values(&rt, alloc, &mut storage, (2, 1, 1));
    assert!(rt; second.get(&storage).is_some());
    drop_values(storage);
}

/// A reference to the entry of birth 0 in a storage of number 7, which is given up.
fn first_of_a_storage_given_up(rt: &impl Abort, alloc: Global) -> InternedRef<Link> {
    let mut storage = new_values(alloc, 7);
    let first = intern(rt, &mut storage, Link(None), 0);
    drop_values(storage);
    first
}

#[test]
fn a_loop_through_two_storages_is_collected(rt: HostRuntime) {
    let alloc = rt.alloc();
    let first = first_of_a_storage_given_up(&rt, alloc);
    let mut slices = new_slices(alloc, 8);
    let slice = intern_slice(&rt, &mut slices, (), &[first], 0);
    let mut links = new_values(alloc, 7);
    let link = intern(&rt, &mut links, Link(Some(slice)), 0);
    let mut family = slices_last(links, slices);

    let link = own(&rt, &mut family.first.second, link);
    collects_slices_last(&rt, alloc, &mut family, None, (2, 2, 0));
    release(&rt, &mut family.first.second, link);
    let slice = own_slice(&rt, &mut family.second, slice);
    collects_slices_last(&rt, alloc, &mut family, None, (2, 2, 0));
    release_slice(&rt, &mut family.second, slice);
    collects_slices_last(&rt, alloc, &mut family, None, (0, 0, 2));
    drop_slices_last(family);
}
