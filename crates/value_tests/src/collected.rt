//! Storages in collected mode.
use crate::kinds::Node;
use crate::steps::{
    count_down, has_count, has_len, intern_new_gc, is_equal, is_same, not_counted_down, not_found,
    not_lowered, not_raised, not_taken_over, own, push, refused_in_each_way, release,
};
use crate::strings::{Strings, collect_the_only_one, intern_again, intern_new, not_interned};
use intern_fixtures::{drop_values, limited_values, new_values};
use ra_ap_intern::{InternStorage, InternedRef, Limits, Refusal};
use std::alloc::Global;
use std::process::Abort;

#[test]
fn an_entry_stays_when_nothing_counts_it(rt: HostRuntime) {
    let alloc = rt.alloc();
    let mut storage = new_values(alloc, 1);
    let a = intern_new(&rt, alloc, &mut storage, "a", 0);
    let owned = own(&rt, &mut storage, a, 1);
    release(&rt, &mut storage, owned, 0);
    has_len(&rt, &storage, 1);

    let again = intern_again(&rt, alloc, &mut storage, "a", 0);
    is_same(&rt, again, a);
    not_counted_down(&rt, &mut storage, a, Refusal::CountZero);
    not_taken_over(&rt, &storage, 0, Refusal::CountZero);
    drop_values(storage);
}

#[test]
fn a_stored_value_is_found_at_every_limit(rt: HostRuntime) {
    let alloc = rt.alloc();
    let mut storage = limited_values(alloc, 1, Limits { top: 1, numbers: 1 });
    let a = intern_new(&rt, alloc, &mut storage, "a", 0);
    let owned = own(&rt, &mut storage, a, 1);
    not_raised(&rt, &mut storage, &owned, 1);
    let again = intern_again(&rt, alloc, &mut storage, "a", 0);
    is_same(&rt, again, a);
    not_interned(&rt, alloc, &mut storage, "b");
    has_count(&rt, &storage, a, 1);
    drop_values(storage);
}

#[test]
fn a_storage_of_no_births_takes_nothing(rt: HostRuntime) {
    let alloc = rt.alloc();
    let mut storage: Strings = limited_values(alloc, 1, Limits { top: 1, numbers: 0 });
    not_interned(&rt, alloc, &mut storage, "a");
    not_interned(&rt, alloc, &mut storage, "");
    has_len(&rt, &storage, 0);
    not_found(&rt, &storage, 0);
    drop_values(storage);
}

#[test]
fn a_count_of_zero_is_not_lowered(rt: HostRuntime) {
    let alloc = rt.alloc();
    let mut storage = new_values(alloc, 1);
    let a = intern_new(&rt, alloc, &mut storage, "a", 0);
    let owned = own(&rt, &mut storage, a, 1);
    count_down(&rt, &mut storage, a, 0);
    let _ = not_lowered(&rt, &mut storage, owned);
    has_len(&rt, &storage, 1);
    drop_values(storage);
}

#[test]
fn a_handle_of_a_value_that_was_collected_is_refused(rt: HostRuntime) {
    let alloc = rt.alloc();
    let mut storage = new_values(alloc, 1);
    let a = intern_new(&rt, alloc, &mut storage, "a", 0);
    let owned = own(&rt, &mut storage, a, 1);
    count_down(&rt, &mut storage, a, 0);
    collect_the_only_one(&rt, alloc, &mut storage);
    let _ = refused_in_each_way(&rt, &mut storage, owned, Refusal::Gone);
    not_found(&rt, &storage, 0);
    drop_values(storage);
}

#[test]
fn values_refer_to_values(rt: HostRuntime) {
    let alloc = rt.alloc();
    let mut storage = new_values(alloc, 1);
    let leaf = Node {
        children: Vec::new(alloc),
        owned: Vec::new(alloc),
        label: 1,
    };
    let leaf = intern_new_gc(&rt, &mut storage, leaf, 0);
    let top = make_above(&rt, alloc, &mut storage, leaf, 2);
    let top = intern_new_gc(&rt, &mut storage, top, 1);
    reads_above(&rt, &storage, top, (2, 1));
    has_count(&rt, &storage, leaf, 1);
    drop_values(storage);
}

/// Reads a node with this label and with one child, which it also owns, with that label.
fn reads_above(
    rt: &impl Abort,
    storage: &InternStorage<Node>,
    top: InternedRef<Node>,
    (label, child_label): (u64, u64),
) {
    let read = top.get(storage).expect(rt, "stored");
    is_equal(rt, read.label, label);
    let child = read.children.first().expect(rt, "a child");
    has_label(rt, child.get(storage), child_label);
    let owned = read.owned.first().expect(rt, "an owned child");
    has_label(rt, owned.get(storage), child_label);
}

/// The node is there, and has this label.
fn has_label(rt: &impl Abort, node: Option<&Node>, label: u64) {
    is_equal(rt, node.expect(rt, "stored").label, label);
}

/// Makes a node with one child, which it also owns.
fn make_above(
    rt: &impl Abort,
    alloc: Global,
    storage: &mut InternStorage<Node>,
    child: InternedRef<Node>,
    label: u64,
) -> Node {
    let mut children = Vec::new(alloc);
    push(rt, &mut children, child);
    let mut owned = Vec::new(alloc);
    push(rt, &mut owned, own(rt, storage, child, 1));
    Node {
        children,
        owned,
        label,
    }
}
