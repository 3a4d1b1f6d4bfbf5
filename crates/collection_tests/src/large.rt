//! Storages with many entries.
use crate::kinds::Alike;
use crate::nodes::{Nodes, intern_leaf, intern_node};
use crate::pairs::{collects_slices_last, drop_slices_last, slices_last};
use crate::steps::{collects_values, intern, intern_slice, own, own_slice, push, release};
use intern_fixtures::{Node, NodeSlice, drop_values, new_slices, new_values};
use ra_ap_intern::{InternSliceStorage, InternStorage, Interned, InternedRef};
use std::alloc::Global;
use std::process::Abort;

#[test]
fn half_of_the_values_that_all_hash_alike_are_collected(rt: HostRuntime) {
    let alloc = rt.alloc();
    let mut storage = new_values(alloc, 1);
    intern_alike(&rt, &mut storage);
    collects_values(&rt, alloc, &mut storage, (500, 0, 500));
    drop_values(storage);
}

/// Interns a thousand numbers, and owns the odd ones.
fn intern_alike(rt: &impl Abort, storage: &mut InternStorage<Alike>) {
    for number in 0..1_000 {
        let value = intern(rt, storage, Alike(number), number);
        if number % 2 == 1 {
            let _ = own(rt, storage, value);
        }
    }
}

#[test]
fn a_chain_of_a_hundred_thousand_nodes_is_collected(rt: HostRuntime) {
    let alloc = rt.alloc();
    let mut storage = new_values(alloc, 1);
    let last = intern_chain(&rt, alloc, &mut storage, 100_000);
    let last = own(&rt, &mut storage, last);
    collects_values(&rt, alloc, &mut storage, (100_000, 99_999, 0));
    release(&rt, &mut storage, last);
    collects_values(&rt, alloc, &mut storage, (0, 0, 100_000));
    drop_values(storage);
}

/// Interns this many nodes, at least one, each over the one before. It gives the last.
fn intern_chain(
    rt: &impl Abort,
    alloc: Global,
    storage: &mut Nodes,
    nodes: u64,
) -> InternedRef<Node> {
    let mut last = intern_leaf(rt, alloc, storage, 0, 0);
    for birth in 1..nodes {
        last = intern_node(rt, alloc, storage, (0, &[last]), birth);
    }
    last
}

#[test]
fn ten_thousand_owned_nodes_over_one_leaf_are_collected(rt: HostRuntime) {
    let alloc = rt.alloc();
    let mut storage = new_values(alloc, 1);
    let nodes = intern_fan(&rt, alloc, &mut storage, 10_001);
    let owned = own_all(&rt, alloc, &mut storage, &nodes);
    collects_values(&rt, alloc, &mut storage, (10_001, 10_000, 0));
    for node in owned {
        release(&rt, &mut storage, node);
    }
    collects_values(&rt, alloc, &mut storage, (0, 0, 10_001));
    drop_values(storage);
}

#[test]
fn ten_thousand_nodes_of_a_slice_over_one_leaf_are_kept(rt: HostRuntime) {
    let alloc = rt.alloc();
    let mut storage = new_values(alloc, 1);
    let nodes = intern_fan(&rt, alloc, &mut storage, 10_001);
    let mut slices: InternSliceStorage<NodeSlice> = new_slices(alloc, 2);
    let slice = intern_slice(&rt, &mut slices, 0, nodes.as_slice(), 0);
    let _ = own_slice(&rt, &mut slices, slice);
    let mut family = slices_last(storage, slices);
    collects_slices_last(&rt, alloc, &mut family, None, (10_002, 20_000, 0));
    drop_slices_last(family);
}

/// Interns a leaf and nodes over it, this many entries in all, whose births are their tags. It
/// gives the nodes over the leaf.
fn intern_fan(
    rt: &impl Abort,
    alloc: Global,
    storage: &mut Nodes,
    entries: u64,
) -> Vec<InternedRef<Node>> {
    let leaf = intern_leaf(rt, alloc, storage, 0, 0);
    let mut fan = Vec::new(alloc);
    for tag in 1..entries {
        let node = intern_node(rt, alloc, storage, (tag, &[leaf]), tag);
        push(rt, &mut fan, node);
    }
    fan
}

/// Makes an owned handle of each node.
fn own_all(
    rt: &impl Abort,
    alloc: Global,
    storage: &mut Nodes,
    nodes: &[InternedRef<Node>],
) -> Vec<Interned<Node>> {
    let mut owned = Vec::new(alloc);
    for node in nodes {
        let handle = own(rt, storage, *node);
        push(rt, &mut owned, handle);
    }
    owned
}
