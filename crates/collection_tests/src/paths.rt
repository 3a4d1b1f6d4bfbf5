//! What paths of declared children keep.
ghost use Rattle.std.specs.Prelude.{◌≡◌, true};

use crate::kinds::{Link, LinkSlice};
use crate::nodes::{Nodes, intern_leaf, intern_node, intern_owned, registers_nodes};
use crate::pairs::{SlicesLast, Two, drop_slices_last, slices_last};
use crate::steps::{
    collects, collects_values, drop_collector, has_count, intern, intern_slice, is_equal, own,
    release,
};
use intern_fixtures::{Node, drop_values, new_slices, new_values};
use ra_ap_intern::{Family, GarbageCollector, InternStorage, InternedRef, Pair};
use std::alloc::Global;
use std::ops::ControlFlow;
use std::process::Abort;

#[test]
fn what_two_paths_reach_is_visited_once(rt: HostRuntime) {
    let alloc = rt.alloc();
    let mut storage = new_values(alloc, 1);
    let leaf = intern_leaf(&rt, alloc, &mut storage, 0, 0);
    let left = intern_node(&rt, alloc, &mut storage, (1, &[leaf]), 1);
    let right = intern_node(&rt, alloc, &mut storage, (2, &[leaf]), 2);
    let top = intern_owned(&rt, alloc, &mut storage, &[left, right], 3);
    collects_values(&rt, alloc, &mut storage, (4, 4, 0));
    release(&rt, &mut storage, top);
    collects_values(&rt, alloc, &mut storage, (0, 0, 4));
    drop_values(storage);
}

#[test]
fn a_child_that_is_declared_twice_is_visited_once(rt: HostRuntime) {
    let alloc = rt.alloc();
    let mut storage = new_values(alloc, 1);
    let child = intern_leaf(&rt, alloc, &mut storage, 0, 0);
    let _ = intern_owned(&rt, alloc, &mut storage, &[child, child], 1);
    has_count(&rt, &storage, child, 0);
    is_marked_once(&rt, alloc, &storage, child);
    collects_values(&rt, alloc, &mut storage, (2, 2, 0));
    drop_values(storage);
}

/// Of two mark calls of a node, the first one marks it.
fn is_marked_once(rt: &impl Abort, alloc: Global, storage: &Nodes, node: InternedRef<Node>) {
    let mut gc = GarbageCollector::new(alloc);
    registers_nodes(rt, &mut gc, storage);
    is_equal(rt, gc.mark_interned_alive(node), ControlFlow::Continue(()));
    is_equal(rt, gc.mark_interned_alive(node), ControlFlow::Break(()));
    drop_collector(gc);
}

#[test]
fn an_owned_child_is_visited_once(rt: HostRuntime) {
    let alloc = rt.alloc();
    let mut storage = new_values(alloc, 1);
    let child = intern_owned(&rt, alloc, &mut storage, &[], 0);
    let _ = intern_owned(&rt, alloc, &mut storage, &[child.as_ref()], 1);
    collects_values(&rt, alloc, &mut storage, (2, 1, 0));
    drop_values(storage);
}

/// Two storages of values, with one of slices between them.
type Links = Pair<SlicesLast<Link, LinkSlice>, InternStorage<Link>>;

/// A value over a slice over a value of another storage, none of which is owned, with a reference
/// to the first.
fn a_path_through_three_storages(rt: &impl Abort, alloc: Global) -> (Links, InternedRef<Link>) {
    let mut below = new_values(alloc, 1);
    let bottom = intern(rt, &mut below, Link(None), 0);
    let mut slices = new_slices(alloc, 2);
    let slice = intern_slice(rt, &mut slices, (), &[bottom], 0);
    let mut above = new_values(alloc, 3);
    let top = intern(rt, &mut above, Link(Some(slice)), 0);
    let family = Pair {
        first: slices_last(below, slices),
        second: above,
    };
    (family, top)
}

/// Collects three storages, with this answer.
fn collects_three<A: Family, B: Family, C: Family>(
    rt: &impl Abort,
    alloc: Global,
    family: &mut Pair<Two<A, B>, C>,
    answer: (usize, u64, usize),
)
    requires first { A.collected ≡ true }
    requires second { B.collected ≡ true }
    requires third { C.collected ≡ true }
{
    collects(rt, alloc, family, answer);
}

/// Collects the storages, with this answer.
fn collects_links(rt: &impl Abort, alloc: Global, links: &mut Links, answer: (usize, u64, usize)) {
    collects_three(rt, alloc, links, answer);
}

#[test]
fn a_path_goes_through_storages(rt: HostRuntime) {
    let alloc = rt.alloc();
    let (mut family, top) = a_path_through_three_storages(&rt, alloc);
    let top = own(&rt, &mut family.second, top);
    collects_links(&rt, alloc, &mut family, (3, 2, 0));
    release(&rt, &mut family.second, top);
    collects_links(&rt, alloc, &mut family, (0, 0, 3));
    drop_slices_last(family.first);
    drop_values(family.second);
}

#[test]
fn two_to_the_thirty_paths_are_followed_at_once(rt: HostRuntime) {
    let alloc = rt.alloc();
    let mut storage = new_values(alloc, 1);
    let left = intern_leaf(&rt, alloc, &mut storage, 0, 0);
    let right = intern_leaf(&rt, alloc, &mut storage, 1, 1);
    let mut below = [left, right];
    for layer in 1..31 {
        below = intern_layer(&rt, alloc, &mut storage, below, layer);
    }
    let _ = intern_owned(&rt, alloc, &mut storage, &below, 62);
    collects_values(&rt, alloc, &mut storage, (63, 122, 0));
    drop_values(storage);
}

/// Interns two nodes over both of the layer below. Their births are twice the number of the layer,
/// and the next one.
fn intern_layer(
    rt: &impl Abort,
    alloc: Global,
    storage: &mut Nodes,
    below: [InternedRef<Node>; 2],
    layer: u32,
) -> [InternedRef<Node>; 2] {
    let birth = u64::from(layer) * 2;
    [
        intern_node(rt, alloc, storage, (0, &below), birth),
        intern_node(rt, alloc, storage, (1, &below), birth + 1),
    ]
}
