//! Collections with a list of roots.
use crate::nodes::{Nodes, intern_leaf, intern_node};
use crate::outers::{a_value_over_a_slice, collects_outers, drop_outers};
use crate::steps::{
    collects_from, collects_values, has_count, has_len, own, release, release_slice,
};
use crate::texts::{collects_texts, drop_texts, have_lens, two_texts_and_a_slice};
use intern_fixtures::{Node, drop_values, new_values};
use ra_ap_intern::{InternedRef, Name, Owed};
use std::alloc::Global;
use std::process::Abort;

/// A name in a storage that no family has.
const ELSEWHERE: Name = Name {
    storage: 99,
    birth: 0,
};

#[test]
fn a_root_is_kept_as_if_it_were_counted(rt: HostRuntime) {
    let alloc = rt.alloc();
    let (mut family, text, slice) = two_texts_and_a_slice(&rt, alloc);
    let (abc, numbers) = (text.as_ref().name(), slice.as_ref().name());
    release(&rt, &mut family.first.second, text);
    release_slice(&rt, &mut family.second, slice);

    let roots = [abc, numbers, abc, ELSEWHERE];
    collects_texts(&rt, alloc, &mut family, Some(&roots), (2, 0, 1));
    have_lens(&rt, &family, (1, 1));
    collects_texts(&rt, alloc, &mut family, Some(&[]), (0, 0, 2));
    have_lens(&rt, &family, (0, 0));
    drop_texts(family);
}

#[test]
fn a_root_keeps_what_it_declares(rt: HostRuntime) {
    let alloc = rt.alloc();
    let (mut family, outer, inner) = a_value_over_a_slice(&rt, alloc);
    let owned = own(&rt, &mut family.second, outer);
    release(&rt, &mut family.second, owned);
    collects_outers(&rt, alloc, &mut family, Some(&[outer.name()]), (2, 1, 0));
    collects_outers(&rt, alloc, &mut family, Some(&[inner.name()]), (1, 0, 1));
    has_len(&rt, &family.second, 0);
    collects_outers(&rt, alloc, &mut family, None, (0, 0, 1));
    drop_outers(family);
}

/// A node over another one, and a third one beside them.
fn a_node_over_another(rt: &impl Abort, alloc: Global) -> (Nodes, InternedRef<Node>) {
    let mut nodes = new_values(alloc, 1);
    let child = intern_leaf(rt, alloc, &mut nodes, 0, 0);
    let parent = intern_node(rt, alloc, &mut nodes, (1, &[child]), 1);
    let _alone = intern_leaf(rt, alloc, &mut nodes, 2, 2);
    (nodes, parent)
}

/// Takes the one count of a node back, whose handle is still there.
fn takes_back(rt: &impl Abort, nodes: &mut Nodes, node: InternedRef<Node>) {
    node.decrement_refcount(nodes).expect(rt, "taken back");
    has_count(rt, nodes, node, 0);
}

#[test]
fn an_owned_handle_is_a_root_also_without_its_count(rt: HostRuntime) {
    let alloc = rt.alloc();
    let (mut nodes, node) = a_node_over_another(&rt, alloc);
    let owned = own(&rt, &mut nodes, node);
    collects_from(&rt, alloc, &mut nodes, &owned, (2, 1, 1));
    takes_back(&rt, &mut nodes, node);
    collects_from(&rt, alloc, &mut nodes, &owned, (2, 1, 0));
    collects_values(&rt, alloc, &mut nodes, (0, 0, 2));
    collects_from(&rt, alloc, &mut nodes, &owned, (0, 0, 0));
    drop_values(nodes);
}

#[test]
fn so_is_one_that_must_be_released(rt: HostRuntime) {
    let alloc = rt.alloc();
    let (mut nodes, node) = a_node_over_another(&rt, alloc);
    let owed = Owed::from(own(&rt, &mut nodes, node));
    takes_back(&rt, &mut nodes, node);
    collects_from(&rt, alloc, &mut nodes, &owed, (2, 1, 1));
    drop(owed.into_owned());
    drop_values(nodes);
}
