//! A chain of nodes that runs make, keep and remove.
use crate::worlds::{NUMBERS, push, reply_to};
use intern_fixtures::{Node, StringSlice, Word, make_node};
use intern_world::{Back, Call, Reply, World, run};
use ra_ap_intern::InternedRef;
use std::alloc::Global;
use std::process::Abort;

type Nodes = World<Word, Node, StringSlice>;

type NodeReply = Reply<Word, Node, String>;

#[test]
fn a_chain_of_a_thousand_nodes(rt: HostRuntime) {
    let alloc = rt.alloc();
    let mut world: Nodes = World::new(alloc, NUMBERS);
    for slot in 0..1_000 {
        add_node(&rt, alloc, &mut world, slot);
    }
    is_kept(&rt, alloc, &mut world);
    is_removed(&rt, alloc, &mut world);
}

/// Interns a node over the one of the birth before, if there is one: its reference is put into this
/// slot.
fn add_node(rt: &impl Abort, alloc: Global, world: &mut Nodes, slot: usize) {
    let mut children = Vec::new(alloc);
    if let Some(before) = slot.checked_sub(1) {
        let child = InternedRef::from_raw(world.values(), before as u64);
        push(rt, &mut children, child.expect(rt, "a node"));
    }
    let node = make_node(alloc, 0, children.as_slice()).expect(rt, "memory");
    let reply = reply_to(rt, alloc, world, Call::NewGc(node));
    let is_made = matches!(&reply, Reply::Made(n, Back::Nothing) if *n == slot);
    assert!(rt; is_made, "node {slot}");
}

/// The last node is owned, and two collections keep the chain.
fn is_kept(rt: &impl Abort, alloc: Global, world: &mut Nodes) {
    let mut calls = Vec::new(alloc);
    push(rt, &mut calls, Call::ToOwned(999));
    push(rt, &mut calls, Call::Collect);
    push(rt, &mut calls, Call::Collect);
    let told = run(world, calls).ok().expect(rt, "memory");
    assert_eq!(rt; told.len(), 3);
    assert!(rt; matches!(told.get(0), Some(Reply::Made(1_000, Back::Nothing))));
    collects(rt, told.get(1), (1_000, 999, 0));
    collects(rt, told.get(2), (1_000, 999, 0));
}

/// The last node is released, and a collection removes the chain.
fn is_removed(rt: &impl Abort, alloc: Global, world: &mut Nodes) {
    let mut calls = Vec::new(alloc);
    push(rt, &mut calls, Call::Release(1_000));
    push(rt, &mut calls, Call::Collect);
    let told = run(world, calls).ok().expect(rt, "memory");
    assert_eq!(rt; told.len(), 2);
    assert!(rt; matches!(told.get(0), Some(Reply::Done(Back::Nothing))));
    collects(rt, told.get(1), (0, 0, 1_000));
}

/// A collection told these visits, mark calls and removed entries.
fn collects(rt: &impl Abort, reply: Option<&NodeReply>, expected: (usize, u64, usize)) {
    let told = match reply {
        Some(Reply::Collected(told)) => Some((told.visits, told.mark_calls, told.removed)),
        _ => None,
    };
    assert_eq!(rt; told, Some(expected));
}
