//! Steps of tests over nodes, each with the answer that it must get.
use crate::steps::{intern, own, registers};
use intern_fixtures::{Node, drop_values, make_node, new_values};
use ra_ap_intern::{GarbageCollector, InternStorage, Interned, InternedRef};
use std::alloc::Global;
use std::process::Abort;

/// A storage of nodes.
pub type Nodes = InternStorage<Node>;

/// Interns the node of a tag over these children, which isn't stored: it gets this birth.
pub fn intern_node(
    rt: &impl Abort,
    alloc: Global,
    storage: &mut Nodes,
    (tag, children): (u64, &[InternedRef<Node>]),
    birth: u64,
) -> InternedRef<Node> {
    let node = make_node(alloc, tag, children).expect(rt, "memory");
    intern(rt, storage, node, birth)
}

/// Interns the node of a tag without children, which isn't stored: it gets this birth.
pub fn intern_leaf(
    rt: &impl Abort,
    alloc: Global,
    storage: &mut Nodes,
    tag: u64,
    birth: u64,
) -> InternedRef<Node> {
    intern_node(rt, alloc, storage, (tag, &[]), birth)
}

/// Interns nodes without children that aren't stored, of each tag from the first one to the end:
/// they get their tags as births.
pub fn intern_leaves(rt: &impl Abort, alloc: Global, storage: &mut Nodes, first: u64, end: u64) {
    for tag in first..end {
        let _ = intern_leaf(rt, alloc, storage, tag, tag);
    }
}

/// Interns an owned node of tag 0 over these children, which isn't stored: it gets this birth.
pub fn intern_owned(
    rt: &impl Abort,
    alloc: Global,
    storage: &mut Nodes,
    children: &[InternedRef<Node>],
    birth: u64,
) -> Interned<Node> {
    let node = intern_node(rt, alloc, storage, (0, children), birth);
    own(rt, storage, node)
}

/// A reference to the entry of a birth in a storage of this number, which is given up.
pub fn given_up(rt: &impl Abort, alloc: Global, number: u64, birth: u64) -> InternedRef<Node> {
    let mut storage = new_values(alloc, number);
    intern_leaves(rt, alloc, &mut storage, 0, birth);
    let last = intern_leaf(rt, alloc, &mut storage, birth, birth);
    drop_values(storage);
    last
}

/// Registers a storage.
pub fn registers_nodes(rt: &impl Abort, gc: &mut GarbageCollector, storage: &Nodes) {
    registers(rt, gc, storage);
}
