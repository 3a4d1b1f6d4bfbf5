//! Names go with the nodes that had them.
use crate::steps::is_equal;
use ra_ap_intern::{InternStorage, Interned, InternedRef, Symbol, SymbolTable};
use std::alloc::Global;
use std::process::Abort;
use use_removed::{Node, Nodes};

// A node of a new name, which counts it.
fn node(
    rt: &impl Abort,
    alloc: Global,
    nodes: &mut Nodes,
    name: &str,
    next: &[InternedRef<Node>],
) -> InternedRef<Node> {
    let name = Symbol::intern(&mut nodes.names, name).expect(rt, "a name");
    let node = Node {
        name: name.as_ref(),
        behind: next.to_vec(alloc).expect(rt, "memory"),
    };
    let (reference, _) = Interned::new_gc(&mut nodes.nodes, node)
        .ok()
        .expect(rt, "a node");
    reference
}

/// How many nodes were visited, and how many went, where these roots stay.
fn collect(
    rt: &impl Abort,
    alloc: Global,
    nodes: &mut Nodes,
    roots: &[InternedRef<Node>],
) -> (usize, usize) {
    let told = nodes.collect(alloc, roots).expect(rt, "memory");
    (told.visits, told.removed)
}

#[test]
fn names_go_with_their_nodes(rt: HostRuntime) {
    let alloc = rt.alloc();
    let mut nodes = Nodes {
        names: SymbolTable::new(alloc, 1),
        nodes: InternStorage::new(alloc, 2),
    };
    let first = node(&rt, alloc, &mut nodes, "my_first", &[]);
    let second = node(&rt, alloc, &mut nodes, "my_second", &[first]);
    let _ = node(&rt, alloc, &mut nodes, "my_third", &[second]);
    let _ = node(&rt, alloc, &mut nodes, "self", &[second]);
    let _ = node(&rt, alloc, &mut nodes, "my_first", &[second]);

    is_equal(&rt, collect(&rt, alloc, &mut nodes, &[second]), (2, 3));
    is_equal(&rt, nodes.names.len(), 2);
    assert!(rt; nodes.names.get("my_first").is_some());
    assert!(rt; nodes.names.get("my_third").is_none());

    is_equal(&rt, collect(&rt, alloc, &mut nodes, &[]), (0, 2));
    assert!(rt; nodes.names.is_empty());
}
