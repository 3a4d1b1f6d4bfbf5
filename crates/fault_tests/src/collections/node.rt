//! What a family keeps: nodes, and branches, which are slices.
ghost use Rattle.std.specs.Prelude.{true};

use ra_ap_intern::{
    GarbageCollector, GcInternedSliceVisit, GcInternedVisit, Internable, InternedRef,
    SliceInternable,
};

/// A number, and the node that it declares.
#[derive(Drop, PartialEq, Eq, Hash)]
pub(crate) enum Node {
    /// One that declares nothing.
    Leaf(usize),
    /// One that declares this node.
    Parent(usize, InternedRef<Node>),
}

/// A node before a few numbers. It declares what the node does.
pub(crate) struct Branch;

impl Node {
    /// The node of a number, with this child.
    pub(crate) fn new(number: usize, child: Option<InternedRef<Node>>) -> Node {
        match child {
            None => Node::Leaf(number),
            Some(child) => Node::Parent(number, child),
        }
    }
}

/// The items of a number: none to four.
pub(crate) fn items_of(number: usize) -> &'static [u64] {
    match number % 5 {
        0 => &[123, 456],
        1 => &[],
        2 => &[123],
        3 => &[123, 456, 789],
        _ => &[0, 0, 0, 0],
    }
}

impl Internable for Node {
    const USE_GC: bool = true;

    ghost USE_GC = { true };
}

impl GcInternedVisit for Node {
    ghost use Rattle.fault_tests.specs.Children.{child_names};
    ghost use Rattle.fault_tests.specs.declared.collections.node.Node.{out-Node};

    ghost children = { λ node. child_names (out-Node node) };

    fn visit_with(&self, gc: &mut GarbageCollector) {
        if let Node::Parent(_, child) = self {
            let _ = gc.mark_interned_alive(*child);
        }
    }
}

impl SliceInternable for Branch {
    type Header = Node;

    type SliceType = u64;

    const USE_GC: bool = true;

    ghost USE_GC = { true };
}

impl GcInternedSliceVisit for Branch {
    ghost use Rattle.std.specs.Prelude.{[]};
    ghost use Rattle.fault_tests.specs.Children.{child_names};
    ghost use Rattle.fault_tests.specs.declared.collections.node.Node.{out-Node};

    ghost header_children = { λ node. child_names (out-Node node) };

    ghost slice_children = { λ _. [] };

    fn visit_header(header: &Node, gc: &mut GarbageCollector) {
        header.visit_with(gc);
    }

    fn visit_slice(_slice: &[u64], _gc: &mut GarbageCollector) {}
}
