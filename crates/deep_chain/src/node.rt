//! Nodes, each of which may have a child.
ghost use Rattle.std.specs.Prelude.{true};

use ra_ap_intern::{
    GarbageCollector, GcInternedVisit, InternStorage, Internable, Interned, InternedRef, Refusal,
};

/// A node, collected.
#[derive(Drop, PartialEq, Eq, Hash)]
pub(crate) enum Node {
    /// One without a child.
    First,
    /// One with this child.
    Parent(InternedRef<Node>),
}

impl Internable for Node {
    const USE_GC: bool = true;

    ghost USE_GC = { true };
}

impl GcInternedVisit for Node {
    ghost use Rattle.deep_chain.specs.Children.{child_names};
    ghost use Rattle.deep_chain.specs.declared.node.Node.{out-Node};

    ghost children = { λ node. child_names (out-Node node) };

    fn visit_with(&self, gc: &mut GarbageCollector) {
        if let Node::Parent(child) = self {
            let _ = gc.mark_interned_alive(*child);
        }
    }
}

/// Stores a chain, each node the child of the next, and answers the last.
pub(crate) fn store_chain(
    nodes: &mut InternStorage<Node>,
    length: u64,
) -> Result<Option<InternedRef<Node>>, Refusal> {
    let mut last = None;
    for _ in 0..length {
        let node = match last {
            None => Node::First,
            Some(child) => Node::Parent(child),
        };
        let stored = Interned::new_gc(nodes, node);
        let (reference, _) = stored.map_err(|refused| refused.why)?;
        last = Some(reference);
    }
    Ok(last)
}
