//! The nodes that collections keep or drop.
ghost use Rattle.std.specs.Prelude.{true};

use crate::shapes::Shape;
use anyhow::Result;
use ra_ap_intern::{
    GarbageCollector, GcInternedVisit, InternStorage, Internable, Interned, InternedRef,
    OptionalInternedRef, Refusal,
};

/// A node, which may refer to two others of its storage.
#[derive(Clone, Copy, PartialEq, Eq, Hash)]
pub(crate) struct Node {
    id: u64,
    children: [OptionalInternedRef<Node>; 2],
}

impl Node {
    /// A node that refers to none.
    pub(crate) fn alone(id: u64) -> Node {
        Node {
            id,
            children: [OptionalInternedRef::none(); 2],
        }
    }
}

impl Internable for Node {
    const USE_GC: bool = true;

    ghost USE_GC = { true };
}

impl GcInternedVisit for Node {
    ghost use Rattle.std.specs.List.{flat_map};
    ghost use Rattle.intern_bench.specs.declared.nodes.Node.{out-Node};
    ghost use Rattle.ra_ap_intern.specs.Handle.{name_if};
    ghost use Rattle.ra_ap_intern.specs.Visitors.{of_name};

    ghost children = { λ node. flat_map (λ o. of_name (name_if o)) (out-Node node).children };

    fn visit_with(&self, gc: &mut GarbageCollector) {
        self.children.visit_with(gc);
    }
}

/// Stores a node.
pub(crate) fn store_node(
    storage: &mut InternStorage<Node>,
    node: Node,
) -> Result<InternedRef<Node>, Refusal> {
    match Interned::new_gc(storage, node) {
        Ok((reference, _)) => Ok(reference),
        Err(refused) => Err(refused.why),
    }
}

/// Stores the nodes of a shape that aren't listed yet, and lists them. A node's id is its place.
pub(crate) fn store_nodes(
    storage: &mut InternStorage<Node>,
    shape: &Shape,
    listed: &mut Vec<InternedRef<Node>>,
) -> Result<()> {
    for place in listed.len()..shape.nodes {
        let (a, b) = shape.children(place);
        let node = Node {
            id: place as u64,
            children: [listed_at(listed, a), listed_at(listed, b)],
        };
        listed.push(store_node(storage, node)?)?;
    }
    Ok(())
}

// The reference at a place of a list.
fn listed_at<T>(listed: &[InternedRef<T>], place: Option<usize>) -> OptionalInternedRef<T> {
    match place {
        Some(place) => listed.get(place).copied().into(),
        None => OptionalInternedRef::none(),
    }
}

/// Counts the entries of references once more each, and keeps the handles.
pub(crate) fn own_all(
    storage: &mut InternStorage<Node>,
    references: &[InternedRef<Node>],
    handles: &mut Vec<Interned<Node>>,
) -> Result<()> {
    for reference in references {
        handles.push(InternedRef::to_owned(*reference, storage)?)?;
    }
    Ok(())
}

/// Gives handles up in their order. The entries stay.
pub(crate) fn disown_all(
    storage: &mut InternStorage<Node>,
    handles: &mut Vec<Interned<Node>>,
) -> Result<(), Refusal> {
    for handle in handles.drain(..) {
        if let Err(refused) = handle.release(storage) {
            return Err(refused.why);
        }
    }
    Ok(())
}
