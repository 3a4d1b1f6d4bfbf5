//! Values that are collected, with what they declare.
ghost use Rattle.std.specs.Prelude.{true, []};

use ra_ap_intern::{GarbageCollector, GcInternedVisit, Internable, InternedRef};
use std::alloc::{AllocError, Global};

/// A text, collected. It declares nothing.
#[derive(Debug, Drop, PartialEq, Eq, Hash)]
pub struct GcString(String);

impl Internable for GcString {
    const USE_GC: bool = true;

    ghost USE_GC = { true };
}

impl GcInternedVisit for GcString {
    ghost children = { λ _. [] };

    fn visit_with(&self, _gc: &mut GarbageCollector) {}
}

impl GcString {
    /// The text.
    pub fn text(&self) -> &str {
        self.0.as_str()
    }
}

/// The collected text.
pub fn make_gc_string(alloc: Global, text: &str) -> Result<GcString, AllocError> {
    Ok(GcString(String::from_str(alloc, text)?))
}

/// A value that refers to others of its type, and declares them in order.
#[derive(Drop, PartialEq, Eq, Hash)]
pub struct Node {
    /// What tells it apart from other nodes with the same children.
    pub tag: u64,
    /// The nodes that it declares.
    pub children: Vec<InternedRef<Node>>,
}

impl Internable for Node {
    const USE_GC: bool = true;

    ghost USE_GC = { true };
}

impl GcInternedVisit for Node {
    ghost use Rattle.std.specs.Prelude.{map};
    ghost use Rattle.intern_fixtures.specs.declared.nodes.Node.{out-Node};
    ghost use Rattle.ra_ap_intern.specs.Handle.{ref_name};

    ghost children = { λ node. map ref_name (out-Node node).children.items };

    fn visit_with(&self, gc: &mut GarbageCollector) {
        for child in &self.children {
            let _ = gc.mark_interned_alive(*child);
        }
    }
}

/// The node of a tag over these children.
pub fn make_node(
    alloc: Global,
    tag: u64,
    children: &[InternedRef<Node>],
) -> Result<Node, AllocError> {
    let children = children.to_vec(alloc)?;
    Ok(Node { tag, children })
}
