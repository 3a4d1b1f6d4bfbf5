//! A collection that gives up what the removed values own: nodes, each of which counts its name.
#![tactic(auto)]

ghost use Rattle.std.specs.Prelude.{◌≡◌, true, List, IfOk, OnErr, IsPermutation, map as list_map};
ghost use Rattle.ra_ap_intern.specs.Families.{IsCollection, kept_named};
ghost use Rattle.ra_ap_intern.specs.Handle.{ref_name};
ghost use Rattle.ra_ap_intern.specs.Name.{Name};
ghost use Rattle.ra_ap_intern.specs.Names.{has};
ghost use Rattle.ra_ap_intern.specs.Reach.{starts_with};
ghost use Rattle.ra_ap_intern.specs.State.{named_values};
ghost use Rattle.use_removed.specs.Removed.{declared_by, nodes_of, without_removed};

use ra_ap_intern::{
    Collected, GarbageCollector, GcInternedVisit, InternStorage, Internable, InternedRef,
    SymbolRef, SymbolTable, Trace,
};
use std::alloc::{AllocError, Global};

/// A node: its name, and the nodes behind it.
#[derive(Drop, PartialEq, Eq, Hash)]
pub struct Node {
    pub name: SymbolRef,
    pub behind: Vec<InternedRef<Node>>,
}

impl Internable for Node {
    const USE_GC: bool = true;

    ghost USE_GC = { true };
}

impl GcInternedVisit for Node {
    ghost children = { declared_by };

    fn visit_with(&self, gc: &mut GarbageCollector) {
        self.behind.visit_with(gc);
    }
}

/// Nodes and their names.
#[derive(Drop)]
pub struct Nodes {
    pub names: SymbolTable,
    pub nodes: InternStorage<Node>,
}

impl Nodes {
    /// Removes every node that is neither counted nor listed, nor behind one that stays, and gives
    /// up the count that each has of its name. Where there is no memory, `AllocError`, and nothing
    /// has changed.
    pub fn collect(
        &mut self,
        alloc: Global,
        roots: &[InternedRef<Node>],
    ) -> Result<Collected, AllocError>
        ensures ok { let begins =
            starts_with (list_map ref_name roots.now) (nodes_of self.old.nodes) in
            IfOk result (λ told. (kept : List Name)
            × IsCollection begins (nodes_of self.old.nodes) kept told
            × (self.new.nodes ≡ kept_named self.old.nodes (has kept))
            × (listed : List (Name × Node))
            × IsPermutation listed (named_values self.old.nodes)
            × (self.new.names ≡ without_removed (has kept) listed self.old.names)) }
        ensures err { OnErr result (self.new ≡ self.old) }
    {
        let trace = GarbageCollector::new(alloc).trace(&self.nodes, &roots)?;
        self.give_up(&trace);
        Ok(trace.sweep(&mut self.nodes))
    }

    // Gives up the names of the nodes that don't stay.
    fn give_up(&mut self, trace: &Trace)
        ensures names { (listed : List (Name × Node))
            × IsPermutation listed (named_values self.old.nodes)
            × (self.new.names ≡ without_removed (has trace.now.marked) listed self.old.names) }
        ensures nodes { self.new.nodes ≡ self.old.nodes }
    {
        for (reference, node) in self.nodes.iter() {
            if !trace.keeps(reference) {
                let _ = node.name.decrease_refcount(&mut self.names);
            }
        }
    }
}
