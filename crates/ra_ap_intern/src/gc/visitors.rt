//! What handles declare, and what is made of them does: the visitor of a struct is a line a field.
//!
//! Where there is more than one such line, the proof of the visitor is told of the marks of two
//! lists: `#[tactic(auto, using(ra_ap_intern::proofs::Visitors::marks_append))]`.
use super::GarbageCollector;
use super::visit::GcInternedVisit;
use crate::owed::Owed;
use crate::storage::{Owned, Ref};
use std::cmp::Eq;
use std::collections::HashMap;
use std::hash::{BuildHasher, Hash};

// A reference declares its entry, of whichever kind.
impl<K> GcInternedVisit for Ref<K> {
    ghost use Rattle.ra_ap_intern.specs.Visitors.{own_name};

    ghost children = { own_name };

    fn visit_with(&self, gc: &mut GarbageCollector) {
        let _was_new = gc.marks.mark(self.key);
    }
}

// So does an owned handle.
impl<K> GcInternedVisit for Owned<K> {
    ghost use Rattle.ra_ap_intern.specs.Visitors.{owned_name};

    ghost children = { owned_name };

    fn visit_with(&self, gc: &mut GarbageCollector) {
        self.reference.visit_with(gc);
    }
}

// And one that must be released.
impl<K> GcInternedVisit for Owed<K> {
    ghost use Rattle.ra_ap_intern.specs.Handle.{handle_of};
    ghost use Rattle.ra_ap_intern.specs.Visitors.{owned_name};

    ghost children = { λ owed. owned_name (handle_of owed) };

    fn visit_with(&self, gc: &mut GarbageCollector) {
        self.as_ref().visit_with(gc);
    }
}

impl<V: GcInternedVisit> GcInternedVisit for Option<V> {
    ghost use Rattle.ra_ap_intern.specs.Visitors.{of_option};

    ghost children = { of_option V.children };

    fn visit_with(&self, gc: &mut GarbageCollector) {
        if let Some(visited) = self {
            visited.visit_with(gc);
        }
    }
}

impl<A: GcInternedVisit, B: GcInternedVisit> GcInternedVisit for (A, B) {
    ghost use Rattle.std.specs.Prelude.{◌++◌};

    ghost children = { λ both. A.children both.0 ++ B.children both.1 };

    #[tactic(auto, using(crate::proofs::Visitors::marks_append))]
    fn visit_with(&self, gc: &mut GarbageCollector) {
        self.0.visit_with(gc);
        self.1.visit_with(gc);
    }
}

impl<A: GcInternedVisit, B: GcInternedVisit, C: GcInternedVisit> GcInternedVisit for (A, B, C) {
    ghost use Rattle.std.specs.Prelude.{◌++◌};

    ghost children = { λ all. A.children all.0 ++ B.children all.1 ++ C.children all.2 };

    #[tactic(auto, using(crate::proofs::Visitors::marks_append))]
    fn visit_with(&self, gc: &mut GarbageCollector) {
        self.0.visit_with(gc);
        self.1.visit_with(gc);
        self.2.visit_with(gc);
    }
}

impl<'a, V: GcInternedVisit> GcInternedVisit for &'a [V] {
    ghost use Rattle.std.specs.List.{flat_map};

    ghost children = { λ items. flat_map V.children items.now };

    fn visit_with(&self, gc: &mut GarbageCollector) {
        gc.mark_all(self);
    }
}

impl<V: GcInternedVisit, const N: usize> GcInternedVisit for [V; N] {
    ghost use Rattle.std.specs.List.{flat_map};

    ghost children = { λ items. flat_map V.children items };

    fn visit_with(&self, gc: &mut GarbageCollector) {
        gc.mark_all(self.as_slice());
    }
}

impl<V: GcInternedVisit> GcInternedVisit for Vec<V> {
    ghost use Rattle.std.specs.List.{flat_map};

    ghost children = { λ items. flat_map V.children items.items };

    fn visit_with(&self, gc: &mut GarbageCollector) {
        gc.mark_all(self.as_slice());
    }
}

// Each key, and what is under it, in the order in which the map lists them.
impl<K: Eq + Hash + GcInternedVisit, V: GcInternedVisit, S: BuildHasher> GcInternedVisit
    for HashMap<K, V, S> {
    ghost use Rattle.ra_ap_intern.specs.Visitors.{of_map};

    ghost children = { of_map K.children V.children };

    #[tactic(auto, using(crate::proofs::Visitors::marks_append))]
    fn visit_with(&self, gc: &mut GarbageCollector) {
        for (key, value) in self.iter() {
            key.visit_with(gc);
            value.visit_with(gc);
        }
    }
}
