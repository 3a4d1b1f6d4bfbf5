//! Values that count their visits, in a cell that equality and hash pass over.
ghost use Rattle.std.specs.Prelude.{true};

use crate::steps::{
    collects_slices, collects_values, has_count, intern, intern_slice, is_equal, own, own_slice,
};
use intern_fixtures::{drop_slices, drop_values, new_slices, new_values};
use ra_ap_intern::{
    GarbageCollector, GcInternedSliceVisit, GcInternedVisit, InternSliceStorage, InternStorage,
    Internable, InternedRef, InternedSliceRef, SliceInternable,
};
use std::alloc::Global;
use std::cell::Cell;
use std::ops::ControlFlow;
use std::process::Abort;

/// A tag, with how often it was visited, and whether the last mark call of its visits marked.
#[derive(Drop)]
#[derive_where(PartialEq, Eq, Hash)]
struct Visits {
    tag: u64,
    #[derive_where(skip(EqHashOrd))]
    visits: Cell<u64>,
    #[derive_where(skip(EqHashOrd))]
    last_marked: Cell<bool>,
}

impl Visits {
    /// The tag, not visited.
    fn new(tag: u64) -> Visits {
        Visits {
            tag,
            visits: Cell::new(0),
            last_marked: Cell::new(false),
        }
    }

    /// How often it was visited.
    fn get(&self) -> u64 {
        self.visits.get()
    }

    /// Notes what a mark call of its visit answered.
    fn note(&self, answer: ControlFlow<()>) {
        self.last_marked.set(answer.is_continue());
    }

    /// Counts one visit more.
    fn add_one(&self) {
        self.visits.set(self.visits.get().wrapping_add(1));
    }
}

/// A node that counts its visits.
#[derive(Drop, PartialEq, Eq, Hash)]
struct Visited {
    visits: Visits,
    children: Vec<InternedRef<Visited>>,
}

impl Internable for Visited {
    const USE_GC: bool = true;

    ghost USE_GC = { true };
}

impl GcInternedVisit for Visited {
    ghost use Rattle.std.specs.Prelude.{map};
    ghost use Rattle.collection_tests.specs.declared.visited.Visited.{out-Visited};
    ghost use Rattle.ra_ap_intern.specs.Handle.{ref_name};

    ghost children = { λ node. map ref_name (out-Visited node).children.items };

    fn visit_with(&self, gc: &mut GarbageCollector) {
        self.visits.add_one();
        for child in &self.children {
            self.visits.note(gc.mark_interned_alive(*child));
        }
    }
}

/// Interns a node of a tag over these children, not visited. It gets its tag as its birth.
fn intern_visited(
    rt: &impl Abort,
    alloc: Global,
    storage: &mut InternStorage<Visited>,
    tag: u64,
    children: &[InternedRef<Visited>],
) -> InternedRef<Visited> {
    let visits = Visits::new(tag);
    let children = children.to_vec(alloc).expect(rt, "memory");
    intern(rt, storage, Visited { visits, children }, tag)
}

#[test]
fn a_collection_visits_each_value_once(rt: HostRuntime) {
    let alloc = rt.alloc();
    let mut storage = new_values(alloc, 1);
    let leaf = intern_visited(&rt, alloc, &mut storage, 0, &[]);
    let left = intern_visited(&rt, alloc, &mut storage, 1, &[leaf]);
    let right = intern_visited(&rt, alloc, &mut storage, 2, &[leaf]);
    let top = intern_visited(&rt, alloc, &mut storage, 3, &[left, right]);
    let _ = own(&rt, &mut storage, top);
    collects_values(&rt, alloc, &mut storage, (4, 4, 0));
    were_visited(&rt, &storage, [leaf, left, right, top], 1);
    collects_values(&rt, alloc, &mut storage, (4, 4, 0));
    were_visited(&rt, &storage, [leaf, left, right, top], 2);
    drop_values(storage);
}

/// Each node was visited this often.
fn were_visited(
    rt: &impl Abort,
    storage: &InternStorage<Visited>,
    nodes: [InternedRef<Visited>; 4],
    visits: u64,
) {
    for node in nodes {
        let read = node.get(storage).map(|node| node.visits.get());
        is_equal(rt, read, Some(visits));
    }
}

#[test]
fn a_collection_marks_a_child_that_is_declared_twice_once(rt: HostRuntime) {
    let alloc = rt.alloc();
    let mut storage = new_values(alloc, 1);
    let child = intern_visited(&rt, alloc, &mut storage, 0, &[]);
    let node = intern_visited(&rt, alloc, &mut storage, 1, &[child, child]);
    let _ = own(&rt, &mut storage, node);
    has_count(&rt, &storage, child, 0);
    collects_values(&rt, alloc, &mut storage, (2, 2, 0));
    last_marked(&rt, &storage, node, false);
    drop_values(storage);
}

#[test]
fn a_collection_marks_a_child_that_is_declared_once(rt: HostRuntime) {
    let alloc = rt.alloc();
    let mut storage = new_values(alloc, 1);
    let child = intern_visited(&rt, alloc, &mut storage, 0, &[]);
    let node = intern_visited(&rt, alloc, &mut storage, 1, &[child]);
    let _ = own(&rt, &mut storage, node);
    collects_values(&rt, alloc, &mut storage, (2, 1, 0));
    last_marked(&rt, &storage, node, true);
    drop_values(storage);
}

/// The last mark call of the visit of a node marked, or didn't.
fn last_marked(
    rt: &impl Abort,
    storage: &InternStorage<Visited>,
    node: InternedRef<Visited>,
    marked: bool,
) {
    let read = node.get(storage).map(|node| node.visits.last_marked.get());
    is_equal(rt, read, Some(marked));
}

/// Nodes that are slices: each is a tag, which counts its visits, before its children.
struct VisitedSlice;

impl SliceInternable for VisitedSlice {
    type Header = Visits;

    type SliceType = InternedSliceRef<VisitedSlice>;

    const USE_GC: bool = true;

    ghost USE_GC = { true };
}

impl GcInternedSliceVisit for VisitedSlice {
    ghost use Rattle.std.specs.Prelude.{map, []};
    ghost use Rattle.ra_ap_intern.specs.Handle.{ref_name};

    ghost header_children = { λ _. [] };

    ghost slice_children = { λ items. map ref_name items };

    fn visit_header(header: &Visits, _gc: &mut GarbageCollector) {
        header.add_one();
    }

    fn visit_slice(slice: &[InternedSliceRef<VisitedSlice>], gc: &mut GarbageCollector) {
        for child in slice {
            let _ = gc.mark_interned_slice_alive(*child);
        }
    }
}

#[test]
fn a_collection_visits_each_slice_once(rt: HostRuntime) {
    let alloc = rt.alloc();
    let mut storage = new_slices(alloc, 1);
    let leaf = intern_slice(&rt, &mut storage, Visits::new(0), &[], 0);
    let left = intern_slice(&rt, &mut storage, Visits::new(1), &[leaf], 1);
    let right = intern_slice(&rt, &mut storage, Visits::new(2), &[leaf], 2);
    let top = intern_slice(&rt, &mut storage, Visits::new(3), &[left, right], 3);
    let _ = own_slice(&rt, &mut storage, top);
    collects_slices(&rt, alloc, &mut storage, (4, 4, 0));
    slices_were_visited(&rt, &storage, [leaf, left, right, top], 1);
    collects_slices(&rt, alloc, &mut storage, (4, 4, 0));
    slices_were_visited(&rt, &storage, [leaf, left, right, top], 2);
    drop_slices(storage);
}

/// Each slice was visited this often.
fn slices_were_visited(
    rt: &impl Abort,
    storage: &InternSliceStorage<VisitedSlice>,
    slices: [InternedSliceRef<VisitedSlice>; 4],
    visits: u64,
) {
    for slice in slices {
        let read = slice.get(storage).map(|read| read.header.header.get());
        is_equal(rt, read, Some(visits));
    }
}
