//! The collector, and calls in collected mode.
ghost use Rattle.std.specs.Prelude.{◌≡◌, true};

use crate::fault::{Fault, ensure, gives_back};
use crate::marks::{prepares, takes_none};
use intern_fixtures::{Node, NodeSlice, make_node};
use ra_ap_intern::{
    Family, GarbageCollector, GcInternedVisit, InternSliceStorage, InternStorage, Interned,
    InternedRef, InternedSlice, InternedSliceRef, Limits, Name, NoStorages, Pair, Refusal, Trace,
};
use std::alloc::{AllocError, Global};
use std::ops::ControlFlow;

/// What tells the node that isn't owned from all others.
const TAG: u64 = 7;

/// The limits of the storage of nodes, which gives all its births.
const LIMITS: Limits = Limits { top: 9, numbers: 3 };

type Storages = Pair<Pair<NoStorages, InternStorage<Node>>, InternSliceStorage<NodeSlice>>;

/// References to entries.
#[derive(Clone, Copy)]
struct Known {
    /// A node without an owner, and its child, which has one.
    node: InternedRef<Node>,
    owned: InternedRef<Node>,
    /// A node that is gone, and one of another storage.
    gone: InternedRef<Node>,
    foreign: InternedRef<Node>,
    /// A slice without an owner.
    slice: InternedSliceRef<NodeSlice>,
}

/// Checks each call.
pub(crate) fn check(rt: &impl Eprint, alloc: Global) -> Result<(), Fault> {
    takes_none(
        rt,
        "GarbageCollector::add_storage, GarbageCollector::add_slice_storage, GarbageCollector::distinct",
    );
    ensure(GarbageCollector::distinct(&make_storages(alloc)))?;
    prepares(rt);
    check_over(rt, alloc, &mut make_storages(alloc))
}

fn check_over(rt: &impl Eprint, alloc: Global, storages: &mut Storages) -> Result<(), Fault> {
    let known = fill_surely(alloc, storages)?;
    check_collections(rt, alloc, storages, known)?;
    check_interning(rt, alloc, &mut storages.first.second, known)?;
    check_release(rt, &mut storages.first.second, known)
}

fn make_storages(alloc: Global) -> Storages {
    let nodes = InternStorage::with_limits(alloc, 1, LIMITS);
    let family = GarbageCollector::add_storage(NoStorages, nodes);
    GarbageCollector::add_slice_storage(family, InternSliceStorage::new(alloc, 2))
}

// Stores what `fill` does, in storages that are made anew where that is refused.
fn fill_surely(alloc: Global, storages: &mut Storages) -> Result<Known, Fault> {
    match fill(alloc, storages) {
        Ok(known) => Ok(known),
        Err(_) => {
            *storages = make_storages(alloc);
            fill(alloc, storages)
        }
    }
}

// Stores three nodes and a slice. A collection removes the first node.
fn fill(alloc: Global, storages: &mut Storages) -> Result<Known, Fault> {
    let nodes = &mut storages.first.second;
    let gone = intern(alloc, nodes, 0, &[])?;
    let owned = intern(alloc, nodes, 1, &[])?;
    drop(owned.to_owned(nodes)?);
    let node = intern(alloc, nodes, TAG, &[owned])?;
    let (slice, _) = InternedSlice::from_header_and_slice(&mut storages.second, 5, &[node])?;
    let foreign = intern(alloc, &mut InternStorage::new(alloc, 3), 0, &[])?;
    collect(alloc, storages, &[slice.name()])?;
    Ok(Known {
        node,
        owned,
        gone,
        foreign,
        slice,
    })
}

/// Keeps what is owned, and what the listed entries reach, of any family. What holds of a family's
/// parts costs the prover nothing here.
pub(crate) fn collect<F: Family>(
    alloc: Global,
    family: &mut F,
    listed: &[Name],
) -> Result<(), Fault>
    requires { F.collected ≡ true }
{
    if !GarbageCollector::distinct(family) {
        return Err(Fault::Wrong);
    }
    GarbageCollector::new(alloc).collect_keeping(family, listed)?;
    Ok(())
}

fn intern(
    alloc: Global,
    nodes: &mut InternStorage<Node>,
    tag: u64,
    children: &[InternedRef<Node>],
) -> Result<InternedRef<Node>, Fault> {
    let (reference, _) = Interned::new_gc(nodes, make_node(alloc, tag, children)?)?;
    Ok(reference)
}

// What collectors of a family answer. Over any family, since what is known of one makes proofs
// long.
fn check_collections<F: Family>(
    rt: &impl Eprint,
    alloc: Global,
    storages: &F,
    known: Known,
) -> Result<(), Fault>
    requires { F.collected ≡ true }
{
    check_collector(rt, alloc, storages, known)?;
    check_mark_all(rt, alloc, storages, known)?;
    check_trace(rt, alloc, storages, known)
}

// A collector before and after it registers the storages.
fn check_collector<F: Family>(
    rt: &impl Eprint,
    alloc: Global,
    storages: &F,
    known: Known,
) -> Result<(), Fault>
    requires { F.collected ≡ true }
{
    takes_none(rt, "GarbageCollector::new");
    let mut gc = GarbageCollector::new(alloc);
    check_marks(rt, &mut gc, known, false)?;
    prepares(rt);
    register(&mut gc, storages)?;
    check_marks(rt, &mut gc, known, true)
}

// Registers the storages, at the second try where the first is refused.
fn register<F: Family>(gc: &mut GarbageCollector, storages: &F) -> Result<(), Fault>
    requires { F.collected ≡ true }
{
    if !GarbageCollector::distinct(storages) {
        return Err(Fault::Wrong);
    }
    if gc.register(storages).is_err() {
        gc.register(storages)?;
    }
    Ok(())
}

// Makes mark calls, after each of which the entry is marked if it joins.
fn check_marks(
    rt: &impl Eprint,
    gc: &mut GarbageCollector,
    known: Known,
    joins: bool,
) -> Result<(), Fault> {
    takes_none(rt, "GarbageCollector::mark_interned_alive");
    ensure(has_joined(gc.mark_interned_alive(known.node)) == joins)?;
    ensure(!has_joined(gc.mark_interned_alive(known.node)))?;
    ensure(!has_joined(gc.mark_interned_alive(known.owned)))?;
    ensure(!has_joined(gc.mark_interned_alive(known.gone)))?;
    ensure(!has_joined(gc.mark_interned_alive(known.foreign)))?;
    takes_none(rt, "GarbageCollector::mark_interned_slice_alive");
    ensure(has_joined(gc.mark_interned_slice_alive(known.slice)) == joins)?;
    ensure(!has_joined(gc.mark_interned_slice_alive(known.slice)))?;
    check_marked(rt, gc, known, joins)
}

// What is marked after these calls.
fn check_marked(
    rt: &impl Eprint,
    gc: &GarbageCollector,
    known: Known,
    joins: bool,
) -> Result<(), Fault> {
    takes_none(rt, "GarbageCollector::is_marked");
    ensure(gc.is_marked(known.node.name()) == joins)?;
    ensure(gc.is_marked(known.slice.name()) == joins)?;
    ensure(!gc.is_marked(known.gone.name()) && !gc.is_marked(known.foreign.name()))?;
    takes_none(rt, "GarbageCollector::visits, GarbageCollector::mark_calls");
    ensure(gc.visits() == 0 && gc.mark_calls() == 7)
}

// Marks a node, and none of what is gone.
fn check_mark_all<F: Family>(
    rt: &impl Eprint,
    alloc: Global,
    storages: &F,
    known: Known,
) -> Result<(), Fault>
    requires { F.collected ≡ true }
{
    prepares(rt);
    let mut gc = GarbageCollector::new(alloc);
    register(&mut gc, storages)?;
    takes_none(rt, "GarbageCollector::mark_all");
    gc.mark_all(&[known.node, known.gone]);
    ensure(gc.is_marked(known.node.name()) && !gc.is_marked(known.gone.name()))?;
    ensure(gc.mark_calls() == 2)
}

// What a node keeps, which nothing else declares here.
fn check_trace<F: Family>(
    rt: &impl Eprint,
    alloc: Global,
    storages: &F,
    known: Known,
) -> Result<(), Fault>
    requires { F.collected ≡ true }
{
    prepares(rt);
    let trace = trace(alloc, storages, &known.node)?;
    takes_none(rt, "Trace::keeps");
    ensure(trace.keeps(known.node) && trace.keeps(known.owned))?;
    ensure(!trace.keeps(known.slice) && !trace.keeps(known.gone))?;
    ensure(!trace.keeps(known.foreign))
}

// Traces the storages, at the second try where the first is refused.
fn trace<F: Family, R: GcInternedVisit>(
    alloc: Global,
    storages: &F,
    roots: &R,
) -> Result<Trace, Fault>
    requires { F.collected ≡ true }
{
    if !GarbageCollector::distinct(storages) {
        return Err(Fault::Wrong);
    }
    match GarbageCollector::new(alloc).trace(storages, roots) {
        Ok(trace) => Ok(trace),
        Err(_) => Ok(GarbageCollector::new(alloc).trace(storages, roots)?),
    }
}

// Whether a mark call marked an entry.
fn has_joined(answer: ControlFlow<()>) -> bool {
    answer == ControlFlow::Continue(())
}

// A node to offer, at the second try where the first is refused.
fn offer(alloc: Global, tag: u64, child: InternedRef<Node>) -> Result<Node, AllocError> {
    match make_node(alloc, tag, &[child]) {
        Ok(node) => Ok(node),
        Err(_) => make_node(alloc, tag, &[child]),
    }
}

// A node that is stored, and one that isn't, while all births are given.
fn check_interning(
    rt: &impl Eprint,
    alloc: Global,
    nodes: &mut InternStorage<Node>,
    known: Known,
) -> Result<(), Fault> {
    prepares(rt);
    let stored = offer(alloc, TAG, known.owned)?;
    takes_none(rt, "Interned::new_gc");
    let (again, back) = Interned::new_gc(nodes, stored)?;
    ensure(again == known.node)?;
    ensure(matches!(&back, Some(node) if node.tag == TAG))?;
    prepares(rt);
    let new = offer(alloc, TAG + 1, known.owned)?;
    takes_none(rt, "Interned::new_gc");
    let back = gives_back(Interned::new_gc(nodes, new), Refusal::NumbersUsedUp)?;
    ensure(back.tag == TAG + 1)
}

// The last release of a node, which stays.
fn check_release(
    rt: &impl Eprint,
    nodes: &mut InternStorage<Node>,
    known: Known,
) -> Result<(), Fault> {
    takes_none(rt, "Interned::release, in collected mode");
    let last = Interned::from_raw(nodes, known.owned.as_raw())?;
    ensure(last.release(nodes)?.is_none() && known.owned.get(nodes).is_some())
}
