//! Values that are chosen against a seed that is known, and storages and tables of keyed hashers.
ghost use Rattle.std.specs.Prelude.{◌≡◌, true, false, []};

use crate::steps::is_equal;
use ra_ap_intern::{
    Family, FixedState, GarbageCollector, GcInternedSliceVisit, GcInternedVisit,
    InternSliceStorage, InternStorage, Internable, Interned, InternedRef, InternedSlice,
    InternedSliceRef, Limits, NoStorages, Pair, SliceInternable, Symbol, Text, sym,
};
use std::alloc::Global;
use std::collections::HashSet;
use std::hash::{BuildHasher, RandomState};
use std::process::Abort;
use use_hashers::{Names, Texts, intern, new_names, new_texts};

/// How many values are chosen.
const COUNT: u64 = 1_000;

/// Two numbers, counted.
#[derive(Clone, Copy, Debug, PartialEq, Eq, Hash)]
struct Twins(u64, u64);

impl Internable for Twins {
    const USE_GC: bool = false;

    ghost USE_GC = { false };
}

/// Numbers that someone chose who knows the seed: the second takes back what the first made of the
/// hasher's state.
fn choose(first: u64) -> Twins {
    Twins(first, FixedState::new().hash_one(first))
}

/// The numbers are new, and are stored under this birth.
fn is_new<B: BuildHasher>(rt: &impl Abort, storage: &mut InternStorage<Twins, B>, first: u64) {
    let answer = Interned::new(storage, choose(first)).ok();
    let (handle, back) = answer.expect(rt, "interned");
    is_equal(rt, (handle.as_ref().as_raw(), back), (first, None));
}

/// The numbers are stored under this birth.
fn is_stored<B: BuildHasher>(rt: &impl Abort, storage: &InternStorage<Twins, B>, first: u64) {
    let found = storage.get(&choose(first)).expect(rt, "stored");
    is_equal(rt, found.as_raw(), first);
    is_equal(rt, found.get(storage).copied(), Some(choose(first)));
}

/// All that are chosen are stored, each once.
fn are_told_apart<B: BuildHasher>(rt: &impl Abort, storage: &mut InternStorage<Twins, B>) {
    for first in 0..COUNT {
        is_new(rt, storage, first);
    }
    for first in 0..COUNT {
        is_stored(rt, storage, first);
    }
    is_equal(rt, storage.len() as u64, COUNT);
}

#[test]
fn chosen_values_have_one_hash_by_a_known_seed(rt: HostRuntime) {
    let hash = FixedState::new().hash_one(choose(0));
    for first in 0..COUNT {
        assert!(rt; FixedState::new().hash_one(choose(first)) == hash);
    }
}

/// The ten highest bits of the hash of what is chosen: a table of 1,024 buckets looks for it there.
fn home(keys: &RandomState, first: u64) -> u64 {
    keys.hash_one(choose(first)) >> 54
}

/// The buckets of all that are chosen.
fn homes(rt: &impl Abort, alloc: Global, keys: &RandomState) -> HashSet<u64> {
    let mut homes = HashSet::new(alloc);
    for first in 0..COUNT {
        homes.insert(home(keys, first)).expect(rt, "memory");
    }
    homes
}

// 638 of the buckets are expected to be taken, and fewer than 500 never will be.
#[test]
fn chosen_values_lie_apart_under_random_keys(rt: HostRuntime) {
    let keys = RandomState::new(&rt).expect(&rt, "random keys");
    assert!(rt; homes(&rt, rt.alloc(), &keys).len() > 500);
}

#[test]
fn chosen_values_are_told_apart_by_any_hasher(rt: HostRuntime) {
    let mut known = InternStorage::new(rt.alloc(), 1);
    are_told_apart(&rt, &mut known);
    let keys = RandomState::new(&rt).expect(&rt, "random keys");
    let mut keyed = InternStorage::with_hasher(rt.alloc(), 2, Limits::MAX, keys);
    are_told_apart(&rt, &mut keyed);
}

/// A text, interned.
fn text(rt: &impl Abort, alloc: Global, texts: &mut Texts) -> Interned<Text> {
    let text = Text::new(alloc, "text").expect(rt, "memory");
    intern(texts, text).ok().expect(rt, "interned")
}

#[test]
fn equal_texts_have_one_handle(rt: HostRuntime) {
    let mut texts = new_texts(&rt, rt.alloc(), 1).expect(&rt, "random keys");
    let first = text(&rt, rt.alloc(), &mut texts);
    let again = text(&rt, rt.alloc(), &mut texts);
    assert!(rt; first == again);
    assert!(rt; texts.get_text("text") == Some(first.as_ref()));
    assert!(rt; texts.count(first.as_ref()) == Some(2));
}

/// A text that the table keeps once it is interned, and a preset.
fn names_are_kept(rt: &impl Abort, names: &mut Names) {
    let name = Symbol::intern(names, "a name").expect(rt, "interned");
    let second = name.clone(names).expect(rt, "cloned");
    assert!(rt; name == second);
    is_equal(rt, name.as_str(names), Some("a name"));
    assert!(rt; names.get("a name") == Some(name.as_ref()));
    assert!(rt; Symbol::intern(names, "Clone") == Ok(sym::Clone));
    assert!(rt; second.release(names).is_ok());
    is_equal(rt, names.count(&name), Some(1));
    assert!(rt; name.release(names).is_ok());
    is_equal(rt, names.len(), 0);
}

#[test]
fn names_are_kept_while_they_are_counted(rt: HostRuntime) {
    let mut names = new_names(&rt, rt.alloc(), 1).expect(&rt, "random keys");
    names_are_kept(&rt, &mut names);
}

/// A number, collected.
#[derive(Clone, Copy, Debug, PartialEq, Eq, Hash)]
struct Leaf(u64);

impl Internable for Leaf {
    const USE_GC: bool = true;

    ghost USE_GC = { true };
}

impl GcInternedVisit for Leaf {
    ghost children = { λ _. [] };

    fn visit_with(&self, _gc: &mut GarbageCollector) {}
}

/// Numbers behind a number.
struct Row;

impl SliceInternable for Row {
    type Header = u64;

    type SliceType = u64;

    const USE_GC: bool = true;

    ghost USE_GC = { true };
}

impl GcInternedSliceVisit for Row {
    ghost header_children = { λ _. [] };

    ghost slice_children = { λ _. [] };

    fn visit_header(_header: &u64, _gc: &mut GarbageCollector) {}

    fn visit_slice(_slice: &[u64], _gc: &mut GarbageCollector) {}
}

/// A storage of leaves, under random keys.
type Leaves = InternStorage<Leaf, RandomState>;

/// A storage of rows, under random keys.
type Rows = InternSliceStorage<Row, RandomState>;

/// Leaves and rows.
type LeavesAndRows = Pair<Pair<NoStorages, Leaves>, Rows>;

/// No leaves, and no rows.
fn leaves_and_rows(alloc: Global, keys: RandomState) -> LeavesAndRows {
    let leaves = InternStorage::with_hasher(alloc, 1, Limits::MAX, keys);
    let rows = InternSliceStorage::with_hasher(alloc, 2, Limits::MAX, keys);
    GarbageCollector::add_slice_storage(GarbageCollector::add_storage(NoStorages, leaves), rows)
}

/// A leaf, interned.
fn make_leaf(rt: &impl Abort, leaves: &mut Leaves, number: u64) -> InternedRef<Leaf> {
    let (leaf, _) = Interned::new_gc(leaves, Leaf(number))
        .ok()
        .expect(rt, "interned");
    leaf
}

/// A row, interned. It is found by its numbers.
fn make_row(rt: &impl Abort, rows: &mut Rows) -> InternedSliceRef<Row> {
    let answer = InternedSlice::from_header_and_slice(rows, 1, &[1, 2]);
    let (row, _) = answer.ok().expect(rt, "interned");
    assert!(rt; rows.get(&1, &[1, 2]) == Some(row));
    row
}

fn collect<F: Family>(rt: &impl Abort, alloc: Global, family: &mut F)
    requires { F.collected ≡ true }
{
    assert!(rt; GarbageCollector::distinct(family));
    let _ = GarbageCollector::new(alloc)
        .collect(family)
        .expect(rt, "collected");
}

/// A leaf that is owned stays, and one that isn't goes, and so does a row.
fn collects(rt: &impl Abort, alloc: Global, family: &mut LeavesAndRows) {
    let leaves = &mut family.first.second;
    let kept = make_leaf(rt, leaves, 1);
    let gone = make_leaf(rt, leaves, 2);
    let _ = kept.to_owned(leaves).expect(rt, "owned");
    let row = make_row(rt, &mut family.second);
    collect(rt, alloc, family);
    let leaves = &family.first.second;
    is_equal(rt, kept.get(leaves).copied(), Some(Leaf(1)));
    assert!(rt; gone.get(leaves).is_none());
    assert!(rt; row.get(&family.second).is_none());
}

#[test]
fn a_collection_leaves_what_is_owned(rt: HostRuntime) {
    let keys = RandomState::new(&rt).expect(&rt, "random keys");
    collects(&rt, rt.alloc(), &mut leaves_and_rows(rt.alloc(), keys));
}
