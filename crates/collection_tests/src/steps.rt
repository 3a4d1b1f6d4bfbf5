//! Steps of tests over any type, each with the answer that it must get.
ghost use Rattle.std.specs.Prelude.{◌≡◌, true};

use intern_fixtures::{allowed, told};
use ra_ap_intern::{
    Collected, Family, GarbageCollector, GcInternedSliceVisit, GcInternedVisit, InternSliceStorage,
    InternStorage, Internable, Interned, InternedRef, InternedSlice, InternedSliceRef, Name,
    SliceInternable,
};
use std::alloc::Global;
use std::fmt::Debug;
use std::process::Abort;

/// The values are equal.
pub fn is_equal<V: Copy + PartialEq + Debug>(rt: &impl Abort, found: V, wanted: V) {
    assert_eq!(rt; found, wanted);
}

/// Adds a value at the end of a list.
pub fn push<V: Drop>(rt: &impl Abort, list: &mut Vec<V>, value: V) {
    let pushed: Result<_, _> = list.push(value);
    pushed.expect(rt, "memory");
}

/// Drops a collector.
pub fn drop_collector(_gc: GarbageCollector) {}

/// Registers a family.
pub fn registers<F: Family>(rt: &impl Abort, gc: &mut GarbageCollector, family: &F)
    requires { F.collected ≡ true }
{
    assert!(rt; GarbageCollector::distinct(family));
    is_equal(rt, gc.register(family), Ok(()));
}

/// Collects a family: the visits, the mark calls and the removed entries are these.
pub fn collects<F: Family>(
    rt: &impl Abort,
    alloc: Global,
    family: &mut F,
    answer: (usize, u64, usize),
)
    requires { F.collected ≡ true }
{
    collects_by(rt, GarbageCollector::new(alloc), family, answer);
}

/// Collects a storage of values, with this answer. A call of `collects` itself is proved for longer
/// wherever the family is of a known type.
pub fn collects_values<T: Internable + GcInternedVisit + Drop>(
    rt: &impl Abort,
    alloc: Global,
    storage: &mut InternStorage<T>,
    answer: (usize, u64, usize),
)
    requires { T.Internable.USE_GC ≡ true }
{
    collects(rt, alloc, storage, answer);
}

/// Collects a storage of slices, with this answer.
pub fn collects_slices<K: SliceInternable + GcInternedSliceVisit>(
    rt: &impl Abort,
    alloc: Global,
    storage: &mut InternSliceStorage<K>,
    answer: (usize, u64, usize),
)
where
    K::Header: Drop,
    requires { K.SliceInternable.USE_GC ≡ true }
{
    collects(rt, alloc, storage, answer);
}

/// Collects a family by a collector: the visits, the mark calls and the removed entries are these.
pub fn collects_by<F: Family>(
    rt: &impl Abort,
    gc: GarbageCollector,
    family: &mut F,
    answer: (usize, u64, usize),
)
    requires { F.collected ≡ true }
{
    assert!(rt; GarbageCollector::distinct(family));
    let (visits, mark_calls, removed) = answer;
    let expected = Collected {
        visits,
        mark_calls,
        removed,
    };
    is_equal(rt, gc.collect(family), Ok(expected));
}

/// Collects a family with a list of roots: the visits, the mark calls and the removed entries are
/// these.
pub fn collects_keeping<F: Family>(
    rt: &impl Abort,
    alloc: Global,
    family: &mut F,
    roots: &[Name],
    answer: (usize, u64, usize),
)
    requires { F.collected ≡ true }
{
    assert!(rt; GarbageCollector::distinct(family));
    let gc = GarbageCollector::new(alloc);
    is_equal(rt, told(gc.collect_keeping(family, roots)), Some(answer));
}

/// Collects a storage of values, with what a visitor declares as roots: the visits, the mark calls
/// and the removed entries are these.
pub fn collects_from<T: Internable + GcInternedVisit + Drop, R: GcInternedVisit>(
    rt: &impl Abort,
    alloc: Global,
    storage: &mut InternStorage<T>,
    roots: &R,
    answer: (usize, u64, usize),
)
    requires { T.Internable.USE_GC ≡ true }
{
    collects_declared(rt, alloc, storage, roots, answer);
}

/// The same of a family.
pub fn collects_declared<F: Family, R: GcInternedVisit>(
    rt: &impl Abort,
    alloc: Global,
    family: &mut F,
    roots: &R,
    answer: (usize, u64, usize),
)
    requires { F.collected ≡ true }
{
    assert!(rt; GarbageCollector::distinct(family));
    let gc = GarbageCollector::new(alloc);
    is_equal(rt, told(gc.collect_from(family, roots)), Some(answer));
}

/// The storage has this many entries.
pub fn has_len<T: Internable>(rt: &impl Abort, storage: &InternStorage<T>, len: usize) {
    is_equal(rt, storage.len(), len);
}

/// The entry that a reference names has this count.
pub fn has_count<T: Internable>(
    rt: &impl Abort,
    storage: &InternStorage<T>,
    reference: InternedRef<T>,
    count: u64,
) {
    is_equal(rt, storage.count(reference), Some(count));
}

/// The entry that a reference to a slice names has this count.
pub fn slice_has_count<K: SliceInternable>(
    rt: &impl Abort,
    storage: &InternSliceStorage<K>,
    slice: InternedSliceRef<K>,
    count: u64,
) {
    is_equal(rt, storage.count(slice), Some(count));
}

/// Interns a value that isn't stored: it gets this birth.
pub fn intern<T: Internable + Drop>(
    rt: &impl Abort,
    storage: &mut InternStorage<T>,
    value: T,
    birth: u64,
) -> InternedRef<T>
    requires { T.Internable.USE_GC ≡ true }
{
    let (reference, back) = allowed(Interned::new_gc(storage, value)).expect(rt, "interned");
    assert!(rt; back.is_none());
    is_equal(rt, reference.as_raw(), birth);
    reference
}

/// Makes an owned handle.
pub fn own<T: Internable>(
    rt: &impl Abort,
    storage: &mut InternStorage<T>,
    reference: InternedRef<T>,
) -> Interned<T> {
    reference.to_owned(storage).expect(rt, "owned")
}

/// Releases an owned handle. The entry stays.
pub fn release<T: Internable + Drop>(
    rt: &impl Abort,
    storage: &mut InternStorage<T>,
    handle: Interned<T>,
) {
    let freed = allowed(handle.release(storage)).expect(rt, "released");
    assert!(rt; freed.is_none());
}

/// Interns items behind a header that aren't stored: they get this birth.
pub fn intern_slice<K: SliceInternable>(
    rt: &impl Abort,
    storage: &mut InternSliceStorage<K>,
    header: K::Header,
    items: &[K::SliceType],
    birth: u64,
) -> InternedSliceRef<K>
where
    K::Header: Drop,
    requires { K.SliceInternable.USE_GC ≡ true }
{
    let answer = InternedSlice::from_header_and_slice(storage, header, items);
    let (slice, back) = allowed(answer).expect(rt, "interned");
    assert!(rt; back.is_none());
    is_equal(rt, slice.name().birth, birth);
    slice
}

/// Makes an owned handle of a slice.
pub fn own_slice<K: SliceInternable>(
    rt: &impl Abort,
    storage: &mut InternSliceStorage<K>,
    slice: InternedSliceRef<K>,
) -> InternedSlice<K> {
    slice.to_owned(storage).expect(rt, "owned")
}

/// Releases an owned handle of a slice.
pub fn release_slice<K: SliceInternable>(
    rt: &impl Abort,
    storage: &mut InternSliceStorage<K>,
    handle: InternedSlice<K>,
) {
    is_equal(rt, allowed(handle.release(storage)), Ok(()));
}
