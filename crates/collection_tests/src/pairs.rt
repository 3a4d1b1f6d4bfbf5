//! Steps of tests over families of two storages. They are for storages of any types: a call on a
//! family of known types is proved for longer.
ghost use Rattle.std.specs.Prelude.{◌≡◌, true};

use crate::steps::{collects, collects_keeping, registers};
use intern_fixtures::{drop_slices, drop_values};
use ra_ap_intern::{
    Family, GarbageCollector, GcInternedSliceVisit, GcInternedVisit, InternSliceStorage,
    InternStorage, Internable, Name, NoStorages, Pair, SliceInternable,
};
use std::alloc::Global;
use std::process::Abort;

/// Two storages.
pub type Two<A, B> = Pair<Pair<NoStorages, A>, B>;

/// A storage of values, and one of slices.
pub type SlicesLast<T, K> = Two<InternStorage<T>, InternSliceStorage<K>>;

/// The family of a storage of values and one of slices.
pub fn slices_last<
    T: Internable + GcInternedVisit + Drop,
    K: SliceInternable + GcInternedSliceVisit,
>(values: InternStorage<T>, slices: InternSliceStorage<K>) -> SlicesLast<T, K>
where
    K::Header: Drop,
    requires values { T.Internable.USE_GC ≡ true }
    requires slices { K.SliceInternable.USE_GC ≡ true }
{
    let family = GarbageCollector::add_storage(NoStorages, values);
    GarbageCollector::add_slice_storage(family, slices)
}

/// Collects two storages, with a list of roots if there is one: the visits, the mark calls and the
/// removed entries are these.
pub fn collects_two<A: Family, B: Family>(
    rt: &impl Abort,
    alloc: Global,
    family: &mut Two<A, B>,
    roots: Option<&[Name]>,
    answer: (usize, u64, usize),
)
    requires first { A.collected ≡ true }
    requires second { B.collected ≡ true }
{
    match roots {
        Some(roots) => collects_keeping(rt, alloc, family, roots, answer),
        None => collects(rt, alloc, family, answer),
    }
}

/// Registers two storages.
pub fn registers_two<A: Family, B: Family>(
    rt: &impl Abort,
    gc: &mut GarbageCollector,
    family: &Two<A, B>,
)
    requires first { A.collected ≡ true }
    requires second { B.collected ≡ true }
{
    registers(rt, gc, family);
}

/// Collects a storage of values and one of slices, with this answer.
pub fn collects_slices_last<
    T: Internable + GcInternedVisit + Drop,
    K: SliceInternable + GcInternedSliceVisit,
>(
    rt: &impl Abort,
    alloc: Global,
    family: &mut SlicesLast<T, K>,
    roots: Option<&[Name]>,
    answer: (usize, u64, usize),
)
where
    K::Header: Drop,
    requires values { T.Internable.USE_GC ≡ true }
    requires slices { K.SliceInternable.USE_GC ≡ true }
{
    collects_two(rt, alloc, family, roots, answer);
}

/// Drops a storage of values and one of slices.
pub fn drop_slices_last<T: Internable + Drop, K: SliceInternable>(family: SlicesLast<T, K>)
where
    K::Header: Drop,
{
    drop_values(family.first.second);
    drop_slices(family.second);
}
