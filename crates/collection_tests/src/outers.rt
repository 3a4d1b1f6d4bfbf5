//! A value over a slice of another storage.
ghost use Rattle.std.specs.Prelude.{◌≡◌, true};

use crate::kinds::Outer;
use crate::pairs::{Two, collects_two, registers_two};
use crate::steps::{intern, is_equal};
use crate::texts::intern_numbers;
use intern_fixtures::{StringSlice, drop_slices, drop_values, new_slices, new_values};
use ra_ap_intern::{
    GarbageCollector, GcInternedSliceVisit, GcInternedVisit, InternSliceStorage, InternStorage,
    Internable, InternedRef, InternedSliceRef, Name, NoStorages, SliceInternable,
};
use std::alloc::Global;
use std::process::Abort;

/// A storage of slices, and one of values over them.
pub type Outers = Two<InternSliceStorage<StringSlice>, InternStorage<Outer>>;

/// A value over a slice, neither of which is owned, with references to both.
pub fn a_value_over_a_slice(
    rt: &impl Abort,
    alloc: Global,
) -> (Outers, InternedRef<Outer>, InternedSliceRef<StringSlice>) {
    let mut slices = new_slices(alloc, 1);
    let pair = ("abc", [123, 456, 789].as_slice());
    let inner = intern_numbers(rt, alloc, &mut slices, pair, 0);
    let mut outers = new_values(alloc, 2);
    let outer = intern(rt, &mut outers, Outer(inner), 0);
    (slices_first(slices, outers), outer, inner)
}

/// The family of a storage of slices and one of values.
fn slices_first<K: SliceInternable + GcInternedSliceVisit, T: Internable + GcInternedVisit + Drop>(
    slices: InternSliceStorage<K>,
    values: InternStorage<T>,
) -> Two<InternSliceStorage<K>, InternStorage<T>>
where
    K::Header: Drop,
    requires slices { K.SliceInternable.USE_GC ≡ true }
    requires values { T.Internable.USE_GC ≡ true }
{
    let family = GarbageCollector::add_slice_storage(NoStorages, slices);
    GarbageCollector::add_storage(family, values)
}

/// Drops the storages.
pub fn drop_outers(outers: Outers) {
    drop_slices(outers.first.second);
    drop_values(outers.second);
}

/// Collects the storages, with a list of roots if there is one: the visits, the mark calls and the
/// removed entries are these.
pub fn collects_outers(
    rt: &impl Abort,
    alloc: Global,
    outers: &mut Outers,
    roots: Option<&[Name]>,
    answer: (usize, u64, usize),
) {
    collects_two(rt, alloc, outers, roots, answer);
}

/// Registers the storages.
pub fn registers_outers(rt: &impl Abort, gc: &mut GarbageCollector, outers: &Outers) {
    registers_two(rt, gc, outers);
}

/// The storages have this many values and this many slices.
pub fn outers_have_lens(rt: &impl Abort, outers: &Outers, lens: (usize, usize)) {
    is_equal(rt, (outers.second.len(), outers.first.second.len()), lens);
}
