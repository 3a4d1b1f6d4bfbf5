//! What slices read after a collection, and births.
use crate::kinds::UnitSlice;
use crate::steps::{collects_slices, intern_slice, is_equal, own_slice, release_slice};
use crate::texts::{intern_numbers, reads_numbers};
use intern_fixtures::{StringSlice, drop_slices, new_slices};
use ra_ap_intern::{InternSliceStorage, InternedSlice, InternedSliceRef};
use std::alloc::Global;
use std::process::Abort;

/// A storage of numbers behind texts.
type Numbers = InternSliceStorage<StringSlice>;

// The numbers behind each text.
const A: (&str, &[u32]) = ("a", &[1, 2]);

const B: (&str, &[u32]) = ("b", &[3]);

const C: (&str, &[u32]) = ("c", &[4, 5, 6]);

const E: (&str, &[u32]) = ("e", &[]);

/// Interns numbers behind a text that aren't stored, and owns them: they get this birth.
fn intern_owned(
    rt: &impl Abort,
    alloc: Global,
    storage: &mut Numbers,
    pair: (&str, &[u32]),
    birth: u64,
) -> InternedSlice<StringSlice> {
    let slice = intern_numbers(rt, alloc, storage, pair, birth);
    own_slice(rt, storage, slice)
}

/// Reads nothing.
fn reads_nothing(rt: &impl Abort, storage: &Numbers, slice: InternedSliceRef<StringSlice>) {
    assert!(rt; slice.get(storage).is_none());
}

#[test]
fn slices_that_stay_read_as_before(rt: HostRuntime) {
    let alloc = rt.alloc();
    let mut storage = new_slices(alloc, 1);
    let a = intern_owned(&rt, alloc, &mut storage, A, 0);
    let b = intern_numbers(&rt, alloc, &mut storage, B, 1);
    let c = intern_owned(&rt, alloc, &mut storage, C, 2);
    let e = intern_owned(&rt, alloc, &mut storage, E, 3);
    collects_slices(&rt, alloc, &mut storage, (3, 0, 1));
    reads_numbers(&rt, &storage, a.as_ref(), A);
    reads_nothing(&rt, &storage, b);
    reads_numbers(&rt, &storage, c.as_ref(), C);
    reads_numbers(&rt, &storage, e.as_ref(), E);
    drop_slices(storage);
}

#[test]
fn a_slice_that_was_collected_gets_a_new_birth(rt: HostRuntime) {
    let alloc = rt.alloc();
    let mut storage = new_slices(alloc, 1);
    let a = intern_owned(&rt, alloc, &mut storage, A, 0);
    let _ = intern_numbers(&rt, alloc, &mut storage, B, 1);
    let c = intern_owned(&rt, alloc, &mut storage, C, 2);
    let e = intern_owned(&rt, alloc, &mut storage, E, 3);
    collects_slices(&rt, alloc, &mut storage, (3, 0, 1));

    let _ = intern_numbers(&rt, alloc, &mut storage, B, 4);
    release_slice(&rt, &mut storage, a);
    collects_slices(&rt, alloc, &mut storage, (2, 0, 2));
    reads_numbers(&rt, &storage, c.as_ref(), C);
    reads_numbers(&rt, &storage, e.as_ref(), E);
    drop_slices(storage);
}

#[test]
fn items_of_no_size_keep_their_lengths(rt: HostRuntime) {
    let alloc = rt.alloc();
    let mut storage = new_slices(alloc, 1);
    let three = intern_units(&rt, alloc, &mut storage, &[(), (), ()], 0);
    let two = intern_units(&rt, alloc, &mut storage, &[(), ()], 1);
    let none = intern_units(&rt, alloc, &mut storage, &[], 2);
    let _ = own_slice(&rt, &mut storage, three);
    let _ = own_slice(&rt, &mut storage, none);
    has_length(&rt, &storage, three, Some(3));
    has_length(&rt, &storage, two, Some(2));
    has_length(&rt, &storage, none, Some(0));
    collects_slices(&rt, alloc, &mut storage, (2, 0, 1));
    has_length(&rt, &storage, three, Some(3));
    has_length(&rt, &storage, two, None);
    has_length(&rt, &storage, none, Some(0));
    let _ = intern_units(&rt, alloc, &mut storage, &[(), ()], 3);
    drop_slices(storage);
}

/// Interns items behind the text "a", which aren't stored: they get this birth.
fn intern_units(
    rt: &impl Abort,
    alloc: Global,
    storage: &mut InternSliceStorage<UnitSlice>,
    items: &[()],
    birth: u64,
) -> InternedSliceRef<UnitSlice> {
    let header = String::from_str(alloc, "a").expect(rt, "memory");
    intern_slice(rt, storage, header, items, birth)
}

/// Reads this number of items, or nothing.
fn has_length(
    rt: &impl Abort,
    storage: &InternSliceStorage<UnitSlice>,
    slice: InternedSliceRef<UnitSlice>,
    length: Option<usize>,
) {
    let read = slice.get(storage).map(|read| read.header.length);
    is_equal(rt, read, length);
}
