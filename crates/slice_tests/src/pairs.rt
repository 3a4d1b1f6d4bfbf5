//! Pairs that are equal, and pairs that are not.
use crate::kinds::{Marked, MarkedNumbers, UnhashedNumbers, Units};
use crate::steps::{
    has_count, has_len, intern, intern_again, intern_new, is_equal, own, owner_reads, reads,
    word_of,
};
use intern_fixtures::{Unhashed, Word, drop_slices, new_slices};
use ra_ap_intern::{InternSliceStorage, InternedSliceRef};
use std::alloc::Global;
use std::process::Abort;

#[test]
fn headers_and_items_tell_slices_apart(rt: HostRuntime) {
    let alloc = rt.alloc();
    let mut storage = new_slices(alloc, 4);
    let first = intern_new(&rt, alloc, &mut storage, ("abc", &[123, 456]), 0);
    let again = intern_again(&rt, alloc, &mut storage, ("abc", &[123, 456]), 0);
    let shorter = intern_new(&rt, alloc, &mut storage, ("abc", &[123]), 1);
    let other = intern_new(&rt, alloc, &mut storage, ("abd", &[123, 456]), 2);
    let empty = intern_new(&rt, alloc, &mut storage, ("", &[]), 3);
    has_len(&rt, &storage, 4);
    assert!(rt; again == first);
    assert!(rt; shorter != first);
    assert!(rt; other != first);
    reads(&rt, &storage, first, ("abc", &[123, 456]));
    reads(&rt, &storage, shorter, ("abc", &[123]));
    reads(&rt, &storage, other, ("abd", &[123, 456]));
    reads(&rt, &storage, empty, ("", &[]));
    drop_slices(storage);
}

#[test]
fn equal_headers_with_different_items(rt: HostRuntime) {
    let alloc = rt.alloc();
    let mut storage = new_slices(alloc, 1);
    let lists = [
        (0, [1, 2].as_slice()),
        (1, [2, 1].as_slice()),
        (2, [1].as_slice()),
        (3, [1, 2, 0].as_slice()),
        (4, [].as_slice()),
    ];
    for (birth, items) in lists {
        let _ = intern_new(&rt, alloc, &mut storage, ("a", items), birth);
    }
    for (birth, items) in lists {
        let slice = intern_again(&rt, alloc, &mut storage, ("a", items), birth);
        reads(&rt, &storage, slice, ("a", items));
    }
    drop_slices(storage);
}

#[test]
fn equal_items_with_different_headers(rt: HostRuntime) {
    let alloc = rt.alloc();
    let mut storage = new_slices(alloc, 1);
    let texts = [(0, "a"), (1, "A"), (2, "ab"), (3, "")];
    for (birth, text) in texts {
        let _ = intern_new(&rt, alloc, &mut storage, (text, &[1, 2]), birth);
    }
    for (birth, text) in texts {
        let slice = intern_again(&rt, alloc, &mut storage, (text, &[1, 2]), birth);
        reads(&rt, &storage, slice, (text, &[1, 2]));
    }
    drop_slices(storage);
}

#[test]
fn an_empty_slice_is_an_ordinary_value(rt: HostRuntime) {
    let alloc = rt.alloc();
    let mut storage = new_slices(alloc, 1);
    let empty = intern_new(&rt, alloc, &mut storage, ("a", &[]), 0);
    let full = intern_new(&rt, alloc, &mut storage, ("a", &[0]), 1);
    assert!(rt; intern_again(&rt, alloc, &mut storage, ("a", &[]), 0) == empty);
    let owned = own(&rt, &mut storage, empty, 1);
    has_count(&rt, &storage, full, 0);
    owner_reads(&rt, &storage, &owned, ("a", &[]));
    drop_slices(storage);
}

#[test]
fn items_of_no_size_have_lengths(rt: HostRuntime) {
    let alloc = rt.alloc();
    let mut storage = new_slices(alloc, 1);
    let three = intern_units(&rt, alloc, &mut storage, &[(), (), ()], (0, None));
    let two = intern_units(&rt, alloc, &mut storage, &[(), ()], (1, None));
    let none = intern_units(&rt, alloc, &mut storage, &[], (2, None));
    has_length(&rt, &storage, three, 3);
    has_length(&rt, &storage, two, 2);
    has_length(&rt, &storage, none, 0);
    let _ = intern_units(&rt, alloc, &mut storage, &[(), (), ()], (0, Some("a")));
    drop_slices(storage);
}

/// Interns these items behind the word `a`: they get this birth, and this text comes back.
fn intern_units(
    rt: &impl Abort,
    alloc: Global,
    storage: &mut InternSliceStorage<Units>,
    items: &[()],
    (birth, text): (u64, Option<&str>),
) -> InternedSliceRef<Units> {
    let (slice, back) = intern(rt, storage, word_of(rt, alloc, "a"), items, birth);
    is_equal(rt, back.as_ref().map(Word::text), text);
    slice
}

/// Reads this number of items.
fn has_length(
    rt: &impl Abort,
    storage: &InternSliceStorage<Units>,
    slice: InternedSliceRef<Units>,
    length: usize,
) {
    is_equal(
        rt,
        slice.get(storage).map(|read| read.header.length),
        Some(length),
    );
}

#[test]
fn the_first_header_and_items_stay(rt: HostRuntime) {
    let mut storage = new_slices(rt.alloc(), 1);
    let first = Marked { number: 5, mark: 1 };
    let later = Marked { number: 5, mark: 2 };
    let slice = intern_marked(&rt, &mut storage, first, None);
    let again = intern_marked(&rt, &mut storage, later, Some(2));
    assert!(rt; again == slice);
    is_equal(&rt, storage.len(), 1);
    has_mark(&rt, &storage, again, 1);
    drop_slices(storage);
}

/// Interns a marked number with itself as the only item: they get birth 0, and a header with this
/// mark comes back.
fn intern_marked(
    rt: &impl Abort,
    storage: &mut InternSliceStorage<MarkedNumbers>,
    marked: Marked,
    mark: Option<u64>,
) -> InternedSliceRef<MarkedNumbers> {
    let (slice, back) = intern(rt, storage, marked, &[marked], 0);
    is_equal(rt, back.map(|header| header.mark), mark);
    slice
}

/// Reads a header and a first item with this mark.
fn has_mark(
    rt: &impl Abort,
    storage: &InternSliceStorage<MarkedNumbers>,
    slice: InternedSliceRef<MarkedNumbers>,
    mark: u64,
) {
    let read = slice.get(storage).expect(rt, "stored");
    is_equal(rt, read.header.header.mark, mark);
    is_equal(rt, read.slice.first().map(|item| item.mark), Some(mark));
}

#[test]
fn slices_that_all_hash_alike_are_told_apart(rt: HostRuntime) {
    let mut storage = new_slices(rt.alloc(), 1);
    for k in 0..400 {
        let (header, item) = (Unhashed(k / 20), Unhashed(k % 20));
        let _ = intern_unhashed(&rt, &mut storage, header, item, (k, None));
    }
    for k in 0..400 {
        let (header, item) = (Unhashed(k / 20), Unhashed(k % 20));
        let slice = intern_unhashed(&rt, &mut storage, header, item, (k, Some(header)));
        reads_unhashed(&rt, &storage, slice, header, item);
    }
    is_equal(&rt, storage.len(), 400);
    drop_slices(storage);
}

/// Interns an item behind a header: they get this birth, and this header comes back.
fn intern_unhashed(
    rt: &impl Abort,
    storage: &mut InternSliceStorage<UnhashedNumbers>,
    header: Unhashed,
    item: Unhashed,
    (birth, known): (u64, Option<Unhashed>),
) -> InternedSliceRef<UnhashedNumbers> {
    let (slice, back) = intern(rt, storage, header, &[item], birth);
    is_equal(rt, back, known);
    slice
}

/// Reads this item behind this header.
fn reads_unhashed(
    rt: &impl Abort,
    storage: &InternSliceStorage<UnhashedNumbers>,
    slice: InternedSliceRef<UnhashedNumbers>,
    header: Unhashed,
    item: Unhashed,
) {
    let read = slice.get(storage).expect(rt, "stored");
    is_equal(rt, *read.header.header, header);
    is_equal(rt, read.slice, [item].as_slice());
}
