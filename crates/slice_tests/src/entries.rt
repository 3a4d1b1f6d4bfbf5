//! Look-ups that intern nothing, and the entries of a storage one after the other.
use crate::kinds::Numbers;
use crate::steps::{Numbered, has_len, intern_new, is_equal, reads};
use intern_fixtures::{StringSlice, drop_slices, make_word, new_slices};
use ra_ap_intern::{InternSliceStorage, InternedSliceRef};
use std::alloc::Global;
use std::process::Abort;

#[test]
fn look_ups(rt: HostRuntime) {
    let alloc = rt.alloc();
    let mut storage = new_slices(alloc, 1);
    finds(&rt, alloc, &storage, ("x", &[1]), None);
    let _ = intern_new(&rt, alloc, &mut storage, ("x", &[1]), 0);
    let _ = intern_new(&rt, alloc, &mut storage, ("x", &[]), 1);
    finds(&rt, alloc, &storage, ("x", &[1]), Some(0));
    finds(&rt, alloc, &storage, ("x", &[]), Some(1));
    finds(&rt, alloc, &storage, ("x", &[2]), None);
    finds(&rt, alloc, &storage, ("y", &[1]), None);
    has_len(&rt, &storage, 2);
    drop_slices(storage);
}

/// A look-up of a pair gives this birth, or none.
fn finds(
    rt: &impl Abort,
    alloc: Global,
    storage: &Numbered,
    (text, items): (&str, &[u64]),
    birth: Option<u64>,
) {
    let header = make_word(alloc, text).expect(rt, "memory");
    is_equal(
        rt,
        storage.get(&header, items).map(|found| found.name().birth),
        birth,
    );
}

#[test]
fn a_header_is_found_without_a_copy(rt: HostRuntime) {
    let alloc = rt.alloc();
    let mut storage: InternSliceStorage<StringSlice> = new_slices(alloc, 1);
    let header = String::from_str(alloc, "x").expect(&rt, "memory");
    let interned = storage.get_or_intern(header, &[1, 2]).expect(&rt, "memory");
    assert!(rt; storage.find("x", &[1, 2]) == Some(interned));
    assert!(rt; storage.find("x", &[1]).is_none());
    assert!(rt; storage.find("y", &[1, 2]).is_none());
    drop_slices(storage);
}

#[test]
fn entries(rt: HostRuntime) {
    let alloc = rt.alloc();
    let mut storage: Numbered = new_slices(alloc, 1);
    has_entries(&rt, &storage, 0);
    let _ = intern_new(&rt, alloc, &mut storage, ("x", &[1, 2]), 0);
    let _ = intern_new(&rt, alloc, &mut storage, ("y", &[]), 1);
    has_entries(&rt, &storage, 2);
    gives(&rt, &storage, 0, ("x", &[1, 2]));
    gives(&rt, &storage, 1, ("y", &[]));
    drop_slices(storage);
}

/// The storage is gone over in as many steps, and is empty where there are none.
fn has_entries(rt: &impl Abort, storage: &Numbered, count: usize) {
    is_equal(rt, storage.is_empty(), count == 0);
    is_equal(rt, storage.iter().count(), count);
}

/// Among the entries is one of this birth, with this pair.
fn gives(rt: &impl Abort, storage: &Numbered, birth: u64, pair: (&str, &[u64])) {
    let mut found = false;
    for (reference, slice) in storage.iter() {
        if reference.name().birth == birth {
            assert!(rt; !found);
            is_equal(rt, slice.header.header.text(), pair.0);
            is_equal(rt, slice.header.length, pair.1.len());
            is_equal(rt, slice.slice, pair.1);
            reads(rt, storage, reference, pair);
            found = true;
        }
    }
    assert!(rt; found);
}

#[test]
fn references_alone(rt: HostRuntime) {
    let alloc = rt.alloc();
    let mut storage = new_slices(alloc, 1);
    let x = alone(&rt, alloc, &mut storage, ("x", &[1, 2]));
    let y = alone(&rt, alloc, &mut storage, ("y", &[1, 2]));
    let again = alone(&rt, alloc, &mut storage, ("x", &[1, 2]));
    assert!(rt; x == again && x != y);
    reads(&rt, &storage, x, ("x", &[1, 2]));
    has_len(&rt, &storage, 2);
    is_there(&rt, &storage, y);
    is_equal(&rt, storage.check_all(&[x, y]), Ok(()));
    drop_slices(storage);
}

/// The reference is that of its name, and can be read.
fn is_there(rt: &impl Abort, storage: &Numbered, slice: InternedSliceRef<Numbers>) {
    assert!(rt; storage.reference(slice.name()) == Ok(slice));
    is_equal(rt, storage.check(slice), Ok(()));
}

/// The reference to a pair, which is stored unless it is already.
fn alone(
    rt: &impl Abort,
    alloc: Global,
    storage: &mut Numbered,
    (text, items): (&str, &[u64]),
) -> InternedSliceRef<Numbers> {
    let header = make_word(alloc, text).expect(rt, "memory");
    storage.get_or_intern(header, items).expect(rt, "interned")
}
