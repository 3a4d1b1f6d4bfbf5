//! Slices that are interned in room that was made for them.
use crate::kinds::Numbers;
use crate::steps::{has_birth, has_len, intern_new, is_equal, is_reason, reads, word_of};
use intern_fixtures::{allowed, drop_slices, new_slices, refusal};
use ra_ap_intern::{InternedSliceRef, Refusal, Reserved, Slices};
use std::alloc::Global;
use std::process::Abort;

/// Interns items behind a word, which get this birth; the word comes back where they are stored.
fn intern(
    rt: &impl Abort,
    alloc: Global,
    room: &mut Reserved<Slices<Numbers>>,
    (text, items): (&str, &[u64]),
    birth: u64,
    is_stored: bool,
) -> InternedSliceRef<Numbers> {
    let (slice, back) = allowed(room.intern(word_of(rt, alloc, text), items)).expect(rt, "room");
    has_birth(rt, slice, birth);
    is_equal(rt, back.is_some(), is_stored);
    slice
}

/// Room for this many slices, with this many items.
fn reserve(rt: &impl Abort, room: &mut Reserved<Slices<Numbers>>, items: usize) {
    room.reserve_items(items).expect(rt, "memory");
}

#[test]
fn slices_in_room(rt: HostRuntime) {
    let alloc = rt.alloc();
    let mut storage = new_slices(alloc, 1);
    let x = intern_new(&rt, alloc, &mut storage, ("x", &[1, 2]), 0);
    let room = storage.reserve(2).expect(&rt, "memory");
    reserve(&rt, room, 3);
    let _ = intern(&rt, alloc, room, ("x", &[1, 2]), 0, true);
    let y = intern(&rt, alloc, room, ("y", &[1, 2, 3]), 1, false);
    let z = intern(&rt, alloc, room, ("z", &[]), 2, false);
    reads(&rt, &storage, x, ("x", &[1, 2]));
    reads(&rt, &storage, y, ("y", &[1, 2, 3]));
    reads(&rt, &storage, z, ("z", &[]));
    has_len(&rt, &storage, 3);
    drop_slices(storage);
}

#[test]
fn memory_follows_items(rt: HostRuntime) {
    let alloc = rt.alloc();
    let mut storage = new_slices(alloc, 1);
    is_equal(&rt, storage.memory(), 0);
    let _ = intern_new(&rt, alloc, &mut storage, ("x", &[1; 10]), 0);
    let stored = storage.memory();
    let room = storage.reserve(1).expect(&rt, "memory");
    reserve(&rt, room, 1000);
    // An item has eight bytes.
    let grown = storage.memory().saturating_sub(stored);
    assert!(rt; grown >= 900 * 8 && grown < 2000 * 8);
    drop_slices(storage);
}

#[test]
fn room_for_too_many_items_is_refused(rt: HostRuntime) {
    let alloc = rt.alloc();
    let mut storage = new_slices(alloc, 1);
    let room = storage.reserve(1).expect(&rt, "memory");
    let why = refusal(room.reserve_items(usize::MAX)).expect(&rt, "refused");
    is_reason(&rt, why, Refusal::OutOfMemory);
    let x = intern(&rt, alloc, room, ("x", &[1]), 0, false);
    reads(&rt, &storage, x, ("x", &[1]));
    drop_slices(storage);
}
