//! Values that are interned in room that was made for them.
use crate::kinds::{Kept, Number, Numeral};
use crate::steps::{has_birth, has_len, is_equal, is_reason, length, reserve};
use intern_fixtures::{allowed, drop_values, new_values};
use ra_ap_intern::{InternStorage, Interned, Refusal, Reserved, Values};
use std::process::Abort;

/// A storage with the numbers below this one.
fn store(rt: &impl Abort, storage: &mut InternStorage<Number>, numbers: u64) {
    for number in 0..numbers {
        let _ = allowed(Interned::new(storage, Number::of(number))).expect(rt, "interned");
    }
}

/// Interns a number, which gets this birth, and comes back where it is stored.
fn intern(
    rt: &impl Abort,
    room: &mut Reserved<Values<Number>>,
    number: u64,
    birth: u64,
    is_stored: bool,
) {
    let (handle, back) = allowed(room.intern(Number::of(number))).expect(rt, "interned");
    has_birth(rt, handle.as_ref(), birth);
    is_equal(rt, back.is_some(), is_stored);
}

#[test]
fn owned_handles_in_room(rt: HostRuntime) {
    let mut storage = new_values(rt.alloc(), 1);
    let room = reserve(&rt, &mut storage, 2);
    intern(&rt, room, 7, 0, false);
    intern(&rt, room, 7, 0, true);
    intern(&rt, room, 8, 1, false);
    intern(&rt, room, 9, 2, false);
    has_len(&rt, &storage, 3);
    drop_values(storage);
}

#[test]
fn references_in_room(rt: HostRuntime) {
    let mut storage = new_values(rt.alloc(), 1);
    let room = reserve(&rt, &mut storage, 1);
    let (seven, _) = allowed(room.intern_gc(Kept::of(7))).expect(&rt, "interned");
    has_birth(&rt, seven, 0);
    is_equal(&rt, seven.get(&storage), Some(&Kept::of(7)));
    drop_values(storage);
}

#[test]
fn room_over_entries_keeps_them(rt: HostRuntime) {
    let mut storage = new_values(rt.alloc(), 1);
    store(&rt, &mut storage, 100);
    let room = reserve(&rt, &mut storage, 1000);
    for number in 0..100 {
        intern(&rt, room, number, number, true);
    }
    has_len(&rt, &storage, 100);
    drop_values(storage);
}

#[test]
fn memory_follows_entries_and_room(rt: HostRuntime) {
    let mut storage = new_values(rt.alloc(), 1);
    is_equal(&rt, storage.memory(), 0);
    store(&rt, &mut storage, 100);
    let stored = storage.memory();
    // An entry is a birth, a number and a count beside the slab's mark, and eight bytes lead to it.
    assert!(rt; stored >= 100 * 40 && stored < 100 * 100);
    let _ = reserve(&rt, &mut storage, 1000);
    // Room for one more is a slot of 32 bytes, and two buckets in each of the two tables.
    assert!(rt; storage.memory().saturating_sub(stored) >= 900 * 60);
    drop_values(storage);
}

#[test]
fn too_much_room_is_refused(rt: HostRuntime) {
    let mut storage = new_values(rt.alloc(), 1);
    store(&rt, &mut storage, 3);
    is_refused(&rt, &mut storage, usize::MAX);
    is_refused(&rt, &mut storage, usize::MAX / 64);
    intern(&rt, reserve(&rt, &mut storage, 1), 3, 3, false);
    has_len(&rt, &storage, 4);
    drop_values(storage);
}

/// So much room is refused for want of memory.
fn is_refused(rt: &impl Abort, storage: &mut InternStorage<Number>, additional: usize) {
    let len = length(storage);
    let why = storage.reserve(additional).err().expect(rt, "refused");
    is_reason(rt, why, Refusal::OutOfMemory);
    has_len(rt, storage, len);
}
