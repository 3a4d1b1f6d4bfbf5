//! Interning that answers the handle alone, and references by name.
use crate::steps::{has_birth, has_count, has_len, is_equal};
use intern_fixtures::{
    GcString, Word, drop_values, limited_values, make_gc_string, make_word, new_values,
};
use ra_ap_intern::{InternStorage, Limits, Name, Refusal};
use std::alloc::Global;
use std::process::Abort;

/// The counted text.
fn word(rt: &impl Abort, alloc: Global, text: &str) -> Word {
    make_word(alloc, text).expect(rt, "memory")
}

/// The collected text.
fn string(rt: &impl Abort, alloc: Global, text: &str) -> GcString {
    make_gc_string(alloc, text).expect(rt, "memory")
}

#[test]
fn owned_handles_alone(rt: HostRuntime) {
    let alloc = rt.alloc();
    let mut storage = limited_values(alloc, 1, Limits { top: 2, numbers: 1 });
    let x = storage
        .get_or_intern(word(&rt, alloc, "x"))
        .expect(&rt, "interned");
    let again = storage
        .get_or_intern(word(&rt, alloc, "x"))
        .expect(&rt, "interned");
    assert!(rt; x == again);
    has_count(&rt, &storage, x.as_ref(), 2);
    let full = storage.get_or_intern(word(&rt, alloc, "x")).err();
    is_equal(&rt, full, Some(Refusal::CountFull));
    let used_up = storage.get_or_intern(word(&rt, alloc, "y")).err();
    is_equal(&rt, used_up, Some(Refusal::NumbersUsedUp));
    drop_values(storage);
}

#[test]
fn references_alone(rt: HostRuntime) {
    let alloc = rt.alloc();
    let mut storage = limited_values(alloc, 1, Limits { top: 1, numbers: 1 });
    let x = storage
        .get_or_intern_gc(string(&rt, alloc, "x"))
        .expect(&rt, "interned");
    let again = storage
        .get_or_intern_gc(string(&rt, alloc, "x"))
        .expect(&rt, "interned");
    assert!(rt; x == again);
    has_count(&rt, &storage, x, 0);
    let used_up = storage.get_or_intern_gc(string(&rt, alloc, "y")).err();
    is_equal(&rt, used_up, Some(Refusal::NumbersUsedUp));
    has_len(&rt, &storage, 1);
    drop_values(storage);
}

/// What the storage has under a name: a birth, or why it has none.
fn named(storage: &InternStorage<Word>, number: u64, birth: u64) -> Result<u64, Refusal> {
    let name = Name {
        storage: number,
        birth,
    };
    Ok(storage.reference(name)?.as_raw())
}

#[test]
fn references_by_name(rt: HostRuntime) {
    let alloc = rt.alloc();
    let mut storage = new_values(alloc, 7);
    let x = storage
        .get_or_intern(word(&rt, alloc, "x"))
        .expect(&rt, "interned");
    let y = storage
        .get_or_intern(word(&rt, alloc, "y"))
        .expect(&rt, "interned");
    has_birth(&rt, y.as_ref(), 1);
    assert!(rt; storage.reference(y.name()) == Ok(y.as_ref()));
    assert!(rt; x.release(&mut storage).is_ok());
    is_equal(&rt, named(&storage, 7, 1), Ok(1));
    is_equal(&rt, named(&storage, 7, 0), Err(Refusal::Gone));
    is_equal(&rt, named(&storage, 7, 2), Err(Refusal::Gone));
    is_equal(&rt, named(&storage, 8, 1), Err(Refusal::Foreign));
    drop_values(storage);
}
