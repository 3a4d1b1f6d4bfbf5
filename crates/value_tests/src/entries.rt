//! Look-ups that intern nothing, and the entries of a storage one after the other.
use crate::steps::{has_len, is_equal};
use crate::words::{Words, frees, intern_new};
use intern_fixtures::{Word, drop_values, make_word, new_values};
use ra_ap_intern::InternedRef;
use std::alloc::Global;
use std::process::Abort;

#[test]
fn look_ups(rt: HostRuntime) {
    let alloc = rt.alloc();
    let mut storage = new_values(alloc, 1);
    finds(&rt, alloc, &storage, "x", None);
    let x = intern_new(&rt, alloc, &mut storage, "x", 0);
    let _ = intern_new(&rt, alloc, &mut storage, "y", 1);
    finds(&rt, alloc, &storage, "x", Some(0));
    finds(&rt, alloc, &storage, "y", Some(1));
    finds(&rt, alloc, &storage, "z", None);
    frees(&rt, &mut storage, x, "x");
    finds(&rt, alloc, &storage, "x", None);
    has_len(&rt, &storage, 1);
    drop_values(storage);
}

/// A look-up of a text gives this birth, or none.
fn finds(rt: &impl Abort, alloc: Global, storage: &Words, text: &str, birth: Option<u64>) {
    let word = make_word(alloc, text).expect(rt, "memory");
    is_equal(rt, storage.get(&word).map(InternedRef::as_raw), birth);
}

#[test]
fn entries(rt: HostRuntime) {
    let alloc = rt.alloc();
    let mut storage: Words = new_values(alloc, 1);
    assert!(rt; storage.is_empty());
    is_equal(&rt, storage.iter().count(), 0);
    let _ = intern_new(&rt, alloc, &mut storage, "x", 0);
    let y = intern_new(&rt, alloc, &mut storage, "y", 1);
    let _ = intern_new(&rt, alloc, &mut storage, "z", 2);
    frees(&rt, &mut storage, y, "y");
    let _ = intern_new(&rt, alloc, &mut storage, "w", 3);
    assert!(rt; !storage.is_empty());
    is_equal(&rt, storage.iter().count(), 3);
    gives(&rt, &storage, 0, Some("x"));
    gives(&rt, &storage, 1, None);
    gives(&rt, &storage, 2, Some("z"));
    gives(&rt, &storage, 3, Some("w"));
    drop_values(storage);
}

/// Among the entries is one of this birth with this text, or none of this birth.
fn gives(rt: &impl Abort, storage: &Words, birth: u64, text: Option<&str>) {
    let mut found = None;
    for (reference, word) in storage.iter() {
        if reference.as_raw() == birth {
            is_equal(rt, found, None);
            is_equal(
                rt,
                reference.get(storage).map(Word::text),
                Some(word.text()),
            );
            found = Some(word.text());
        }
    }
    is_equal(rt, found, text);
}
