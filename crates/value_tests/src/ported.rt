//! A test of the Rust crate, over values of one type.
use crate::steps::{has_len, own, release};
use crate::words::{Words, clone, differ, equal, frees, intern_again, intern_new, reads};
use intern_fixtures::{Word, drop_values, new_values};
use ra_ap_intern::Interned;
use std::process::Abort;

#[test]
fn simple_interned_equality(rt: HostRuntime) {
    let alloc = rt.alloc();
    let mut storage = new_values(alloc, 1);
    let a = intern_new(&rt, alloc, &mut storage, "abc", 0);
    let b = intern_again(&rt, alloc, &mut storage, "abc", (0, 2));
    equal(&rt, &a, &b);
    equal(&rt, &a, &a);
    clones_are_equal(&rt, &mut storage, &a, &b);
    let owned = own(&rt, &mut storage, b.as_ref(), 6);
    equal(&rt, &owned, &a);

    let c = intern_new(&rt, alloc, &mut storage, "def", 1);
    differ(&rt, &a, &c);
    differ(&rt, &b, &c);
    drop_values(storage);
}

/// Clones of two equal handles, and a clone of a clone, are equal.
fn clones_are_equal(rt: &impl Abort, storage: &mut Words, a: &Interned<Word>, b: &Interned<Word>) {
    let once = clone(rt, storage, a, 3);
    let twice = clone(rt, storage, &once, 4);
    equal(rt, a, &once);
    equal(rt, a, &twice);
    let third = clone(rt, storage, b, 5);
    equal(rt, &third, &twice);
}

#[test]
fn simple_interned_reads(rt: HostRuntime) {
    let alloc = rt.alloc();
    let mut storage = new_values(alloc, 1);
    let a = intern_new(&rt, alloc, &mut storage, "abc", 0);
    let b = intern_again(&rt, alloc, &mut storage, "abc", (0, 2));
    reads(&rt, &storage, &a, "abc");
    reads(&rt, &storage, &b, "abc");
    let c = intern_new(&rt, alloc, &mut storage, "def", 1);
    reads(&rt, &storage, &c, "def");

    frees(&rt, &mut storage, c, "def");
    reads(&rt, &storage, &a, "abc");
    reads(&rt, &storage, &b, "abc");
    release(&rt, &mut storage, a, 1);
    reads(&rt, &storage, &b, "abc");
    has_len(&rt, &storage, 1);
    frees(&rt, &mut storage, b, "abc");
    has_len(&rt, &storage, 0);
    drop_values(storage);
}
