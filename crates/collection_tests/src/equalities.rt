//! The comparisons of handles in the Rust crate's test `simple_gc`.
use crate::steps::{has_count, own, own_slice, release, release_slice, slice_has_count};
use crate::texts::{intern_numbers, intern_numbers_again, reads_numbers, reads_text};
use intern_fixtures::{
    GcString, StringSlice, allowed, drop_slices, drop_values, make_gc_string, new_slices,
    new_values,
};
use ra_ap_intern::{InternSliceStorage, InternStorage, Interned, InternedSliceRef};
use std::alloc::Global;
use std::process::Abort;

/// A storage of texts.
type Texts = InternStorage<GcString>;

/// An owned handle of a text.
type Handle = Interned<GcString>;

#[test]
fn handles_of_texts_are_compared(rt: HostRuntime) {
    let alloc = rt.alloc();
    let mut texts = new_values(alloc, 1);
    let a = own_text(&rt, alloc, &mut texts, "abc");
    let b = own_text(&rt, alloc, &mut texts, "abc");
    are_equal(&rt, &mut texts, &a, &b);
    let c = own_text(&rt, alloc, &mut texts, "def");
    differ(&rt, &a, &c);
    differ(&rt, &b, &c);
    reads_text(&rt, &texts, c.as_ref(), Some("def"));
    are_given_up(&rt, &mut texts, b, c);
    has_count(&rt, &texts, a.as_ref(), 1);
    drop_values(texts);
}

/// Owns a text, which is stored or is not.
fn own_text(rt: &impl Abort, alloc: Global, texts: &mut Texts, text: &str) -> Handle {
    let value = make_gc_string(alloc, text).expect(rt, "memory");
    let (reference, _) = allowed(Interned::new_gc(texts, value)).expect(rt, "interned");
    own(rt, texts, reference)
}

/// Both are handles of the text "abc", and so are equal, as are their references, their clones, and
/// what is made of a reference.
fn are_equal(rt: &impl Abort, texts: &mut Texts, a: &Handle, b: &Handle) {
    assert!(rt; *a == *b);
    assert!(rt; a.as_ref() == b.as_ref());
    assert!(rt; a.as_ref() == a.as_ref());
    clones_are_equal(rt, texts, a, b);
    reads_text(rt, texts, a.as_ref(), Some("abc"));
    reads_text(rt, texts, b.as_ref(), Some("abc"));
    let again = own(rt, texts, b.as_ref());
    assert!(rt; again == *a);
    release(rt, texts, again);
}

fn clones_are_equal(rt: &impl Abort, texts: &mut Texts, a: &Handle, b: &Handle) {
    let clone = a.clone(texts).expect(rt, "cloned");
    assert!(rt; *a == clone);
    let second = clone.clone(texts).expect(rt, "cloned");
    release(rt, texts, clone);
    assert!(rt; *a == second);
    let other = b.clone(texts).expect(rt, "cloned");
    assert!(rt; other == second);
    release(rt, texts, second);
    release(rt, texts, other);
}

/// The handles are of two texts.
fn differ(rt: &impl Abort, a: &Handle, b: &Handle) {
    assert!(rt; *a != *b);
    assert!(rt; a.as_ref() != b.as_ref());
}

/// Gives up a second handle of one text, and the only one of another.
fn are_given_up(rt: &impl Abort, texts: &mut Texts, second: Handle, only: Handle) {
    let (one, other) = (second.as_ref(), only.as_ref());
    release(rt, texts, second);
    release(rt, texts, only);
    has_count(rt, texts, one, 1);
    has_count(rt, texts, other, 0);
}

#[test]
fn handles_of_slices_are_compared(rt: HostRuntime) {
    let alloc = rt.alloc();
    let mut slices = new_slices(alloc, 2);
    let pair = ("abc", [123, 456].as_slice());
    let d = intern_numbers(&rt, alloc, &mut slices, pair, 0);
    let e = intern_numbers_again(&rt, alloc, &mut slices, pair, d);
    owners_are_equal(&rt, &mut slices, d, e);
    reads_numbers(&rt, &slices, d, pair);
    slice_has_count(&rt, &slices, d, 1);
    drop_slices(slices);
}

/// Owned handles of both are equal. The first one is kept.
fn owners_are_equal(
    rt: &impl Abort,
    slices: &mut InternSliceStorage<StringSlice>,
    d: InternedSliceRef<StringSlice>,
    e: InternedSliceRef<StringSlice>,
) {
    let first = own_slice(rt, slices, d);
    let second = own_slice(rt, slices, e);
    assert!(rt; first == second);
    release_slice(rt, slices, second);
}
