//! The tests of the Rust crate.
use crate::kinds::Outer;
use crate::outers::{Outers, a_value_over_a_slice, collects_outers, drop_outers, outers_have_lens};
use crate::steps::{has_count, own, release, release_slice, slice_has_count};
use crate::texts::{
    Texts, collects_texts, drop_texts, have_lens, reads_numbers, reads_text, two_texts_and_a_slice,
};
use intern_fixtures::{GcString, StringSlice};
use ra_ap_intern::{Interned, InternedRef, InternedSliceRef};
use std::process::Abort;

#[test]
fn simple_gc(rt: HostRuntime) {
    let alloc = rt.alloc();
    let (mut family, text, slice) = two_texts_and_a_slice(&rt, alloc);
    have_lens(&rt, &family, (2, 1));
    are_counted_once(&rt, &family, text.as_ref(), slice.as_ref());
    let def = second_text(&rt, &family);
    has_count(&rt, &family.first.second, def, 0);

    collects_texts(&rt, alloc, &mut family, None, (2, 0, 1));
    have_lens(&rt, &family, (1, 1));
    are_counted_once(&rt, &family, text.as_ref(), slice.as_ref());
    reads_text(&rt, &family.first.second, def, None);
    drop_texts(family);
}

/// The text "abc" and the two numbers behind it are counted once, and read as they were stored.
fn are_counted_once(
    rt: &impl Abort,
    family: &Texts,
    abc: InternedRef<GcString>,
    slice: InternedSliceRef<StringSlice>,
) {
    has_count(rt, &family.first.second, abc, 1);
    slice_has_count(rt, &family.second, slice, 1);
    reads_text(rt, &family.first.second, abc, Some("abc"));
    reads_numbers(rt, &family.second, slice, ("abc", &[123, 456]));
}

/// A reference to the text "def", which is of birth 1.
fn second_text(rt: &impl Abort, family: &Texts) -> InternedRef<GcString> {
    let def = InternedRef::from_raw(&family.first.second, 1).expect(rt, "stored");
    reads_text(rt, &family.first.second, def, Some("def"));
    def
}

#[test]
fn simple_gc_after_the_release(rt: HostRuntime) {
    let alloc = rt.alloc();
    let (mut family, text, slice) = two_texts_and_a_slice(&rt, alloc);
    collects_texts(&rt, alloc, &mut family, None, (2, 0, 1));
    release(&rt, &mut family.first.second, text);
    release_slice(&rt, &mut family.second, slice);
    collects_texts(&rt, alloc, &mut family, None, (0, 0, 2));
    have_lens(&rt, &family, (0, 0));
    drop_texts(family);
}

#[test]
fn gc_visit(rt: HostRuntime) {
    let alloc = rt.alloc();
    let (mut family, outer, inner) = a_value_over_a_slice(&rt, alloc);
    let outer = own(&rt, &mut family.second, outer);
    slice_has_count(&rt, &family.first.second, inner, 0);
    has_count(&rt, &family.second, outer.as_ref(), 1);

    collects_outers(&rt, alloc, &mut family, None, (2, 1, 0));
    outers_have_lens(&rt, &family, (1, 1));
    reads_over(&rt, &family, &outer, ("abc", &[123, 456, 789]));
    release(&rt, &mut family.second, outer);
    collects_outers(&rt, alloc, &mut family, None, (0, 0, 2));
    outers_have_lens(&rt, &family, (0, 0));
    drop_outers(family);
}

/// Reads these numbers behind this text by the slice that a value is over.
fn reads_over(rt: &impl Abort, family: &Outers, outer: &Interned<Outer>, pair: (&str, &[u32])) {
    let read = outer.get(&family.second).expect(rt, "stored");
    reads_numbers(rt, &family.first.second, read.0, pair);
}
