//! Steps of tests over texts, and over numbers behind texts: neither declares anything.
use crate::pairs::{SlicesLast, collects_slices_last, drop_slices_last, slices_last};
use crate::steps::{intern, intern_slice, is_equal, own, own_slice};
use intern_fixtures::{GcString, StringSlice, allowed, make_gc_string, new_slices, new_values};
use ra_ap_intern::{
    InternSliceStorage, InternStorage, Interned, InternedRef, InternedSlice, InternedSliceRef, Name,
};
use std::alloc::Global;
use std::process::Abort;

/// A storage of texts, and one of numbers behind texts.
pub type Texts = SlicesLast<GcString, StringSlice>;

/// Interns a text that isn't stored: it gets this birth.
pub fn intern_text(
    rt: &impl Abort,
    alloc: Global,
    storage: &mut InternStorage<GcString>,
    text: &str,
    birth: u64,
) -> InternedRef<GcString> {
    let value = make_gc_string(alloc, text).expect(rt, "memory");
    intern(rt, storage, value, birth)
}

/// Interns numbers behind a text that aren't stored: they get this birth.
pub fn intern_numbers(
    rt: &impl Abort,
    alloc: Global,
    storage: &mut InternSliceStorage<StringSlice>,
    (text, numbers): (&str, &[u32]),
    birth: u64,
) -> InternedSliceRef<StringSlice> {
    let header = String::from_str(alloc, text).expect(rt, "memory");
    intern_slice(rt, storage, header, numbers, birth)
}

/// Interns numbers behind a text that are stored under this name: the text comes back. It gives the
/// second reference.
pub fn intern_numbers_again(
    rt: &impl Abort,
    alloc: Global,
    storage: &mut InternSliceStorage<StringSlice>,
    (text, numbers): (&str, &[u32]),
    slice: InternedSliceRef<StringSlice>,
) -> InternedSliceRef<StringSlice> {
    let header = String::from_str(alloc, text).expect(rt, "memory");
    let answer = InternedSlice::from_header_and_slice(storage, header, numbers);
    let (again, back) = allowed(answer).expect(rt, "interned");
    assert!(rt; again == slice);
    is_equal(rt, back.as_ref().map(String::as_str), Some(text));
    again
}

/// Reads this text.
pub fn reads_text(
    rt: &impl Abort,
    storage: &InternStorage<GcString>,
    reference: InternedRef<GcString>,
    text: Option<&str>,
) {
    is_equal(rt, reference.get(storage).map(GcString::text), text);
}

/// Reads these numbers behind this text.
pub fn reads_numbers(
    rt: &impl Abort,
    storage: &InternSliceStorage<StringSlice>,
    slice: InternedSliceRef<StringSlice>,
    (text, numbers): (&str, &[u32]),
) {
    let read = slice.get(storage).expect(rt, "stored");
    let header = (read.header.header.as_str(), read.header.length);
    is_equal(rt, header, (text, numbers.len()));
    is_equal(rt, read.slice, numbers);
}

/// Drops the storages.
pub fn drop_texts(texts: Texts) {
    drop_slices_last(texts);
}

/// Collects the storages, with a list of roots if there is one: the visits, the mark calls and the
/// removed entries are these.
pub fn collects_texts(
    rt: &impl Abort,
    alloc: Global,
    texts: &mut Texts,
    roots: Option<&[Name]>,
    answer: (usize, u64, usize),
) {
    collects_slices_last(rt, alloc, texts, roots, answer);
}

/// The storages have this many texts and this many slices.
pub fn have_lens(rt: &impl Abort, texts: &Texts, lens: (usize, usize)) {
    is_equal(rt, (texts.first.second.len(), texts.second.len()), lens);
}

/// The texts "abc", which is owned, and "def", and two numbers behind "abc", which are owned.
pub fn two_texts_and_a_slice(
    rt: &impl Abort,
    alloc: Global,
) -> (Texts, Interned<GcString>, InternedSlice<StringSlice>) {
    let mut texts = new_values(alloc, 1);
    let abc = intern_text(rt, alloc, &mut texts, "abc", 0);
    let _ = intern_text(rt, alloc, &mut texts, "def", 1);
    let abc = own(rt, &mut texts, abc);

    let mut slices = new_slices(alloc, 2);
    let pair = ("abc", [123, 456].as_slice());
    let slice = intern_numbers(rt, alloc, &mut slices, pair, 0);
    let _ = intern_numbers_again(rt, alloc, &mut slices, pair, slice);
    let slice = own_slice(rt, &mut slices, slice);

    (slices_last(texts, slices), abc, slice)
}
