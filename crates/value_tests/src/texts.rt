//! Texts as values: no preset is among them.
use crate::steps::{has_count, has_len, intern_again, intern_new, is_equal, length, reserve};
use intern_fixtures::{drop_values, limited_values, new_values};
use ra_ap_intern::{InternStorage, Interned, Limits, Refusal, Text};
use std::alloc::Global;
use std::process::Abort;

/// The second and the third text have 24 and 25 bytes.
const TEXTS: &[&str] = &[
    "",
    "a text of 24 bytes exact",
    "a text of 25 bytes, exact",
    "Clone",
];

/// The value of a text.
fn value_of(rt: &impl Abort, alloc: Global, text: &str) -> Text {
    Text::new(alloc, text).expect(rt, "memory")
}

/// Reads this text.
fn reads(rt: &impl Abort, texts: &InternStorage<Text>, handle: &Interned<Text>, text: &str) {
    is_equal(rt, handle.get(texts).map(Text::as_str), Some(text));
}

/// Interns the text twice: it is stored the first time, and comes back the second.
fn intern_twice(rt: &impl Abort, alloc: Global, texts: &mut InternStorage<Text>, text: &str) {
    let birth = length(texts) as u64;
    let first = intern_new(rt, texts, value_of(rt, alloc, text), birth);
    let (second, back) = intern_again(rt, texts, value_of(rt, alloc, text), (birth, 2));
    is_equal(rt, back.as_str(), text);
    assert!(rt; first == second);
    reads(rt, texts, &first, text);
}

#[test]
fn each_text_is_kept_once(rt: HostRuntime) {
    let alloc = rt.alloc();
    let mut texts = new_values(alloc, 1);
    for text in TEXTS {
        intern_twice(&rt, alloc, &mut texts, text);
    }
    has_len(&rt, &texts, TEXTS.len());
    drop_values(texts);
}

/// Interns the text twice: both handles are of one entry, which reads it.
fn intern_borrowed(rt: &impl Abort, texts: &mut InternStorage<Text>, text: &str) {
    let first = texts.intern_text(text).expect(rt, "interned");
    let second = texts.intern_text(text).expect(rt, "interned");
    assert!(rt; first == second);
    has_count(rt, texts, first.as_ref(), 2);
    reads(rt, texts, &first, text);
}

#[test]
fn borrowed_texts_are_kept_once(rt: HostRuntime) {
    let mut texts = new_values(rt.alloc(), 1);
    for text in TEXTS {
        intern_borrowed(&rt, &mut texts, text);
    }
    has_len(&rt, &texts, TEXTS.len());
    drop_values(texts);
}

#[test]
fn borrowed_texts_are_refused_as_values_are(rt: HostRuntime) {
    let limits = Limits { top: 1, numbers: 1 };
    let mut texts = limited_values(rt.alloc(), 1, limits);
    let word = texts.intern_text("word").expect(&rt, "interned");
    is_refused(&rt, &mut texts, "word", Refusal::CountFull);
    is_refused(&rt, &mut texts, "work", Refusal::NumbersUsedUp);
    has_count(&rt, &texts, word.as_ref(), 1);
    drop_values(texts);
}

/// The text is refused, and nothing is stored.
fn is_refused(rt: &impl Abort, texts: &mut InternStorage<Text>, text: &str, why: Refusal) {
    let len = length(texts);
    is_equal(rt, texts.intern_text(text).err(), Some(why));
    has_len(rt, texts, len);
}

#[test]
fn borrowed_texts_in_room(rt: HostRuntime) {
    let mut texts = new_values(rt.alloc(), 1);
    let room = reserve(&rt, &mut texts, 2);
    let word = room.intern_text("word").expect(&rt, "interned");
    let work = room.intern_text("work").expect(&rt, "interned");
    let again = room.intern_text("word").expect(&rt, "interned");
    assert!(rt; word == again && word != work);
    is_equal(&rt, texts.get_text("work") == Some(work.as_ref()), true);
    has_len(&rt, &texts, 2);
    drop_values(texts);
}
