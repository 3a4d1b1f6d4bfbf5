//! The small calls on handles, texts and refusals: how they are written, converted and found.
use crate::steps::is_equal;
use crate::words::{Words, frees, intern_new};
use anyhow::Error;
use intern_fixtures::{Word, allowed, drop_values, limited_values, make_word, new_values};
use ra_ap_intern::{
    Equivalent, InternStorage, Interned, InternedRef, Limits, Refusal, Refused, Text,
};
use std::alloc::Global;
use std::process::Abort;

#[test]
fn handles_are_shown_by_their_names(rt: HostRuntime) {
    let alloc = rt.alloc();
    let mut storage = new_values(alloc, 3);
    let x = intern_new(&rt, alloc, &mut storage, "x", 0);
    let y = intern_new(&rt, alloc, &mut storage, "y", 1);
    let shown: Result<_, _> = format!(in alloc; "{:?} {:?} {}", x, y.as_ref(), y.name());
    is_equal(
        &rt,
        shown.expect(&rt, "memory").as_str(),
        "Owned(#3.0) Ref(#3.1) #3.1",
    );
    assert!(rt; x < y);
    drop_values(storage);
}

#[test]
fn a_reference_is_made_from_a_handle(rt: HostRuntime) {
    let alloc = rt.alloc();
    let mut storage = new_values(alloc, 1);
    let x = intern_new(&rt, alloc, &mut storage, "x", 0);
    let reference: InternedRef<Word> = InternedRef::from(&x);
    is_equal(&rt, reference.name(), x.name());
    let y = intern_new(&rt, alloc, &mut storage, "y", 1);
    assert!(rt; reference.equivalent(&x) && !reference.equivalent(&y));
    let other = new_values(alloc, 2);
    assert!(rt; storage.contains(reference) && !other.contains(reference));
    is_equal(&rt, storage.check(reference), Ok(()));
    is_equal(&rt, other.check(reference), Err(Refusal::Foreign));
    frees(&rt, &mut storage, x, "x");
    assert!(rt; !storage.contains(reference));
    is_equal(&rt, storage.check(reference), Err(Refusal::Gone));
    drop_values(storage);
    drop_values(other);
}

#[test]
fn a_loop_walks_over_a_storage(rt: HostRuntime) {
    let alloc = rt.alloc();
    let mut storage = new_values(alloc, 1);
    let _ = intern_new(&rt, alloc, &mut storage, "x", 0);
    let _ = intern_new(&rt, alloc, &mut storage, "y", 1);
    let mut births = 0u64;
    for (reference, _word) in &storage {
        births = births.wrapping_add(reference.as_raw()).wrapping_add(1);
    }
    is_equal(&rt, births, 3);
    drop_values(storage);
}

#[test]
fn a_text_is_made_from_a_string(rt: HostRuntime) {
    let alloc = rt.alloc();
    let string = String::from_str(alloc, "word").expect(&rt, "memory");
    let text = Text::from(string);
    assert!(rt; text.is("word"));
    assert!(rt; !text.is("work"));
    let shown: Result<_, _> = format!(in alloc; "{text}");
    is_equal(&rt, shown.expect(&rt, "memory").as_str(), "word");
}

#[test]
fn a_text_is_found_without_a_copy(rt: HostRuntime) {
    let alloc = rt.alloc();
    let mut texts = new_values(alloc, 1);
    let word = Text::new(alloc, "word").expect(&rt, "memory");
    let (word, _) = allowed(Interned::new(&mut texts, word)).expect(&rt, "interned");
    assert!(rt; texts.get_text("word") == Some(word.as_ref()));
    assert!(rt; texts.get_text("work").is_none());
    drop_values(texts);
}

/// Interns a word, passes a refusal on, and answers the birth.
fn interns(storage: &mut InternStorage<Word>, word: Word) -> Result<u64, Refusal> {
    let (handle, _back) = Interned::new(storage, word)?;
    Ok(handle.name().birth)
}

#[test]
fn a_refusal_is_passed_on(rt: HostRuntime) {
    let alloc = rt.alloc();
    let mut storage: Words = limited_values(alloc, 1, Limits { top: 1, numbers: 1 });
    is_equal(&rt, interns(&mut storage, word_of(&rt, alloc, "x")), Ok(0));
    is_equal(
        &rt,
        interns(&mut storage, word_of(&rt, alloc, "x")),
        Err(Refusal::CountFull),
    );
    is_equal(
        &rt,
        interns(&mut storage, word_of(&rt, alloc, "y")),
        Err(Refusal::NumbersUsedUp),
    );
    is_equal(&rt, Limits::default(), Limits::MAX);
    drop_values(storage);
}

/// Interns a word, and answers the birth. A refusal is an error like any other.
fn interns_or_fails(storage: &mut InternStorage<Word>, word: Word) -> Result<u64, Error> {
    let (handle, _back) = Interned::new(storage, word)?;
    Ok(handle.name().birth)
}

#[test]
fn a_refusal_is_an_error(rt: HostRuntime) {
    let alloc = rt.alloc();
    let mut storage: Words = limited_values(alloc, 1, Limits { top: 1, numbers: 0 });
    let word = word_of(&rt, alloc, "x");
    let error = interns_or_fails(&mut storage, word).expect_err(&rt, "refused");
    let shown: Result<_, _> = format!(in alloc; "{error}");
    is_equal(
        &rt,
        shown.expect(&rt, "memory").as_str(),
        "the storage has given all its births; begin another one",
    );
    drop_values(storage);
}

#[test]
fn what_comes_back_is_shown_by_the_reason(rt: HostRuntime) {
    let refused = Refused {
        why: Refusal::CountFull,
        back: 1u64,
    };
    let shown: Result<_, _> = format!(in rt.alloc(); "{refused}");
    is_equal(
        &rt,
        shown.expect(&rt, "memory").as_str(),
        "the entry's count is at its limit; release an owner first",
    );
}

/// The word of a text.
fn word_of(rt: &impl Abort, alloc: Global, text: &str) -> Word {
    make_word(alloc, text).expect(rt, "memory")
}
