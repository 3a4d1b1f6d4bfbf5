//! A word is stored once.
use crate::steps::is_equal;
use ra_ap_intern::{Interned, Text};
use std::alloc::Global;
use std::process::Abort;
use use_words::Words;

fn intern(rt: &impl Abort, alloc: Global, words: &mut Words, word: &str) -> Interned<Text> {
    let word = Text::new(alloc, word).expect(rt, "memory");
    words.intern(word).expect(rt, "a handle")
}

/// Releases a handle beside which there are others.
fn release(rt: &impl Abort, words: &mut Words, handle: Interned<Text>) {
    let left = words.release(handle).expect(rt, "an owner");
    assert!(rt; left.is_none());
}

/// Releases the last handle of a word, which comes back.
fn release_last(rt: &impl Abort, words: &mut Words, handle: Interned<Text>, text: &str) {
    let left = words.release(handle).expect(rt, "the last owner");
    assert!(rt; left.expect(rt, "a word").is(text));
}

#[test]
fn equal_words_have_one_handle(rt: HostRuntime) {
    let alloc = rt.alloc();
    let mut words = Words::new(alloc, 1);
    let first = intern(&rt, alloc, &mut words, "hello");
    let second = intern(&rt, alloc, &mut words, "hello");
    let other = intern(&rt, alloc, &mut words, "goodbye");
    assert!(rt; first == second);
    assert!(rt; first != other);
    assert!(rt; words.find("hello") == Some(first.as_ref()));
    is_equal(&rt, words.word(&other), Some("goodbye"));
    let third = words.share(&other).expect(&rt, "an owner");
    assert!(rt; third == other);
    release(&rt, &mut words, first);
    release_last(&rt, &mut words, second, "hello");
    assert!(rt; words.find("hello").is_none());
    release(&rt, &mut words, other);
    is_equal(&rt, words.word(&third), Some("goodbye"));
    release_last(&rt, &mut words, third, "goodbye");
}
