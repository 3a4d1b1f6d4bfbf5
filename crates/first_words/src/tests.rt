//! A word is stored once, and read through its handle.
use super::{Word, handle_of, word_of};
use ra_ap_intern::InternStorage;
use std::alloc::Global;
use std::process::Abort;

fn word(rt: &impl Abort, alloc: Global, text: &str) -> Word {
    Word(String::from_str(alloc, text).expect(rt, "memory"))
}

#[test]
fn equal_words_have_one_handle(rt: HostRuntime) {
    let alloc = rt.alloc();
    let mut words = InternStorage::new(alloc, 1);
    let stored = handle_of(&mut words, word(&rt, alloc, "hello"));
    let (first, back) = stored.ok().expect(&rt, "a handle");
    assert!(rt; back.is_none());
    let stored = handle_of(&mut words, word(&rt, alloc, "hello"));
    let (second, back) = stored.ok().expect(&rt, "the same handle");
    assert!(rt; first == second);
    assert!(rt; word_of(&words, &first) == back.as_ref());

    // Each owned handle is released, and the last release gives the word back.
    let left = first.release(&mut words).ok().expect(&rt, "an owner");
    assert!(rt; left.is_none());
    let last = second
        .release(&mut words)
        .ok()
        .expect(&rt, "the last owner");
    assert!(rt; last == back);
}
