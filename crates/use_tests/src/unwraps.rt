//! A value is handed out by its only handle.
use crate::steps::is_equal;
use ra_ap_intern::{InternStorage, Interned, Text};
use std::process::Abort;
use use_unwrap::try_unwrap;

fn word(rt: &impl Abort, words: &mut InternStorage<Text>, text: &str) -> Interned<Text> {
    words.intern_text(text).expect(rt, "memory")
}

#[test]
fn the_only_handle_hands_its_value_out(rt: HostRuntime) {
    let mut words = InternStorage::new(rt.alloc(), 1);
    let first = word(&rt, &mut words, "to");
    let other = word(&rt, &mut words, "be");
    let second = first.clone(&mut words).expect(&rt, "a handle");

    // Two handles count, so the one that is given comes back.
    let first = try_unwrap(&mut words, first).expect_err(&rt, "shared");
    is_equal(&rt, words.count(first.as_ref()), Some(2));

    // One is released, and the other is the only one.
    assert!(rt; second.release(&mut words).is_ok());
    let reference = first.as_ref();
    let word = try_unwrap(&mut words, first).expect(&rt, "the only one");
    assert!(rt; word.is("to"));
    assert!(rt; reference.get(&words).is_none());
    assert!(rt; other.get(&words).is_some_and(|word| word.is("be")));
}

#[test]
fn a_foreign_handle_comes_back(rt: HostRuntime) {
    let mut words = InternStorage::new(rt.alloc(), 1);
    let mut others = InternStorage::new(rt.alloc(), 2);
    let word = word(&rt, &mut words, "to");
    let word = try_unwrap(&mut others, word).expect_err(&rt, "foreign");
    assert!(rt; try_unwrap(&mut words, word).is_ok());
}
