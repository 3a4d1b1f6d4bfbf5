//! An example to read: a word that is stored once, and released twice.
ghost use Rattle.std.specs.Prelude.{false};

use crate::steps::is_equal;
use ra_ap_intern::{InternStorage, Internable, Interned};
use std::alloc::Global;
use std::process::Abort;

/// A word that is stored once.
#[derive(Debug, Drop, PartialEq, Eq, Hash)]
struct Word(String);

impl Internable for Word {
    const USE_GC: bool = false;

    ghost USE_GC = { false };
}

fn store(
    rt: &impl Abort,
    alloc: Global,
    words: &mut InternStorage<Word>,
    text: &str,
) -> Interned<Word> {
    let text = String::from_str(alloc, text).expect(rt, "memory");
    let (handle, _) = Interned::new(words, Word(text)).expect(rt, "interned");
    handle
}

#[test]
fn equal_words_are_stored_once(rt: HostRuntime) {
    let alloc = rt.alloc();
    let mut words = InternStorage::new(alloc, 1);
    let first = store(&rt, alloc, &mut words, "hello");
    let second = store(&rt, alloc, &mut words, "hello");
    assert!(rt; first == second);
    is_equal(&rt, words.len(), 1);

    // The last release removes the word and gives it back.
    let none = first.release(&mut words).expect(&rt, "an owner");
    assert!(rt; none.is_none());
    let word = second.release(&mut words).expect(&rt, "the last owner");
    is_equal(
        &rt,
        word.as_ref().map(|word| word.0.as_str()),
        Some("hello"),
    );
}
