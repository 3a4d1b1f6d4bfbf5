//! Steps of tests over words, which are counted, each with the answer that it must get.
use crate::steps::{self, has_count, is_equal, release_last};
use intern_fixtures::{Word, make_word};
use ra_ap_intern::{InternStorage, Interned, Refusal};
use std::alloc::Global;
use std::process::Abort;

/// A storage of words.
pub type Words = InternStorage<Word>;

/// Both handles are of one entry: they are equal, and references by them too.
pub fn equal(rt: &impl Abort, a: &Interned<Word>, b: &Interned<Word>) {
    assert!(rt; *a == *b);
    assert!(rt; a.as_ref() == b.as_ref());
}

/// The handles are of two entries: they are not equal, and references by them neither.
pub fn differ(rt: &impl Abort, a: &Interned<Word>, b: &Interned<Word>) {
    assert!(rt; *a != *b);
    assert!(rt; a.as_ref() != b.as_ref());
}

/// The word of a text.
fn word_of(rt: &impl Abort, alloc: Global, text: &str) -> Word {
    make_word(alloc, text).expect(rt, "memory")
}

/// Interns a word that isn't stored: it gets this birth and count 1, and nothing comes back.
pub fn intern_new(
    rt: &impl Abort,
    alloc: Global,
    storage: &mut Words,
    text: &str,
    birth: u64,
) -> Interned<Word> {
    steps::intern_new(rt, storage, word_of(rt, alloc, text), birth)
}

/// Interns a word that is stored under this birth: it comes back, and its entry has this count.
pub fn intern_again(
    rt: &impl Abort,
    alloc: Global,
    storage: &mut Words,
    text: &str,
    counted: (u64, u64),
) -> Interned<Word> {
    let (word, back) = steps::intern_again(rt, storage, word_of(rt, alloc, text), counted);
    is_equal(rt, back.text(), text);
    word
}

/// Interns a word and is refused for this reason: it comes back, and no entry is added.
pub fn not_interned(
    rt: &impl Abort,
    alloc: Global,
    storage: &mut Words,
    text: &str,
    reason: Refusal,
) {
    let back = steps::not_interned(rt, storage, word_of(rt, alloc, text), reason);
    is_equal(rt, back.text(), text);
}

/// Reads this text, by the handle and by a reference.
pub fn reads(rt: &impl Abort, storage: &Words, word: &Interned<Word>, text: &str) {
    is_equal(rt, word.get(storage).map(Word::text), Some(text));
    is_equal(rt, word.as_ref().get(storage).map(Word::text), Some(text));
}

/// Makes a second handle, after which the entry has this count.
pub fn clone(
    rt: &impl Abort,
    storage: &mut Words,
    word: &Interned<Word>,
    count: u64,
) -> Interned<Word> {
    let second = word.clone(storage).expect(rt, "cloned");
    assert!(rt; second == *word);
    has_count(rt, storage, word.as_ref(), count);
    second
}

/// Releases the last handle: the word of this text comes back, and its entry is gone.
pub fn frees(rt: &impl Abort, storage: &mut Words, word: Interned<Word>, text: &str) {
    let freed = release_last(rt, storage, word);
    is_equal(rt, freed.text(), text);
}
