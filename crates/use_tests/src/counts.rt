//! Words that occur again are counted.
use crate::steps::is_equal;
use ra_ap_intern::InternStorage;
use std::process::Abort;
use use_counts::{Words, count, occurrences, take_back};

/// The word occurred so often.
fn occurs(rt: &impl Abort, words: &Words, word: &str, times: Option<u64>) {
    is_equal(rt, occurrences(words, word), times);
}

/// Counts each of the words once more.
fn count_each(rt: &impl Abort, words: &mut Words, each: &[&str]) {
    for word in each {
        assert!(rt; count(words, *word).is_ok());
    }
}

#[test]
fn each_occurrence_counts(rt: HostRuntime) {
    let mut words = InternStorage::new(rt.alloc(), 1);
    let first = count(&mut words, "to").expect(&rt, "memory");
    count_each(&rt, &mut words, &["be", "or", "not"]);
    let again = count(&mut words, "to").expect(&rt, "stored");
    assert!(rt; first == again);
    occurs(&rt, &words, "to", Some(2));
    occurs(&rt, &words, "not", Some(1));
    occurs(&rt, &words, "question", None);

    // What is taken back leaves the word, also at zero.
    assert!(rt; take_back(&mut words, first).is_ok());
    assert!(rt; take_back(&mut words, first).is_ok());
    assert!(rt; take_back(&mut words, first).is_err());
    occurs(&rt, &words, "to", Some(0));
    assert!(rt; first.get(&words).is_some_and(|word| word.is("to")));
}
