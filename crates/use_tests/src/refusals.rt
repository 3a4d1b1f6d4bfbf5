//! What callers read of refusals.
use crate::steps::is_equal;
use ra_ap_intern::{InternStorage, Limits, Refusal, Refused, SymbolTable, Text};
use std::alloc::Global;
use std::fmt::Display;
use std::process::Abort;
use use_refusals::{Token, handle_and_symbol, handle_of, handle_of_some, handle_of_token};

fn word(rt: &impl Abort, alloc: Global, text: &str) -> Text {
    Text::new(alloc, text).expect(rt, "memory")
}

/// The error is shown so.
fn shows(rt: &impl Abort, alloc: Global, error: &impl Display, expected: &str) {
    let text = format!(in alloc; "{error}").expect(rt, "memory");
    is_equal(rt, text.as_str(), expected);
}

/// The word has no handle, and the error is shown so.
fn is_refused(
    rt: &impl Abort,
    alloc: Global,
    words: &mut InternStorage<Text>,
    text: &str,
    expected: &str,
) {
    let error = handle_of_some(words, word(rt, alloc, text)).expect_err(rt, "refused");
    shows(rt, alloc, &error, expected);
}

/// The token of a new word has no handle, and comes back.
fn token_comes_back(rt: &impl Abort, alloc: Global, words: &mut InternStorage<Text>) {
    let token = Token {
        word: word(rt, alloc, "two"),
        line: 7,
    };
    let refused = handle_of_token(words, token).expect_err(rt, "used up");
    shows(
        rt,
        alloc,
        &refused,
        "the storage has given all its births; begin another one",
    );
    let expected = Refused {
        why: Refusal::NumbersUsedUp,
        back: Token {
            word: word(rt, alloc, "two"),
            line: 7,
        },
    };
    assert!(rt; refused == expected);
}

#[test]
fn refusals_tell_what_to_do(rt: HostRuntime) {
    let alloc = rt.alloc();
    let mut words = InternStorage::with_limits(alloc, 1, Limits { top: 1, numbers: 1 });
    assert!(rt; handle_of(&mut words, word(&rt, alloc, "one")).is_ok());
    let full = "no handle of the word: the entry's count is at its limit; release an owner first";
    is_refused(&rt, alloc, &mut words, "one", full);
    is_refused(&rt, alloc, &mut words, "", "the word is empty");
    token_comes_back(&rt, alloc, &mut words);
}

#[test]
fn a_refused_symbol_leaves_no_word_behind(rt: HostRuntime) {
    let alloc = rt.alloc();
    let mut words = InternStorage::new(alloc, 1);
    let mut table = SymbolTable::with_limits(alloc, 2, Limits { top: 1, numbers: 1 });
    let (word, symbol) = handle_and_symbol(&mut words, &mut table, "one").expect(&rt, "both");
    is_equal(&rt, word.get(&words).map(Text::as_str), Some("one"));
    is_equal(&rt, symbol.as_str(&table), Some("one"));
    let why = handle_and_symbol(&mut words, &mut table, "one").expect_err(&rt, "full");
    is_equal(&rt, why, Refusal::CountFull);
    is_equal(&rt, words.count(word.as_ref()), Some(1));
    let why = handle_and_symbol(&mut words, &mut table, "two").expect_err(&rt, "used up");
    is_equal(&rt, why, Refusal::NumbersUsedUp);
    is_equal(&rt, (words.len(), table.len()), (1, 1));
}
