//! Each public call, where it succeeds.
use crate::steps::{
    count_down, has_count, has_len, has_name, is_empty, is_equal, is_same, own, release, stored,
    take_over,
};
use crate::{strings, words};
use intern_fixtures::{
    GcString, Word, a_map_tells_apart, a_set_tells_apart, drop_values, limited_values, new_values,
};
use ra_ap_intern::{Interned, Limits, Refusal, laws};
use std::alloc::Global;
use std::process::Abort;

/// Each refusal, with its number and its text.
const REFUSALS: &[(Refusal, u8, &str)] = &[
    (
        Refusal::Foreign,
        1,
        "the handle is of another storage; use it with the one that gave it",
    ),
    (
        Refusal::Gone,
        2,
        "the entry is gone, or was never there; intern its value anew",
    ),
    (
        Refusal::CountZero,
        3,
        "the entry's count is zero already; no owner is left to release",
    ),
    (
        Refusal::CountFull,
        4,
        "the entry's count is at its limit; release an owner first",
    ),
    (
        Refusal::NumbersUsedUp,
        5,
        "the storage has given all its births; begin another one",
    ),
    (
        Refusal::OutOfMemory,
        6,
        "out of memory; try again once some is free",
    ),
];

#[test]
fn storages(rt: HostRuntime) {
    let alloc = rt.alloc();
    let mut storage = new_values(alloc, 7);
    is_empty(&rt, &storage, 7);
    let x = words::intern_new(&rt, alloc, &mut storage, "x", 0);
    has_len(&rt, &storage, 1);
    has_count(&rt, &storage, x.as_ref(), 1);
    drop_values(storage);
}

#[test]
fn limited_storages(rt: HostRuntime) {
    let alloc = rt.alloc();
    let mut limited = limited_values(alloc, 8, Limits { top: 1, numbers: 1 });
    is_empty(&rt, &limited, 8);
    let y = strings::intern_new(&rt, alloc, &mut limited, "y", 0);
    has_len(&rt, &limited, 1);
    has_count(&rt, &limited, y, 0);
    drop_values(limited);
}

#[test]
fn owned_handles(rt: HostRuntime) {
    let alloc = rt.alloc();
    let mut storage = new_values(alloc, 1);
    let x = words::intern_new(&rt, alloc, &mut storage, "x", 0);
    words::reads(&rt, &storage, &x, "x");
    has_name(&rt, x.as_ref(), (1, 0));
    let second = words::clone(&rt, &mut storage, &x, 2);
    drop(second);
    let taken = take_over(&rt, &storage, (0, 2));
    words::equal(&rt, &taken, &x);
    release(&rt, &mut storage, taken, 1);
    words::frees(&rt, &mut storage, x, "x");
    has_len(&rt, &storage, 0);
    drop_values(storage);
}

#[test]
fn references(rt: HostRuntime) {
    let alloc = rt.alloc();
    let mut storage = new_values(alloc, 1);
    let _ = strings::intern_new(&rt, alloc, &mut storage, "x", 0);
    let y = strings::intern_new(&rt, alloc, &mut storage, "y", 1);
    let copy = y;
    is_same(&rt, copy, y);
    has_name(&rt, y, (1, 1));
    is_equal(&rt, y.get(&storage).map(GcString::text), Some("y"));
    is_same(&rt, stored(&rt, &storage, 1), y);
    let owned = own(&rt, &mut storage, y, 1);
    drop(owned);
    count_down(&rt, &mut storage, y, 0);
    drop_values(storage);
}

#[test]
fn a_set_of_references(rt: HostRuntime) {
    let alloc = rt.alloc();
    let (x, again, y) = x_twice_and_y(&rt, alloc);
    let told = a_set_tells_apart(alloc, x.as_ref(), again.as_ref(), &y.as_ref());
    is_equal(&rt, told, Ok(true));
}

#[test]
fn a_map_by_owned_handles(rt: HostRuntime) {
    let alloc = rt.alloc();
    let (x, again, y) = x_twice_and_y(&rt, alloc);
    is_equal(&rt, a_map_tells_apart(alloc, x, &again, &y), Ok(true));
}

/// Two handles of one word, and a handle of another.
fn x_twice_and_y(
    rt: &impl Abort,
    alloc: Global,
) -> (Interned<Word>, Interned<Word>, Interned<Word>) {
    let mut storage = new_values(alloc, 1);
    let x = words::intern_new(rt, alloc, &mut storage, "x", 0);
    let y = words::intern_new(rt, alloc, &mut storage, "y", 1);
    let again = words::intern_again(rt, alloc, &mut storage, "x", (0, 2));
    (x, again, y)
}

#[test]
fn refusals(rt: HostRuntime) {
    let alloc = rt.alloc();
    for (why, number, text) in REFUSALS {
        is_equal(&rt, why.number(), *number);
        is_printed(&rt, alloc, *why, text);
    }
}

/// The refusal is printed as this text.
fn is_printed(rt: &impl Abort, alloc: Global, why: Refusal, text: &str) {
    let printed: Result<_, _> = format!(in alloc; "{why}");
    is_equal(rt, printed.expect(rt, "memory").as_str(), text);
}

#[test]
fn laws_are_callable() {
    laws::names_tell_values::<Word>();
    laws::handles_tell_values::<Word>();
    laws::what_is_gone_stays_gone::<Word>();
    laws::a_birth_is_given_once::<Word>();
    laws::a_sweep_leaves_what_is_marked::<Word>();
    laws::what_is_interned_is_read::<Word>();
    laws::what_is_stored_is_found::<Word>();
    laws::owned_handles_are_names::<Word>();
    laws::references_are_names::<Word>();
}
