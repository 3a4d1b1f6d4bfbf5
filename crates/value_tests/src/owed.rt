//! Owned handles that must be released.
use crate::steps::{
    count_down, has_count, has_len, has_name, is_equal, is_none, is_reason, is_same, length, own,
    reads_nothing,
};
use crate::words::{Words, intern_again, intern_new};
use intern_fixtures::{Word, a_map_tells_apart, drop_values, limited_values, new_values};
use ra_ap_intern::{Interned, InternedRef, Limits, Owed, OwedValue, Refusal, Refused};
use std::alloc::Global;
use std::process::Abort;

/// Interns a word that isn't stored: its handle is owed.
fn owe(
    rt: &impl Abort,
    alloc: Global,
    storage: &mut Words,
    text: &str,
    birth: u64,
) -> OwedValue<Word> {
    Owed::from(intern_new(rt, alloc, storage, text, birth))
}

/// Releases a handle that frees nothing, after which the entry has this count.
fn release(rt: &impl Abort, storage: &mut Words, owed: OwedValue<Word>, count: u64) {
    let reference = owed.as_ref();
    let freed = owed
        .release(storage)
        .map_err(why_alone)
        .expect(rt, "released");
    is_none(rt, freed);
    has_count(rt, storage, reference, count);
}

/// Releases the last handle: the word of this text comes back, and its entry is gone.
fn frees(rt: &impl Abort, storage: &mut Words, owed: OwedValue<Word>, text: &str) {
    let reference = owed.as_ref();
    let freed = owed
        .release(storage)
        .map_err(why_alone)
        .expect(rt, "released");
    is_equal(rt, freed.as_ref().map(Word::text), Some(text));
    reads_nothing(rt, storage, reference);
}

/// Is refused a release for this reason. The handle comes back, and no entry goes.
fn not_released(
    rt: &impl Abort,
    storage: &mut Words,
    owed: OwedValue<Word>,
    reason: Refusal,
) -> OwedValue<Word> {
    let (len, name) = (length(storage), owed.name());
    match owed.release(storage) {
        Ok(_) => panic!(rt; "it was released"),
        Err(Refused { why, back }) => {
            is_reason(rt, why, reason);
            is_equal(rt, back.name(), name);
            has_len(rt, storage, len);
            back
        }
    }
}

/// Why a release was refused. The handle goes on as one that may be dropped, and keeps its count.
fn why_alone(refused: Refused<OwedValue<Word>>) -> Refusal {
    let Refused { why, back } = refused;
    let _ = back.into_owned();
    why
}

#[test]
fn an_owed_handle_has_the_calls_of_an_owned_one(rt: HostRuntime) {
    let alloc = rt.alloc();
    let mut storage = new_values(alloc, 1);
    let x = owe(&rt, alloc, &mut storage, "x", 0);
    has_name(&rt, x.as_ref(), (1, 0));
    is_equal(&rt, x.get(&storage).map(Word::text), Some("x"));
    let reference: InternedRef<Word> = InternedRef::from(&x);
    is_same(&rt, reference, x.as_ref());

    let second = x.clone(&mut storage).expect(&rt, "cloned");
    has_count(&rt, &storage, reference, 2);
    release(&rt, &mut storage, second, 1);
    let owned = x.into_owned();
    is_same(&rt, owned.as_ref(), reference);
    frees(&rt, &mut storage, Owed::from(owned), "x");
    has_len(&rt, &storage, 0);
    drop_values(storage);
}

#[test]
fn owed_handles_are_compared_and_shown_by_their_names(rt: HostRuntime) {
    let alloc = rt.alloc();
    let mut storage = new_values(alloc, 3);
    let x = owe(&rt, alloc, &mut storage, "x", 0);
    let y = owe(&rt, alloc, &mut storage, "y", 1);
    let again = Owed::from(intern_again(&rt, alloc, &mut storage, "x", (0, 2)));
    assert!(rt; x == again && x != y && x < y);
    is_equal(&rt, a_map_tells_apart(alloc, &x, &&again, &&y), Ok(true));
    let shown: Result<_, _> = format!(in alloc; "{:?}", y);
    is_equal(&rt, shown.expect(&rt, "memory").as_str(), "Owed(#3.1)");
    release(&rt, &mut storage, again, 1);
    frees(&rt, &mut storage, x, "x");
    frees(&rt, &mut storage, y, "y");
    drop_values(storage);
}

#[test]
fn a_refusal_gives_it_back(rt: HostRuntime) {
    let alloc = rt.alloc();
    let mut storage = limited_values(alloc, 1, Limits { top: 1, numbers: 9 });
    let mut other = new_values(alloc, 2);
    let x = owe(&rt, alloc, &mut storage, "x", 0);
    let reference = x.as_ref();
    assert!(rt; x.get(&other).is_none());
    not_cloned(&rt, &mut storage, &x, Refusal::CountFull);
    not_cloned(&rt, &mut other, &x, Refusal::Foreign);
    let x = not_released(&rt, &mut other, x, Refusal::Foreign);

    count_down(&rt, &mut storage, reference, 0);
    let x = not_released(&rt, &mut storage, x, Refusal::CountZero);
    let owned = own(&rt, &mut storage, reference, 1);
    frees(&rt, &mut storage, Owed::from(owned), "x");
    let x = not_released(&rt, &mut storage, x, Refusal::Gone);
    not_cloned(&rt, &mut storage, &x, Refusal::Gone);
    drop(x.into_owned());
    drop_values(storage);
    drop_values(other);
}

/// Is refused a second handle for this reason.
fn not_cloned(rt: &impl Abort, storage: &mut Words, owed: &OwedValue<Word>, reason: Refusal) {
    match owed.clone(storage) {
        Ok(_) => panic!(rt; "it was cloned"),
        Err(why) => is_reason(rt, why, reason),
    }
}

#[test]
fn a_list_of_them_is_emptied(rt: HostRuntime) {
    let alloc = rt.alloc();
    let mut storage = new_values(alloc, 1);
    let mut list = Vec::new(alloc);
    for (birth, text) in [(0, "x"), (1, "y"), (2, "z")] {
        let owed = owe(&rt, alloc, &mut storage, text, birth);
        if let Err(failed) = list.push(owed) {
            let _ = failed.value.into_owned();
            panic!(rt; "memory");
        }
    }
    while let Some(owed) = list.pop() {
        let freed = owed
            .release(&mut storage)
            .map_err(why_alone)
            .expect(&rt, "released");
        assert!(rt; freed.is_some());
    }
    list.destroy_empty();
    has_len(&rt, &storage, 0);
    drop_values(storage);
}

/// Releases two handles, and passes on why one was refused.
fn release_both(
    storage: &mut Words,
    first: OwedValue<Word>,
    second: OwedValue<Word>,
) -> Result<(), Refusal> {
    let first = first.release(storage).map_err(why_alone);
    second.release(storage).map_err(why_alone)?;
    first?;
    Ok(())
}

#[test]
fn a_refusal_is_passed_on_by_way_of_an_owned_handle(rt: HostRuntime) {
    let alloc = rt.alloc();
    let mut storage = new_values(alloc, 1);
    let mut other = new_values(alloc, 2);
    let x = owe(&rt, alloc, &mut storage, "x", 0);
    let y = owe(&rt, alloc, &mut other, "y", 0);
    is_equal(&rt, release_both(&mut storage, x, y), Err(Refusal::Foreign));
    has_len(&rt, &storage, 0);

    // The count that was left behind is taken over, and released.
    let y = Interned::from_raw(&other, 0).expect(&rt, "taken over");
    frees(&rt, &mut other, Owed::from(y), "y");
    drop_values(storage);
    drop_values(other);
}
