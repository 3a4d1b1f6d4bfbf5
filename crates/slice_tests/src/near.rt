//! Storages that keep the items of short lists in their entries.
use crate::kinds::Numbers;
use crate::steps::{collect_one, is_equal, is_pair, push, word_of};
use intern_fixtures::allowed;
use ra_ap_intern::{InternedSlice, InternedSliceRef, Near, NearSliceStorage};
use std::alloc::Global;
use std::process::Abort;

/// A storage of numbers behind a word, which keeps up to two in their entry.
type NearNumbers = NearSliceStorage<Numbers, 2>;

/// A reference to an entry of such a storage.
type NearRef = InternedSliceRef<Numbers, Near<2>>;

/// Interns a pair, which gets this birth, and is stored already or not. It is found and read then.
fn stores(
    rt: &impl Abort,
    alloc: Global,
    storage: &mut NearNumbers,
    (text, items): (&str, &[u64]),
    (birth, is_new): (u64, bool),
) -> NearRef {
    let answer = InternedSlice::from_header_and_slice(storage, word_of(rt, alloc, text), items);
    let (slice, back) = allowed(answer).expect(rt, "interned");
    is_equal(rt, (slice.name().birth, back.is_none()), (birth, is_new));
    assert!(rt; storage.get(&word_of(rt, alloc, text), items) == Some(slice));
    is_pair(rt, slice.get(storage), (text, items));
    slice
}

/// Words with numbers, each with the birth that they get.
const PAIRS: &[(&str, &[u64], u64)] = &[
    ("a", &[], 0),
    ("a", &[0], 1),
    ("a", &[0, 0], 2),
    ("a", &[0, 0, 0], 3),
    ("a", &[0, 1], 4),
    ("a", &[0, 1, 2, 3, 4, 5], 5),
    ("b", &[0, 1], 6),
    ("b", &[], 7),
];

#[test]
fn short_and_long_lists_are_told_apart(rt: HostRuntime) {
    let alloc = rt.alloc();
    let mut storage: NearNumbers = NearSliceStorage::new(alloc, 1);
    for is_new in [true, false] {
        stores_all(&rt, alloc, &mut storage, is_new);
    }
    is_equal(&rt, storage.len(), 8);
    is_equal(&rt, storage.iter().count(), 8);
}

/// Interns all pairs, which are stored already or not.
fn stores_all(rt: &impl Abort, alloc: Global, storage: &mut NearNumbers, is_new: bool) {
    for (text, items, birth) in PAIRS {
        let _ = stores(rt, alloc, storage, (text, items), (*birth, is_new));
    }
}

/// Numbers, each with the reference to its list, if that is stored.
type Ledger = Vec<(u64, Option<NearRef>)>;

/// The list of a number: between one and five items.
fn items(list: &[u64; 5]) -> &[u64] {
    &list[..(list[0] % 5) as usize + 1]
}

/// Interns the list of each number. What isn't stored gets the next birth.
fn fill(
    rt: &impl Abort,
    alloc: Global,
    storage: &mut NearNumbers,
    ledger: Ledger,
    births: &mut u64,
) -> Ledger {
    let mut filled = Vec::new(alloc);
    for (number, known) in ledger {
        let is_new = known.is_none();
        let birth = known.map_or(*births, |slice| slice.name().birth);
        let slice = stores(
            rt,
            alloc,
            storage,
            ("a", items(&[number; 5])),
            (birth, is_new),
        );
        *births = births.wrapping_add(u64::from(is_new));
        push(rt, &mut filled, (number, Some(slice)));
    }
    filled
}

/// Collects a storage while the lists are owned whose numbers and the round have a multiple of
/// three as their sum. The others are gone then.
fn collect(
    rt: &impl Abort,
    alloc: Global,
    storage: &mut NearNumbers,
    ledger: Ledger,
    round: u64,
) -> Ledger {
    let mut left = Vec::new(alloc);
    for (number, known) in ledger {
        let stays = number.wrapping_add(round) % 3 == 0;
        if stays {
            let _ = known
                .expect(rt, "stored")
                .to_owned(storage)
                .expect(rt, "owned");
        }
        push(rt, &mut left, (number, if stays { known } else { None }));
    }
    assert!(rt; collect_one(rt, alloc, storage).is_some());
    left
}

/// The lists of the ledger are read, with one owner, which is taken back. The others aren't found.
fn are_left(rt: &impl Abort, alloc: Global, storage: &mut NearNumbers, ledger: &Ledger) {
    for (number, known) in ledger {
        let list = [*number; 5];
        assert!(rt; storage.get(&word_of(rt, alloc, "a"), items(&list)) == *known);
        if let Some(slice) = known {
            is_pair(rt, slice.get(storage), ("a", items(&list)));
            is_equal(rt, slice.decrement_refcount(storage), Ok(()));
        }
    }
}

#[test]
fn collections_leave_the_lists_that_are_owned(rt: HostRuntime) {
    let alloc = rt.alloc();
    let mut storage: NearNumbers = NearSliceStorage::new(alloc, 1);
    let mut ledger = Vec::new(alloc);
    for number in 0..200 {
        push(&rt, &mut ledger, (number, None));
    }
    let mut births = 0;
    for round in 0..12 {
        ledger = fill(&rt, alloc, &mut storage, ledger, &mut births);
        ledger = collect(&rt, alloc, &mut storage, ledger, round);
        are_left(&rt, alloc, &mut storage, &ledger);
    }
}
