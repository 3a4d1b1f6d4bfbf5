//! Counts that come and go, and storages that are given up.
use crate::kinds::Numbers;
use crate::steps::{
    Numbered, clone, has_count, has_len, intern_again, intern_in_vain, intern_new, not_released,
    own, owner_reads, push, reads, refused_in_each_way, release,
};
use intern_fixtures::{drop_slices, limited_slices, new_slices};
use ra_ap_intern::{InternedSlice, InternedSliceRef, Limits, Refusal};
use std::alloc::Global;
use std::ops::Range;
use std::process::Abort;

/// A reference of each birth of a storage, with the number whose items it reads.
type Ledger = Vec<(InternedSliceRef<Numbers>, u64)>;

#[test]
fn items_stay_while_counts_come_and_go(rt: HostRuntime) {
    let alloc = rt.alloc();
    let mut storage = new_slices(alloc, 1);
    let mut ledger = Vec::new(alloc);
    for numbers in [700..800, 300..400, 500..600] {
        intern_all(&rt, alloc, &mut storage, &mut ledger, numbers);
        let owned = own_all(&rt, alloc, &mut storage, &ledger);
        are_read(&rt, &storage, &ledger, 1);
        release_all(&rt, &mut storage, owned);
        are_read(&rt, &storage, &ledger, 0);
        are_found(&rt, alloc, &mut storage, &ledger);
    }
    drop_slices(storage);
}

#[test]
fn counts_that_come_and_go_give_no_birth_back(rt: HostRuntime) {
    let alloc = rt.alloc();
    let limits = Limits {
        top: 1,
        numbers: 100,
    };
    let mut storage = limited_slices(alloc, 1, limits);
    let mut ledger = Vec::new(alloc);
    intern_all(&rt, alloc, &mut storage, &mut ledger, 300..400);
    for _ in 0..3 {
        let owned = own_all(&rt, alloc, &mut storage, &ledger);
        release_all(&rt, &mut storage, owned);
        intern_in_vain(&rt, alloc, &mut storage, ("a", &[0]));
        are_found(&rt, alloc, &mut storage, &ledger);
    }
    drop_slices(storage);
}

#[test]
fn handles_of_a_storage_given_up_stand_for_their_births(rt: HostRuntime) {
    let alloc = rt.alloc();
    let mut first = new_slices(alloc, 1);
    let mut given_up = Vec::new(alloc);
    intern_all(&rt, alloc, &mut first, &mut given_up, 0..300);
    let handles = own_all(&rt, alloc, &mut first, &given_up);
    drop(first);

    let mut second = new_slices(alloc, 1);
    let mut ledger = Vec::new(alloc);
    intern_all(&rt, alloc, &mut second, &mut ledger, 50..250);
    for handle in handles {
        goes_by_its_birth(&rt, &mut second, &ledger, handle);
    }
    are_read(&rt, &second, &ledger, 0);
    drop_slices(second);
}

/// The items of a list of one number: between one and four of them.
fn items(list: &[u64; 4]) -> &[u64] {
    &list[..(list[0] % 4) as usize + 1]
}

/// Interns the items of these numbers, none of which are stored: each gets the birth above all
/// before.
fn intern_all(
    rt: &impl Abort,
    alloc: Global,
    storage: &mut Numbered,
    ledger: &mut Ledger,
    numbers: Range<u64>,
) {
    for number in numbers {
        let birth = ledger.len() as u64;
        let slice = intern_new(rt, alloc, storage, ("a", items(&[number; 4])), birth);
        push(rt, ledger, (slice, number));
    }
}

/// Makes an owned handle of each slice, which none counted before.
fn own_all(
    rt: &impl Abort,
    alloc: Global,
    storage: &mut Numbered,
    ledger: &Ledger,
) -> Vec<InternedSlice<Numbers>> {
    let mut owned = Vec::new(alloc);
    for (slice, _) in ledger {
        push(rt, &mut owned, own(rt, storage, *slice, 1));
    }
    owned
}

/// Releases the only handle of each slice.
fn release_all(rt: &impl Abort, storage: &mut Numbered, owned: Vec<InternedSlice<Numbers>>) {
    for handle in owned {
        release(rt, storage, handle, 0);
    }
}

/// Each slice is read as the ledger has it, and has this count. There are no others.
fn are_read(rt: &impl Abort, storage: &Numbered, ledger: &Ledger, count: u64) {
    for (slice, number) in ledger {
        reads(rt, storage, *slice, ("a", items(&[*number; 4])));
        has_count(rt, storage, *slice, count);
    }
    has_len(rt, storage, ledger.len());
}

/// Each slice is found by its items.
fn are_found(rt: &impl Abort, alloc: Global, storage: &mut Numbered, ledger: &Ledger) {
    for (slice, number) in ledger {
        let list = [*number; 4];
        let pair = ("a", items(&list));
        let found = intern_again(rt, alloc, storage, pair, slice.name().birth);
        assert!(rt; found == *slice);
    }
}

/// A handle of a storage given up is as good as one of the slice that has its birth now, and is
/// refused where there is none.
fn goes_by_its_birth(
    rt: &impl Abort,
    storage: &mut Numbered,
    ledger: &Ledger,
    handle: InternedSlice<Numbers>,
) {
    match ledger.get(handle.as_ref().name().birth as usize) {
        Some((slice, number)) => stands_for(rt, storage, handle, (*slice, *number)),
        None => {
            let _ = refused_in_each_way(rt, storage, handle, Refusal::Gone);
        }
    }
}

/// A handle is as good as one of this slice, which nothing counts: it reads the items of this
/// number, and counts by it are the slice's.
fn stands_for(
    rt: &impl Abort,
    storage: &mut Numbered,
    handle: InternedSlice<Numbers>,
    (slice, number): (InternedSliceRef<Numbers>, u64),
) {
    assert!(rt; handle.as_ref() == slice);
    owner_reads(rt, storage, &handle, ("a", items(&[number; 4])));
    let handle = not_released(rt, storage, handle, Refusal::CountZero);
    let _ = clone(rt, storage, &handle, 1);
    has_count(rt, storage, slice, 1);
    release(rt, storage, handle, 0);
    has_count(rt, storage, slice, 0);
}
