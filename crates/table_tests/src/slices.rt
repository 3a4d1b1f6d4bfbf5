//! Slices.
use crate::counts::is_told;
use crate::marks::{marks_by, marks_of};
use crate::steps::is_equal;
use intern_store::{Refusal, Store};
use intern_table::{FarItems, FixedState, NearItems, OwnItems, SliceTable};
use std::alloc::Global;
use std::cmp::Eq;
use std::hash::Hash;
use std::process::Abort;

// A store of slices under numbers, whose entries have the items of type `A`.
type Slices<S, A> = Store<SliceTable<u64, S, A, FixedState>>;

// The birth of a slice that is new.
fn add<S: Hash + Eq + Copy, A: NearItems<S>>(
    store: &mut Slices<S, A>,
    header: u64,
    items: &[S],
) -> Option<u64> {
    match store.intern((header, items)) {
        Ok((handle, None)) => Some(handle.spot.birth),
        _ => None,
    }
}

// Whether the entry of a birth reads this slice.
fn reads<S: Hash + Eq + Copy, A: NearItems<S>>(
    store: &Slices<S, A>,
    birth: u64,
    items: &[S],
) -> bool {
    let Ok(handle) = store.entry(birth) else {
        return false;
    };
    let Some(table) = store.own(handle.storage) else {
        return false;
    };
    match table.get(handle.spot) {
        Some(read) => read.slice == items && read.header.length == items.len(),
        None => false,
    }
}

// Adds slices under headers. Each gets this birth, or none where it is stored already.
fn add_each<S: Hash + Eq + Copy, A: NearItems<S>>(
    rt: &impl Abort,
    store: &mut Slices<S, A>,
    slices: &[(u64, &[S], Option<u64>)],
) {
    for (header, items, birth) in slices {
        is_equal(rt, add(store, *header, *items), *birth);
    }
}

// Checks that each birth has this slice, or no entry.
fn read_each<S: Hash + Eq + Copy, A: NearItems<S>>(
    rt: &impl Abort,
    store: &Slices<S, A>,
    slices: &[(u64, Option<&[S]>)],
) {
    for (birth, items) in slices {
        assert!(rt; is_right(store, *birth, *items), "birth {birth}");
    }
}

// Whether a birth has this slice, or no entry.
fn is_right<S: Hash + Eq + Copy, A: NearItems<S>>(
    store: &Slices<S, A>,
    birth: u64,
    items: Option<&[S]>,
) -> bool {
    match items {
        Some(items) => reads(store, birth, items),
        None => store.entry(birth).is_err(),
    }
}

// Slices to add: each with its header, and with the birth that it gets, or none where it is stored
// already.
type Added<S> = &'static [(u64, &'static [S], Option<u64>)];

// Births, each with its slice, or with none where it has no entry.
type Read<S> = &'static [(u64, Option<&'static [S]>)];

const FIRST: Added<u64> = &[
    (10, &[1, 2], Some(0)),
    (11, &[3], Some(1)),
    (12, &[4, 5, 6], Some(2)),
    (13, &[], Some(3)),
];

const KEPT: Read<u64> = &[
    (0, Some(&[1, 2])),
    (1, None),
    (2, Some(&[4, 5, 6])),
    (3, Some(&[])),
];

const AGAIN: Added<u64> = &[(12, &[4, 5, 6], None), (11, &[3], Some(4))];

const LEFT: Read<u64> = &[(0, None), (2, Some(&[4, 5, 6])), (3, Some(&[])), (4, None)];

// Sweeps slices of up to three items, and stores some again.
fn sweep_slices<A: NearItems<u64>>(rt: &impl Abort, alloc: Global) {
    let mut store: Slices<u64, A> = Store::new(alloc, 1);
    add_each(rt, &mut store, FIRST);
    store.keep(&marks_of(rt, alloc, &[0, 2, 3]));
    is_equal(rt, store.len(), 3);
    read_each(rt, &store, KEPT);
    add_each(rt, &mut store, AGAIN);
    store.keep(&marks_of(rt, alloc, &[2, 3]));
    is_equal(rt, store.len(), 2);
    read_each(rt, &store, LEFT);
}

#[test]
fn a_sweep_keeps_slices(rt: HostRuntime) {
    sweep_slices::<FarItems>(&rt, rt.alloc());
}

#[test]
fn a_sweep_keeps_slices_in_their_entries(rt: HostRuntime) {
    sweep_slices::<OwnItems<u64, 2>>(&rt, rt.alloc());
}

const OF_NO_SIZE: Added<()> = &[
    (10, &[(), (), ()], Some(0)),
    (10, &[(), ()], Some(1)),
    (10, &[], Some(2)),
];

const OF_NO_SIZE_STORED: Read<()> = &[
    (0, Some(&[(), (), ()])),
    (1, Some(&[(), ()])),
    (2, Some(&[])),
];

const OF_NO_SIZE_AGAIN: Added<()> = &[(10, &[(), ()], Some(3))];

const OF_NO_SIZE_KEPT: Read<()> = &[
    (0, Some(&[(), (), ()])),
    (1, None),
    (2, Some(&[])),
    (3, Some(&[(), ()])),
];

// Sweeps slices whose items have no size.
fn sweep_items_of_no_size<A: NearItems<()>>(rt: &impl Abort, alloc: Global) {
    let mut store: Slices<(), A> = Store::new(alloc, 1);
    add_each(rt, &mut store, OF_NO_SIZE);
    read_each(rt, &store, OF_NO_SIZE_STORED);
    store.keep(&marks_of(rt, alloc, &[0, 2]));
    assert!(rt; store.entry(1).is_err());
    add_each(rt, &mut store, OF_NO_SIZE_AGAIN);
    read_each(rt, &store, OF_NO_SIZE_KEPT);
}

#[test]
fn a_sweep_keeps_items_of_no_size(rt: HostRuntime) {
    sweep_items_of_no_size::<FarItems>(&rt, rt.alloc());
}

#[test]
fn a_sweep_keeps_items_of_no_size_in_their_entries(rt: HostRuntime) {
    sweep_items_of_no_size::<OwnItems<(), 2>>(&rt, rt.alloc());
}

// Adds the slices of the births from this one to that. Their items are the birth and what follows
// it, up to four.
fn add_slices<A: NearItems<u64>>(rt: &impl Abort, store: &mut Slices<u64, A>, from: u64, to: u64) {
    for birth in from..to {
        let items = [birth, birth ^ 1, birth ^ 2, birth ^ 3];
        let birth_given = add(store, birth, &items[..(birth % 5) as usize]);
        is_equal(rt, birth_given, Some(birth));
    }
}

// Whether a birth has its slice, or no entry, as it should.
fn has_slice<A: NearItems<u64>>(store: &Slices<u64, A>, birth: u64, is_kept: bool) -> bool {
    let items = [birth, birth ^ 1, birth ^ 2, birth ^ 3];
    if is_kept {
        reads(store, birth, &items[..(birth % 5) as usize])
    } else {
        store.entry(birth).is_err()
    }
}

// Checks that these births have their slices where the step divides them, and no entry elsewhere.
fn has_slices<A: NearItems<u64>>(
    rt: &impl Abort,
    store: &Slices<u64, A>,
    (from, to): (u64, u64),
    step: u64,
) {
    for birth in from..to {
        assert!(rt; has_slice(store, birth, birth.is_multiple_of(step)));
    }
}

// Sweeps twice, with more slices after each, and then all.
fn churn<A: NearItems<u64>>(rt: &impl Abort, alloc: Global) {
    let mut store: Slices<u64, A> = Store::new(alloc, 1);
    add_slices(rt, &mut store, 0, 40);
    store.keep(&marks_by(rt, alloc, 40, 2));
    add_slices(rt, &mut store, 40, 100);
    store.keep(&marks_by(rt, alloc, 100, 3));
    add_slices(rt, &mut store, 100, 120);
    has_slices(rt, &store, (0, 40), 6);
    has_slices(rt, &store, (40, 100), 3);
    has_slices(rt, &store, (100, 120), 1);
    store.keep(&marks_of(rt, alloc, &[]));
    is_equal(rt, store.len(), 0);
    add_slices(rt, &mut store, 120, 140);
    has_slices(rt, &store, (120, 140), 1);
}

#[test]
fn sweeps_after_churn_keep_slices(rt: HostRuntime) {
    churn::<FarItems>(&rt, rt.alloc());
}

#[test]
fn sweeps_after_churn_keep_slices_in_their_entries(rt: HostRuntime) {
    churn::<OwnItems<u64, 2>>(&rt, rt.alloc());
}

// Checks that a walk tells each place, and count 1 of the birth 1, and none of any other.
fn are_counted<A: NearItems<u64>>(rt: &impl Abort, table: &SliceTable<u64, u64, A, FixedState>) {
    for (spot, count) in table.counts() {
        is_told(rt, table, spot, count, if spot.birth == 1 { 1 } else { 0 });
    }
}

#[test]
fn a_walk_counts_slices(rt: HostRuntime) {
    let mut store: Slices<u64, OwnItems<u64, 1>> = Store::new(rt.alloc(), 1);
    add_slices(&rt, &mut store, 0, 3);
    let handle = store.entry(1).expect(&rt, "stored");
    is_equal(&rt, store.count_up(handle), Ok(()));
    is_equal(&rt, store.table().counts().count(), 3);
    are_counted(&rt, store.table());
}

// Whether each of the first entries reads three times its birth.
fn all_read<A: NearItems<u64>>(store: &Slices<u64, A>, count: u64) -> bool {
    for birth in 0..count {
        if !reads(store, birth, [birth, birth, birth].as_slice()) {
            return false;
        }
    }
    true
}

// Adds a slice, and again where memory was refused. Nothing has changed then.
fn add_at_last<A: NearItems<u64>>(rt: &impl Abort, store: &mut Slices<u64, A>, number: u64) {
    if !is_added(rt, store, number) {
        assert!(rt; store.entry(number).is_err());
        assert!(rt; is_added(rt, store, number));
    }
}

// Whether a slice was added. If not, memory was refused, and the slice came back.
fn is_added<A: NearItems<u64>>(rt: &impl Abort, store: &mut Slices<u64, A>, number: u64) -> bool {
    match store.intern((number, &[number, number, number])) {
        Ok(_) => true,
        Err(refused) => {
            is_equal(
                rt,
                (refused.why, refused.back.0),
                (Refusal::OutOfMemory, number),
            );
            false
        }
    }
}

// Adds slices, each again where memory was refused, and reads those before it.
fn add_all_at_last<A: NearItems<u64>>(rt: &impl Abort, store: &mut Slices<u64, A>) {
    for number in 0..40 {
        add_at_last(rt, store, number);
        assert!(rt; all_read(store, number + 1));
    }
}

fn fill<A: NearItems<u64>>(rt: &impl Abort, alloc: Global) {
    let mut store: Slices<u64, A> = Store::new(alloc, 1);
    add_all_at_last(rt, &mut store);
}

#[test]
fn a_refused_insertion_changes_nothing(rt: HostRuntime) {
    fill::<FarItems>(&rt, rt.alloc());
}

#[test]
fn a_refused_insertion_of_items_in_their_entries_changes_nothing(rt: HostRuntime) {
    fill::<OwnItems<u64, 3>>(&rt, rt.alloc());
}
