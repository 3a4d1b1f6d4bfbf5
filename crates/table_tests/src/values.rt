//! Values.
ghost use Rattle.std.specs.Prelude.{[], refl};

use crate::counts::is_told;
use crate::marks::{marks_by, marks_of};
use crate::steps::is_equal;
use intern_store::Store;
use intern_table::Table;
use std::cmp::Eq;
use std::hash::{Hash, Hasher};
use std::process::Abort;

// Counts a value once more: it has this birth, and is new or not.
fn add<T: Hash + Eq + Copy>(
    rt: &impl Abort,
    store: &mut Store<Table<T>>,
    value: T,
    birth: u64,
    is_new: bool,
) {
    let (handle, back) = store.intern_counted(value).ok().expect(rt, "stored");
    is_equal(rt, (handle.spot.birth, back.is_none()), (birth, is_new));
}

// Stores the numbers from this one to that, each under itself as its birth.
fn add_numbers(rt: &impl Abort, store: &mut Store<Table<u64>>, from: u64, to: u64) {
    for number in from..to {
        add(rt, store, number, number, true);
    }
}

// Releases the numbers below this one that are even, each under itself as its birth. This removes
// them.
fn free_even_numbers(rt: &impl Abort, store: &mut Store<Table<u64>>, to: u64) {
    for birth in 0..to {
        if birth % 2 == 0 {
            free_number(rt, store, birth);
        }
    }
}

// Releases the number that is its birth, which removes it.
fn free_number(rt: &impl Abort, store: &mut Store<Table<u64>>, birth: u64) {
    let handle = store.entry(birth).expect(rt, "stored");
    is_equal(rt, store.release(handle, false), Ok(Some(birth)));
}

// The value of a birth.
fn number_at(store: &Store<Table<u64>>, birth: u64) -> Option<u64> {
    let Ok(handle) = store.entry(birth) else {
        return None;
    };
    store.own(handle.storage)?.get(handle.spot).copied()
}

// Checks that these births have their numbers where the step leaves this rest, and no entry
// elsewhere.
fn has_numbers(
    rt: &impl Abort,
    store: &Store<Table<u64>>,
    (from, to): (u64, u64),
    (step, rest): (u64, u64),
) {
    for birth in from..to {
        let is_kept = birth.checked_rem(step) == Some(rest);
        is_equal(
            rt,
            number_at(store, birth),
            if is_kept { Some(birth) } else { None },
        );
    }
}

#[test]
fn sweeps_after_churn_keep_values(rt: HostRuntime) {
    let mut store = Store::new(rt.alloc(), 1);
    add_numbers(&rt, &mut store, 0, 60);
    free_even_numbers(&rt, &mut store, 60);
    add_numbers(&rt, &mut store, 60, 90);
    store.keep(&marks_by(&rt, rt.alloc(), 90, 3));
    add_numbers(&rt, &mut store, 90, 100);
    has_numbers(&rt, &store, (0, 60), (6, 3));
    has_numbers(&rt, &store, (60, 90), (3, 0));
    has_numbers(&rt, &store, (90, 100), (1, 0));
    is_equal(&rt, store.len(), 30);
}

// Checks that a walk tells each place, and count 2 of the birth 1, and 1 of each other.
fn are_counted(rt: &impl Abort, table: &Table<u64>) {
    for (spot, count) in table.counts() {
        is_told(rt, table, spot, count, if spot.birth == 1 { 2 } else { 1 });
    }
}

#[test]
fn a_walk_counts_values(rt: HostRuntime) {
    let mut store = Store::new(rt.alloc(), 1);
    add_numbers(&rt, &mut store, 0, 3);
    let handle = store.entry(1).expect(&rt, "stored");
    is_equal(&rt, store.count_up(handle), Ok(()));
    is_equal(&rt, store.table().counts().count(), 3);
    are_counted(&rt, store.table());
}

// A number that hashes as every other does.
#[derive(Clone, Copy, Debug, PartialEq, Eq, Drop)]
struct Alike(u64);

impl Hash for Alike {
    ghost hash_input = { λ a. [] };

    ghost respects_eq = { λ a b e. refl };

    fn hash<K: Hasher>(&self, state: &mut K) {
        let _ = state;
    }
}

#[test]
fn a_sweep_keeps_values_of_one_hash(rt: HostRuntime) {
    let mut store = Store::new(rt.alloc(), 1);
    add(&rt, &mut store, Alike(0), 0, true);
    add(&rt, &mut store, Alike(1), 1, true);
    add(&rt, &mut store, Alike(2), 2, true);
    add(&rt, &mut store, Alike(3), 3, true);
    store.keep(&marks_of(&rt, rt.alloc(), &[1, 3]));
    add(&rt, &mut store, Alike(0), 4, true);
    add(&rt, &mut store, Alike(1), 1, false);
    add(&rt, &mut store, Alike(3), 3, false);
}
