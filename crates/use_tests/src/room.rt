//! Two values, and two lists, in one call each.
ghost use Rattle.std.specs.Prelude.{true};

use crate::steps::is_equal;
use ra_ap_intern::{
    InternSliceStorage, InternStorage, Internable, InternedRef, InternedSliceRef, SliceInternable,
};
use std::process::Abort;
use use_room::{intern_next, intern_two, intern_two_lists};

/// A number that is collected.
#[derive(Debug, Drop, PartialEq, Eq, Hash)]
struct Number(u64);

impl Internable for Number {
    const USE_GC: bool = true;

    ghost USE_GC = { true };
}

/// Numbers behind a number.
struct Row;

impl SliceInternable for Row {
    type Header = u64;

    type SliceType = u64;

    const USE_GC: bool = true;

    ghost USE_GC = { true };
}

fn two(
    rt: &impl Abort,
    numbers: &mut InternStorage<Number>,
    first: u64,
    second: u64,
) -> (InternedRef<Number>, InternedRef<Number>) {
    intern_two(numbers, Number(first), Number(second)).expect(rt, "memory")
}

/// The reference reads this number.
fn reads(
    rt: &impl Abort,
    numbers: &InternStorage<Number>,
    reference: InternedRef<Number>,
    number: u64,
) {
    is_equal(rt, reference.get(numbers), Some(&Number(number)));
}

#[test]
fn both_values_are_stored_once(rt: HostRuntime) {
    let mut numbers = InternStorage::new(rt.alloc(), 1);
    let (seven, eight) = two(&rt, &mut numbers, 7, 8);
    let (again, nine) = two(&rt, &mut numbers, 8, 9);
    assert!(rt; again == eight);
    reads(&rt, &numbers, seven, 7);
    reads(&rt, &numbers, nine, 9);
    is_equal(&rt, numbers.len(), 3);
}

#[test]
fn room_is_passed_on(rt: HostRuntime) {
    let mut numbers = InternStorage::new(rt.alloc(), 1);
    let room = numbers.reserve(1).expect(&rt, "memory");
    let seven = intern_next(room, Number(7)).expect(&rt, "room");
    reads(&rt, &numbers, seven, 7);
}

fn two_lists(
    rt: &impl Abort,
    rows: &mut InternSliceStorage<Row>,
    first: &[u64],
    second: &[u64],
) -> (InternedSliceRef<Row>, InternedSliceRef<Row>) {
    intern_two_lists(rows, (1, first), (2, second)).expect(rt, "memory")
}

#[test]
fn both_lists_are_stored_once(rt: HostRuntime) {
    let mut rows = InternSliceStorage::new(rt.alloc(), 1);
    let (first, second) = two_lists(&rt, &mut rows, &[1, 2], &[3]);
    let (again, third) = two_lists(&rt, &mut rows, &[1, 2], &[]);
    assert!(rt; again == first);
    assert!(rt; third != second);
    is_equal(&rt, rows.len(), 3);
}
