//! Worked examples.
use crate::steps::is_equal;
use crate::types::{made, scene};
use ra_ap_intern::InternStorage;
use std::alloc::Global;
use std::process::Abort;
use use_types::{TypeRef, Types};
use use_walks::{occurs, parts};

// How many types a type is made of.
fn size(rt: &impl Abort, alloc: Global, types: &Types, whole: TypeRef) -> usize {
    parts(alloc, types, whole).expect(rt, "memory").len()
}

#[test]
fn a_shared_part_is_met_once(rt: HostRuntime) {
    let alloc = rt.alloc();
    let (mut types, int, text) = scene(&rt, alloc);
    let mut whole = int;
    for depth in 1..=64usize {
        is_equal(&rt, size(&rt, alloc, &types, whole), depth);
        whole = made(&rt, &mut types, whole, whole);
    }
    let both = made(&rt, &mut types, text, whole);
    let met = parts(alloc, &types, both).expect(&rt, "memory");
    is_equal(&rt, met.len(), 67);
    for part in [int, text, whole, both] {
        assert!(rt; met.contains(&part));
    }
}

#[test]
fn a_part_occurs_in_what_is_made_of_it(rt: HostRuntime) {
    let alloc = rt.alloc();
    let (mut types, int, text) = scene(&rt, alloc);
    let first = made(&rt, &mut types, int, int);
    let second = made(&rt, &mut types, first, int);
    for (part, whole, wanted) in [
        (int, int, true),
        (int, second, true),
        (first, second, true),
        (second, first, false),
        (text, second, false),
    ] {
        assert!(rt; occurs(alloc, &types, part, whole) == Ok(wanted));
    }
}

#[test]
fn what_is_of_another_store_has_no_parts(rt: HostRuntime) {
    let alloc = rt.alloc();
    let (_, int, _) = scene(&rt, alloc);
    let others: Types = InternStorage::new(alloc, 3);
    is_equal(&rt, size(&rt, alloc, &others, int), 0);
    assert!(rt; occurs(alloc, &others, int, int) == Ok(false));
}
