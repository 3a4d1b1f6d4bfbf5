//! Each call of terms once, with its answer.
use crate::rows::{HERE, OTHER, Row, Stage, Step, new_stage, play, play_small};
use crate::texts::is_equal;
use intern_fixtures::{a_map_tells_apart, a_set_tells_apart};
use intern_terms::TermRef;
use ra_ap_intern::Refusal;
use std::alloc::Global;
use std::cmp::Ordering;
use std::collections::BTreeSet;
use std::process::Abort;

// The places of the terms of `MADE`, and the one after them.
const X: usize = 0;

const Y: usize = 1;

const XY: usize = 2;

const NEXT: usize = 3;

/// Makes `x`, `y` and `f(x, y)`.
const MADE: [Row; 3] = [
    (HERE, Step::New("x", &[], 0)),
    (HERE, Step::New("y", &[], 1)),
    (HERE, Step::New("f", &[X, Y], 2)),
];

/// Stores of which the first has the three terms.
fn made(rt: &impl Abort, alloc: Global) -> Stage {
    let mut stage = new_stage(rt, alloc);
    stage.play(rt, &MADE);
    stage
}

/// Takes the steps after the three terms are made.
fn play_made(rt: &impl Abort, alloc: Global, rows: &[Row]) {
    made(rt, alloc).play(rt, rows);
}

const NEW: [Row; 2] = [(HERE, Step::IsNumber(3)), (HERE, Step::Lists(&[]))];

#[test]
fn a_new_store_is_empty(rt: HostRuntime) {
    play(&rt, rt.alloc(), &NEW);
}

const A_STORE_OF_THREE_BIRTHS: [Row; 9] = [
    (HERE, Step::IsNumber(3)),
    (HERE, Step::Lists(&[])),
    (HERE, Step::New("x", &[], 0)),
    (HERE, Step::New("y", &[], 1)),
    (HERE, Step::New("f", &[X, Y], 2)),
    (HERE, Step::Lists(&[X, Y, XY])),
    (HERE, Step::NotMade("z", &[], Refusal::NumbersUsedUp)),
    (HERE, Step::Keep(X)),
    (HERE, Step::NotKept(X, Refusal::CountFull)),
];

#[test]
fn a_new_store_has_the_limits_given(rt: HostRuntime) {
    play_small(&rt, rt.alloc(), 3, &A_STORE_OF_THREE_BIRTHS);
}

const STORED_ONCE: [Row; 4] = [
    (HERE, Step::Again("x", &[], X, 0)),
    (HERE, Step::Again("y", &[], Y, 1)),
    (HERE, Step::Again("f", &[X, Y], XY, 2)),
    (HERE, Step::Lists(&[X, Y, XY])),
];

#[test]
fn a_term_is_stored_once(rt: HostRuntime) {
    play_made(&rt, rt.alloc(), &STORED_ONCE);
}

const TOLD_APART: [Row; 9] = [
    (HERE, Step::Has("x", &[], X)),
    (HERE, Step::Has("f", &[X, Y], XY)),
    (HERE, Step::HasNone("f", &[])),
    (HERE, Step::HasNone("f", &[X])),
    (HERE, Step::HasNone("f", &[Y, X])),
    (HERE, Step::HasNone("f", &[X, Y, Y])),
    (HERE, Step::HasNone("f", &[X, X])),
    (HERE, Step::HasNone("g", &[X, Y])),
    (HERE, Step::Lists(&[X, Y, XY])),
];

#[test]
fn a_term_is_told_by_its_head_and_its_arguments(rt: HostRuntime) {
    play_made(&rt, rt.alloc(), &TOLD_APART);
}

/// The third term is one of another store.
const NOTHING_IS_GOT: [Row; 8] = [
    (HERE, Step::New("x", &[], 0)),
    (HERE, Step::New("f", &[0], 1)),
    (OTHER, Step::New("x", &[], 0)),
    (HERE, Step::HasNone("f", &[2])),
    (HERE, Step::Collect((0, 0, 2))),
    (HERE, Step::HasNone("x", &[])),
    (HERE, Step::New("x", &[], 2)),
    (HERE, Step::HasNone("f", &[0])),
];

#[test]
fn nothing_is_got_over_what_cannot_be_read(rt: HostRuntime) {
    play(&rt, rt.alloc(), &NOTHING_IS_GOT);
}

const READ: [Row; 6] = [
    (HERE, Step::Reads(X, "x", &[])),
    (HERE, Step::Reads(XY, "f", &[X, Y])),
    (HERE, Step::Collect((0, 0, 3))),
    (HERE, Step::ReadsNothing(X)),
    (HERE, Step::ReadsNothing(Y)),
    (HERE, Step::ReadsNothing(XY)),
];

#[test]
fn a_term_reads_its_head_and_its_arguments(rt: HostRuntime) {
    play_made(&rt, rt.alloc(), &READ);
}

const LISTED: [Row; 3] = [
    (HERE, Step::Lists(&[X, Y, XY])),
    (HERE, Step::CollectKeeping(&[X], (1, 0, 2))),
    (HERE, Step::Lists(&[X])),
];

#[test]
fn the_terms_are_listed(rt: HostRuntime) {
    play_made(&rt, rt.alloc(), &LISTED);
}

const COUNTED: [Row; 10] = [
    (HERE, Step::Counts(XY, 0)),
    (HERE, Step::Keep(XY)),
    (HERE, Step::Counts(XY, 1)),
    (HERE, Step::Clone(0)),
    (HERE, Step::Counts(XY, 2)),
    (HERE, Step::Counts(X, 0)),
    (HERE, Step::Release(0)),
    (HERE, Step::Counts(XY, 1)),
    (HERE, Step::Release(0)),
    (HERE, Step::Counts(XY, 0)),
];

#[test]
fn owners_are_counted(rt: HostRuntime) {
    play_made(&rt, rt.alloc(), &COUNTED);
}

const OWNED_TWICE: [Row; 7] = [
    (HERE, Step::Keep(XY)),
    (HERE, Step::Keep(XY)),
    (HERE, Step::Release(0)),
    (HERE, Step::Collect((3, 2, 0))),
    (HERE, Step::Release(0)),
    (HERE, Step::Reads(XY, "f", &[X, Y])),
    (HERE, Step::Collect((0, 0, 3))),
];

#[test]
fn a_term_stays_until_its_last_owner_is_gone(rt: HostRuntime) {
    play_made(&rt, rt.alloc(), &OWNED_TWICE);
}

const DROPPED: [Row; 4] = [
    (HERE, Step::Keep(XY)),
    (HERE, Step::Drop(0)),
    (HERE, Step::Counts(XY, 1)),
    (HERE, Step::Collect((3, 2, 0))),
];

#[test]
fn an_owner_that_is_dropped_keeps_its_count(rt: HostRuntime) {
    play_made(&rt, rt.alloc(), &DROPPED);
}

const LISTED_TREES_ARE_LEFT: [Row; 7] = [
    (OTHER, Step::New("z", &[], 0)),
    (HERE, Step::CollectKeeping(&[XY, XY, NEXT], (3, 2, 0))),
    (HERE, Step::CollectKeeping(&[Y, NEXT], (1, 0, 2))),
    (HERE, Step::ReadsNothing(X)),
    (HERE, Step::Reads(Y, "y", &[])),
    (HERE, Step::CollectKeeping(&[XY, X], (0, 0, 1))),
    (OTHER, Step::Lists(&[NEXT])),
];

#[test]
fn a_collection_leaves_the_listed_trees(rt: HostRuntime) {
    play_made(&rt, rt.alloc(), &LISTED_TREES_ARE_LEFT);
}

const KEPT_TREES_ARE_LEFT: [Row; 5] = [
    (HERE, Step::Keep(X)),
    (HERE, Step::CollectKeeping(&[Y], (2, 0, 1))),
    (HERE, Step::ReadsNothing(XY)),
    (HERE, Step::CollectKeeping(&[], (1, 0, 1))),
    (HERE, Step::Reads(X, "x", &[])),
];

#[test]
fn a_collection_leaves_kept_trees_beside_the_listed_ones(rt: HostRuntime) {
    play_made(&rt, rt.alloc(), &KEPT_TREES_ARE_LEFT);
}

const NAMED: [Row; 7] = [
    (OTHER, Step::New("x", &[], 0)),
    (HERE, Step::IsNamed(X, 3, 0)),
    (HERE, Step::IsNamed(XY, 3, 2)),
    (OTHER, Step::IsNamed(NEXT, 4, 0)),
    (HERE, Step::Compares(X, X, Ordering::Equal)),
    (HERE, Step::Compares(X, Y, Ordering::Less)),
    (HERE, Step::Compares(X, NEXT, Ordering::Less)),
];

#[test]
fn references_are_names(rt: HostRuntime) {
    play_made(&rt, rt.alloc(), &NAMED);
}

const ORDERED: [Row; 6] = [
    (OTHER, Step::New("x", &[], 0)),
    (HERE, Step::Compares(X, Y, Ordering::Less)),
    (HERE, Step::Compares(Y, NEXT, Ordering::Less)),
    (HERE, Step::Compares(X, NEXT, Ordering::Less)),
    (HERE, Step::Compares(X, X, Ordering::Equal)),
    (HERE, Step::Compares(NEXT, Y, Ordering::Greater)),
];

#[test]
fn references_are_ordered_by_the_store_and_then_by_the_birth(rt: HostRuntime) {
    play_made(&rt, rt.alloc(), &ORDERED);
}

#[test]
fn references_are_hashed(rt: HostRuntime) {
    let alloc = rt.alloc();
    let mut stage = made(&rt, alloc);
    let again = stage.scene(&rt, HERE).find(&rt, "x", &[], 0);
    let (x, y) = (stage.term(&rt, X), stage.term(&rt, Y));
    let in_a_set = a_set_tells_apart(alloc, x, again, &y);
    assert!(rt; in_a_set.expect(&rt, "memory"));
    let in_a_map = a_map_tells_apart(alloc, x, &again, &y);
    assert!(rt; in_a_map.expect(&rt, "memory"));
}

#[test]
fn memory_follows_terms(rt: HostRuntime) {
    let mut stage = made(&rt, rt.alloc());
    // A term is a birth, a head, a count and where its arguments lie, and these are 24 bytes each.
    let memory = stage.scene(&rt, HERE).store.memory();
    assert!(rt; memory >= 3 * 72 + 2 * 24 && memory < 10_000);
}

#[test]
fn references_are_put_in_order(rt: HostRuntime) {
    let stage = made(&rt, rt.alloc());
    let mut set = BTreeSet::new(rt.alloc());
    for place in [XY, X, Y, X] {
        put(&rt, &mut set, stage.term(&rt, place));
    }
    is_equal(&rt, set.len(), 3);
    assert!(rt; set.first() == Some(&stage.term(&rt, X)));
    assert!(rt; set.last() == Some(&stage.term(&rt, XY)));
}

/// Puts a term into a set.
fn put(rt: &impl Abort, set: &mut BTreeSet<TermRef>, term: TermRef) {
    let inserted: Result<_, _> = set.insert(term);
    let _is_new = inserted.expect(rt, "memory");
}

#[test]
fn references_and_owners_are_shown_by_name(rt: HostRuntime) {
    let mut stage = made(&rt, rt.alloc());
    let x = stage.term(&rt, X);
    let shown = format!(in rt.alloc(); "{x:?}").expect(&rt, "memory");
    is_equal(&rt, shown.as_str(), "TermRef(#3.0)");
    stage.play(&rt, &[(HERE, Step::Keep(XY))]);
    let kept = stage.owner(&rt, 0);
    let shown = format!(in rt.alloc(); "{kept:?}").expect(&rt, "memory");
    is_equal(&rt, shown.as_str(), "Term(#3.2)");
}
