//! Worked examples, with their expected answers.
use crate::rows::{HERE, OTHER, Row, Step, new_stage, play};
use crate::scene::{Scene, drop_scene, make_doubled};
use crate::texts::is_equal;
use ra_ap_intern::Refusal;
use std::cmp::Ordering;

// The places of the terms of `MADE`, and the one after them.
const X: usize = 0;

const Y: usize = 1;

const XY: usize = 2;

const YX: usize = 3;

const BOTH: usize = 4;

const NEXT: usize = 5;

/// Makes `x`, `y`, `f(x, y)` twice, `f(y, x)` and `g` over `f(x, y)` twice.
const EQUAL_TREES: [Row; 8] = [
    (HERE, Step::New("x", &[], 0)),
    (HERE, Step::New("y", &[], 1)),
    (HERE, Step::New("f", &[X, Y], 2)),
    (HERE, Step::Again("f", &[X, Y], XY, 2)),
    (HERE, Step::New("f", &[Y, X], 3)),
    (HERE, Step::Compares(YX, XY, Ordering::Greater)),
    (HERE, Step::New("g", &[XY, XY], 4)),
    (HERE, Step::Lists(&[X, Y, XY, YX, BOTH])),
];

#[test]
fn equal_trees_are_one_term(rt: HostRuntime) {
    play(&rt, rt.alloc(), &EQUAL_TREES);
}

/// After these, one of them is kept.
const KEPT: [Row; 8] = [
    (HERE, Step::Keep(BOTH)),
    (HERE, Step::Collect((4, 4, 1))),
    (HERE, Step::NotMade("f", &[YX], Refusal::Gone)),
    (HERE, Step::New("f", &[Y, X], 5)),
    (HERE, Step::Compares(NEXT, YX, Ordering::Greater)),
    (HERE, Step::Release(0)),
    (HERE, Step::Collect((0, 0, 5))),
    (HERE, Step::Lists(&[])),
];

#[test]
fn what_a_kept_term_has_in_its_tree_stays(rt: HostRuntime) {
    let mut stage = new_stage(&rt, rt.alloc());
    stage.play(&rt, &EQUAL_TREES);
    stage.play(&rt, &KEPT);
}

const OF_ANOTHER_STORE: [Row; 3] = [
    (OTHER, Step::New("x", &[], 0)),
    (HERE, Step::NotMade("f", &[X], Refusal::Foreign)),
    (HERE, Step::ReadsNothing(X)),
];

#[test]
fn a_term_of_another_store_is_no_argument(rt: HostRuntime) {
    play(&rt, rt.alloc(), &OF_ANOTHER_STORE);
}

#[test]
fn shared_arguments_are_visited_once(rt: HostRuntime) {
    let mut scene = Scene::new(rt.alloc(), 3);
    let term = make_doubled(&rt, &mut scene);
    let mut again = scene.find(&rt, "x", &[], 0);
    for birth in 1..65u64 {
        again = scene.find(&rt, "f", &[again, again], birth);
    }
    assert!(rt; again == term);
    is_equal(&rt, scene.store.len(), 65);
    let _kept = scene.keep(&rt, term, None);
    scene.collects(&rt, (65, 128, 0));
    drop_scene(scene);
}

const KEPT_FOR_ONE_COLLECTION: [Row; 3] = [
    (HERE, Step::New("x", &[], 0)),
    (HERE, Step::CollectKeeping(&[X], (1, 0, 0))),
    (HERE, Step::Collect((0, 0, 1))),
];

#[test]
fn a_root_is_kept_for_one_collection(rt: HostRuntime) {
    play(&rt, rt.alloc(), &KEPT_FOR_ONE_COLLECTION);
}
