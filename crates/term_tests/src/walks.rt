//! Walks: each term of some trees once, after its arguments.
use crate::rows::{HERE, OTHER, Row, Step, play};
use crate::scene::{Scene, drop_scene, make_doubled, make_path};
use crate::texts::is_equal;
use intern_terms::{TermRef, TermStore};
use std::process::Abort;

/// Walks over `f(x, g(y))`, which is made last.
const ARGUMENTS_FIRST: [Row; 7] = [
    (HERE, Step::New("x", &[], 0)),
    (HERE, Step::New("y", &[], 1)),
    (HERE, Step::New("g", &[1], 2)),
    (HERE, Step::New("f", &[0, 2], 3)),
    (HERE, Step::Walks(&[3], &[0, 1, 2, 3])),
    (HERE, Step::Walks(&[2], &[1, 2])),
    (HERE, Step::Walks(&[0], &[0])),
];

#[test]
fn arguments_come_first(rt: HostRuntime) {
    play(&rt, rt.alloc(), &ARGUMENTS_FIRST);
}

/// Walks over `f(g(x), g(x), x)`, which is made last.
const SHARED_ONCE: [Row; 6] = [
    (HERE, Step::New("x", &[], 0)),
    (HERE, Step::New("g", &[0], 1)),
    (HERE, Step::New("f", &[1, 1, 0], 2)),
    (HERE, Step::Walks(&[2], &[0, 1, 2])),
    (HERE, Step::Walks(&[2, 1, 2, 0, 2], &[0, 1, 2])),
    (HERE, Step::Walks(&[0, 2], &[0, 1, 2])),
];

#[test]
fn shared_terms_come_once(rt: HostRuntime) {
    play(&rt, rt.alloc(), &SHARED_ONCE);
}

/// Walks over `g(x)` and `g(y)`, which are made last.
const ONE_AFTER_THE_OTHER: [Row; 6] = [
    (HERE, Step::New("x", &[], 0)),
    (HERE, Step::New("y", &[], 1)),
    (HERE, Step::New("g", &[0], 2)),
    (HERE, Step::New("g", &[1], 3)),
    (HERE, Step::Walks(&[3, 2], &[1, 3, 0, 2])),
    (HERE, Step::Walks(&[2, 3], &[0, 2, 1, 3])),
];

#[test]
fn trees_are_walked_one_after_the_other(rt: HostRuntime) {
    play(&rt, rt.alloc(), &ONE_AFTER_THE_OTHER);
}

/// Walks over a term of another store, one that is gone, and `g(x)`.
const PASSED_OVER: [Row; 9] = [
    (OTHER, Step::New("x", &[], 0)),
    (HERE, Step::New("y", &[], 0)),
    (HERE, Step::New("x", &[], 1)),
    (HERE, Step::New("g", &[2], 2)),
    (HERE, Step::CollectKeeping(&[3], (2, 1, 1))),
    (HERE, Step::Walks(&[1, 3, 0], &[2, 3])),
    (HERE, Step::Walks(&[0, 1], &[])),
    (HERE, Step::Walks(&[], &[])),
    (OTHER, Step::Walks(&[3, 0], &[0])),
];

#[test]
fn what_cannot_be_read_is_passed_over(rt: HostRuntime) {
    play(&rt, rt.alloc(), &PASSED_OVER);
}

#[test]
fn a_term_of_many_paths_is_walked_at_once(rt: HostRuntime) {
    let mut scene = Scene::new(rt.alloc(), 3);
    let term = make_doubled(&rt, &mut scene);
    let walk = scene.walk(&rt, &[term]);
    is_equal(&rt, walk.len(), 65);
    for (place, term) in walk.iter().enumerate() {
        is_equal(&rt, term.name().birth, place as u64);
    }
    drop_scene(scene);
}

#[test]
fn a_long_path_is_walked(rt: HostRuntime) {
    let mut scene = Scene::new(rt.alloc(), 3);
    let term = make_path(&rt, &mut scene, 10_000);
    let walk = scene.walk(&rt, &[term]);
    is_equal(&rt, walk.len(), 10_000);
    is_in_order(&rt, &scene.store, &walk);
    drop_scene(scene);
}

/// Each term comes after its arguments: here each has at most one, right before it.
fn is_in_order(rt: &impl Abort, store: &TermStore, walk: &[TermRef]) {
    for place in 1..walk.len() {
        let argument = walk[place - 1];
        assert!(rt; store.args(walk[place]) == Some([argument].as_slice()));
    }
}
