//! Each refusal of each call. After it the store is as it was.
use crate::rows::{HERE, OTHER, Row, SAME, Stage, Step, play, play_small, small_stage};
use crate::texts::is_equal;
use ra_ap_intern::Refusal;
use std::alloc::Global;
use std::process::Abort;

// The places of the terms of `GIVEN`: one of another store, one that is gone and one that the store
// has. Then those of the terms that follow.
const FOREIGN: usize = 0;

const STALE: usize = 1;

const LIVE: usize = 2;

const NEXT: usize = 3;

const LAST: usize = 4;

/// Makes these terms. Two births are given.
const GIVEN: [Row; 4] = [
    (OTHER, Step::New("z", &[], 0)),
    (HERE, Step::New("y", &[], 0)),
    (HERE, Step::New("x", &[], 1)),
    (HERE, Step::CollectKeeping(&[LIVE], (1, 0, 1))),
];

/// The store has one term, which nobody keeps, and reads nothing else.
const AS_IT_WAS: [Row; 5] = [
    (HERE, Step::Lists(&[LIVE])),
    (HERE, Step::Counts(LIVE, 0)),
    (HERE, Step::Reads(LIVE, "x", &[])),
    (HERE, Step::ReadsNothing(STALE)),
    (HERE, Step::ReadsNothing(FOREIGN)),
];

/// A store in which counts go to one, and which gives so many births.
fn given(rt: &impl Abort, alloc: Global, births: u64) -> Stage {
    let mut stage = small_stage(rt, alloc, births);
    stage.play(rt, &GIVEN);
    stage
}

/// After each of these steps the store is as it was.
fn stays(rt: &impl Abort, stage: &mut Stage, rows: &[Row]) {
    for row in rows {
        stage.play(rt, &[*row]);
        stage.play(rt, &AS_IT_WAS);
    }
}

/// After each of these steps a store that gives nine births is as it was.
fn nine_stays(rt: &impl Abort, alloc: Global, rows: &[Row]) {
    let mut stage = given(rt, alloc, 9);
    stays(rt, &mut stage, rows);
}

const THE_FIRST_DECIDES: [Row; 6] = [
    (HERE, Step::NotMade("f", &[STALE], Refusal::Gone)),
    (HERE, Step::NotMade("f", &[FOREIGN], Refusal::Foreign)),
    (HERE, Step::NotMade("f", &[STALE, FOREIGN], Refusal::Gone)),
    (
        HERE,
        Step::NotMade("f", &[FOREIGN, STALE], Refusal::Foreign),
    ),
    (
        HERE,
        Step::NotMade("f", &[LIVE, STALE, FOREIGN], Refusal::Gone),
    ),
    (
        HERE,
        Step::NotMade("f", &[LIVE, LIVE, FOREIGN, STALE], Refusal::Foreign),
    ),
];

#[test]
fn the_first_argument_that_cannot_be_read_decides(rt: HostRuntime) {
    nine_stays(&rt, rt.alloc(), &THE_FIRST_DECIDES);
}

const TAKES_NO_BIRTH: [Row; 2] = [
    (HERE, Step::NotMade("f", &[STALE], Refusal::Gone)),
    (HERE, Step::NotMade("f", &[LIVE, STALE], Refusal::Gone)),
];

#[test]
fn a_refused_term_takes_no_birth(rt: HostRuntime) {
    let mut stage = given(&rt, rt.alloc(), 3);
    stays(&rt, &mut stage, &TAKES_NO_BIRTH);
    stage.play(&rt, &[(HERE, Step::New("f", &[LIVE], 2))]);
}

const ARGUMENTS_COME_FIRST: [Row; 5] = [
    (HERE, Step::NotMade("f", &[LIVE], Refusal::NumbersUsedUp)),
    (HERE, Step::NotMade("f", &[], Refusal::NumbersUsedUp)),
    (HERE, Step::NotMade("f", &[LIVE, STALE], Refusal::Gone)),
    (HERE, Step::NotMade("f", &[FOREIGN], Refusal::Foreign)),
    (HERE, Step::Again("x", &[], LIVE, 1)),
];

#[test]
fn arguments_are_looked_at_before_the_births(rt: HostRuntime) {
    let mut stage = given(&rt, rt.alloc(), 2);
    stays(&rt, &mut stage, &ARGUMENTS_COME_FIRST);
}

const ALL_BIRTHS_ARE_GIVEN: [Row; 5] = [
    (HERE, Step::New("x", &[], 0)),
    (HERE, Step::NotMade("y", &[], Refusal::NumbersUsedUp)),
    (HERE, Step::NotMade("x", &[0], Refusal::NumbersUsedUp)),
    (HERE, Step::Again("x", &[], 0, 0)),
    (HERE, Step::Reads(0, "x", &[])),
];

#[test]
fn a_stored_term_is_found_where_all_births_are_given(rt: HostRuntime) {
    play_small(&rt, rt.alloc(), 1, &ALL_BIRTHS_ARE_GIVEN);
}

const NOT_GIVEN_BACK: [Row; 4] = [
    (HERE, Step::New("x", &[], 0)),
    (HERE, Step::Collect((0, 0, 1))),
    (HERE, Step::NotMade("x", &[], Refusal::NumbersUsedUp)),
    (HERE, Step::Lists(&[])),
];

#[test]
fn a_birth_is_not_given_back(rt: HostRuntime) {
    play_small(&rt, rt.alloc(), 1, &NOT_GIVEN_BACK);
}

const NO_BIRTH_AT_ALL: [Row; 3] = [
    (HERE, Step::NotMade("x", &[], Refusal::NumbersUsedUp)),
    (HERE, Step::Collect((0, 0, 0))),
    (HERE, Step::Lists(&[])),
];

#[test]
fn a_store_may_give_no_birth_at_all(rt: HostRuntime) {
    play_small(&rt, rt.alloc(), 0, &NO_BIRTH_AT_ALL);
}

const NOT_KEPT: [Row; 2] = [
    (HERE, Step::NotKept(FOREIGN, Refusal::Foreign)),
    (HERE, Step::NotKept(STALE, Refusal::Gone)),
];

#[test]
fn what_cannot_be_read_is_not_kept(rt: HostRuntime) {
    nine_stays(&rt, rt.alloc(), &NOT_KEPT);
}

const COUNT_IS_FULL: [Row; 11] = [
    (HERE, Step::Keep(LIVE)),
    (HERE, Step::NotKept(LIVE, Refusal::CountFull)),
    (HERE, Step::NotCloned(0, Refusal::CountFull)),
    (HERE, Step::Counts(LIVE, 1)),
    (HERE, Step::Lists(&[LIVE])),
    (HERE, Step::Reads(LIVE, "x", &[])),
    (HERE, Step::ReadsNothing(STALE)),
    (HERE, Step::ReadsNothing(FOREIGN)),
    (HERE, Step::Release(0)),
    (HERE, Step::Keep(LIVE)),
    (HERE, Step::Release(0)),
];

#[test]
fn a_term_has_no_more_owners_than_its_count_goes_to(rt: HostRuntime) {
    let mut stage = given(&rt, rt.alloc(), 9);
    stage.play(&rt, &COUNT_IS_FULL);
    stage.play(&rt, &AS_IT_WAS);
}

const OWNED_BY_ANOTHER: [Row; 6] = [
    (OTHER, Step::Keep(FOREIGN)),
    (HERE, Step::NotCloned(0, Refusal::Foreign)),
    (HERE, Step::NotReleased(0, Refusal::Foreign)),
    (OTHER, Step::Counts(FOREIGN, 1)),
    (OTHER, Step::Release(0)),
    (OTHER, Step::Counts(FOREIGN, 0)),
];

#[test]
fn an_owner_of_another_store_is_refused(rt: HostRuntime) {
    nine_stays(&rt, rt.alloc(), &OWNED_BY_ANOTHER);
}

const NO_SUCH_BIRTH: [Row; 5] = [
    (SAME, Step::New("x", &[], 0)),
    (SAME, Step::Keep(NEXT)),
    (HERE, Step::NotCloned(0, Refusal::Gone)),
    (HERE, Step::NotReleased(0, Refusal::Gone)),
    (SAME, Step::Release(0)),
];

#[test]
fn an_owner_whose_birth_a_store_of_the_same_number_has_not_is_refused(rt: HostRuntime) {
    nine_stays(&rt, rt.alloc(), &NO_SUCH_BIRTH);
}

const NOTHING_COUNTS: [Row; 5] = [
    (SAME, Step::New("x", &[], 0)),
    (SAME, Step::New("f", &[NEXT], 1)),
    (SAME, Step::Keep(LAST)),
    (HERE, Step::NotReleased(0, Refusal::CountZero)),
    (SAME, Step::Release(0)),
];

#[test]
fn an_owner_that_nothing_counts_is_refused(rt: HostRuntime) {
    nine_stays(&rt, rt.alloc(), &NOTHING_COUNTS);
}

const FOREIGN_BEFORE_FULL: [Row; 7] = [
    (OTHER, Step::New("z", &[], 0)),
    (HERE, Step::New("x", &[], 0)),
    (OTHER, Step::Keep(0)),
    (HERE, Step::Keep(1)),
    (HERE, Step::NotKept(0, Refusal::Foreign)),
    (HERE, Step::NotCloned(0, Refusal::Foreign)),
    (HERE, Step::Counts(1, 1)),
];

#[test]
fn foreign_comes_before_full(rt: HostRuntime) {
    play_small(&rt, rt.alloc(), 1, &FOREIGN_BEFORE_FULL);
}

const FOREIGN_BEFORE_ZERO: [Row; 5] = [
    (OTHER, Step::New("z", &[], 0)),
    (HERE, Step::New("x", &[], 0)),
    (OTHER, Step::Keep(0)),
    (HERE, Step::NotReleased(0, Refusal::Foreign)),
    (HERE, Step::Counts(1, 0)),
];

#[test]
fn foreign_comes_before_zero(rt: HostRuntime) {
    play(&rt, rt.alloc(), &FOREIGN_BEFORE_ZERO);
}

#[test]
fn refusals_have_numbers(rt: HostRuntime) {
    is_equal(&rt, Refusal::Foreign.number(), 1);
    is_equal(&rt, Refusal::Gone.number(), 2);
    is_equal(&rt, Refusal::CountZero.number(), 3);
    is_equal(&rt, Refusal::CountFull.number(), 4);
    is_equal(&rt, Refusal::NumbersUsedUp.number(), 5);
}
