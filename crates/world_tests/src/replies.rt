//! Runs with their replies.
use crate::rows::{Ask, Row, Tell, tells, tells_anew};
use crate::worlds::{collected, drop_world, is_told, new_world};
use intern_world::{Reply, Which};
use ra_ap_intern::Refusal;

const HANDLES_OF_ONE_VALUE: [Row; 8] = [
    (Ask::New("x"), Tell::Made(0)),
    (Ask::AsRef(0), Tell::Made(1)),
    (Ask::New("x"), Tell::MadeAgain(2, Which::Counted, "x")),
    (Ask::Same(0, 2), Tell::Truth(true)),
    (Ask::Release(0), Tell::Done),
    (Ask::Release(2), Tell::Freed(Which::Counted, "x")),
    (Ask::ReadsCounted(1, "x"), Tell::Read(None)),
    (Ask::Release(0), Tell::WrongSlot),
];

#[test]
fn handles_of_one_value(rt: HostRuntime) {
    let alloc = rt.alloc();
    tells_anew(&rt, alloc, &HANDLES_OF_ONE_VALUE);
}

const A_COLLECTION_IN_A_RUN: [Row; 10] = [
    (Ask::NewGc("a"), Tell::Made(0)),
    (Ask::ToOwned(0), Tell::Made(1)),
    (Ask::NewGc("b"), Tell::Made(2)),
    (Ask::Collect, Tell::Collected(1, 0, 1)),
    (Ask::ReadsValue(2, "b"), Tell::Read(None)),
    (Ask::ToOwned(2), Tell::Refused(Refusal::Gone)),
    (Ask::NewGc("b"), Tell::Made(3)),
    (Ask::Same(2, 3), Tell::Truth(false)),
    (Ask::AsRaw(3), Tell::Number(2)),
    (Ask::Len(Which::Values), Tell::Number(2)),
];

#[test]
fn a_collection_in_a_run(rt: HostRuntime) {
    let alloc = rt.alloc();
    tells_anew(&rt, alloc, &A_COLLECTION_IN_A_RUN);
}

const PRESETS_IN_A_RUN: [Row; 8] = [
    (Ask::IntegerGet(255), Tell::Made(0)),
    (Ask::Intern("255"), Tell::Made(1)),
    (Ask::Same(0, 1), Tell::Truth(true)),
    (Ask::Len(Which::Symbols), Tell::Number(0)),
    (Ask::PutEmpty, Tell::Made(2)),
    (Ask::Same(2, 2), Tell::WrongSlot),
    (Ask::Release(1), Tell::Done),
    (Ask::AsUint(0), Tell::Uint(Some(255))),
];

#[test]
fn presets_in_a_run(rt: HostRuntime) {
    let alloc = rt.alloc();
    tells_anew(&rt, alloc, &PRESETS_IN_A_RUN);
}

const A_SLICE_AND_THREE_TEXTS: [Row; 6] = [
    (Ask::FromHeaderAndSlice("a", &[1]), Tell::Made(0)),
    (Ask::Intern("hello"), Tell::Made(1)),
    (Ask::IntegerGet(256), Tell::Made(2)),
    (Ask::GeneratedGet(256), Tell::Made(3)),
    (Ask::Len(Which::Slices), Tell::Number(1)),
    (Ask::Len(Which::Symbols), Tell::Number(3)),
];

#[test]
fn a_slice_and_three_texts(rt: HostRuntime) {
    let alloc = rt.alloc();
    tells_anew(&rt, alloc, &A_SLICE_AND_THREE_TEXTS);
}

#[test]
fn no_calls(rt: HostRuntime) {
    let alloc = rt.alloc();
    tells_anew(&rt, alloc, &[]);
}

#[test]
fn a_collection_keeps_what_slots_name(rt: HostRuntime) {
    let alloc = rt.alloc();
    let mut world = new_world(alloc);
    let two = [
        (Ask::NewGc("a"), Tell::Made(0)),
        (Ask::NewGc("b"), Tell::Made(1)),
    ];
    tells(&rt, alloc, &mut world, &two);
    is_told(&rt, &world.collect_keeping(&[1]), &collected(1, 0, 1));
    let gone = [(Ask::ReadsValue(0, "a"), Tell::Read(None))];
    tells(&rt, alloc, &mut world, &gone);
    is_told(&rt, &world.collect_keeping(&[7]), &Reply::WrongSlot);
    is_told(&rt, &world.collect_keeping(&[]), &collected(0, 0, 1));
    drop_world(world);
}
