//! Runs that go on after a refusal, in worlds in which counts go to one, and each part gives two
//! births. After each refusal a call shows that nothing has changed.
use crate::rows::{Ask, Row, Tell, small_tells};
use intern_world::{Kind, Which};
use ra_ap_intern::Refusal;

const COUNTED_VALUES_ARE_REFUSED: [Row; 15] = [
    (Ask::New("x"), Tell::Made(0)),
    (
        Ask::New("x"),
        Tell::GivenBack(Refusal::CountFull, Which::Counted, "x"),
    ),
    (Ask::Count(0), Tell::Count(Some(1))),
    (Ask::Clone(0), Tell::Refused(Refusal::CountFull)),
    (Ask::New("y"), Tell::Made(1)),
    (
        Ask::New("z"),
        Tell::GivenBack(Refusal::NumbersUsedUp, Which::Counted, "z"),
    ),
    (Ask::Len(Which::Counted), Tell::Number(2)),
    (
        Ask::New("y"),
        Tell::GivenBack(Refusal::CountFull, Which::Counted, "y"),
    ),
    (Ask::Count(1), Tell::Count(Some(1))),
    (Ask::FromRaw(Kind::Counted, 2), Tell::Refused(Refusal::Gone)),
    (
        Ask::FromRaw(Kind::CountedRef, 2),
        Tell::Refused(Refusal::Gone),
    ),
    (Ask::AsRef(1), Tell::Made(2)),
    (Ask::ToOwned(2), Tell::Refused(Refusal::CountFull)),
    (Ask::Count(2), Tell::Count(Some(1))),
    (Ask::Len(Which::Counted), Tell::Number(2)),
];

#[test]
fn counted_values_are_refused(rt: HostRuntime) {
    let alloc = rt.alloc();
    small_tells(&rt, alloc, &COUNTED_VALUES_ARE_REFUSED);
}

const COLLECTED_VALUES_ARE_REFUSED: [Row; 15] = [
    (Ask::NewGc("x"), Tell::Made(0)),
    (Ask::Decrement(0), Tell::Refused(Refusal::CountZero)),
    (
        Ask::FromRaw(Kind::Value, 0),
        Tell::Refused(Refusal::CountZero),
    ),
    (Ask::NewGc("y"), Tell::Made(1)),
    (
        Ask::NewGc("z"),
        Tell::GivenBack(Refusal::NumbersUsedUp, Which::Values, "z"),
    ),
    (Ask::Len(Which::Values), Tell::Number(2)),
    (Ask::ToOwned(1), Tell::Made(2)),
    (Ask::ToOwned(1), Tell::Refused(Refusal::CountFull)),
    (Ask::Count(1), Tell::Count(Some(1))),
    (Ask::Clone(2), Tell::Refused(Refusal::CountFull)),
    (Ask::FromRaw(Kind::Value, 9), Tell::Refused(Refusal::Gone)),
    (
        Ask::FromRaw(Kind::ValueRef, 9),
        Tell::Refused(Refusal::Gone),
    ),
    (Ask::Count(1), Tell::Count(Some(1))),
    (Ask::Len(Which::Values), Tell::Number(2)),
    (Ask::NewGc("y"), Tell::MadeAgain(3, Which::Values, "y")),
];

#[test]
fn collected_values_are_refused(rt: HostRuntime) {
    let alloc = rt.alloc();
    small_tells(&rt, alloc, &COLLECTED_VALUES_ARE_REFUSED);
}

const SLICES_ARE_REFUSED: [Row; 11] = [
    (Ask::FromHeaderAndSlice("x", &[1]), Tell::Made(0)),
    (Ask::FromHeaderAndSlice("y", &[1]), Tell::Made(1)),
    (
        Ask::FromHeaderAndSlice("z", &[1]),
        Tell::GivenBack(Refusal::NumbersUsedUp, Which::Slices, "z"),
    ),
    (Ask::Len(Which::Slices), Tell::Number(2)),
    (Ask::ToOwned(0), Tell::Made(2)),
    (Ask::ToOwned(0), Tell::Refused(Refusal::CountFull)),
    (Ask::Count(0), Tell::Count(Some(1))),
    (Ask::Clone(2), Tell::Refused(Refusal::CountFull)),
    (Ask::Count(2), Tell::Count(Some(1))),
    (Ask::Count(1), Tell::Count(Some(0))),
    (
        Ask::FromHeaderAndSlice("y", &[1]),
        Tell::MadeAgain(3, Which::Slices, "y"),
    ),
];

#[test]
fn slices_are_refused(rt: HostRuntime) {
    let alloc = rt.alloc();
    small_tells(&rt, alloc, &SLICES_ARE_REFUSED);
}

const TEXTS_ARE_REFUSED: [Row; 14] = [
    (Ask::Intern("hello"), Tell::Made(0)),
    (Ask::Intern("hello"), Tell::Refused(Refusal::CountFull)),
    (Ask::Count(0), Tell::Count(Some(1))),
    (Ask::Clone(0), Tell::Refused(Refusal::CountFull)),
    (Ask::IntegerGet(256), Tell::Made(1)),
    (Ask::IntegerGet(256), Tell::Refused(Refusal::CountFull)),
    (Ask::Count(1), Tell::Count(Some(1))),
    (Ask::Clone(1), Tell::Refused(Refusal::CountFull)),
    (Ask::Intern("world"), Tell::Refused(Refusal::NumbersUsedUp)),
    (Ask::IntegerGet(257), Tell::Refused(Refusal::NumbersUsedUp)),
    (Ask::Len(Which::Symbols), Tell::Number(2)),
    (Ask::IntegerGet(255), Tell::Made(2)),
    (Ask::Clone(2), Tell::Made(3)),
    (Ask::Len(Which::Symbols), Tell::Number(2)),
];

#[test]
fn texts_are_refused(rt: HostRuntime) {
    let alloc = rt.alloc();
    small_tells(&rt, alloc, &TEXTS_ARE_REFUSED);
}

const GENERATED_NAMES_ARE_REFUSED: [Row; 10] = [
    (Ask::GeneratedGet(256), Tell::Made(0)),
    (Ask::GeneratedGet(256), Tell::Refused(Refusal::CountFull)),
    (Ask::Count(0), Tell::Count(Some(1))),
    (Ask::IntegerGet(256), Tell::Made(1)),
    (
        Ask::GeneratedGet(257),
        Tell::Refused(Refusal::NumbersUsedUp),
    ),
    (Ask::Len(Which::Symbols), Tell::Number(2)),
    (Ask::Intern("hello"), Tell::Refused(Refusal::NumbersUsedUp)),
    (Ask::GeneratedGet(256), Tell::Refused(Refusal::CountFull)),
    (Ask::GeneratedGet(255), Tell::Made(2)),
    (Ask::Len(Which::Symbols), Tell::Number(2)),
];

#[test]
fn generated_names_are_refused(rt: HostRuntime) {
    let alloc = rt.alloc();
    small_tells(&rt, alloc, &GENERATED_NAMES_ARE_REFUSED);
}
