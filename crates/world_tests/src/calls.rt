//! Each call, where it succeeds.
use crate::rows::{Ask, Row, Tell, tells_anew};
use intern_world::{Kind, Which};

const COUNTED_VALUES_ARE_MADE: [Row; 11] = [
    (Ask::New("x"), Tell::Made(0)),
    (Ask::New("x"), Tell::MadeAgain(1, Which::Counted, "x")),
    (Ask::AsRef(0), Tell::Made(2)),
    (Ask::Clone(0), Tell::Made(3)),
    (Ask::ToOwned(2), Tell::Made(4)),
    (Ask::FromRaw(Kind::CountedRef, 0), Tell::Made(5)),
    (Ask::FromRaw(Kind::Counted, 0), Tell::Made(6)),
    (Ask::Same(0, 6), Tell::Truth(true)),
    (Ask::Same(2, 5), Tell::Truth(true)),
    (Ask::Count(6), Tell::Count(Some(4))),
    (Ask::Len(Which::Counted), Tell::Number(1)),
];

#[test]
fn counted_values_are_made(rt: HostRuntime) {
    let alloc = rt.alloc();
    tells_anew(&rt, alloc, &COUNTED_VALUES_ARE_MADE);
}

const COUNTED_VALUES_ARE_READ_AND_RELEASED: [Row; 11] = [
    (Ask::New("x"), Tell::Made(0)),
    (Ask::AsRef(0), Tell::Made(1)),
    (Ask::Clone(0), Tell::Made(2)),
    (Ask::ReadsCounted(0, "x"), Tell::Read(Some(true))),
    (Ask::ReadsCounted(1, "y"), Tell::Read(Some(false))),
    (Ask::AsRaw(1), Tell::Number(0)),
    (Ask::Decrement(1), Tell::Done),
    (Ask::Count(0), Tell::Count(Some(1))),
    (Ask::Release(0), Tell::Freed(Which::Counted, "x")),
    (Ask::Count(1), Tell::Count(None)),
    (Ask::Len(Which::Counted), Tell::Number(0)),
];

#[test]
fn counted_values_are_read_and_released(rt: HostRuntime) {
    let alloc = rt.alloc();
    tells_anew(&rt, alloc, &COUNTED_VALUES_ARE_READ_AND_RELEASED);
}

const COLLECTED_VALUES_ARE_MADE: [Row; 11] = [
    (Ask::NewGc("x"), Tell::Made(0)),
    (Ask::NewGc("x"), Tell::MadeAgain(1, Which::Values, "x")),
    (Ask::ToOwned(0), Tell::Made(2)),
    (Ask::AsRef(2), Tell::Made(3)),
    (Ask::Clone(2), Tell::Made(4)),
    (Ask::FromRaw(Kind::ValueRef, 0), Tell::Made(5)),
    (Ask::FromRaw(Kind::Value, 0), Tell::Made(6)),
    (Ask::Same(2, 6), Tell::Truth(true)),
    (Ask::Same(0, 5), Tell::Truth(true)),
    (Ask::Count(0), Tell::Count(Some(2))),
    (Ask::Len(Which::Values), Tell::Number(1)),
];

#[test]
fn collected_values_are_made(rt: HostRuntime) {
    let alloc = rt.alloc();
    tells_anew(&rt, alloc, &COLLECTED_VALUES_ARE_MADE);
}

const COLLECTED_VALUES_ARE_READ_AND_RELEASED: [Row; 12] = [
    (Ask::NewGc("x"), Tell::Made(0)),
    (Ask::ToOwned(0), Tell::Made(1)),
    (Ask::Clone(1), Tell::Made(2)),
    (Ask::ReadsValue(0, "x"), Tell::Read(Some(true))),
    (Ask::ReadsValue(1, "y"), Tell::Read(Some(false))),
    (Ask::AsRaw(0), Tell::Number(0)),
    (Ask::Decrement(0), Tell::Done),
    (Ask::Count(1), Tell::Count(Some(1))),
    (Ask::Release(1), Tell::Done),
    (Ask::Count(0), Tell::Count(Some(0))),
    (Ask::Collect, Tell::Collected(0, 0, 1)),
    (Ask::Len(Which::Values), Tell::Number(0)),
];

#[test]
fn collected_values_are_read_and_released(rt: HostRuntime) {
    let alloc = rt.alloc();
    tells_anew(&rt, alloc, &COLLECTED_VALUES_ARE_READ_AND_RELEASED);
}

const SLICES_ARE_MADE: [Row; 9] = [
    (Ask::FromHeaderAndSlice("x", &[1]), Tell::Made(0)),
    (
        Ask::FromHeaderAndSlice("x", &[1]),
        Tell::MadeAgain(1, Which::Slices, "x"),
    ),
    (Ask::ToOwned(0), Tell::Made(2)),
    (Ask::AsRef(2), Tell::Made(3)),
    (Ask::Clone(2), Tell::Made(4)),
    (Ask::Same(2, 4), Tell::Truth(true)),
    (Ask::Same(0, 3), Tell::Truth(true)),
    (Ask::Count(0), Tell::Count(Some(2))),
    (Ask::Len(Which::Slices), Tell::Number(1)),
];

#[test]
fn slices_are_made(rt: HostRuntime) {
    let alloc = rt.alloc();
    tells_anew(&rt, alloc, &SLICES_ARE_MADE);
}

const SLICES_ARE_READ_AND_RELEASED: [Row; 12] = [
    (Ask::FromHeaderAndSlice("x", &[1]), Tell::Made(0)),
    (Ask::ToOwned(0), Tell::Made(1)),
    (Ask::Clone(1), Tell::Made(2)),
    (Ask::ReadsSlice(0, "x", &[1]), Tell::Read(Some(true))),
    (Ask::ReadsSlice(1, "y", &[1]), Tell::Read(Some(false))),
    (Ask::ReadsSlice(1, "x", &[2]), Tell::Read(Some(false))),
    (Ask::Decrement(0), Tell::Done),
    (Ask::Count(1), Tell::Count(Some(1))),
    (Ask::Release(1), Tell::Done),
    (Ask::Count(0), Tell::Count(Some(0))),
    (Ask::Collect, Tell::Collected(0, 0, 1)),
    (Ask::Len(Which::Slices), Tell::Number(0)),
];

#[test]
fn slices_are_read_and_released(rt: HostRuntime) {
    let alloc = rt.alloc();
    tells_anew(&rt, alloc, &SLICES_ARE_READ_AND_RELEASED);
}

const SYMBOLS_ARE_MADE: [Row; 13] = [
    (Ask::Intern("1000"), Tell::Made(0)),
    (Ask::IntegerGet(1000), Tell::Made(1)),
    (Ask::GeneratedGet(1000), Tell::Made(2)),
    (Ask::Intern("<ra@gennew>1000"), Tell::Made(3)),
    (Ask::Empty, Tell::Made(4)),
    (Ask::Intern(""), Tell::Made(5)),
    (Ask::PutEmpty, Tell::Made(6)),
    (Ask::Same(0, 1), Tell::Truth(true)),
    (Ask::Same(2, 3), Tell::Truth(true)),
    (Ask::Same(4, 5), Tell::Truth(true)),
    (Ask::Count(0), Tell::Count(Some(2))),
    (Ask::Count(4), Tell::Count(None)),
    (Ask::Len(Which::Symbols), Tell::Number(2)),
];

#[test]
fn symbols_are_made(rt: HostRuntime) {
    let alloc = rt.alloc();
    tells_anew(&rt, alloc, &SYMBOLS_ARE_MADE);
}

const SYMBOLS_ARE_READ_AND_RELEASED: [Row; 10] = [
    (Ask::IntegerGet(1000), Tell::Made(0)),
    (Ask::Clone(0), Tell::Made(1)),
    (Ask::ReadsText(0, "1000"), Tell::Read(Some(true))),
    (Ask::ReadsText(1, "1001"), Tell::Read(Some(false))),
    (Ask::AsUint(1), Tell::Uint(Some(1000))),
    (Ask::Decrement(1), Tell::Done),
    (Ask::Count(0), Tell::Count(Some(1))),
    (Ask::Release(0), Tell::Done),
    (Ask::AsUint(1), Tell::Uint(None)),
    (Ask::Len(Which::Symbols), Tell::Number(0)),
];

#[test]
fn symbols_are_read_and_released(rt: HostRuntime) {
    let alloc = rt.alloc();
    tells_anew(&rt, alloc, &SYMBOLS_ARE_READ_AND_RELEASED);
}
