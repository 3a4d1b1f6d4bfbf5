//! Handles of entries that are gone: what would change a count is refused, and the run goes on.
//! After each refusal a call shows that nothing has changed.
use crate::rows::{Ask, Row, Tell, tells_anew};
use intern_world::{Kind, Which};
use ra_ap_intern::Refusal;

const A_COUNTED_VALUE: [Row; 16] = [
    (Ask::New("x"), Tell::Made(0)),
    (Ask::AsRef(0), Tell::Made(1)),
    (Ask::FromRaw(Kind::Counted, 0), Tell::Made(2)),
    (Ask::Release(0), Tell::Freed(Which::Counted, "x")),
    (Ask::Clone(2), Tell::Refused(Refusal::Gone)),
    (Ask::Count(2), Tell::Count(None)),
    (Ask::Release(2), Tell::Refused(Refusal::Gone)),
    (Ask::ReadsCounted(2, "x"), Tell::Read(None)),
    (Ask::ToOwned(1), Tell::Refused(Refusal::Gone)),
    (Ask::Decrement(1), Tell::Refused(Refusal::Gone)),
    (Ask::Count(1), Tell::Count(None)),
    (Ask::FromRaw(Kind::Counted, 0), Tell::Refused(Refusal::Gone)),
    (
        Ask::FromRaw(Kind::CountedRef, 0),
        Tell::Refused(Refusal::Gone),
    ),
    (Ask::Len(Which::Counted), Tell::Number(0)),
    (Ask::New("x"), Tell::Made(3)),
    (Ask::Count(3), Tell::Count(Some(1))),
];

#[test]
fn a_counted_value(rt: HostRuntime) {
    let alloc = rt.alloc();
    tells_anew(&rt, alloc, &A_COUNTED_VALUE);
}

const A_COLLECTED_VALUE: [Row; 17] = [
    (Ask::NewGc("x"), Tell::Made(0)),
    (Ask::ToOwned(0), Tell::Made(1)),
    (Ask::Decrement(0), Tell::Done),
    (Ask::Collect, Tell::Collected(0, 0, 1)),
    (Ask::Clone(1), Tell::Refused(Refusal::Gone)),
    (Ask::Count(1), Tell::Count(None)),
    (Ask::Release(1), Tell::Refused(Refusal::Gone)),
    (Ask::ReadsValue(1, "x"), Tell::Read(None)),
    (Ask::ToOwned(0), Tell::Refused(Refusal::Gone)),
    (Ask::Decrement(0), Tell::Refused(Refusal::Gone)),
    (Ask::Count(0), Tell::Count(None)),
    (Ask::FromRaw(Kind::Value, 0), Tell::Refused(Refusal::Gone)),
    (
        Ask::FromRaw(Kind::ValueRef, 0),
        Tell::Refused(Refusal::Gone),
    ),
    (Ask::Len(Which::Values), Tell::Number(0)),
    (Ask::NewGc("x"), Tell::Made(2)),
    (Ask::AsRaw(2), Tell::Number(1)),
    (Ask::Count(2), Tell::Count(Some(0))),
];

#[test]
fn a_collected_value(rt: HostRuntime) {
    let alloc = rt.alloc();
    tells_anew(&rt, alloc, &A_COLLECTED_VALUE);
}

const A_SLICE: [Row; 14] = [
    (Ask::FromHeaderAndSlice("x", &[1]), Tell::Made(0)),
    (Ask::ToOwned(0), Tell::Made(1)),
    (Ask::Decrement(0), Tell::Done),
    (Ask::Collect, Tell::Collected(0, 0, 1)),
    (Ask::Clone(1), Tell::Refused(Refusal::Gone)),
    (Ask::Count(1), Tell::Count(None)),
    (Ask::Release(1), Tell::Refused(Refusal::Gone)),
    (Ask::ReadsSlice(1, "x", &[1]), Tell::Read(None)),
    (Ask::ToOwned(0), Tell::Refused(Refusal::Gone)),
    (Ask::Decrement(0), Tell::Refused(Refusal::Gone)),
    (Ask::Len(Which::Slices), Tell::Number(0)),
    (Ask::FromHeaderAndSlice("x", &[1]), Tell::Made(2)),
    (Ask::Same(0, 2), Tell::Truth(false)),
    (Ask::Count(2), Tell::Count(Some(0))),
];

#[test]
fn a_slice(rt: HostRuntime) {
    let alloc = rt.alloc();
    tells_anew(&rt, alloc, &A_SLICE);
}

const A_SYMBOL: [Row; 13] = [
    (Ask::Intern("hello"), Tell::Made(0)),
    (Ask::Clone(0), Tell::Made(1)),
    (Ask::Release(0), Tell::Done),
    (Ask::Decrement(1), Tell::Done),
    (Ask::Clone(1), Tell::Refused(Refusal::Gone)),
    (Ask::Count(1), Tell::Count(None)),
    (Ask::Decrement(1), Tell::Refused(Refusal::Gone)),
    (Ask::Len(Which::Symbols), Tell::Number(0)),
    (Ask::Release(1), Tell::Refused(Refusal::Gone)),
    (Ask::ReadsText(1, "hello"), Tell::Read(None)),
    (Ask::Intern("hello"), Tell::Made(2)),
    (Ask::Same(1, 2), Tell::Truth(false)),
    (Ask::Count(2), Tell::Count(Some(1))),
];

#[test]
fn a_symbol(rt: HostRuntime) {
    let alloc = rt.alloc();
    tells_anew(&rt, alloc, &A_SYMBOL);
}
