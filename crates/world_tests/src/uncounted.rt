//! Handles of entries without a count: what would lower one, or take one over, is refused, and the
//! run goes on. After each refusal a call shows that nothing has changed.
use crate::rows::{Ask, Row, Tell, tells_anew};
use intern_world::{Kind, Which};
use ra_ap_intern::Refusal;

const A_COUNTED_VALUE: [Row; 12] = [
    (Ask::New("x"), Tell::Made(0)),
    (Ask::AsRef(0), Tell::Made(1)),
    (Ask::Decrement(1), Tell::Done),
    (Ask::Decrement(1), Tell::Refused(Refusal::CountZero)),
    (Ask::Count(1), Tell::Count(Some(0))),
    (Ask::Release(0), Tell::Refused(Refusal::CountZero)),
    (Ask::ReadsCounted(0, "x"), Tell::Read(Some(true))),
    (
        Ask::FromRaw(Kind::Counted, 0),
        Tell::Refused(Refusal::CountZero),
    ),
    (Ask::Len(Which::Counted), Tell::Number(1)),
    (Ask::ToOwned(1), Tell::Made(2)),
    (Ask::Count(0), Tell::Count(Some(1))),
    (Ask::Release(0), Tell::Freed(Which::Counted, "x")),
];

#[test]
fn a_counted_value(rt: HostRuntime) {
    let alloc = rt.alloc();
    tells_anew(&rt, alloc, &A_COUNTED_VALUE);
}

const A_COLLECTED_VALUE: [Row; 12] = [
    (Ask::NewGc("x"), Tell::Made(0)),
    (Ask::ToOwned(0), Tell::Made(1)),
    (Ask::Decrement(0), Tell::Done),
    (Ask::Decrement(0), Tell::Refused(Refusal::CountZero)),
    (Ask::Count(0), Tell::Count(Some(0))),
    (Ask::Release(1), Tell::Refused(Refusal::CountZero)),
    (Ask::ReadsValue(1, "x"), Tell::Read(Some(true))),
    (
        Ask::FromRaw(Kind::Value, 0),
        Tell::Refused(Refusal::CountZero),
    ),
    (Ask::Len(Which::Values), Tell::Number(1)),
    (Ask::ToOwned(0), Tell::Made(2)),
    (Ask::Count(0), Tell::Count(Some(1))),
    (Ask::Release(1), Tell::Done),
];

#[test]
fn a_collected_value(rt: HostRuntime) {
    let alloc = rt.alloc();
    tells_anew(&rt, alloc, &A_COLLECTED_VALUE);
}

const A_SLICE: [Row; 11] = [
    (Ask::FromHeaderAndSlice("x", &[1]), Tell::Made(0)),
    (Ask::ToOwned(0), Tell::Made(1)),
    (Ask::Decrement(0), Tell::Done),
    (Ask::Decrement(0), Tell::Refused(Refusal::CountZero)),
    (Ask::Count(0), Tell::Count(Some(0))),
    (Ask::Release(1), Tell::Refused(Refusal::CountZero)),
    (Ask::ReadsSlice(1, "x", &[1]), Tell::Read(Some(true))),
    (Ask::Len(Which::Slices), Tell::Number(1)),
    (Ask::ToOwned(0), Tell::Made(2)),
    (Ask::Count(0), Tell::Count(Some(1))),
    (Ask::Release(1), Tell::Done),
];

#[test]
fn a_slice(rt: HostRuntime) {
    let alloc = rt.alloc();
    tells_anew(&rt, alloc, &A_SLICE);
}
