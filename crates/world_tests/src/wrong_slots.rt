//! Each call that takes a slot, on each kind of slots.
use crate::rows::{Ask, Row, Tell, call_of, tells};
use crate::worlds::{Texts, drop_world, new_world, reply_to};
use intern_world::{Call, Reply, Slot, Which};
use std::alloc::Global;
use std::process::Abort;

// The slots of `eight_slots`, by what they hold, and the number of none.
const EMPTY: usize = 0;

const COUNTED: usize = 1;

const COUNTED_REF: usize = 2;

const VALUE_REF: usize = 3;

const VALUE: usize = 4;

const SLICE_REF: usize = 5;

const SLICE: usize = 6;

const SYMBOL: usize = 7;

const NONE: usize = 8;

/// A call that takes a slot.
#[derive(Clone, Copy, Debug)]
enum Taking {
    AsRef,
    Clone,
    ToOwned,
    Release,
    Decrement,
    AsRaw,
    ReadsCounted,
    ReadsValue,
    ReadsSlice,
    ReadsText,
    Count,
    AsUint,
}

/// The calls, each with the slots of eight that it takes.
const TAKEN: [(Taking, &[usize]); 12] = [
    (Taking::AsRef, &[COUNTED, VALUE, SLICE]),
    (Taking::Clone, &[COUNTED, VALUE, SLICE, SYMBOL]),
    (Taking::ToOwned, &[COUNTED_REF, VALUE_REF, SLICE_REF]),
    (Taking::Release, &[COUNTED, VALUE, SLICE, SYMBOL]),
    (
        Taking::Decrement,
        &[COUNTED_REF, VALUE_REF, SLICE_REF, SYMBOL],
    ),
    (Taking::AsRaw, &[COUNTED_REF, VALUE_REF]),
    (Taking::ReadsCounted, &[COUNTED, COUNTED_REF]),
    (Taking::ReadsValue, &[VALUE, VALUE_REF]),
    (Taking::ReadsSlice, &[SLICE, SLICE_REF]),
    (Taking::ReadsText, &[SYMBOL]),
    (
        Taking::Count,
        &[
            COUNTED,
            COUNTED_REF,
            VALUE_REF,
            VALUE,
            SLICE_REF,
            SLICE,
            SYMBOL,
        ],
    ),
    (Taking::AsUint, &[SYMBOL]),
];

#[test]
fn calls_that_take_a_slot(rt: HostRuntime) {
    let alloc = rt.alloc();
    for (call, slots) in TAKEN {
        takes(&rt, alloc, call, slots);
    }
}

#[test]
fn calls_on_several_slots(rt: HostRuntime) {
    let alloc = rt.alloc();
    two_slots_are_compared_where_they_are_of_one_kind(&rt, alloc);
    collections_begin_at_what_is_collected(&rt, alloc);
}

fn two_slots_are_compared_where_they_are_of_one_kind(rt: &impl Abort, alloc: Global) {
    let mut world = eight_slots(rt, alloc);
    for n in EMPTY..=NONE {
        for m in EMPTY..=NONE {
            compares(rt, alloc, &mut world, (n, m));
        }
    }
    is_as_made(rt, alloc, &mut world);
    drop_world(world);
}

/// A slot that holds a handle is as itself, and can be compared with no other of eight.
fn compares(rt: &impl Abort, alloc: Global, world: &mut Texts, (n, m): (usize, usize)) {
    let is_one = n == m && n != EMPTY && n != NONE;
    let reply = reply_to(rt, alloc, world, Call::Same(n, m));
    let is_told = match &reply {
        Reply::Truth(true) => is_one,
        Reply::WrongSlot => !is_one,
        _ => false,
    };
    assert!(rt; is_told, "{n} and {m}");
}

fn collections_begin_at_what_is_collected(rt: &impl Abort, alloc: Global) {
    let mut world = eight_slots(rt, alloc);
    for slot in EMPTY..=NONE {
        let is_root = [VALUE, VALUE_REF, SLICE, SLICE_REF].contains(&slot);
        let reply = world.collect_keeping(&[VALUE, slot]);
        assert_eq!(rt; !matches!(&reply, Reply::WrongSlot), is_root, "slot {slot}");
    }
    is_as_made(rt, alloc, &mut world);
    drop_world(world);
}

/// The call takes these slots of eight, and on any other changes nothing.
fn takes(rt: &impl Abort, alloc: Global, call: Taking, slots: &[usize]) {
    for slot in EMPTY..=NONE {
        let is_taken = does_take(rt, alloc, call, slot);
        assert_eq!(rt; is_taken, slots.contains(&slot), "{call:?} on slot {slot}");
    }
}

/// Whether the call takes this slot of eight. Where it doesn't, it changes nothing.
fn does_take(rt: &impl Abort, alloc: Global, call: Taking, slot: usize) -> bool {
    let mut world = eight_slots(rt, alloc);
    let reply = reply_to(
        rt,
        alloc,
        &mut world,
        call_of(rt, alloc, &ask_on(call, slot)),
    );
    let is_wrong = matches!(&reply, Reply::WrongSlot);
    if is_wrong {
        is_as_made(rt, alloc, &mut world);
    }
    drop_world(world);
    !is_wrong
}

/// The call on a slot.
fn ask_on(call: Taking, slot: usize) -> Ask<&'static str> {
    match call {
        Taking::AsRef => Ask::AsRef(slot),
        Taking::Clone => Ask::Clone(slot),
        Taking::ToOwned => Ask::ToOwned(slot),
        Taking::Release => Ask::Release(slot),
        Taking::Decrement => Ask::Decrement(slot),
        Taking::AsRaw => Ask::AsRaw(slot),
        Taking::ReadsCounted => Ask::ReadsCounted(slot, "x"),
        Taking::ReadsValue => Ask::ReadsValue(slot, "x"),
        Taking::ReadsSlice => Ask::ReadsSlice(slot, "x", &[1]),
        Taking::ReadsText => Ask::ReadsText(slot, "x"),
        Taking::Count => Ask::Count(slot),
        Taking::AsUint => Ask::AsUint(slot),
    }
}

const EIGHT_SLOTS: [Row; 8] = [
    (Ask::PutEmpty, Tell::Made(EMPTY)),
    (Ask::New("x"), Tell::Made(COUNTED)),
    (Ask::AsRef(COUNTED), Tell::Made(COUNTED_REF)),
    (Ask::NewGc("x"), Tell::Made(VALUE_REF)),
    (Ask::ToOwned(VALUE_REF), Tell::Made(VALUE)),
    (Ask::FromHeaderAndSlice("x", &[1]), Tell::Made(SLICE_REF)),
    (Ask::ToOwned(SLICE_REF), Tell::Made(SLICE)),
    (Ask::Intern("x"), Tell::Made(SYMBOL)),
];

/// A world with a slot of each kind, where each part has an entry, counted once.
fn eight_slots(rt: &impl Abort, alloc: Global) -> Texts {
    let mut world = new_world(alloc);
    tells(rt, alloc, &mut world, &EIGHT_SLOTS);
    world
}

/// The world is as `eight_slots` makes it.
fn is_as_made(rt: &impl Abort, alloc: Global, world: &mut Texts) {
    for which in [Which::Counted, Which::Values, Which::Slices, Which::Symbols] {
        let len = reply_to(rt, alloc, world, Call::Len(which));
        assert!(rt; matches!(&len, Reply::Number(1)), "{which:?}");
    }
    for slot in COUNTED..=SYMBOL {
        let count = reply_to(rt, alloc, world, Call::Count(slot));
        assert!(rt; matches!(&count, Reply::Count(Some(1))), "slot {slot}");
    }
    assert!(rt; matches!(&world.slot(EMPTY), Some(Slot::Empty)));
    assert!(rt; world.slot(NONE).is_none());
}
