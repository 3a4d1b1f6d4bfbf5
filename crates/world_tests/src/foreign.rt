//! Handles that are put into slots, of other storages and tables than the world's.
use crate::rows::{Ask, Row, Tell, tells};
use crate::worlds::{
    NUMBERS, Texts, collected, drop_world, is_told, new_world, reply_to, text, value, word,
};
use intern_fixtures::{
    GcString, StringSlice, Word, allowed, drop_slices, drop_values, new_slices, new_values,
};
use intern_world::{Back, Call, Reply, Slot, Which};
use ra_ap_intern::{
    InternSliceStorage, InternStorage, Interned, InternedSlice, InternedSliceRef, Refusal, Symbol,
    SymbolTable,
};
use std::alloc::Global;
use std::process::Abort;

/// The number of no part of a world.
const OTHER: u64 = 5;

const A_COUNTED_VALUE: [Row; 11] = [
    (Ask::New("x"), Tell::Made(1)),
    (Ask::Same(0, 1), Tell::Truth(false)),
    (Ask::ReadsCounted(0, "x"), Tell::Read(None)),
    (Ask::Count(0), Tell::Count(None)),
    (Ask::Clone(0), Tell::Refused(Refusal::Foreign)),
    (Ask::AsRef(0), Tell::Made(2)),
    (Ask::ToOwned(2), Tell::Refused(Refusal::Foreign)),
    (Ask::Decrement(2), Tell::Refused(Refusal::Foreign)),
    (Ask::Release(0), Tell::Refused(Refusal::Foreign)),
    (Ask::Count(0), Tell::Count(None)),
    (Ask::Count(1), Tell::Count(Some(1))),
];

#[test]
fn a_counted_value_of_another_storage(rt: HostRuntime) {
    let alloc = rt.alloc();
    let mut world = new_world(alloc);
    let mut other: InternStorage<Word> = new_values(alloc, OTHER);
    let handle = counted(&rt, alloc, &mut other, "x");
    puts(&rt, alloc, &mut world, Slot::Counted(handle));
    tells(&rt, alloc, &mut world, &A_COUNTED_VALUE);
    drop_world(world);
    drop_values(other);
}

const A_COLLECTED_VALUE: [Row; 9] = [
    (Ask::NewGc("x"), Tell::Made(2)),
    (Ask::ReadsValue(0, "x"), Tell::Read(None)),
    (Ask::Count(1), Tell::Count(None)),
    (Ask::ToOwned(0), Tell::Refused(Refusal::Foreign)),
    (Ask::Decrement(0), Tell::Refused(Refusal::Foreign)),
    (Ask::Clone(1), Tell::Refused(Refusal::Foreign)),
    (Ask::Release(1), Tell::Refused(Refusal::Foreign)),
    (Ask::ReadsValue(1, "x"), Tell::Read(None)),
    (Ask::Count(2), Tell::Count(Some(0))),
];

#[test]
fn a_collected_value_of_another_storage(rt: HostRuntime) {
    let alloc = rt.alloc();
    let mut world = new_world(alloc);
    let mut other: InternStorage<GcString> = new_values(alloc, OTHER);
    let made = allowed(Interned::new_gc(&mut other, value(&rt, alloc, "x")));
    let (reference, _) = made.expect(&rt, "interned");
    let owned = reference.to_owned(&mut other).expect(&rt, "owned");
    puts(&rt, alloc, &mut world, Slot::ValueRef(reference));
    puts(&rt, alloc, &mut world, Slot::Value(owned));
    tells(&rt, alloc, &mut world, &A_COLLECTED_VALUE);
    nothing_is_kept(&rt, &mut world);
    drop_world(world);
    drop_values(other);
}

/// Of the collected values, slots 0 and 1 have handles of another storage, and slot 2 that of the
/// world's only one, which nothing counts.
fn nothing_is_kept(rt: &impl Abort, world: &mut Texts) {
    is_told(rt, &world.collect_keeping(&[0, 1]), &collected(0, 0, 1));
    is_told(rt, &world.collect_keeping(&[2]), &collected(0, 0, 0));
}

const A_SLICE: [Row; 7] = [
    (Ask::ReadsSlice(0, "x", &[1]), Tell::Read(None)),
    (Ask::ToOwned(0), Tell::Refused(Refusal::Foreign)),
    (Ask::Decrement(0), Tell::Refused(Refusal::Foreign)),
    (Ask::Clone(1), Tell::Refused(Refusal::Foreign)),
    (Ask::Release(1), Tell::Refused(Refusal::Foreign)),
    (Ask::Count(1), Tell::Count(None)),
    (Ask::Len(Which::Slices), Tell::Number(0)),
];

#[test]
fn a_slice_of_another_storage(rt: HostRuntime) {
    let alloc = rt.alloc();
    let mut world = new_world(alloc);
    let mut other: InternSliceStorage<StringSlice> = new_slices(alloc, OTHER);
    let reference = slice(&rt, alloc, &mut other);
    let owned = reference.to_owned(&mut other).expect(&rt, "owned");
    puts(&rt, alloc, &mut world, Slot::SliceRef(reference));
    puts(&rt, alloc, &mut world, Slot::Slice(owned));
    tells(&rt, alloc, &mut world, &A_SLICE);
    drop_world(world);
    drop_slices(other);
}

const A_SYMBOL: [Row; 10] = [
    (Ask::Intern("hello"), Tell::Made(2)),
    (Ask::Same(0, 2), Tell::Truth(false)),
    (Ask::ReadsText(0, "hello"), Tell::Read(None)),
    (Ask::AsUint(0), Tell::Uint(None)),
    (Ask::Clone(0), Tell::Refused(Refusal::Foreign)),
    (Ask::Decrement(0), Tell::Refused(Refusal::Foreign)),
    (Ask::Release(0), Tell::Refused(Refusal::Foreign)),
    (Ask::Count(0), Tell::Count(None)),
    (Ask::AsUint(1), Tell::Uint(Some(255))),
    (Ask::Count(2), Tell::Count(Some(1))),
];

#[test]
fn a_symbol_of_another_table(rt: HostRuntime) {
    let alloc = rt.alloc();
    let mut world = new_world(alloc);
    let mut other = SymbolTable::new(alloc, OTHER);
    let symbol = Symbol::intern(&mut other, "hello").expect(&rt, "interned");
    let preset = Symbol::intern(&mut other, "255").expect(&rt, "a preset");
    puts(&rt, alloc, &mut world, Slot::Symbol(symbol));
    puts(&rt, alloc, &mut world, Slot::Symbol(preset));
    tells(&rt, alloc, &mut world, &A_SYMBOL);
    drop_world(world);
}

const A_LATER_BIRTH: [Row; 11] = [
    (Ask::ReadsCounted(0, "b"), Tell::Read(None)),
    (Ask::New("x"), Tell::Made(1)),
    (Ask::Count(0), Tell::Count(None)),
    (Ask::Clone(0), Tell::Refused(Refusal::Gone)),
    (Ask::Release(0), Tell::Refused(Refusal::Gone)),
    (Ask::New("y"), Tell::Made(2)),
    (Ask::ReadsCounted(0, "b"), Tell::Read(Some(false))),
    (Ask::ReadsCounted(0, "y"), Tell::Read(Some(true))),
    (Ask::Same(0, 2), Tell::Truth(true)),
    (Ask::Clone(0), Tell::Made(3)),
    (Ask::Count(2), Tell::Count(Some(2))),
];

#[test]
fn a_birth_that_is_given_later(rt: HostRuntime) {
    let alloc = rt.alloc();
    let mut world = new_world(alloc);
    let mut other: InternStorage<Word> = new_values(alloc, NUMBERS.counted);
    let _ = counted(&rt, alloc, &mut other, "a");
    let handle = counted(&rt, alloc, &mut other, "b");
    puts(&rt, alloc, &mut world, Slot::Counted(handle));
    tells(&rt, alloc, &mut world, &A_LATER_BIRTH);
    drop_world(world);
    drop_values(other);
}

/// Puts a handle into a new slot.
fn puts(
    rt: &impl Abort,
    alloc: Global,
    world: &mut Texts,
    slot: Slot<Word, GcString, StringSlice>,
) {
    let reply = reply_to(rt, alloc, world, Call::Put(slot));
    assert!(rt; matches!(&reply, Reply::Made(_, Back::Nothing)));
}

/// Interns a word in a storage, and gives its handle.
fn counted(
    rt: &impl Abort,
    alloc: Global,
    storage: &mut InternStorage<Word>,
    text: &str,
) -> Interned<Word> {
    let (handle, _) = allowed(Interned::new(storage, word(rt, alloc, text))).expect(rt, "made");
    handle
}

/// Interns a slice in a storage, and gives its reference.
fn slice(
    rt: &impl Abort,
    alloc: Global,
    storage: &mut InternSliceStorage<StringSlice>,
) -> InternedSliceRef<StringSlice> {
    let header = text(rt, alloc, "x");
    let made = allowed(InternedSlice::from_header_and_slice(storage, header, &[1]));
    let (reference, _) = made.expect(rt, "made");
    reference
}
