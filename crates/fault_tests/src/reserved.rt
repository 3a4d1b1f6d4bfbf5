//! Room that is made in front, also once slots were used again: with it, interning takes no memory.
ghost use Rattle.std.specs.Prelude.{true};

use crate::fault::{Fault, ensure};
use crate::marks;
use crate::scene::room;
use crate::values::text_of;
use intern_fixtures::Unhashed;
use ra_ap_intern::{
    FixedState, InternSliceStorage, InternStorage, Internable, Interned, Kind, Layout,
    NearSliceStorage, Refused, SliceInternable, Storage, Symbol, SymbolTable, Text,
};
use std::alloc::Global;

/// For how many entries room is made.
const ENTRIES: usize = 150;

/// How many items each slice has.
const ITEMS: usize = 3;

/// The calls that make room.
const VALUES: &str = "Storage::reserve, of values";

const COLLECTED: &str = "Storage::reserve, of collected values";

const SLICES: &str = "Storage::reserve, of slices";

const ALL_ITEMS: &str = "Reserved::reserve_items";

const NEAR_SLICES: &str = "Storage::reserve, of near slices";

const TEXT_VALUES: &str = "Storage::reserve, of texts";

const TEXTS: &str = "SymbolTable::reserve";

/// A number, collected.
#[derive(Clone, Copy, PartialEq, Eq, Hash)]
struct Kept(u64);

impl Internable for Kept {
    const USE_GC: bool = true;

    ghost USE_GC = { true };
}

/// A number before others.
struct Row;

impl SliceInternable for Row {
    type Header = u64;

    type SliceType = u64;

    const USE_GC: bool = true;

    ghost USE_GC = { true };
}

/// Checks the calls that make room, and those that take it.
pub(crate) fn check_reserved(rt: &(impl Print + Eprint), alloc: Global) -> Result<(), Fault> {
    fresh_values(rt, alloc)?;
    used_values(rt, alloc)?;
    collected_values(rt, alloc)?;
    slices(rt, alloc)?;
    near_slices(rt, alloc)?;
    text_values(rt, alloc)?;
    texts(rt, alloc)
}

// Each storage is made in a function of its own, so that none is dropped at another's `?`.
fn fresh_values(rt: &(impl Print + Eprint), alloc: Global) -> Result<(), Fault> {
    reserve_values(rt, &mut InternStorage::new(alloc, 1))
}

fn used_values(rt: &(impl Print + Eprint), alloc: Global) -> Result<(), Fault> {
    reserve_used(rt, &mut InternStorage::new(alloc, 1))
}

fn collected_values(rt: &(impl Print + Eprint), alloc: Global) -> Result<(), Fault> {
    reserve_collected(rt, &mut InternStorage::new(alloc, 1))
}

fn slices(rt: &(impl Print + Eprint), alloc: Global) -> Result<(), Fault> {
    reserve_slices(rt, &mut InternSliceStorage::new(alloc, 1))
}

fn near_slices(rt: &(impl Print + Eprint), alloc: Global) -> Result<(), Fault> {
    reserve_near_slices(rt, &mut NearSliceStorage::new(alloc, 1))
}

fn text_values(rt: &(impl Print + Eprint), alloc: Global) -> Result<(), Fault> {
    reserve_text_values(rt, alloc, &mut InternStorage::new(alloc, 1))
}

fn texts(rt: &(impl Print + Eprint), alloc: Global) -> Result<(), Fault> {
    reserve_texts(rt, alloc, &mut SymbolTable::new(alloc, 1))
}

fn reserve_used(
    rt: &(impl Print + Eprint),
    storage: &mut InternStorage<Unhashed>,
) -> Result<(), Fault> {
    marks::prepares(rt);
    use_a_slot_again(storage)?;
    reserve_values(rt, storage)
}

// Stores two values, of which the first goes, and a third in its slot.
fn use_a_slot_again(storage: &mut InternStorage<Unhashed>) -> Result<(), Fault> {
    let first = store(storage, Unhashed(1))?;
    let _ = store(storage, Unhashed(2))?;
    first.release(storage)?;
    let _ = store(storage, Unhashed(3))?;
    Ok(())
}

// At the second try where the first is refused.
fn store(
    storage: &mut InternStorage<Unhashed>,
    value: Unhashed,
) -> Result<Interned<Unhashed>, Fault> {
    let (handle, _) = match Interned::new(storage, value) {
        Ok(stored) => stored,
        Err(Refused { why: _, back }) => Interned::new(storage, back)?,
    };
    Ok(handle)
}

// Makes room in a storage. Where that is refused, all is as it was, and it is made at the second
// try.
fn reserve<K: Kind<FixedState>>(
    rt: &impl Eprint,
    storage: &mut Storage<K>,
    call: &'static str,
) -> Result<(), Fault> {
    let len = storage.len();
    marks::asks(rt, call);
    if storage.reserve(ENTRIES).is_err() {
        marks::refused(rt, call);
        ensure(
            storage.len() == len,
            "an entry came or went where no room was made",
        )?;
        storage.reserve(ENTRIES)?;
    }
    Ok(())
}

// Checks that there are so many entries now, and tells it.
fn has_entries(
    rt: &impl Print,
    call: &'static str,
    len: usize,
    wanted: usize,
) -> Result<(), Fault> {
    ensure(
        len == wanted,
        "what there was room for isn't stored, or more is",
    )?;
    println!(rt; "{call}: {len}")?;
    Ok(())
}

// All values have one hash, so each takes a bucket behind those before.
fn reserve_values(
    rt: &(impl Print + Eprint),
    storage: &mut InternStorage<Unhashed>,
) -> Result<(), Fault> {
    let len = storage.len();
    reserve(rt, storage, VALUES)?;
    marks::takes_none(rt, "Reserved::intern, of values");
    let room = storage.reserve(ENTRIES)?;
    for number in 0..ENTRIES {
        room.intern(Unhashed(number as u64 + 100))?;
    }
    has_entries(rt, VALUES, storage.len(), len.saturating_add(ENTRIES))
}

fn reserve_collected(
    rt: &(impl Print + Eprint),
    storage: &mut InternStorage<Kept>,
) -> Result<(), Fault> {
    reserve(rt, storage, COLLECTED)?;
    marks::takes_none(rt, "Reserved::intern_gc");
    let room = storage.reserve(ENTRIES)?;
    for number in 0..ENTRIES as u64 {
        room.intern_gc(Kept(number))?;
    }
    has_entries(rt, COLLECTED, storage.len(), ENTRIES)
}

fn reserve_slices(
    rt: &(impl Print + Eprint),
    storage: &mut InternSliceStorage<Row>,
) -> Result<(), Fault> {
    reserve(rt, storage, SLICES)?;
    marks::asks(rt, ALL_ITEMS);
    let room = storage.reserve(ENTRIES)?;
    if room.reserve_items(ENTRIES * ITEMS).is_err() {
        marks::refused(rt, ALL_ITEMS);
        room.reserve_items(ENTRIES * ITEMS)?;
    }
    marks::takes_none(rt, "Reserved::intern, of slices");
    store_slices(storage)?;
    has_entries(rt, SLICES, storage.len(), ENTRIES)?;
    println!(rt; "{ALL_ITEMS}: {}", ENTRIES * ITEMS)?;
    Ok(())
}

// Items that lie in their entries want no room beside these.
fn reserve_near_slices(
    rt: &(impl Print + Eprint),
    storage: &mut NearSliceStorage<Row, ITEMS>,
) -> Result<(), Fault> {
    reserve(rt, storage, NEAR_SLICES)?;
    marks::takes_none(rt, "Reserved::intern, of near slices");
    store_slices(storage)?;
    has_entries(rt, NEAR_SLICES, storage.len(), ENTRIES)
}

// Stores slices in the room that was made.
fn store_slices<L: Layout<u64>>(
    storage: &mut InternSliceStorage<Row, FixedState, L>,
) -> Result<(), Fault> {
    let room = storage.reserve(ENTRIES)?;
    for number in 0..ENTRIES as u64 {
        room.intern(number, &[number; ITEMS])?;
    }
    Ok(())
}

fn reserve_text_values(
    rt: &(impl Print + Eprint),
    alloc: Global,
    storage: &mut InternStorage<Text>,
) -> Result<(), Fault> {
    marks::prepares(rt);
    let texts = short_texts(alloc)?;
    reserve(rt, storage, TEXT_VALUES)?;
    marks::takes_none(rt, "Reserved::intern_text");
    let room = storage.reserve(ENTRIES)?;
    for text in texts.iter() {
        room.intern_text(text.as_str())?;
    }
    has_entries(rt, TEXT_VALUES, storage.len(), ENTRIES)
}

fn reserve_texts(
    rt: &(impl Print + Eprint),
    alloc: Global,
    table: &mut SymbolTable,
) -> Result<(), Fault> {
    marks::prepares(rt);
    let texts = short_texts(alloc)?;
    marks::asks(rt, TEXTS);
    if table.reserve(ENTRIES).is_err() {
        marks::refused(rt, TEXTS);
        table.reserve(ENTRIES)?;
    }
    marks::takes_none(rt, "ReservedTexts::intern");
    let room = table.reserve(ENTRIES)?;
    for text in texts.iter() {
        let _: Symbol = room.intern(text.as_str())?;
    }
    has_entries(rt, TEXTS, table.len(), ENTRIES)
}

// Texts that lie in their entries.
fn short_texts(alloc: Global) -> Result<Vec<Text>, Fault> {
    let mut texts = room(alloc, ENTRIES)?;
    for number in 0..ENTRIES as u64 {
        let text = match text_of(alloc, number * 2) {
            Ok(text) => text,
            Err(_) => text_of(alloc, number * 2)?,
        };
        texts.push(text)?;
    }
    Ok(texts)
}
