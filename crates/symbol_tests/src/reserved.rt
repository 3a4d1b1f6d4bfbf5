//! Texts that are interned in room that was made for them.
use crate::steps::{drop_table, is_equal, is_preset, is_stored, keeps, new_table};
use intern_fixtures::refusal;
use ra_ap_intern::{Refusal, ReservedTexts, Symbol};
use std::process::Abort;

/// A text that lies in its entry, and one that is longer.
const SHORT: &str = "a text of up to 24 bytes";

const LONG: &str = "a text of more than 24 bytes";

fn intern(rt: &impl Abort, room: &mut ReservedTexts, text: &str) -> Symbol {
    room.intern(text).expect(rt, "interned")
}

#[test]
fn texts_in_room(rt: HostRuntime) {
    let mut table = new_table(rt.alloc(), 1);
    let room = table.reserve(1).expect(&rt, "memory");
    let preset = intern(&rt, room, "Clone");
    let short = intern(&rt, room, SHORT);
    let again = intern(&rt, room, SHORT);
    let long = intern(&rt, room, LONG);
    is_preset(&rt, &table, &preset, "Clone");
    is_stored(&rt, &table, &short, SHORT, 2);
    is_equal(&rt, short == again, true);
    is_stored(&rt, &table, &long, LONG, 1);
    keeps(&rt, &table, 2);
    drop_table(table);
}

#[test]
fn memory_follows_texts(rt: HostRuntime) {
    let mut table = new_table(rt.alloc(), 1);
    is_equal(&rt, table.memory(), 0);
    let _ = Symbol::intern(&mut table, "Clone").expect(&rt, "a preset");
    is_equal(&rt, table.memory(), 0);
    let _ = table.reserve(100).expect(&rt, "memory");
    // A text of up to 24 bytes lies in its entry.
    assert!(rt; table.memory() >= 100 * 40 && table.memory() < 100 * 200);
    drop_table(table);
}

#[test]
fn too_much_room_is_refused(rt: HostRuntime) {
    let mut table = new_table(rt.alloc(), 1);
    let why = refusal(table.reserve(usize::MAX).map(|_| ())).expect(&rt, "refused");
    is_equal(&rt, why, Refusal::OutOfMemory);
    keeps(&rt, &table, 0);
    drop_table(table);
}
