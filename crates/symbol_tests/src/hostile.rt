//! Symbols of another table, and the order of refusals.
use crate::steps::{
    clone, drop_table, free, generated, integer, intern_new, is_stored, keeps, limited_table,
    new_table, no_generated, no_integer, not_cloned, not_decreased, not_interned, not_owned,
    not_released, reads_nothing, release, writes,
};
use ra_ap_intern::{Limits, Refusal, Symbol, SymbolTable};
use std::process::Abort;

#[test]
fn a_symbol_of_another_table_reads_nothing(rt: HostRuntime) {
    let alloc = rt.alloc();
    let mut first = new_table(alloc, 1);
    let mut second = new_table(alloc, 2);
    let s = intern_new(&rt, &mut first, "300", 1);
    let other = intern_new(&rt, &mut second, "300", 1);
    assert!(rt; s != other);
    reads_nothing(&rt, &second, &s);
    writes(&rt, &second, &s, None);
    drop_table(first);
    drop_table(second);
}

#[test]
fn a_symbol_of_another_table_is_refused(rt: HostRuntime) {
    let alloc = rt.alloc();
    let mut first = new_table(alloc, 1);
    let mut second = new_table(alloc, 2);
    let s = intern_new(&rt, &mut first, "x", 1);
    let twin = clone(&rt, &mut first, &s, Some(2));
    let s = refused_in_each_way(&rt, &mut second, s, Refusal::Foreign);
    assert!(rt; s == twin);
    is_stored(&rt, &first, &s, "x", 2);
    release(&rt, &mut first, s, 1);
    is_stored(&rt, &first, &twin, "x", 1);
    release(&rt, &mut first, twin, 0);
    drop_table(first);
    drop_table(second);
}

#[test]
fn foreign_comes_before_full(rt: HostRuntime) {
    let alloc = rt.alloc();
    let mut first = new_table(alloc, 1);
    let limits = Limits { top: 1, numbers: 1 };
    let mut full = limited_table(alloc, 2, limits);
    let s = intern_new(&rt, &mut first, "x", 1);
    let x = intern_new(&rt, &mut full, "x", 1);
    not_cloned(&rt, &mut full, &x, Refusal::CountFull);
    not_owned(&rt, &mut full, x.as_ref(), Refusal::CountFull);
    let _ = refused_in_each_way(&rt, &mut full, s, Refusal::Foreign);
    is_stored(&rt, &full, &x, "x", 1);
    drop_table(first);
    drop_table(full);
}

#[test]
fn foreign_comes_before_gone(rt: HostRuntime) {
    let alloc = rt.alloc();
    let mut first = new_table(alloc, 1);
    let mut second = new_table(alloc, 2);
    let mut s = intern_new(&rt, &mut first, "x", 1);
    free(&rt, &mut first, &mut s, 0);
    let s = refused_in_each_way(&rt, &mut second, s, Refusal::Foreign);
    let _ = refused_in_each_way(&rt, &mut first, s, Refusal::Gone);
    drop_table(first);
    drop_table(second);
}

#[test]
fn gone_comes_before_full(rt: HostRuntime) {
    let limits = Limits { top: 1, numbers: 2 };
    let mut table = limited_table(rt.alloc(), 1, limits);
    let mut stale = intern_new(&rt, &mut table, "x", 1);
    free(&rt, &mut table, &mut stale, 0);
    let x = intern_new(&rt, &mut table, "x", 1);
    not_cloned(&rt, &mut table, &x, Refusal::CountFull);
    let stale = refused_in_each_way(&rt, &mut table, stale, Refusal::Gone);
    assert!(rt; stale != x);
    is_stored(&rt, &table, &x, "x", 1);
    drop_table(table);
}

#[test]
fn full_is_told_from_used_up(rt: HostRuntime) {
    let limits = Limits { top: 1, numbers: 3 };
    let mut table = limited_table(rt.alloc(), 1, limits);
    let _ = intern_new(&rt, &mut table, "x", 1);
    let _ = integer(&rt, &mut table, 256);
    let _ = generated(&rt, &mut table, 256);
    not_interned(&rt, &mut table, "x", Refusal::CountFull);
    no_integer(&rt, &mut table, 256, Refusal::CountFull);
    no_generated(&rt, &mut table, 256, Refusal::CountFull);
    not_interned(&rt, &mut table, "y", Refusal::NumbersUsedUp);
    no_integer(&rt, &mut table, 257, Refusal::NumbersUsedUp);
    no_generated(&rt, &mut table, 257, Refusal::NumbersUsedUp);
    keeps(&rt, &table, 3);
    drop_table(table);
}

/// Each call that takes a symbol refuses this one for the same reason, and changes nothing. It
/// gives the symbol back.
fn refused_in_each_way(
    rt: &impl Abort,
    table: &mut SymbolTable,
    mut symbol: Symbol,
    reason: Refusal,
) -> Symbol {
    let len = table.len();
    reads_nothing(rt, table, &symbol);
    not_cloned(rt, table, &symbol, reason);
    not_owned(rt, table, symbol.as_ref(), reason);
    not_decreased(rt, table, &mut symbol, reason);
    let back = not_released(rt, table, symbol, reason);
    keeps(rt, table, len);
    back
}
